//! The program `fhex` over given arguments, an input and two outputs.

ghost use Rattle.std.specs.Prelude.{◌≡◌, ◌++◌, ◌∷◌, [], map, Err, IfSome};
ghost use Rattle.std.specs.Io.KnownBytes.{Keeps};
ghost use Rattle.hex_program.specs.Serving.{EndsOp, Says, Serves, ServesVectors, Outputs, status_after, status_of};
ghost use Rattle.hex_program.specs.inside.{EndsRun};

use crate::failure::Failure;
use crate::input::read_input;
use crate::operation::{Op, RunFault, run_in};
use crate::vectors::{VECTORS, Vector, run_vectors};
use arrayvec::ArrayString;
use hex_io::{WriterSink, put_all};
use std::alloc::{Allocator, Global};
use std::fmt::{self, Display};
use std::io::{Read, Write};

// The room for a line and its newline, in bytes. Every line fits.
const LINE: usize = 128;

// Ends a run. If it had no fault, its output is flushed. Otherwise the result is the fault as a
// failure.
fn finish<W: Write>(out: &mut W, ran: Result<(), RunFault>) -> Result<(), Failure>
    ensures ended { EndsRun ran result }
    ensures kept { Keeps (W.contents out.old) (W.contents out.new) }
{
    match ran {
        Ok(()) => out.flush().map_err(|_| Failure::WriteFailed),
        Err(RunFault::Codec(e)) => Err(Failure::Codec(e)),
        Err(RunFault::Write(_)) => Err(Failure::WriteFailed),
        Err(RunFault::OutOfMemory) => Err(Failure::OutOfMemory),
    }
}

// Writes a text and flushes it. A failed write is not tried again.
fn write_text<W: Write>(out: W, text: &[u8]) -> (Result<(), Failure>, W)
    ensures { Outputs text.now (W.contents out) (W.contents result.1) result.0 }
{
    let mut sink = WriterSink::new(out);
    let put = put_all(&mut sink, text).map_err(RunFault::Write);
    let mut out = sink.into_inner();
    let ended = finish(&mut out, put);
    (ended, out)
}

// Writes a line, with its newline, and flushes it. The writer gets the line in one piece, so that
// lines of several processes do not mix.
pub(crate) fn print_line<W: Write, M: Display>(out: W, line: &M) -> (Result<(), Failure>, W)
    ensures { IfSome (M.output line.now) (λ line. Outputs (line ++ 10 ∷ []) (W.contents out) (W.contents result.1) result.0) }
{
    let mut text = ArrayString::<LINE>::new();
    // This cannot fail, because the buffer has room for each line that a program prints.
    let Ok(()) = fmt::Write::write_fmt(&mut text, format_args!("{line}\n")) else {
        return (Err(Failure::WriteFailed), out);
    };
    write_text(out, text.as_bytes())
}

/// Writes the line of a failure to `err`. Returns the exit status of the failure and `err`. An error
/// of `err` ends the line early, and does not change the status. Nothing is tried again.
pub fn refuse<E: Write>(err: E, failure: Failure) -> (u8, E)
    ensures status { result.0 ≡ status_of failure }
    ensures message { Says (E.contents err) (E.contents result.1) (Err failure) }
{
    let (_, err) = print_line(err, &failure);
    (failure.status(), err)
}

// Ends a program. If it failed, the line of the failure is written. Returns the exit status and
// `err`.
pub(crate) fn end<E: Write>(err: E, ended: Result<(), Failure>) -> (u8, E)
    ensures status { result.0 ≡ status_after ended }
    ensures message { Says (E.contents err) (E.contents result.1) ended }
{
    match ended {
        Ok(()) => (0, err),
        Err(failure) => refuse(err, failure),
    }
}

// Reads the input, runs an operation over it and flushes the output.
fn serve_op<A: Allocator, R: Read, W: Write>(
    alloc: &A,
    op: Op,
    input: &mut R,
    out: W,
) -> (Result<(), Failure>, W)
    ensures { EndsOp op (R.remaining input.old) (R.remaining input.new)
        (W.contents out) (W.contents result.1) result.0 }
{
    let source = match read_input(alloc, input) {
        Ok(source) => source,
        Err(failure) => return (Err(failure), out),
    };
    let mut sink = WriterSink::new(out);
    let ran = run_in(alloc, op, source.as_slice(), &mut sink);
    let mut out = sink.into_inner();
    let ended = finish(&mut out, ran);
    (ended, out)
}

/// Runs the vectors of `table` by [`run_vectors`], writes its lines to `out` and flushes it. Returns
/// the exit status and the two writers. The status is 0 if no vector failed, and 1 if one did.
///
/// If a write or the flush fails, the status is 3, and `write failed` is written to `err`. If an
/// allocation fails, it is 3 too, and `out of memory` is written.
pub fn serve_vectors<A: Allocator, W: Write, E: Write>(
    alloc: &A,
    table: &[Vector<'_>],
    out: W,
    err: E,
) -> (u8, W, E)
    ensures answer { ServesVectors (E.contents err) (E.contents result.2) result.0 }
{
    let Ok(report) = run_vectors(alloc, table) else {
        let (status, err) = refuse(err, Failure::OutOfMemory);
        return (status, out, err);
    };
    let mut sink = WriterSink::new(out);
    let put = put_all(&mut sink, report.lines.as_bytes()).map_err(RunFault::Write);
    let mut out = sink.into_inner();
    match finish(&mut out, put) {
        Ok(()) => (u8::from(report.failed > 0), out, err),
        Err(failure) => {
            let (status, err) = refuse(err, failure);
            (status, out, err)
        }
    }
}

/// Does the same as [`serve`] with any allocator, so that a test can make an allocation fail.
pub fn serve_in<A: Allocator, R: Read, W: Write, E: Write>(
    alloc: &A,
    words: &[&str],
    input: &mut R,
    out: W,
    err: E,
) -> (u8, W, E)
    ensures answer { Serves (map (λ w. w.now) words.now) (R.remaining input.old)
        (R.remaining input.new) (W.contents out) (W.contents result.1)
        (E.contents err) (E.contents result.2) result.0 }
{
    let op = match words {
        ["vectors"] => return serve_vectors(alloc, &VECTORS, out, err),
        [word] => Op::from_word(word),
        _ => None,
    };
    let (ended, out) = match op {
        Some(op) => serve_op(alloc, op, input, out),
        None => (Err(Failure::Usage), out),
    };
    let (status, err) = end(err, ended);
    (status, out, err)
}

/// Runs `fhex` over the given arguments, input and outputs. Returns the exit status and the two
/// writers.
///
/// `words` are the arguments of the program, without its name. They are tested first. If there is
/// exactly one and it names an [`Op`], the function reads all of `input`, which may have at most
/// [`INPUT_LIMIT`](crate::INPUT_LIMIT) bytes. It then writes the output of the operation to `out`,
/// and flushes it. If the only word is `vectors`, it does not read `input`. It writes the lines of
/// the stored vectors to `out`, and flushes it.
///
/// | Status | When | Written to `err`, as one line |
/// |---|---|---|
/// | 0 | the whole output was written to `out` | nothing |
/// | 1 | the input is refused; nothing was written to `out` | the text of the [`Error`](hex_core::Error) |
/// | 1 | a stored vector failed | nothing |
/// | 2 | `words` is not one of these words; nothing was read or written to `out` | the usage |
/// | 3 | a failure of the system | `read failed`, `write failed`, `out of memory` |
/// | 3 | the input is longer than the limit | `input too long` |
///
/// After `write failed`, a leading part of the output may have been written to `out`. After any
/// other message nothing was written there.
///
/// Nothing is tried again after an error of the reader or of a writer. An error of `err` ends the
/// line, and does not change the status. The contract says which bytes were read and written if the
/// types of reader and writers model them.
///
/// ```rust
/// let mut input: &[u8] = b"hello";
/// let (out, err) = (Vec::new(rt.alloc()), Vec::new(rt.alloc()));
/// let (status, out, _) = serve(rt.alloc(), &["encode"], &mut input, out, err);
/// assert_eq!(rt; status, 0);
/// assert_eq!(rt; out.as_slice(), b"68656c6c6f\n".as_slice());
/// ```
pub fn serve<R: Read, W: Write, E: Write>(
    alloc: Global,
    words: &[&str],
    input: &mut R,
    out: W,
    err: E,
) -> (u8, W, E)
    ensures answer { Serves (map (λ w. w.now) words.now) (R.remaining input.old)
        (R.remaining input.new) (W.contents out) (W.contents result.1)
        (E.contents err) (E.contents result.2) result.0 }
{
    serve_in(&alloc, words, input, out, err)
}
