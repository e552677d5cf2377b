//! The program `fhex-stream` over given arguments, an input of any length and two outputs. It
//! allocates nothing.

ghost use Rattle.std.specs.Prelude.{◌≡◌, Err, map};
ghost use Rattle.std.specs.Io.KnownBytes.{Keeps};
ghost use Rattle.hex_program.specs.Serving.{status_of};
ghost use Rattle.hex_program.specs.Streaming.{AnswersWords, ServesStream, ServesStreamOp, StreamSays, stream_op_of_word};
ghost use Rattle.hex_program.specs.inside.{EndsStreamRun, RunsStream};

use crate::failure::{Failure, StreamFailure};
use crate::program::print_line;
use hex_codec::Group;
use hex_core::CheckCase;
use hex_io::laws::puts_in_a_row_are_one;
use hex_io::stream::{StreamFault, decode_spaced_stream, encode_grouped_stream, encode_stream};
use hex_io::{Sink, WriterSink, put_all};
use std::io::{Read, Write};

// The number of bytes in a line of `encode-lines`. A line has twice as many digits, as with
// `xxd -p`.
const LINE: usize = 30;

// What `--version` prints.
const VERSION: &str = "fhex-stream 1.0.0";

/// What `fhex-stream` does with its input.
#[derive(Clone, Copy, Debug, PartialEq, Eq)]
pub enum StreamOp {
    /// Writes the lowercase digits of all bytes on one line, which ends with a newline.
    Encode,
    /// Writes the lowercase digits in lines of 60, each of which ends with a newline. For an empty
    /// input it writes nothing.
    EncodeLines,
    /// Decodes digits of either case, and skips all white space.
    Decode,
}

impl StreamOp {
    /// Returns the operation that a word names, or `None` for any other word.
    ///
    /// ```rust
    /// let lines = StreamOp::from_word("encode-lines");
    /// assert_eq!(rt; lines, Some(StreamOp::EncodeLines));
    /// assert_eq!(rt; StreamOp::from_word("vectors"), None);
    /// ```
    pub fn from_word(word: &str) -> Option<StreamOp>
        ensures answer { result ≡ stream_op_of_word word.now }
    {
        match word {
            "encode" => Some(StreamOp::Encode),
            "encode-lines" => Some(StreamOp::EncodeLines),
            "decode" => Some(StreamOp::Decode),
            _ => None,
        }
    }
}

// Runs an operation from a reader to a sink.
fn run_stream<R: Read, S: Sink>(
    op: StreamOp,
    input: &mut R,
    sink: &mut S,
) -> Result<(), StreamFault>
    ensures { RunsStream op (R.remaining input.old) (R.remaining input.new) (S.state sink.old).taken (S.state sink.new).taken result }
{
    puts_in_a_row_are_one();
    match op {
        StreamOp::Encode => {
            encode_stream(input, sink, false)?;
            put_all(sink, b"\n").map_err(StreamFault::Write)
        }
        StreamOp::EncodeLines => {
            let lines = Group::new(LINE, b'\n').unwrap();
            match encode_grouped_stream(input, sink, lines, false)? {
                0 => Ok(()),
                _ => put_all(sink, b"\n").map_err(StreamFault::Write),
            }
        }
        StreamOp::Decode => decode_spaced_stream(input, sink, CheckCase::None).map(|_| ()),
    }
}

// Ends a run. It flushes what was put, even if the input was invalid, but not after a failed put.
fn finish_stream<W: Write>(out: &mut W, ran: Result<(), StreamFault>) -> Result<(), Failure>
    ensures ended { EndsStreamRun ran result }
    ensures kept { Keeps (W.contents out.old) (W.contents out.new) }
{
    let ended = match ran {
        Ok(()) => Ok(()),
        Err(StreamFault::Read) => Err(Failure::ReadFailed),
        Err(StreamFault::Codec(refusal)) => Err(Failure::Codec(refusal)),
        Err(StreamFault::Write(_)) => return Err(Failure::WriteFailed),
    };
    out.flush().map_err(|_| Failure::WriteFailed)?;
    ended
}

// Runs an operation and flushes its output.
fn serve_stream_op<R: Read, W: Write>(
    op: StreamOp,
    input: &mut R,
    out: W,
) -> (Result<(), Failure>, W)
    ensures { ServesStreamOp op (R.remaining input.old) (R.remaining input.new)
        (W.contents out) (W.contents result.1) result.0 }
{
    let mut sink = WriterSink::new(out);
    let ran = run_stream(op, input, &mut sink);
    let mut out = sink.into_inner();
    let ended = finish_stream(&mut out, ran);
    (ended, out)
}

// Does what the arguments of the program ask for, or fails if they name no operation.
fn answer_words<R: Read, W: Write>(
    words: &[&str],
    input: &mut R,
    out: W,
) -> (Result<(), Failure>, W)
    ensures { AnswersWords (map (λ w. w.now) words.now) (R.remaining input.old)
        (R.remaining input.new) (W.contents out) (W.contents result.1) result.0 }
{
    let op = match words {
        ["--help"] => return print_line(out, &Failure::StreamUsage),
        ["--version"] => return print_line(out, &VERSION),
        [word] => StreamOp::from_word(word),
        _ => None,
    };
    match op {
        Some(op) => serve_stream_op(op, input, out),
        None => (Err(Failure::StreamUsage), out),
    }
}

/// Writes the line of a failure of `fhex-stream` to `err`. Returns the exit status of the failure and
/// `err`. An error of `err` ends the line early, and does not change the status. Nothing is tried again.
pub fn refuse_stream<E: Write>(err: E, failure: Failure) -> (u8, E)
    ensures status { result.0 ≡ status_of failure }
    ensures message { StreamSays (E.contents err) (E.contents result.1) (Err failure) }
{
    let (_, err) = print_line(err, &StreamFailure(failure));
    (failure.status(), err)
}

/// Runs `fhex-stream` over the given arguments, input and outputs. Returns the exit status and the
/// two writers.
///
/// `words` are the arguments of the program, without its name. They are tested first. If there is
/// exactly one and it names a [`StreamOp`], the function reads `input` to its end, writes the
/// output as it reads, and flushes it at the end. However it ends, it has written all of the right
/// output to `out`, or a first part of it. After `read failed`, it has written the output for all
/// that was read, except for the newline after the digits, or a last digit that has no partner.
///
/// If the only word is `--help` or `--version`, the function reads nothing. It writes one line to
/// `out`, which is the usage or the name and the version of the program.
///
/// | Status | When | Written to `err`, as one line |
/// |---|---|---|
/// | 0 | the whole output was written to `out` | nothing |
/// | 1 | a byte is invalid; all that was read was decoded, except for at most the last 16,384 bytes | `fhex-stream: ` and the text of the [`Error`](hex_core::Error) |
/// | 1 | the number of digits is odd; all whole pairs were decoded | the same |
/// | 2 | `words` is not one of these words; nothing was read or written to `out` | the usage |
/// | 3 | a failure of the system | `fhex-stream: ` and `read failed` or `write failed` |
///
/// An interrupted read is tried again. After any other error nothing is. An error of `err` ends the
/// line, and does not change the status. The contract says which bytes were read and written if the
/// types of reader and writers model them.
///
/// ```rust
/// let mut input: &[u8] = b"68 65\n6C6C6f\n";
/// let (out, err) = (Vec::new(rt.alloc()), Vec::new(rt.alloc()));
/// let (status, out, _) = serve_stream(&["decode"], &mut input, out, err);
/// assert_eq!(rt; status, 0);
/// assert_eq!(rt; out.as_slice(), b"hello".as_slice());
/// ```
pub fn serve_stream<R: Read, W: Write, E: Write>(
    words: &[&str],
    input: &mut R,
    out: W,
    err: E,
) -> (u8, W, E)
    ensures answer { ServesStream (map (λ w. w.now) words.now) (R.remaining input.old)
        (R.remaining input.new) (W.contents out) (W.contents result.1)
        (E.contents err) (E.contents result.2) result.0 }
{
    let (ended, out) = answer_words(words, input, out);
    match ended {
        Ok(()) => (0, out, err),
        Err(failure) => {
            let (status, err) = refuse_stream(err, failure);
            (status, out, err)
        }
    }
}
