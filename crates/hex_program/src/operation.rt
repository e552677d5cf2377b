//! The operations of `fhex`, which run over an input and put their output into a sink.

ghost use Rattle.std.specs.Prelude.{◌≡◌, ◌++◌, ◌∷◌, []};
ghost use Rattle.hex_core.specs.Text.{text};
ghost use Rattle.hex_io.specs.SinkState.{Puts};
ghost use Rattle.hex_program.specs.Operations.{Runs, op_of_word, without_newline};

use hex_codec::hex_decode_vec_with_case;
use hex_core::{CheckCase, Error};
use hex_io::laws::puts_in_a_row_are_one;
use hex_io::{Hex, HexFlags, Sink, WriteFault, put_all};
use std::alloc::{Allocator, Global};

/// What `fhex` does with its input.
#[derive(Clone, Copy, Debug, PartialEq, Eq)]
pub enum Op {
    /// Writes the lowercase digits of the input and a newline.
    Encode,
    /// Writes the uppercase digits of the input and a newline.
    EncodeUpper,
    /// Decodes digits of either case.
    Decode,
    /// Decodes digits whose letters are lowercase.
    DecodeLower,
    /// Decodes digits whose letters are uppercase.
    DecodeUpper,
}

impl Op {
    /// Returns the operation that a word names, or `None` for any other word.
    ///
    /// ```rust
    /// assert_eq!(rt; Op::from_word("encode-upper"), Some(Op::EncodeUpper));
    /// assert_eq!(rt; Op::from_word("Encode"), None);
    /// ```
    pub fn from_word(word: &str) -> Option<Op>
        ensures answer { result ≡ op_of_word word.now }
    {
        match word {
            "encode" => Some(Op::Encode),
            "encode-upper" => Some(Op::EncodeUpper),
            "decode" => Some(Op::Decode),
            "decode-lower" => Some(Op::DecodeLower),
            "decode-upper" => Some(Op::DecodeUpper),
            _ => None,
        }
    }
}

/// Why a run did not put all of its output.
#[derive(Clone, Copy, Debug, PartialEq, Eq)]
pub enum RunFault {
    /// The input is not valid for the operation. Nothing was put.
    Codec(Error),
    /// A put failed. The sink has taken a first part of the output.
    Write(WriteFault),
    /// The allocation failed. Nothing was put.
    OutOfMemory,
}

// Returns the input without its final newline, if it has one.
fn digits_in(input: &[u8]) -> &[u8]
    ensures { result.now ≡ without_newline input.now }
{
    match input {
        [digits @ .., b'\n'] => digits,
        _ => input,
    }
}

// Puts the digits of some bytes and a newline. Allocates nothing.
fn put_text_line<S: Sink>(sink: &mut S, upper: bool, bytes: &[u8]) -> Result<(), WriteFault>
    ensures { Puts (S.state sink.old) (S.state sink.new) result (text upper bytes.now ++ 10 ∷ []) }
{
    puts_in_a_row_are_one();
    let flags = HexFlags {
        upper,
        ..HexFlags::default()
    };
    Hex::new(bytes).write_to(sink, &flags)?;
    put_all(sink, b"\n")
}

/// Does the same as [`run`] with any allocator, so that a test can make an allocation fail.
pub fn run_in<A: Allocator + Drop, S: Sink>(
    alloc: A,
    op: Op,
    input: &[u8],
    sink: &mut S,
) -> Result<(), RunFault>
    ensures answer { Runs op input.now (S.state sink.old) (S.state sink.new) result }
{
    let case = match op {
        Op::Encode => return put_text_line(sink, false, input).map_err(RunFault::Write),
        Op::EncodeUpper => return put_text_line(sink, true, input).map_err(RunFault::Write),
        Op::Decode => CheckCase::None,
        Op::DecodeLower => CheckCase::Lower,
        Op::DecodeUpper => CheckCase::Upper,
    };
    // All digits are decoded before the first put, so that invalid input puts nothing.
    match hex_decode_vec_with_case(alloc, digits_in(input), case) {
        Ok(bytes) => put_all(sink, bytes.as_slice()).map_err(RunFault::Write),
        Err(Error::OutOfMemory) => Err(RunFault::OutOfMemory),
        Err(e) => Err(RunFault::Codec(e)),
    }
}

/// Runs an operation over all of `input`, and puts its output into `sink`.
///
/// Encoding puts two digits for each byte of the input, and one newline. It allocates nothing.
/// Decoding leaves out one newline at the end of the input, if there is one. It decodes all the
/// rest before it puts the first byte.
///
/// On `Ok` the sink has taken exactly the output, and has counted no failure.
///
/// # Errors
///
/// - [`RunFault::Codec`] if the input is not valid. Nothing was put. The error is
///   [`Error::OddLength`] if the number of digits is odd. Otherwise it is [`Error::InvalidChar`]
///   with the first byte that the operation does not accept as a digit.
/// - [`RunFault::OutOfMemory`] if decoding cannot allocate its output. Nothing was put. The number
///   of digits is then even and not 0.
/// - [`RunFault::Write`] if a put failed, which ends the run. The sink has then taken a first part
///   of the output, and has counted one more failure.
///
/// ```rust
/// let mut buffer = [0; 16];
/// let mut sink = SliceSink::new(&mut buffer);
/// run(rt.alloc(), Op::EncodeUpper, &[0xab], &mut sink)?;
/// assert_eq!(rt; sink.written(), b"AB\n".as_slice());
/// ```
pub fn run<S: Sink>(alloc: Global, op: Op, input: &[u8], sink: &mut S) -> Result<(), RunFault>
    ensures answer { Runs op input.now (S.state sink.old) (S.state sink.new) result }
{
    run_in(alloc, op, input, sink)
}
