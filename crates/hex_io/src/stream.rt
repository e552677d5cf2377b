//! Streams of digits, which may be longer than memory. A decoder is fed chunks of any length. The
//! functions decode or encode all that a reader gives into a sink, in constant memory.

ghost use Rattle.std.specs.Prelude.{◌≡◌, ◌↔◌, [], IsErrAnd, IsTrue, Some, length};
ghost use Rattle.std.specs.Io.{ReadsAtMost};
ghost use Rattle.std.specs.Io.KnownBytes.{ReadConsumes};
ghost use Rattle.std.specs.IoError.{error_kind};
ghost use Rattle.hex_core.specs.declared.error.Error.TheVariants.{OddLength};
ghost use Rattle.hex_io.specs.Decoder.{HasFed, reading_of};
ghost use Rattle.hex_io.specs.Frame.{digits_by};
ghost use Rattle.hex_io.specs.Message.{stream_fault_text};
ghost use Rattle.hex_io.specs.Stream.{DecodesSource, DecodesSpacedStream, DecodesStream, EncodesGroupedStream, EncodesSource, EncodesStream};
ghost use Rattle.hex_io.specs.declared.stream.StreamFault.TheVariants as fault;

mod decoder;
mod unspaced;

use crate::digits::{added_digits, next_len};
use crate::sink::{Sink, WriteFault, put_all};
pub use crate::stream::decoder::Decoder;
use hex_codec::Group;
use hex_core::{CheckCase, Error};
use std::io::{self, ErrorKind, Read};
use std::{error, fmt};

// The number of bytes in a chunk. A chunk of digits is twice as long.
const STREAM_CHUNK: usize = 8_192;

/// An error of decoding or encoding a stream.
///
/// ```rust
/// let fault = StreamFault::Read;
/// assert_eq!(rt; fault.to_string(rt.alloc())?.as_str(), "read failed");
/// ```
#[derive(Clone, Copy, Debug, PartialEq, Eq)]
pub enum StreamFault {
    /// A read failed, for another reason than an interrupt. The reader's own error is not kept.
    Read,
    /// A byte is invalid, the number of digits is odd, or the number of bytes exceeds `usize`.
    Codec(Error),
    /// The sink failed.
    Write(WriteFault),
}

impl fmt::Display for StreamFault {
    ghost output = { λ fault. Some (stream_fault_text fault) };

    fn fmt<W: fmt::Write>(&self, f: &mut fmt::Formatter<W>) -> fmt::Result {
        match self {
            StreamFault::Read => f.write_str("read failed"),
            StreamFault::Codec(refusal) => refusal.fmt(f),
            StreamFault::Write(failed) => failed.fmt(f),
        }
    }
}

impl error::Error for StreamFault {}

impl From<Error> for StreamFault {
    ghost from_gives = { λ refusal given. given ≡ fault.Codec refusal };

    fn from(refusal: Error) -> StreamFault {
        StreamFault::Codec(refusal)
    }
}

impl From<WriteFault> for StreamFault {
    ghost from_gives = { λ failed given. given ≡ fault.Write failed };

    fn from(failed: WriteFault) -> StreamFault {
        StreamFault::Write(failed)
    }
}

/// Decodes all that a reader gives into a sink. Returns the number of decoded bytes.
///
/// It reads chunks of up to 16,384 bytes. Nothing is allocated, because buffers of 40 KiB on the
/// stack suffice for a stream of any length. A read that was interrupted is tried again.
///
/// # Errors
///
/// After an error, the bytes of earlier chunks have already been put.
///
/// - [`StreamFault::Read`] if a read failed.
/// - [`StreamFault::Codec`] with [`Error::InvalidChar`] if `case` does not accept a byte as a
///   digit. The error has the first such byte and its index in the stream. The chunk with this
///   byte, which has at most 16,384 bytes, was not decoded. The bytes of all whole pairs before
///   this chunk were put.
/// - [`StreamFault::Codec`] with [`Error::OddLength`] if all bytes are digits and their number is
///   odd. The bytes of all whole pairs were put.
/// - [`StreamFault::Codec`] with [`Error::Overflow`] if the number of bytes read exceeds `usize`.
/// - [`StreamFault::Write`] if a put failed. The sink has taken a first part of the output.
///
/// ```rust
/// let mut input: &[u8] = b"68656C6c6f";
/// let mut buffer = [0; 5];
/// let mut sink = SliceSink::new(&mut buffer);
/// let written = decode_stream(&mut input, &mut sink, CheckCase::None);
/// assert_eq!(rt; written, Ok(5));
/// assert_eq!(rt; sink.written(), b"hello".as_slice());
/// ```
pub fn decode_stream<R: Read, S: Sink>(
    reader: &mut R,
    sink: &mut S,
    case: CheckCase,
) -> Result<usize, StreamFault>
    ensures answer { DecodesStream case (R.remaining reader.old) (R.remaining reader.new)
        (S.state sink.old) (S.state sink.new) result }
{
    decode_by_decoder(reader, sink, Decoder::new(case))
}

/// Does the same as [`decode_stream`], but skips ASCII white space among the digits. So it reads
/// what `xxd -p` and `openssl rand -hex` print.
///
/// # Errors
///
/// The errors are those of [`decode_stream`], in the same cases. [`Error::InvalidChar`] has the
/// first byte that is neither white space nor an accepted digit, and its index in the whole stream.
///
/// ```rust
/// let mut input: &[u8] = b"6865 6C6\nc6f\n";
/// let mut buffer = [0; 5];
/// let mut sink = SliceSink::new(&mut buffer);
/// let written = decode_spaced_stream(&mut input, &mut sink, CheckCase::None);
/// assert_eq!(rt; written, Ok(5));
/// assert_eq!(rt; sink.written(), b"hello".as_slice());
/// ```
pub fn decode_spaced_stream<R: Read, S: Sink>(
    reader: &mut R,
    sink: &mut S,
    case: CheckCase,
) -> Result<usize, StreamFault>
    ensures answer { DecodesSpacedStream case (R.remaining reader.old) (R.remaining reader.new)
        (S.state sink.old) (S.state sink.new) result }
{
    decode_by_decoder(reader, sink, Decoder::spaced(case))
}

// Decodes all that a reader gives by a decoder that has been fed nothing.
fn decode_by_decoder<R: Read, S: Sink>(
    reader: &mut R,
    sink: &mut S,
    mut decoder: Decoder,
) -> Result<usize, StreamFault>
    requires fresh { HasFed decoder [] [] }
    ensures { DecodesSource (reading_of decoder) (R.remaining reader.old) (R.remaining reader.new)
        (S.state sink.old) (S.state sink.new) result }
{
    let mut chunk = [0; 2 * STREAM_CHUNK];
    let mut digits = [0; 2 * STREAM_CHUNK];
    let mut bytes = [0; STREAM_CHUNK];
    let mut total = 0;
    'reads: loop {
        let Ok(count) = read_again(reader, &mut chunk) else {
            return Err(StreamFault::Read);
        };
        if count == 0 {
            decoder.finish()?;
            return Ok(total);
        }
        let written = decoder.feed_through(&chunk[..count], &mut digits, &mut bytes)?;
        put_all(sink, &bytes[..written])?;
        total += written;
    }
}

/// Encodes all that a reader gives into a sink. Returns the number of bytes read.
///
/// It reads chunks of up to 8,192 bytes. Nothing is allocated, because buffers of 32 KiB on the
/// stack suffice for a stream of any length. A read that was interrupted is tried again.
///
/// # Errors
///
/// After `Read` or `Overflow`, the sink has taken the digits of all bytes that were read before.
///
/// - [`StreamFault::Read`] if a read failed.
/// - [`StreamFault::Codec`] with [`Error::Overflow`] if the number of bytes exceeds `usize`.
/// - [`StreamFault::Write`] if a put failed. The sink has taken a first part of the output.
///
/// ```rust
/// let mut input: &[u8] = b"hello";
/// let mut buffer = [0; 10];
/// let mut sink = SliceSink::new(&mut buffer);
/// assert_eq!(rt; encode_stream(&mut input, &mut sink, false), Ok(5));
/// assert_eq!(rt; sink.written(), b"68656c6c6f".as_slice());
/// ```
pub fn encode_stream<R: Read, S: Sink>(
    reader: &mut R,
    sink: &mut S,
    upper: bool,
) -> Result<usize, StreamFault>
    ensures answer { EncodesStream upper (R.remaining reader.old) (R.remaining reader.new)
        (S.state sink.old) (S.state sink.new) result }
{
    encode_by(reader, sink, upper, None)
}

/// Does the same as [`encode_stream`], but writes the digits in groups. The text is that of
/// [`put_digits`](crate::format::put_digits) for all the bytes at once, however the reader cuts
/// them. There is a separator between two pieces, and none before the first piece or after the last
/// one.
///
/// # Errors
///
/// The errors are those of [`encode_stream`], in the same cases. The sink has taken the grouped
/// text of what was read before. If a put failed, it has taken a first part of that text.
///
/// ```rust
/// use hex_codec::Group;
///
/// let lines = Group::new(2, b'\n').ok_or("no group")?;
/// let mut input: &[u8] = b"hello";
/// let mut buffer = [0; 12];
/// let mut sink = SliceSink::new(&mut buffer);
/// let read = encode_grouped_stream(&mut input, &mut sink, lines, false);
/// assert_eq!(rt; read, Ok(5));
/// assert_eq!(rt; sink.written(), b"6865\n6c6c\n6f".as_slice());
/// ```
pub fn encode_grouped_stream<R: Read, S: Sink>(
    reader: &mut R,
    sink: &mut S,
    group: Group,
    upper: bool,
) -> Result<usize, StreamFault>
    ensures answer { EncodesGroupedStream group upper (R.remaining reader.old)
        (R.remaining reader.new) (S.state sink.old) (S.state sink.new) result }
{
    encode_by(reader, sink, upper, Some(group))
}

// Encodes all that a reader gives into a sink, in groups if there is a group.
fn encode_by<R: Read, S: Sink>(
    reader: &mut R,
    sink: &mut S,
    upper: bool,
    group: Option<Group>,
) -> Result<usize, StreamFault>
    ensures { EncodesSource (digits_by group upper) (R.remaining reader.old)
        (R.remaining reader.new) (S.state sink.old) (S.state sink.new) result }
{
    let mut chunk = [0; STREAM_CHUNK];
    let mut buffer = [0; 3 * STREAM_CHUNK];
    let mut total: usize = 0;
    'reads: loop {
        let most = next_len(group, total, STREAM_CHUNK);
        let count = match read_again(reader, &mut chunk[..most]) {
            Ok(0) => return Ok(total),
            Ok(count) => count,
            Err(_) => return Err(StreamFault::Read),
        };
        let digits = added_digits(&chunk[..count], upper, group, total, &mut buffer);
        put_all(sink, digits)?;
        total = total.checked_add(count).ok_or(Error::Overflow)?;
    }
}

// Reads once, and again as long as the read is interrupted. The loop has a bound because the prover
// asks that it ends.
fn read_again<R: Read>(reader: &mut R, buf: &mut [u8]) -> io::Result<usize>
    ensures bound { ReadsAtMost result buf.new }
    ensures bytes { ReadConsumes (R.remaining reader.old) (R.remaining reader.new) result buf.new }
{
    'tries: for _ in 0..u64::MAX {
        let answer = reader.read(buf);
        if !was_interrupted(&answer) {
            return answer;
        }
    }
    Err(io::Error::from(ErrorKind::Interrupted))
}

// Returns whether a read failed because it was interrupted.
fn was_interrupted(answer: &io::Result<usize>) -> bool
    ensures { IsTrue result ↔ IsErrAnd answer.now (λ e. error_kind e ≡ ErrorKind.Interrupted) }
{
    matches!(answer, Err(error) if error.kind() == ErrorKind::Interrupted)
}
