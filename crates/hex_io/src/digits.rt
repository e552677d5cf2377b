//! Writes digits part by part, with separators between pieces if there is a group, and puts them
//! into sinks.

ghost use Rattle.std.specs.Prelude.{◌≡◌, ◌*◌, ◌<◌, ◌≤◌, ◌∷◌, ◌++◌, [], if◌then◌else◌, length};
ghost use Rattle.std.specs.Str.{IsAscii};
ghost use Rattle.hex_core.specs.Text.{text};
ghost use Rattle.hex_codec.specs.GroupedWriting.{grouped, separator};
ghost use Rattle.hex_io.specs.Frame.{digits_by};
ghost use Rattle.hex_io.specs.SinkState.{Puts};
ghost use Rattle.hex_io.specs.inside.{Continues, FitsPiece, HasRoomFor};

use crate::sink::{Sink, WriteFault, put_all};
use hex_codec::grouped::write_with_room;
use hex_codec::{Group, hex_encode_into};

/// The number of source bytes that are encoded at once.
pub const ENCODE_CHUNK: usize = 512;

/// The length of the longest source, in bytes, for which a smaller buffer is used. Clearing the
/// large buffer would cost too much for a digest or for a line of a dump.
pub const SHORT_SOURCE: usize = 128;

/// Writes the digits of `bytes` into the start of `buffer`, and returns them. `buffer` must have
/// room for them.
pub fn encoded<'b>(bytes: &[u8], upper: bool, buffer: &'b mut [u8]) -> &'b [u8]
    requires { 2 * length bytes.now ≤ length buffer.old }
    ensures text { result.now ≡ text upper bytes.now }
    ensures ascii { IsAscii result.now }
{
    // A call of `hex_encode` would do the same, but would cost each crate above this one a long check.
    // docs/DECISIONS.md says why.
    let len = hex_encode_into(bytes, buffer, upper).unwrap();
    &buffer[..len]
}

/// Puts the digits of `bytes` into `sink`, without sign, prefix and padding. They are in groups if
/// there is a group, and uppercase if `upper` is true.
///
/// On `Ok` the sink has taken exactly these digits, and has counted no failure. Nothing is
/// allocated. The number and the lengths of the puts are unspecified.
///
/// # Errors
///
/// The errors are those of [`Hex::write_to`](crate::format::Hex::write_to).
///
/// ```rust
/// use hex_codec::Group;
/// use hex_io::format::put_digits;
///
/// let mut buffer = [0; 8];
/// let mut sink = SliceSink::new(&mut buffer);
/// put_digits(&mut sink, &[0x1b, 0x21, 0xab], true, Group::new(1, b':'))?;
/// assert_eq!(rt; sink.written(), b"1B:21:AB".as_slice());
/// ```
pub fn put_digits<S: Sink>(
    sink: &mut S,
    bytes: &[u8],
    upper: bool,
    group: Option<Group>,
) -> Result<(), WriteFault>
    ensures puts { Puts (S.state sink.old) (S.state sink.new) result
        (digits_by group upper bytes.now) }
{
    match group {
        None => put_text(sink, bytes, upper),
        Some(group) => put_grouped(sink, bytes, upper, group),
    }
}

// Does the same as `put_digits` without a group. A short source is put at once, without a loop and from
// a smaller buffer.
fn put_text<S: Sink>(sink: &mut S, bytes: &[u8], upper: bool) -> Result<(), WriteFault>
    ensures { Puts (S.state sink.old) (S.state sink.new) result (text upper bytes.now) }
{
    if bytes.len() <= SHORT_SOURCE {
        return put_all(sink, encoded(bytes, upper, &mut [0; 2 * SHORT_SOURCE]));
    }
    put_parts(sink, bytes, upper, None, &mut [0; 2 * ENCODE_CHUNK])
}

// Does the same as `put_digits` in groups.
fn put_grouped<S: Sink>(
    sink: &mut S,
    bytes: &[u8],
    upper: bool,
    group: Group,
) -> Result<(), WriteFault>
    ensures { Puts (S.state sink.old) (S.state sink.new) result (grouped group upper bytes.now) }
{
    if bytes.len() <= SHORT_SOURCE {
        let mut buffer = [0; 3 * SHORT_SOURCE];
        let end = write_with_room(bytes, &mut buffer, group, upper);
        return put_all(sink, &buffer[..end]);
    }
    put_parts(sink, bytes, upper, Some(group), &mut [0; 3 * ENCODE_CHUNK])
}

// Puts the digits of `bytes`, one part after the other. It is inlined, so that each caller has code for
// its own case: with or without a group.
#[inline(always)]
fn put_parts<S: Sink>(
    sink: &mut S,
    bytes: &[u8],
    upper: bool,
    group: Option<Group>,
    buffer: &mut [u8],
) -> Result<(), WriteFault>
    requires { HasRoomFor group ENCODE_CHUNK (length buffer.old) }
    ensures { Puts (S.state sink.old) (S.state sink.new) result (digits_by group upper bytes.now) }
{
    let mut at = 0;
    'parts: while at < bytes.len() {
        let end = at + next_len(group, at, ENCODE_CHUNK).min(bytes.len() - at);
        put_all(
            sink,
            added_digits(&bytes[at..end], upper, group, at, buffer),
        )?;
        at = end;
    }
    Ok(())
}

/// Returns how many bytes the next part has, at most `most`, after the first `total` bytes.
/// Inside a piece, the part ends with that piece at the latest. At the start of a piece, the part is
/// as many whole pieces as fit, or the beginning of a longer piece.
#[inline(always)]
pub fn next_len(group: Option<Group>, total: usize, most: usize) -> usize
    requires { 0 < most }
    ensures some { 0 < result }
    ensures short { result ≤ most }
    ensures fits { FitsPiece group total result }
{
    let Some(group) = group else {
        return most;
    };
    if total > 0 && total % group.every() > 0 {
        return (group.every() - total % group.every()).min(most);
    }
    most - most % group.every().min(most)
}

/// Writes the digits of `bytes` to `buffer`, in groups if there is a group, and returns them. They
/// continue the text of the `total` bytes before `bytes`. So if `bytes` begin a piece that is not
/// the first one, a separator comes before their digits.
#[inline(always)]
pub fn added_digits<'b>(
    bytes: &[u8],
    upper: bool,
    group: Option<Group>,
    total: usize,
    buffer: &'b mut [u8],
) -> &'b [u8]
    requires some { 0 < length bytes.now }
    requires room { HasRoomFor group (length bytes.now) (length buffer.old) }
    requires fits { FitsPiece group total (length bytes.now) }
    ensures { Continues (digits_by group upper) total bytes.now result.now }
{
    match group {
        None => encoded(bytes, upper, buffer),
        Some(group) => {
            let follows = total > 0 && total % group.every() == 0;
            separated(bytes, upper, group, follows, buffer)
        }
    }
}

// Writes the grouped text of `bytes` to `buffer` and returns it. If the bytes follow a piece, the
// result begins with a separator.
fn separated<'b>(
    bytes: &[u8],
    upper: bool,
    group: Group,
    follows: bool,
    buffer: &'b mut [u8],
) -> &'b [u8]
    requires some { 0 < length bytes.now }
    requires room { 3 * length bytes.now ≤ length buffer.old }
    ensures { result.now ≡ (if follows then separator group ∷ [] else []) ++ grouped group upper bytes.now }
{
    let start = usize::from(follows);
    let end = write_with_room(bytes, &mut buffer[start..], group, upper);
    // If the separator were always stored, LLVM would clear the buffer from its second byte on, which
    // takes longer.
    if follows {
        buffer[0] = group.sep();
    }
    &buffer[..start + end]
}
