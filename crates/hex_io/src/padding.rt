//! The number of padding characters of a text, and copies of a character.

ghost use Rattle.std.specs.Prelude.{◌≡◌, ◌*◌, ◌≤◌, encode_utf8, length};
ghost use Rattle.std.specs.List.{repeat};
ghost use Rattle.hex_io.specs.Frame.{left_padding, padding_of, sign_and_prefix};
ghost use Rattle.hex_io.specs.SinkState.{Puts};

use crate::format::{Align, HexFlags};
use crate::sink::{Sink, WriteFault, put_all};

// The number of copies that are put at once. If each copy were put alone, a writer without a buffer
// would write each one alone.
const COPIES: usize = 64;

const LONGEST_CHARACTER: usize = 4;

/// Returns the number of padding characters for the text of `bytes`. `front` is its sign and
/// prefix. The lengths are subtracted from the width one after the other, because their sum may
/// exceed `usize`.
pub fn padding_len(flags: &HexFlags, front: &[u8], bytes: &[u8]) -> usize
    requires { front.now ≡ sign_and_prefix flags.now }
    ensures { result ≡ padding_of flags.now bytes.now }
{
    let Some(width) = flags.width else {
        return 0;
    };
    let separators = match flags.group {
        None => 0,
        Some(group) => bytes.len().div_ceil(group.every()).saturating_sub(1),
    };
    width
        .saturating_sub(front.len())
        .saturating_sub(bytes.len())
        .saturating_sub(bytes.len())
        .saturating_sub(separators)
}

/// Returns how many of the padding characters come before the text.
pub fn before_text(align: Align, padding: usize) -> usize
    ensures { result ≡ left_padding align padding }
{
    match align {
        Align::Left => 0,
        Align::Right => padding,
        Align::Center => padding / 2,
    }
}

/// Puts `count` copies of the character `fill` into `sink`.
pub fn put_copies<S: Sink>(sink: &mut S, fill: char, count: usize) -> Result<(), WriteFault>
    ensures { Puts (S.state sink.old) (S.state sink.new) result (repeat count (encode_utf8 fill)) }
{
    if count == 0 {
        return Ok(());
    }
    let mut buffer = [0; COPIES * LONGEST_CHARACTER];
    let block = copies_in(&mut buffer, fill, count.min(COPIES));
    'full: for _ in 0..count / COPIES {
        put_all(sink, block)?;
    }
    put_all(sink, &block[..count % COPIES * fill.len_utf8()])
}

// Writes at most `COPIES` copies of a character into the start of the buffer, and returns them.
fn copies_in<'b>(buffer: &'b mut [u8], fill: char, count: usize) -> &'b [u8]
    requires few { count ≤ COPIES }
    requires room { COPIES * LONGEST_CHARACTER ≤ length buffer.old }
    ensures { result.now ≡ repeat count (encode_utf8 fill) }
{
    let mut character = [0; LONGEST_CHARACTER];
    let piece = fill.encode_utf8(&mut character).as_bytes();
    let mut end = 0;
    'copies: for _ in 0..count {
        buffer[end..end + piece.len()].copy_from_slice(piece);
        end += piece.len();
    }
    &buffer[..end]
}
