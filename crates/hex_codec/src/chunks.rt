//! Encodes a chunk of bytes in a buffer on the stack.

ghost use Rattle.std.specs.Prelude.{◌≡◌, ◌*◌, ◌≤◌, length};
ghost use Rattle.hex_core.specs.Text.{text};

use hex_core::Backend;
use std::str;

/// The number of bytes in a chunk. A borrowed string does not expose its spare capacity, so digits
/// cannot be written there directly. They are written to a buffer on the stack, one chunk after the
/// other, and copied once.
pub const CHUNK: usize = 256;

/// The number of digits of a whole chunk.
pub const CHUNK_DIGITS: usize = 512;

/// Encodes `chunk`, which has at most [`CHUNK`] bytes, into the start of `buffer`. Returns the
/// digits.
pub fn chunk_text<'a>(buffer: &'a mut [u8; CHUNK_DIGITS], chunk: &[u8], upper: bool) -> &'a str
    requires { 2 * length chunk.now ≤ CHUNK_DIGITS }
    ensures text { result.now ≡ text upper chunk.now }
    ensures len { length result.now ≡ 2 * length chunk.now }
{
    let digits = &mut buffer[..2 * chunk.len()];
    Backend::plain().encode(chunk, digits, upper);
    unsafe { str::from_utf8_unchecked(digits) }
}
