//! Hex texts of a fixed capacity. They are stored in the value itself, so nothing is allocated.
//!
//! The module has the name of the module in the crate `faster-hex`. The type of the texts is that of
//! the crate `arrayvec`.

ghost use Rattle.hex_core.specs.Text.{lowercase, uppercase};
ghost use Rattle.hex_codec.specs.Calls.{EncodesWithin};

use crate::chunks::{CHUNK, CHUNK_DIGITS, chunk_text};
use arrayvec::ArrayString;
use hex_core::Error;

/// Encodes all of `src` as a text of lowercase digits. The text has `2 * src.len()` bytes and a
/// capacity of `N` bytes.
///
/// If `src` is empty, the text is empty, even if `N` is 0. You can use the rest of the capacity
/// afterwards.
///
/// # Errors
///
/// The conditions are tested in this order.
///
/// 1. [`Error::Overflow`] if `2 * src.len()` exceeds `usize`.
/// 2. [`Error::OutputTooSmall`] if `2 * src.len()` exceeds `N`. The error has the number
///    `2 * src.len()`.
///
/// ```rust
/// let text = heapless_08::hex_string::<4>(&[0xab, 1])?;
/// assert_eq!(rt; text.as_str(), "ab01");
/// let refused = heapless_08::hex_string::<3>(&[0xab, 1]).err();
/// assert_eq!(rt; refused, Some(Error::OutputTooSmall { required: 4 }));
/// ```
pub fn hex_string<const N: usize>(src: &[u8]) -> Result<ArrayString<N>, Error>
    ensures answer { EncodesWithin (λ string. string.bytes) lowercase src.now N result }
{
    string_of(src, false)
}

/// Encodes all of `src` as a text of uppercase digits. The text has `2 * src.len()` bytes and a
/// capacity of `N` bytes.
///
/// # Errors
///
/// The errors are those of [`hex_string`], in the same order.
///
/// ```rust
/// let text = heapless_08::hex_string_upper::<4>(&[0xab, 1])?;
/// assert_eq!(rt; text.as_str(), "AB01");
/// ```
pub fn hex_string_upper<const N: usize>(src: &[u8]) -> Result<ArrayString<N>, Error>
    ensures answer { EncodesWithin (λ string. string.bytes) uppercase src.now N result }
{
    string_of(src, true)
}

// Encodes `src` in one letter case.
fn string_of<const N: usize>(src: &[u8], upper: bool) -> Result<ArrayString<N>, Error>
    ensures { EncodesWithin (λ string. string.bytes) upper src.now N result }
{
    let Some(required) = src.len().checked_mul(2) else {
        return Err(Error::Overflow);
    };
    if N < required {
        return Err(Error::OutputTooSmall { required });
    }
    let mut string = ArrayString::new();
    let mut buffer = [0; CHUNK_DIGITS];
    'chunks: for chunk in src.chunks(CHUNK) {
        string.push_str(chunk_text(&mut buffer, chunk, upper));
    }
    Ok(string)
}
