//! Functions that encode bytes as hex digits into the start of a slice. The functions that make or
//! extend a string are re-exported here.

ghost use Rattle.std.specs.Prelude.{length};
ghost use Rattle.std.specs.Borrow.{sem};
ghost use Rattle.hex_core.specs.Calls.{Encodes, EncodesFront};
ghost use Rattle.hex_core.specs.Loan.{LendsAnswer};
ghost use Rattle.hex_core.specs.Text.{lowercase, uppercase};

pub use crate::strings::{
    hex_append, hex_append_into, hex_append_upper, hex_string, hex_string_upper,
};
use hex_core::{Backend, Error};

/// Encodes all of `src` as lowercase digits into the start of `dst`. Returns the written part of
/// `dst`.
///
/// Each byte of `src` gives two ASCII digits, of which the first is its high half. There is no
/// prefix and no separator, and leading zero bytes are encoded too. The result has `2 * src.len()`
/// bytes and borrows only `dst`. The bytes of `dst` after it are unchanged.
///
/// # Errors
///
/// The conditions are tested in this order. Each error leaves all of `dst` unchanged.
///
/// 1. [`Error::Overflow`] if `2 * src.len()` exceeds `usize`.
/// 2. [`Error::OutputTooSmall`] if `dst` has fewer than `2 * src.len()` bytes.
///
/// ```rust
/// let mut buffer = [0; 10];
/// let text = hex_encode(b"hello", &mut buffer)?;
/// assert_eq!(rt; &*text, b"68656c6c6f".as_slice());
/// ```
#[inline(always)]
pub fn hex_encode<'a>(src: &[u8], dst: &'a mut [u8]) -> Result<&'a mut [u8], Error>
    ensures* lends { sem 𝓛 (LendsAnswer dst.entry result) }
    ensures answer { EncodesFront lowercase src.now (length dst.old) result }
{
    let upper = false;
    Backend::plain().encode_slice(src, dst, upper)
}

/// Encodes all of `src` as uppercase digits into the start of `dst`. Returns the written part of
/// `dst`.
///
/// In all other respects it is the same as [`hex_encode`].
///
/// # Errors
///
/// The errors are those of [`hex_encode`], in the same order.
///
/// ```rust
/// let mut buffer = [0; 6];
/// hex_encode_upper(&[0, 0xab, 0xff], &mut buffer)?;
/// assert_eq!(rt; &buffer, b"00ABFF");
/// ```
#[inline(always)]
pub fn hex_encode_upper<'a>(src: &[u8], dst: &'a mut [u8]) -> Result<&'a mut [u8], Error>
    ensures* lends { sem 𝓛 (LendsAnswer dst.entry result) }
    ensures answer { EncodesFront uppercase src.now (length dst.old) result }
{
    let upper = true;
    Backend::plain().encode_slice(src, dst, upper)
}

/// Encodes all of `src` into the start of `dst`, in uppercase if `upper` is true. Returns the
/// number of bytes written, which is `2 * src.len()`.
///
/// This function does the same as [`hex_encode`], but returns no borrow. Use it if a proof must say
/// what the whole buffer holds afterwards. The bytes of `dst` after the written ones are unchanged.
///
/// # Errors
///
/// The errors are those of [`hex_encode`], in the same order. Each leaves all of `dst` unchanged.
///
/// ```rust
/// let mut buffer = [b'-'; 5];
/// assert_eq!(rt; hex_encode_into(&[0, 0xab], &mut buffer, false), Ok(4));
/// assert_eq!(rt; &buffer, b"00ab-");
/// ```
#[inline(always)]
pub fn hex_encode_into(src: &[u8], dst: &mut [u8], upper: bool) -> Result<usize, Error>
    ensures answer { Encodes upper src.now dst.old dst.new result }
{
    Backend::plain().encode_into(src, dst, upper)
}
