//! Functions that make new strings of hex digits, and that append digits to existing strings.

ghost use Rattle.std.specs.Prelude.{◌≡◌, ◌+◌, ◌*◌, ◌<◌, ◌≤◌, ◌++◌, length, drop, IsUtf8, string_bytes, string_len, string_capacity};
ghost use Rattle.std.specs.Borrow.{sem};
ghost use Rattle.std.specs.Str.{IsAscii};
ghost use Rattle.std.specs.Io.BufRead.{Rests};
ghost use Rattle.std.specs.contracts.string.String.{the_row};
ghost use Rattle.hex_core.specs.Text.{lowercase, text, uppercase};
ghost use Rattle.hex_codec.specs.Append.{AnswersSuffix, AppendsDigits, FitsBehind, SucceedsInSpareRoom};
ghost use Rattle.hex_codec.specs.Calls.{EncodesBehind, EncodesPrefixed};

use crate::chunks::{CHUNK, CHUNK_DIGITS, chunk_text};
use hex_core::{Backend, Error};
use std::alloc::Allocator;
use std::str;

/// Encodes all of `src` as a new string of lowercase digits. The string has `2 * src.len()` bytes.
///
/// It allocates exactly this length, once. If `src` is empty, it allocates nothing.
///
/// # Errors
///
/// The conditions are tested in this order.
///
/// 1. [`Error::Overflow`] if `2 * src.len()` exceeds `usize`.
/// 2. [`Error::OutOfMemory`] if the allocation fails. This cannot happen if `src` is empty.
///
/// ```rust
/// let text = hex_string(rt.alloc(), &[0, 0xab, 0xff])?;
/// assert_eq!(rt; text.as_str(), "00abff");
/// ```
pub fn hex_string<A: Allocator + Drop>(alloc: A, src: &[u8]) -> Result<String<A>, Error>
    ensures answer { EncodesBehind string_bytes 0 lowercase src.now result }
{
    prefixed_string(alloc, b"", src, false)
}

/// Encodes all of `src` as a new string of uppercase digits. The string has `2 * src.len()` bytes.
///
/// It allocates like [`hex_string`].
///
/// # Errors
///
/// The errors are those of [`hex_string`], in the same order.
///
/// ```rust
/// let text = hex_string_upper(rt.alloc(), &[0, 0xab, 0xff])?;
/// assert_eq!(rt; text.as_str(), "00ABFF");
/// ```
pub fn hex_string_upper<A: Allocator + Drop>(alloc: A, src: &[u8]) -> Result<String<A>, Error>
    ensures answer { EncodesBehind string_bytes 0 uppercase src.now result }
{
    prefixed_string(alloc, b"", src, true)
}

/// Appends the digits of all of `src` to the text of `dst`, in uppercase if `upper` is true. These
/// are `2 * src.len()` bytes.
///
/// This function does the same as [`hex_append`], but returns no borrow. Use it if a proof must say
/// what the whole string holds afterwards. It allocates like [`hex_append`].
///
/// # Errors
///
/// The errors are those of [`hex_append`], in the same order. Each leaves the text of `dst`
/// unchanged.
///
/// ```rust
/// let mut text = String::from_str(rt.alloc(), "id: ")?;
/// hex_append_into(&[0xab, 0xcd], &mut text, true)?;
/// assert_eq!(rt; text.as_str(), "id: ABCD");
/// ```
pub fn hex_append_into<A: Allocator>(
    src: &[u8],
    dst: &mut String<A>,
    upper: bool,
) -> Result<(), Error>
    ensures answer { FitsBehind (string_len dst.old) src.now result }
    ensures fits { SucceedsInSpareRoom src.now dst.old result }
    ensures appended { AppendsDigits upper src.now result dst.old dst.new }
{
    let Some(added) = src.len().checked_mul(2) else {
        return Err(Error::Overflow);
    };
    if dst.len().checked_add(added).is_none() {
        return Err(Error::Overflow);
    }
    if dst.reserve_exact(added).is_err() {
        return Err(Error::OutOfMemory);
    }
    append_reserved(dst, src, upper);
    Ok(())
}

/// Appends the lowercase digits of all of `src` to the text of `dst`. Returns only the new part of
/// the text, which has `2 * src.len()` bytes.
///
/// If the spare capacity of `dst` suffices, it allocates nothing. Otherwise it allocates once, for
/// exactly the new text. If you append many times to one string, reserve its capacity first.
///
/// # Errors
///
/// The conditions are tested in this order. Each error leaves the text of `dst` unchanged.
///
/// 1. [`Error::Overflow`] if `dst.len() + 2 * src.len()` exceeds `usize`.
/// 2. [`Error::OutOfMemory`] if the allocation fails. This cannot happen if `src` is empty.
///
/// ```rust
/// let mut text = String::from_str(rt.alloc(), "hash: ")?;
/// assert_eq!(rt; hex_append(&[0xab, 0xcd], &mut text)?, "abcd");
/// assert_eq!(rt; text.as_str(), "hash: abcd");
/// ```
pub fn hex_append<'a, A: Allocator>(src: &[u8], dst: &'a mut String<A>) -> Result<&'a str, Error>
    ensures* after_borrow { sem 𝓛 (Rests (the_row A.row A.Allocator) dst.entry
        (λ new. AppendsDigits lowercase src.now result dst.old new)) }
    ensures answer { AnswersSuffix (λ suffix. suffix.now) lowercase src.now dst.old result }
{
    append_in(dst, src, false)
}

/// Appends the uppercase digits of all of `src` to the text of `dst`. Returns only the new part of
/// the text, which has `2 * src.len()` bytes.
///
/// The letters of the existing text are unchanged. It allocates like [`hex_append`].
///
/// # Errors
///
/// The errors are those of [`hex_append`], in the same order. Each leaves the text of `dst`
/// unchanged.
///
/// ```rust
/// let mut text = String::from_str(rt.alloc(), "hash: ")?;
/// assert_eq!(rt; hex_append_upper(&[0xab, 0xcd], &mut text)?, "ABCD");
/// ```
pub fn hex_append_upper<'a, A: Allocator>(
    src: &[u8],
    dst: &'a mut String<A>,
) -> Result<&'a str, Error>
    ensures* after_borrow { sem 𝓛 (Rests (the_row A.row A.Allocator) dst.entry
        (λ new. AppendsDigits uppercase src.now result dst.old new)) }
    ensures answer { AnswersSuffix (λ suffix. suffix.now) uppercase src.now dst.old result }
{
    append_in(dst, src, true)
}

/// Returns a new string, which is a prefix followed by the digits of `src`. The letters are
/// uppercase if `upper` is true. The string has `prefix.len() + 2 * src.len()` bytes.
///
/// Requires every byte of `prefix` to be ASCII.
///
/// It allocates exactly the length of the string, once. If the length is 0, it allocates nothing.
///
/// # Errors
///
/// The conditions are tested in this order.
///
/// 1. [`Error::Overflow`] if `prefix.len() + 2 * src.len()` exceeds `usize`.
/// 2. [`Error::OutOfMemory`] if the allocation fails.
///
/// ```rust
/// let text = prefixed_string(rt.alloc(), b"0x", &[0xab], false)?;
/// assert_eq!(rt; text.as_str(), "0xab");
/// ```
pub fn prefixed_string<A: Allocator + Drop>(
    alloc: A,
    prefix: &[u8],
    src: &[u8],
    upper: bool,
) -> Result<String<A>, Error>
    requires { IsAscii prefix.now }
    ensures answer { EncodesPrefixed prefix.now upper src.now result }
{
    let Some(digits_len) = src.len().checked_mul(2) else {
        return Err(Error::Overflow);
    };
    let Some(len) = digits_len.checked_add(prefix.len()) else {
        return Err(Error::Overflow);
    };
    if len == 0 {
        return Ok(String::new(alloc));
    }
    let Ok(mut string) = Vec::from_elem(alloc, 0u8, len) else {
        return Err(Error::OutOfMemory);
    };
    write_prefixed(string.as_mut_slice(), prefix, src, upper);
    Ok(unsafe { String::from_utf8_unchecked(string) })
}

// Writes a prefix and then the digits of `src` over all of `bytes`.
fn write_prefixed(bytes: &mut [u8], prefix: &[u8], src: &[u8], upper: bool)
    requires { length bytes.old ≡ length prefix.now + 2 * length src.now }
    ensures { bytes.new ≡ prefix.now ++ text upper src.now }
{
    let (front, digits) = bytes.split_at_mut(prefix.len());
    front.copy_from_slice(prefix);
    Backend::plain().encode(src, digits, upper);
}

// Appends the digits of `src` and returns only them. `dst` is the first parameter, because a proof
// learns the final value of what is borrowed only for the first parameter.
fn append_in<'a, A: Allocator>(
    dst: &'a mut String<A>,
    src: &[u8],
    upper: bool,
) -> Result<&'a str, Error>
    ensures* after_borrow { sem 𝓛 (Rests (the_row A.row A.Allocator) dst.entry
        (λ new. AppendsDigits upper src.now result dst.old new)) }
    ensures answer { AnswersSuffix (λ suffix. suffix.now) upper src.now dst.old result }
{
    // The contract of `as_bytes` says that this length is that of the bytes. The contract of `len`
    // does not.
    let start = dst.as_bytes().len();
    hex_append_into(src, dst, upper)?;
    Ok(text_from(dst, start))
}

// Returns the text from byte `start` on.
fn text_from<A: Allocator>(string: &String<A>, start: usize) -> &str
    requires within { start ≤ string_len string.now }
    requires text { IsUtf8 (drop start (string_bytes string.now)) }
    ensures { result.now ≡ drop start (string_bytes string.now) }
{
    unsafe { str::from_utf8_unchecked(&string.as_bytes()[start..]) }
}

// Appends the digits of `src`. The capacity of `dst` suffices for them, so the text is not moved.
fn append_reserved<A: Allocator>(dst: &mut String<A>, src: &[u8], upper: bool)
    requires { string_len dst.old + 2 * length src.now ≤ string_capacity dst.old }
    ensures text { string_bytes dst.new ≡ string_bytes dst.old ++ text upper src.now }
    ensures len { string_len dst.new ≡ string_len dst.old + 2 * length src.now }
    ensures kept { string_capacity dst.old ≤ string_capacity dst.new }
{
    let mut buffer = [0; CHUNK_DIGITS];
    'chunks: for chunk in src.chunks(CHUNK) {
        dst.push_str(chunk_text(&mut buffer, chunk, upper)).unwrap();
    }
}
