//! Functions that check and decode hex digits.

ghost use Rattle.std.specs.Prelude.{◌≡◌, ◌*◌, ◌↔◌, IsTrue, None, length};
ghost use Rattle.std.specs.Borrow.{sem};
ghost use Rattle.hex_core.specs.declared.digit.CheckCase.TheVariants as policy;
ghost use Rattle.hex_core.specs.Calls.{Answers, Decodes, DecodesFront};
ghost use Rattle.hex_core.specs.Loan.{LendsAnswer};
ghost use Rattle.hex_core.specs.Refusal.{first_invalid_char};
ghost use Rattle.hex_core.specs.Search.{first_invalid};
ghost use Rattle.hex_core.specs.Text.{Spells};
ghost use Rattle.hex_codec.specs.Calls.{ArrayIsSpelled, DecodesArray, DecodesVec, FrontIsSpelled, LentIsSpelled, VecIsSpelled};

use hex_core::{Backend, CheckCase, Error};
use std::alloc::Allocator;

/// Returns whether every byte of `src` is a hex digit. Letters may have either case.
///
/// The length does not matter. The result is also true if `src` has an odd number of digits or is
/// empty. You need not call this function before you decode, because the functions that decode make
/// the same test.
///
/// ```rust
/// assert!(rt; hex_check(b"00aBcD"));
/// assert!(rt; hex_check(b"a"));
/// assert!(rt; !hex_check(b"0x01"));
/// ```
#[inline(always)]
pub fn hex_check(src: &[u8]) -> bool
    ensures valid { IsTrue result ↔ (first_invalid policy.None src.now ≡ None) }
{
    hex_check_with_case(src, CheckCase::None)
}

/// Returns whether every byte of `src` is a hex digit that `case` accepts.
///
/// The length of `src` does not matter, as in [`hex_check`].
///
/// ```rust
/// assert!(rt; hex_check_with_case(b"ab01", CheckCase::Lower));
/// assert!(rt; !hex_check_with_case(b"AB01", CheckCase::Lower));
/// ```
#[inline(always)]
pub fn hex_check_with_case(src: &[u8], case: CheckCase) -> bool
    ensures valid { IsTrue result ↔ (first_invalid case src.now ≡ None) }
{
    Backend::plain().check(src, case)
}

/// Decodes all of `src` into the start of `dst`. Letters may have either case. Returns the written
/// part of `dst`.
///
/// `src` must be an even number of hex digits, without prefix, space or separator. Two digits make
/// a byte, and the first is its high half. The result has `src.len() / 2` bytes and borrows only
/// `dst`. The bytes of `dst` after it are unchanged. If `src` is empty, the result is empty and
/// nothing changes.
///
/// # Errors
///
/// The conditions are tested in this order. Each error leaves all of `dst` unchanged, even if the
/// invalid byte is the last one.
///
/// 1. [`Error::OddLength`] if `src` has an odd number of bytes.
/// 2. [`Error::OutputTooSmall`] if `dst` has fewer than `src.len() / 2` bytes.
/// 3. [`Error::InvalidChar`] if a byte is not a hex digit. The error has the first such byte and
///    its index.
///
/// ```rust
/// let mut buffer = [0xa5; 5];
/// let bytes = hex_decode(b"00aBcD", &mut buffer)?;
/// bytes[0] = 0xff;
/// assert_eq!(rt; buffer, [0xff, 0xab, 0xcd, 0xa5, 0xa5]);
/// ```
#[inline(always)]
pub fn hex_decode<'a>(src: &[u8], dst: &'a mut [u8]) -> Result<&'a mut [u8], Error>
    ensures* lends { sem 𝓛 (LendsAnswer dst.entry result) }
    ensures answer { DecodesFront policy.None src.now (length dst.old) result }
    ensures spelled { LentIsSpelled policy.None src.now (length dst.old) result }
{
    let case = CheckCase::None;
    Backend::plain().decode_slice(src, dst, case)
}

/// Decodes all of `src` into the start of `dst`, if `case` accepts its digits. Returns the written
/// part of `dst`.
///
/// The lengths and the borrow are those of [`hex_decode`].
///
/// # Errors
///
/// The errors are those of [`hex_decode`], in the same order. [`Error::InvalidChar`] has the first
/// byte that `case` does not accept, even if a byte that is no hex digit follows.
///
/// ```rust
/// let mut buffer = [0; 2];
/// hex_decode_with_case(b"AB01", &mut buffer, CheckCase::Upper)?;
/// assert_eq!(rt; buffer, [0xab, 1]);
/// assert!(rt; hex_decode_with_case(b"ab01", &mut buffer, CheckCase::Upper).is_err());
/// ```
#[inline(always)]
pub fn hex_decode_with_case<'a>(
    src: &[u8],
    dst: &'a mut [u8],
    case: CheckCase,
) -> Result<&'a mut [u8], Error>
    ensures* lends { sem 𝓛 (LendsAnswer dst.entry result) }
    ensures answer { DecodesFront case src.now (length dst.old) result }
    ensures spelled { LentIsSpelled case src.now (length dst.old) result }
{
    Backend::plain().decode_slice(src, dst, case)
}

/// Decodes all of `src` into the start of `dst`, if `case` accepts its digits. Returns the number
/// of bytes written, which is `src.len() / 2`.
///
/// This function does the same as [`hex_decode_with_case`], but returns no borrow. Use it if a
/// proof must say what the whole buffer holds afterwards. The bytes of `dst` after the written ones
/// are unchanged.
///
/// # Errors
///
/// The errors are those of [`hex_decode_with_case`], in the same order. Each leaves all of `dst`
/// unchanged.
///
/// ```rust
/// let mut buffer = [0xa5; 4];
/// let written = hex_decode_into(b"00aBcD", &mut buffer, CheckCase::None)?;
/// assert_eq!(rt; written, 3);
/// assert_eq!(rt; buffer, [0, 0xab, 0xcd, 0xa5]);
/// ```
#[inline(always)]
pub fn hex_decode_into(src: &[u8], dst: &mut [u8], case: CheckCase) -> Result<usize, Error>
    ensures answer { Decodes case src.now dst.old dst.new result }
    ensures spelled { FrontIsSpelled case src.now dst.old dst.new result }
{
    Backend::plain().decode_into(src, dst, case)
}

/// Decodes `src` into an array of exactly `N` bytes. Letters may have either case. It allocates
/// nothing.
///
/// `src` must have exactly `2 * N` digits. An empty `src` is accepted only if `N` is 0.
///
/// # Errors
///
/// The conditions are tested in this order.
///
/// 1. [`Error::OddLength`] if `src` has an odd number of bytes.
/// 2. [`Error::LengthMismatch`] if `src.len() / 2` is not `N`. The error has both numbers.
/// 3. [`Error::InvalidChar`] if a byte is not a hex digit. The error has the first such byte and
///    its index.
///
/// ```rust
/// assert_eq!(rt; hex_decode_array::<4>(b"0001aBff")?, [0, 1, 0xab, 0xff]);
/// assert!(rt; hex_decode_array::<4>(b"0001").is_err());
/// ```
#[inline(always)]
pub fn hex_decode_array<const N: usize>(src: &[u8]) -> Result<[u8; N], Error>
    ensures answer { DecodesArray policy.None src.now N result }
    ensures spelled { ArrayIsSpelled policy.None src.now N result }
{
    hex_decode_array_with_case(src, CheckCase::None)
}

/// Decodes `src` into an array of exactly `N` bytes, if `case` accepts its digits. It allocates
/// nothing.
///
/// # Errors
///
/// The errors are those of [`hex_decode_array`], in the same order. A letter that `case` does not
/// accept is an [`Error::InvalidChar`].
///
/// ```rust
/// let bytes = hex_decode_array_with_case::<2>(b"AB01", CheckCase::Upper)?;
/// assert_eq!(rt; bytes, [0xab, 1]);
/// assert!(rt; hex_decode_array_with_case::<2>(b"ab01", CheckCase::Upper).is_err());
/// ```
#[inline(always)]
pub fn hex_decode_array_with_case<const N: usize>(
    src: &[u8],
    case: CheckCase,
) -> Result<[u8; N], Error>
    ensures answer { DecodesArray case src.now N result }
    ensures spelled { ArrayIsSpelled case src.now N result }
{
    if src.len() % 2 == 1 {
        return Err(Error::OddLength);
    }
    let actual = src.len() / 2;
    if actual != N {
        return Err(Error::LengthMismatch {
            expected: N,
            actual,
        });
    }
    let mut bytes = [0u8; N];
    match decode_discarding(src, &mut bytes, case) {
        Ok(()) => Ok(bytes),
        Err(e) => Err(e),
    }
}

/// Decodes all of `src` into a new vector. Letters may have either case.
///
/// It allocates `src.len() / 2` bytes, once. This happens after the length is tested and before any
/// byte is tested. If `src` is empty, it allocates nothing.
///
/// # Errors
///
/// The conditions are tested in this order.
///
/// 1. [`Error::OddLength`] if `src` has an odd number of bytes, even if no memory is left.
/// 2. [`Error::OutOfMemory`] if the allocation fails.
/// 3. [`Error::InvalidChar`] if a byte is not a hex digit. The error has the first such byte and
///    its index.
///
/// ```rust
/// let bytes = hex_decode_vec(rt.alloc(), b"00aBff")?;
/// assert_eq!(rt; bytes.as_slice(), [0, 0xab, 0xff].as_slice());
/// ```
pub fn hex_decode_vec<A: Allocator + Drop>(alloc: A, src: &[u8]) -> Result<Vec<u8, A>, Error>
    ensures answer { DecodesVec policy.None src.now result }
    ensures spelled { VecIsSpelled policy.None src.now result }
{
    hex_decode_vec_with_case(alloc, src, CheckCase::None)
}

/// Decodes all of `src` into a new vector, if `case` accepts its digits.
///
/// It allocates like [`hex_decode_vec`].
///
/// # Errors
///
/// The errors are those of [`hex_decode_vec`], in the same order. A letter that `case` does not
/// accept is an [`Error::InvalidChar`].
///
/// ```rust
/// assert!(rt; hex_decode_vec_with_case(rt.alloc(), b"AB", CheckCase::Lower).is_err());
/// ```
pub fn hex_decode_vec_with_case<A: Allocator + Drop>(
    alloc: A,
    src: &[u8],
    case: CheckCase,
) -> Result<Vec<u8, A>, Error>
    ensures answer { DecodesVec case src.now result }
    ensures spelled { VecIsSpelled case src.now result }
{
    if src.len() % 2 == 1 {
        return Err(Error::OddLength);
    }
    if src.is_empty() {
        return Ok(Vec::new(alloc));
    }
    let Ok(mut bytes) = Vec::from_elem(alloc, 0u8, src.len() / 2) else {
        return Err(Error::OutOfMemory);
    };
    decode_discarding(src, bytes.as_mut_slice(), case)?;
    Ok(bytes)
}

// A buffer of more bytes is decoded block by block, so that the source is read only once. An invalid
// byte leaves it partly written, which does no harm, because the caller then discards it.
const OWNED_OVER: usize = 1024;

// Decodes `src` over all of `dst`. On an error `dst` may be partly written, and the caller discards
// it.
#[inline(always)]
fn decode_discarding(src: &[u8], dst: &mut [u8], case: CheckCase) -> Result<(), Error>
    requires { length src.now ≡ 2 * length dst.old }
    ensures { Answers (first_invalid_char case src.now) (λ _. Spells case src.now dst.new) result }
{
    let decoded = if dst.len() > OWNED_OVER {
        Backend::plain().decode_owned(src, dst, case)
    } else {
        Backend::plain().decode(src, dst, case)
    };
    if !decoded {
        return Err(Backend::plain().first_error(src, case));
    }
    Ok(())
}
