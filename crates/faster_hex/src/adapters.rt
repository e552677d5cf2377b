//! What the JSON modules share: their error, the type of a format, and the functions that all
//! twelve modules call.
//!
//! Use these functions if you need your own format or allocator. Otherwise use the modules.

ghost use Rattle.std.specs.Prelude.{◌≡◌, ◌<◌, ◌^◌, ◌/◌, ℕ, List, IsOk, None, Some, Ok, Err, length, option_map, string_bytes, MatchResult};
ghost use Rattle.serde_json.specs.View.{view};
ghost use Rattle.faster_hex.specs.AdapterMessage.{adapter_error_text};
ghost use Rattle.faster_hex.specs.declared.adapters.AdapterError.TheVariants as adapter;
ghost use Rattle.faster_hex.specs.Adapters.{AnswersArrayRead, AnswersOptionArrayRead, AnswersOptionRead, AnswersOptionWrite, AnswersRead, AnswersWrite, ArrayIsRead, IsReadBack, OptionArrayIsRead, OptionIsReadBack, OptionVecIsRead, ReadFailure, ReadsItsOwn, VecIsRead, Within, WriteFailure, payload_in, prefix, wire_text};

use crate::laws::reading_inverts_writing;
use hex_codec::decode::{hex_decode_array_with_case, hex_decode_vec_with_case};
use hex_codec::strings::prefixed_string;
use hex_core::laws::a_slice_holds_bytes;
use hex_core::{CheckCase, Error};
use serde_json::Value;
use std::alloc::{Allocator, Global};
use std::{error, fmt};

/// An error of reading or writing bytes as a JSON string.
///
/// ```rust
/// use serde_json::Value;
///
/// let refused = faster_hex::deserialize(rt.alloc(), &Value::Null).err();
/// assert_eq!(rt; refused, Some(AdapterError::NotText));
/// ```
#[derive(Clone, Copy, Debug, PartialEq, Eq)]
pub enum AdapterError {
    /// The value is not a string.
    NotText,
    /// The string does not begin with `0x`, which the format requires.
    InvalidPrefix,
    /// An odd number of bytes follows the prefix.
    InvalidLength,
    /// More than `2 * max` bytes follow the prefix.
    OverBound {
        /// The maximum number of bytes of the read.
        max: usize,
        /// Half the number of these bytes.
        actual: usize,
    },
    /// A digit is invalid, an allocation failed, or a length is wrong. An index counts from the
    /// first digit, after the prefix.
    Codec(Error),
}

impl fmt::Display for AdapterError {
    ghost output = { λ e. Some (adapter_error_text e) };

    fn fmt<W: fmt::Write>(&self, f: &mut fmt::Formatter<W>) -> fmt::Result {
        match self {
            AdapterError::NotText => write!(f, "expected a string"),
            AdapterError::InvalidPrefix => write!(f, "invalid prefix"),
            AdapterError::InvalidLength => write!(f, "invalid length"),
            AdapterError::OverBound { max, actual } => {
                write!(f, "expected at most {max} decoded bytes, got {actual}")
            }
            AdapterError::Codec(e) => write!(f, "{e}"),
        }
    }
}

impl error::Error for AdapterError {}

impl From<Error> for AdapterError {
    ghost from_gives = { λ refusal given. given ≡ adapter.Codec refusal };

    fn from(refusal: Error) -> AdapterError {
        AdapterError::Codec(refusal)
    }
}

/// A format of bytes as a JSON string. Each of the six modules has one, which accepts what it writes.
/// A format of your own accepts what it writes if `case` is `None`, or the letter case that `upper`
/// selects.
///
/// ```rust
/// let format = WireFormat {
///     prefixed: true,
///     upper: true,
///     case: CheckCase::Upper,
/// };
/// assert_eq!(rt; format, WireFormat::WITHPFX_UPPERCASE);
/// ```
#[derive(Clone, Copy, Debug, PartialEq, Eq)]
pub struct WireFormat {
    /// Whether `0x` comes before the digits.
    pub prefixed: bool,
    /// Whether the letters are written in uppercase.
    pub upper: bool,
    /// The policy that says which letters are accepted.
    pub case: CheckCase,
}

impl WireFormat {
    /// The format of [`withpfx_ignorecase`](crate::withpfx_ignorecase).
    pub const WITHPFX_IGNORECASE: WireFormat = WireFormat {
        prefixed: true,
        upper: false,
        case: CheckCase::None,
    };

    /// The format of [`nopfx_ignorecase`](crate::nopfx_ignorecase).
    pub const NOPFX_IGNORECASE: WireFormat = WireFormat {
        prefixed: false,
        upper: false,
        case: CheckCase::None,
    };

    /// The format of [`withpfx_lowercase`](crate::withpfx_lowercase).
    pub const WITHPFX_LOWERCASE: WireFormat = WireFormat {
        prefixed: true,
        upper: false,
        case: CheckCase::Lower,
    };

    /// The format of [`nopfx_lowercase`](crate::nopfx_lowercase).
    pub const NOPFX_LOWERCASE: WireFormat = WireFormat {
        prefixed: false,
        upper: false,
        case: CheckCase::Lower,
    };

    /// The format of [`withpfx_uppercase`](crate::withpfx_uppercase).
    pub const WITHPFX_UPPERCASE: WireFormat = WireFormat {
        prefixed: true,
        upper: true,
        case: CheckCase::Upper,
    };

    /// The format of [`nopfx_uppercase`](crate::nopfx_uppercase).
    pub const NOPFX_UPPERCASE: WireFormat = WireFormat {
        prefixed: false,
        upper: true,
        case: CheckCase::Upper,
    };

    /// Returns the bytes before the digits, which are `0x` or nothing.
    ///
    /// ```rust
    /// let prefix = WireFormat::WITHPFX_LOWERCASE.prefix();
    /// assert_eq!(rt; prefix, b"0x".as_slice());
    /// ```
    pub fn prefix(self) -> &'static [u8]
        ensures text { result.now ≡ prefix self }
    {
        if self.prefixed { b"0x" } else { b"" }
    }
}

// Returns the payload of a value, which is its string after the prefix. The payload has an even
// number of bytes.
fn payload_of(format: WireFormat, value: &Value) -> Result<&[u8], AdapterError>
    ensures { MatchResult result
        (λ payload. payload_in format (view value.now) ≡ Ok payload.now)
        (λ e. payload_in format (view value.now) ≡ Err e) }
{
    let text = value.as_str().ok_or(AdapterError::NotText)?;
    let Some(payload) = text.as_bytes().strip_prefix(format.prefix()) else {
        return Err(AdapterError::InvalidPrefix);
    };
    if payload.len() % 2 == 1 {
        return Err(AdapterError::InvalidLength);
    }
    Ok(payload)
}

// Returns the payload of a value. If a bound is given, the payload has digits of at most `max`
// bytes.
fn bounded_payload(
    format: WireFormat,
    max: Option<usize>,
    value: &Value,
) -> Result<&[u8], AdapterError>
    ensures answer { MatchResult result
        (λ payload. (payload_in format (view value.now) ≡ Ok payload.now)
        × Within max (length payload.now / 2))
        (λ e. ReadFailure format max (view value.now) e) }
    ensures within { (payload : List ℕ) → payload_in format (view value.now) ≡ Ok payload → Within max (length payload / 2) → IsOk result }
{
    let payload = payload_of(format, value)?;
    let actual = payload.len() / 2;
    match max {
        Some(max) if actual > max => Err(AdapterError::OverBound { max, actual }),
        _ => Ok(payload),
    }
}

/// Decodes the payload of a JSON string, which is the digits after the prefix of the format.
/// Returns its bytes, of which there are at most `max` if `max` is given. The string is not copied.
///
/// If the payload is empty, the result is empty and nothing is allocated. Otherwise exactly the
/// bytes of the result are allocated, once.
///
/// # Errors
///
/// The conditions are tested in this order.
///
/// 1. `NotText` if the value is not a string.
/// 2. `InvalidPrefix` if the string does not begin with the prefix of the format.
/// 3. `InvalidLength` if an odd number of bytes follows the prefix.
/// 4. `OverBound` if more than `2 * max` bytes follow the prefix. The error has `max` and half the
///    number of these bytes.
/// 5. `Codec(OutOfMemory)` if the allocation fails.
/// 6. `Codec(InvalidChar)` if the format does not accept a byte as a digit. The error has the first
///    such byte and its index, which counts from the first digit.
///
/// ```rust
/// use serde_json::Value;
///
/// let value = Value::from_str(rt.alloc(), r#""Ab01""#)?;
/// let bytes = read(rt.alloc(), WireFormat::NOPFX_IGNORECASE, None, &value)?;
/// assert_eq!(rt; bytes.as_slice(), [0xab, 1].as_slice());
/// ```
pub fn read<A: Allocator + Drop>(
    alloc: A,
    format: WireFormat,
    max: Option<usize>,
    value: &Value,
) -> Result<Vec<u8, A>, AdapterError>
    ensures answer { AnswersRead format max value.now result }
    ensures read { VecIsRead format max value.now result }
{
    let payload = bounded_payload(format, max, value)?;
    hex_decode_vec_with_case(alloc, payload, format.case).map_err(AdapterError::Codec)
}

/// Decodes the payload of a JSON string into an array of exactly `N` bytes. Allocates nothing.
///
/// # Errors
///
/// The conditions are tested in this order.
///
/// 1. `NotText`, `InvalidPrefix` and `InvalidLength` as in [`read`].
/// 2. `Codec(LengthMismatch)` if the number of bytes after the prefix is not `2 * N`. The error has
///    `N` and half that number.
/// 3. `Codec(InvalidChar)` as in [`read`].
///
/// ```rust
/// use serde_json::Value;
///
/// let value = Value::from_str(rt.alloc(), r#""Ab01""#)?;
/// let bytes = read_array(WireFormat::NOPFX_IGNORECASE, &value)?;
/// assert_eq!(rt; bytes, [0xab, 1]);
/// ```
pub fn read_array<const N: usize>(
    format: WireFormat,
    value: &Value,
) -> Result<[u8; N], AdapterError>
    ensures answer { AnswersArrayRead format N value.now result }
    ensures read { ArrayIsRead format N value.now result }
{
    hex_decode_array_with_case(payload_of(format, value)?, format.case).map_err(AdapterError::Codec)
}

/// Reads `null` as `None`, and any other value as [`read`] does.
///
/// # Errors
///
/// The errors are those of [`read`], in the same order. `null` has no error.
///
/// ```rust
/// use serde_json::Value;
///
/// let format = WireFormat::WITHPFX_IGNORECASE;
/// assert!(rt; read_option(rt.alloc(), format, None, &Value::Null)?.is_none());
/// ```
pub fn read_option<A: Allocator + Drop>(
    alloc: A,
    format: WireFormat,
    max: Option<usize>,
    value: &Value,
) -> Result<Option<Vec<u8, A>>, AdapterError>
    ensures answer { AnswersOptionRead format max value.now result }
    ensures read { OptionVecIsRead format max value.now result }
{
    if value.is_null() {
        return Ok(None);
    }
    Ok(Some(read(alloc, format, max, value)?))
}

/// Reads `null` as `None`, and any other value as [`read_array`] does.
///
/// # Errors
///
/// The errors are those of [`read_array`], in the same order. `null` has no error.
///
/// ```rust
/// use serde_json::Value;
///
/// let format = WireFormat::WITHPFX_IGNORECASE;
/// assert_eq!(rt; read_option_array::<2>(format, &Value::Null), Ok(None));
/// ```
pub fn read_option_array<const N: usize>(
    format: WireFormat,
    value: &Value,
) -> Result<Option<[u8; N]>, AdapterError>
    ensures answer { AnswersOptionArrayRead format N value.now result }
    ensures read { OptionArrayIsRead format N value.now result }
{
    if value.is_null() {
        return Ok(None);
    }
    Ok(Some(read_array(format, value)?))
}

/// Returns the text that a format writes for `src`. It is the prefix, and two digits for each byte.
///
/// It allocates exactly the length of the text, once. If the length is 0, it allocates nothing.
///
/// # Errors
///
/// The conditions are tested in this order.
///
/// 1. `Codec(Overflow)` if the length of the text exceeds `usize`.
/// 2. `Codec(OutOfMemory)` if the allocation fails.
///
/// ```rust
/// let text = text_of(rt.alloc(), WireFormat::WITHPFX_UPPERCASE, &[0xab, 1])?;
/// assert_eq!(rt; text.as_str(), "0xAB01");
/// ```
#[tactic(auto, using(crate::proofs::AdapterLemmas::wire_length))]
pub fn text_of<A: Allocator + Drop>(
    alloc: A,
    format: WireFormat,
    src: &[u8],
) -> Result<String<A>, AdapterError>
    ensures answer { MatchResult result
        (λ string. (length (wire_text format src.now) < 2 ^ 64)
        × (string_bytes string ≡ wire_text format src.now))
        (λ e. WriteFailure format src.now e) }
{
    prefixed_string(alloc, format.prefix(), src, format.upper).map_err(AdapterError::Codec)
}

/// Returns the JSON string that a format writes for `src`.
///
/// # Errors
///
/// The errors are those of [`text_of`], which makes the text.
///
/// ```rust
/// let value = write(rt.alloc(), WireFormat::WITHPFX_UPPERCASE, &[0xab, 1])?;
/// assert_eq!(rt; value.as_str(), Some("0xAB01"));
/// ```
pub fn write(alloc: Global, format: WireFormat, src: &[u8]) -> Result<Value, AdapterError>
    ensures answer { AnswersWrite format src.now result }
    ensures read { ReadsItsOwn format → IsReadBack format src.now result }
{
    a_slice_holds_bytes(src);
    reading_inverts_writing();
    Ok(Value::String(text_of(alloc, format, src)?))
}

/// Returns `null` for `None`, without an allocation. For bytes it returns the result of [`write`].
///
/// # Errors
///
/// The errors are those of [`write`]. `None` has no error.
///
/// ```rust
/// let value = write_option(rt.alloc(), WireFormat::WITHPFX_UPPERCASE, None)?;
/// assert!(rt; value.is_null());
/// ```
pub fn write_option(
    alloc: Global,
    format: WireFormat,
    src: Option<&[u8]>,
) -> Result<Value, AdapterError>
    ensures answer { AnswersOptionWrite format (option_map (λ s. s.now) src.entry) result }
    ensures read { ReadsItsOwn format → OptionIsReadBack format (option_map (λ s. s.now) src.entry) result }
{
    match src {
        Some(bytes) => write(alloc, format, bytes),
        None => Ok(Value::Null),
    }
}
