//! The error of functions that encode and decode.

ghost use Rattle.std.specs.Prelude.{Some};
ghost use Rattle.hex_core.specs.Message.{error_text};

use std::{error, fmt};

/// An error of a function that encodes or decodes.
///
/// A function that writes to a slice and returns one of these errors has left the whole slice
/// unchanged. If a function that appends to a string fails, the text of the string is unchanged. Each
/// function documents which errors it returns, and in which order it tests for them.
///
/// [`Display`](fmt::Display) prints exactly the texts of this table, with the values of the error's
/// fields. It ignores width and fill.
///
/// | Variant | Text |
/// |---|---|
/// | `InvalidChar` | `invalid hex byte 0x67 at index 5` |
/// | `OutputTooSmall` | `output requires at least 4 bytes` |
/// | `LengthMismatch` | `expected 32 decoded bytes, got 1` |
/// | `OddLength` | `hex input length must be even` |
/// | `Overflow` | `encoded length overflow` |
/// | `OutOfMemory` | `out of memory` |
///
/// ```rust
/// let [scalar, ..] = backends();
/// let refused = scalar.decode_into(b"0011", &mut [0; 1], CheckCase::None);
/// assert_eq!(rt; refused, Err(Error::OutputTooSmall { required: 2 }));
/// ```
#[derive(Clone, Copy, Debug, PartialEq, Eq, Hash)]
pub enum Error {
    /// A byte of the source is not a hex digit, or it is a letter of a case that the policy does
    /// not accept.
    InvalidChar {
        /// The index of the first such byte in the source, in bytes.
        index: usize,
        /// That byte.
        byte: u8,
    },
    /// The destination cannot hold the whole output.
    OutputTooSmall {
        /// The length of the whole output, in bytes.
        required: usize,
    },
    /// The source does not decode to as many bytes as the array has.
    LengthMismatch {
        /// The length of the array, in bytes.
        expected: usize,
        /// The number of bytes that the source would decode to.
        actual: usize,
    },
    /// The source has an odd number of bytes. White space that is skipped does not count.
    OddLength,
    /// The length of the whole output, or the number of bytes read, exceeds `usize`.
    Overflow,
    /// The allocation of the output failed.
    OutOfMemory,
}

impl fmt::Display for Error {
    ghost output = { λ e. Some (error_text e) };

    fn fmt<W: fmt::Write>(&self, f: &mut fmt::Formatter<W>) -> fmt::Result {
        match *self {
            Error::InvalidChar { index, byte } => {
                write!(f, "invalid hex byte 0x{byte:02x} at index {index}")
            }
            Error::OutputTooSmall { required } => {
                write!(f, "output requires at least {required} bytes")
            }
            Error::LengthMismatch { expected, actual } => {
                write!(f, "expected {expected} decoded bytes, got {actual}")
            }
            Error::OddLength => f.write_str("hex input length must be even"),
            Error::Overflow => f.write_str("encoded length overflow"),
            Error::OutOfMemory => f.write_str("out of memory"),
        }
    }
}

impl error::Error for Error {}
