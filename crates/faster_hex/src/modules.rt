//! Six modules, each of which reads and writes bytes as JSON strings in one format. The example of
//! [`nopfx_lowercase`] calls all functions of a module. The root of the crate lists their errors.

ghost use Rattle.std.specs.Prelude.{None, Some};
ghost use Rattle.faster_hex.specs.Adapters.{AnswersArrayRead, AnswersRead, AnswersWrite, ArrayIsRead, IsReadBack, VecIsRead};
ghost use Rattle.faster_hex.specs.WireFormats as wire;

use crate::adapters::{AdapterError, WireFormat, read, read_array, write};
use serde_json::Value;
use std::alloc::Global;

/// The strings are `0x` and digits, as in `"0xab01"`. Lowercase digits are written, and both cases
/// are accepted. The root of the crate has the same functions.
pub mod withpfx_ignorecase {
    use super::*;

    /// Returns a JSON string of `0x` and two lowercase digits for each byte. For no bytes it is
    /// `"0x"`.
    ///
    /// It allocates exactly the length of the text, once.
    ///
    /// # Errors
    ///
    /// The conditions are tested in this order.
    ///
    /// 1. `Codec(Overflow)` if the length of the text, `2 + 2 * src.len()`, exceeds `usize`.
    /// 2. `Codec(OutOfMemory)` if the allocation fails.
    ///
    /// ```rust
    /// let value = faster_hex::serialize(rt.alloc(), &[0xab, 1])?;
    /// assert_eq!(rt; value.as_str(), Some("0xab01"));
    /// ```
    pub fn serialize(alloc: Global, src: &[u8]) -> Result<Value, AdapterError>
        ensures answer { AnswersWrite wire.withpfx_ignorecase src.now result }
        ensures read { IsReadBack wire.withpfx_ignorecase src.now result }
    {
        write(alloc, WireFormat::WITHPFX_IGNORECASE, src)
    }

    /// Decodes a JSON string of `0x` and digits of either case, two for each byte. The string is
    /// not copied.
    ///
    /// For `"0x"` the result is empty and nothing is allocated. For any other string exactly the
    /// bytes of the result are allocated, once. This happens after the length is tested and before
    /// any digit is tested.
    ///
    /// # Errors
    ///
    /// The conditions are tested in this order.
    ///
    /// 1. `NotText` if the value is not a string.
    /// 2. `InvalidPrefix` if the string does not begin with `0x`. `0X` is not accepted.
    /// 3. `InvalidLength` if an odd number of bytes follows the prefix.
    /// 4. `Codec(OutOfMemory)` if the allocation fails.
    /// 5. `Codec(InvalidChar)` if a byte is not a digit. The error has the first such byte and its
    ///    index, which counts from the first digit.
    ///
    /// ```rust
    /// use serde_json::Value;
    ///
    /// let value = Value::from_str(rt.alloc(), r#""0x00aB""#)?;
    /// let bytes = faster_hex::deserialize(rt.alloc(), &value)?;
    /// assert_eq!(rt; bytes.as_slice(), [0, 0xab].as_slice());
    /// ```
    pub fn deserialize(alloc: Global, value: &Value) -> Result<Vec<u8>, AdapterError>
        ensures answer { AnswersRead wire.withpfx_ignorecase None value.now result }
        ensures read { VecIsRead wire.withpfx_ignorecase None value.now result }
    {
        read(alloc, WireFormat::WITHPFX_IGNORECASE, None, value)
    }

    /// Does the same as [`deserialize`], but accepts at most `MAX` bytes. The bound limits the
    /// bytes of the result, and not the string. A bound of 0 accepts `"0x"`.
    ///
    /// # Errors
    ///
    /// The errors are those of [`deserialize`], in the same order, with one more after
    /// `InvalidLength`. It is `OverBound` if more than `2 * MAX` bytes follow the prefix, and it
    /// has `MAX` and half their number. It comes before anything is allocated and before any digit
    /// is tested.
    ///
    /// ```rust
    /// use serde_json::Value;
    ///
    /// let value = Value::from_str(rt.alloc(), r#""0xgggggg""#)?;
    /// let refused = faster_hex::deserialize_bounded::<2>(rt.alloc(), &value).err();
    /// let why = AdapterError::OverBound { max: 2, actual: 3 };
    /// assert_eq!(rt; refused, Some(why));
    /// ```
    pub fn deserialize_bounded<const MAX: usize>(
        alloc: Global,
        value: &Value,
    ) -> Result<Vec<u8>, AdapterError>
        ensures answer { AnswersRead wire.withpfx_ignorecase (Some MAX) value.now result }
        ensures read { VecIsRead wire.withpfx_ignorecase (Some MAX) value.now result }
    {
        read(alloc, WireFormat::WITHPFX_IGNORECASE, Some(MAX), value)
    }

    /// The same format for arrays.
    pub mod array {
        pub use super::serialize;
        use super::*;

        /// Decodes a JSON string into an array of exactly `N` bytes. Allocates nothing. It accepts
        /// `"0x"` only if `N` is 0.
        ///
        /// # Errors
        ///
        /// The conditions are tested in this order.
        ///
        /// 1. `NotText`, `InvalidPrefix` and `InvalidLength` as in
        ///    [`deserialize`](super::deserialize).
        /// 2. `Codec(LengthMismatch)` if the number of bytes after the prefix is not `2 * N`. The
        ///    error has `N` and half that number.
        /// 3. `Codec(InvalidChar)` as in [`deserialize`](super::deserialize).
        ///
        /// ```rust
        /// use serde_json::Value;
        ///
        /// let value = Value::from_str(rt.alloc(), r#""0xab01""#)?;
        /// assert_eq!(rt; faster_hex::array::deserialize(&value), Ok([0xab, 1]));
        /// ```
        pub fn deserialize<const N: usize>(value: &Value) -> Result<[u8; N], AdapterError>
            ensures answer { AnswersArrayRead wire.withpfx_ignorecase N value.now result }
            ensures read { ArrayIsRead wire.withpfx_ignorecase N value.now result }
        {
            read_array(WireFormat::WITHPFX_IGNORECASE, value)
        }
    }
}

/// The strings are digits without a prefix, as in `"ab01"`. Lowercase digits are written, and both
/// cases are accepted.
pub mod nopfx_ignorecase {
    use super::*;

    /// Writes two lowercase digits for each byte, as [`crate::serialize`] does, but without a
    /// prefix. The empty text allocates nothing.
    pub fn serialize(alloc: Global, src: &[u8]) -> Result<Value, AdapterError>
        ensures answer { AnswersWrite wire.nopfx_ignorecase src.now result }
        ensures read { IsReadBack wire.nopfx_ignorecase src.now result }
    {
        write(alloc, WireFormat::NOPFX_IGNORECASE, src)
    }

    /// Does the same as [`crate::deserialize`], but without a prefix.
    pub fn deserialize(alloc: Global, value: &Value) -> Result<Vec<u8>, AdapterError>
        ensures answer { AnswersRead wire.nopfx_ignorecase None value.now result }
        ensures read { VecIsRead wire.nopfx_ignorecase None value.now result }
    {
        read(alloc, WireFormat::NOPFX_IGNORECASE, None, value)
    }

    /// Does the same as [`crate::deserialize_bounded`], but without a prefix.
    pub fn deserialize_bounded<const MAX: usize>(
        alloc: Global,
        value: &Value,
    ) -> Result<Vec<u8>, AdapterError>
        ensures answer { AnswersRead wire.nopfx_ignorecase (Some MAX) value.now result }
        ensures read { VecIsRead wire.nopfx_ignorecase (Some MAX) value.now result }
    {
        read(alloc, WireFormat::NOPFX_IGNORECASE, Some(MAX), value)
    }

    /// The same format for arrays.
    pub mod array {
        pub use super::serialize;
        use super::*;

        /// Does the same as [`crate::array::deserialize`], but without a prefix.
        pub fn deserialize<const N: usize>(value: &Value) -> Result<[u8; N], AdapterError>
            ensures answer { AnswersArrayRead wire.nopfx_ignorecase N value.now result }
            ensures read { ArrayIsRead wire.nopfx_ignorecase N value.now result }
        {
            read_array(WireFormat::NOPFX_IGNORECASE, value)
        }
    }
}

/// The strings are `0x` and digits, as in `"0xab01"`. Only lowercase is written and accepted. An
/// uppercase letter is an `InvalidChar`.
pub mod withpfx_lowercase {
    use super::*;

    /// Writes `0x` and two lowercase digits for each byte, as [`crate::serialize`] does.
    pub fn serialize(alloc: Global, src: &[u8]) -> Result<Value, AdapterError>
        ensures answer { AnswersWrite wire.withpfx_lowercase src.now result }
        ensures read { IsReadBack wire.withpfx_lowercase src.now result }
    {
        write(alloc, WireFormat::WITHPFX_LOWERCASE, src)
    }

    /// Does the same as [`crate::deserialize`], but accepts only this letter case.
    pub fn deserialize(alloc: Global, value: &Value) -> Result<Vec<u8>, AdapterError>
        ensures answer { AnswersRead wire.withpfx_lowercase None value.now result }
        ensures read { VecIsRead wire.withpfx_lowercase None value.now result }
    {
        read(alloc, WireFormat::WITHPFX_LOWERCASE, None, value)
    }

    /// Does the same as [`crate::deserialize_bounded`], but accepts only this letter case.
    pub fn deserialize_bounded<const MAX: usize>(
        alloc: Global,
        value: &Value,
    ) -> Result<Vec<u8>, AdapterError>
        ensures answer { AnswersRead wire.withpfx_lowercase (Some MAX) value.now result }
        ensures read { VecIsRead wire.withpfx_lowercase (Some MAX) value.now result }
    {
        read(alloc, WireFormat::WITHPFX_LOWERCASE, Some(MAX), value)
    }

    /// The same format for arrays.
    pub mod array {
        pub use super::serialize;
        use super::*;

        /// Does the same as [`crate::array::deserialize`], but accepts only this letter case.
        pub fn deserialize<const N: usize>(value: &Value) -> Result<[u8; N], AdapterError>
            ensures answer { AnswersArrayRead wire.withpfx_lowercase N value.now result }
            ensures read { ArrayIsRead wire.withpfx_lowercase N value.now result }
        {
            read_array(WireFormat::WITHPFX_LOWERCASE, value)
        }
    }
}

/// The strings are digits without a prefix, as in `"ab01"`. Only lowercase is written and accepted.
/// An uppercase letter is an `InvalidChar`.
///
/// ```rust
/// let value = nopfx_lowercase::serialize(rt.alloc(), &[0xab, 1])?;
/// assert_eq!(rt; value.as_str(), Some("ab01"));
/// let bytes = nopfx_lowercase::deserialize(rt.alloc(), &value)?;
/// assert_eq!(rt; bytes.as_slice(), [0xab, 1].as_slice());
/// let bounded = nopfx_lowercase::deserialize_bounded::<2>(rt.alloc(), &value)?;
/// assert_eq!(rt; bounded.as_slice(), bytes.as_slice());
/// let value = nopfx_lowercase::array::serialize(rt.alloc(), &[0xab, 1])?;
/// let array = nopfx_lowercase::array::deserialize(&value)?;
/// assert_eq!(rt; array, [0xab, 1]);
/// ```
pub mod nopfx_lowercase {
    use super::*;

    /// Writes two lowercase digits for each byte, as [`crate::serialize`] does, but without a
    /// prefix. The empty text allocates nothing.
    pub fn serialize(alloc: Global, src: &[u8]) -> Result<Value, AdapterError>
        ensures answer { AnswersWrite wire.nopfx_lowercase src.now result }
        ensures read { IsReadBack wire.nopfx_lowercase src.now result }
    {
        write(alloc, WireFormat::NOPFX_LOWERCASE, src)
    }

    /// Does the same as [`crate::deserialize`], but without a prefix, and accepts only this letter
    /// case.
    pub fn deserialize(alloc: Global, value: &Value) -> Result<Vec<u8>, AdapterError>
        ensures answer { AnswersRead wire.nopfx_lowercase None value.now result }
        ensures read { VecIsRead wire.nopfx_lowercase None value.now result }
    {
        read(alloc, WireFormat::NOPFX_LOWERCASE, None, value)
    }

    /// Does the same as [`crate::deserialize_bounded`], but without a prefix, and accepts only this
    /// letter case.
    pub fn deserialize_bounded<const MAX: usize>(
        alloc: Global,
        value: &Value,
    ) -> Result<Vec<u8>, AdapterError>
        ensures answer { AnswersRead wire.nopfx_lowercase (Some MAX) value.now result }
        ensures read { VecIsRead wire.nopfx_lowercase (Some MAX) value.now result }
    {
        read(alloc, WireFormat::NOPFX_LOWERCASE, Some(MAX), value)
    }

    /// The same format for arrays.
    pub mod array {
        pub use super::serialize;
        use super::*;

        /// Does the same as [`crate::array::deserialize`], but without a prefix, and accepts only
        /// this letter case.
        pub fn deserialize<const N: usize>(value: &Value) -> Result<[u8; N], AdapterError>
            ensures answer { AnswersArrayRead wire.nopfx_lowercase N value.now result }
            ensures read { ArrayIsRead wire.nopfx_lowercase N value.now result }
        {
            read_array(WireFormat::NOPFX_LOWERCASE, value)
        }
    }
}

/// The strings are `0x` and digits, as in `"0xAB01"`. Only uppercase is written and accepted. A
/// lowercase letter is an `InvalidChar`.
pub mod withpfx_uppercase {
    use super::*;

    /// Writes `0x` and two uppercase digits for each byte, as [`crate::serialize`] does in
    /// lowercase.
    pub fn serialize(alloc: Global, src: &[u8]) -> Result<Value, AdapterError>
        ensures answer { AnswersWrite wire.withpfx_uppercase src.now result }
        ensures read { IsReadBack wire.withpfx_uppercase src.now result }
    {
        write(alloc, WireFormat::WITHPFX_UPPERCASE, src)
    }

    /// Does the same as [`crate::deserialize`], but accepts only this letter case.
    pub fn deserialize(alloc: Global, value: &Value) -> Result<Vec<u8>, AdapterError>
        ensures answer { AnswersRead wire.withpfx_uppercase None value.now result }
        ensures read { VecIsRead wire.withpfx_uppercase None value.now result }
    {
        read(alloc, WireFormat::WITHPFX_UPPERCASE, None, value)
    }

    /// Does the same as [`crate::deserialize_bounded`], but accepts only this letter case.
    pub fn deserialize_bounded<const MAX: usize>(
        alloc: Global,
        value: &Value,
    ) -> Result<Vec<u8>, AdapterError>
        ensures answer { AnswersRead wire.withpfx_uppercase (Some MAX) value.now result }
        ensures read { VecIsRead wire.withpfx_uppercase (Some MAX) value.now result }
    {
        read(alloc, WireFormat::WITHPFX_UPPERCASE, Some(MAX), value)
    }

    /// The same format for arrays.
    pub mod array {
        pub use super::serialize;
        use super::*;

        /// Does the same as [`crate::array::deserialize`], but accepts only this letter case.
        pub fn deserialize<const N: usize>(value: &Value) -> Result<[u8; N], AdapterError>
            ensures answer { AnswersArrayRead wire.withpfx_uppercase N value.now result }
            ensures read { ArrayIsRead wire.withpfx_uppercase N value.now result }
        {
            read_array(WireFormat::WITHPFX_UPPERCASE, value)
        }
    }
}

/// The strings are digits without a prefix, as in `"AB01"`. Only uppercase is written and accepted.
/// A lowercase letter is an `InvalidChar`.
pub mod nopfx_uppercase {
    use super::*;

    /// Writes two uppercase digits for each byte, as [`crate::serialize`] does in lowercase, but
    /// without a prefix. The empty text allocates nothing.
    pub fn serialize(alloc: Global, src: &[u8]) -> Result<Value, AdapterError>
        ensures answer { AnswersWrite wire.nopfx_uppercase src.now result }
        ensures read { IsReadBack wire.nopfx_uppercase src.now result }
    {
        write(alloc, WireFormat::NOPFX_UPPERCASE, src)
    }

    /// Does the same as [`crate::deserialize`], but without a prefix, and accepts only this letter
    /// case.
    pub fn deserialize(alloc: Global, value: &Value) -> Result<Vec<u8>, AdapterError>
        ensures answer { AnswersRead wire.nopfx_uppercase None value.now result }
        ensures read { VecIsRead wire.nopfx_uppercase None value.now result }
    {
        read(alloc, WireFormat::NOPFX_UPPERCASE, None, value)
    }

    /// Does the same as [`crate::deserialize_bounded`], but without a prefix, and accepts only this
    /// letter case.
    pub fn deserialize_bounded<const MAX: usize>(
        alloc: Global,
        value: &Value,
    ) -> Result<Vec<u8>, AdapterError>
        ensures answer { AnswersRead wire.nopfx_uppercase (Some MAX) value.now result }
        ensures read { VecIsRead wire.nopfx_uppercase (Some MAX) value.now result }
    {
        read(alloc, WireFormat::NOPFX_UPPERCASE, Some(MAX), value)
    }

    /// The same format for arrays.
    pub mod array {
        pub use super::serialize;
        use super::*;

        /// Does the same as [`crate::array::deserialize`], but without a prefix, and accepts only
        /// this letter case.
        pub fn deserialize<const N: usize>(value: &Value) -> Result<[u8; N], AdapterError>
            ensures answer { AnswersArrayRead wire.nopfx_uppercase N value.now result }
            ensures read { ArrayIsRead wire.nopfx_uppercase N value.now result }
        {
            read_array(WireFormat::NOPFX_UPPERCASE, value)
        }
    }
}
