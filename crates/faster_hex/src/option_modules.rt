//! Six modules for optional bytes. Each of them reads and writes `Some` in the format of one module of
//! bytes, and `None` as `null`. Reading `null` never fails. For any other value the errors are those of
//! that module, in the same order. The example of [`option_nopfx_lowercase`] calls all functions of a
//! module.

ghost use Rattle.std.specs.Prelude.{None, Some, option_map};
ghost use Rattle.faster_hex.specs.Adapters.{AnswersOptionArrayRead, AnswersOptionRead, AnswersOptionWrite, OptionArrayIsRead, OptionIsReadBack, OptionVecIsRead};
ghost use Rattle.faster_hex.specs.WireFormats as wire;

use crate::adapters::{AdapterError, WireFormat, read_option, read_option_array, write_option};
use serde_json::Value;
use std::alloc::Global;

/// Reads and writes `Some` in the format of [`crate::withpfx_ignorecase`], and `None` as `null`.
pub mod option_withpfx_ignorecase {
    use super::*;

    /// Writes `Some` as [`crate::withpfx_ignorecase::serialize`] does, and `None` as `null`. `None`
    /// allocates nothing and has no error.
    pub fn serialize(alloc: Global, src: Option<&[u8]>) -> Result<Value, AdapterError>
        ensures answer { AnswersOptionWrite wire.withpfx_ignorecase (option_map (λ s. s.now) src.entry) result }
        ensures read { OptionIsReadBack wire.withpfx_ignorecase (option_map (λ s. s.now) src.entry) result }
    {
        write_option(alloc, WireFormat::WITHPFX_IGNORECASE, src)
    }

    /// Reads `null` as `None`, and any other value as [`crate::withpfx_ignorecase::deserialize`]
    /// does.
    pub fn deserialize(alloc: Global, value: &Value) -> Result<Option<Vec<u8>>, AdapterError>
        ensures answer { AnswersOptionRead wire.withpfx_ignorecase None value.now result }
        ensures read { OptionVecIsRead wire.withpfx_ignorecase None value.now result }
    {
        read_option(alloc, WireFormat::WITHPFX_IGNORECASE, None, value)
    }

    /// Does the same as [`deserialize`], but accepts at most `MAX` bytes. For more the error is
    /// `OverBound`.
    pub fn deserialize_bounded<const MAX: usize>(
        alloc: Global,
        value: &Value,
    ) -> Result<Option<Vec<u8>>, AdapterError>
        ensures answer { AnswersOptionRead wire.withpfx_ignorecase (Some MAX) value.now result }
        ensures read { OptionVecIsRead wire.withpfx_ignorecase (Some MAX) value.now result }
    {
        read_option(alloc, WireFormat::WITHPFX_IGNORECASE, Some(MAX), value)
    }

    /// The same format for optional arrays.
    pub mod array {
        pub use super::serialize;
        use super::*;

        /// Reads `null` as `None`, and any other value as
        /// [`crate::withpfx_ignorecase::array::deserialize`] does.
        pub fn deserialize<const N: usize>(value: &Value) -> Result<Option<[u8; N]>, AdapterError>
            ensures answer { AnswersOptionArrayRead wire.withpfx_ignorecase N value.now result }
            ensures read { OptionArrayIsRead wire.withpfx_ignorecase N value.now result }
        {
            read_option_array(WireFormat::WITHPFX_IGNORECASE, value)
        }
    }
}

/// Reads and writes `Some` in the format of [`crate::nopfx_ignorecase`], and `None` as `null`.
pub mod option_nopfx_ignorecase {
    use super::*;

    /// Writes `Some` as [`crate::nopfx_ignorecase::serialize`] does, and `None` as `null`. `None`
    /// allocates nothing and has no error.
    pub fn serialize(alloc: Global, src: Option<&[u8]>) -> Result<Value, AdapterError>
        ensures answer { AnswersOptionWrite wire.nopfx_ignorecase (option_map (λ s. s.now) src.entry) result }
        ensures read { OptionIsReadBack wire.nopfx_ignorecase (option_map (λ s. s.now) src.entry) result }
    {
        write_option(alloc, WireFormat::NOPFX_IGNORECASE, src)
    }

    /// Reads `null` as `None`, and any other value as [`crate::nopfx_ignorecase::deserialize`]
    /// does.
    pub fn deserialize(alloc: Global, value: &Value) -> Result<Option<Vec<u8>>, AdapterError>
        ensures answer { AnswersOptionRead wire.nopfx_ignorecase None value.now result }
        ensures read { OptionVecIsRead wire.nopfx_ignorecase None value.now result }
    {
        read_option(alloc, WireFormat::NOPFX_IGNORECASE, None, value)
    }

    /// Does the same as [`deserialize`], but accepts at most `MAX` bytes. For more the error is
    /// `OverBound`.
    pub fn deserialize_bounded<const MAX: usize>(
        alloc: Global,
        value: &Value,
    ) -> Result<Option<Vec<u8>>, AdapterError>
        ensures answer { AnswersOptionRead wire.nopfx_ignorecase (Some MAX) value.now result }
        ensures read { OptionVecIsRead wire.nopfx_ignorecase (Some MAX) value.now result }
    {
        read_option(alloc, WireFormat::NOPFX_IGNORECASE, Some(MAX), value)
    }

    /// The same format for optional arrays.
    pub mod array {
        pub use super::serialize;
        use super::*;

        /// Reads `null` as `None`, and any other value as
        /// [`crate::nopfx_ignorecase::array::deserialize`] does.
        pub fn deserialize<const N: usize>(value: &Value) -> Result<Option<[u8; N]>, AdapterError>
            ensures answer { AnswersOptionArrayRead wire.nopfx_ignorecase N value.now result }
            ensures read { OptionArrayIsRead wire.nopfx_ignorecase N value.now result }
        {
            read_option_array(WireFormat::NOPFX_IGNORECASE, value)
        }
    }
}

/// Reads and writes `Some` in the format of [`crate::withpfx_lowercase`], and `None` as `null`.
pub mod option_withpfx_lowercase {
    use super::*;

    /// Writes `Some` as [`crate::withpfx_lowercase::serialize`] does, and `None` as `null`. `None`
    /// allocates nothing and has no error.
    pub fn serialize(alloc: Global, src: Option<&[u8]>) -> Result<Value, AdapterError>
        ensures answer { AnswersOptionWrite wire.withpfx_lowercase (option_map (λ s. s.now) src.entry) result }
        ensures read { OptionIsReadBack wire.withpfx_lowercase (option_map (λ s. s.now) src.entry) result }
    {
        write_option(alloc, WireFormat::WITHPFX_LOWERCASE, src)
    }

    /// Reads `null` as `None`, and any other value as [`crate::withpfx_lowercase::deserialize`]
    /// does.
    pub fn deserialize(alloc: Global, value: &Value) -> Result<Option<Vec<u8>>, AdapterError>
        ensures answer { AnswersOptionRead wire.withpfx_lowercase None value.now result }
        ensures read { OptionVecIsRead wire.withpfx_lowercase None value.now result }
    {
        read_option(alloc, WireFormat::WITHPFX_LOWERCASE, None, value)
    }

    /// Does the same as [`deserialize`], but accepts at most `MAX` bytes. For more the error is
    /// `OverBound`.
    pub fn deserialize_bounded<const MAX: usize>(
        alloc: Global,
        value: &Value,
    ) -> Result<Option<Vec<u8>>, AdapterError>
        ensures answer { AnswersOptionRead wire.withpfx_lowercase (Some MAX) value.now result }
        ensures read { OptionVecIsRead wire.withpfx_lowercase (Some MAX) value.now result }
    {
        read_option(alloc, WireFormat::WITHPFX_LOWERCASE, Some(MAX), value)
    }

    /// The same format for optional arrays.
    pub mod array {
        pub use super::serialize;
        use super::*;

        /// Reads `null` as `None`, and any other value as
        /// [`crate::withpfx_lowercase::array::deserialize`] does.
        pub fn deserialize<const N: usize>(value: &Value) -> Result<Option<[u8; N]>, AdapterError>
            ensures answer { AnswersOptionArrayRead wire.withpfx_lowercase N value.now result }
            ensures read { OptionArrayIsRead wire.withpfx_lowercase N value.now result }
        {
            read_option_array(WireFormat::WITHPFX_LOWERCASE, value)
        }
    }
}

/// Reads and writes `Some` in the format of [`crate::nopfx_lowercase`], and `None` as `null`.
///
/// ```rust
/// let value = option_nopfx_lowercase::serialize(rt.alloc(), Some(&[0xab, 1]))?;
/// assert_eq!(rt; value.as_str(), Some("ab01"));
/// let bytes = option_nopfx_lowercase::deserialize(rt.alloc(), &value)?;
/// assert!(rt; bytes.is_some_and(|bytes| bytes.as_slice() == [0xab, 1].as_slice()));
/// let bounded = option_nopfx_lowercase::deserialize_bounded::<2>(rt.alloc(), &value)?;
/// assert!(rt; bounded.is_some());
/// let value = option_nopfx_lowercase::array::serialize(rt.alloc(), Some(&[0xab, 1]))?;
/// let array = option_nopfx_lowercase::array::deserialize(&value)?;
/// assert_eq!(rt; array, Some([0xab, 1]));
/// let none = option_nopfx_lowercase::serialize(rt.alloc(), None)?;
/// assert!(rt; none.is_null());
/// assert!(rt; option_nopfx_lowercase::deserialize(rt.alloc(), &none)?.is_none());
/// ```
pub mod option_nopfx_lowercase {
    use super::*;

    /// Writes `Some` as [`crate::nopfx_lowercase::serialize`] does, and `None` as `null`. `None`
    /// allocates nothing and has no error.
    pub fn serialize(alloc: Global, src: Option<&[u8]>) -> Result<Value, AdapterError>
        ensures answer { AnswersOptionWrite wire.nopfx_lowercase (option_map (λ s. s.now) src.entry) result }
        ensures read { OptionIsReadBack wire.nopfx_lowercase (option_map (λ s. s.now) src.entry) result }
    {
        write_option(alloc, WireFormat::NOPFX_LOWERCASE, src)
    }

    /// Reads `null` as `None`, and any other value as [`crate::nopfx_lowercase::deserialize`] does.
    pub fn deserialize(alloc: Global, value: &Value) -> Result<Option<Vec<u8>>, AdapterError>
        ensures answer { AnswersOptionRead wire.nopfx_lowercase None value.now result }
        ensures read { OptionVecIsRead wire.nopfx_lowercase None value.now result }
    {
        read_option(alloc, WireFormat::NOPFX_LOWERCASE, None, value)
    }

    /// Does the same as [`deserialize`], but accepts at most `MAX` bytes. For more the error is
    /// `OverBound`.
    pub fn deserialize_bounded<const MAX: usize>(
        alloc: Global,
        value: &Value,
    ) -> Result<Option<Vec<u8>>, AdapterError>
        ensures answer { AnswersOptionRead wire.nopfx_lowercase (Some MAX) value.now result }
        ensures read { OptionVecIsRead wire.nopfx_lowercase (Some MAX) value.now result }
    {
        read_option(alloc, WireFormat::NOPFX_LOWERCASE, Some(MAX), value)
    }

    /// The same format for optional arrays.
    pub mod array {
        pub use super::serialize;
        use super::*;

        /// Reads `null` as `None`, and any other value as
        /// [`crate::nopfx_lowercase::array::deserialize`] does.
        pub fn deserialize<const N: usize>(value: &Value) -> Result<Option<[u8; N]>, AdapterError>
            ensures answer { AnswersOptionArrayRead wire.nopfx_lowercase N value.now result }
            ensures read { OptionArrayIsRead wire.nopfx_lowercase N value.now result }
        {
            read_option_array(WireFormat::NOPFX_LOWERCASE, value)
        }
    }
}

/// Reads and writes `Some` in the format of [`crate::withpfx_uppercase`], and `None` as `null`.
pub mod option_withpfx_uppercase {
    use super::*;

    /// Writes `Some` as [`crate::withpfx_uppercase::serialize`] does, and `None` as `null`. `None`
    /// allocates nothing and has no error.
    pub fn serialize(alloc: Global, src: Option<&[u8]>) -> Result<Value, AdapterError>
        ensures answer { AnswersOptionWrite wire.withpfx_uppercase (option_map (λ s. s.now) src.entry) result }
        ensures read { OptionIsReadBack wire.withpfx_uppercase (option_map (λ s. s.now) src.entry) result }
    {
        write_option(alloc, WireFormat::WITHPFX_UPPERCASE, src)
    }

    /// Reads `null` as `None`, and any other value as [`crate::withpfx_uppercase::deserialize`]
    /// does.
    pub fn deserialize(alloc: Global, value: &Value) -> Result<Option<Vec<u8>>, AdapterError>
        ensures answer { AnswersOptionRead wire.withpfx_uppercase None value.now result }
        ensures read { OptionVecIsRead wire.withpfx_uppercase None value.now result }
    {
        read_option(alloc, WireFormat::WITHPFX_UPPERCASE, None, value)
    }

    /// Does the same as [`deserialize`], but accepts at most `MAX` bytes. For more the error is
    /// `OverBound`.
    pub fn deserialize_bounded<const MAX: usize>(
        alloc: Global,
        value: &Value,
    ) -> Result<Option<Vec<u8>>, AdapterError>
        ensures answer { AnswersOptionRead wire.withpfx_uppercase (Some MAX) value.now result }
        ensures read { OptionVecIsRead wire.withpfx_uppercase (Some MAX) value.now result }
    {
        read_option(alloc, WireFormat::WITHPFX_UPPERCASE, Some(MAX), value)
    }

    /// The same format for optional arrays.
    pub mod array {
        pub use super::serialize;
        use super::*;

        /// Reads `null` as `None`, and any other value as
        /// [`crate::withpfx_uppercase::array::deserialize`] does.
        pub fn deserialize<const N: usize>(value: &Value) -> Result<Option<[u8; N]>, AdapterError>
            ensures answer { AnswersOptionArrayRead wire.withpfx_uppercase N value.now result }
            ensures read { OptionArrayIsRead wire.withpfx_uppercase N value.now result }
        {
            read_option_array(WireFormat::WITHPFX_UPPERCASE, value)
        }
    }
}

/// Reads and writes `Some` in the format of [`crate::nopfx_uppercase`], and `None` as `null`.
pub mod option_nopfx_uppercase {
    use super::*;

    /// Writes `Some` as [`crate::nopfx_uppercase::serialize`] does, and `None` as `null`. `None`
    /// allocates nothing and has no error.
    pub fn serialize(alloc: Global, src: Option<&[u8]>) -> Result<Value, AdapterError>
        ensures answer { AnswersOptionWrite wire.nopfx_uppercase (option_map (λ s. s.now) src.entry) result }
        ensures read { OptionIsReadBack wire.nopfx_uppercase (option_map (λ s. s.now) src.entry) result }
    {
        write_option(alloc, WireFormat::NOPFX_UPPERCASE, src)
    }

    /// Reads `null` as `None`, and any other value as [`crate::nopfx_uppercase::deserialize`] does.
    pub fn deserialize(alloc: Global, value: &Value) -> Result<Option<Vec<u8>>, AdapterError>
        ensures answer { AnswersOptionRead wire.nopfx_uppercase None value.now result }
        ensures read { OptionVecIsRead wire.nopfx_uppercase None value.now result }
    {
        read_option(alloc, WireFormat::NOPFX_UPPERCASE, None, value)
    }

    /// Does the same as [`deserialize`], but accepts at most `MAX` bytes. For more the error is
    /// `OverBound`.
    pub fn deserialize_bounded<const MAX: usize>(
        alloc: Global,
        value: &Value,
    ) -> Result<Option<Vec<u8>>, AdapterError>
        ensures answer { AnswersOptionRead wire.nopfx_uppercase (Some MAX) value.now result }
        ensures read { OptionVecIsRead wire.nopfx_uppercase (Some MAX) value.now result }
    {
        read_option(alloc, WireFormat::NOPFX_UPPERCASE, Some(MAX), value)
    }

    /// The same format for optional arrays.
    pub mod array {
        pub use super::serialize;
        use super::*;

        /// Reads `null` as `None`, and any other value as
        /// [`crate::nopfx_uppercase::array::deserialize`] does.
        pub fn deserialize<const N: usize>(value: &Value) -> Result<Option<[u8; N]>, AdapterError>
            ensures answer { AnswersOptionArrayRead wire.nopfx_uppercase N value.now result }
            ensures read { OptionArrayIsRead wire.nopfx_uppercase N value.now result }
        {
            read_option_array(WireFormat::NOPFX_UPPERCASE, value)
        }
    }
}
