//! The adapters, the JSON strings of their formats, and what they read.

use arrayvec::ArrayVec;
use faster_hex::adapters::WireFormat;
use faster_hex::{AdapterError, CheckCase, Error};
use test_kit::model::encoded;

/// What is read: bytes, none, or the error. Only optional adapters read none.
pub type Got<T> = Result<Option<T>, AdapterError>;

/// A `Got` whose bytes are borrowed.
pub type Answer<'a> = Got<&'a [u8]>;

/// The error if there is no memory.
pub const NO_MEMORY: AdapterError = AdapterError::Codec(Error::OutOfMemory);

/// Returns the answer of some bytes.
pub fn ok(bytes: &[u8]) -> Answer<'_> {
    Ok(Some(bytes))
}

/// Returns the error of a byte that is no digit.
pub fn invalid(index: usize, byte: u8) -> Answer<'static> {
    Err(AdapterError::Codec(Error::InvalidChar { index, byte }))
}

/// Returns the error of an array of another length.
pub fn mismatch(expected: usize, actual: usize) -> Answer<'static> {
    Err(AdapterError::Codec(Error::LengthMismatch { expected, actual }))
}

/// Returns the error of more bytes than a bound.
pub fn over_bound(max: usize, actual: usize) -> Answer<'static> {
    Err(AdapterError::OverBound { max, actual })
}

/// A JSON text of a string.
pub type Text = ArrayVec<u8, 8_200>;

/// Returns the JSON string of two parts.
pub fn quoted(prefix: &[u8], digits: &[u8]) -> Text {
    let mut text = Text::new();
    for part in [b"\"", prefix, digits, b"\""] {
        let _ = text.try_extend_from_slice(part).is_ok();
    }
    text
}

/// The adapters of a format, and the modules that do the same as they.
#[derive(Clone, Copy)]
pub struct Adapter {
    pub format: WireFormat,
    /// Whether a value may be none.
    pub is_optional: bool,
    /// The field of an object that is read, or an empty text for the whole value.
    pub field: &'static str,
}

/// The adapters of the format that the root of the crate reads and writes.
pub const ROOT: Adapter = Adapter {
    format: WireFormat::WITHPFX_IGNORECASE,
    is_optional: false,
    field: "",
};

impl Adapter {
    /// Returns the adapters of a format for values that are never none.
    pub fn of(format: WireFormat) -> Adapter {
        Adapter { format, ..ROOT }
    }

    /// Returns this adapter for values that may be none.
    pub fn optional(mut self) -> Adapter {
        self.is_optional = true;
        self
    }

    /// Returns this adapter for a field of an object.
    pub fn field(self, field: &'static str) -> Adapter {
        Adapter { field, ..self }
    }

    /// Returns what is read for `null`.
    pub fn null(self) -> Answer<'static> {
        match self.is_optional {
            true => Ok(None),
            false => Err(AdapterError::NotText),
        }
    }

    /// Returns the JSON string of the prefix and these digits.
    pub fn string(self, digits: &[u8]) -> Text {
        quoted(self.format.prefix(), digits)
    }

    /// Returns the JSON string that is written for some bytes.
    pub fn written(self, src: &[u8]) -> Text {
        let mut digits = [0; 8_194];
        let digits = encoded(src, self.format.upper, 8_194, &mut digits);
        self.string(digits.unwrap_or_default())
    }
}

/// Returns the adapters of the modules, and behind them those of the other formats.
pub fn adapters() -> [Adapter; 24] {
    let mut adapters = [ROOT; 24];
    for i in 0..24 {
        let by = &mut adapters[i];
        by.is_optional = i % 2 == 1;
        by.format.prefixed = i / 2 % 2 == 0;
        by.format.case = [CheckCase::None, CheckCase::Lower, CheckCase::Upper][i / 4 % 3];
        by.format.upper = (i / 4 % 3 == 2) == (i < 12);
    }
    adapters
}

/// Returns the adapters of the modules.
pub fn modules() -> [Adapter; 12] {
    let mut modules = [ROOT; 12];
    modules.copy_from_slice(&adapters()[..12]);
    modules
}
