//! The failures of `fhex` and `fhex-stream`, with the exit status and the message of each.

ghost use Rattle.std.specs.Prelude.{◌≡◌, Some};
ghost use Rattle.hex_program.specs.Serving.{failure_text, status_of, stream_failure_text};

use hex_core::Error;
use std::fmt;

/// Why `fhex` or `fhex-stream` failed. Its `Display` is the line that `fhex` writes to standard error,
/// without the newline.
#[derive(Clone, Copy, Debug, PartialEq, Eq)]
pub enum Failure {
    /// The input is not valid for the operation.
    Codec(Error),
    /// The arguments of `fhex` name neither one operation nor the stored vectors.
    Usage,
    /// The arguments of `fhex-stream` are not one word that names an operation, the help or the
    /// version.
    StreamUsage,
    /// A read failed, or the system did not give an argument.
    ReadFailed,
    /// An argument is not UTF-8. `fhex` calls this a failed read.
    NotUtf8,
    /// A write or a flush failed.
    WriteFailed,
    /// An allocation failed.
    OutOfMemory,
    /// The input is longer than [`INPUT_LIMIT`](crate::input::INPUT_LIMIT).
    InputTooLong,
}

impl Failure {
    // Returns the exit status. It is 1 for invalid input, 2 for wrong arguments, and 3 for a
    // failure of the system or for an input that is too long.
    pub(crate) fn status(self) -> u8
        ensures { result ≡ status_of self }
    {
        match self {
            Failure::Codec(_) => 1,
            Failure::Usage | Failure::StreamUsage => 2,
            Failure::ReadFailed
            | Failure::NotUtf8
            | Failure::WriteFailed
            | Failure::OutOfMemory
            | Failure::InputTooLong => 3,
        }
    }
}

impl fmt::Display for Failure {
    ghost output = { λ f. Some (failure_text f) };

    fn fmt<W: fmt::Write>(&self, f: &mut fmt::Formatter<W>) -> fmt::Result {
        match self {
            Failure::Codec(e) => write!(f, "{e}"),
            Failure::Usage => f.write_str(
                "usage: fhex encode|encode-upper|decode|decode-lower|decode-upper|vectors",
            ),
            Failure::StreamUsage => f.write_str("usage: fhex-stream encode|encode-lines|decode"),
            Failure::ReadFailed | Failure::NotUtf8 => f.write_str("read failed"),
            Failure::WriteFailed => f.write_str("write failed"),
            Failure::OutOfMemory => f.write_str("out of memory"),
            Failure::InputTooLong => f.write_str("input too long"),
        }
    }
}

/// A failure of `fhex-stream`. Its `Display` is the line that the program writes to standard error,
/// without the newline: the name of the program and the failure, or the usage.
#[derive(Clone, Copy, Debug, PartialEq, Eq)]
pub struct StreamFailure(pub Failure);

impl fmt::Display for StreamFailure {
    ghost output = { λ f. Some (stream_failure_text f.0) };

    fn fmt<W: fmt::Write>(&self, f: &mut fmt::Formatter<W>) -> fmt::Result {
        match self.0 {
            Failure::StreamUsage => write!(f, "{}", self.0),
            Failure::NotUtf8 => f.write_str("fhex-stream: an argument is not UTF-8"),
            failure => write!(f, "fhex-stream: {failure}"),
        }
    }
}
