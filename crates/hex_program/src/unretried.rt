//! A writer whose writes are not tried again by a buffer in front of it.

ghost use Rattle.std.specs.Prelude.{◌≢◌, IfErr};
ghost use Rattle.std.specs.Io.{WritesAtMost};
ghost use Rattle.std.specs.Io.KnownBytes.{WriteAppends};
ghost use Rattle.std.specs.IoError.{error_kind};

use std::io;
use std::io::{ErrorKind, Write};

/// A writer that turns an interrupted write into another error. `BufWriter` tries an interrupted
/// write of its buffer again, but not a direct write. With this writer it tries neither again.
#[derive(Drop)]
pub struct Unretried<W> {
    /// The inner writer.
    pub inner: W,
}

impl<W: Write> Write for Unretried<W> {
    ghost contents = { λ w. W.contents w.inner };

    fn write(&mut self, buf: &[u8]) -> io::Result<usize>
        ensures bound { WritesAtMost result buf.now }
        ensures bytes { WriteAppends (W.contents self.old.inner) (W.contents self.new.inner) result buf.now }
        ensures unretried { IfErr result (λ e. error_kind e ≢ ErrorKind.Interrupted) }
    {
        match self.inner.write(buf) {
            Err(e) if e.kind() == ErrorKind::Interrupted => Err(io::Error::from(ErrorKind::Other)),
            answer => answer,
        }
    }

    fn flush(&mut self) -> io::Result<()> {
        self.inner.flush()
    }
}
