//! Sinks, which take bytes piece by piece. There is one over a slice and one over a writer.

ghost use Rattle.std.specs.Prelude.{◌≡◌, ◌≤◌, None, Some, length};
ghost use Rattle.std.specs.Option.{option_copied};
ghost use Rattle.hex_io.specs.Message.{sink_fault_text, write_fault_text};
ghost use Rattle.hex_io.specs.SinkState.{Puts, PutsPiece, SinkState};
ghost use Rattle.hex_io.specs.declared.sink.WriteFault.TheVariants as fault;

use std::io::{self, Write};
use std::{error, fmt};

/// The error of a [`Sink`] that refused a piece. Only the sink knows why.
///
/// ```rust
/// assert_eq!(rt; SinkFault.to_string(rt.alloc())?.as_str(), "sink refused");
/// ```
#[derive(Clone, Copy, Debug, PartialEq, Eq)]
pub struct SinkFault;

impl fmt::Display for SinkFault {
    ghost output = { λ _. Some sink_fault_text };

    fn fmt<W: fmt::Write>(&self, f: &mut fmt::Formatter<W>) -> fmt::Result {
        f.write_str("sink refused")
    }
}

impl error::Error for SinkFault {}

/// A sink takes bytes piece by piece, and counts the puts that failed.
///
/// A put is a call of `put`. It failed if it returned `Err`, or if it took no byte of a nonempty
/// piece.
///
/// A contract can say which bytes a sink has taken only if the type of the sink models them.
/// [`SliceSink`] does, and [`WriterSink`] does if its writer does.
pub trait Sink {
    // The state of the sink. It has the bytes taken and the number of failed puts. A sink over a
    // borrowed buffer also has the free bytes of the buffer and the borrow. Any other sink has
    // `None` for these two.
    ghost state: { Self → SinkState };

    /// Returns the number of failed puts, or `u64::MAX` if there were more.
    fn failures(&self) -> u64
        ensures count { result ≡ (state self.now).failures };

    /// Offers a piece to the sink. Returns how many of its first bytes were taken.
    ///
    /// The number of failures rises by one exactly if this returns an error, or takes no byte of a
    /// nonempty piece. It stays at `u64::MAX` once it is there. A sink over a borrowed buffer takes
    /// a nonempty piece whole if it fits.
    ///
    /// # Errors
    ///
    /// [`SinkFault`] if the sink refuses the piece. It may have taken a first part of the piece.
    fn put(&mut self, piece: &[u8]) -> Result<usize, SinkFault>
        ensures puts { PutsPiece (state self.old) (state self.new) result piece.now };
}

/// Why a text was not written in full. The sink may have taken a first part of it. Nothing was put
/// after the failure.
///
/// ```rust
/// let fault = WriteFault::TookNothing;
/// assert_eq!(rt; fault.to_string(rt.alloc())?.as_str(), "sink took nothing");
/// ```
#[derive(Clone, Copy, Debug, PartialEq, Eq)]
pub enum WriteFault {
    /// The sink refused a piece.
    Sink(SinkFault),
    /// The sink took no byte of a nonempty piece.
    TookNothing,
}

impl fmt::Display for WriteFault {
    ghost output = { λ fault. Some (write_fault_text fault) };

    fn fmt<W: fmt::Write>(&self, f: &mut fmt::Formatter<W>) -> fmt::Result {
        match self {
            WriteFault::Sink(refusal) => refusal.fmt(f),
            WriteFault::TookNothing => f.write_str("sink took nothing"),
        }
    }
}

impl error::Error for WriteFault {}

impl From<SinkFault> for WriteFault {
    ghost from_gives = { λ refusal given. given ≡ fault.Sink refusal };

    fn from(refusal: SinkFault) -> WriteFault {
        WriteFault::Sink(refusal)
    }
}

/// Puts a piece into `sink`, and then what is left of it, until all of it is taken.
///
/// On `Ok` the sink has taken exactly the bytes of the piece, and has counted no failure. An empty
/// piece is not put at all, and is always `Ok`.
///
/// # Errors
///
/// The first failed put ends the call. The sink has then taken a first part of the piece, and has
/// counted one more failure.
///
/// - [`WriteFault::Sink`] if the sink refused.
/// - [`WriteFault::TookNothing`] if it took no byte.
///
/// ```rust
/// let mut buffer = [0; 3];
/// let mut sink = SliceSink::new(&mut buffer);
/// assert_eq!(rt; put_all(&mut sink, b"ab"), Ok(()));
/// assert_eq!(rt; put_all(&mut sink, b"cd"), Err(WriteFault::Sink(SinkFault)));
/// assert_eq!(rt; sink.written(), b"abc".as_slice());
/// ```
pub fn put_all<S: Sink>(sink: &mut S, piece: &[u8]) -> Result<(), WriteFault>
    ensures puts { Puts (S.state sink.old) (S.state sink.new) result piece.now }
{
    let mut at = 0;
    while at < piece.len() {
        match sink.put(&piece[at..]) {
            Ok(0) => return Err(WriteFault::TookNothing),
            Ok(count) => at += count,
            Err(fault) => return Err(WriteFault::Sink(fault)),
        }
    }
    Ok(())
}

/// A sink over a slice. It fills the slice from the start, and refuses once the slice is full.
///
/// ```rust
/// let mut buffer = [0; 3];
/// let mut sink = SliceSink::new(&mut buffer);
/// assert_eq!(rt; sink.put(b"ab"), Ok(2));
/// assert_eq!(rt; sink.put(b"cd"), Ok(1));
/// assert_eq!(rt; sink.put(b"d"), Err(SinkFault));
/// assert_eq!(rt; sink.written(), b"abc".as_slice());
/// assert_eq!(rt; sink.failures(), 1);
/// ```
///
/// Each put appends to what was put before:
///
/// ```rust
/// let mut buffer = [0; 1100];
/// let mut sink = SliceSink::new(&mut buffer);
/// let mut flags = HexFlags::default();
/// let bytes = Hex::new(&[0, 0xab, 0xcd]);
/// assert_eq!(rt; sink.put(b"hash="), Ok(5));
/// flags.prefix = true;
/// flags.upper = true;
/// bytes.write_to(&mut sink, &flags)?;
/// assert_eq!(rt; sink.put(b", again="), Ok(8));
/// bytes.write_to(&mut sink, &HexFlags::default())?;
/// assert_eq!(rt; sink.written(), b"hash=0x00ABCD, again=00abcd".as_slice());
/// assert_eq!(rt; sink.failures(), 0);
/// ```
// The second example is the test of the crate `faster-hex` named `writes_into_fixed_storage_without_alloc`.
#[derive(Drop)]
pub struct SliceSink<'a> {
    buf: &'a mut [u8],
    used: usize,
    refused: u64,
    ghost in_range: { used ≤ length buf.now },
}

impl<'a> SliceSink<'a> {
    ghost use Rattle.hex_io.specs.SliceAndWriterSinks.{fresh_state, slice_state, written_bytes};

    /// Returns a sink that has taken nothing. All of `buf` is free, and no put has failed.
    pub fn new(buf: &'a mut [u8]) -> SliceSink<'a>
        ensures fresh { slice_state result ≡ fresh_state buf.entry }
    {
        SliceSink {
            buf,
            used: 0,
            refused: 0,
        }
    }

    /// Returns the bytes taken so far, in order.
    pub fn written(&self) -> &[u8]
        ensures bytes { result.now ≡ written_bytes self.now }
    {
        &self.buf[..self.used]
    }
}

impl Sink for SliceSink<'_> {
    ghost use Rattle.hex_io.specs.SliceAndWriterSinks.{TakesWhatFits, slice_state};

    ghost state = { slice_state };

    fn failures(&self) -> u64 {
        self.refused
    }

    /// Takes as much of `piece` as fits into the rest of the slice.
    ///
    /// # Errors
    ///
    /// [`SinkFault`] exactly if `piece` is nonempty and the slice is full. Nothing is taken in this
    /// case.
    fn put(&mut self, piece: &[u8]) -> Result<usize, SinkFault>
        ensures puts { PutsPiece (slice_state self.old) (slice_state self.new) result piece.now }
        // A put takes all that fits, and a refused put takes nothing.
        ensures fits { TakesWhatFits self.old self.new result piece.now }
    {
        let free = self.buf.len() - self.used;
        if free == 0 && !piece.is_empty() {
            self.refused = self.refused.saturating_add(1);
            return Err(SinkFault);
        }
        let count = piece.len().min(free);
        self.buf[self.used..self.used + count].copy_from_slice(&piece[..count]);
        self.used += count;
        Ok(count)
    }
}

/// A sink over a writer. Each put is one `write`, and no `write` is tried again.
///
/// ```rust
/// let mut sink = WriterSink::new(Vec::with_capacity(rt.alloc(), 4)?);
/// assert_eq!(rt; sink.put(b"ab"), Ok(2));
/// Hex::new(&[0xab]).write_to(&mut sink, &HexFlags::default())?;
/// assert!(rt; sink.last_error().is_none() && sink.failures() == 0);
/// assert_eq!(rt; sink.into_inner().as_slice(), b"abab".as_slice());
/// ```
#[derive(Drop)]
pub struct WriterSink<W: Write> {
    writer: W,
    last_error: Option<io::Error>,
    failed: u64,
}

impl<W: Write> WriterSink<W> {
    ghost use Rattle.hex_io.specs.SliceAndWriterSinks.{IsFreshOver, kept_error, writer_of};

    /// Returns a sink over `writer` that has no error and no failures.
    pub fn new(writer: W) -> WriterSink<W>
        ensures fresh { IsFreshOver W.contents writer result }
    {
        WriterSink {
            writer,
            last_error: None,
            failed: 0,
        }
    }

    /// Returns the last error of the writer, if there was one. If a `write` took no byte of a
    /// nonempty piece, this is a failure without an error.
    pub fn last_error(&self) -> Option<&io::Error>
        ensures error { option_copied result ≡ kept_error self.now }
    {
        self.last_error.as_ref()
    }

    /// Returns the writer. Nothing is written or flushed.
    pub fn into_inner(self) -> W
        ensures writer { result ≡ writer_of self }
    {
        self.writer
    }
}

impl<W: Write> Sink for WriterSink<W> {
    ghost use Rattle.hex_io.specs.SliceAndWriterSinks.{KeepsError, PutsIntoWriter, writer_state};

    ghost state = { writer_state W.contents };

    fn failures(&self) -> u64 {
        self.failed
    }

    /// Passes `piece` to the writer in one `write`, and returns how many bytes it took.
    ///
    /// # Errors
    ///
    /// [`SinkFault`] if the writer returned an error, which the sink keeps. Nothing is taken in
    /// this case.
    fn put(&mut self, piece: &[u8]) -> Result<usize, SinkFault>
        ensures puts { PutsIntoWriter W.contents self.old self.new result piece.now }
        // A refused put takes nothing and keeps an error. No clause can say which error that is.
        ensures error { KeepsError W.contents self.old self.new result }
    {
        match self.writer.write(piece) {
            Ok(count) => {
                if count == 0 && !piece.is_empty() {
                    self.failed = self.failed.saturating_add(1);
                }
                Ok(count)
            }
            Err(error) => {
                self.last_error = Some(error);
                self.failed = self.failed.saturating_add(1);
                Err(SinkFault)
            }
        }
    }
}
