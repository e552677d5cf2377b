//! A sink of six modes, which say what it takes of a piece, and what is put into sinks.

ghost use Rattle.std.specs.Prelude.{◌≡◌, ◌≤◌, ◌<◌, None};

use hex_core::Error;
use hex_io::digests::{self, Entry, ListWriteFault};
use hex_io::{Hex, HexFlags, Sink, SinkFault, SliceSink, WriteFault};
use test_kit::destination::Destination;
use test_kit::fakes::Pattern;
use test_kit::seen::{Given, Seen};

/// What a sink takes of a piece. The limit of a sink is the number of bytes that it takes in all.
#[derive(Clone, Copy, PartialEq, Eq)]
pub enum Mode {
    /// One byte of each piece.
    OneByte,
    /// What fits. A put at the limit is refused, even one of an empty piece.
    ThenRefuses,
    /// What fits. The put of a piece that does not fit whole takes a part of it and fails.
    RefusesTheRest,
    /// Each piece that fits whole. Any other piece is refused, and no part of it is taken.
    TakesWholes,
    /// What fits, which is nothing at the limit.
    ThenTakesNone,
    /// What fits. A piece of more than 1,024 bytes is refused.
    RefusesLong,
}

/// All modes.
pub const MODES: [Mode; 6] = [
    Mode::OneByte,
    Mode::ThenRefuses,
    Mode::RefusesTheRest,
    Mode::ThenTakesNone,
    Mode::RefusesLong,
    Mode::TakesWholes,
];

impl Mode {
    /// Returns the name of a mode.
    pub fn name(self) -> &'static str {
        match self {
            Mode::OneByte => "one-byte",
            Mode::ThenRefuses => "then-refuses",
            Mode::RefusesTheRest => "refuses-the-rest",
            Mode::TakesWholes => "takes-wholes",
            Mode::ThenTakesNone => "then-takes-none",
            Mode::RefusesLong => "refuses-long",
        }
    }

    // Returns the fault that a failed put into a sink of this mode is reported as.
    fn fault(self) -> WriteFault {
        match self {
            Mode::OneByte | Mode::ThenTakesNone => WriteFault::TookNothing,
            _ => WriteFault::Sink(SinkFault),
        }
    }
}

/// A sink that compares what it takes with what it must take. After a failure nothing more may be put into it.
#[derive(Drop)]
pub struct Taking<'a> {
    mode: Mode,
    wanted: Pattern<'a>,
    taken: usize,
    limit: usize,
    failed: u64,
    has_failed: bool,
    is_right: bool,
    /// The number of puts.
    pub puts: usize,
    ghost in_limit: { taken ≤ limit },
}

impl<'a> Taking<'a> {
    /// Returns a sink of a mode, which takes `limit` bytes and has already counted `failed` failures.
    pub fn new(mode: Mode, wanted: Pattern<'a>, limit: usize, failed: u64) -> Taking<'a>
        ensures { (⟦<Taking<'a> as Sink>⟧.state result).failures ≡ failed }
    {
        Taking {
            mode,
            wanted,
            taken: 0,
            limit,
            failed,
            has_failed: false,
            is_right: true,
            puts: 0,
        }
    }

    /// Returns whether the sink has taken exactly what it must, or a prefix if it refused a whole piece, and has
    /// counted `failures` failures.
    pub fn is_filled(&self, failures: u64) -> bool {
        let is_cut = self.mode == Mode::TakesWholes && self.has_failed;
        let is_taken = is_cut || self.taken == self.wanted.count;
        self.is_right && is_taken && self.failed == failures
    }

    // Returns whether a piece is what the sink must take next.
    fn wants(&self, piece: &[u8]) -> bool {
        for i in 0..piece.len() {
            if self.wanted.at(self.taken.wrapping_add(i)) != Some(piece[i]) {
                return false;
            }
        }
        true
    }
}

impl Sink for Taking<'_> {
    ghost state = { λ sink. record { taken = None; failures = sink.failed; free = None; loan = None } };

    fn failures(&self) -> u64 {
        self.failed
    }

    fn put(&mut self, piece: &[u8]) -> Result<usize, SinkFault> {
        self.puts = self.puts.saturating_add(1);
        let fits = piece.len().min(self.limit - self.taken);
        let count = match self.mode {
            Mode::OneByte => fits.min(1),
            Mode::TakesWholes if fits < piece.len() => 0,
            _ => fits,
        };
        let is_refused = match self.mode {
            Mode::ThenRefuses => self.taken == self.limit,
            Mode::RefusesTheRest | Mode::TakesWholes => count < piece.len(),
            Mode::RefusesLong => piece.len() > 1024,
            _ => false,
        };
        let is_right = self.wants(&piece[..count]);
        self.is_right = self.is_right && is_right && !self.has_failed;
        self.taken += count;
        if is_refused || (count == 0 && !piece.is_empty()) {
            self.has_failed = true;
            self.failed = self.failed.saturating_add(1);
        }
        if is_refused {
            Err(SinkFault)
        } else {
            Ok(count)
        }
    }
}

/// The text that a sink takes, and whether it then fails.
#[derive(Clone, Copy)]
pub struct Taken<'a> {
    pub text: &'a [u8],
    pub is_stopped: bool,
}

impl Taken<'_> {
    // Returns whether writing ended with `fault` if the sink fails, and without a fault otherwise.
    fn is_ended(self, answer: Result<(), ListWriteFault>, fault: WriteFault) -> bool {
        match answer {
            Ok(()) => !self.is_stopped,
            Err(got) => self.is_stopped && got == ListWriteFault::Write(fault),
        }
    }
}

/// What is put into a sink: the text of bytes by flags, or that of a list, which uses only the flags' letter case.
#[derive(Clone, Copy)]
pub enum Put<'a, const N: usize> {
    /// Some bytes.
    Padded(&'a [u8]),
    /// The entries of a list.
    List(&'a [Entry<'a, N>]),
}

impl<'a, const N: usize> Put<'a, N> {
    // Puts the text into a sink.
    fn write_to<S: Sink>(self, sink: &mut S, flags: &HexFlags) -> Result<(), ListWriteFault>
        requires { N < 10000 }
    {
        match self {
            Put::Padded(bytes) => match Hex::new(bytes).write_to(sink, flags) {
                Ok(()) => Ok(()),
                Err(fault) => Err(ListWriteFault::Write(fault)),
            },
            Put::List(entries) => digests::write_to(entries, sink, flags.upper),
        }
    }

    /// Tries a slice of `given.number` bytes.
    pub fn fills(
        self,
        seen: &mut Seen,
        given: Given<'_>,
        flags: &HexFlags,
        want: Taken<'_>,
        to: &mut Destination,
    )
        requires { N < 10000 }
    {
        let mut sink = SliceSink::new(to.lend(given.number));
        let answer = self.write_to(&mut sink, flags);
        let is_ended = want.is_ended(answer, WriteFault::Sink(SinkFault));
        let is_counted = sink.failures() == u64::from(want.is_stopped);
        let wanted: Result<_, Error> = Ok(want.text);
        seen.gives(given, "SliceSink::written", Ok(sink.written()), wanted);
        seen.is(given, "SliceSink: it ends so", is_ended && is_counted, true);
        to.is_left(seen, given, "SliceSink: its slice", wanted);
    }

    /// Tries a sink of a mode that takes `given.number` bytes.
    pub fn is_taken(
        self,
        seen: &mut Seen,
        given: Given<'_>,
        flags: &HexFlags,
        mode: Mode,
        want: Taken<'_>,
    )
        requires { N < 10000 }
    {
        let mut sink = Taking::new(mode, Pattern::once(want.text), given.number, 0);
        let answer = self.write_to(&mut sink, flags);
        let is_so = want.is_ended(answer, mode.fault())
            && sink.is_filled(u64::from(want.is_stopped));
        seen.is(given, mode.name(), is_so, true);
    }
}
