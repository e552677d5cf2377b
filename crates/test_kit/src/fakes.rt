//! A reader and a writer for tests. A test says where they fail.

use std::io::{self, ErrorKind, Read, Write};

/// The message of an error that does not come from the system.
pub const WORDS: &str = "no more is taken";

/// How a writer answers a call: the most bytes that it takes or, if the number is negative, the system's error whose
/// code is the number without its sign. -1 stands for an error of the kind time-out with the message [`WORDS`].
pub type Told = i32;

// The system's code of an interrupted call.
const INTERRUPTED: i32 = 4;

fn error(code: i32) -> io::Error {
    if code == 1 {
        io::Error::new(ErrorKind::TimedOut, WORDS)
    } else {
        io::Error::from_raw_os_error(code)
    }
}

/// The bytes that a reader gives, or that a writer must take: a unit that is repeated, and then an end.
#[derive(Clone, Copy)]
pub struct Pattern<'a> {
    /// The number of all bytes.
    pub count: usize,
    /// The unit that is repeated.
    pub unit: &'a [u8],
    /// The last bytes.
    pub end: &'a [u8],
}

impl<'a> Pattern<'a> {
    /// Returns a pattern of these bytes alone.
    pub fn once(end: &'a [u8]) -> Pattern<'a> {
        Pattern {
            count: end.len(),
            unit: &[],
            end,
        }
    }

    /// Returns the byte at a place, if there is one.
    pub fn at(self, place: usize) -> Option<u8> {
        let start = self.count.saturating_sub(self.end.len());
        let turned = place.checked_rem(self.unit.len()).unwrap_or(0);
        match place.checked_sub(start) {
            Some(at) => self.end.get(at).copied(),
            None => self.unit.get(turned).copied(),
        }
    }
}

/// A reader that gives the bytes of a pattern. After them one read may fail. Each later read meets the end.
#[derive(Drop)]
pub struct Giver<'a> {
    /// The most bytes that a read gives.
    pub every: usize,
    /// How often each read is interrupted before it gives bytes.
    pub halts: usize,
    /// The failure after the last byte.
    pub failure: Option<ErrorKind>,
    /// How many reads were made. Interrupted ones do not count.
    pub reads: usize,
    /// How many reads were made after the last byte.
    pub ended: usize,
    bytes: Pattern<'a>,
    place: usize,
    halted: usize,
}

impl<'a> Giver<'a> {
    /// Returns a reader that gives these bytes, and in each read as many as fit.
    pub fn new(bytes: Pattern<'a>) -> Giver<'a> {
        Giver {
            every: usize::MAX,
            halts: 0,
            failure: None,
            reads: 0,
            ended: 0,
            bytes,
            place: 0,
            halted: 0,
        }
    }

    /// Returns whether no more reads were made than are needed: one for each `chunk` bytes, one for the rest, and one
    /// at the end.
    pub fn is_read_by(&self, chunk: usize) -> bool {
        let chunks = self.place.checked_div(chunk.min(self.every));
        self.reads <= chunks.unwrap_or(0).saturating_add(2)
    }

    /// Returns whether no read was tried, not even one that was interrupted.
    pub fn is_unread(&self) -> bool {
        self.reads == 0 && self.halted == 0
    }

    /// Returns how many bytes were not given yet.
    pub fn left(&self) -> usize {
        self.bytes.count.saturating_sub(self.place)
    }
}

impl Read for Giver<'_> {
    fn read(&mut self, buf: &mut [u8]) -> io::Result<usize> {
        if self.halted < self.halts {
            self.halted += 1;
            return Err(io::Error::from(ErrorKind::Interrupted));
        }
        self.halted = 0;
        self.reads = self.reads.saturating_add(1);
        let count = buf.len().min(self.every).min(self.left());
        if self.left() == 0 {
            self.ended = self.ended.saturating_add(1);
            if let Some(kind) = self.failure.take() {
                return Err(io::Error::from(kind));
            }
        }
        for i in 0..count {
            buf[i] = self.bytes.at(self.place.wrapping_add(i)).unwrap_or(0);
        }
        self.place = self.place.wrapping_add(count);
        Ok(count)
    }
}

/// A writer that compares what it takes with what it must take. A test states the answers of the first writes. Each
/// later write takes one byte, except for one that may fail.
#[derive(Drop)]
pub struct Taker<'a> {
    /// The answers of the next writes.
    pub script: &'a [Told],
    /// How many writes after those of the script take a byte before one fails.
    pub room: usize,
    /// The answer of each flush.
    pub flush: Result<(), i32>,
    /// The number of flushes.
    pub flushes: usize,
    /// How many bytes all writes were given together.
    pub given: usize,
    wanted: Pattern<'a>,
    taken: usize,
    is_other: bool,
}

impl<'a> Taker<'a> {
    /// Returns a writer of which each write takes one byte, and none fails.
    pub fn new(wanted: Pattern<'a>) -> Taker<'a> {
        Taker {
            script: &[],
            room: usize::MAX,
            flush: Ok(()),
            flushes: 0,
            given: 0,
            wanted,
            taken: 0,
            is_other: false,
        }
    }

    /// Returns whether the writer has taken exactly the bytes that it must take.
    pub fn is_filled(&self) -> bool {
        !self.is_other && self.taken == self.wanted.count
    }

    /// Returns whether each write was given all bytes that were not taken yet.
    pub fn is_given_whole(&self) -> bool {
        let count = self.wanted.count;
        self.given == count.saturating_mul(count.saturating_add(1)) / 2
    }

    // Returns the answer of the next write.
    fn told(&mut self) -> Told {
        if let Some((told, script)) = self.script.split_first() {
            self.script = script;
            return *told;
        }
        let room = self.room;
        self.room = room.wrapping_sub(1);
        if room == 0 { -INTERRUPTED } else { 1 }
    }
}

impl Write for Taker<'_> {
    fn write(&mut self, buf: &[u8]) -> io::Result<usize> {
        self.given = self.given.saturating_add(buf.len());
        let told = self.told();
        let Ok(count) = usize::try_from(told) else {
            return Err(error(told.wrapping_neg()));
        };
        let count = count.min(buf.len());
        for i in 0..count {
            self.is_other = self.is_other || self.wanted.at(self.taken) != Some(buf[i]);
            self.taken = self.taken.saturating_add(1);
        }
        Ok(count)
    }

    fn flush(&mut self) -> io::Result<()> {
        self.flushes = self.flushes.saturating_add(1);
        self.flush.map_err(error)
    }
}
