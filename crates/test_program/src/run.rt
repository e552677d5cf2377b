//! A run of `fhex` or `fhex-stream`: what it is given, and how it must end.

use hex_program::program::serve_in;
use hex_program::{Op, StreamOp, Unretried, serve, serve_stream};
use std::alloc::Global;
use std::fmt::{self, Display};
use std::io::{self, BufWriter};
use test_kit::fakes::{Giver, Pattern, Taker};
use test_kit::refusing::Refusing;
use test_kit::seen::{Digits, Seen};

/// The operations that encode, each with the digits of 0xab.
pub const ENCODE: [(&str, &[u8]); 2] = [("encode", b"ab"), ("encode-upper", b"AB")];

/// The operations that decode.
pub const DECODE: [&str; 3] = ["decode", "decode-lower", "decode-upper"];

/// The message about an odd number of digits.
pub const EVEN: &str = "hex input length must be even";

/// Returns a pattern of these bytes alone.
pub fn once(end: &[u8]) -> Pattern<'_> {
    Pattern::once(end)
}

/// Returns `count` bytes that repeat a unit, and then an end.
pub fn many<'a>(count: usize, unit: &'a [u8], end: &'a [u8]) -> Pattern<'a> {
    let count = count.saturating_add(end.len());
    Pattern { count, unit, end }
}

/// What a writer takes: all; a number of bytes before one write fails; all but the first write, which takes nothing and
/// returns no error; or all, but each flush fails.
#[derive(Clone, Copy, PartialEq, Eq, Debug)]
pub enum Room {
    Unlimited,
    Limited(usize),
    Stuck,
    Unflushed,
}

impl Room {
    /// Returns a writer that must take these bytes.
    pub fn taker(self, wanted: Pattern<'_>) -> Taker<'_> {
        let mut taker = Taker::new(wanted);
        match self {
            Room::Unlimited => {}
            Room::Limited(room) => taker.room = room,
            Room::Stuck => taker.script = &[0],
            Room::Unflushed => taker.flush = Err(5),
        }
        taker
    }
}

/// A run. If `is_buffered` is true, its output is buffered, as in the program `fhex`. After `granted` allocations all
/// are refused, or after `refused` only the next. A read gives at most `every` bytes. `failure` is the system's code of
/// the error after the input, or 0 without one. `out` and `err` say what is taken of the output and of the message.
#[derive(Clone, Copy)]
pub struct Run<'a> {
    pub is_stream: bool,
    pub words: &'a [&'a str],
    pub input: Pattern<'a>,
    pub is_buffered: bool,
    pub granted: u64,
    pub refused: u64,
    pub every: usize,
    pub failure: i32,
    pub out: Room,
    pub err: Room,
}

/// Returns a run of `fhex` without a limit.
pub fn fhex<'a>(words: &'a [&'a str], input: &'a [u8]) -> Run<'a> {
    Run {
        is_stream: false,
        words,
        input: once(input),
        is_buffered: false,
        granted: u64::MAX,
        refused: u64::MAX,
        every: usize::MAX,
        failure: 0,
        out: Room::Unlimited,
        err: Room::Unlimited,
    }
}

/// Returns a run of `fhex-stream` without a limit.
pub fn fhex_stream<'a>(words: &'a [&'a str], input: &'a [u8]) -> Run<'a> {
    let mut run = fhex(words, input);
    run.is_stream = true;
    run
}

// The run as the text about a wrong result shows it.
impl Display for Run<'_> {
    fn fmt<W: fmt::Write>(&self, f: &mut fmt::Formatter<W>) -> fmt::Result {
        for i in 0..self.words.len() {
            write!(f, "{} ", self.words[i])?;
        }
        let (is_stream, is_buffered) = (self.is_stream, self.is_buffered);
        write!(f, "stream {is_stream} buffered {is_buffered} ")?;
        let (granted, refused, every) = (self.granted, self.refused, self.every);
        write!(f, "granted {granted} refused {refused} every {every} ")?;
        let (failure, out, err) = (self.failure, self.out, self.err);
        write!(f, "fails {failure} out {out:?} err {err:?} ")?;
        let Pattern { count, unit, end } = self.input;
        write!(f, "{count} bytes: {}, {}", Digits(unit), Digits(end))
    }
}

impl<'a> Run<'a> {
    /// Returns the same run with another input.
    pub fn input(self, input: Pattern<'a>) -> Run<'a> {
        Run { input, ..self }
    }

    /// Returns the same run with an output that is kept back.
    pub fn buffered(self) -> Run<'a> {
        let is_buffered = true;
        Run {
            is_buffered,
            ..self
        }
    }

    /// Returns the same run with another number of allocations before each one is refused.
    pub fn granted(self, granted: u64) -> Run<'a> {
        Run { granted, ..self }
    }

    /// Returns the same run with another number of allocations before one is refused.
    pub fn refused(self, refused: u64) -> Run<'a> {
        Run { refused, ..self }
    }

    /// Returns the same run with shorter reads.
    pub fn every(self, every: usize) -> Run<'a> {
        Run { every, ..self }
    }

    /// Returns the same run with an error after the input.
    pub fn failure(self, failure: i32) -> Run<'a> {
        Run { failure, ..self }
    }

    /// Returns the same run with another writer of the output.
    pub fn out(self, out: Room) -> Run<'a> {
        Run { out, ..self }
    }

    /// Returns the same run with another writer of the message.
    pub fn err(self, err: Room) -> Run<'a> {
        Run { err, ..self }
    }

    /// Returns an allocator that refuses what the run must not get.
    pub fn refusing(self, alloc: Global) -> Refusing<Global> {
        if self.refused < u64::MAX {
            Refusing::once(alloc, self.refused)
        } else {
            Refusing::new(alloc, self.granted)
        }
    }

    /// Returns whether an allocation may be refused.
    pub fn refuses(self) -> bool {
        self.granted.min(self.refused) < u64::MAX
    }

    // Returns a reader of the input. `fhex-stream` is interrupted before each read.
    fn giver(self) -> Giver<'a> {
        let mut giver = Giver::new(self.input);
        giver.every = self.every;
        giver.halts = usize::from(self.is_stream);
        if self.failure > 0 {
            giver.failure = Some(io::Error::from_raw_os_error(self.failure).kind());
        }
        giver
    }

    // Returns whether the arguments name an operation.
    fn is_op(self) -> bool {
        match self.words {
            [word] if self.is_stream => StreamOp::from_word(word).is_some(),
            [word] => Op::from_word(word).is_some(),
            _ => false,
        }
    }

    // Returns whether the output is flushed: after all of it, and not after a failed write. `fhex-stream` also flushes
    // what it wrote before an error of the input or a failed read.
    fn is_flushed(self, status: u8) -> bool {
        let is_read_failure = self.is_stream && self.failure > 0;
        match status {
            0 => true,
            1 => self.is_stream,
            _ => status == 3 && (self.out == Room::Unflushed || is_read_failure),
        }
    }
}

/// How a run must end: its exit status; what is taken of its output and of its message, without the newline; how many
/// bytes of the input's end are not read; and the number of allocations, if one may be refused.
#[derive(Clone, Copy)]
pub struct End<'a> {
    pub status: u8,
    pub out: Pattern<'a>,
    pub message: &'a str,
    pub left: usize,
    pub asked: u64,
}

impl<'a> End<'a> {
    /// Returns the same end with another output.
    pub fn out(self, out: Pattern<'a>) -> End<'a> {
        End { out, ..self }
    }

    /// Returns the same end with bytes of the input that are not read.
    pub fn left(self, left: usize) -> End<'a> {
        End { left, ..self }
    }

    /// Returns the same end with a number of allocations.
    pub fn asked(self, asked: u64) -> End<'a> {
        End { asked, ..self }
    }
}

/// Returns the end of a run that has written its whole output.
pub fn ok(out: &[u8]) -> End<'_> {
    let (out, end) = (once(out), says(0, ""));
    end.out(out)
}

/// Returns the end of a run that fails, and has written nothing to the output.
pub fn says(status: u8, message: &str) -> End<'_> {
    End {
        status,
        out: once(b""),
        message,
        left: 0,
        asked: 0,
    }
}

// Runs `fhex` with a buffer of 65,536 bytes for its output.
fn serve_buffered<'a>(
    alloc: Global,
    words: &[&str],
    input: &mut Giver<'_>,
    out: Taker<'a>,
    err: Taker<'a>,
) -> io::Result<(u8, Taker<'a>, Taker<'a>)> {
    let out = BufWriter::with_capacity(alloc, 65_536, Unretried { inner: out })?;
    let (status, out, err) = serve(alloc, words, input, out, err);
    let (unretried, _) = out.into_parts();
    Ok((status, unretried.inner, err))
}

/// The runs of a test.
#[derive(Drop)]
pub struct Runs {
    pub seen: Seen,
    pub alloc: Global,
}

impl Runs {
    /// Returns the state before the first run.
    pub fn new(alloc: Global) -> Runs {
        let seen = Seen::new();
        Runs { seen, alloc }
    }

    /// Tries a run, and compares how it ends with how it must.
    pub fn tries(&mut self, run: Run<'_>, want: End<'_>) {
        self.seen.tries();
        // A message is written whole, with its newline, unless the writer has no room for it.
        let is_whole = !want.message.is_empty() && !matches!(run.err, Room::Limited(_));
        let end: &[u8] = if is_whole { b"\n" } else { b"" };
        let line = many(want.message.len(), want.message.as_bytes(), end);
        let (out, err) = (run.out.taker(want.out), run.err.taker(line));
        let (mut giver, refusing) = (run.giver(), run.refusing(self.alloc));
        let ended = if run.is_stream {
            Ok(serve_stream(run.words, &mut giver, out, err))
        } else if run.is_buffered {
            serve_buffered(self.alloc, run.words, &mut giver, out, err)
        } else if run.refuses() {
            Ok(serve_in(&refusing, run.words, &mut giver, out, err))
        } else {
            Ok(serve(self.alloc, run.words, &mut giver, out, err))
        };
        let Ok((status, out, err)) = ended else {
            self.seen.is(run, "memory for a buffer", false, true);
            return;
        };
        self.seen.is(run, "status", status, want.status);
        self.is_settled(run, &refusing, want.asked);
        self.is_read(run, want, &giver);
        let is_one_piece = out.is_given_whole() || !run.is_buffered || want.status != 0;
        self.seen.is(run, "output at once", is_one_piece, true);
        self.is_taken(run, "output", &out, run.is_flushed(want.status));
        let is_one_piece = err.is_given_whole() || !is_whole;
        self.seen.is(run, "message at once", is_one_piece, true);
        self.is_taken(run, "message", &err, is_whole);
    }

    /// Tries words that name nothing: the end is the usage, and nothing is read.
    pub fn names_nothing(&mut self, run: Run<'_>, usage: &str) {
        let (left, end) = (run.input.end.len(), says(2, usage));
        self.tries(run, end.left(left));
    }

    /// Compares how many allocations a run made, and whether it gave all back.
    pub fn is_settled(&mut self, run: Run<'_>, refusing: &Refusing<Global>, asked: u64) {
        self.seen.is(run, "allocations", refusing.asked(), asked);
        let is_settled = refusing.is_settled(asked);
        self.seen.is(run, "all given back", is_settled, true);
    }

    // Compares what a run read: all but `want.left` bytes of the end, in few reads, and nothing without an operation.
    fn is_read(&mut self, run: Run<'_>, want: End<'_>, giver: &Giver<'_>) {
        let left = giver.left().min(run.input.end.len());
        self.seen.is(run, "bytes left", left, want.left);
        let is_read = giver.ended < 2 && giver.is_read_by(65_536);
        self.seen.is(run, "few reads", is_read, true);
        let is_unread = run.is_op() || giver.is_unread();
        self.seen.is(run, "nothing read", is_unread, true);
    }

    // Compares what a writer took, and whether it was flushed once or not at all.
    fn is_taken(&mut self, run: Run<'_>, name: &'static str, taker: &Taker<'_>, is_flushed: bool) {
        self.seen.is(run, name, taker.is_filled(), true);
        let flushes = usize::from(is_flushed);
        self.seen.is(run, "flushes", taker.flushes, flushes);
    }
}
