//! Runs of one operation over a writer.

use crate::ends;
use crate::run::Room::*;
use crate::run::{DECODE, ENCODE, Run, Runs, fhex, many, once};
use hex_core::Error::{InvalidChar, OddLength};
use hex_io::{Sink, SinkFault, WriteFault, WriterSink};
use hex_program::Op;
use hex_program::RunFault::{self, Codec, OutOfMemory, Write};
use hex_program::operation::run_in;
use std::fmt::{self, Display};
use test_kit::fakes::Pattern;

// The result of a run. `PUT` is that of a run that puts all, and the other constants are errors.
#[derive(Clone, Copy, PartialEq, Eq)]
struct Ended(Result<(), RunFault>);

const PUT: Ended = Ended(Ok(()));

const FULL: Ended = Ended(Err(Write(WriteFault::Sink(SinkFault))));

const STUCK: Ended = Ended(Err(Write(WriteFault::TookNothing)));

const NO_MEMORY: Ended = Ended(Err(OutOfMemory));

const ODD: Ended = Ended(Err(Codec(OddLength)));

// The result of a run over digits with an invalid byte.
fn invalid(index: usize, byte: u8) -> Ended {
    Ended(Err(Codec(InvalidChar { index, byte })))
}

impl Display for Ended {
    fn fmt<W: fmt::Write>(&self, f: &mut fmt::Formatter<W>) -> fmt::Result {
        write!(f, "{:?}", self.0)
    }
}

impl Runs {
    // Tries an operation, and compares its result, what its writer took, what the sink reports, and its allocations.
    fn puts(&mut self, run: Run<'_>, want: Ended, out: Pattern<'_>, asked: u64) {
        self.seen.tries();
        let word = run.words.first().copied().unwrap_or_default();
        let op = Op::from_word(word).unwrap_or(Op::Encode);
        let mut sink = WriterSink::new(run.out.taker(out));
        let refusing = run.refusing(self.alloc);
        let got = if run.refuses() {
            run_in(&refusing, op, run.input.end, &mut sink)
        } else {
            hex_program::run(self.alloc, op, run.input.end, &mut sink)
        };
        self.seen.is(run, "result", Ended(got), want);
        let failures = u64::from(matches!(want.0, Err(Write(_))));
        self.seen.is(run, "failures", sink.failures(), failures);
        let is_kept = sink.last_error().is_some();
        self.seen.is(run, "an error is kept", is_kept, want == FULL);
        let is_filled = sink.into_inner().is_filled();
        self.seen.is(run, "output", is_filled, true);
        self.is_settled(run, &refusing, asked);
    }
}

// Encodes `count` bytes, and decodes the digits of `count` bytes.
fn each_operation(runs: &mut Runs, count: usize, bytes: &[u8], digits: &[u8]) {
    let (bytes, digits) = (bytes.get(..count), digits.get(..count.saturating_mul(2)));
    for (word, unit) in ENCODE {
        let out = many(count.saturating_mul(2), unit, b"\n");
        runs.puts(fhex(&[word], bytes.unwrap_or_default()), PUT, out, 0);
    }
    for word in DECODE {
        let out = many(count, b"\0", b"");
        runs.puts(fhex(&[word], digits.unwrap_or_default()), PUT, out, 0);
    }
}

#[test]
fn each_length_is_put(rt: HostRuntime) {
    let mut runs = Runs::new(rt.alloc());
    for (word, _) in ENCODE {
        runs.puts(fhex(&[word], b""), PUT, once(b"\n"), 0);
    }
    for count in 1..2_049 {
        each_operation(&mut runs, count, &[0xab; 2_048], &[b'0'; 4_096]);
    }
    ends(&rt, runs.seen.ended(10_242));
}

impl Runs {
    // Tries an operation whose result is `want` and whose output is `out` if nothing fails: with writers of different
    // room, and with an allocator that refuses all that decoding asks for.
    fn limits(&mut self, words: &[&str], input: &[u8], want: Ended, out: &[u8], asked: u64) {
        let run = fhex(words, input);
        for room in 0..17 {
            let ended = if room < out.len() { FULL } else { want };
            let taken = once(out.get(..room).unwrap_or(out));
            calls! { self.puts: run.out(Limited(room)), ended, taken, 0; }
        }
        let stuck = if out.is_empty() { want } else { STUCK };
        let none = if asked == 0 { want } else { NO_MEMORY };
        let nothing = if asked == 0 { out } else { b"" };
        calls! { self.puts:
            run.out(Stuck), stuck, once(b""), 0;
            run.granted(0), none, once(nothing), asked;
            run.granted(1), want, once(out), asked;
        }
    }
}

// Only decoding allocates, once, and only for an even number of digits other than 0.
#[test]
fn a_run_puts_what_fits_or_says_what_is_wrong(rt: HostRuntime) {
    let mut runs = Runs::new(rt.alloc());
    let (fours, bytes) = ([b'4'; 2_050], [b'D'; 1_025]);
    calls! { runs.limits:
        &["encode"], b"hello", PUT, b"68656c6c6f\n", 0;
        &["encode"], b"", PUT, b"\n", 0;
        &["encode-upper"], b"hello", PUT, b"68656C6C6F\n", 0;
        &["encode-upper"], b"\x00\xab", PUT, b"00AB\n", 0;
        &["encode-upper"], b"\xab", PUT, b"AB\n", 0;
        &["encode-upper"], b"", PUT, b"\n", 0;
        &["decode"], b"00aBcD\n", PUT, b"\x00\xab\xcd", 1;
        &["decode"], b"000102", PUT, b"\x00\x01\x02", 1;
        &["decode"], b"00", PUT, b"\x00", 1;
        &["decode"], b"00ff", PUT, b"\x00\xff", 1;
        &["decode"], b"00ff\n", PUT, b"\x00\xff", 1;
        &["decode"], &fours, PUT, &bytes, 1;
        &["decode"], b"", PUT, b"", 0;
        &["decode-lower"], b"00ab", PUT, b"\x00\xab", 1;
        &["decode-lower"], b"00ff", PUT, b"\x00\xff", 1;
        &["decode-lower"], b"ff", PUT, b"\xff", 1;
        &["decode-lower"], &fours, PUT, &bytes, 1;
        &["decode-lower"], b"\n", PUT, b"", 0;
        &["decode-upper"], b"00AB\n", PUT, b"\x00\xab", 1;
        &["decode-upper"], b"00FF\n", PUT, b"\x00\xff", 1;
        &["decode-upper"], b"00FF", PUT, b"\x00\xff", 1;
        &["decode-upper"], b"FF00", PUT, b"\xff\x00", 1;
    }
    calls! { runs.limits:
        &["decode"], b"00ff0g", invalid(5, b'g'), b"", 1; &["decode"], b"0g", invalid(1, b'g'), b"", 1;
        &["decode-lower"], b"0aAB", invalid(2, b'A'), b"", 1; &["decode-upper"], b"00abAB", invalid(2, b'a'), b"", 1;
        &["decode-upper"], b"0A0!", invalid(3, b'!'), b"", 1; &["decode-upper"], b"a0", invalid(0, b'a'), b"", 1;
        &["decode-upper"], b"ff", invalid(0, b'f'), b"", 1; &["decode"], b"abc\n", ODD, b"", 0;
        &["decode"], b"ab\n\n", ODD, b"", 0; &["decode"], b"abc", ODD, b"", 0; &["decode-lower"], b"0", ODD, b"", 0;
    }
    ends(&rt, runs.seen.ended(660));
}
