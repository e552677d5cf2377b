//! A writer that answers by a script, inside a sink and inside `Unretried`.

use hex_io::{Hex, HexFlags, Sink, SinkFault, WriteFault, WriterSink};
use hex_program::Unretried;
use std::alloc::Global;
use std::io::{self, ErrorKind, Write};
use test_kit::fakes::{Pattern, Taker, Told, WORDS};

// The length of each put, the pieces one after another, what the writer answers, and what it takes.
const LENGTHS: [usize; 19] = [0, 3, 2, 2, 2, 0, 2, 1, 1, 1, 1, 0, 2, 1, 1, 1, 1, 2, 1];

const PUT: &[u8] = b"abcbcbcdedeffffghhijkabb";

const ANSWERS: [Told; 19] = [
    0, 1, 0, 2, -11, 0, 2, -4, -32, 0, 1, -4, 1, 1, -5, -1, -28, 1, -32,
];

const TAKEN: &[u8] = b"abcdefgha";

// Returns whether an error is that of `code`, which is 1 for an error with the message `WORDS`.
fn is_its_error(alloc: Global, error: &io::Error, code: i32) -> bool {
    if code != 1 {
        return error.raw_os_error() == Some(code);
    }
    let is_shown = format!(in alloc; "{error}").is_ok_and(|text| text.as_str() == WORDS);
    is_shown && error.kind() == ErrorKind::TimedOut && error.raw_os_error().is_none()
}

// What a sink must report: the number of failed puts, and the code of the last error. A put fails if the
// writer answers with an error, or takes nothing of a piece that is not empty.
#[derive(Clone, Copy)]
struct State {
    failures: u64,
    kept: Option<i32>,
}

impl State {
    // Returns what the sink must report after a put of `piece`, answered by `told`.
    fn behind(self, piece: &[u8], told: Told) -> State {
        let is_failed = told < 0 || told == 0 && !piece.is_empty();
        State {
            failures: self.failures.saturating_add(u64::from(is_failed)),
            kept: if told < 0 {
                Some(told.wrapping_neg())
            } else {
                self.kept
            },
        }
    }

    // Returns whether a sink reports this state.
    fn is_told(self, alloc: Global, sink: &WriterSink<Taker<'_>>) -> bool {
        let is_kept = match (sink.last_error(), self.kept) {
            (Some(error), Some(code)) => is_its_error(alloc, error, code),
            (error, code) => error.is_none() && code.is_none(),
        };
        is_kept && sink.failures() == self.failures
    }
}

// Returns whether each put passes its whole piece on in one write, returns what the writer answers, and
// flushes nothing.
fn are_put(alloc: Global) -> bool {
    let mut writer = Taker::new(Pattern::once(TAKEN));
    writer.script = &ANSWERS;
    let mut sink = WriterSink::new(writer);
    let mut state = State {
        failures: 0,
        kept: None,
    };
    let mut at: usize = 0;
    for i in 0..ANSWERS.len() {
        let behind = at.saturating_add(LENGTHS[i]);
        let piece = PUT.get(at..behind).unwrap_or_default();
        at = behind;
        state = state.behind(piece, ANSWERS[i]);
        let count = usize::try_from(ANSWERS[i]).map_err(|_| SinkFault);
        if sink.put(piece) != count {
            return false;
        }
        if !state.is_told(alloc, &sink) {
            return false;
        }
    }
    let writer = sink.into_inner();
    writer.is_filled()
        && writer.script.is_empty()
        && writer.given == PUT.len()
        && writer.flushes == 0
        && state.failures == 10
}

#[test]
fn a_put_is_one_write_whatever_the_writer_answered(rt: HostRuntime) {
    assert!(rt; are_put(rt.alloc()));
}

// Returns whether writing a text ends with the error of the second write, after one byte and without a third write.
fn ends_at_the_error(alloc: Global) -> bool {
    let mut writer = Taker::new(Pattern::once(b"a"));
    writer.script = &[1, -32];
    let mut sink = WriterSink::new(writer);
    let answer = Hex::new(&[0xab]).write_to(&mut sink, &HexFlags::default());
    let state = State {
        failures: 1,
        kept: Some(32),
    };
    let is_told = answer == Err(WriteFault::Sink(SinkFault)) && state.is_told(alloc, &sink);
    let writer = sink.into_inner();
    is_told && writer.is_filled() && writer.script.is_empty() && writer.given == 3
}

#[test]
fn a_writer_that_fails_is_not_asked_again(rt: HostRuntime) {
    assert!(rt; ends_at_the_error(rt.alloc()));
}

// Returns whether `Unretried` passes on the error of a write that was not interrupted, and the result of a flush.
fn is_passed_on(alloc: Global, code: i32, flush: Result<(), i32>) -> bool {
    let script = [code.wrapping_neg()];
    let mut inner = Taker::new(Pattern::once(b""));
    inner.script = &script;
    inner.flush = flush;
    let mut out = Unretried { inner };
    let is_told = match out.write(b"ab") {
        Ok(_) => false,
        Err(error) => is_its_error(alloc, &error, code),
    };
    let is_flushed = match out.flush() {
        Ok(()) => flush.is_ok(),
        Err(error) => flush.is_err() && is_its_error(alloc, &error, code),
    };
    let is_once = out.inner.script.is_empty() && out.inner.flushes == 1;
    is_told && is_flushed && is_once && out.inner.given == 2
}

#[test]
fn another_error_and_a_flush_are_passed_on(rt: HostRuntime) {
    for code in [1, 5, 11, 12, 28, 32, 104, 110] {
        assert!(rt; is_passed_on(rt.alloc(), code, Err(code)));
        assert!(rt; is_passed_on(rt.alloc(), code, Ok(())));
    }
}
