//! Runs in which an allocation, a read or a write fails.

use crate::ends;
use crate::run::Room::*;
use crate::run::{EVEN, End, Run, Runs, fhex, many, ok, once, says};
use arrayvec::ArrayString;
use std::fmt::Write as _;
use test_kit::source::repeated;

impl Runs {
    // Tries a run with refused allocations. The first allocation is the buffer for the input. If it is refused, the
    // first bytes make the buffer grow, once: by the rule of std to 8 bytes, or to more if more bytes come at once.
    // Decoding then allocates once for its result.
    fn allocates(&mut self, run: Run<'_>, is_decoded: bool, want: End<'_>) {
        let none = says(3, "out of memory");
        let second = if is_decoded { none } else { want };
        let (least, most) = if is_decoded { (2, 3) } else { (1, 2) };
        calls! { self.tries:
            run.granted(0), none.asked(2);
            run.granted(1), second.asked(least);
            run.granted(2), want.asked(least);
            run.refused(0), want.asked(most);
            run.refused(1), second.asked(least);
        }
    }
}

#[test]
fn each_allocation_may_be_refused(rt: HostRuntime) {
    let mut runs = Runs::new(rt.alloc());
    calls! { runs.allocates:
        fhex(&["encode"], b"hello"), false, ok(b"68656c6c6f\n");
        fhex(&["encode-upper"], b"\xab"), false, ok(b"AB\n");
        fhex(&["decode"], b"68656c6c6f\n"), true, ok(b"hello");
        fhex(&["decode"], b"0g"), true, says(1, "invalid hex byte 0x67 at index 1");
        fhex(&["decode"], b"abc"), false, says(1, EVEN);
        fhex(&["decode-lower"], b"00ab"), true, ok(b"\x00\xab");
        fhex(&["decode-upper"], b"ab"), true, says(1, "invalid hex byte 0x61 at index 0");
    }
    calls! { runs.tries:
        fhex(&["decode"], b"").granted(0), ok(b"").asked(1);
        fhex(&["decode"], b"").refused(0), ok(b"").asked(1);
    }
    ends(&rt, runs.seen.ended(37));
}

// The codes are EINTR, EIO, EAGAIN, ENOMEM, ECONNRESET and ETIMEDOUT.
#[test]
fn a_read_that_fails_ends_the_run(rt: HostRuntime) {
    let mut runs = Runs::new(rt.alloc());
    let want = says(3, "read failed");
    for failure in [4, 5, 11, 12, 104, 110] {
        calls! { runs.tries:
            fhex(&["encode-upper"], b"").failure(failure), want;
            fhex(&["decode"], b"0000").failure(failure), want;
            fhex(&["encode"], &[b'0'; 100_000]).failure(failure), want;
        }
    }
    calls! { runs.tries:
        fhex(&["decode-lower"], b"!!!").failure(4), want;
        fhex(&["decode-upper"], &[b'0'; 65_536]).failure(4), want;
        fhex(&["decode"], b"0000").failure(110).buffered(), want;
        fhex(&["encode"], &[b'0'; 100_000]).failure(5).buffered(), want;
    }
    ends(&rt, runs.seen.ended(22));
}

impl Runs {
    // Tries a run that ends with a failed write after the output `out`.
    fn breaks(&mut self, run: Run<'_>, out: &[u8]) {
        let (out, end) = (once(out), says(3, "write failed"));
        self.tries(run, end.out(out));
    }
}

// A writer that takes nothing fails too. A buffer keeps back up to 65,535 bytes, or passes on a longer piece.
#[test]
fn a_write_that_fails_ends_the_run(rt: HostRuntime) {
    let mut runs = Runs::new(rt.alloc());
    let (mut buffered, mut long) = (fhex(&["encode"], b"00"), fhex(&["decode"], b""));
    (buffered.is_buffered, long.is_buffered) = (true, true);
    long.input = many(400_000, b"0", b"");
    calls! { runs.breaks:
        fhex(&["encode"], b"00").out(Stuck), b""; fhex(&["encode-upper"], b"00").out(Stuck), b"";
        fhex(&["decode"], b"00").out(Stuck), b""; fhex(&["decode-lower"], b"00").out(Stuck), b"";
        fhex(&["decode-upper"], b"00").out(Stuck), b"";
        fhex(&["decode"], b"00000000").out(Limited(3)), b"\0\0\0";
        fhex(&["decode-lower"], b"00").out(Limited(0)), b"";
        fhex(&["encode"], b"00").out(Limited(4)), b"3030";
        fhex(&["encode-upper"], &[b'0'; 600]).out(Limited(1_030)), &repeated::<1_030>(b"30");
        fhex(&["encode"], b"00").out(Unflushed), b"3030\n";
        fhex(&["decode-upper"], b"").out(Unflushed), b"";
        buffered.out(Limited(3)), b"303";
        buffered.out(Limited(0)), b"";
        buffered.out(Stuck), b"";
        buffered.out(Unflushed), b"3030\n";
        long.out(Limited(3)), b"\0\0\0";
        long.out(Stuck), b"";
    }
    let invalid = says(1, "invalid hex byte 0x67 at index 0");
    calls! { runs.tries:
        buffered, ok(b"3030\n");
        long, ok(b"").out(many(200_000, b"\0", b""));
        fhex(&["decode"], b"gg").out(Unflushed), invalid;
        fhex(&["decode"], b"gg").buffered().out(Unflushed), invalid;
    }
    ends(&rt, runs.seen.ended(21));
}

// What `fhex vectors` prints: each vector passes, under each plan if it takes one.
fn lines() -> ArrayString<1_300> {
    let mut lines = ArrayString::new();
    for plan in ["scalar", "sse41", "avx2", "avx512", "neon"] {
        for number in 1..17 {
            let _ = writeln!(lines, "{plan} v{number:02} pass").is_ok();
        }
    }
    let plain = "plain v17 pass\nplain v18 pass\nplain v19 pass\nplain v20 pass\n";
    let _ = write!(lines, "{plain}total 84 passed 84 failed 0\n").is_ok();
    lines
}

// No input is read. Each allocation for the lines, and for the list that is read, is refused in turn.
#[test]
fn the_stored_vectors_pass(rt: HostRuntime) {
    let mut runs = Runs::new(rt.alloc());
    let (text, run) = (lines(), fhex(&["vectors"], b""));
    let (lines, hello) = (text.as_bytes(), fhex(&["vectors"], b"hello"));
    let (write, memory) = (says(3, "write failed"), says(3, "out of memory"));
    assert_eq!(rt; lines.len(), 1_288);
    calls! { runs.tries:
        hello, ok(lines).left(5);
        run.failure(4), ok(lines);
        run.buffered().failure(4), ok(lines);
        fhex(&["vectors"], b"00").out(Stuck), write.left(2);
        run.granted(10).out(Stuck), write.asked(10);
    }
    calls! { runs.breaks:
        run.out(Limited(1_287)), lines.get(..1_287).unwrap_or_default();
        run.out(Unflushed), lines;
        run.out(Limited(0)), b"";
        run.out(Limited(20)), b"scalar v01 pass\nscal";
        run.buffered().out(Limited(20)), b"scalar v01 pass\nscal";
    }
    for count in 0..10 {
        calls! { runs.tries:
            hello.granted(count), memory.left(5).asked(count + 1);
            hello.refused(count), memory.left(5).asked(count + 1);
        }
    }
    ends(&rt, runs.seen.ended(30));
}
