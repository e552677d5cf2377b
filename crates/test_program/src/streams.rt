//! Runs of `fhex-stream`. It flushes its output also before it reports an error, but not after a failed write.

use crate::ends;
use crate::run::Room::*;
use crate::run::{End, Run, Runs, fhex_stream, ok, once, says};

const USAGE: &str = "usage: fhex-stream encode|encode-lines|decode";

const FAILED: &str = "fhex-stream: write failed";

impl Runs {
    // Tries a run that fails after the output `out`.
    fn fails(&mut self, run: Run<'_>, status: u8, out: &[u8], message: &str) {
        let (out, end) = (once(out), says(status, message));
        self.tries(run, end.out(out));
    }
}

#[test]
fn what_came_before_a_failure_is_written(rt: HostRuntime) {
    let mut runs = Runs::new(rt.alloc());
    let encode = fhex_stream(&["encode"], b"hello");
    let lines = fhex_stream(&["encode-lines"], b"hello");
    let decode = fhex_stream(&["decode"], b"68656");
    let invalid = says(1, "fhex-stream: invalid hex byte 0x67 at index 3");
    let read = "fhex-stream: read failed";
    calls! { runs.tries:
        encode, ok(b"68656c6c6f\n");
        lines.every(2), ok(b"68656c6c6f\n");
        fhex_stream(&["encode-lines"], b""), ok(b"");
        fhex_stream(&["decode"], b"68 \r\n65\t6c6C\x0c").every(1), ok(b"hell");
        fhex_stream(&["decode"], b"68\ng5").every(2), invalid.out(once(b"h")).left(1);
    }
    calls! { runs.fails:
        decode.every(2), 1, b"he", "fhex-stream: hex input length must be even";
        encode.failure(5), 3, b"68656c6c6f", read;
        lines.failure(5), 3, b"68656c6c6f", read;
        decode.failure(5), 3, b"he", read;
        encode.out(Unflushed), 3, b"68656c6c6f\n", FAILED;
        fhex_stream(&["decode"], b"68g").every(2).out(Unflushed), 3, b"h", FAILED;
        encode.out(Limited(3)), 3, b"686", FAILED;
        lines.out(Limited(3)), 3, b"686", FAILED;
        lines.out(Limited(10)), 3, b"68656c6c6f", FAILED;
        fhex_stream(&["encode"], b"00").out(Stuck), 3, b"", FAILED;
        fhex_stream(&["encode-lines"], b"00").out(Stuck), 3, b"", FAILED;
        fhex_stream(&["decode"], b"00").out(Stuck), 3, b"", FAILED;
        fhex_stream(&["decode"], b"0g").err(Limited(7)), 1, b"", "fhex-st";
    }
    ends(&rt, runs.seen.ended(18));
}

#[test]
fn nothing_is_read_without_an_operation(rt: HostRuntime) {
    let mut runs = Runs::new(rt.alloc());
    let help = fhex_stream(&["--help"], b"00");
    let version = fhex_stream(&["--version"], b"00");
    let failed = says(3, FAILED);
    calls! { runs.tries:
        fhex_stream(&["--help"], b"hello"), ok(b"usage: fhex-stream encode|encode-lines|decode\n").left(5);
        fhex_stream(&["--version"], b"hello"), ok(b"fhex-stream 1.0.0\n").left(5);
        help.out(Stuck), failed.left(2);
        version.out(Stuck), failed.left(2);
        help.out(Limited(5)), failed.out(once(b"usage")).left(2);
        version.out(Limited(5)), failed.out(once(b"fhex-")).left(2);
        version.out(Unflushed), failed.out(once(b"fhex-stream 1.0.0\n")).left(2);
    }
    calls! { runs.names_nothing:
        fhex_stream(&[], b"00"), USAGE; fhex_stream(&[""], b"00"), USAGE; fhex_stream(&["Encode"], b"00"), USAGE;
        fhex_stream(&["encode-upper"], b"00"), USAGE; fhex_stream(&["vectors"], b"00"), USAGE;
        fhex_stream(&["encode-lines "], b"00"), USAGE; fhex_stream(&["--Help"], b"00"), USAGE;
        fhex_stream(&["-h"], b"00"), USAGE; fhex_stream(&["--version "], b"00"), USAGE;
        fhex_stream(&["--"], b"00"), USAGE; fhex_stream(&["encode", "decode"], b"00"), USAGE;
        fhex_stream(&["--help", "encode"], b"00"), USAGE; fhex_stream(&["decode", "--help"], b"00"), USAGE;
        fhex_stream(&["--help", "--version"], b"00"), USAGE;
    }
    ends(&rt, runs.seen.ended(21));
}
