//! Inputs of each length up to 2,048 bytes, long inputs, and inputs in short reads.

use crate::ends;
use crate::run::{DECODE, ENCODE, EVEN, End, Run, Runs, fhex, fhex_stream, many, ok, says};
use arrayvec::ArrayString;
use std::fmt::Write as _;

// Encodes `count` bytes, in reads of at most `every` bytes.
fn encodes(runs: &mut Runs, count: usize, every: usize) {
    for (word, unit) in ENCODE {
        let input = many(count, b"\xab", b"");
        let out = many(count.saturating_mul(2), unit, b"\n");
        calls! { runs.tries: fhex(&[word], b"").input(input).every(every), ok(b"").out(out); }
    }
}

// Decodes `count` digits and the bytes `end` behind them.
fn decodes(runs: &mut Runs, count: usize, end: &[u8], every: usize) {
    let (input, out) = (many(count, b"0", end), many(count / 2, b"\0", b""));
    let done = ok(b"").out(out);
    let want = if count % 2 == 0 { done } else { says(1, EVEN) };
    for word in DECODE {
        calls! { runs.tries: fhex(&[word], b"").input(input).every(every), want; }
    }
}

#[test]
fn each_length_is_served(rt: HostRuntime) {
    let mut runs = Runs::new(rt.alloc());
    encodes(&mut runs, 0, usize::MAX);
    for count in 1..2_049 {
        encodes(&mut runs, count, usize::MAX);
        encodes(&mut runs, count, 1);
        decodes(&mut runs, 2 * count, b"", usize::MAX);
        decodes(&mut runs, 2 * count, b"", 2);
        decodes(&mut runs, 2 * count, b"\n", 2);
        if count % 2 == 1 {
            decodes(&mut runs, count, b"", usize::MAX);
            decodes(&mut runs, count, b"\n", usize::MAX);
        }
    }
    ends(&rt, runs.seen.ended(32_770));
}

// Tries each operation of `fhex-stream` with `count` bytes or pairs of digits.
fn streams(runs: &mut Runs, count: usize, every: usize, every_digit: usize) {
    let digits = count.saturating_mul(2);
    let newlines = count.saturating_sub(1) / 30;
    let line = b"abababababababababababababababababababababababababababababab\n";
    let lines = many(digits.saturating_add(newlines), line, b"\n");
    let (one_line, bytes) = (many(digits, b"ab", b"\n"), many(count, b"\0", b""));
    let (input, text) = (many(count, b"\xab", b""), many(digits, b"0", b""));
    calls! { runs.tries:
        fhex_stream(&["encode"], b"").input(input).every(every), ok(b"").out(one_line);
        fhex_stream(&["encode-lines"], b"").input(input).every(every), ok(b"").out(lines);
        fhex_stream(&["decode"], b"").input(text).every(every_digit), ok(b"").out(bytes);
    }
}

#[test]
fn each_length_is_streamed(rt: HostRuntime) {
    let mut runs = Runs::new(rt.alloc());
    for count in 1..2_049 {
        streams(&mut runs, count, 100_000, 100_000);
        streams(&mut runs, count, 1, 2);
    }
    ends(&rt, runs.seen.ended(12_288));
}

// The longest input has 16,777,216 bytes, a final newline included. An endless one is not read to its end.
#[test]
fn long_inputs_are_served_up_to_the_longest(rt: HostRuntime) {
    let mut runs = Runs::new(rt.alloc());
    let (encode, decode) = (fhex(&["encode"], b""), fhex(&["decode"], b""));
    let (lower, long) = (fhex(&["decode-lower"], b""), says(3, "input too long"));
    let (odd, out) = (says(1, EVEN), many(33_554_430, b"ff", b"0a\n"));
    calls! { runs.tries:
        decode.input(many(140_000, b"0", b"")), ok(b"").out(many(70_000, b"\0", b""));
        decode.input(many(139_999, b"0", b"")), odd;
        decode.input(many(2_000_000, b"0", b"g0")), says(1, "invalid hex byte 0x67 at index 2000000");
        decode.input(many(16_777_216, b"0", b"")), ok(b"").out(many(8_388_608, b"\0", b""));
        lower.input(many(16_777_214, b"0", b"\n")), ok(b"").out(many(8_388_607, b"\0", b""));
        encode.input(many(16_777_215, b"\xff", b"\n")), ok(b"").out(out);
        decode.input(many(16_777_215, b"0", b"")), odd;
        decode.input(many(16_777_215, b"0", b"\n")), odd;
        decode.input(many(16_777_217, b"0", b"")), long;
        decode.input(many(16_777_216, b"0", b"\n")), long;
        encode.input(many(16_777_217, b"\0", b"")), long;
        fhex(&["encode-upper"], b"").input(many(16_777_217, b"\xff", b"")), long;
        lower.input(many(16_777_217, b"g", b"")), long;
        fhex(&["decode-upper"], b"").input(many(16_777_217, b"\n", b"")), long;
        decode.input(many(usize::MAX, b"0", b"")), long;
    }
    ends(&rt, runs.seen.ended(15));
}

impl Runs {
    // Tries each operation that decodes, in reads of at most 1 to 8 bytes.
    fn pieces(&mut self, input: &[u8], wants: [End<'_>; 3]) {
        for (word, want) in DECODE.into_iter().zip(wants) {
            for every in 1..=8 {
                calls! { self.tries: fhex(&[word], input).every(every), want; }
            }
        }
    }
}

#[test]
fn an_input_may_come_in_short_reads(rt: HostRuntime) {
    let mut runs = Runs::new(rt.alloc());
    let (odd, done) = ([says(1, EVEN); 3], ok(b"\x00\xff"));
    let newline = says(1, "invalid hex byte 0x0a at index 1");
    let last = says(1, "invalid hex byte 0x67 at index 31");
    let letter = says(1, "invalid hex byte 0x61 at index 10");
    let upper = says(1, "invalid hex byte 0x42 at index 3");
    let lower = says(1, "invalid hex byte 0x61 at index 2");
    calls! { runs.pieces:
        b"", [ok(b""); 3]; b"\n", [ok(b""); 3];
        b"\n\n", odd; b"00ff\n\n", odd; b"00f", odd; b"00f\n", odd; b"f\n", odd; b"g", odd; b"g\n", odd;
        b"00000g0\n0", odd; b"00\r\n", odd;
        b"00ff", [done, done, says(1, "invalid hex byte 0x66 at index 2")];
        b"00FF\n", [done, says(1, "invalid hex byte 0x46 at index 2"), done];
        b"0\nff", [newline; 3];
        b"f\n\n", [newline, newline, says(1, "invalid hex byte 0x66 at index 0")];
        b"00g0", [says(1, "invalid hex byte 0x67 at index 2"); 3];
        b"0g0h", [says(1, "invalid hex byte 0x67 at index 1"); 3];
        b"0000000g", [says(1, "invalid hex byte 0x67 at index 7"); 3];
        b"g0\n", [says(1, "invalid hex byte 0x67 at index 0"); 3];
        b"00aBcD\n", [ok(b"\x00\xab\xcd"), upper, lower];
        b"00 0", [says(1, "invalid hex byte 0x20 at index 2"); 3];
        b"0123456789abcdef0123456789abcdeg\n", [last, last, letter];
    }
    ends(&rt, runs.seen.ended(528));
}

// Decodes zeros, the byte `other` at a place, and `behind` zeros behind it.
fn near_the_end_of_a_read(runs: &mut Runs, place: usize, other: u8, behind: usize) {
    let (mut text, bytes) = ([b'0'; 131_080], [0; 65_540]);
    if let Some(byte) = text.get_mut(place) {
        *byte = other;
    }
    let end = place.saturating_add(behind).saturating_add(1);
    let input = text.get(..end).unwrap_or_default();
    let digits = input.strip_suffix(b"\n").unwrap_or(input).len();
    let mut message = ArrayString::<64>::new();
    let _ = write!(message, "invalid hex byte 0x{other:02x} at index {place}").is_ok();
    let want = if digits % 2 == 1 {
        says(1, EVEN)
    } else if other != b'0' && place < digits {
        says(1, message.as_str())
    } else {
        ok(bytes.get(..digits / 2).unwrap_or_default())
    };
    for every in [65_535, 65_536] {
        calls! { runs.tries: fhex(&["decode"], input).every(every), want; }
    }
}

// One read asks for at most 65,536 bytes.
#[test]
fn each_byte_near_the_end_of_a_read_is_read(rt: HostRuntime) {
    let mut runs = Runs::new(rt.alloc());
    for place in 65_530..65_542 {
        for behind in [0, 1, 2, 3, 65_536] {
            for other in *b"0g\n" {
                near_the_end_of_a_read(&mut runs, place, other, behind);
            }
        }
    }
    ends(&rt, runs.seen.ended(360));
}
