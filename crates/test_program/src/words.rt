//! The words of `fhex`: what each operation writes, and which words name no operation.

use crate::ends;
use crate::run::Room::*;
use crate::run::{DECODE, EVEN, Run, Runs, fhex, ok, says};
use hex_core::Error::{self, InvalidChar, LengthMismatch, OutputTooSmall};
use hex_program::Failure;
use std::alloc::Global;
use test_kit::prints;

const USAGE: &str = "usage: fhex encode|encode-upper|decode|decode-lower|decode-upper|vectors";

// In the last runs the message is not written whole, or not flushed, and the status stays the same.
#[test]
fn an_operation_writes_its_output_or_says_what_is_wrong(rt: HostRuntime) {
    let mut runs = Runs::new(rt.alloc());
    for word in DECODE {
        calls! { runs.tries: fhex(&[word], b""), ok(b""); fhex(&[word], b"\n"), ok(b""); }
    }
    calls! { runs.tries:
        fhex(&["encode"], b""), ok(b"\n"); fhex(&["encode-upper"], b""), ok(b"\n");
        fhex(&["encode"], b"hello"), ok(b"68656c6c6f\n");
        fhex(&["encode"], b"\x00\xab\xff\n"), ok(b"00abff0a\n");
        fhex(&["encode-upper"], b"\x00\xab\xff"), ok(b"00ABFF\n");
        fhex(&["encode-upper"], b"hello"), ok(b"68656C6C6F\n");
        fhex(&["decode"], b"68656c6c6f\n"), ok(b"hello"); fhex(&["decode"], b"68656c6c6f"), ok(b"hello");
        fhex(&["decode"], b"00aBcD"), ok(b"\x00\xab\xcd");
        fhex(&["decode-lower"], b"00abcd\n"), ok(b"\x00\xab\xcd");
        fhex(&["decode-upper"], b"00ABCD\n"), ok(b"\x00\xab\xcd");
        fhex(&["decode"], b"0g"), says(1, "invalid hex byte 0x67 at index 1");
        fhex(&["decode"], b"a\n\n"), says(1, "invalid hex byte 0x0a at index 1");
        fhex(&["decode"], b"ab\r\n"), says(1, EVEN); fhex(&["decode"], b"abc\n"), says(1, EVEN);
        fhex(&["decode"], b"zzz"), says(1, EVEN); fhex(&["decode-lower"], b"abC"), says(1, EVEN);
        fhex(&["decode"], b"\xc3\xa9"), says(1, "invalid hex byte 0xc3 at index 0");
        fhex(&["decode-lower"], b"AB"), says(1, "invalid hex byte 0x41 at index 0");
        fhex(&["decode-upper"], b"ab"), says(1, "invalid hex byte 0x61 at index 0");
        fhex(&["decode-upper"], b"ABc"), says(1, EVEN);
        fhex(&["decode"], b"0g").err(Limited(7)), says(1, "invalid");
        fhex(&["decode-encode"], b"").err(Limited(8)), says(2, "usage: f");
        fhex(&["decode-upper"], b"abc").err(Limited(7)), says(1, "hex inp");
        fhex(&["decode-upper"], b"abc").err(Unflushed), says(1, EVEN);
    }
    ends(&rt, runs.seen.ended(31));
}

#[test]
fn words_that_name_nothing_end_with_the_usage(rt: HostRuntime) {
    let mut runs = Runs::new(rt.alloc());
    calls! { runs.names_nothing:
        fhex(&[], b"hello"), USAGE; fhex(&[""], b"hello"), USAGE; fhex(&["Encode"], b"hello"), USAGE;
        fhex(&["ENCODE"], b"hello"), USAGE; fhex(&["encode-lower"], b"hello"), USAGE;
        fhex(&["encode-upper "], b"hello"), USAGE; fhex(&["vector"], b"hello"), USAGE;
        fhex(&["encode", "decode"], b"hello"), USAGE; fhex(&["encode", ""], b"hello"), USAGE;
        fhex(&["vectors", "encode"], b"hello"), USAGE; fhex(&["vectors", "vectors"], b"hello"), USAGE;
        fhex(&["decode-Upper"], b"00"), USAGE; fhex(&["decode-"], b"00"), USAGE;
        fhex(&["--help"], b"00"), USAGE; fhex(&["--version"], b"00"), USAGE;
    }
    ends(&rt, runs.seen.ended(15));
}

// Returns whether the message of this error is `text`, whatever flags the format string has.
fn is_text(alloc: Global, error: Error, text: &str) -> bool {
    prints(alloc, &Failure::Codec(error), text.as_bytes())
}

#[test]
fn a_failure_with_the_largest_numbers_has_its_text(rt: HostRuntime) {
    let (index, required, expected, actual) = (usize::MAX, usize::MAX, usize::MAX, usize::MAX);
    let text = "invalid hex byte 0xff at index 18446744073709551615";
    assert!(rt; is_text(rt.alloc(), InvalidChar { index, byte: 0xff }, text));
    let text = "output requires at least 18446744073709551615 bytes";
    assert!(rt; is_text(rt.alloc(), OutputTooSmall { required }, text));
    let text = "expected 18446744073709551615 decoded bytes, got 18446744073709551615";
    assert!(rt; is_text(rt.alloc(), LengthMismatch { expected, actual }, text));
}
