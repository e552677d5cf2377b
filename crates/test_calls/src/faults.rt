//! What errors print, whatever width, precision and other flags the format string has.

use crate::ends;
use hex_codec::grouped::GroupFault;
use hex_core::{CheckCase, Error};
use hex_io::digests::{LineFault, ListFault, ListWriteFault};
use hex_io::stream::StreamFault;
use hex_io::{SinkFault, WriteFault};
use std::alloc::Global;
use std::fmt::Display;
use test_kit::prints;
use test_kit::seen::{Given, Seen};

const MOST: usize = usize::MAX;

// Compares what each error prints with its text, and ends the test.
macro_rules! prints {
    ($rt:ident $tried:literal: $($fault:expr => $text:literal)*) => {
        let mut seen = Seen::new();
        $(shows(&mut seen, $rt.alloc(), &$fault, $text);)*
        ends(&$rt, seen.ended($tried));
    };
}

fn shows<T: Display>(seen: &mut Seen, alloc: Global, fault: &T, text: &'static str) {
    seen.tries();
    let is_shown = prints(alloc, fault, text.as_bytes());
    seen.is(
        Given::new(CheckCase::None, 0, text.as_bytes()),
        text,
        is_shown,
        true,
    );
}

#[test]
fn errors_of_the_codec(rt: HostRuntime) {
    let invalid = |index, byte| Error::InvalidChar { index, byte };
    let small = |required| Error::OutputTooSmall { required };
    let mismatch = |expected, actual| Error::LengthMismatch { expected, actual };
    prints!(rt 14:
        invalid(5, b'g') => "invalid hex byte 0x67 at index 5"
        invalid(0, b'\n') => "invalid hex byte 0x0a at index 0"
        invalid(100, 0xff) => "invalid hex byte 0xff at index 100"
        invalid(MOST, 0xff) => "invalid hex byte 0xff at index 18446744073709551615"
        small(4) => "output requires at least 4 bytes"
        small(1) => "output requires at least 1 bytes"
        small(MOST) => "output requires at least 18446744073709551615 bytes"
        mismatch(32, 1) => "expected 32 decoded bytes, got 1"
        mismatch(MOST, MOST) => "expected 18446744073709551615 decoded bytes, got 18446744073709551615"
        mismatch(0, MOST) => "expected 0 decoded bytes, got 18446744073709551615"
        mismatch(MOST, 0) => "expected 18446744073709551615 decoded bytes, got 0"
        Error::OddLength => "hex input length must be even"
        Error::Overflow => "encoded length overflow"
        Error::OutOfMemory => "out of memory"
    );
}

#[test]
fn faults_of_groups_sinks_and_streams(rt: HostRuntime) {
    let small = |required| GroupFault::OutputTooSmall { required };
    let invalid = |index, byte| GroupFault::InvalidByte { index, byte };
    let coded = |index, byte| StreamFault::Codec(Error::InvalidChar { index, byte });
    prints!(rt 11:
        GroupFault::BadLength => "invalid length of grouped hex"
        small(4) => "output requires at least 4 bytes"
        small(MOST) => "output requires at least 18446744073709551615 bytes"
        invalid(4, b'-') => "invalid byte 0x2d at index 4"
        invalid(MOST, 0xff) => "invalid byte 0xff at index 18446744073709551615"
        SinkFault => "sink refused"
        WriteFault::TookNothing => "sink took nothing"
        StreamFault::Read => "read failed"
        StreamFault::Write(WriteFault::Sink(SinkFault)) => "sink refused"
        StreamFault::Codec(Error::OddLength) => "hex input length must be even"
        coded(MOST, 0xff) => "invalid hex byte 0xff at index 18446744073709551615"
    );
}

#[test]
fn faults_of_lists(rt: HostRuntime) {
    let invalid = |index, byte| LineFault::InvalidByte { index, byte };
    let line = |line, why| ListFault::Line { line, why };
    let name = |entry| ListWriteFault::BadName { entry };
    prints!(rt 13:
        LineFault::ShortLine => "line too short"
        LineFault::BadMark => "invalid mark"
        invalid(2, b'g') => "invalid hex byte 0x67 at index 2"
        invalid(MOST, 0xff) => "invalid hex byte 0xff at index 18446744073709551615"
        line(2, LineFault::ShortLine) => "line 2: line too short"
        line(1, LineFault::BadMark) => "line 1: invalid mark"
        line(1, invalid(2, b'g')) => "line 1: invalid hex byte 0x67 at index 2"
        line(MOST, LineFault::ShortLine) => "line 18446744073709551615: line too short"
        line(MOST, invalid(MOST, 0xff)) =>
            "line 18446744073709551615: invalid hex byte 0xff at index 18446744073709551615"
        ListFault::OutOfMemory => "out of memory"
        name(1) => "invalid name in entry 1"
        name(MOST) => "invalid name in entry 18446744073709551615"
        ListWriteFault::Write(WriteFault::Sink(SinkFault)) => "sink refused"
    );
}
