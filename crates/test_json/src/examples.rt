//! The examples in the documentation of `faster-hex`, where a record is an object, and more like them.

use crate::adapter::{
    Adapter, Answer, NO_MEMORY, ROOT, invalid, mismatch, modules, ok, over_bound,
};
use crate::ends;
use crate::tries::{Case, Tries};
use faster_hex::AdapterError::{Codec, InvalidLength, InvalidPrefix, NotText};
use faster_hex::Error::OutputTooSmall;
use faster_hex::adapters::WireFormat;

#[test]
fn examples_of_serde_rs(rt: HostRuntime) {
    let mut tries = Tries::new(rt.alloc());
    let field = ROOT.field("bytes");
    tries.writes(ROOT, Some(&[0xab, 1]), br#""0xab01""#);
    tries.reads(field, br#"{"bytes":"0x00aB"}"#, ok(&[0, 0xab]));
    tries.reads_within::<2>(field, br#"{"bytes":"0xab01"}"#, ok(&[0xab, 1]));
    tries.reads_within::<2>(field, br#"{"bytes":"0x000102"}"#, over_bound(2, 3));
    for by in modules() {
        let [text, bytes, id] = if by.format.prefixed {
            [
                br#""0x1234""#.as_slice(),
                br#"{"bytes":"0x1234"}"#,
                br#"{"id":"0x1234"}"#,
            ]
        } else {
            [
                br#""1234""#.as_slice(),
                br#"{"bytes":"1234"}"#,
                br#"{"id":"1234"}"#,
            ]
        };
        tries.writes(by, Some(&[0x12, 0x34]), text);
        tries.reads(by.field("bytes"), bytes, ok(&[0x12, 0x34]));
        tries.reads_array::<2>(by.field("id"), id, ok(&[0x12, 0x34]));
    }
    ends(&rt, tries.seen.ended(40));
}

#[test]
fn examples_of_lib_rs(rt: HostRuntime) {
    let mut tries = Tries::new(rt.alloc());
    let option = Adapter::of(WireFormat::NOPFX_LOWERCASE).optional();
    let record = br#"{"id":"0xab01","extra":"cd02"}"#;
    tries.reads_array::<2>(ROOT.field("id"), record, ok(&[0xab, 1]));
    tries.reads_array::<2>(option.field("extra"), record, ok(&[0xcd, 2]));
    tries.writes(ROOT, Some(&[0xab, 1]), br#""0xab01""#);
    tries.writes(option, Some(&[0xcd, 2]), br#""cd02""#);
    ends(&rt, tries.seen.ended(4));
}

#[test]
fn other_fields_and_texts(rt: HostRuntime) {
    let mut tries = Tries::new(rt.alloc());
    let option = Adapter::of(WireFormat::NOPFX_LOWERCASE).optional();
    let extra = option.field("extra");
    let none = br#"{"id":"0xab01","extra":null}"#;
    tries.reads_array::<2>(extra, none, Ok(None));
    let upper = br#"{"id":"0xab01","extra":"CD02"}"#;
    tries.reads_array::<2>(extra, upper, invalid(0, b'C'));
    let number = br#"{"id":7,"extra":"cd02"}"#;
    tries.reads_array::<2>(ROOT.field("id"), number, Err(NotText));
    let odd = br#"{"id":"0xab01","extra":"0xcd,02"}"#;
    tries.reads(ROOT.field("extra"), odd, Err(InvalidLength));
    tries.reads_within::<2>(ROOT, br#""0xab""#, ok(&[0xab]));
    tries.reads_array::<4>(ROOT, br#""0xab01""#, mismatch(4, 2));
    tries.reads(ROOT, br#""0x00aB""#, ok(&[0, 0xab]));
    let lower = Adapter::of(WireFormat::WITHPFX_LOWERCASE);
    tries.reads(lower, br#""0xAB""#, invalid(0, b'A'));
    tries.reads_array::<2>(option, br#""cd02""#, ok(&[0xcd, 2]));
    ends(&rt, tries.seen.ended(9));
}

// Compares what the error of an answer prints, whatever flags the format string has.
fn prints(tries: &mut Tries, answer: Answer<'_>, text: &str) {
    let (alloc, text) = (tries.alloc, text.as_bytes());
    let is_printed = answer.is_err_and(|error| test_kit::prints(alloc, &error, text));
    tries.seen.tries();
    tries.notes(Case::new(ROOT, None, text, answer), "print", is_printed);
}

#[test]
fn errors_print(rt: HostRuntime) {
    let mut seen = Tries::new(rt.alloc());
    let tries = &mut seen;
    prints(tries, Err(NotText), "expected a string");
    prints(tries, Err(InvalidPrefix), "invalid prefix");
    prints(tries, Err(InvalidLength), "invalid length");
    prints(tries, Err(NO_MEMORY), "out of memory");
    prints(
        tries,
        over_bound(2, 3),
        "expected at most 2 decoded bytes, got 3",
    );
    prints(
        tries,
        over_bound(1, 2),
        "expected at most 1 decoded bytes, got 2",
    );
    let text = "expected at most 1000000 decoded bytes, got 18446744073709551615";
    prints(tries, over_bound(1_000_000, usize::MAX), text);
    let text = "expected at most 18446744073709551615 decoded bytes, got 18446744073709551615";
    prints(tries, over_bound(usize::MAX, usize::MAX), text);
    let text = "expected 18446744073709551615 decoded bytes, got 18446744073709551615";
    prints(tries, mismatch(usize::MAX, usize::MAX), text);
    prints(tries, mismatch(1, 2), "expected 1 decoded bytes, got 2");
    let required = usize::MAX;
    let text = "output requires at least 18446744073709551615 bytes";
    prints(tries, Err(Codec(OutputTooSmall { required })), text);
    let text = "invalid hex byte 0xff at index 18446744073709551615";
    prints(tries, invalid(usize::MAX, 0xff), text);
    prints(tries, invalid(0, b'g'), "invalid hex byte 0x67 at index 0");
    prints(tries, invalid(0, 0xc3), "invalid hex byte 0xc3 at index 0");
    ends(&rt, seen.seen.ended(14));
}
