//! How often adapters allocate, and long texts.

use crate::adapter::{Adapter, NO_MEMORY, ROOT, invalid, modules, ok, over_bound, quoted};
use crate::ends;
use crate::modules::read_by;
use crate::reading::multiples;
use crate::tries::{Case, Tries};
use faster_hex::AdapterError::{InvalidLength, InvalidPrefix, NotText};
use faster_hex::adapters::{WireFormat, text_of};
use std::alloc::Global;
use test_kit::model::encoded;
use test_kit::refusing::Refusing;
use test_kit::source::listed;

// Returns the case, whose result is `NO_MEMORY` if fewer allocations are granted than asked for.
fn granted<'a>(mut case: Case<'a>, grants: u64, asked: u64) -> Case<'a> {
    if grants < asked {
        case.want = Err(NO_MEMORY);
    }
    case
}

// Reads a case that must ask for `asked` allocations, 0 or 1. First none is granted, and then one.
fn asks(tries: &mut Tries, asked: u64, case: Case<'_>) {
    for grants in 0..2 {
        tries.seen.tries();
        let case = granted(case, grants, asked);
        let refusing = Refusing::new(tries.alloc, grants);
        if let Some(value) = tries.parsed(case) {
            read_by(tries, case, &refusing, &value);
        }
        tries.notes(case, "is_settled", refusing.is_settled(asked));
    }
}

// Does the same as `asks`, but makes the text of a case, which must have no more capacity than it needs.
fn asks_for_text(tries: &mut Tries, asked: u64, case: Case<'_>) {
    let format = case.by.format;
    for grants in 0..2 {
        tries.seen.tries();
        let case = granted(case, grants, asked);
        let refusing = Refusing::new(tries.alloc, grants);
        match text_of(&refusing, format, case.src) {
            Ok(text) => {
                tries.notes(case, "capacity", text.capacity() == text.len());
                let digits = text.as_str().as_bytes().strip_prefix(format.prefix());
                tries.is(case, "text_of", Ok(digits));
            }
            Err(e) => tries.is::<&[u8]>(case, "text_of", Err(e)),
        }
        tries.notes(case, "is_settled", refusing.is_settled(asked));
    }
}

// Reading allocates after the length is checked and before any digit is, and not if there are no bytes to read.
#[test]
fn a_reading_asks_for_memory_at_most_once(rt: HostRuntime) {
    let mut tries = Tries::new(rt.alloc());
    for by in [ROOT, ROOT.optional()] {
        for (asked, max, text, want) in [
            (1, None, b"0x0g".as_slice(), invalid(1, b'g')),
            (1, None, b"0xab", ok(&[0xab])),
            (1, Some(1), b"0xgg", invalid(0, b'g')),
            (0, None, b"0x", ok(b"")),
            (0, Some(2), b"0x000102", over_bound(2, 3)),
            (0, Some(2), b"0xgggggg", over_bound(2, 3)),
            (0, None, b"0xa", Err(InvalidLength)),
            (0, None, b"0Xab", Err(InvalidPrefix)),
        ] {
            let text = quoted(b"", text);
            asks(&mut tries, asked, Case::new(by, max, &text, want));
        }
        asks(&mut tries, 0, Case::new(by, None, b"null", by.null()));
        asks(&mut tries, 0, Case::new(by, None, b"7", Err(NotText)));
    }
    for src in [[0xab, 1].as_slice(), &[0xab; 301], &[0xab; 4_097]] {
        for max in [None, Some(src.len())] {
            let text = ROOT.written(src);
            asks(&mut tries, 1, Case::new(ROOT, max, &text, ok(src)));
        }
    }
    ends(&rt, tries.seen.ended(52));
}

// Makes the text of bytes, without an allocation if the text is empty.
fn makes_text(tries: &mut Tries, by: Adapter, src: &[u8]) {
    let asked = u64::from(by.format.prefixed || !src.is_empty());
    let mut digits = [0; 138_000];
    let digits = encoded(src, by.format.upper, 138_000, &mut digits);
    let want = ok(digits.unwrap_or_default());
    asks_for_text(tries, asked, Case::new(by, None, src, want));
}

#[test]
fn each_format_asks_for_memory_once_at_each_length(rt: HostRuntime) {
    let mut tries = Tries::new(rt.alloc());
    let bytes: [u8; 2_048] = multiples(37);
    for by in modules() {
        for len in 1..2_049 {
            let src = bytes.get(..len).unwrap_or_default();
            let text = by.written(src);
            for max in [None, Some(len)] {
                asks(&mut tries, 1, Case::new(by, max, &text, ok(src)));
            }
            makes_text(&mut tries, by, src);
            tries.writes_and_reads(by, [0xab; 2_048].get(..len).unwrap_or_default());
        }
        makes_text(&mut tries, by, b"");
        makes_text(&mut tries, by, &[0xab, 1]);
    }
    let lower = Adapter::of(WireFormat::WITHPFX_LOWERCASE);
    makes_text(&mut tries, lower, &listed::<69_000>(0));
    ends(&rt, tries.seen.ended(172_082));
}

fn long(tries: &mut Tries, by: Adapter) {
    if let Ok(bytes) = Vec::from_elem(tries.alloc, 0xab, 34_000_000) {
        tries.writes_and_reads(by, bytes.as_slice());
    }
}

// There are two tests, because one would take too long.
#[test]
fn more_than_64_mib_of_digits_are_read_as_they_were_written(rt: HostRuntime) {
    let mut tries = Tries::new(rt.alloc());
    for by in modules().into_iter().take(6) {
        long(&mut tries, by);
    }
    ends(&rt, tries.seen.ended(6));
}

#[test]
fn more_than_64_mib_of_digits_are_read_by_the_other_modules(rt: HostRuntime) {
    let mut tries = Tries::new(rt.alloc());
    for by in modules().into_iter().skip(6) {
        long(&mut tries, by);
    }
    ends(&rt, tries.seen.ended(6));
}
