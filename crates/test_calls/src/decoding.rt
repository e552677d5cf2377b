//! Families of digits that are decoded.

use crate::ends;
use crate::slices::{POLICIES, Slices};
use hex_core::CheckCase::{self, Lower, None as Either, Upper};
use test_kit::source::{alphabet, digits, first, joined, listed, repeated, with};

const NO_DIGITS: [u8; 10] = [0, b'/', b':', b'@', b'G', b'`', b'g', 0x7f, 0x80, 0xff];

// Decodes digits of each even length up to 600, into exactly the room that their bytes need and into more.
#[test]
fn each_length_is_decoded(rt: HostRuntime) {
    let mut slices = Slices::new();
    for len in 0..=300 {
        for (case, room, unit) in [
            (Either, len, alphabet(Either)),
            (Lower, len, alphabet(Lower)),
            (Upper, len, b"FEDCBA9876543210"),
            (Either, 333, b"00fF1032547698bADcfe"),
        ] {
            slices.decodes(case, room, first(&repeated::<600>(unit), 2 * len));
        }
    }
    ends(&rt, slices.ended(1_204));
}

// Refused sources of each length up to 601: of odd length, with too little room, or with an invalid byte near the end.
#[test]
fn each_length_is_refused(rt: HostRuntime) {
    let mut slices = Slices::new();
    for len in 0..=300 {
        slices.decodes(Either, len, first(&[b'g'; 601], 2 * len + 1));
        slices.decodes(Upper, 0, first(&[b'0'; 601], 2 * len + 1));
    }
    for len in 1..=300 {
        slices.decodes(Either, len - 1, first(&repeated::<600>(b"0g"), 2 * len));
        slices.decodes(Lower, 0, first(&[b'g'; 600], 2 * len));
        for (case, room, byte, back) in [
            (Either, len, b'g', 2),
            (Either, 301, b'g', 1),
            (Lower, 301, b'A', 2),
            (Upper, 301, b'a', 1),
        ] {
            let src = with([b'1'; 600], 2 * len - back, byte);
            slices.decodes(case, room, first(&src, 2 * len));
        }
    }
    ends(&rt, slices.ended(2_402));
}

#[test]
fn a_byte_past_ascii_is_refused_between_digits(rt: HostRuntime) {
    let mut slices = Slices::new();
    for case in POLICIES {
        slices.decodes(case, 32, &with([b'7'; 64], 1, 0xff));
        for place in 1..=62 {
            slices.decodes(case, 40, &with([b'7'; 64], place, 0xf8));
        }
    }
    ends(&rt, slices.ended(189));
}

// Tries each of the bytes `others` at each place of `len` digits, with `spare` more bytes of room than are needed.
fn each_place(
    slices: &mut Slices,
    case: CheckCase,
    len: usize,
    spare: u8,
    digit: u8,
    others: &[u8],
) {
    for place in 0..len {
        for other in others {
            let src = with([digit; 130], place, *other);
            slices.decodes(case, len / 2 + usize::from(spare), first(&src, len));
        }
    }
}

#[test]
fn invalid_characters_at_each_position_never_commit_output(rt: HostRuntime) {
    let mut slices = Slices::new();
    for len in [2, 30, 32, 34, 62, 64, 66, 128, 130] {
        each_place(&mut slices, Either, len, 7, b'a', &NO_DIGITS);
        each_place(&mut slices, Lower, len, 0, b'0', b"A");
        each_place(&mut slices, Upper, len, 0, b'0', b"a");
    }
    ends(&rt, slices.ended(6_576));
}

#[test]
fn diagnostic_block_skipping_keeps_byte_offsets_and_first_error(rt: HostRuntime) {
    let mut slices = Slices::new();
    for (len, last) in [(64, 64), (66, 66), (128, 127), (130, 129), (8_192, 8_191)] {
        for place in [0, 31, 32, 63, 64, 65, last] {
            let src = with(with([b'0'; 8_192], len - 1, 0xff), place, b'!');
            for case in POLICIES {
                if place < len {
                    slices.decodes(case, len / 2 + 3, first(&src, len));
                }
            }
        }
    }
    ends(&rt, slices.ended(93));
}

#[test]
fn independent_decode_lengths_stop_at_guard_pages(rt: HostRuntime) {
    let mut slices = Slices::new();
    for room in 0..130 {
        for len in [
            0, 1, 2, 4, 15, 16, 17, 31, 32, 33, 63, 64, 65, 127, 128, 129,
        ] {
            slices.decodes(Either, room, first(&[b'a'; 129], len));
        }
    }
    ends(&rt, slices.ended(2_080));
}

// Decodes bytes of any value, of each length up to 2,048, into too little and into enough room.
fn any_bytes(slices: &mut Slices, case: CheckCase) {
    let bytes = listed::<2_048>(0);
    for k in 0..1_024 {
        slices.decodes(case, k, first(&bytes, 2 * k + 1));
        slices.decodes(case, k, first(&bytes, 2 * k + 2));
        slices.decodes(case, k + 1, first(&bytes, 2 * k + 2));
    }
    for room in 1_024..1_032 {
        slices.decodes(case, room, &bytes);
    }
    for room in 0..1_032 {
        slices.decodes(case, room, &[]);
    }
}

// Decodes digits that are followed, from each place on, by bytes of any value. The first of these bytes is no digit.
fn digits_before_any_bytes(slices: &mut Slices, case: CheckCase) {
    let (text, bytes, mut src) = (digits::<2_048>(0, case), listed::<2_048>(0), [0; 2_048]);
    for k in 0..2_048 {
        let parts = [first(&text, k), first(&bytes, 2_048 - k)];
        slices.decodes(case, 1_024 + k % 8, joined(&parts, &mut src));
        slices.decodes(case, k % 1_024, joined(&parts, &mut src));
    }
    for k in 0..2_047 {
        let parts = [first(&text, k), first(&bytes, 2_047 - k)];
        slices.decodes(case, k % 1_032, joined(&parts, &mut src));
    }
}

// Decodes digits of each length, and digits of each even length with an invalid byte in the last place.
fn digits_of_each_length(slices: &mut Slices, case: CheckCase) {
    let text = repeated::<2_048>(alphabet(case));
    for k in 0..=1_024 {
        slices.decodes(case, k, first(&text, 2 * k));
        slices.decodes(case, 1_031, first(&text, 2 * k));
    }
    for k in 0..1_024 {
        slices.decodes(case, k, first(&text, 2 * k + 2));
        slices.decodes(case, 1_031, first(&text, 2 * k + 1));
        let src = with(text, 2 * k + 1, 0xff);
        slices.decodes(case, k + 1, first(&src, 2 * k + 2));
        slices.decodes(case, 0, first(&src, 2 * k + 2));
    }
}

#[test]
fn arbitrary_bytes_and_independent_lengths(rt: HostRuntime) {
    let mut slices = Slices::new();
    for case in POLICIES {
        any_bytes(&mut slices, case);
        digits_before_any_bytes(&mut slices, case);
        digits_of_each_length(&mut slices, case);
    }
    for k in 0..=1_024 {
        slices.decodes(
            Lower,
            1_031,
            first(&repeated::<2_048>(alphabet(Either)), 2 * k),
        );
        slices.decodes(
            Upper,
            1_031,
            first(&repeated::<2_048>(b"F0123456789abcdefABCDE"), 2 * k),
        );
    }
    ends(&rt, slices.ended(51_253));
}

// Decodes digits with an invalid byte at `place`: into too little room, without the last digit, and into enough room.
fn damaged(slices: &mut Slices, k: u16, place: usize) {
    let k = usize::from(k);
    let (text, len) = (with(digits::<2_048>(0, Either), place, 0xff), 2 * k + 2);
    for case in POLICIES {
        slices.decodes_at(k, 5 * k, case, k, first(&text, len));
        slices.decodes_at(3 * k, k, case, 33 + k, first(&text, len - 1));
    }
    for case in POLICIES {
        let text = with(digits::<2_048>(0, case), place, 0xff);
        slices.decodes_at(k, 5 * k, case, 33 + k, first(&text, len));
    }
}

#[test]
fn generated_hex_covers_success_and_controlled_failures(rt: HostRuntime) {
    let mut slices = Slices::new();
    for k in 0..=1_024 {
        for case in POLICIES {
            let text = digits::<2_048>(0, case);
            slices.decodes_at(k, 5 * k, case, k, first(&text, 2 * k));
            slices.decodes_at(3 * k, k, case, 32 + k, first(&text, 2 * k));
        }
    }
    for count in 0..1_024 {
        let k = usize::from(count);
        for place in [0, k, 2 * k + 1] {
            damaged(&mut slices, count, place);
        }
        // Digits of either case. The first letter that the policy refuses is at place `letter`, which `middle` skips.
        for (case, letter) in [(Lower, 6), (Upper, 7)] {
            let middle = if k < letter { k } else { k + 1 };
            for place in [0, middle, 2 * k + 1] {
                let src = with(digits::<2_048>(0, Either), place, 0xff);
                slices.decodes_at(k, 5 * k, case, 33 + k, first(&src, 2 * k + 2));
            }
        }
    }
    ends(&rt, slices.ended(39_942));
}

// Digits of a policy, then a byte that is no digit, then digits of either case, also letters that the policy refuses.
#[test]
fn a_byte_that_is_no_digit_at_each_place_is_named(rt: HostRuntime) {
    let mut slices = Slices::new();
    let (other, mut src) = (digits::<300>(0, Either), [0; 601]);
    for (case, start, count) in [(Either, 0x67, 153), (Lower, 0x3a, 39), (Upper, 0x47, 185)] {
        let text = digits::<300>(0, case);
        for turn in 0..45_000 {
            let (before, byte) = (turn / 150, [start + (turn % count) as u8]);
            let zeros = first(b"0", 1 - before % 2);
            let parts = [
                first(&text, before),
                &byte,
                zeros,
                first(&other, 2 * turn % 300),
            ];
            slices.decodes(case, 300, joined(&parts, &mut src));
        }
    }
    ends(&rt, slices.ended(135_000));
}
