//! Families of sources that are checked, searched, and decoded whole, also into a buffer that is discarded if decoding
//! fails.

use crate::ends;
use crate::slices::{POLICIES, Slices};
use hex_codec::hex_check_with_case;
use hex_core::CheckCase::{self, Lower, None as Either, Upper};
use test_kit::model::{decoded, value};
use test_kit::seen::Given;
use test_kit::source::{alphabet, digits, first, joined, listed, repeated, with};

const FORCED: [usize; 24] = [
    2, 4, 6, 8, 10, 12, 14, 15, 16, 17, 31, 32, 33, 63, 64, 65, 66, 127, 128, 129, 130, 190, 192,
    194,
];

// Tries each byte value at each place of a source.
fn each_byte(slices: &mut Slices, case: CheckCase, src: &[u8]) {
    for place in 0..src.len() {
        let mut changed = [0; 258];
        for byte in 0..=255 {
            let changed = joined(
                &[
                    first(src, place),
                    &[byte],
                    src.get(place + 1..).unwrap_or_default(),
                ],
                &mut changed,
            );
            slices.reads(case, changed);
        }
    }
}

// Neighbouring words of four digits differ, so that a bit that leaks from one word into the next is noticed.
#[test]
fn forced_backends_check_every_byte_in_every_lane_before_writing(rt: HostRuntime) {
    let mut slices = Slices::new();
    let src = repeated::<194>(b"00001111222233334444555566667777");
    for case in POLICIES {
        for len in FORCED {
            each_byte(&mut slices, case, first(&src, len));
        }
    }
    ends(&rt, slices.ended(1_188_864));
}

// The maps that hash a lane also see three bits of its neighbour, so each digit is at each offset in a word of four.
#[test]
fn each_byte_among_all_digits(rt: HostRuntime) {
    let mut slices = Slices::new();
    for (case, unit) in [
        (Either, b"0123456789abcdefABCDEF8".as_slice()),
        (Lower, b"0123456789abcdef8"),
        (Upper, b"0123456789ABCDEF8"),
    ] {
        each_byte(&mut slices, case, &repeated::<258>(unit));
    }
    ends(&rt, slices.ended(198_144));
}

#[test]
fn a_byte_that_is_no_digit_before_any_byte(rt: HostRuntime) {
    let mut slices = Slices::new();
    for case in POLICIES {
        for byte in 0..=255 {
            for next in 0..=255 {
                if value(byte, case).is_none() {
                    let place = usize::from(next / 8);
                    slices.reads(case, &with(with([b'7'; 64], place, byte), place + 1, next));
                }
            }
        }
    }
    ends(&rt, slices.ended(182_784));
}

// The byte has up to 299 digits on either side, so that it also falls into overlapping blocks and the tail of a loop.
#[test]
fn a_byte_that_is_no_digit_at_each_place_of_each_length(rt: HostRuntime) {
    let mut slices = Slices::new();
    let mut src = [0; 600];
    for (case, start, count) in [(Either, 0x67, 153), (Lower, 0x3a, 39), (Upper, 0x47, 185)] {
        let text = digits::<300>(0, case);
        for turn in 0..90_000 {
            let byte = [start + (turn % count) as u8];
            let parts = [first(&text, turn / 300), &byte, first(&text, turn % 300)];
            slices.reads(case, joined(&parts, &mut src));
        }
    }
    ends(&rt, slices.ended(270_000));
}

// If decoding fails, `decode_owned` leaves the bytes of whole blocks in its buffer.
#[test]
fn a_refusal_leaves_whole_blocks(rt: HostRuntime) {
    let mut slices = Slices::new();
    let mut src = [0; 300];
    for (before, behind) in [
        (0, 63),
        (0, 199),
        (63, 64),
        (64, 63),
        (127, 0),
        (129, 0),
        (199, 0),
    ] {
        let digits = [b'1'; 200];
        slices.reads(
            Either,
            joined(
                &[first(&digits, before), b"g", first(&digits, behind)],
                &mut src,
            ),
        );
    }
    for case in POLICIES {
        slices.reads(case, &with([b'7'; 64], 1, 0xff));
    }
    ends(&rt, slices.ended(10));
}

#[test]
fn digits_alone_are_decoded_alike(rt: HostRuntime) {
    let mut slices = Slices::new();
    let text = repeated::<2_050>(b"004992dB246Db6fF102f8e17C3a45D");
    for len in 0..=300 {
        slices.reads(Either, first(&text, 2 * len));
    }
    slices.reads(Either, first(&text, 2_048));
    slices.reads(Either, &text);
    ends(&rt, slices.ended(303));
}

// Tries a source that repeats one pair of bytes, with room for 34 bytes.
fn pair_is_decoded(slices: &mut Slices, case: CheckCase, src: &[u8]) {
    slices.seen.tries();
    let mut bytes = [0; 33];
    let (given, want) = (
        Given::new(case, 34, src),
        decoded(src, case, 34, &mut bytes),
    );
    slices.are_decoded_without_plan(given, want);
    slices.seen.is(
        given,
        "hex_check_with_case",
        hex_check_with_case(src, case),
        want.is_ok(),
    );
}

#[test]
fn every_character_pair_in_scalar_and_vector_sized_inputs(rt: HostRuntime) {
    let mut slices = Slices::new();
    for case in POLICIES {
        for high in 0..=255 {
            for low in 0..=255 {
                for len in [2, 64, 66] {
                    pair_is_decoded(&mut slices, case, first(&repeated::<66>(&[high, low]), len));
                }
            }
        }
    }
    ends(&rt, slices.ended(589_824));
}

// Digits of each length up to 300, and an invalid byte with up to 18 digits behind it.
#[test]
fn each_length_is_checked(rt: HostRuntime) {
    let mut slices = Slices::new();
    let mut src = [0; 320];
    for (case, byte) in [(Either, 0xb0), (Lower, b'A'), (Upper, b'a')] {
        let text = repeated::<300>(alphabet(case));
        for len in 0..=300 {
            slices.checks(case, first(&text, len));
        }
        for start in 0..281 {
            for more in 0..19 {
                let parts = [
                    first(&text, start + more),
                    &[byte],
                    first(&[b'7'; 18], more),
                ];
                slices.checks(case, joined(&parts, &mut src));
            }
        }
    }
    ends(&rt, slices.ended(16_920));
}

#[test]
fn arbitrary_character_checks_agree(rt: HostRuntime) {
    let mut slices = Slices::new();
    let (bytes, mut src) = (listed::<4_096>(0), [0; 4_096]);
    for case in POLICIES {
        let text = digits::<4_096>(0, case);
        slices.checks(case, &[]);
        slices.checks(case, &text);
        for len in 0..4_096 {
            slices.checks(case, first(&bytes, len + 1));
            slices.checks(case, first(&text, len));
            slices.checks(case, joined(&[first(&text, len), b"\0"], &mut src));
            slices.checks(
                case,
                joined(&[first(&text, len), first(&bytes, 4_096 - len)], &mut src),
            );
        }
    }
    ends(&rt, slices.ended(49_158));
}
