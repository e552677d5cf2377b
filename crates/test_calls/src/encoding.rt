//! Families of bytes that are encoded, and of round trips.

use crate::ends;
use crate::slices::Slices;
use hex_core::CheckCase::{Lower, Upper};
use test_kit::source::{digits, first, listed, repeated, with};

#[test]
fn each_length_is_encoded(rt: HostRuntime) {
    let mut slices = Slices::new();
    let bytes = repeated::<300>(b"\x01\x23\x45\x67\x89\xab\xcd\xef");
    for len in 0..=300 {
        slices.encodes(Lower, 2 * len, first(&bytes, len));
        slices.encodes(Upper, 2 * len, first(&bytes, len));
        let other = repeated::<300>(b"\x00\xff\x10\x32\x54\x76\x98\xba\xdc\xfe");
        slices.encodes(Lower, 700, first(&other, len));
    }
    for len in 1..=300 {
        slices.encodes(Lower, 2 * len - 1, first(&bytes, len));
        slices.encodes(Upper, 0, first(&bytes, len));
    }
    ends(&rt, slices.ended(1_503));
}

#[test]
fn some_bytes_go_round(rt: HostRuntime) {
    let mut slices = Slices::new();
    slices.goes_round(Lower, b"\x00\xab\xff", b"00abff", 3, 0);
    slices.goes_round(Upper, &[0xab; 33], &repeated::<66>(b"AB"), 0, 63);
    slices.goes_round(Lower, &[0xab; 65], &repeated::<130>(b"ab"), 63, 1);
    slices.goes_round(Lower, b"\x00\xab\xff", b"00abff", 0, 0);
    slices.goes_round(Upper, b"\x00\xab\xff", b"00ABFF", 0, 0);
    let text = repeated::<514>(b"004992db246db6");
    slices.goes_round(Lower, &listed::<8>(0), first(&text, 16), 0, 0);
    slices.goes_round(Lower, &listed::<257>(0), &text, 0, 0);
    ends(&rt, slices.ended(7));
}

#[test]
fn vector_boundaries_and_independent_buffer_offsets(rt: HostRuntime) {
    let mut slices = Slices::new();
    for from in 0..32 {
        for len in 0..258 {
            let mut bytes = [0; 257];
            for i in 0..257 {
                bytes[i] = ((37 * (from + i) + len) % 256) as u8;
            }
            for case in [Lower, Upper] {
                slices.goes_round_at(case, first(&bytes, len), from, 7 * from % 32);
            }
        }
    }
    ends(&rt, slices.ended(16_512));
}

#[test]
fn forced_backends_preserve_order_at_independent_alignments(rt: HostRuntime) {
    let mut slices = Slices::new();
    for from in 0..64 {
        let bytes = listed::<129>(from);
        for shift in 0..64 {
            for len in [
                0, 1, 7, 8, 15, 16, 17, 31, 32, 33, 63, 64, 65, 95, 96, 97, 127, 128, 129,
            ] {
                slices.goes_round_at(Lower, first(&bytes, len), from, shift);
                slices.goes_round_at(Upper, first(&bytes, len), from, shift);
            }
        }
    }
    ends(&rt, slices.ended(155_648));
}

#[test]
fn conversions_and_checks_stop_at_guard_pages(rt: HostRuntime) {
    let mut slices = Slices::new();
    let (bytes, zeros) = (listed::<257>(0), [b'0'; 514]);
    for case in [Lower, Upper] {
        for len in 0..=257 {
            slices.goes_round_at(case, first(&bytes, len), 0, 0);
            slices.checks(case, first(&zeros, 2 * len));
        }
        for len in 1..=257 {
            slices.checks(case, first(&zeros, 2 * len - 1));
            let src = with(digits::<514>(0, case), 2 * len - 1, b'!');
            slices.decodes(case, len, first(&src, 2 * len));
            slices.reads(case, first(&src, 2 * len));
        }
    }
    ends(&rt, slices.ended(2_574));
}

#[test]
fn public_and_scalar_paths_agree(rt: HostRuntime) {
    let mut slices = Slices::new();
    let bytes = listed::<4_096>(0);
    for len in 0..=4_096 {
        slices.goes_round_at(Lower, first(&bytes, len), 0, 0);
        slices.goes_round_at(Upper, first(&bytes, len), 0, 0);
    }
    ends(&rt, slices.ended(8_194));
}
