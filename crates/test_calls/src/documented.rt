//! Calls with their stated results: basic ones, the examples in the documentation of `faster-hex`, and its tests.

use crate::ends;
use crate::slices::{POLICIES, Slices, invalid, too_small};
use hex_core::CheckCase::{Lower, None as Either, Upper};
use hex_core::Error::OddLength;

#[test]
fn encoding_writes_the_front_or_nothing(rt: HostRuntime) {
    let mut slices = Slices::new();
    slices.encode(Upper, 3, b"\xab\xcd", too_small(4));
    slices.encode(Lower, 0, b"\xab", too_small(2));
    slices.encode(Lower, 7, b"\x00\x0f", Ok(b"000f"));
    slices.encode(Upper, 5, b"", Ok(b""));
    slices.encode(Lower, 0, b"", Ok(b""));
    ends(&rt, slices.ended(5));
}

#[test]
fn decoding_writes_the_front_or_nothing(rt: HostRuntime) {
    let mut slices = Slices::new();
    slices.decode(Lower, 3, b"00ab", Ok(b"\x00\xab"));
    slices.decode(Upper, 3, b"00AB", Ok(b"\x00\xab"));
    slices.decode(Either, 0, b"g", Err(OddLength));
    slices.decode(Either, 5, b"", Ok(b""));
    slices.decode(Upper, 1, b"", Ok(b""));
    let mut src = [b'0'; 8_192];
    (src[65], src[8_191]) = (b'!', 0xff);
    for case in POLICIES {
        slices.decode(case, 4_096, &src, invalid(65, b'!'));
    }
    ends(&rt, slices.ended(8));
}

#[test]
fn a_check_looks_at_bytes_alone(rt: HostRuntime) {
    let mut slices = Slices::new();
    for case in [Lower, Upper] {
        for src in [b"00aBcD".as_slice(), b"0x01", b"00 01"] {
            slices.check(case, src, false);
        }
    }
    slices.check(Lower, b"a", true);
    for case in POLICIES {
        slices.check(case, b"F", case != Lower);
        slices.check(case, b"0", true);
        slices.check(case, b"00\n", false);
        slices.check(case, b"\xc3\xa9", false);
    }
    ends(&rt, slices.ended(19));
}

#[test]
fn examples_of_lib_rs(rt: HostRuntime) {
    let mut slices = Slices::new();
    slices.encode(Lower, 10, b"hello", Ok(b"68656c6c6f"));
    slices.decode(Either, 5, b"68656c6c6f", Ok(b"hello"));
    ends(&rt, slices.ended(2));
}

#[test]
fn examples_of_error_rs(rt: HostRuntime) {
    let mut slices = Slices::new();
    slices.decode(Either, 1, b"0011", too_small(2));
    ends(&rt, slices.ended(1));
}

#[test]
fn examples_of_decode_rs(rt: HostRuntime) {
    let mut slices = Slices::new();
    for src in [b"00aBcD".as_slice(), b"a", b"", b"aB01"] {
        slices.check(Either, src, true);
    }
    slices.check(Either, b"0x01", false);
    slices.check(Either, b"00 01", false);
    slices.check(Upper, b"0123", true);
    slices.check(Lower, b"ab01", true);
    slices.check(Lower, b"AB01", false);
    slices.decode(Upper, 2, b"AB01", Ok(b"\xab\x01"));
    slices.decode(Upper, 2, b"ab01", invalid(0, b'a'));
    slices.decode(Either, 5, b"00aBcD", Ok(b"\x00\xab\xcd"));
    slices.decode(Either, 3, b"00ff0g", invalid(5, b'g'));
    slices.decode(Lower, 2, b"ab01", Ok(b"\xab\x01"));
    slices.decode(Lower, 2, b"Ab01", invalid(0, b'A'));
    ends(&rt, slices.ended(15));
}

#[test]
fn examples_of_encode_rs(rt: HostRuntime) {
    let mut slices = Slices::new();
    slices.encode(Lower, 8, b"\x00\xab\xcd", Ok(b"00abcd"));
    slices.encode(Lower, 3, b"\xab\xcd", too_small(4));
    slices.encode(Upper, 6, b"\x00\xab\xff", Ok(b"00ABFF"));
    ends(&rt, slices.ended(3));
}

#[test]
fn encode_returns_only_written_utf8_prefix(rt: HostRuntime) {
    let mut slices = Slices::new();
    for (case, text) in [(Lower, b"ab"), (Upper, b"AB")] {
        slices.encode(case, 80, b"", Ok(b""));
        slices.encode(
            case,
            80,
            &[0xab; 32],
            Ok(&test_kit::source::repeated::<64>(text)),
        );
        slices.encode(case, 63, &[0; 32], too_small(64));
    }
    ends(&rt, slices.ended(6));
}

#[test]
fn decode_requires_room_for_all_input_and_preserves_spare_bytes(rt: HostRuntime) {
    let mut slices = Slices::new();
    for room in 0..=4 {
        let want = if room < 2 {
            too_small(2)
        } else {
            Ok(b"\xab\xcd".as_slice())
        };
        slices.decode(Either, room, b"abcd", want);
    }
    slices.decode(Either, 65, b"", Ok(b""));
    ends(&rt, slices.ended(6));
}

#[test]
fn errors_have_stable_precedence_and_do_not_write(rt: HostRuntime) {
    let mut slices = Slices::new();
    slices.decode(Either, 32, b"g", Err(OddLength));
    slices.decode(Either, 0, b"gg", too_small(1));
    slices.decode(Either, 32, b"gg", invalid(0, b'g'));
    slices.check(Either, b"a", true);
    slices.check(Upper, b"a", false);
    slices.check(Either, b"", true);
    ends(&rt, slices.ended(6));
}

#[test]
fn diagnostics_identify_the_first_invalid_byte_for_each_policy(rt: HostRuntime) {
    let mut slices = Slices::new();
    slices.decode(Either, 4, b"0A0bg!ff", invalid(4, b'g'));
    slices.decode(Lower, 4, b"0A0bg!ff", invalid(1, b'A'));
    slices.decode(Upper, 4, b"0A0bg!ff", invalid(3, b'b'));
    slices.decode(Either, 4, b"\xc3\xa9", invalid(0, 0xc3));
    ends(&rt, slices.ended(4));
}

#[test]
fn strict_uppercase_fixed_hash_keeps_numeric_nibbles(rt: HostRuntime) {
    let mut slices = Slices::new();
    for digit in 0..10 {
        slices.decode(Upper, 32, &[b'0' + digit; 64], Ok(&[digit * 0x11; 32]));
    }
    ends(&rt, slices.ended(10));
}
