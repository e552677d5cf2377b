//! What the comparisons of tests must notice: a wrong result, a wrong byte, and an input that was left out.

use crate::ends;
use crate::slices::{Slices, invalid};
use hex_core::CheckCase::None as Either;
use test_kit::seen::Given;

#[test]
#[should_panic(expected = "decode_slice scalar any 5, 67670a (3 bytes): wanted invalid hex byte")]
fn another_error_is_noticed(rt: HostRuntime) {
    let mut slices = Slices::new();
    slices.decode(Either, 5, b"gg\n", invalid(0, b'g'));
    ends(&rt, slices.ended(1));
}

#[test]
#[should_panic(expected = "wanted ac (1 bytes), came ab (1 bytes)")]
fn another_byte_is_noticed(rt: HostRuntime) {
    let mut slices = Slices::new();
    slices.decode(Either, 1, b"ab", Ok(b"\xac"));
    ends(&rt, slices.ended(1));
}

#[test]
#[should_panic(expected = "decode_into")]
fn a_byte_behind_the_result_is_noticed(rt: HostRuntime) {
    let mut slices = Slices::new();
    let it = &mut slices;
    if let [first, .., last] = it.to.lend(4) {
        (*first, *last) = (0xab, 0);
    }
    let given = Given::new(Either, 4, b"ab");
    it.to
        .is_left(&mut it.seen, given, "decode_into", Ok::<_, u8>(b"\xab"));
    ends(&rt, slices.ended(0));
}

#[test]
#[should_panic(expected = "1 inputs, and not 2, were tried")]
fn an_input_that_is_left_out_is_noticed(rt: HostRuntime) {
    let mut slices = Slices::new();
    slices.decodes(Either, 1, b"ab");
    ends(&rt, slices.ended(2));
}
