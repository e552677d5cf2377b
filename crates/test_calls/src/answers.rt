//! Writes through the slice that a call returns, which is the front of its destination; and the default policy.

use hex_codec::{hex_decode, hex_encode};
use hex_core::{CheckCase, Error};
use std::alloc::{AllocError, Global};

// Returns whether a call returned the bytes `want`. Writes `mark` over them, from `place` on.
fn marks(got: Result<&mut [u8], Error>, want: &[u8], place: usize, mark: &[u8]) -> bool {
    let Ok(front) = got else {
        return false;
    };
    let is_answered = &*front == want;
    let end = place.saturating_add(mark.len());
    let Some(marked) = front.get_mut(place..end) else {
        return false;
    };
    marked.copy_from_slice(mark);
    is_answered
}

// Returns whether marks in a decoded, an encoded and an empty front leave the bytes behind each front.
fn are_marked(decoded: &mut [u8; 5], encoded: &mut [u8; 8], empty: &mut [u8; 5]) -> bool {
    let bytes = [0, 0xab, 0xcd];
    let is_decoded = marks(hex_decode(b"00aBcD", decoded), &bytes, 0, &[0xff]);
    let is_encoded = marks(hex_encode(&bytes, encoded), b"00abcd", 0, b"00ABCD");
    let is_empty = marks(hex_decode(b"", empty), b"", 0, b"");
    let are_left = *decoded == [0xff, 0xab, 0xcd, 0xa5, 0xa5] && *empty == [0xa5; 5];
    is_decoded && is_encoded && is_empty && are_left && *encoded == *b"00ABCD\xff\xff"
}

// The examples of `decode.rs` and `encode.rs` in `faster-hex` that write through the returned slice.
#[test]
fn a_write_through_the_answer_stays_in_the_front(rt: HostRuntime) {
    assert!(rt; are_marked(&mut [0xa5; 5], &mut [0xff; 8], &mut [0xa5; 5]));
}

// Decodes a source that is dropped before the returned slice is used.
fn outlives_its_source(alloc: Global) -> Result<bool, AllocError> {
    let mut dst = [0xa5; 4];
    let written = {
        let source = String::from_str(alloc, "abcd")?;
        hex_decode(source.as_bytes(), &mut dst)
    };
    let is_answered = marks(written, &[0xab, 0xcd], 1, &[0xff]);
    Ok(is_answered && dst == [0xab, 0xff, 0xa5, 0xa5])
}

// The test of `faster-hex` named `decoded_prefix_borrows_only_the_destination_and_is_mutable`.
#[test]
fn decoded_prefix_borrows_only_the_destination_and_is_mutable(rt: HostRuntime) {
    assert!(rt; outlives_its_source(rt.alloc()) == Ok(true));
}

// The last line of the test of `faster-hex` named `errors_have_stable_precedence_and_do_not_write`.
#[test]
fn either_case_is_read_by_default(rt: HostRuntime) {
    assert!(rt; CheckCase::default() == CheckCase::None);
}
