//! White space at each place of texts of each length.

use hex_codec::{hex_decode_into, hex_decode_spaced};
use hex_core::CheckCase;

const LONGEST: usize = 70;

const DIGITS: [u8; LONGEST] =
    *b"0123456789aBcDeFfEdCbA98765432100123456789aBcDeFfEdCbA9876543210012345";

// Returns whether `len` digits are decoded alike with and without a byte of white space at a place.
fn is_skipped(len: usize, place: usize, space: u8) -> bool {
    let digits = DIGITS.get(..len).unwrap_or_default();
    let mut text = [space; LONGEST + 1];
    for i in 0..digits.len() {
        let to = i.saturating_add(usize::from(i >= place));
        if let Some(byte) = text.get_mut(to) {
            *byte = digits.get(i).copied().unwrap_or(space);
        }
    }
    let text = text.get(..len.saturating_add(1)).unwrap_or_default();
    let (mut bytes, mut wanted) = ([0xa5; LONGEST], [0xa5; LONGEST]);
    let want = hex_decode_into(digits, &mut wanted, CheckCase::None);
    hex_decode_spaced(text, &mut bytes, CheckCase::None) == want && bytes == wanted
}

#[test]
fn white_space_is_skipped_at_each_place(rt: HostRuntime) {
    for len in 0..LONGEST {
        for place in 0..LONGEST {
            for space in *b" \t\n\x0c\r" {
                assert!(rt; is_skipped(len, place.min(len), space));
            }
        }
    }
}
