//! Functions that check slices of digits, and decode them into buffers and arrays. Each is proved.

ghost use Rattle.std.specs.Prelude.{◌≡◌, ◌<◌, ◌↔◌, ℕ, List, None, Some, IfSome, IsTrue, MatchResult, length, slice_get, slice_index};
ghost use Rattle.hex_core.specs.declared.digit.CheckCase.TheVariants as policy;
ghost use Rattle.hex_core.specs.Digit.{value};
ghost use Rattle.hex_core.specs.Laws.{AreBytes};
ghost use Rattle.hex_core.specs.Refusal.{decode_refusal, source_refusal};
ghost use Rattle.hex_core.specs.Search.{first_invalid};
ghost use Rattle.hex_core.specs.Text.{Spells, lowercase, text, with_front};

use faster_hex::{
    CheckCase, Error, hex_check, hex_check_with_case, hex_decode_array, hex_decode_into,
};
use hex_core::laws::{
    a_source_is_accepted_where_it_spells_a_list, a_strict_policy_accepts_the_texts_of_its_case,
    an_invalid_char_is_the_first_invalid_byte,
};

/// Returns whether a text decodes to bytes. Letters may have either case.
///
/// ```rust
/// assert!(rt; is_hex(b"00aBcD"));
/// assert!(rt; !is_hex(b"00aBc"));
/// ```
pub fn is_hex(text: &[u8]) -> bool
    ensures { IsTrue result ↔ ((bytes : List ℕ) × AreBytes bytes × Spells policy.None text.now bytes) }
{
    a_source_is_accepted_where_it_spells_a_list();
    text.len() % 2 == 0 && hex_check(text)
}

/// Returns whether a text is the lowercase encoding of some bytes.
///
/// ```rust
/// assert!(rt; is_canonical(b"00abcd"));
/// assert!(rt; !is_canonical(b"00aBcD"));
/// ```
pub fn is_canonical(digits: &[u8]) -> bool
    ensures { IsTrue result ↔ ((bytes : List ℕ) × AreBytes bytes × (text lowercase bytes ≡ digits.now)) }
{
    a_strict_policy_accepts_the_texts_of_its_case();
    is_accepted(digits)
}

// Returns whether a text decodes to bytes, with lowercase letters only.
fn is_accepted(digits: &[u8]) -> bool
    ensures { IsTrue result ↔ (source_refusal policy.Lower digits.now ≡ None) }
{
    digits.len() % 2 == 0 && hex_check_with_case(digits, CheckCase::Lower)
}

/// Decodes eight digits. Returns the index of the first invalid byte, or `None` if all are valid.
/// For a text of another length it also returns `None`.
///
/// ```rust
/// assert_eq!(rt; invalid_place(b"deadbe3g"), Some(7));
/// assert_eq!(rt; invalid_place(b"deadbeef"), None);
/// ```
pub fn invalid_place(text: &[u8]) -> Option<usize>
    ensures bad { IfSome result (λ i. (i < length text.now) × (value policy.None (slice_index text.now i) ≡ None)) }
    ensures eight { length text.now ≡ 8 → result ≡ first_invalid policy.None text.now }
{
    an_invalid_char_is_the_first_invalid_byte();
    match hex_decode_array::<4>(text) {
        Err(Error::InvalidChar { index, .. }) => Some(index),
        _ => None,
    }
}

/// Decodes a record into the start of a buffer. Returns its first byte, which is its tag, or `None`
/// if the record is empty.
///
/// ```rust
/// let mut buffer = [0; 4];
/// assert_eq!(rt; record_tag(b"7f00", &mut buffer), Ok(Some(0x7f)));
/// ```
pub fn record_tag(src: &[u8], buffer: &mut [u8]) -> Result<Option<u8>, Error>
    ensures { MatchResult result
        (λ tag. (bytes : List ℕ) × Spells policy.None src.now bytes
        × (buffer.new ≡ with_front buffer.old bytes) × (tag ≡ slice_get bytes 0))
        (λ e. (decode_refusal policy.None src.now (length buffer.old) ≡ Some e) × (buffer.new ≡ buffer.old)) }
{
    let written = hex_decode_into(src, buffer, CheckCase::default())?;
    Ok(buffer[..written].first().copied())
}
