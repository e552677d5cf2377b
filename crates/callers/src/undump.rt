//! Reads a line of a dump. The function is proved.

ghost use Rattle.std.specs.Prelude.{◌≡◌, ◌≤◌, ◌++◌, ◌∷◌, [], ℕ, List, IfNone, IfSome, MatchOption, Some, length};
ghost use Rattle.hex_core.specs.Laws.{AreBytes};
ghost use Rattle.hex_core.specs.Text.{lowercase, text, with_front};
ghost use Rattle.hex_codec.specs.GroupedWriting.{grouped};

use faster_hex::grouped::read_into;
use faster_hex::{CheckCase, Group, hex_decode_array_with_case};
use hex_codec::laws::{grouping_inverts_strict_reading, reading_inverts_grouping};
use hex_core::laws::{
    a_text_is_ascii_and_twice_as_long, decoding_inverts_encoding, encoding_inverts_strict_decoding,
};

/// Reads a line that [`write_line`](crate::dump::write_line) has written, which is given without
/// its newline. Decodes its bytes into the start of a buffer. Returns its offset and the number of
/// its bytes. Returns `None` and leaves the buffer unchanged if it is not such a line, or if its
/// bytes do not fit the buffer.
///
/// ```rust
/// let mut bytes = [0; 4];
/// let group = Group::new(2, b' ').unwrap();
/// let read = read_line(b"00000040: 5275 7374", group, &mut bytes);
/// assert_eq!(rt; read, Some(([0, 0, 0, 0x40], 4)));
/// assert_eq!(rt; &bytes, b"Rust");
/// ```
pub fn read_line(line: &[u8], group: Group, buffer: &mut [u8]) -> Option<([u8; 4], usize)>
    ensures written { IfSome result (λ read. (bytes : List ℕ)
        × (line.now ≡ text lowercase read.0 ++ (58 ∷ 32 ∷ []) ++ grouped group lowercase bytes)
        × (read.1 ≡ length bytes) × (buffer.new ≡ with_front buffer.old bytes)) }
    ensures read { (offset bytes : List ℕ) → AreBytes offset → AreBytes bytes → length offset ≡ 4 → length bytes ≤ length buffer.old
        → line.now ≡ text lowercase offset ++ (58 ∷ 32 ∷ []) ++ grouped group lowercase bytes
        → (result ≡ Some (offset, length bytes)) × (buffer.new ≡ with_front buffer.old bytes) }
    ensures unchanged { IfNone result (buffer.new ≡ buffer.old) }
{
    a_text_is_ascii_and_twice_as_long();
    decoding_inverts_encoding();
    encoding_inverts_strict_decoding();
    reading_inverts_grouping();
    grouping_inverts_strict_reading();
    let (offset, digits) = parts_of(line)?;
    let Ok(offset) = hex_decode_array_with_case(offset, CheckCase::Lower) else {
        return None;
    };
    match read_into(digits, buffer, group, CheckCase::Lower) {
        Ok(count) => Some((offset, count)),
        Err(_) => None,
    }
}

// Returns the eight digits before a colon and a space, and what comes after them.
fn parts_of(line: &[u8]) -> Option<(&[u8], &[u8])>
    ensures parts { IfSome result (λ parts. line.now ≡ parts.0.now ++ (58 ∷ 32 ∷ []) ++ parts.1.now) }
    ensures all { (front back : List ℕ) → length front ≡ 8 → line.now ≡ front ++ (58 ∷ 32 ∷ []) ++ back
        → MatchOption result ⊥ (λ parts. (parts.0.now ≡ front) × (parts.1.now ≡ back)) }
{
    if line.len() < 10 || line[8] != b':' || line[9] != b' ' {
        return None;
    }
    Some((&line[..8], &line[10..]))
}
