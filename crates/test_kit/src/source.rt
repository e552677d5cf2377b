//! Sources for calls.

use crate::model::digit;
use hex_core::CheckCase;

// Returns the byte at a place of the sequence of which `listed` returns a part.
fn byte_at(place: usize) -> u8 {
    (place.wrapping_mul(73).wrapping_add(place / 7) % 256) as u8
}

/// Returns `N` bytes, of which the one at place `i` is `73 * j + j / 7` modulo 256, where `j` is `start + i`.
pub fn listed<const N: usize>(start: usize) -> [u8; N] {
    let mut bytes = [0; N];
    for i in 0..N {
        bytes[i] = byte_at(start.wrapping_add(i));
    }
    bytes
}

/// Returns the first `N` digits of the bytes of `listed`. If the policy reads both cases, each third is uppercase.
pub fn digits<const N: usize>(start: usize, case: CheckCase) -> [u8; N] {
    let mut text = [0; N];
    for i in 0..N {
        let byte = byte_at(start.wrapping_add(i / 2));
        let nibble = if i % 2 == 0 { byte >> 4 } else { byte & 15 };
        let is_upper = match case {
            CheckCase::None => i % 3 == 0,
            CheckCase::Lower => false,
            CheckCase::Upper => true,
        };
        text[i] = digit(nibble, is_upper);
    }
    text
}

/// Returns all digits of a policy.
pub fn alphabet(case: CheckCase) -> &'static [u8] {
    match case {
        CheckCase::None => b"0123456789abcdefABCDEF",
        CheckCase::Lower => b"0123456789abcdef",
        CheckCase::Upper => b"0123456789ABCDEF",
    }
}

/// Returns `N` bytes that repeat a unit.
pub fn repeated<const N: usize>(unit: &[u8]) -> [u8; N] {
    let mut bytes = [0; N];
    for i in 0..N {
        let place = i.checked_rem(unit.len()).unwrap_or(0);
        bytes[i] = unit.get(place).copied().unwrap_or(0);
    }
    bytes
}

/// Returns the bytes with `byte` at a place.
pub fn with<const N: usize>(bytes: [u8; N], place: usize, byte: u8) -> [u8; N] {
    let mut changed = bytes;
    if let Some(at) = changed.get_mut(place) {
        *at = byte;
    }
    changed
}

/// Returns the first `count` bytes, or all if there are fewer.
pub fn first(bytes: &[u8], count: usize) -> &[u8] {
    bytes.get(..count).unwrap_or(bytes)
}

/// Copies bytes into a buffer, `from` bytes behind its start, and returns the copy.
pub fn placed<'a>(bytes: &[u8], from: usize, buffer: &'a mut [u8]) -> &'a [u8] {
    let end = from.saturating_add(bytes.len());
    let there = buffer.get_mut(from..end).unwrap_or_default();
    if there.len() == bytes.len() {
        there.copy_from_slice(bytes);
    }
    there
}

/// Copies parts into a buffer, one behind the other, and returns the joined copy.
pub fn joined<'a>(parts: &[&[u8]], buffer: &'a mut [u8]) -> &'a [u8] {
    let mut end = 0;
    for i in 0..parts.len() {
        end = placed(parts[i], end, buffer).len().saturating_add(end);
    }
    buffer.get(..end).unwrap_or_default()
}
