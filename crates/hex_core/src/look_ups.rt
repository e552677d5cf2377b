//! Functions that look digits up in tables. The public ones are meant for pieces of a few bytes. They
//! are inlined, because a function call would take longer than the look-ups.

ghost use Rattle.std.specs.Prelude.{◌≡◌, ◌≢◌, ◌+◌, ◌*◌, ◌/◌, ◌%◌, ◌<◌, ◌↔◌, IsTrue, MatchOption, None, length};
ghost use Rattle.std.specs.Int.{bytes_high_first};
ghost use Rattle.hex_core.specs.Calls.{DecodesWhole};
ghost use Rattle.hex_core.specs.Search.{first_invalid};
ghost use Rattle.hex_core.specs.Text.{Spells, text};

use crate::digit::CheckCase;
use crate::tables::{NIL, digit_pairs_of, values_of};

/// Returns whether every byte of `src` is valid under `case`. It looks up all bytes, because a
/// branch for each byte would cost more than it saves.
#[inline(never)]
pub(crate) fn check_by_look_up(src: &[u8], case: CheckCase) -> bool
    ensures { IsTrue result ↔ (first_invalid case src.now ≡ None) }
{
    let values = values_of(case);
    let mut valid = true;
    for byte in src {
        valid &= values[*byte as usize] != NIL;
    }
    valid
}

// Returns the byte that two nibbles make.
fn packed(high: u8, low: u8) -> u8
    requires high { high < 16 }
    requires low { low < 16 }
    ensures { result ≡ 16 * high + low }
{
    16 * high + low
}

/// Decodes all of `src` over all of `dst`.
///
/// Requires `src` to be exactly twice as long as `dst`, in bytes, and every byte of `src` to be
/// valid under `case`.
///
/// ```rust
/// use hex_core::look_ups::write_bytes;
///
/// let mut bytes = [0; 2];
/// write_bytes(b"00aB", &mut bytes, CheckCase::None);
/// assert_eq!(rt; bytes, [0, 0xab]);
/// ```
#[inline(always)]
pub fn write_bytes(src: &[u8], dst: &mut [u8], case: CheckCase)
    requires twice { length src.now ≡ 2 * length dst.old }
    requires valid { first_invalid case src.now ≡ None }
    ensures spelled { Spells case src.now dst.new }
{
    let values = values_of(case);
    'bytes: for i in 0..dst.len() {
        dst[i] = packed(values[src[2 * i] as usize], values[src[2 * i + 1] as usize]);
    }
}

// Decodes fewer than 16 digits to one number, whose lowest byte is the last one. Returns `None` if
// a digit is invalid.
#[inline(always)]
fn word_of(src: &[u8], case: CheckCase) -> Option<u64>
    requires few { length src.now < 16 }
    requires pairs { length src.now % 2 ≡ 0 }
    ensures { MatchOption result (first_invalid case src.now ≢ None)
        (λ word. Spells case src.now (bytes_high_first (length src.now / 2) word)) }
{
    let values = values_of(case);
    let mut word = 0;
    'pairs: for i in 0..src.len() / 2 {
        let high = values[src[2 * i] as usize];
        let low = values[src[2 * i + 1] as usize];
        if high == NIL || low == NIL {
            return None;
        }
        word = 256 * word + packed(high, low) as u64;
    }
    Some(word)
}

/// Returns whether every byte of `src` is valid under `case`.
///
/// Requires `src` to have an even number of bytes, and fewer than 16.
///
/// ```rust
/// use hex_core::look_ups::are_digits;
///
/// assert!(rt; are_digits(b"00aB", CheckCase::None));
/// assert!(rt; !are_digits(b"00aB", CheckCase::Lower));
/// ```
#[inline(always)]
pub fn are_digits(src: &[u8], case: CheckCase) -> bool
    requires few { length src.now < 16 }
    requires pairs { length src.now % 2 ≡ 0 }
    ensures valid { IsTrue result ↔ (first_invalid case src.now ≡ None) }
{
    word_of(src, case).is_some()
}

// Writes the lowest bytes of a number over all of `dst`, with the lowest one last. A loop writes them,
// because a copy of less than 8 bytes would be a function call.
#[inline(always)]
fn write_word(word: u64, dst: &mut [u8])
    requires { length dst.old < 8 }
    ensures { dst.new ≡ bytes_high_first (length dst.old) word }
{
    let mut left = word;
    'bytes: for i in 0..dst.len() {
        let at = dst.len() - 1 - i;
        dst[at] = (left % 256) as u8;
        left /= 256;
    }
}

/// Decodes all of `src` over all of `dst` and returns true. If a byte is invalid, it returns false
/// and writes nothing.
#[inline(always)]
pub(crate) fn decode_by_look_up(src: &[u8], dst: &mut [u8], case: CheckCase) -> bool
    requires { length src.now ≡ 2 * length dst.old }
    ensures { DecodesWhole case src.now dst.old dst.new result }
{
    // Fewer than 16 digits are read in one pass. Their bytes are stored only if all are valid.
    if src.len() < 16 {
        let Some(word) = word_of(src, case) else {
            return false;
        };
        write_word(word, dst);
        return true;
    }
    let valid = check_by_look_up(src, case);
    if valid {
        write_bytes(src, dst, case);
    }
    valid
}

/// Does the same as [`write_digits`], but is not inlined. The plans use this function.
#[inline(never)]
pub(crate) fn encode_by_look_up(src: &[u8], dst: &mut [u8], upper: bool)
    requires { length dst.old ≡ 2 * length src.now }
    ensures { dst.new ≡ text upper src.now }
{
    write_digits(src, dst, upper);
}

/// Encodes all of `src` over all of `dst`. The letters are uppercase if `upper` is true, and
/// lowercase otherwise.
///
/// Requires `dst` to be exactly twice as long as `src`, in bytes.
///
/// ```rust
/// use hex_core::look_ups::write_digits;
///
/// let mut digits = [0; 4];
/// write_digits(&[0, 0xab], &mut digits, true);
/// assert_eq!(rt; &digits, b"00AB");
/// ```
#[inline(always)]
pub fn write_digits(src: &[u8], dst: &mut [u8], upper: bool)
    requires { length dst.old ≡ 2 * length src.now }
    ensures text { dst.new ≡ text upper src.now }
{
    let digits = digit_pairs_of(upper);
    'digits: for i in 0..src.len() {
        let at = 2 * (src[i] as usize);
        dst[2 * i] = digits[at];
        dst[2 * i + 1] = digits[at + 1];
    }
}
