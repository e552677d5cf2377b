//! Functions on blocks of bytes. They test digits, return their values, pack values into bytes, and
//! encode bytes. A function that encodes takes 8, 16 or 32 bytes, and any other one 16, 32 or 64.
#![tactic(auto, using(crate::proofs::ByteLemmas::admits, crate::proofs::PairLemmas::are_packed))]

ghost use Rattle.std.specs.Prelude.{◌≡◌};
ghost use Rattle.hex_core.specs.Lanes.{Admits, AreChecked, AreNibbles, ArePacked, AreSmall, AreValues};
ghost use Rattle.hex_core.specs.Text.{text};

use crate::digit::CheckCase;
use crate::digit_lanes::{admitted, hashed_checks, hashed_values, saturated};
use crate::encode::{Encode, Interleaved};
use crate::widths::{Lanes, Pack};
use std::simd::prelude::*;

/// Returns a mask whose bit `i` is set exactly if byte `i` is valid under `case`.
///
/// ```rust
/// assert_eq!(rt; admitted_16(b"0123456789ABCDEF", CheckCase::Lower), 0x03ff);
/// ```
#[inline(always)]
pub fn admitted_16(bytes: &[u8; 16], case: CheckCase) -> u16
    ensures admitted { Admits case bytes.now result }
{
    admitted(u8x16::from_array(*bytes), case) as u16
}

/// Does the same as [`admitted_16`] for 32 bytes.
///
/// ```rust
/// let mut bytes = [b'F'; 32];
/// bytes[31] = b'f';
/// assert_eq!(rt; admitted_32(&bytes, CheckCase::Upper), 0x7fff_ffff);
/// ```
#[inline(always)]
pub fn admitted_32(bytes: &[u8; 32], case: CheckCase) -> u32
    ensures admitted { Admits case bytes.now result }
{
    admitted(u8x32::from_array(*bytes), case) as u32
}

/// Does the same as [`admitted_16`] for 64 bytes.
///
/// ```rust
/// let mut bytes = [b'g'; 64];
/// bytes[63] = b'f';
/// assert_eq!(rt; admitted_64(&bytes, CheckCase::None), 1 << 63);
/// ```
#[inline(always)]
pub fn admitted_64(bytes: &[u8; 64], case: CheckCase) -> u64
    ensures admitted { Admits case bytes.now result }
{
    admitted(u8x64::from_array(*bytes), case)
}

/// Returns the value of each byte under `case`. For an invalid byte it returns a number of at least
/// 16.
///
/// ```rust
/// let nibbles = nibbles_saturating_16(b"0123456789abcdef", CheckCase::None);
/// assert_eq!(rt; (nibbles[9], nibbles[15]), (9, 15));
/// ```
#[inline(always)]
pub fn nibbles_saturating_16(bytes: &[u8; 16], case: CheckCase) -> [u8; 16]
    ensures nibbles { AreNibbles case bytes.now result }
{
    saturated(u8x16::from_array(*bytes), case).to_array()
}

/// Returns two numbers for each byte, in two arrays. The second one is below 128 exactly if the
/// byte is valid under `case`. The first one is then the value of the byte. For an invalid byte the
/// first one is unspecified.
///
/// ```rust
/// let mut bytes = [b'7'; 32];
/// bytes[31] = b'g';
/// let (nibbles, checked) = nibbles_hashed_32(&bytes, CheckCase::None);
/// assert_eq!(rt; nibbles[30], 7);
/// assert!(rt; checked[30] < 128 && checked[31] >= 128);
/// ```
#[inline(always)]
pub fn nibbles_hashed_32(bytes: &[u8; 32], case: CheckCase) -> ([u8; 32], [u8; 32])
    ensures nibbles { AreValues case bytes.now result.0 }
    ensures checked { AreChecked case bytes.now result.1 }
{
    let v = u8x32::from_array(*bytes);
    (
        hashed_values(v).to_array(),
        hashed_checks(v, case).to_array(),
    )
}

/// Does the same as [`nibbles_hashed_32`] for 64 bytes.
///
/// ```rust
/// let mut bytes = [b'7'; 64];
/// bytes[63] = b'g';
/// let (nibbles, checked) = nibbles_hashed_64(&bytes, CheckCase::None);
/// assert_eq!(rt; nibbles[62], 7);
/// assert!(rt; checked[62] < 128 && checked[63] >= 128);
/// ```
#[inline(always)]
pub fn nibbles_hashed_64(bytes: &[u8; 64], case: CheckCase) -> ([u8; 64], [u8; 64])
    ensures nibbles { AreValues case bytes.now result.0 }
    ensures checked { AreChecked case bytes.now result.1 }
{
    let v = u8x64::from_array(*bytes);
    (
        hashed_values(v).to_array(),
        hashed_checks(v, case).to_array(),
    )
}

/// Returns one byte for each pair of nibbles. The first nibble of a pair is the high half of the
/// byte.
///
/// Requires every nibble to be below 16.
///
/// ```rust
/// let bytes = pack_16(&[0, 1, 2, 3, 4, 5, 6, 7, 8, 9, 10, 11, 12, 13, 14, 15]);
/// assert_eq!(rt; bytes, [0x01, 0x23, 0x45, 0x67, 0x89, 0xab, 0xcd, 0xef]);
/// ```
#[inline(always)]
pub fn pack_16(nibbles: &[u8; 16]) -> [u8; 8]
    requires { AreSmall nibbles.now }
    ensures packed { ArePacked nibbles.now result }
{
    Lanes::pack(u8x16::from_array(*nibbles)).to_array()
}

/// Does the same as [`pack_16`] for 32 nibbles, which must be below 16 too.
///
/// ```rust
/// let (nibbles, _) = nibbles_hashed_32(&[b'7'; 32], CheckCase::None);
/// assert!(rt; nibbles.iter().all(|nibble| *nibble < 16));
/// assert_eq!(rt; pack_32(&nibbles), [0x77; 16]);
/// ```
#[inline(always)]
pub fn pack_32(nibbles: &[u8; 32]) -> [u8; 16]
    requires { AreSmall nibbles.now }
    ensures packed { ArePacked nibbles.now result }
{
    Lanes::pack(u8x32::from_array(*nibbles)).to_array()
}

/// Does the same as [`pack_16`] for 64 nibbles, which must be below 16 too.
///
/// ```rust
/// let (nibbles, _) = nibbles_hashed_64(&[b'7'; 64], CheckCase::None);
/// assert!(rt; nibbles.iter().all(|nibble| *nibble < 16));
/// assert_eq!(rt; pack_64(&nibbles), [0x77; 32]);
/// ```
#[inline(always)]
pub fn pack_64(nibbles: &[u8; 64]) -> [u8; 32]
    requires { AreSmall nibbles.now }
    ensures packed { ArePacked nibbles.now result }
{
    Lanes::pack(u8x64::from_array(*nibbles)).to_array()
}

/// Returns the digits of 8 bytes, two for each byte with the high one first. The letters are
/// uppercase if `upper` is true, and lowercase otherwise.
///
/// ```rust
/// let text = encode_8(&[0x01, 0x23, 0x45, 0x67, 0x89, 0xab, 0xcd, 0xef], false);
/// assert_eq!(rt; text, *b"0123456789abcdef");
/// ```
#[inline(always)]
pub fn encode_8(bytes: &[u8; 8], upper: bool) -> [u8; 16]
    ensures text { result ≡ text upper bytes.now }
{
    Interleaved::encoded(u8x8::from_array(*bytes), upper).to_array()
}

/// Does the same as [`encode_8`] for 16 bytes.
///
/// ```rust
/// let text = encode_16(&[0xab; 16], true);
/// assert_eq!(rt; text, *b"ABABABABABABABABABABABABABABABAB");
/// ```
#[inline(always)]
pub fn encode_16(bytes: &[u8; 16], upper: bool) -> [u8; 32]
    ensures text { result ≡ text upper bytes.now }
{
    Interleaved::encoded(u8x16::from_array(*bytes), upper).to_array()
}

/// Does the same as [`encode_8`] for 32 bytes.
///
/// ```rust
/// assert_eq!(rt; encode_32(&[0x77; 32], false), [b'7'; 64]);
/// ```
#[inline(always)]
pub fn encode_32(bytes: &[u8; 32], upper: bool) -> [u8; 64]
    ensures text { result ≡ text upper bytes.now }
{
    Interleaved::encoded(u8x32::from_array(*bytes), upper).to_array()
}
