//! The maps of the plan `plain`. All but `ShortRows::nibbles` look the lanes of a vector up in a *row*, a
//! table that fits a register, and not in memory, because the lanes may be secret.
#![tactic(auto, using(crate::proofs::ByteLemmas::bytes))]

ghost use Rattle.std.specs.Prelude.{◌≡◌, ◌↔◌, ◌≤◌, ℕ};
ghost use Rattle.hex_core.specs.declared.digit.CheckCase.{CheckCase};
ghost use Rattle.hex_core.specs.inside.Arithmetic.{AreClear};
ghost use Rattle.hex_core.specs.inside.Rows.{long_row, mark_mask, mark_row, nibble_row, value_row};
ghost use Rattle.hex_core.specs.Lanes.{AreNibbles, AreValues};
ghost use Rattle.hex_core.specs.Search.{AllValid};

use crate::digit::CheckCase;
use crate::digit_lanes::fold_of;
use crate::maps::Nibbles;
use crate::vector::{
    and_splat, differences, min, saturating_differences, saturating_sub, wrapping_sub, xor,
    xor_splat,
};
use crate::widths::{look_up, look_up_long};
use std::simd::prelude::*;

/// A map that looks lanes up in rows.
pub trait Rows<const N: usize> {
    // The bits of a mark.
    ghost mask: { CheckCase → ℕ };

    /// Returns the bits of a mark.
    fn mark_mask(case: CheckCase) -> u8
        ensures { result ≡ mask case };

    /// Returns a lane for each byte, with a bit of `mark_mask` if the byte is invalid, and with none
    /// if it is valid. The lanes of many blocks are joined by `or`, and tested once.
    fn marks(v: Simd<u8, N>, case: CheckCase) -> Simd<u8, N>
        requires { N ≤ 64 }
        ensures { AreClear (mask case) result ↔ AllValid case v.entry 0 N };

    /// Returns the value of each valid lane, and a number of at least 16 for each invalid lane.
    fn values_or_16(v: Simd<u8, N>, case: CheckCase) -> Simd<u8, N>
        requires { N ≤ 64 }
        ensures { AreNibbles case v.entry result };
}

// Each table with three entries is indexed by the policy, in the order of `CheckCase`.

static MARK_MASKS: [u8; 3] = [0xa0, 0xa0, 0xa1];

// A program, which is not kept, found these rows. The proof computes the marks of all 256 bytes.
static MARK_ROWS: [[u8; 16]; 3] = [
    *b"\xa7\xa8\xa9\x00\x00\x00\x00\x00\x00\x90\xa1\xa2\xa3\xa4\xa5\xa6",
    *b"\xa7\xa8\xa9\x00\x00\x00\x00\x00\x00\x90\x91\x92\x93\x94\x95\x96",
    *b"\xa7\xa9\xa9\x00\x00\x00\x00\x00\x00\x91\xa1\xa3\xa3\xa5\xa5\xa7",
];

// The index is the byte minus the character `7`, or 0 for a byte up to that character. So it is 1 and 2
// for the characters `8` and `9`, and 10 to 15 modulo 16 for a letter.
static NIBBLE_ROWS: [[u8; 16]; 3] = [
    *b"\x10\x11\x12\x00\x00\x00\x00\x00\x00\x00\x75\x74\x7b\x76\x79\x78",
    *b"\x30\x31\x32\x00\x00\x00\x00\x00\x00\x00\x95\x94\x9b\x96\x99\x98",
    *b"\x30\x31\x32\x00\x00\x00\x00\x00\x00\x00\x55\x54\x5b\x56\x59\x58",
];

// The index is the low six bits of a byte, in which all digits differ. A valid byte differs from its
// value by the bits of its entry. Every other byte differs from its entry in bit 5, 6 or 7.
static LONG_ROWS: [[u8; 64]; 3] = [
    [
        32, 75, 73, 79, 73, 75, 73, 39, 40, 41, 42, 43, 44, 45, 46, 47, 48, 49, 50, 51, 52, 53, 54,
        55, 56, 57, 58, 59, 60, 61, 62, 63, 0, 107, 105, 111, 105, 107, 105, 7, 8, 9, 10, 11, 12,
        13, 14, 15, 48, 48, 48, 48, 48, 48, 48, 48, 48, 48, 26, 27, 28, 29, 30, 31,
    ],
    [
        32, 33, 34, 35, 36, 37, 38, 39, 40, 41, 42, 43, 44, 45, 46, 47, 48, 49, 50, 51, 52, 53, 54,
        55, 56, 57, 58, 59, 60, 61, 62, 63, 0, 107, 105, 111, 105, 107, 105, 7, 8, 9, 10, 11, 12,
        13, 14, 15, 48, 48, 48, 48, 48, 48, 48, 48, 48, 48, 26, 27, 28, 29, 30, 31,
    ],
    [
        32, 75, 73, 79, 73, 75, 73, 39, 40, 41, 42, 43, 44, 45, 46, 47, 48, 49, 50, 51, 52, 53, 54,
        55, 56, 57, 58, 59, 60, 61, 62, 63, 0, 1, 2, 3, 4, 5, 6, 7, 8, 9, 10, 11, 12, 13, 14, 15,
        48, 48, 48, 48, 48, 48, 48, 48, 48, 48, 26, 27, 28, 29, 30, 31,
    ],
];

// The values of the valid bytes, by their low six bits.
static VALUE_ROW: [u8; 64] = [
    0, 10, 11, 12, 13, 14, 15, 0, 0, 0, 0, 0, 0, 0, 0, 0, 0, 0, 0, 0, 0, 0, 0, 0, 0, 0, 0, 0, 0, 0,
    0, 0, 0, 10, 11, 12, 13, 14, 15, 0, 0, 0, 0, 0, 0, 0, 0, 0, 0, 1, 2, 3, 4, 5, 6, 7, 8, 9, 0, 0,
    0, 0, 0, 0,
];

// The compiler loads a slice at once, but an array byte by byte.
#[inline(always)]
fn mark_row(case: CheckCase) -> u8x16
    ensures { result ≡ mark_row case }
{
    u8x16::from_slice(&MARK_ROWS[case as u8 as usize])
}

#[inline(always)]
fn nibble_row(case: CheckCase) -> u8x16
    ensures { result ≡ nibble_row case }
{
    u8x16::from_slice(&NIBBLE_ROWS[case as u8 as usize])
}

#[tactic(auto, unfolding(crate::specs::inside::Rows::long_row))]
#[inline(always)]
fn long_row(case: CheckCase) -> u8x64
    ensures { result ≡ long_row case }
{
    u8x64::from_slice(&LONG_ROWS[case as u8 as usize])
}

#[tactic(auto, unfolding(crate::specs::inside::Rows::value_row))]
#[inline(always)]
fn value_row() -> u8x64
    ensures { result ≡ value_row }
{
    u8x64::from_slice(&VALUE_ROW)
}

/// The map with rows of 16 entries. In most builds one instruction looks a whole vector up in such a
/// row.
pub struct ShortRows;

// This function looks nothing up. It clears the bits in which decimal digits differ from their values,
// and lowercase letters from uppercase ones. A decimal digit is then its value, and a letter its value
// plus 55.
impl<const N: usize> Nibbles<N> for ShortRows {
    #[inline(always)]
    fn nibbles(v: Simd<u8, N>, _case: CheckCase) -> Simd<u8, N>
        ensures { AreValues _case v.entry result }
    {
        let common = and_splat(v, 0x4f);
        min(common, wrapping_sub(common, 55))
    }
}

impl<const N: usize> Rows<N> for ShortRows {
    ghost mask = { mark_mask };

    #[inline(always)]
    fn mark_mask(case: CheckCase) -> u8
        ensures { result ≡ mark_mask case }
    {
        MARK_MASKS[case as u8 as usize]
    }

    #[inline(always)]
    fn marks(v: Simd<u8, N>, case: CheckCase) -> Simd<u8, N>
        requires { N ≤ 64 }
        ensures { AreClear (mark_mask case) result ↔ AllValid case v.entry 0 N }
    {
        // Subtracting 199 adds 57 modulo 256, so the digits 0 to 6 get the indices from 9 on.
        let past = wrapping_sub(v, 199);
        xor(past, differences(look_up(mark_row(case), past), v))
    }

    #[inline(always)]
    fn values_or_16(v: Simd<u8, N>, case: CheckCase) -> Simd<u8, N>
        requires { N ≤ 64 }
        ensures { AreNibbles case v.entry result }
    {
        // Under one case, the difference has the bits in which a valid byte differs from its value. If
        // both cases are accepted, it has those that differ after `fold_of` has flipped the bit that
        // makes a letter lowercase. For an uppercase letter, `past` is smaller by 32 than for the
        // lowercase one, so the difference is greater by 32, which is the flipped bit.
        let past = saturating_sub(v, b'7');
        let bits = saturating_differences(look_up(nibble_row(case), past), past);
        xor(xor_splat(v, fold_of(case)), bits)
    }
}

/// The map with rows of 64 entries. It is fast only in a build for processors with AVX-512 VBMI,
/// which look 64 lanes up by one instruction.
pub struct LongRows;

impl Nibbles<64> for LongRows {
    #[inline(always)]
    fn nibbles(v: u8x64, _case: CheckCase) -> u8x64
        ensures { AreValues _case v result }
    {
        look_up_long(value_row(), v)
    }
}

// Returns the value of each valid lane, and for each invalid one a number that has one of the high four
// bits set.
#[inline(always)]
fn long_nibbles<const N: usize>(v: Simd<u8, N>, case: CheckCase) -> Simd<u8, N>
    requires { N ≤ 64 }
    ensures nibbles { AreNibbles case v.entry result }
    ensures marks { AreClear 0xf0 result ↔ AllValid case v.entry 0 N }
{
    xor(v, look_up_long(long_row(case), v))
}

impl<const N: usize> Rows<N> for LongRows {
    ghost mask = { λ _. 0xf0 };

    #[inline(always)]
    fn mark_mask(_case: CheckCase) -> u8
        ensures { result ≡ 0xf0 }
    {
        0xf0
    }

    #[inline(always)]
    fn marks(v: Simd<u8, N>, case: CheckCase) -> Simd<u8, N>
        requires { N ≤ 64 }
        ensures { AreClear 0xf0 result ↔ AllValid case v.entry 0 N }
    {
        long_nibbles(v, case)
    }

    #[inline(always)]
    fn values_or_16(v: Simd<u8, N>, case: CheckCase) -> Simd<u8, N>
        requires { N ≤ 64 }
        ensures { AreNibbles case v.entry result }
    {
        long_nibbles(v, case)
    }
}
