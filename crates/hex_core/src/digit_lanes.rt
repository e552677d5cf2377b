//! The arithmetic of the maps, which is the same in each lane of a vector. It tests which bytes are
//! valid digits, and replaces digits by their values.
#![tactic(auto, using(crate::proofs::ByteLemmas::bytes))]

ghost use Rattle.std.specs.Prelude.{◌≡◌, ◌^◌, ◌≤◌, ◌<◌, EachIndex, is_some, map, slice_index};
ghost use Rattle.hex_core.specs.declared.digit.CheckCase.{CheckCase};
ghost use Rattle.std.specs.Simd.Lanes.{mask_l};
ghost use Rattle.hex_core.specs.inside.Arithmetic.{first_letter, fold_of, letter};
ghost use Rattle.hex_core.specs.Digit.{value};
ghost use Rattle.hex_core.specs.inside.Hash.{IsHash, check_row};
ghost use Rattle.hex_core.specs.Lanes.{AreChecked, AreNibbles, AreValues};

use crate::digit::CheckCase;
use crate::vector::{
    min, rounding_averages, saturating_add, saturating_differences, saturating_sub, sign_flipped,
    wrapping_sub, zero_bits,
};
use crate::widths::{Lanes, Shift, Shuffle};
use std::simd::prelude::*;

// Both tables are indexed by the policy, which saves the maps a branch.
static FOLDS: [u8; 3] = [0x20, 0, 0];

static FIRST_LETTERS: [u8; 3] = [b'a', b'a', b'A'];

/// Returns the bit that makes a letter lowercase if the policy accepts both cases, and otherwise 0.
#[inline(always)]
pub fn fold_of(case: CheckCase) -> u8
    ensures { result ≡ fold_of case }
{
    FOLDS[case as u8 as usize]
}

// Returns the first letter that the policy accepts. If it accepts both cases, that is `a`, because
// all letters are then made lowercase before they are compared.
#[inline(always)]
fn first_letter(case: CheckCase) -> u8
    ensures { result ≡ first_letter case }
{
    FIRST_LETTERS[case as u8 as usize]
}

// Returns how far each lane is past the first letter that the policy accepts, modulo 256. If the
// policy accepts both cases, the lane is made lowercase first.
#[inline(always)]
fn letters<const N: usize>(v: Simd<u8, N>, case: CheckCase) -> Simd<u8, N>
    ensures { result ≡ map (letter case) v.entry }
{
    wrapping_sub(v | Simd::splat(fold_of(case)), first_letter(case))
}

/// Returns a mask whose bit i is set exactly if lane i is valid.
#[inline(always)]
pub fn admitted<const N: usize>(v: Simd<u8, N>, case: CheckCase) -> u64
    requires { N ≤ 64 }
    ensures mask { result ≡ mask_l (map (λ b. is_some (value case b)) v.entry) }
    ensures below { result < 2 ^ N }
{
    let digits = saturating_sub(wrapping_sub(v, b'0'), 9);
    let past = saturating_sub(letters(v, case), 5);
    zero_bits(min(digits, past))
}

/// Returns the value of each valid lane, and a number of at least 16 for each invalid lane.
#[inline(always)]
pub fn saturated<const N: usize>(v: Simd<u8, N>, case: CheckCase) -> Simd<u8, N>
    ensures { AreNibbles case v.entry result }
{
    // Subtracting 58, the byte after `9`, modulo 256 makes the digits the ten greatest bytes, 246
    // to 255. Subtracting 6, but not below 0, makes them 240 to 249, and no byte is then greater.
    // So subtracting 240 modulo 256 makes the digits 0 to 9, and makes every other byte at least
    // 16.
    let digits = wrapping_sub(saturating_sub(wrapping_sub(v, b'9' + 1), 6), 240);
    min(digits, saturating_add(letters(v, case), 10))
}

// These rows have 16 entries. `HASH_ROW` is indexed by the low four bits of a byte. The other
// rows are indexed by the low four bits of its hash, and have the numbers to subtract from the
// byte.
const HASH_ROW: [u8; 16] = [1, 1, 1, 1, 1, 1, 1, 11, 11, 11, 15, 15, 15, 15, 15, 15];

const VALUE_ROW: [u8; 16] = [
    128, 128, 128, 128, 48, 55, 128, 87, 128, 48, 128, 128, 128, 128, 128, 128,
];

// There is one row for each policy, in the order of `CheckCase`.
static CHECK_ROWS: [[u8; 16]; 3] = [
    [
        128, 128, 128, 128, 48, 65, 128, 97, 128, 55, 128, 128, 128, 128, 128, 128,
    ],
    [
        128, 128, 128, 128, 48, 128, 128, 97, 128, 55, 128, 128, 128, 128, 128, 128,
    ],
    [
        128, 128, 128, 128, 48, 65, 128, 128, 128, 55, 128, 128, 128, 128, 128, 128,
    ],
];

#[inline(always)]
fn check_row(case: CheckCase) -> u8x16
    ensures { result ≡ check_row case }
{
    u8x16::from_array(CHECK_ROWS[case as u8 as usize])
}

// Returns the hash of each lane. Its low four bits are the index in the other rows, and depend on
// this lane alone. The hash of a byte below 128 is below 128 too, so a look-up ignores its higher
// bits. A byte from 128 on is invalid, whatever its look-up gives.
#[inline(always)]
fn hashes<const N: usize>(v: Simd<u8, N>) -> Simd<u8, N>
where
    Lanes: Shuffle<N> + Shift<N>,
    ensures { EachIndex v.entry (λ i. IsHash (slice_index v.entry i) (slice_index result i)) }
{
    rounding_averages(
        Lanes::shift(v),
        Lanes::shuffle(u8x16::from_array(HASH_ROW), v),
    )
}

/// Returns the value of each valid lane. The result for an invalid lane is unspecified. No policy
/// is needed, because a byte has the same value under each policy that accepts it.
#[inline(always)]
pub fn hashed_values<const N: usize>(v: Simd<u8, N>) -> Simd<u8, N>
where
    Lanes: Shuffle<N> + Shift<N>,
    ensures { (case : CheckCase) → AreValues case v.entry result }
{
    let offsets = Lanes::shuffle(u8x16::from_array(VALUE_ROW), hashes(v));
    v - offsets
}

/// Returns a number for each lane, which is below 128 exactly if the lane is valid.
#[inline(always)]
pub fn hashed_checks<const N: usize>(v: Simd<u8, N>, case: CheckCase) -> Simd<u8, N>
where
    Lanes: Shuffle<N> + Shift<N>,
    ensures { AreChecked case v.entry result }
{
    let offsets = Lanes::shuffle(check_row(case), hashes(v));
    sign_flipped(saturating_differences(sign_flipped(v), offsets))
}
