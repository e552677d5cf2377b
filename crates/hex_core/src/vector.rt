//! Operations on vectors. Each function does the same in all lanes, and most of them take any
//! number of lanes.
#![tactic(auto, using(crate::proofs::LaneLemmas::lanes))]

ghost use Rattle.std.specs.Prelude.{◌≡◌, ◌↔◌, ◌-◌, ◌/◌, ◌^◌, ◌≤◌, ◌<◌, ◌==◌, ◌*◌, ◌%◌, ◌++◌, IsTrue, min, map, bit_and, bit_or, bit_xor, ℕ, List, length};
ghost use Rattle.std.specs.Simd.Lanes.{Each1, digits_l, mask_l, number_l, zip2};
ghost use Rattle.hex_core.specs.inside.Arithmetic.{AreClear, AreUnsigned, AreZero, interleaved, packed, saturating_add, wrapping_sub};
ghost use Rattle.hex_core.specs.inside.Hash.{average};
ghost use Rattle.hex_core.specs.Lanes.{AreSmall};

use crate::digit::CheckCase;
use std::simd::prelude::*;

/// Subtracts `by` from each lane, modulo 256.
#[inline(always)]
pub fn wrapping_sub<const N: usize>(v: Simd<u8, N>, by: u8) -> Simd<u8, N>
    ensures { result ≡ map (λ x. wrapping_sub x by) v.entry }
{
    v - Simd::splat(by)
}

/// Subtracts `by` from each lane, but not below 0.
#[inline(always)]
pub fn saturating_sub<const N: usize>(v: Simd<u8, N>, by: u8) -> Simd<u8, N>
    ensures { result ≡ map (λ x. x - by) v.entry }
{
    v.saturating_sub(Simd::splat(by))
}

/// Adds `by` to each lane, but not above 255. The compiler makes one instruction of this form, but
/// three of the method `saturating_add` of a vector.
#[inline(always)]
pub fn saturating_add<const N: usize>(v: Simd<u8, N>, by: u8) -> Simd<u8, N>
    ensures { result ≡ map (λ x. saturating_add x by) v.entry }
{
    v.simd_min(Simd::splat(255 - by)) + Simd::splat(by)
}

/// Clears all bits of each lane except those of `mask`.
#[inline(always)]
pub fn and_splat<const N: usize>(v: Simd<u8, N>, mask: u8) -> Simd<u8, N>
    ensures { result ≡ map (λ x. bit_and x mask) v.entry }
{
    v & Simd::splat(mask)
}

/// Returns the high four bits of each lane, as a number below 16.
#[inline(always)]
pub fn high_bits<const N: usize>(v: Simd<u8, N>) -> Simd<u8, N>
    ensures { result ≡ map (λ x. x / 16) v.entry }
{
    v >> Simd::splat(4)
}

/// Returns the smaller of the two lanes at each index.
#[inline(always)]
pub fn min<const N: usize>(a: Simd<u8, N>, b: Simd<u8, N>) -> Simd<u8, N>
    ensures { result ≡ zip2 min a.entry b.entry }
{
    a.simd_min(b)
}

/// Returns the bits that either of the two lanes at each index has. All results are below 16 exactly
/// if the lanes of both vectors are. The same holds for having no bit of a mask. So one test covers
/// two vectors.
#[inline(always)]
pub fn or<const N: usize>(a: Simd<u8, N>, b: Simd<u8, N>) -> Simd<u8, N>
    ensures lanes { result ≡ zip2 bit_or a.entry b.entry }
    ensures small { AreSmall result ↔ (AreSmall a.entry × AreSmall b.entry) }
    ensures clear { (mask : ℕ)
        → AreClear mask result ↔ (AreClear mask a.entry × AreClear mask b.entry) }
{
    a | b
}

/// Returns a mask whose bit i is set exactly if lane i is 0.
#[inline(always)]
pub fn zero_bits<const N: usize>(v: Simd<u8, N>) -> u64
    requires { N ≤ 64 }
    ensures { result ≡ mask_l (map (λ x. x == 0) v.entry) }
{
    v.simd_eq(Simd::splat(0)).to_bitmask()
}

/// Returns whether every lane is 0. The compiler makes one test of this form, even if the vector
/// takes several registers.
#[inline(always)]
pub fn is_zero<const N: usize>(v: Simd<u8, N>) -> bool
    ensures { IsTrue result ↔ AreZero v.entry }
{
    v.reduce_or() == 0
}

/// Returns whether every lane is below 128, which means that no lane has its sign bit. One
/// instruction reads the sign bits of a register.
#[inline(always)]
pub fn has_no_sign<const N: usize>(v: Simd<u8, N>) -> bool
    requires { N ≤ 64 }
    ensures { IsTrue result ↔ AreUnsigned v.entry }
{
    v.simd_ge(Simd::splat(0x80)).to_bitmask() == 0
}

/// Returns whether no lane has a bit of `mask`.
#[inline(always)]
pub fn is_clear<const N: usize>(v: Simd<u8, N>, mask: u8) -> bool
    ensures { IsTrue result ↔ AreClear mask v.entry }
{
    is_zero(and_splat(v, mask))
}

/// Returns whether every lane is below 16.
#[inline(always)]
pub fn is_small<const N: usize>(v: Simd<u8, N>) -> bool
    ensures { IsTrue result ↔ AreSmall v.entry }
{
    is_zero(and_splat(v, 0xf0))
}

// A word of two nibbles, multiplied by this number, gives the byte of both nibbles as the high byte
// of the product.
const FACTOR: u16 = 4097;

// Each policy has the same factor. It is read from a table so that the compiler multiplies by it.
// If the compiler knew the number, it would shift and add instead, which takes longer in the
// decoding of long sources. The last entry, which no policy has, keeps the compiler from knowing
// that all entries are the same.
static FACTORS: [u16; 4] = [FACTOR, FACTOR, FACTOR, 0];

#[inline(always)]
fn factor(case: CheckCase) -> u16
    ensures { result ≡ 4097 }
{
    FACTORS[case as u8 as usize]
}

/// Returns the byte of each word of two nibbles. The low byte of the word is the high nibble.
#[inline(always)]
pub fn pair_bytes<const N: usize>(v: Simd<u16, N>) -> Simd<u8, N>
    ensures { (nibbles : List ℕ) → length nibbles ≡ 2 * N → AreSmall nibbles
        → v.entry ≡ digits_l 65536 N (number_l 256 nibbles) → result ≡ packed nibbles }
{
    ((v * Simd::splat(FACTOR)) >> Simd::splat(8)).cast::<u8>()
}

/// Multiplies each word of two nibbles by 4097, modulo 65536. The high byte of the product is the
/// byte of both nibbles.
#[inline(always)]
pub fn products<const N: usize>(v: Simd<u16, N>, case: CheckCase) -> Simd<u16, N>
    ensures { result ≡ map (λ w. w * 4097 % 65536) v.entry }
{
    v * Simd::splat(factor(case))
}

/// Returns the bytes of the nibbles of `front`, and then those of `back`. One shuffle takes the
/// bytes from both products, which costs AVX-512 three moves of lanes. Packing one vector after the
/// other would cost four.
#[inline(always)]
pub fn pack_both(front: u8x64, back: u8x64, case: CheckCase) -> u8x64
    requires front { AreSmall front }
    requires back { AreSmall back }
    ensures { result ≡ packed front ++ packed back }
{
    let front = products(u16x32::from_le_bytes(front), case).to_le_bytes();
    let back = products(u16x32::from_le_bytes(back), case).to_le_bytes();
    front.shuffle(
        back,
        [
            1, 3, 5, 7, 9, 11, 13, 15, 17, 19, 21, 23, 25, 27, 29, 31, 33, 35, 37, 39, 41, 43, 45,
            47, 49, 51, 53, 55, 57, 59, 61, 63, 65, 67, 69, 71, 73, 75, 77, 79, 81, 83, 85, 87, 89,
            91, 93, 95, 97, 99, 101, 103, 105, 107, 109, 111, 113, 115, 117, 119, 121, 123, 125,
            127,
        ],
    )
}

/// Returns both nibbles of each lane, the high one first. AVX2 interleaves only within the halves
/// of a vector. So the middle quarters are swapped first. The low quarters of both halves then have
/// the lanes that go to the first half of the result, and the high quarters have those that go to
/// the second half.
#[inline(always)]
pub fn both_nibbles(v: u8x32) -> u8x64
    ensures { result ≡ interleaved (map (λ x. x / 16) v) (map (λ x. bit_and x 15) v) }
{
    let v = v.swizzle([
        0, 1, 2, 3, 4, 5, 6, 7, 16, 17, 18, 19, 20, 21, 22, 23, 8, 9, 10, 11, 12, 13, 14, 15, 24,
        25, 26, 27, 28, 29, 30, 31,
    ]);
    high_bits(v).shuffle(
        and_splat(v, 0x0f),
        [
            0, 32, 1, 33, 2, 34, 3, 35, 4, 36, 5, 37, 6, 38, 7, 39, 16, 48, 17, 49, 18, 50, 19, 51,
            20, 52, 21, 53, 22, 54, 23, 55, 8, 40, 9, 41, 10, 42, 11, 43, 12, 44, 13, 45, 14, 46,
            15, 47, 24, 56, 25, 57, 26, 58, 27, 59, 28, 60, 29, 61, 30, 62, 31, 63,
        ],
    )
}

/// Flips the sign bit of each lane. Signed bytes become unsigned bytes in the same order, and the
/// other way round.
#[inline(always)]
pub fn sign_flipped<const N: usize>(v: Simd<u8, N>) -> Simd<u8, N>
    ensures { result ≡ map (λ x. bit_xor x 128) v.entry }
{
    xor_splat(v, 0x80)
}

/// Flips the bits of `mask` in each lane.
#[inline(always)]
pub fn xor_splat<const N: usize>(v: Simd<u8, N>, mask: u8) -> Simd<u8, N>
    ensures { result ≡ map (λ x. bit_xor x mask) v.entry }
{
    v ^ Simd::splat(mask)
}

/// Returns the bits in which the two lanes at each index differ.
#[inline(always)]
pub fn xor<const N: usize>(a: Simd<u8, N>, b: Simd<u8, N>) -> Simd<u8, N>
    ensures { result ≡ zip2 bit_xor a.entry b.entry }
{
    a ^ b
}

/// Subtracts each lane of `b` from the lane of `a`, modulo 256.
#[inline(always)]
pub fn differences<const N: usize>(a: Simd<u8, N>, b: Simd<u8, N>) -> Simd<u8, N>
    ensures { result ≡ zip2 wrapping_sub a.entry b.entry }
{
    a - b
}

/// Subtracts each lane of `b` from that of `a`, but not below 0.
#[inline(always)]
pub fn saturating_differences<const N: usize>(a: Simd<u8, N>, b: Simd<u8, N>) -> Simd<u8, N>
    ensures { result ≡ zip2 (λ x y. x - y) a.entry b.entry }
{
    a.saturating_sub(b)
}

/// Returns the average of the two lanes at each index, rounded up.
#[inline(always)]
pub fn rounding_averages<const N: usize>(a: Simd<u8, N>, b: Simd<u8, N>) -> Simd<u8, N>
    ensures { result ≡ zip2 average a.entry b.entry }
{
    let sums = a.cast::<u16>() + b.cast::<u16>() + Simd::splat(1);
    (sums >> Simd::splat(1)).cast::<u8>()
}

/// Shifts each word right by three bits.
#[inline(always)]
pub fn eighths<const N: usize>(v: Simd<u32, N>) -> Simd<u32, N>
    ensures lanes { result ≡ map (λ x. x / 8) v.entry }
    ensures words { Each1 (λ x. x < 2 ^ 32) result }
{
    v >> Simd::splat(3)
}
