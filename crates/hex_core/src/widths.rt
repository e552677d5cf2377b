//! Operations on vectors that cannot be generic in the number of lanes. The reason is that the
//! indices of a shuffle are literals, and that each width has its own function to make a vector of
//! words from bytes. Each trait here is implemented for the widths that are used.

ghost use Rattle.std.specs.Prelude.{◌≡◌, ◌≤◌, EachIndex, map, slice_index};
ghost use Rattle.std.specs.Simd.Lanes.{chunk};
ghost use Rattle.hex_core.specs.Lanes.{AreSmall};
ghost use Rattle.hex_core.specs.inside.Arithmetic.{interleaved, packed};
ghost use Rattle.hex_core.specs.inside.Hash.{shifted};
ghost use Rattle.hex_core.specs.inside.Tables.{entry, long_entry};

use crate::vector::{and_splat, eighths, pair_bytes};
use std::simd::prelude::*;

/// The type that implements the traits of this module.
pub struct Lanes;

/// Makes one byte of each pair of nibbles. The first nibble is the high half of the byte.
pub trait Pack<const N: usize, const HALF: usize> {
    fn pack(v: Simd<u8, N>) -> Simd<u8, HALF>
        requires { AreSmall v }
        ensures { result ≡ packed v.entry };
}

impl Pack<4, 2> for Lanes {
    #[inline(always)]
    fn pack(v: u8x4) -> u8x2
        requires { AreSmall v }
        ensures { result ≡ packed v }
    {
        pair_bytes(u16x2::from_le_bytes(v))
    }
}

impl Pack<8, 4> for Lanes {
    #[inline(always)]
    fn pack(v: u8x8) -> u8x4
        requires { AreSmall v }
        ensures { result ≡ packed v }
    {
        pair_bytes(u16x4::from_le_bytes(v))
    }
}

impl Pack<16, 8> for Lanes {
    #[inline(always)]
    fn pack(v: u8x16) -> u8x8
        requires { AreSmall v }
        ensures { result ≡ packed v }
    {
        pair_bytes(u16x8::from_le_bytes(v))
    }
}

impl Pack<32, 16> for Lanes {
    #[inline(always)]
    fn pack(v: u8x32) -> u8x16
        requires { AreSmall v }
        ensures { result ≡ packed v }
    {
        pair_bytes(u16x16::from_le_bytes(v))
    }
}

impl Pack<64, 32> for Lanes {
    #[inline(always)]
    fn pack(v: u8x64) -> u8x32
        requires { AreSmall v }
        ensures { result ≡ packed v }
    {
        pair_bytes(u16x32::from_le_bytes(v))
    }
}

/// Interleaves two vectors. The result has the first lane of each, then the second lane of each,
/// and so on.
pub trait Unpack<const N: usize, const TWICE: usize> {
    fn unpack(first: Simd<u8, N>, second: Simd<u8, N>) -> Simd<u8, TWICE>
        ensures { result ≡ interleaved first.entry second.entry };
}

impl Unpack<1, 2> for Lanes {
    #[inline(always)]
    fn unpack(first: u8x1, second: u8x1) -> u8x2
        ensures { result ≡ interleaved first second }
    {
        first.shuffle(second, [0, 1])
    }
}

impl Unpack<2, 4> for Lanes {
    #[inline(always)]
    fn unpack(first: u8x2, second: u8x2) -> u8x4
        ensures { result ≡ interleaved first second }
    {
        first.shuffle(second, [0, 2, 1, 3])
    }
}

impl Unpack<4, 8> for Lanes {
    #[inline(always)]
    fn unpack(first: u8x4, second: u8x4) -> u8x8
        ensures { result ≡ interleaved first second }
    {
        first.shuffle(second, [0, 4, 1, 5, 2, 6, 3, 7])
    }
}

impl Unpack<8, 16> for Lanes {
    #[inline(always)]
    fn unpack(first: u8x8, second: u8x8) -> u8x16
        ensures { result ≡ interleaved first second }
    {
        first.shuffle(
            second,
            [0, 8, 1, 9, 2, 10, 3, 11, 4, 12, 5, 13, 6, 14, 7, 15],
        )
    }
}

impl Unpack<16, 32> for Lanes {
    #[inline(always)]
    fn unpack(first: u8x16, second: u8x16) -> u8x32
        ensures { result ≡ interleaved first second }
    {
        first.shuffle(
            second,
            [
                0, 16, 1, 17, 2, 18, 3, 19, 4, 20, 5, 21, 6, 22, 7, 23, 8, 24, 9, 25, 10, 26, 11,
                27, 12, 28, 13, 29, 14, 30, 15, 31,
            ],
        )
    }
}

impl Unpack<32, 64> for Lanes {
    #[inline(always)]
    fn unpack(first: u8x32, second: u8x32) -> u8x64
        ensures { result ≡ interleaved first second }
    {
        first.shuffle(
            second,
            [
                0, 32, 1, 33, 2, 34, 3, 35, 4, 36, 5, 37, 6, 38, 7, 39, 8, 40, 9, 41, 10, 42, 11,
                43, 12, 44, 13, 45, 14, 46, 15, 47, 16, 48, 17, 49, 18, 50, 19, 51, 20, 52, 21, 53,
                22, 54, 23, 55, 24, 56, 25, 57, 26, 58, 27, 59, 28, 60, 29, 61, 30, 62, 31, 63,
            ],
        )
    }
}

/// Replaces each lane by the entry of `row` at its low four bits, or by 0 if the lane is 128 or
/// more. A vector of fewer than 16 lanes is repeated until it has 16.
pub trait Shuffle<const N: usize> {
    fn shuffle(row: u8x16, at: Simd<u8, N>) -> Simd<u8, N>
        ensures { result ≡ map (entry row) at.entry };
}

impl Shuffle<2> for Lanes {
    #[inline(always)]
    fn shuffle(row: u8x16, at: u8x2) -> u8x2
        ensures { result ≡ map (entry row) at }
    {
        let over = at.swizzle([0, 1, 0, 1, 0, 1, 0, 1, 0, 1, 0, 1, 0, 1, 0, 1]);
        Lanes::shuffle(row, over).extract::<0, 2>()
    }
}

impl Shuffle<4> for Lanes {
    #[inline(always)]
    fn shuffle(row: u8x16, at: u8x4) -> u8x4
        ensures { result ≡ map (entry row) at }
    {
        let over = at.swizzle([0, 1, 2, 3, 0, 1, 2, 3, 0, 1, 2, 3, 0, 1, 2, 3]);
        Lanes::shuffle(row, over).extract::<0, 4>()
    }
}

impl Shuffle<8> for Lanes {
    #[inline(always)]
    fn shuffle(row: u8x16, at: u8x8) -> u8x8
        ensures { result ≡ map (entry row) at }
    {
        let over = at.swizzle([0, 1, 2, 3, 4, 5, 6, 7, 0, 1, 2, 3, 4, 5, 6, 7]);
        Lanes::shuffle(row, over).extract::<0, 8>()
    }
}

impl Shuffle<16> for Lanes {
    #[inline(always)]
    fn shuffle(row: u8x16, at: u8x16) -> u8x16
        ensures { result ≡ map (entry row) at }
    {
        row.swizzle_dyn_within::<16>(and_splat(at, 0x8f))
    }
}

impl Shuffle<32> for Lanes {
    #[inline(always)]
    fn shuffle(row: u8x16, at: u8x32) -> u8x32
        ensures { result ≡ map (entry row) at }
    {
        let rows = row.swizzle([
            0, 1, 2, 3, 4, 5, 6, 7, 8, 9, 10, 11, 12, 13, 14, 15, 0, 1, 2, 3, 4, 5, 6, 7, 8, 9, 10,
            11, 12, 13, 14, 15,
        ]);
        rows.swizzle_dyn_within::<16>(and_splat(at, 0x8f))
    }
}

impl Shuffle<64> for Lanes {
    #[inline(always)]
    fn shuffle(row: u8x16, at: u8x64) -> u8x64
        ensures { result ≡ map (entry row) at }
    {
        let rows = row.swizzle([
            0, 1, 2, 3, 4, 5, 6, 7, 8, 9, 10, 11, 12, 13, 14, 15, 0, 1, 2, 3, 4, 5, 6, 7, 8, 9, 10,
            11, 12, 13, 14, 15, 0, 1, 2, 3, 4, 5, 6, 7, 8, 9, 10, 11, 12, 13, 14, 15, 0, 1, 2, 3,
            4, 5, 6, 7, 8, 9, 10, 11, 12, 13, 14, 15,
        ]);
        rows.swizzle_dyn_within::<16>(and_splat(at, 0x8f))
    }
}

// Puts the lanes of a vector before lanes that are 0. The compiler keeps `lanes` in registers.
#[inline(always)]
fn widened<const N: usize>(v: Simd<u8, N>) -> u8x64
    requires { N ≤ 64 }
    ensures { chunk 0 N result ≡ v.entry }
{
    let mut lanes = [0; 64];
    v.copy_to_slice(&mut lanes[..]);
    u8x64::from_array(lanes)
}

// Returns the first `N` lanes.
#[inline(always)]
fn narrowed<const N: usize>(v: u8x64) -> Simd<u8, N>
    requires { N ≤ 64 }
    ensures { result ≡ chunk 0 N v }
{
    Simd::from_slice(&v.to_array()[..])
}

#[inline(always)]
fn look_up_32(row: u8x16, at: u8x32) -> u8x32
    ensures { result ≡ map (entry row) at }
{
    let front = Lanes::shuffle(row, at.extract::<0, 16>());
    let back = Lanes::shuffle(row, at.extract::<16, 16>());
    front.shuffle(
        back,
        [
            0, 1, 2, 3, 4, 5, 6, 7, 8, 9, 10, 11, 12, 13, 14, 15, 16, 17, 18, 19, 20, 21, 22, 23,
            24, 25, 26, 27, 28, 29, 30, 31,
        ],
    )
}

#[inline(always)]
fn look_up_64(row: u8x16, at: u8x64) -> u8x64
    ensures { result ≡ map (entry row) at }
{
    let front = look_up_32(row, at.extract::<0, 32>());
    let back = look_up_32(row, at.extract::<32, 32>());
    front.shuffle(
        back,
        [
            0, 1, 2, 3, 4, 5, 6, 7, 8, 9, 10, 11, 12, 13, 14, 15, 16, 17, 18, 19, 20, 21, 22, 23,
            24, 25, 26, 27, 28, 29, 30, 31, 32, 33, 34, 35, 36, 37, 38, 39, 40, 41, 42, 43, 44, 45,
            46, 47, 48, 49, 50, 51, 52, 53, 54, 55, 56, 57, 58, 59, 60, 61, 62, 63,
        ],
    )
}

/// Looks up as [`Shuffle`] does, but in parts of 16 lanes. The instruction for a look-up
/// ignores the bits that [`Shuffle`] clears by `and_splat`. The compiler notices this only for
/// vectors that take one register in every build, and then leaves the `and_splat` out.
///
/// LLVM decides whether to inline this function, and it does. If it were marked as inline,
/// `Backend::check` would be too long for the toolchain to inline.
pub fn look_up<const N: usize>(row: u8x16, at: Simd<u8, N>) -> Simd<u8, N>
    requires { N ≤ 64 }
    ensures { result ≡ map (entry row) at.entry }
{
    narrowed(look_up_64(row, widened(at)))
}

// In the build for AVX-512 VBMI, `scripts/library.awk` replaces this body by the one instruction that
// does the same.
fn look_up_row_of_64(row: u8x64, at: u8x64) -> u8x64
    ensures { result ≡ map (long_entry row) at }
{
    row.swizzle_dyn(and_splat(at, 0x3f))
}

/// Replaces each lane by the entry of `row` at its low six bits. This function is not marked as
/// inline, for the reason given at [`look_up`].
pub fn look_up_long<const N: usize>(row: u8x64, at: Simd<u8, N>) -> Simd<u8, N>
    requires { N ≤ 64 }
    ensures { result ≡ map (long_entry row) at.entry }
{
    narrowed(look_up_row_of_64(row, widened(at)))
}

/// Shifts every four lanes right by three bits, as one word. The low three bits of the next lane of
/// the word come in at the top of a lane.
pub trait Shift<const N: usize> {
    fn shift(v: Simd<u8, N>) -> Simd<u8, N>
        ensures { EachIndex v.entry (λ i. slice_index result i ≡ shifted v.entry i) };
}

impl Shift<32> for Lanes {
    #[inline(always)]
    fn shift(v: u8x32) -> u8x32
        ensures { EachIndex v (λ i. slice_index result i ≡ shifted v i) }
    {
        eighths(u32x8::from_le_bytes(v)).to_le_bytes()
    }
}

impl Shift<64> for Lanes {
    #[inline(always)]
    fn shift(v: u8x64) -> u8x64
        ensures { EachIndex v (λ i. slice_index result i ≡ shifted v i) }
    {
        eighths(u32x16::from_le_bytes(v)).to_le_bytes()
    }
}
