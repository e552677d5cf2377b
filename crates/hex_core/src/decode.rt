//! Decoding by vectors, of a source whose length is twice that of the destination. A short source is
//! held in registers. A longer one is first checked and then read block by block.
//!
//! A vector has `N` lanes. `HALF` is half of `N`, because `N` digits decode to `HALF` bytes. The
//! last block ends with the source and may overlap the block before it. The bytes in the overlap
//! are then read twice, or written twice with the same values.
//!
//! Every function tests all digits before it stores the first byte, unless it requires valid
//! digits. If a digit is invalid, it returns false, and `dst` is unchanged.

ghost use Rattle.std.specs.Prelude.{◌≡◌, ◌↔◌, ◌+◌, ◌-◌, ◌*◌, ◌<◌, ◌≤◌, IsTrue, None, length};
ghost use Rattle.std.specs.Simd.Lanes.{put_chunk};
ghost use Rattle.hex_core.specs.inside.Arithmetic.{packed};
ghost use Rattle.hex_core.specs.inside.Blocks.{DecodesAt, DecodesRange, EndsCover, Halves, HasBlock, HasRoom, NibblesFrom};
ghost use Rattle.hex_core.specs.Calls.{DecodesWhole};
ghost use Rattle.hex_core.specs.Lanes.{AreSmall};
ghost use Rattle.hex_core.specs.Search.{AllValid, first_invalid};
ghost use Rattle.hex_core.specs.Text.{Spells};

use crate::check::check_runs;
use crate::digit::CheckCase;
use crate::lane_probe::check_lanes;
use crate::maps::{Nibbles, Validate};
use crate::rows::Rows;
use crate::vector::{is_small, or, pack_both};
use crate::widths::{Lanes, Pack};
use std::simd::prelude::*;

// Returns the values of the `N` digits from index `at` on, which must be valid.
#[inline(always)]
fn values_at<M: Nibbles<N>, const N: usize>(src: &[u8], at: usize, case: CheckCase) -> Simd<u8, N>
    requires inside { at + N ≤ length src.now }
    requires valid { AllValid case src.now at (at + N) }
    ensures nibbles { NibblesFrom case src.now at N result }
    ensures small { AreSmall result }
{
    M::nibbles(Simd::<u8, N>::from_slice(&src[at..]), case)
}

/// Packs pairs of nibbles into bytes, and writes the bytes to `dst` from index `at` on.
#[inline(always)]
pub fn pack_at<const N: usize, const HALF: usize>(nibbles: Simd<u8, N>, dst: &mut [u8], at: usize)
where
    Lanes: Pack<N, HALF>,
    requires small { AreSmall nibbles }
    requires room { at + HALF ≤ length dst.old }
    ensures { dst.new ≡ put_chunk at dst.old (packed nibbles.entry) }
{
    Lanes::pack(nibbles).copy_to_slice(&mut dst[at..]);
}

/// Packs the nibbles of `front` and then those of `back`, and writes the bytes to `dst` from index
/// `at` on. `case` serves only to read a factor from a table, as `FACTORS` says.
#[inline(always)]
pub fn pack_two_at(front: u8x64, back: u8x64, dst: &mut [u8], at: usize, case: CheckCase)
    requires front { AreSmall front }
    requires back { AreSmall back }
    requires room { at + 64 ≤ length dst.old }
    ensures { dst.new ≡ put_chunk (at + 32) (put_chunk at dst.old (packed front)) (packed back) }
{
    pack_both(front, back, case).copy_to_slice(&mut dst[at..]);
}

// Decodes `N` valid digits from index `2 * at` of `src` on. Writes the bytes to `dst` from index
// `at` on.
#[inline(always)]
fn write_at<M, const N: usize, const HALF: usize>(
    src: &[u8],
    dst: &mut [u8],
    at: usize,
    case: CheckCase,
)
where
    M: Nibbles<N>,
    Lanes: Pack<N, HALF>,
    requires half { N ≡ 2 * HALF }
    requires room { HasRoom at HALF src.now dst.old }
    requires valid { first_invalid case src.now ≡ None }
    ensures { DecodesRange case src.now dst.old dst.new at (at + HALF) }
{
    pack_at(values_at::<M, N>(src, 2 * at, case), dst, at);
}

/// Decodes all of `src` over all of `dst`. `src` has at least one block, and all of its bytes are
/// valid digits.
#[inline(always)]
pub fn write_blocks<M, const N: usize, const HALF: usize>(
    src: &[u8],
    dst: &mut [u8],
    case: CheckCase,
)
where
    M: Nibbles<N>,
    Lanes: Pack<N, HALF>,
    requires sizes { Halves N HALF src.now dst.old }
    requires block { HasBlock N src.now }
    requires valid { first_invalid case src.now ≡ None }
    ensures { Spells case src.now dst.new }
{
    'turns: for i in 0..dst.len() / HALF {
        write_at::<M, N, HALF>(src, dst, i * HALF, case);
    }
    if dst.len() % HALF != 0 {
        let last = dst.len() - HALF;
        write_at::<M, N, HALF>(src, dst, last, case);
    }
}

/// Decodes all of `src`, which has at least one block, over all of `dst`. Returns false and writes
/// nothing if a byte is invalid, because all bytes are checked before the first store.
#[inline(always)]
pub fn decode_or_nothing<M, const N: usize, const HALF: usize>(
    src: &[u8],
    dst: &mut [u8],
    case: CheckCase,
) -> bool
where
    M: Validate<N> + Nibbles<N>,
    Lanes: Pack<N, HALF>,
    requires sizes { Halves N HALF src.now dst.old }
    requires block { HasBlock N src.now }
    ensures { DecodesWhole case src.now dst.old dst.new result }
{
    let valid = check_lanes::<M, N>(src, case);
    if valid {
        write_blocks::<M, N, HALF>(src, dst, case);
    }
    valid
}

// Decodes 128 valid digits from index `2 * at` of `src` on. Writes the bytes to `dst` from index
// `at` on.
#[inline(always)]
fn write_pair<M: Nibbles<64>>(src: &[u8], dst: &mut [u8], at: usize, case: CheckCase)
    requires room { HasRoom at 64 src.now dst.old }
    requires valid { first_invalid case src.now ≡ None }
    ensures { DecodesRange case src.now dst.old dst.new at (at + 64) }
{
    let front = values_at::<M, 64>(src, 2 * at, case);
    let back = values_at::<M, 64>(src, 2 * at + 64, case);
    pack_two_at(front, back, dst, at, case);
}

// Decodes at least 128 valid digits over all of `dst`, 128 digits in each turn of the loop.
#[inline(always)]
fn write_pairs<M: Nibbles<64>>(src: &[u8], dst: &mut [u8], case: CheckCase)
    requires twice { length src.now ≡ 2 * length dst.old }
    requires least { 128 ≤ length src.now }
    requires valid { first_invalid case src.now ≡ None }
    ensures { Spells case src.now dst.new }
{
    'turns: for i in 0..dst.len() / 64 {
        write_pair::<M>(src, dst, i * 64, case);
    }
    let len = dst.len();
    if len % 64 > 32 {
        write_pair::<M>(src, dst, len - 64, case);
    } else if len % 64 != 0 {
        write_at::<M, 64, 32>(src, dst, len - 32, case);
    }
}

/// Decodes all of `src`, which has at least 128 digits, over all of `dst`. Returns false and writes
/// nothing if a byte is invalid, because all bytes are tested before the first store.
#[inline(always)]
pub fn decode_long<M: Rows<64> + Nibbles<64>>(src: &[u8], dst: &mut [u8], case: CheckCase) -> bool
    requires least { 128 ≤ length src.now }
    requires twice { length src.now ≡ 2 * length dst.old }
    ensures { DecodesWhole case src.now dst.old dst.new result }
{
    let valid = check_runs::<M>(src, case);
    if valid {
        write_pairs::<M>(src, dst, case);
    }
    valid
}

/// Decodes `N` to `2 * N` valid digits over all of `dst`, as [`decode_ends`] does, but does not test
/// them.
#[inline(always)]
pub fn write_ends<M, const N: usize, const TWICE: usize, const HALF: usize>(
    src: &[u8],
    dst: &mut [u8],
    case: CheckCase,
)
where
    M: Nibbles<TWICE>,
    Lanes: Pack<TWICE, N>,
    requires lanes { TWICE ≤ 64 }
    requires twice { TWICE ≡ 2 * N }
    requires sizes { Halves N HALF src.now dst.old }
    requires covered { EndsCover N src.now }
    requires valid { first_invalid case src.now ≡ None }
    ensures { Spells case src.now dst.new }
{
    let mut both = [0; TWICE];
    let lanes = &mut both[..];
    Simd::<u8, N>::from_slice(src).copy_to_slice(lanes);
    Simd::<u8, N>::from_slice(&src[src.len() - N..]).copy_to_slice(&mut lanes[N..]);
    let packed = Lanes::pack(M::nibbles(Simd::from_array(both), case)).to_array();
    let bytes = &packed[..];
    let end = dst.len();
    Simd::<u8, HALF>::from_slice(bytes).copy_to_slice(dst);
    Simd::<u8, HALF>::from_slice(&bytes[HALF..]).copy_to_slice(&mut dst[end - HALF..]);
}

/// Decodes 64 to 96 valid digits over all of `dst`. The first vector has 64 digits, and the last one
/// has 32.
#[inline(always)]
pub fn write_front<M: Nibbles<32> + Nibbles<64>>(src: &[u8], dst: &mut [u8], case: CheckCase)
    requires twice { length src.now ≡ 2 * length dst.old }
    requires least { 64 ≤ length src.now }
    requires most { length src.now ≤ 96 }
    requires valid { first_invalid case src.now ≡ None }
    ensures { Spells case src.now dst.new }
{
    let end = dst.len();
    write_at::<M, 64, 32>(src, dst, 0, case);
    write_at::<M, 32, 16>(src, dst, end - 16, case);
}

// Returns the values of the `N` bytes from index `at` on, and a number of at least 16 for each
// invalid byte.
#[inline(always)]
fn nibbles_at<M: Rows<N>, const N: usize>(src: &[u8], at: usize, case: CheckCase) -> Simd<u8, N>
    requires lanes { N ≤ 64 }
    requires inside { at + N ≤ length src.now }
    ensures { NibblesFrom case src.now at N result }
{
    M::values_or_16(Simd::<u8, N>::from_slice(&src[at..]), case)
}

/// Decodes `N` to `2 * N` digits over all of `dst`. It puts the first and the last `N` digits into
/// one vector.
#[inline(always)]
pub fn decode_ends<M, const N: usize, const TWICE: usize, const HALF: usize>(
    src: &[u8],
    dst: &mut [u8],
    case: CheckCase,
) -> bool
where
    M: Rows<TWICE>,
    Lanes: Pack<TWICE, N>,
    requires lanes { TWICE ≤ 64 }
    requires twice { TWICE ≡ 2 * N }
    requires sizes { Halves N HALF src.now dst.old }
    requires covered { EndsCover N src.now }
    ensures { DecodesWhole case src.now dst.old dst.new result }
{
    // The compiler keeps `both` and `packed` in registers.
    let mut both = [0; TWICE];
    let lanes = &mut both[..];
    Simd::<u8, N>::from_slice(src).copy_to_slice(lanes);
    Simd::<u8, N>::from_slice(&src[src.len() - N..]).copy_to_slice(&mut lanes[N..]);
    let nibbles = M::values_or_16(Simd::from_array(both), case);
    if !is_small(nibbles) {
        return false;
    }
    let packed = Lanes::pack(nibbles).to_array();
    let bytes = &packed[..];
    let end = dst.len();
    Simd::<u8, HALF>::from_slice(bytes).copy_to_slice(dst);
    Simd::<u8, HALF>::from_slice(&bytes[HALF..]).copy_to_slice(&mut dst[end - HALF..]);
    true
}

/// Decodes `N` digits over all of `dst`. It stores all bytes at once. After two stores, a caller
/// that loads all bytes right away would have to wait for both.
#[inline(always)]
pub fn decode_one<M, const N: usize, const HALF: usize>(
    src: &[u8],
    dst: &mut [u8],
    case: CheckCase,
) -> bool
where
    M: Rows<N>,
    Lanes: Pack<N, HALF>,
    requires lanes { N ≤ 64 }
    requires sizes { Halves N HALF src.now dst.old }
    requires whole { length src.now ≡ N }
    ensures { DecodesWhole case src.now dst.old dst.new result }
{
    let nibbles = nibbles_at::<M, N>(src, 0, case);
    if !is_small(nibbles) {
        return false;
    }
    pack_at(nibbles, dst, 0);
    true
}

/// Decodes 64 to 128 digits over all of `dst`.
#[inline(always)]
pub fn decode_two<M: Rows<64>>(src: &[u8], dst: &mut [u8], case: CheckCase) -> bool
    requires twice { length src.now ≡ 2 * length dst.old }
    requires covered { EndsCover 64 src.now }
    ensures { DecodesWhole case src.now dst.old dst.new result }
{
    let front = nibbles_at::<M, 64>(src, 0, case);
    let back = nibbles_at::<M, 64>(src, src.len() - 64, case);
    if !is_small(or(front, back)) {
        return false;
    }
    let end = dst.len();
    pack_at(front, dst, 0);
    pack_at(back, dst, end - 32);
    true
}

/// Decodes 128 to 192 digits over all of `dst`.
#[inline(always)]
pub fn decode_three<M: Rows<64>>(src: &[u8], dst: &mut [u8], case: CheckCase) -> bool
    requires twice { length src.now ≡ 2 * length dst.old }
    requires least { 128 ≤ length src.now }
    requires most { length src.now ≤ 192 }
    ensures { DecodesWhole case src.now dst.old dst.new result }
{
    let first = nibbles_at::<M, 64>(src, 0, case);
    let second = nibbles_at::<M, 64>(src, 64, case);
    let last = nibbles_at::<M, 64>(src, src.len() - 64, case);
    if !is_small(or(or(first, second), last)) {
        return false;
    }
    let end = dst.len();
    pack_at(first, dst, 0);
    pack_at(second, dst, 32);
    pack_at(last, dst, end - 32);
    true
}

/// Decodes 128 to 256 digits over all of `dst`.
#[inline(always)]
pub fn decode_four<M: Rows<64>>(src: &[u8], dst: &mut [u8], case: CheckCase) -> bool
    requires twice { length src.now ≡ 2 * length dst.old }
    requires covered { EndsCover 128 src.now }
    ensures { DecodesWhole case src.now dst.old dst.new result }
{
    let len = src.len();
    let first = nibbles_at::<M, 64>(src, 0, case);
    let second = nibbles_at::<M, 64>(src, 64, case);
    let third = nibbles_at::<M, 64>(src, len - 128, case);
    let last = nibbles_at::<M, 64>(src, len - 64, case);
    if !is_small(or(or(first, second), or(third, last))) {
        return false;
    }
    let end = dst.len();
    pack_two_at(first, second, dst, 0, case);
    pack_two_at(third, last, dst, end - 64, case);
    true
}

// Decodes the 256 digits from index `2 * at` of `src` on into the 128 bytes of `dst` from index
// `at` on.
#[inline(always)]
fn decode_part<M: Rows<64>>(src: &[u8], dst: &mut [u8], at: usize, case: CheckCase) -> bool
    requires room { HasRoom at 128 src.now dst.old }
    ensures { DecodesAt case src.now dst.old dst.new at 128 result }
{
    let end = at + 128;
    decode_four::<M>(&src[2 * at..2 * end], &mut dst[at..end], case)
}

/// Decodes 256 to 384 digits over all of `dst`. It tests the last 128 digits and holds their values
/// in registers, while [`decode_four`] decodes the first 256.
#[inline(always)]
pub fn decode_six<M: Rows<64>>(src: &[u8], dst: &mut [u8], case: CheckCase) -> bool
    requires twice { length src.now ≡ 2 * length dst.old }
    requires least { 256 ≤ length src.now }
    requires most { length src.now ≤ 384 }
    ensures { DecodesWhole case src.now dst.old dst.new result }
{
    let len = src.len();
    let end = dst.len();
    let fifth = nibbles_at::<M, 64>(src, len - 128, case);
    let last = nibbles_at::<M, 64>(src, len - 64, case);
    if !is_small(or(fifth, last)) {
        return false;
    }
    if !decode_part::<M>(src, dst, 0, case) {
        return false;
    }
    pack_two_at(fifth, last, dst, end - 64, case);
    true
}

/// Decodes 256 to 512 digits over all of `dst`. It works like [`decode_six`], but holds the values
/// of the last 256 digits.
#[inline(always)]
pub fn decode_eight<M: Rows<64>>(src: &[u8], dst: &mut [u8], case: CheckCase) -> bool
    requires twice { length src.now ≡ 2 * length dst.old }
    requires covered { EndsCover 256 src.now }
    ensures { DecodesWhole case src.now dst.old dst.new result }
{
    let len = src.len();
    let end = dst.len();
    let fifth = nibbles_at::<M, 64>(src, len - 256, case);
    let sixth = nibbles_at::<M, 64>(src, len - 192, case);
    let seventh = nibbles_at::<M, 64>(src, len - 128, case);
    let last = nibbles_at::<M, 64>(src, len - 64, case);
    if !is_small(or(or(fifth, sixth), or(seventh, last))) {
        return false;
    }
    if !decode_part::<M>(src, dst, 0, case) {
        return false;
    }
    pack_two_at(fifth, sixth, dst, end - 128, case);
    pack_two_at(seventh, last, dst, end - 64, case);
    true
}
