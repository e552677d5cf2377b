//! Checks of a source by vectors, for the plan `plain`. A short source is held in registers, as one
//! to eight blocks. A longer one is read in runs of eight blocks. The last block ends with the
//! source and may overlap the block before it.

ghost use Rattle.std.specs.Prelude.{◌≡◌, ◌↔◌, ◌+◌, ◌*◌, ◌<◌, ◌≤◌, IsTrue, None, length};
ghost use Rattle.hex_core.specs.inside.Arithmetic.{AreClear};
ghost use Rattle.hex_core.specs.inside.Blocks.{EndsCover};
ghost use Rattle.hex_core.specs.Search.{AllValid, first_invalid};

use crate::digit::CheckCase;
use crate::digit_lanes::admitted;
use crate::rows::Rows;
use crate::vector::{is_clear, or};
use std::simd::prelude::*;

// The number of bytes in a block.
const BLOCK: usize = 64;

// The number of blocks in the test of one turn. With more blocks, an invalid byte is found later.
const RUN: usize = 8;

/// Returns whether the one byte of `src` is valid under `case`.
#[inline(always)]
pub fn check_one(src: &[u8], case: CheckCase) -> bool
    requires { length src.now ≡ 1 }
    ensures { IsTrue result ↔ (first_invalid case src.now ≡ None) }
{
    admitted(u8x1::from_slice(src), case) == 1
}

/// Returns whether every byte of `src` is valid under `case`. `src` has `N` to `2 * N` bytes.
#[inline(always)]
pub fn check_two<M: Rows<N>, const N: usize>(src: &[u8], case: CheckCase) -> bool
    requires lanes { N ≤ 64 }
    requires covered { EndsCover N src.now }
    ensures { IsTrue result ↔ (first_invalid case src.now ≡ None) }
{
    let front = M::marks(Simd::<u8, N>::from_slice(src), case);
    let back = M::marks(Simd::<u8, N>::from_slice(&src[src.len() - N..]), case);
    is_clear(or(front, back), M::mark_mask(case))
}

/// Returns whether every byte of `src` is valid under `case`. `src` has `2 * N` to `4 * N` bytes.
#[inline(always)]
pub fn check_four<M: Rows<N>, const N: usize>(src: &[u8], case: CheckCase) -> bool
    requires lanes { N ≤ 64 }
    requires covered { EndsCover (2 * N) src.now }
    ensures { IsTrue result ↔ (first_invalid case src.now ≡ None) }
{
    let first = M::marks(Simd::<u8, N>::from_slice(src), case);
    let second = M::marks(Simd::<u8, N>::from_slice(&src[N..]), case);
    let last = M::marks(Simd::<u8, N>::from_slice(&src[src.len() - N..]), case);
    let mut front = or(first, second);
    // With at most 3 * N bytes, the last block begins within the second one or right after it.
    if src.len() > 3 * N {
        let third = Simd::<u8, N>::from_slice(&src[src.len() - 2 * N..]);
        front = or(front, M::marks(third, case));
    }
    is_clear(or(front, last), M::mark_mask(case))
}

// Returns lanes that have no mark exactly if every byte of the `count` blocks from index `at` on is
// valid.
#[inline(always)]
fn marks_at<M: Rows<64>>(src: &[u8], at: usize, count: usize, case: CheckCase) -> u8x64
    requires inside { at + count * 64 ≤ length src.now }
    ensures { AreClear (M.mask case) result ↔ AllValid case src.now at (at + count * 64) }
{
    let mut joined = u8x64::splat(0);
    'turns: for i in 0..count {
        let block = u8x64::from_slice(&src[at + i * BLOCK..]);
        joined = or(joined, M::marks(block, case));
    }
    joined
}

/// Returns whether every byte of `src` is valid under `case`. `src` has 257 to 512 bytes. One test
/// covers all of them, so this function has fewer branches than [`check_runs`].
#[inline(always)]
pub fn check_eight<M: Rows<64>>(src: &[u8], case: CheckCase) -> bool
    requires least { 256 < length src.now }
    requires most { length src.now ≤ 512 }
    ensures { IsTrue result ↔ (first_invalid case src.now ≡ None) }
{
    let len = src.len();
    // At most three blocks lie between the first four and the last one. `% 4` does not change the
    // number, but tells the compiler this limit.
    let middle = (len - 257) / BLOCK % 4;
    let front = or(
        marks_at::<M>(src, 0, 4, case),
        marks_at::<M>(src, 256, middle, case),
    );
    let whole = or(front, marks_at::<M>(src, len - BLOCK, 1, case));
    is_clear(whole, M::mark_mask(case))
}

/// Returns whether every byte of `src` is valid under `case`. `src` has at least one block. The
/// function tests one run of eight blocks after the other, and returns false at the first run with
/// an invalid byte. If all runs are valid, it tests the blocks after them together.
#[inline(always)]
pub fn check_runs<M: Rows<64>>(src: &[u8], case: CheckCase) -> bool
    requires { 64 ≤ length src.now }
    ensures { IsTrue result ↔ (first_invalid case src.now ≡ None) }
{
    let last = src.len() - BLOCK;
    let runs = last / (RUN * BLOCK);
    let mask = M::mark_mask(case);
    'turns: for i in 0..runs {
        let run = marks_at::<M>(src, i * (RUN * BLOCK), RUN, case);
        if !is_clear(run, mask) {
            return false;
        }
    }
    let done = runs * (RUN * BLOCK);
    let front = marks_at::<M>(src, done, (last - done).div_ceil(BLOCK), case);
    let rest = or(front, M::marks(u8x64::from_slice(&src[last..]), case));
    is_clear(rest, mask)
}
