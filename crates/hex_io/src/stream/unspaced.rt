//! Copies bytes without their white space.

ghost use Rattle.std.specs.Prelude.{◌≡◌, ◌+◌, ◌*◌, ◌≤◌, length, take};
ghost use Rattle.std.specs.Simd.Lanes.{chunk, put_chunk};
ghost use Rattle.hex_codec.specs.Spaced.{unspaced};
ghost use Rattle.hex_io.specs.inside.{HasCopied};

use std::simd::prelude::*;

// The number of bytes that are tested at once, and that are copied at once.
const LANES: usize = 32;

/// Copies the bytes of `src` that are not white space to the start of `block`. Returns their
/// number.
pub fn copy_unspaced(src: &[u8], block: &mut [u8]) -> usize
    requires { length src.now ≤ length block.old }
    ensures copied { take result block.new ≡ unspaced src.now }
    ensures room { result ≤ length block.new }
{
    let mut count = 0;
    // `copy_runs` copies whole vectors, so it reads up to `LANES` bytes after those of its turn. After
    // the last whole block these may be missing, so `copy_each` copies that block.
    let blocks = (src.len() / LANES).saturating_sub(1);
    'turns: for i in 0..blocks {
        count = copy_runs(src, LANES * i, block, count);
    }
    copy_each(src, LANES * blocks, block, count)
}

// Does the same as `copy_unspaced` for the `LANES` bytes from index `start` on, and puts them behind
// the `had` bytes in `block`. A run ends at each byte that may be white space. If this byte is not
// white space, it is copied with the run.
#[inline(always)]
fn copy_runs(src: &[u8], start: usize, block: &mut [u8], had: usize) -> usize
    requires near { start + 2 * LANES ≤ length src.now }
    requires room { length src.now ≤ length block.old }
    requires before { HasCopied src.now start block.old had }
    ensures { HasCopied src.now (start + LANES) block.new result }
{
    let end = start + LANES;
    let mut at = start;
    let mut count = had;
    // Bit i is set exactly if lane i is at most a space, as all white space is.
    let lanes = u8x32::from_slice(&src[start..]);
    let mut marks = lanes.simd_le(Simd::splat(b' ')).to_bitmask();
    'runs: while marks != 0 {
        let run = marks.trailing_zeros() as usize;
        copy_lanes(src, at, block, count);
        let is_solid = !src[at + run].is_ascii_whitespace();
        at += run + 1;
        count += run + usize::from(is_solid);
        marks >>= run + 1;
    }
    copy_lanes(src, at, block, count);
    count + (end - at)
}

// Copies a whole vector, even if a run is only its first part. The next copy overwrites the rest.
#[inline(always)]
fn copy_lanes(src: &[u8], at: usize, block: &mut [u8], count: usize)
    requires src { at + LANES ≤ length src.now }
    requires block { count + LANES ≤ length block.old }
    ensures { block.new ≡ put_chunk count block.old (chunk at LANES src.now) }
{
    u8x32::from_slice(&src[at..]).copy_to_slice(&mut block[count..]);
}

// Does the same as `copy_unspaced` for the bytes from index `at` on, one after the other.
fn copy_each(src: &[u8], at: usize, block: &mut [u8], had: usize) -> usize
    requires at { at ≤ length src.now }
    requires room { length src.now ≤ length block.old }
    requires before { HasCopied src.now at block.old had }
    ensures { HasCopied src.now (length src.now) block.new result }
{
    let mut count = had;
    for i in at..src.len() {
        block[count] = src[i];
        count += usize::from(!src[i].is_ascii_whitespace());
    }
    count
}
