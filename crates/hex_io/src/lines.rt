//! Finds the end of a line.

ghost use Rattle.std.specs.Prelude.{◌≡◌, ◌==◌, ◌+◌, ◌≤◌, length};
ghost use Rattle.std.specs.List.{position_or_len};
ghost use Rattle.std.specs.Simd.Lanes.{chunk};

use std::simd::prelude::*;

// The number of bytes that are tested at once.
const LINE_BLOCK: usize = 32;

/// Returns the index of the first newline of `src`, or the length of `src` if it has none.
pub fn line_end(src: &[u8]) -> usize
    ensures end { result ≡ position_or_len (λ b. b == 10) src.now }
    ensures inside { result ≤ length src.now }
{
    let whole = src.len() / LINE_BLOCK;
    'turns: for i in 0..whole {
        let before = before_newline(src, LINE_BLOCK * i);
        if before < LINE_BLOCK {
            return LINE_BLOCK * i + before;
        }
    }
    let done = LINE_BLOCK * whole;
    let rest = &src[done..];
    done + rest
        .iter()
        .position(|byte| *byte == b'\n')
        .unwrap_or(rest.len())
}

// Returns the number of bytes before the first newline of the block at index `at`. If the block has
// no newline, this is the length of the block.
#[inline(always)]
fn before_newline(src: &[u8], at: usize) -> usize
    requires { at + LINE_BLOCK ≤ length src.now }
    ensures { result ≡ position_or_len (λ b. b == 10) (chunk at LINE_BLOCK src.now) }
{
    let block = u8x32::from_slice(&src[at..]);
    let newlines = block.simd_eq(Simd::splat(b'\n')).to_bitmask();
    if newlines == 0 {
        LINE_BLOCK
    } else {
        newlines.trailing_zeros() as usize
    }
}
