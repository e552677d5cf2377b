//! Encoding by vectors: ways to encode the lanes of one vector, and functions that encode a whole
//! source by one of them. The last block ends with the source and may overlap the block before it.
#![tactic(auto, using(crate::proofs::ByteLemmas::bytes))]

ghost use Rattle.std.specs.Prelude.{◌≡◌, ◌+◌, ◌*◌, ◌<◌, ◌≤◌, ℕ, length, slice_index};
ghost use Rattle.std.specs.Simd.Lanes.{chunk, put_chunk};
ghost use Rattle.hex_core.specs.inside.Blocks.{EndsCover, HasBlock};
ghost use Rattle.hex_core.specs.Digit.{digit};
ghost use Rattle.hex_core.specs.Text.{text};

use crate::vector::{and_splat, both_nibbles, high_bits};
use crate::widths::{Lanes, Shuffle, Unpack};
use std::simd::prelude::*;

// Returns the sixteen digits, in the order of their values.
#[inline(always)]
fn digits(upper: bool) -> u8x16
    ensures { (n : ℕ) → n < 16 → slice_index result n ≡ digit upper n }
{
    // The compiler loads a slice at once, but an array byte by byte.
    u8x16::from_slice(match upper {
        true => b"0123456789ABCDEF",
        false => b"0123456789abcdef",
    })
}

/// A way to encode the bytes in the lanes of a vector.
pub trait Encode<const N: usize, const TWICE: usize> {
    fn encoded(v: Simd<u8, N>, upper: bool) -> Simd<u8, TWICE>
        ensures { result ≡ text upper v.entry };

    /// Encodes the bytes in the lanes of `v`, and writes the digits to `dst` from index `at` on. A way
    /// of encoding may choose in which order it stores the halves.
    fn write(v: Simd<u8, N>, dst: &mut [u8], at: usize, upper: bool)
        requires { at + TWICE ≤ length dst.old }
        ensures { dst.new ≡ put_chunk at dst.old (text upper v.entry) };
}

/// Encodes by interleaving the high and the low nibbles, for any number of lanes.
pub struct Interleaved;

impl<const N: usize, const TWICE: usize> Encode<N, TWICE> for Interleaved
where
    Lanes: Unpack<N, TWICE> + Shuffle<TWICE>,
{
    #[inline(always)]
    fn encoded(v: Simd<u8, N>, upper: bool) -> Simd<u8, TWICE>
        ensures { result ≡ text upper v.entry }
    {
        Lanes::shuffle(
            digits(upper),
            Lanes::unpack(high_bits(v), and_splat(v, 0x0f)),
        )
    }

    #[inline(always)]
    fn write(v: Simd<u8, N>, dst: &mut [u8], at: usize, upper: bool)
        requires { at + TWICE ≤ length dst.old }
        ensures { dst.new ≡ put_chunk at dst.old (text upper v.entry) }
    {
        Interleaved::encoded(v, upper).copy_to_slice(&mut dst[at..]);
    }
}

/// Encodes 32 lanes by interleaving within the halves of a vector. This is faster only in builds
/// whose vectors have at least 32 bytes.
pub struct Halved;

impl Encode<32, 64> for Halved {
    #[inline(always)]
    fn encoded(v: u8x32, upper: bool) -> u8x64
        ensures { result ≡ text upper v }
    {
        Lanes::shuffle(digits(upper), both_nibbles(v))
    }

    // Without this body, the compiler would store the second half of a vector before the first one.
    // Then a text that exceeds the first-level cache and is not aligned to 64 bytes would take up to
    // half as long again.
    #[inline(always)]
    fn write(v: u8x32, dst: &mut [u8], at: usize, upper: bool)
        requires { at + 64 ≤ length dst.old }
        ensures { dst.new ≡ put_chunk at dst.old (text upper v) }
    {
        let text = Halved::encoded(v, upper).to_array();
        let digits = &text[..];
        u8x32::from_slice(digits).copy_to_slice(&mut dst[at..]);
        u8x32::from_slice(&digits[32..]).copy_to_slice(&mut dst[at + 32..]);
    }
}

/// Encodes 16 lanes by looking both nibbles up before it interleaves them. Each half of the text is
/// stored by itself, so no build uses a vector of 32 bytes for it.
pub struct Split;

// LLVM decides whether to inline these functions, and it does. If they were marked as inline,
// `encode_by_length` would be too long for the toolchain to inline.
impl Encode<16, 32> for Split {
    fn encoded(v: u8x16, upper: bool) -> u8x32
        ensures { result ≡ text upper v }
    {
        let digits = digits(upper);
        let high = Lanes::shuffle(digits, high_bits(v));
        let low = Lanes::shuffle(digits, and_splat(v, 0x0f));
        Lanes::unpack(high, low)
    }

    fn write(v: u8x16, dst: &mut [u8], at: usize, upper: bool)
        requires { at + 32 ≤ length dst.old }
        ensures { dst.new ≡ put_chunk at dst.old (text upper v) }
    {
        let text = Split::encoded(v, upper).to_array();
        let digits = &text[..];
        u8x16::from_slice(digits).copy_to_slice(&mut dst[at..]);
        u8x16::from_slice(&digits[16..]).copy_to_slice(&mut dst[at + 16..]);
    }
}

/// Encodes the `N` bytes from index `at` of `src` on. Writes the digits to `dst` from index
/// `2 * at` on.
#[inline(always)]
pub fn encode_at<E, const N: usize, const TWICE: usize>(
    src: &[u8],
    dst: &mut [u8],
    at: usize,
    upper: bool,
)
where
    E: Encode<N, TWICE>,
    requires lanes { TWICE ≡ 2 * N }
    requires source { at + N ≤ length src.now }
    requires room { 2 * at + TWICE ≤ length dst.old }
    ensures { dst.new ≡ put_chunk (2 * at) dst.old (text upper (chunk at N src.now)) }
{
    let text = E::encoded(Simd::<u8, N>::from_slice(&src[at..]), upper);
    text.copy_to_slice(&mut dst[2 * at..]);
}

/// Encodes all of `src`, which has at least one block, over all of `dst`.
#[inline(always)]
pub fn encode_blocks<E, const N: usize, const TWICE: usize>(src: &[u8], dst: &mut [u8], upper: bool)
where
    E: Encode<N, TWICE>,
    requires lanes { TWICE ≡ 2 * N }
    requires twice { length dst.old ≡ 2 * length src.now }
    requires block { HasBlock N src.now }
    ensures { dst.new ≡ text upper src.now }
{
    'turns: for i in 0..src.len() / N {
        let at = i * N;
        E::write(Simd::<u8, N>::from_slice(&src[at..]), dst, 2 * at, upper);
    }
    if src.len() % N != 0 {
        encode_at::<E, N, TWICE>(src, dst, src.len() - N, upper);
    }
}

/// Encodes `N` to `2 * N` bytes over all of `dst`.
#[inline(always)]
pub fn encode_two<E, const N: usize, const TWICE: usize>(src: &[u8], dst: &mut [u8], upper: bool)
where
    E: Encode<N, TWICE>,
    requires lanes { TWICE ≡ 2 * N }
    requires twice { length dst.old ≡ 2 * length src.now }
    requires covered { EndsCover N src.now }
    ensures { dst.new ≡ text upper src.now }
{
    let at = src.len() - N;
    E::write(Simd::<u8, N>::from_slice(src), dst, 0, upper);
    E::write(Simd::<u8, N>::from_slice(&src[at..]), dst, 2 * at, upper);
}

/// Encodes `2 * N` to `4 * N` bytes over all of `dst`.
#[inline(always)]
pub fn encode_four<E, const N: usize, const TWICE: usize>(src: &[u8], dst: &mut [u8], upper: bool)
where
    E: Encode<N, TWICE>,
    requires lanes { TWICE ≡ 2 * N }
    requires twice { length dst.old ≡ 2 * length src.now }
    requires covered { EndsCover (2 * N) src.now }
    ensures { dst.new ≡ text upper src.now }
{
    let len = src.len();
    encode_at::<E, N, TWICE>(src, dst, 0, upper);
    encode_at::<E, N, TWICE>(src, dst, N, upper);
    // With at most 3 * N bytes, the last block begins within the second one or right after it.
    if len > 3 * N {
        encode_at::<E, N, TWICE>(src, dst, len - 2 * N, upper);
    }
    encode_at::<E, N, TWICE>(src, dst, len - N, upper);
}
