//! The plan `plain`, which functions without a plan parameter use. It holds a short source in
//! registers, and reads a longer one in blocks. Measurements decided which implementation is used
//! for which lengths, and docs/DECISIONS.md has the gains. This file indexes no table in memory by a
//! byte of a source, which may be secret. docs/security.md says what is known of the machine code.
//!
//! A function whose name ends with `_outlined` is a function of its own only for the compilers: its
//! code is too long to be inlined, or its callers would then be too long.

ghost use Rattle.std.specs.Prelude.{◌≡◌, ◌↔◌, ◌*◌, ◌<◌, ◌≤◌, IsTrue, None, length};
ghost use Rattle.hex_core.specs.Calls.{DecodesWhole};
ghost use Rattle.hex_core.specs.Search.{first_invalid};
ghost use Rattle.hex_core.specs.Text.{text};
ghost use Rattle.hex_core.specs.inside.Blocks.{EndsCover};

use crate::check::{check_eight, check_four, check_one, check_runs, check_two};
use crate::decode::{
    decode_eight, decode_ends, decode_four, decode_long, decode_one, decode_six, decode_three,
    decode_two,
};
use crate::digit::CheckCase;
use crate::encode::{
    Halved, Interleaved, Split, encode_at, encode_blocks, encode_four, encode_two,
};
use crate::maps::Nibbles;
use crate::rows::{LongRows, Rows, ShortRows};

/// The plan `plain` decodes at most this many digits inline. It decodes longer sources by a function
/// call.
pub const MOST_INLINE: usize = 192;

/// The vectors of a build. They change only the speed of the plan `plain`.
#[derive(Clone, Copy)]
pub enum Vectors {
    /// Vectors of 16 bytes, as in x86-64-v2 and aarch64.
    Of16,
    /// Vectors of 32 bytes, as in x86-64-v3.
    Of32,
    /// Vectors of 64 bytes, as in x86-64-v4.
    Of64,
    /// Vectors of 64 bytes, and one instruction that looks all of them up in a row of 64 entries, as
    /// in AVX-512 VBMI.
    LookUp64,
}

impl Vectors {
    #[inline(always)]
    fn have_32(self) -> bool {
        !matches!(self, Vectors::Of16)
    }

    #[inline(always)]
    fn have_64(self) -> bool {
        matches!(self, Vectors::Of64 | Vectors::LookUp64)
    }
}

/// Returns whether every byte of `src` is valid under `case`. The map `M` tests sources of 16 bytes or
/// more.
#[inline(always)]
pub fn check_by_length<M: Rows<16> + Rows<32> + Rows<64>>(
    src: &[u8],
    case: CheckCase,
    vectors: Vectors,
) -> bool
    ensures { IsTrue result ↔ (first_invalid case src.now ≡ None) }
{
    // This order was chosen by measurement. Two tests of the length suffice to find the code for 16
    // to 32 bytes, and that for more than 256.
    match src.len() {
        0..=32 => match src.len() {
            0..16 => check_short(src, case),
            _ => check_two::<M, 16>(src, case),
        },
        33..=256 => check_middle::<M>(src, case, vectors),
        _ if vectors.have_64() => check_wide_outlined::<M>(src, case),
        _ => check_long_outlined::<M>(src, case),
    }
}

/// `check_by_length` for a build with [`Vectors::LookUp64`]. If it were marked as inline,
/// `Backend::check` would be too long for the toolchain to inline. So `scripts/library.awk` marks it
/// in the one build that calls it.
pub fn check_by_long_rows(src: &[u8], case: CheckCase) -> bool
    ensures { IsTrue result ↔ (first_invalid case src.now ≡ None) }
{
    check_by_length::<LongRows>(src, case, Vectors::LookUp64)
}

// `check_by_length` for 33 to 256 bytes.
#[inline(always)]
fn check_middle<M: Rows<32> + Rows<64>>(src: &[u8], case: CheckCase, vectors: Vectors) -> bool
    requires few { 32 < length src.now }
    requires most { length src.now ≤ 256 }
    ensures { IsTrue result ↔ (first_invalid case src.now ≡ None) }
{
    match src.len() {
        33..=64 => check_two::<M, 32>(src, case),
        65..=128 if vectors.have_64() => check_two_outlined::<M>(src, case),
        65..=128 => check_four::<M, 32>(src, case),
        _ => check_four::<M, 64>(src, case),
    }
}

// `check_by_length` for 65 to 128 bytes in a build with vectors of 64 bytes. LLVM decides whether to
// inline it. If it were marked as inline, `Backend::check` would be too long for the toolchain to
// inline.
fn check_two_outlined<M: Rows<64>>(src: &[u8], case: CheckCase) -> bool
    requires { EndsCover 64 src.now }
    ensures { IsTrue result ↔ (first_invalid case src.now ≡ None) }
{
    check_two::<M, 64>(src, case)
}

// `check_by_length` for more than 256 bytes, in a build without vectors of 64 bytes. It is not inlined,
// because its loops are too long to be copied into each caller.
#[inline(never)]
fn check_long_outlined<M: Rows<64>>(src: &[u8], case: CheckCase) -> bool
    requires { 256 < length src.now }
    ensures { IsTrue result ↔ (first_invalid case src.now ≡ None) }
{
    check_runs::<M>(src, case)
}

// `check_by_length` for more than 256 bytes in a build with vectors of 64 bytes.
#[inline(never)]
fn check_wide_outlined<M: Rows<64>>(src: &[u8], case: CheckCase) -> bool
    requires { 256 < length src.now }
    ensures { IsTrue result ↔ (first_invalid case src.now ≡ None) }
{
    match src.len() {
        0..=512 => check_eight::<M>(src, case),
        _ => check_runs::<M>(src, case),
    }
}

// `check_by_length` for fewer than 16 bytes.
#[inline(always)]
fn check_short(src: &[u8], case: CheckCase) -> bool
    requires { length src.now < 16 }
    ensures { IsTrue result ↔ (first_invalid case src.now ≡ None) }
{
    match src.len() {
        8..16 => check_two::<ShortRows, 8>(src, case),
        4..8 => check_two::<ShortRows, 4>(src, case),
        2..4 => check_two::<ShortRows, 2>(src, case),
        1 => check_one(src, case),
        _ => true,
    }
}

/// Decodes all of `src` over all of `dst`, by the map `M` from 16 digits on, and returns true. If a byte
/// is invalid, it returns false and writes nothing. Up to [`MOST_INLINE`] digits are decoded inline, so that a
/// length which the caller's compiler knows is not tested at run time.
#[inline(always)]
pub fn decode_by_length<M: Rows<32> + Rows<64> + Nibbles<64>>(
    src: &[u8],
    dst: &mut [u8],
    case: CheckCase,
    vectors: Vectors,
) -> bool
    requires { length src.now ≡ 2 * length dst.old }
    ensures { DecodesWhole case src.now dst.old dst.new result }
{
    match src.len() {
        0..16 => decode_short(src, dst, case),
        16..=32 => match src.len() {
            32 => decode_one::<M, 32, 16>(src, dst, case),
            _ => decode_ends::<M, 16, 32, 8>(src, dst, case),
        },
        33..=64 => decode_ends::<M, 32, 64, 16>(src, dst, case),
        65..=128 => decode_two::<M>(src, dst, case),
        129..=MOST_INLINE => decode_three::<M>(src, dst, case),
        _ if vectors.have_64() => decode_wide_outlined::<M>(src, dst, case),
        _ => decode_many_outlined::<M>(src, dst, case),
    }
}

/// `decode_by_length` for a build with [`Vectors::LookUp64`]. It is marked as inline in that build
/// alone, for the reason given at [`check_by_long_rows`].
pub fn decode_by_long_rows(src: &[u8], dst: &mut [u8], case: CheckCase) -> bool
    requires { length src.now ≡ 2 * length dst.old }
    ensures { DecodesWhole case src.now dst.old dst.new result }
{
    decode_by_length::<LongRows>(src, dst, case, Vectors::LookUp64)
}

// `decode_by_length` for fewer than 16 digits.
#[inline(always)]
fn decode_short(src: &[u8], dst: &mut [u8], case: CheckCase) -> bool
    requires twice { length src.now ≡ 2 * length dst.old }
    requires few { length src.now < 16 }
    ensures { DecodesWhole case src.now dst.old dst.new result }
{
    match src.len() {
        8..16 => decode_ends::<ShortRows, 8, 16, 4>(src, dst, case),
        4..8 => decode_ends::<ShortRows, 4, 8, 2>(src, dst, case),
        2..4 => decode_ends::<ShortRows, 2, 4, 1>(src, dst, case),
        _ => true,
    }
}

// `decode_by_length` for more than `MOST_INLINE` digits, in a build without vectors of 64 bytes. It is
// a function of its own, because `decode_by_length` would not be inlined if it contained these
// implementations.
#[inline(never)]
fn decode_many_outlined<M: Rows<64> + Nibbles<64>>(
    src: &[u8],
    dst: &mut [u8],
    case: CheckCase,
) -> bool
    requires twice { length src.now ≡ 2 * length dst.old }
    requires more { MOST_INLINE < length src.now }
    ensures { DecodesWhole case src.now dst.old dst.new result }
{
    // `decode_many` only asks whether vectors have 64 bytes, so this value serves `Of16` too.
    decode_many::<M>(src, dst, case, Vectors::Of32)
}

// `decode_by_length` for more than `MOST_INLINE` digits in a build with vectors of 64 bytes.
#[inline(never)]
fn decode_wide_outlined<M: Rows<64> + Nibbles<64>>(
    src: &[u8],
    dst: &mut [u8],
    case: CheckCase,
) -> bool
    requires twice { length src.now ≡ 2 * length dst.old }
    requires more { MOST_INLINE < length src.now }
    ensures { DecodesWhole case src.now dst.old dst.new result }
{
    decode_many::<M>(src, dst, case, Vectors::Of64)
}

/// Does the same as [`decode_by_length`] for more than [`MOST_INLINE`] digits, but inline. In a build
/// with vectors of 64 bytes, up to 512 digits are held in registers.
#[inline(always)]
pub fn decode_many<M: Rows<64> + Nibbles<64>>(
    src: &[u8],
    dst: &mut [u8],
    case: CheckCase,
    vectors: Vectors,
) -> bool
    requires twice { length src.now ≡ 2 * length dst.old }
    requires more { MOST_INLINE < length src.now }
    ensures { DecodesWhole case src.now dst.old dst.new result }
{
    match src.len() {
        ..=256 => decode_four::<M>(src, dst, case),
        257..=384 if vectors.have_64() => decode_six::<M>(src, dst, case),
        385..=512 if vectors.have_64() => decode_eight::<M>(src, dst, case),
        _ => decode_long::<M>(src, dst, case),
    }
}

/// Encodes all of `src` over all of `dst`, in uppercase if `upper` is true.
#[inline(always)]
pub fn encode_by_length(src: &[u8], dst: &mut [u8], upper: bool, vectors: Vectors)
    requires { length dst.old ≡ 2 * length src.now }
    ensures { dst.new ≡ text upper src.now }
{
    match src.len() {
        0..=32 => match src.len() {
            32 => encode_at::<Interleaved, 32, 64>(src, dst, 0, upper),
            0..8 => encode_short(src, dst, upper),
            8..=16 => encode_two::<Interleaved, 8, 16>(src, dst, upper),
            _ => encode_two::<Split, 16, 32>(src, dst, upper),
        },
        33..=64 => encode_two::<Interleaved, 32, 64>(src, dst, upper),
        65..=128 if vectors.have_32() => encode_four::<Halved, 32, 64>(src, dst, upper),
        65..=128 => encode_four::<Interleaved, 32, 64>(src, dst, upper),
        _ if vectors.have_32() => encode_blocks::<Halved, 32, 64>(src, dst, upper),
        _ => encode_blocks::<Interleaved, 32, 64>(src, dst, upper),
    }
}

// `encode_by_length` for fewer than 8 bytes.
#[inline(always)]
fn encode_short(src: &[u8], dst: &mut [u8], upper: bool)
    requires twice { length dst.old ≡ 2 * length src.now }
    requires few { length src.now < 8 }
    ensures { dst.new ≡ text upper src.now }
{
    match src.len() {
        4..8 => encode_two::<Interleaved, 4, 8>(src, dst, upper),
        2..4 => encode_two::<Interleaved, 2, 4>(src, dst, upper),
        1 => encode_at::<Interleaved, 1, 2>(src, dst, 0, upper),
        _ => (),
    }
}
