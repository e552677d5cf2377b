//! The plans. The plan and the length of the source decide which implementation a call uses.

ghost use Rattle.std.specs.Prelude.{◌≡◌, ◌↔◌, ◌*◌, ◌<◌, ◌≤◌, IsTrue, None, codes, length, map};
ghost use Rattle.hex_core.specs.Calls.{DecodesOwned, DecodesWhole};
ghost use Rattle.hex_core.specs.Plans.{name_of, owned_block, plan_names};
ghost use Rattle.hex_core.specs.Search.{first_invalid};
ghost use Rattle.hex_core.specs.Text.{Spells, text};
ghost use Rattle.hex_core.specs.inside.Blocks.{DecodesAt, HasRoom};

use crate::decode::{decode_or_nothing, write_blocks, write_ends, write_front};
use crate::digit::CheckCase;
use crate::encode::{Interleaved, encode_blocks};
use crate::lane_probe::check_lanes;
use crate::look_ups::{check_by_look_up, decode_by_look_up, encode_by_look_up};
use crate::maps::{Hashed, Saturating};
use crate::plain::{
    MOST_INLINE, Vectors, check_by_length, check_by_long_rows, decode_by_length,
    decode_by_long_rows, decode_many, encode_by_length,
};
use crate::rows::{LongRows, ShortRows};

/// The name of a plan, which selects the implementations.
#[derive(Clone, Copy)]
pub enum Kind {
    Scalar,
    Sse41,
    Avx2,
    Avx512,
    Neon,
    /// The plan `plain` in a build with these vectors.
    Plain(Vectors),
}

/// A plan is one implementation of the functions that check, encode and decode.
///
/// All plans return the same results and write the same bytes. The only exception is
/// [`Backend::decode_owned`]. If it returns false, the plan decides which bytes were written.
#[derive(Clone, Copy)]
pub struct Backend(Kind);

/// Returns five plans in this order: `scalar`, `sse41`, `avx2`, `avx512`, `neon`. Each of them
/// works on every machine, because the plans are written with portable vectors. So the name of a
/// plan does not say which instructions run.
///
/// ```rust
/// let [scalar, ..] = backends();
/// assert_eq!(rt; scalar.name(), "scalar");
/// ```
pub fn backends() -> [Backend; 5]
    ensures names { map name_of result ≡ plan_names }
{
    [
        Backend(Kind::Scalar),
        Backend(Kind::Sse41),
        Backend(Kind::Avx2),
        Backend(Kind::Avx512),
        Backend(Kind::Neon),
    ]
}

impl Backend {
    /// Returns the plan that functions without a plan parameter use, such as `hex_decode`. Its name
    /// is `plain`, and [`backends`] does not list it. It has an implementation for each range of
    /// lengths, which was chosen by measurement.
    ///
    /// ```rust
    /// assert!(rt; Backend::plain().check(b"00aBc", CheckCase::None));
    /// ```
    #[inline(always)]
    pub fn plain() -> Backend
        ensures name { name_of result ≡ codes "plain" }
    {
        Backend::plain_for(Vectors::Of16)
    }

    /// Returns [`Backend::plain`] for a build with these vectors, which change only the speed. The
    /// plan has some implementations that are faster with wider vectors, and slower in other builds.
    ///
    /// ```rust
    /// let mut bytes = [0; 256];
    /// let plan = Backend::plain_for(Vectors::Of64);
    /// assert!(rt; plan.decode(&[b'a'; 512], &mut bytes, CheckCase::None));
    /// assert_eq!(rt; bytes, [0xaa; 256]);
    /// ```
    #[inline(always)]
    pub fn plain_for(vectors: Vectors) -> Backend
        ensures name { name_of result ≡ codes "plain" }
    {
        Backend(Kind::Plain(vectors))
    }

    /// Returns the name of the plan: `scalar`, `sse41`, `avx2`, `avx512`, `neon` or `plain`.
    ///
    /// ```rust
    /// let [_, _, avx2, ..] = backends();
    /// assert_eq!(rt; avx2.name(), "avx2");
    /// ```
    pub fn name(self) -> &'static str
        ensures name { result.now ≡ name_of self }
    {
        match self.0 {
            Kind::Scalar => "scalar",
            Kind::Sse41 => "sse41",
            Kind::Avx2 => "avx2",
            Kind::Avx512 => "avx512",
            Kind::Neon => "neon",
            Kind::Plain(_) => "plain",
        }
    }

    /// Returns whether every byte of `src` is valid under `case`. Any length is accepted, odd or
    /// even, and an empty `src` is valid.
    ///
    /// ```rust
    /// assert!(rt; Backend::plain().check(b"00aBc", CheckCase::None));
    /// assert!(rt; !Backend::plain().check(b"00aBc", CheckCase::Lower));
    /// ```
    #[inline(always)]
    pub fn check(self, src: &[u8], case: CheckCase) -> bool
        ensures valid { IsTrue result ↔ (first_invalid case src.now ≡ None) }
    {
        match (self.0, src.len()) {
            (Kind::Plain(Vectors::LookUp64), _) => check_by_long_rows(src, case),
            (Kind::Plain(vectors), _) => check_by_length::<ShortRows>(src, case, vectors),
            (Kind::Scalar, _) | (_, 0..16) => check_by_look_up(src, case),
            (Kind::Sse41 | Kind::Neon, _) | (_, 16..32) => check_lanes::<Saturating, 16>(src, case),
            (Kind::Avx2, _) | (_, 32..64) => check_lanes::<Hashed, 32>(src, case),
            (Kind::Avx512, _) => check_lanes::<Hashed, 64>(src, case),
        }
    }

    /// Encodes all of `src` over all of `dst`. The letters are uppercase if `upper` is true, and
    /// lowercase otherwise.
    ///
    /// Requires `dst` to be exactly twice as long as `src`, in bytes.
    ///
    /// ```rust
    /// let mut digits = [0; 4];
    /// Backend::plain().encode(&[0, 0xab], &mut digits, true);
    /// assert_eq!(rt; &digits, b"00AB");
    /// ```
    #[inline(always)]
    pub fn encode(self, src: &[u8], dst: &mut [u8], upper: bool)
        requires { length dst.old ≡ 2 * length src.now }
        ensures text { dst.new ≡ text upper src.now }
    {
        match self.0 {
            Kind::Plain(vectors) => encode_by_length(src, dst, upper, vectors),
            _ => self.encode_outlined(src, dst, upper),
        }
    }

    // Does the same as `encode` for all plans except `plain`. It is a function of its own for the
    // reason given at `decode_outlined`.
    #[inline(never)]
    fn encode_outlined(self, src: &[u8], dst: &mut [u8], upper: bool)
        requires { length dst.old ≡ 2 * length src.now }
        ensures { dst.new ≡ text upper src.now }
    {
        match (self.0, src.len()) {
            (Kind::Scalar, _) | (_, 0..8) => encode_by_look_up(src, dst, upper),
            (_, 8..16) => encode_blocks::<Interleaved, 8, 16>(src, dst, upper),
            (Kind::Sse41 | Kind::Neon, _) | (_, 16..32) => encode_blocks::<Interleaved, 16, 32>(
                src, dst, upper,
            ),
            _ => encode_blocks::<Interleaved, 32, 64>(src, dst, upper),
        }
    }

    /// Decodes `src` over all of `dst`, and returns whether every byte of `src` is valid under
    /// `case`. If it returns false, `dst` is unchanged.
    ///
    /// Requires `src` to be exactly twice as long as `dst`, in bytes.
    ///
    /// ```rust
    /// let mut bytes = [0xa5; 2];
    /// assert!(rt; !Backend::plain().decode(b"00ag", &mut bytes, CheckCase::None));
    /// assert_eq!(rt; bytes, [0xa5; 2]);
    /// assert!(rt; Backend::plain().decode(b"00ab", &mut bytes, CheckCase::None));
    /// assert_eq!(rt; bytes, [0, 0xab]);
    /// ```
    #[inline(always)]
    pub fn decode(self, src: &[u8], dst: &mut [u8], case: CheckCase) -> bool
        requires { length src.now ≡ 2 * length dst.old }
        ensures answer { DecodesWhole case src.now dst.old dst.new result }
    {
        match self.0 {
            Kind::Plain(Vectors::LookUp64) => decode_by_long_rows(src, dst, case),
            Kind::Plain(vectors) => decode_by_length::<ShortRows>(src, dst, case, vectors),
            _ => self.decode_outlined(src, dst, case),
        }
    }

    /// Decodes the digits of `src`, which must all be valid under `case`, over all of `dst`. The
    /// plan `plain` does not test them, so it is faster here than in [`Backend::decode`].
    ///
    /// Requires `src` to be exactly twice as long as `dst`, in bytes.
    ///
    /// ```rust
    /// let mut bytes = [0; 2];
    /// Backend::plain().decode_valid(b"00aB", &mut bytes, CheckCase::None);
    /// assert_eq!(rt; bytes, [0, 0xab]);
    /// ```
    #[inline(always)]
    pub fn decode_valid(self, src: &[u8], dst: &mut [u8], case: CheckCase)
        requires twice { length src.now ≡ 2 * length dst.old }
        requires valid { first_invalid case src.now ≡ None }
        ensures digits { Spells case src.now dst.new }
    {
        match (self.0, src.len()) {
            (Kind::Plain(Vectors::LookUp64), 65..) => write_blocks::<LongRows, 64, 32>(
                src, dst, case,
            ),
            (Kind::Plain(Vectors::LookUp64), 32..=64) => write_ends::<LongRows, 32, 64, 16>(
                src, dst, case,
            ),
            (Kind::Plain(_), 97..) => write_blocks::<ShortRows, 64, 32>(src, dst, case),
            (Kind::Plain(_), 65..=96) => write_front::<ShortRows>(src, dst, case),
            (Kind::Plain(_), 32..=64) => write_ends::<ShortRows, 32, 64, 16>(src, dst, case),
            (Kind::Plain(_), 16..32) => write_ends::<ShortRows, 16, 32, 8>(src, dst, case),
            (Kind::Plain(_), 8..16) => write_ends::<ShortRows, 8, 16, 4>(src, dst, case),
            (Kind::Plain(_), 4..8) => write_ends::<ShortRows, 4, 8, 2>(src, dst, case),
            (Kind::Plain(_), 2..4) => write_ends::<ShortRows, 2, 4, 1>(src, dst, case),
            (Kind::Plain(_), _) => (),
            _ => {
                self.decode_outlined(src, dst, case);
            }
        }
    }

    // Does the same as `decode` for more than `MOST_INLINE` digits. Its code is inline if the plan is `plain`,
    // so a caller that is not inlined itself saves a call.
    #[inline(always)]
    pub(crate) fn decode_many(self, src: &[u8], dst: &mut [u8], case: CheckCase) -> bool
        requires twice { length src.now ≡ 2 * length dst.old }
        requires more { MOST_INLINE < length src.now }
        ensures { DecodesWhole case src.now dst.old dst.new result }
    {
        match self.0 {
            Kind::Plain(Vectors::LookUp64) => decode_many::<LongRows>(
                src,
                dst,
                case,
                Vectors::LookUp64,
            ),
            Kind::Plain(vectors) => decode_many::<ShortRows>(src, dst, case, vectors),
            _ => self.decode_outlined(src, dst, case),
        }
    }

    // Does the same as `decode` for all plans except `plain`. It is a function of its own, because
    // `decode` would not be inlined if it contained the implementations of these plans.
    #[inline(never)]
    fn decode_outlined(self, src: &[u8], dst: &mut [u8], case: CheckCase) -> bool
        requires { length src.now ≡ 2 * length dst.old }
        ensures { DecodesWhole case src.now dst.old dst.new result }
    {
        match (self.0, src.len()) {
            (Kind::Scalar, _) | (_, 0..16) => decode_by_look_up(src, dst, case),
            (Kind::Sse41 | Kind::Neon, _) | (_, 16..32) => decode_or_nothing::<Saturating, 16, 8>(
                src, dst, case,
            ),
            (Kind::Avx512, 64..) => decode_or_nothing::<Hashed, 64, 32>(src, dst, case),
            _ => decode_or_nothing::<Hashed, 32, 16>(src, dst, case),
        }
    }

    /// Decodes `src` over all of `dst`, and returns whether every byte of `src` is valid under
    /// `case`. If the result is false, `dst` may be partly written, so use this function only for a
    /// buffer that you then discard.
    ///
    /// The plans `avx2` and `neon` read `src` in blocks of 64 digits, and `avx512` and `plain` read
    /// it in blocks of 128. What is left after the last whole block is read as one shorter block.
    /// If the result is false, these plans have written the bytes of all blocks before the block
    /// with the first invalid byte. The other bytes of `dst` are unchanged. The plans `scalar` and
    /// `sse41` have then written nothing.
    ///
    /// Requires `src` to be exactly twice as long as `dst`, in bytes.
    ///
    /// ```rust
    /// let [scalar, _, avx2, ..] = backends();
    /// let mut source = [b'1'; 128];
    /// source[64] = b'g';
    /// let mut bytes = [0xa5; 64];
    /// assert!(rt; !scalar.decode_owned(&source, &mut bytes, CheckCase::None));
    /// assert_eq!(rt; bytes, [0xa5; 64]);
    /// assert!(rt; !avx2.decode_owned(&source, &mut bytes, CheckCase::None));
    /// assert_eq!(rt; (bytes[31], bytes[32]), (0x11, 0xa5));
    /// ```
    #[inline(never)]
    pub fn decode_owned(self, src: &[u8], dst: &mut [u8], case: CheckCase) -> bool
        requires { length src.now ≡ 2 * length dst.old }
        ensures answer { DecodesOwned (owned_block (name_of self)) case src.now dst.old dst.new
            result }
    {
        match self.0 {
            Kind::Scalar | Kind::Sse41 => self.decode(src, dst, case),
            // Each arm names its plan, so that the compiler knows the plan in the loop over the
            // blocks.
            Kind::Avx2 => Backend(Kind::Avx2).decode_each_block::<32>(src, dst, case),
            Kind::Neon => Backend(Kind::Neon).decode_each_block::<32>(src, dst, case),
            Kind::Avx512 => Backend(Kind::Avx512).decode_each_block::<64>(src, dst, case),
            _ => Backend::plain().decode_each_block::<64>(src, dst, case),
        }
    }

    // Decodes `2 * size` digits into the `size` bytes of `dst` from index `at` on. Returns false
    // and writes nothing if one of these digits is invalid.
    #[tactic(auto, using(crate::proofs::OwnedLemmas::part_decodes))]
    #[inline(always)]
    fn decode_at(self, src: &[u8], dst: &mut [u8], at: usize, size: usize, case: CheckCase) -> bool
        requires room { HasRoom at size src.now dst.old }
        ensures { DecodesAt case src.now dst.old dst.new at size result }
    {
        let end = at + size;
        self.decode(&src[2 * at..2 * end], &mut dst[at..end], case)
    }

    // Decodes `src` over all of `dst` in blocks that decode to `SIZE` bytes. Returns false at the first
    // block with an invalid byte. The bytes of the blocks before that block are then written already.
    #[inline(always)]
    fn decode_each_block<const SIZE: usize>(
        self,
        src: &[u8],
        dst: &mut [u8],
        case: CheckCase,
    ) -> bool
        requires some { 1 ≤ SIZE }
        requires twice { length src.now ≡ 2 * length dst.old }
        ensures { DecodesOwned (2 * SIZE) case src.now dst.old dst.new result }
    {
        let blocks = dst.len() / SIZE;
        'turns: for i in 0..blocks {
            if !self.decode_at(src, dst, i * SIZE, SIZE, case) {
                return false;
            }
        }
        let done = blocks * SIZE;
        self.decode_at(src, dst, done, dst.len() - done, case)
    }
}
