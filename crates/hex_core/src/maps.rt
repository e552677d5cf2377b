//! The maps of the named plans. A map says of each lane which value it has and whether it is valid.
#![tactic(auto, using(crate::proofs::ByteLemmas::bytes))]

ghost use Rattle.std.specs.Prelude.{◌↔◌, IsTrue};
ghost use Rattle.hex_core.specs.Lanes.{AreValues};
ghost use Rattle.hex_core.specs.Search.{AllValid};

use crate::digit::CheckCase;
use crate::digit_lanes::{hashed_checks, hashed_values, saturated};
use crate::lanes::admitted_16;
use crate::vector::has_no_sign;
use crate::widths::{Lanes, Shift, Shuffle};
use std::simd::prelude::*;

/// A map that replaces the digit in each lane by its value. The result for an invalid lane is
/// unspecified.
pub trait Nibbles<const N: usize> {
    fn nibbles(v: Simd<u8, N>, case: CheckCase) -> Simd<u8, N>
        ensures { AreValues case v.entry result };
}

/// The test of a map, which says whether every byte of a block is valid.
pub trait Validate<const N: usize> {
    fn is_valid(block: Simd<u8, N>, case: CheckCase) -> bool
        ensures { IsTrue result ↔ AllValid case block.entry 0 N };
}

/// The map that uses saturating sums and differences. It takes any number of lanes.
pub struct Saturating;

impl<const N: usize> Nibbles<N> for Saturating {
    #[inline(always)]
    fn nibbles(v: Simd<u8, N>, case: CheckCase) -> Simd<u8, N>
        ensures { AreValues case v.entry result }
    {
        saturated(v, case)
    }
}

impl Validate<16> for Saturating {
    #[inline(always)]
    fn is_valid(block: u8x16, case: CheckCase) -> bool
        ensures { IsTrue result ↔ AllValid case block 0 16 }
    {
        admitted_16(&block.to_array(), case) == u16::MAX
    }
}

/// The map that uses a hash. The hash of a byte selects an entry of a row of 16, which says what to
/// subtract from the byte.
pub struct Hashed;

impl<const N: usize> Nibbles<N> for Hashed
where
    Lanes: Shuffle<N> + Shift<N>,
{
    #[inline(always)]
    fn nibbles(v: Simd<u8, N>, _case: CheckCase) -> Simd<u8, N>
        ensures { AreValues _case v.entry result }
    {
        hashed_values(v)
    }
}

impl Validate<32> for Hashed {
    #[inline(always)]
    fn is_valid(block: u8x32, case: CheckCase) -> bool
        ensures { IsTrue result ↔ AllValid case block 0 32 }
    {
        has_no_sign(hashed_checks(block, case))
    }
}

impl Validate<64> for Hashed {
    #[inline(always)]
    fn is_valid(block: u8x64, case: CheckCase) -> bool
        ensures { IsTrue result ↔ AllValid case block 0 64 }
    {
        has_no_sign(hashed_checks(block, case))
    }
}
