//! Checks by vectors, for the named plans. They use a probe that tests all bytes of a block at once.

ghost use Rattle.std.specs.Prelude.{◌≡◌, ◌↔◌, ◌+◌, ◌<◌, IsTrue, None};
ghost use Rattle.hex_core.specs.Search.{first_invalid};
ghost use Rattle.hex_core.specs.inside.Blocks.{HasBlock};

use crate::digit::CheckCase;
use crate::look_ups::check_by_look_up;
use crate::maps::Validate;
use crate::search::{Probe, covered};
use std::marker::PhantomData;
use std::simd::prelude::*;

// A probe over a slice. It tests a whole block of `N` bytes by the map `M`, and any other range by
// a table.
#[derive(Drop)]
struct LaneProbe<'a, M, const N: usize> {
    src: &'a [u8],
    case: CheckCase,
    looks: usize,
    tests: usize,
    map: PhantomData<M>,
}

impl<'a, M, const N: usize> Probe for LaneProbe<'a, M, N>
where
    M: Validate<N>,
{
    ghost state = { λ p. record { source = p.src.now; policy = p.case; block = N; looks = p.looks; tests = p.tests } };

    fn len(&self) -> usize {
        self.src.len()
    }

    fn case(&self) -> CheckCase {
        self.case
    }

    fn block(&self) -> usize {
        N
    }

    fn looks(&self) -> usize {
        self.looks
    }

    fn tests(&self) -> usize {
        self.tests
    }

    fn look(&mut self, i: usize) -> u8 {
        self.looks += 1;
        self.src[i]
    }

    #[inline(always)]
    fn test(&mut self, start: usize, width: usize) -> bool {
        self.tests += 1;
        let src = self.src;
        if width == N {
            M::is_valid(Simd::<u8, N>::from_slice(&src[start..]), self.case)
        } else {
            check_by_look_up(&src[start..start + width], self.case)
        }
    }
}

/// Returns whether every byte of `src` is valid under `case`. `src` has at least one block of `N`
/// bytes.
#[inline(never)]
pub fn check_lanes<M, const N: usize>(src: &[u8], case: CheckCase) -> bool
where
    M: Validate<N>,
    requires { HasBlock N src.now }
    ensures { IsTrue result ↔ (first_invalid case src.now ≡ None) }
{
    covered(&mut LaneProbe::<M, N> {
        src,
        case,
        looks: 0,
        tests: 0,
        map: PhantomData,
    })
}
