//! A probe over a slice.

ghost use Rattle.std.specs.Prelude.{◌≡◌};
ghost use Rattle.hex_core.specs.Probe.{fresh_probe};

use crate::backend::Backend;
use crate::digit::CheckCase;
use crate::search::{Probe, SEARCH_BLOCK};

/// A probe whose source is a slice. Its test of a range is the [`Backend::check`] of a plan.
///
/// Its block is 64 bytes.
///
/// ```rust
/// let [scalar, ..] = backends();
/// let probe = SliceProbe::new(scalar, b"00ff0g", CheckCase::None);
/// assert_eq!(rt; (probe.len(), probe.block()), (6, 64));
/// ```
#[derive(Drop)]
pub struct SliceProbe<'a> {
    backend: Backend,
    src: &'a [u8],
    case: CheckCase,
    looks: usize,
    tests: usize,
}

impl<'a> SliceProbe<'a> {
    /// Returns a probe with the source `src` and the policy `case`, which tests by `backend`. Its
    /// numbers of looks and of tests are 0.
    ///
    /// ```rust
    /// let [scalar, ..] = backends();
    /// let mut probe = SliceProbe::new(scalar, b"00ff0g", CheckCase::None);
    /// assert_eq!(rt; locate(&mut probe), Some(5));
    /// ```
    pub fn new(backend: Backend, src: &'a [u8], case: CheckCase) -> Self
        ensures fresh { ⟦<SliceProbe<'a> as Probe>⟧.state result ≡ fresh_probe src.now case 64 }
    {
        SliceProbe {
            backend,
            src,
            case,
            looks: 0,
            tests: 0,
        }
    }
}

impl<'a> Probe for SliceProbe<'a> {
    ghost state = { λ p. record { source = p.src.now; policy = p.case; block = 64; looks = p.looks; tests = p.tests } };

    fn len(&self) -> usize {
        self.src.len()
    }

    fn case(&self) -> CheckCase {
        self.case
    }

    fn block(&self) -> usize {
        SEARCH_BLOCK
    }

    fn looks(&self) -> usize {
        self.looks
    }

    fn tests(&self) -> usize {
        self.tests
    }

    #[inline(always)]
    fn look(&mut self, i: usize) -> u8 {
        self.looks += 1;
        self.src[i]
    }

    #[inline(always)]
    fn test(&mut self, start: usize, width: usize) -> bool {
        self.tests += 1;
        let part = &self.src[start..start + width];
        self.backend.check(part, self.case)
    }
}
