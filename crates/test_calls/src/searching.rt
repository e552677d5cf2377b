//! The values of bytes, the list of plans, and the search for the first invalid byte, with the number of its steps.

use crate::ends;
use crate::slices::{POLICIES, plans};
use hex_core::CheckCase::{self, Lower, None as Either, Upper};
use hex_core::{Probe, SliceProbe, backends, covered, digit_value, locate};
use test_kit::model::first_invalid;
use test_kit::seen::{Given, Seen};
use test_kit::source::{first, joined, with};

// The ranges of the digits of a policy: the first digit, the last one, and the value of the first.
fn ranges(case: CheckCase) -> [(u8, u8, u8); 3] {
    let (lower, upper) = ((b'a', b'f', 10), (b'A', b'F', 10));
    match case {
        Either => [(b'0', b'9', 0), lower, upper],
        Lower => [(b'0', b'9', 0), lower, lower],
        Upper => [(b'0', b'9', 0), upper, upper],
    }
}

#[test]
fn each_byte_has_its_value_or_none(rt: HostRuntime) {
    let mut seen = Seen::new();
    for case in POLICIES {
        for byte in 0..=255 {
            let mut want = None;
            for (low, high, value) in ranges(case) {
                if low <= byte && byte <= high {
                    want = Some(usize::from(value.wrapping_add(byte - low)));
                }
            }
            seen.tries();
            let got = digit_value(byte, case).map(usize::from);
            seen.finds(Given::new(case, 0, &[byte]), "digit_value", got, want);
        }
    }
    ends(&rt, seen.ended(768));
}

#[test]
fn the_plans_are_listed_in_their_order(rt: HostRuntime) {
    for (plan, name) in backends()
        .into_iter()
        .zip(["scalar", "sse41", "avx2", "avx512", "neon"])
    {
        assert_eq!(rt; plan.name(), name);
    }
    assert_eq!(rt; backends().len(), 5);
}

// The searches of a test.
#[derive(Drop)]
struct Searches {
    seen: Seen,
}

impl Searches {
    fn new() -> Searches {
        Searches { seen: Seen::new() }
    }

    // Tries the search by each plan: the place that it finds, and then how many blocks it tests and how many bytes it
    // looks at.
    fn finds(&mut self, case: CheckCase, src: &[u8], place: Option<usize>, steps: (usize, usize)) {
        self.seen.tries();
        let (tests, looks) = steps;
        for plan in plans() {
            let given = Given::new(case, 0, src).by(plan.name());
            let mut probe = SliceProbe::new(plan, src, case);
            self.seen.finds(given, "locate", locate(&mut probe), place);
            self.seen.is(given, "tests of locate", probe.tests(), tests);
            self.seen.is(given, "looks of locate", probe.looks(), looks);
            let found = plan.first_invalid(src, case);
            self.seen.finds(given, "first_invalid", found, place);
        }
    }

    // Tries whether each plan covers a source by `tests` tests of blocks, without looking at a byte.
    fn covers(&mut self, src: &[u8], tests: usize) {
        self.seen.tries();
        let place = first_invalid(src, Either);
        for plan in plans() {
            let given = Given::new(Either, 0, src).by(plan.name());
            let mut probe = SliceProbe::new(plan, src, Either);
            let is_covered = src.len() >= 64 && covered(&mut probe);
            self.seen.is(given, "covered", is_covered, place.is_none());
            let found = plan.first_invalid(src, Either);
            self.seen.finds(given, "first_invalid", found, place);
            self.seen
                .is(given, "tests of covered", probe.tests(), tests);
            self.seen.is(given, "looks of covered", probe.looks(), 0);
        }
    }
}

#[test]
fn the_search_takes_few_steps(rt: HostRuntime) {
    let mut searches = Searches::new();
    let zeros = [b'0'; 8_192];
    for case in POLICIES {
        searches.finds(case, &[], None, (0, 0));
        searches.finds(case, first(&with(zeros, 0, b'!'), 64), Some(0), (0, 1));
        searches.finds(case, first(&with(zeros, 63, b'!'), 64), Some(63), (0, 64));
        searches.finds(case, first(&zeros, 65), None, (1, 1));
        searches.finds(case, first(&with(zeros, 64, b'!'), 65), Some(64), (1, 1));
        searches.finds(case, first(&zeros, 128), None, (2, 0));
        searches.finds(case, first(&with(zeros, 63, b'!'), 128), Some(63), (1, 64));
        searches.finds(case, first(&with(zeros, 129, b'!'), 130), Some(129), (2, 2));
        let two = with(with(zeros, 65, b'!'), 8_191, 0xff);
        searches.finds(case, &two, Some(65), (2, 2));
    }
    ends(&rt, searches.seen.ended(27));
}

// In a source of at most 64 bytes the search looks at each byte up to the invalid one. In a longer one it tests blocks
// of 64 bytes, and looks at the bytes of the first block that fails, or behind all blocks.
#[test]
fn the_search_tests_blocks(rt: HostRuntime) {
    let mut searches = Searches::new();
    let (zeros, mut src) = ([b'0'; 256], [0; 321]);
    for case in POLICIES {
        for len in 0..256 {
            let (tests, looks) = if len <= 64 {
                (0, len)
            } else {
                (len / 64, len % 64)
            };
            searches.finds(case, first(&zeros, len), None, (tests, looks));
            let is_short = len < 64;
            let behind = first(&zeros, if is_short { 0 } else { 64 });
            let refused = joined(&[first(&zeros, len), b"g", behind], &mut src);
            let tests = if is_short { 0 } else { len / 64 + 1 };
            searches.finds(case, refused, Some(len), (tests, len % 64 + 1));
        }
    }
    ends(&rt, searches.seen.ended(1_536));
}

#[test]
fn a_source_is_covered_by_blocks(rt: HostRuntime) {
    let mut searches = Searches::new();
    let zeros = [b'0'; 256];
    for (len, tests) in [(64, 1), (65, 2), (130, 3)] {
        searches.covers(first(&zeros, len), tests);
    }
    for (before, len, tests) in [(0, 130, 1), (64, 130, 2), (129, 130, 3)] {
        searches.covers(first(&with(zeros, before, b'!'), len), tests);
    }
    for more in 0..64 {
        searches.covers(first(&zeros, 65 + more), 2);
        searches.covers(first(&with(zeros, more, b'!'), more + 130), 1);
    }
    ends(&rt, searches.seen.ended(134));
}
