//! Probes, and the search for the first invalid byte of a probe. A probe counts how it is read, so
//! the contract of the search can say how many steps it takes.

ghost use Rattle.std.specs.Prelude.{◌≡◌, None, ◌+◌, ◌*◌, ◌/◌, ◌^◌, ◌<◌, ◌≤◌, ◌↔◌, IsTrue, length, slice_index};
ghost use Rattle.hex_core.specs.Probe.{Adds, ProbeState, ValidIn, covering_in, invalid_in, steps_in};
ghost use Rattle.hex_core.specs.inside.Looks.{looks_from};

use crate::digit::CheckCase;
use crate::tables::has_value;

/// The number of bytes in each test that `locate` makes.
pub const SEARCH_BLOCK: usize = 64;

/// A probe is a source with a policy. Its bytes can be read only by `look`, which returns one byte,
/// and by `test`, which says whether a range of bytes is valid.
///
/// The probe counts the calls of both. Each of them adds one to its own count and changes nothing
/// else. The source, the policy and the block, which is the width of the widest test, never change.
///
/// ```rust
/// let [scalar, ..] = backends();
/// let mut probe = SliceProbe::new(scalar, b"00ff0g", CheckCase::None);
/// assert_eq!(rt; probe.look(5), b'g');
/// assert_eq!(rt; probe.test(0, 5), true);
/// assert_eq!(rt; (probe.looks(), probe.tests()), (1, 1));
/// ```
pub trait Probe {
    // The source, the policy and the block of the probe, and its numbers of looks and of tests.
    ghost state: { Self → ProbeState };

    /// Returns the length of the source, in bytes.
    fn len(&self) -> usize
        ensures value { result ≡ length (state self.now).source };

    /// Returns the policy that decides which bytes are valid.
    fn case(&self) -> CheckCase
        ensures value { result ≡ (state self.now).policy };

    /// Returns the block, which is the width of the widest test, in bytes.
    fn block(&self) -> usize
        ensures value { result ≡ (state self.now).block };

    /// Returns the number of looks made so far.
    fn looks(&self) -> usize
        ensures value { result ≡ (state self.now).looks };

    /// Returns the number of tests made so far.
    fn tests(&self) -> usize
        ensures value { result ≡ (state self.now).tests };

    /// Returns the byte at index `i` of the source, and adds one to the number of looks.
    ///
    /// Requires `i` to be below the length of the source, and the number of looks to be below
    /// `usize::MAX`.
    fn look(&mut self, i: usize) -> u8
        requires inside { i < length (state self.old).source }
        requires countable { (state self.old).looks < usize.MAX }
        ensures byte { result ≡ slice_index (state self.old).source i }
        ensures counted { Adds 1 0 (state self.old) (state self.new) };

    /// Returns whether every byte in the range `start..start + width` is valid, and adds one to the
    /// number of tests.
    ///
    /// Requires the range to lie inside the source, `width` to be at most the block, and the number
    /// of tests to be below `usize::MAX`.
    fn test(&mut self, start: usize, width: usize) -> bool
        requires inside { start + width ≤ length (state self.old).source }
        requires narrow { width ≤ (state self.old).block }
        requires countable { (state self.old).tests < usize.MAX }
        ensures valid { IsTrue result ↔ ValidIn (state self.old) start (start + width) }
        ensures counted { Adds 0 1 (state self.old) (state self.new) };
}

// Tests the whole blocks in order, until one fails. Returns the start of that block, or the end of
// the last whole block if none fails. The search looks at single bytes from this index on.
#[inline(always)]
fn test_blocks<P: Probe>(p: &mut P) -> usize
    requires long { 64 < length (P.state p.old).source }
    requires block { (P.state p.old).block ≡ 64 }
    requires countable { (P.state p.old).tests + length (P.state p.old).source < 2 ^ 64 }
    ensures valid { ValidIn (P.state p.old) 0 result }
    ensures start { result ≡ looks_from (P.state p.old) }
    ensures counted { Adds 0 (steps_in (P.state p.old)).tests (P.state p.old) (P.state p.new) }
{
    let whole = p.len() / SEARCH_BLOCK;
    for block in 0..whole {
        if !p.test(SEARCH_BLOCK * block, SEARCH_BLOCK) {
            return SEARCH_BLOCK * block;
        }
    }
    SEARCH_BLOCK * whole
}

// Looks at each byte from `start` on, up to the first invalid one, and returns its index. It makes
// at most 64 looks, because one of the next 64 bytes is invalid, or the source ends within them.
#[inline(always)]
fn look_from<P: Probe>(p: &mut P, start: usize) -> Option<usize>
    requires valid { ValidIn (P.state p.old) 0 start }
    requires start { start ≡ looks_from (P.state p.old) }
    requires countable { (P.state p.old).looks + 64 < 2 ^ 64 }
    ensures place { result ≡ invalid_in (P.state p.old) }
    ensures counted { Adds (steps_in (P.state p.old)).looks 0 (P.state p.old) (P.state p.new) }
{
    let case = p.case();
    for i in start..p.len() {
        if !has_value(p.look(i), case) {
            return Some(i);
        }
    }
    None
}

/// Returns the index of the first byte that is invalid under the policy, or `None` if all bytes are
/// valid.
///
/// If the source has at most 64 bytes, it looks at each byte from index 0 on. Otherwise it tests
/// whole blocks of 64 bytes in order until one fails, and then looks at each byte from the start of
/// that block on, or from the end of the last whole block if all of them passed. It ends at the
/// first invalid byte, so it makes at most `len / 64` tests and at most 64 looks.
///
/// Requires the block to be 64. The number of tests plus the length of the source must fit `usize`,
/// and so must the number of looks plus 64.
///
/// ```rust
/// let [scalar, ..] = backends();
/// let mut probe = SliceProbe::new(scalar, b"00ff0g", CheckCase::None);
/// assert_eq!(rt; locate(&mut probe), Some(5));
/// assert_eq!(rt; (probe.tests(), probe.looks()), (0, 6));
/// ```
#[inline(always)]
pub fn locate<P: Probe>(p: &mut P) -> Option<usize>
    requires block { (P.state p.old).block ≡ 64 }
    requires tests { (P.state p.old).tests + length (P.state p.old).source < 2 ^ 64 }
    requires looks { (P.state p.old).looks + 64 < 2 ^ 64 }
    ensures place { result ≡ invalid_in (P.state p.old) }
    ensures counted { Adds (steps_in (P.state p.old)).looks (steps_in (P.state p.old)).tests
        (P.state p.old) (P.state p.new) }
    ensures few_tests { (P.state p.new).tests
        ≤ (P.state p.old).tests + length (P.state p.old).source / 64 }
    ensures few_looks { (P.state p.new).looks ≤ (P.state p.old).looks + 64 }
{
    // A source of at most one block is short enough to look at each byte.
    let long = p.len() > SEARCH_BLOCK;
    let start = if long { test_blocks(p) } else { 0 };
    look_from(p, start)
}

/// Returns whether every byte of the source is valid under the policy. It makes only tests, and no
/// look.
///
/// It tests one block after the other until one fails. If the length is not a multiple of the
/// block, a last block ends with the source and overlaps the block before it. If all bytes are
/// valid, the number of tests is the length divided by the block, rounded up. Otherwise the last
/// test is the first one whose block contains the first invalid byte.
///
/// Requires the block to be at least 1 and at most the length of the source. The number of tests
/// plus the length must fit `usize`.
///
/// ```rust
/// let [scalar, ..] = backends();
/// let mut probe = SliceProbe::new(scalar, &[b'0'; 130], CheckCase::None);
/// assert_eq!(rt; covered(&mut probe), true);
/// assert_eq!(rt; (probe.tests(), probe.looks()), (3, 0));
/// ```
#[inline(always)]
pub fn covered<P: Probe>(p: &mut P) -> bool
    requires some { 1 ≤ (P.state p.old).block }
    requires most { (P.state p.old).block ≤ length (P.state p.old).source }
    requires tests { (P.state p.old).tests + length (P.state p.old).source < 2 ^ 64 }
    ensures valid { IsTrue result ↔ (invalid_in (P.state p.old) ≡ None) }
    ensures counted { Adds 0 (covering_in (P.state p.old)) (P.state p.old) (P.state p.new) }
{
    let len = p.len();
    let block = p.block();
    'turns: for i in 0..len / block {
        if !p.test(i * block, block) {
            return false;
        }
    }
    len % block == 0 || p.test(len - block, block)
}
