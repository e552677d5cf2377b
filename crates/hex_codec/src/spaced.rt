//! Decoding of digits with white space among them.
//!
//! A source is read twice: first all of it is tested, then it is decoded. Texts usually have lines of
//! one length, so both passes expect a line to be like the one before it, and look for its end only
//! if it is not. The lines at the start of the source, up to the first one of another form, are
//! decoded without a second test. Later lines are not remembered, so they are tested again.

ghost use Rattle.std.specs.Prelude.{◌≡◌, ◌≢◌, ◌↔◌, ◌+◌, ◌*◌, ◌%◌, ◌/◌, ◌<◌, ◌≤◌, ◌-◌, ◌∷◌, [], drop, take, IsSome, IsTrue, None, Some, length, option_map, position, slice_index};
ghost use Rattle.hex_core.specs.declared.error.Error.TheVariants.{InvalidChar};
ghost use Rattle.hex_core.specs.Digit.{value};
ghost use Rattle.hex_core.specs.Text.{Spells};
ghost use Rattle.hex_codec.specs.inside.{AreLines, DecodesLines};
ghost use Rattle.hex_codec.specs.Spaced.{DecodesSpaced, first_invalid_spaced, is_solid, unspaced};

use hex_core::{Backend, CheckCase, Error, digit_value};
use std::simd::prelude::*;

// A run ends before the next byte that is at most a space, as all white space is. This number of bytes is searched
// for it at once.
const LANES: usize = 32;

// The greatest length of a run, so that a long text without white space is not searched to its end.
const LONGEST_RUN: usize = 192;

// Lines of digits at the start of a source. Each has `len` digits, which is an even number, and then `gap`
// bytes of white space. A text without white space is cut into lines of `LONGEST_RUN` digits with a `gap` of 0.
#[derive(Clone, Copy)]
struct Lines {
    len: usize,
    gap: usize,
    count: usize,
}

/// Decodes the digits of `src` into the start of `dst`, if `case` accepts them. Skips ASCII white
/// space among them, also between the two digits of a pair. Returns the number of bytes written,
/// which is half the number of digits.
///
/// White space is a space, tab, newline, form feed or carriage return. So this function reads what
/// `xxd -p` and `openssl rand -hex` print. The bytes of `dst` after the written ones are unchanged.
/// If `src` is empty or has only white space, the result is 0 and nothing changes.
///
/// This function is not constant time: do not use it for keys.
///
/// # Errors
///
/// The conditions are tested in this order, which is that of [`hex_decode`](crate::hex_decode).
/// Each error leaves all of `dst` unchanged.
///
/// 1. [`Error::OddLength`] if the number of bytes that are not white space is odd.
/// 2. [`Error::OutputTooSmall`] if `dst` has fewer bytes than half of that number.
/// 3. [`Error::InvalidChar`] if a byte is neither white space nor an accepted digit. The error has
///    the first such byte and its index in `src`.
///
/// ```rust
/// let mut buffer = [0xa5; 4];
/// let written = hex_decode_spaced(b"00 a\r\nBc\tD\n", &mut buffer, CheckCase::None)?;
/// assert_eq!(rt; written, 3);
/// assert_eq!(rt; buffer, [0, 0xab, 0xcd, 0xa5]);
/// ```
pub fn hex_decode_spaced(src: &[u8], dst: &mut [u8], case: CheckCase) -> Result<usize, Error>
    ensures answer { DecodesSpaced case src.now dst.old dst.new result }
{
    decode_by(Backend::plain(), src, dst, case)
}

/// Does the same as [`hex_decode_spaced`] by the given plan, which is a [`Backend`]. The plan changes only the speed.
///
/// ```rust
/// let mut buffer = [0; 2];
/// let [scalar, ..] = backends();
/// let written = decode_by(scalar, b"00 ab\n", &mut buffer, CheckCase::None)?;
/// assert_eq!(rt; (written, buffer), (2, [0, 0xab]));
/// ```
pub fn decode_by(plan: Backend, src: &[u8], dst: &mut [u8], case: CheckCase) -> Result<usize, Error>
    ensures answer { DecodesSpaced case src.now dst.old dst.new result }
{
    let head = lines_of(plan, src, case);
    let (digits, is_clean) = survey(plan, src, head, case);
    if digits % 2 == 1 {
        return Err(Error::OddLength);
    }
    let required = digits / 2;
    if dst.len() < required {
        return Err(Error::OutputTooSmall { required });
    }
    if !is_clean {
        return Err(invalid_error(src, case));
    }
    decode_runs(plan, src, &mut dst[..required], head, case);
    Ok(required)
}

// Returns the number of bytes that are not white space, and whether all of them are digits. `head` has
// the lines at the start of the source.
#[inline(never)]
fn survey(plan: Backend, src: &[u8], head: Lines, case: CheckCase) -> (usize, bool)
    requires lines { AreLines case src.now head.len head.gap head.count }
    ensures count { result.0 ≡ length (unspaced src.now) }
    ensures clean { IsTrue result.1 ↔ (first_invalid_spaced case src.now ≡ None) }
{
    let mut at = head.count * (head.len + head.gap);
    let mut count = head.count * head.len;
    let mut is_clean = true;
    'runs: while at < src.len() {
        if src[at].is_ascii_whitespace() {
            at += 1;
            continue;
        }
        let lines = lines_of(plan, &src[at..], case);
        if lines.count > 0 {
            at += lines.count * (lines.len + lines.gap);
            count += lines.count * lines.len;
            continue;
        }
        let run = run_len(&src[at..]);
        let (more, are_digits) = survey_bytes(&src[at..at + run], case);
        count += more;
        is_clean &= are_digits;
        at += run;
    }
    (count, is_clean)
}

// Returns the lines at the start of a source that have the form of the first one: its number of digits, all
// of them valid, and its white space.
fn lines_of(plan: Backend, src: &[u8], case: CheckCase) -> Lines
    ensures { AreLines case src.now result.len result.gap result.count }
{
    let len = run_len(src) / 2 * 2;
    let gap = space_len(src, len);
    let count = line_count(plan, src, len, gap, case);
    Lines { len, gap, count }
}

// Returns the number of lines. All arms do the same, but usual lengths have arms of their own, so that the
// compiler makes a loop for each range, in which the length is not compared again.
#[inline(never)]
fn line_count(plan: Backend, src: &[u8], len: usize, gap: usize, case: CheckCase) -> usize
    requires even { len % 2 ≡ 0 }
    requires inside { len + gap ≤ length src.now }
    requires most { gap ≤ 2 }
    requires space { unspaced (take gap (drop len src.now)) ≡ [] }
    ensures { AreLines case src.now len gap result }
{
    match len {
        0 => 0,
        33..=64 => line_count_of(plan, src, len, gap, case),
        65..=96 => line_count_of(plan, src, len, gap, case),
        97..=128 => line_count_of(plan, src, len, gap, case),
        _ => line_count_of(plan, src, len, gap, case),
    }
}

#[inline(always)]
fn line_count_of(plan: Backend, src: &[u8], len: usize, gap: usize, case: CheckCase) -> usize
    requires some { 0 < len }
    requires even { len % 2 ≡ 0 }
    requires inside { len + gap ≤ length src.now }
    requires most { gap ≤ 2 }
    requires space { unspaced (take gap (drop len src.now)) ≡ [] }
    ensures { AreLines case src.now len gap result }
{
    let mut at = 0;
    let mut count = 0;
    'lines: while len + gap <= src.len() - at
        && plan.check(&src[at..at + len], case)
        && is_same(src, len, at + len, gap)
    {
        at += len + gap;
        count += 1;
    }
    count
}

// Returns how many bytes of white space are at an index, but at most two. This is the end of a line.
fn space_len(src: &[u8], at: usize) -> usize
    requires { at ≤ length src.now }
    ensures inside { at + result ≤ length src.now }
    ensures most { result ≤ 2 }
    ensures space { unspaced (take result (drop at src.now)) ≡ [] }
{
    if at >= src.len() || !src[at].is_ascii_whitespace() {
        return 0;
    }
    if at + 1 >= src.len() || !src[at + 1].is_ascii_whitespace() {
        return 1;
    }
    2
}

// Returns whether the same bytes, of which there are at most two, are at both indices.
fn is_same(src: &[u8], first: usize, second: usize, len: usize) -> bool
    requires first { first + len ≤ length src.now }
    requires second { second + len ≤ length src.now }
    requires most { len ≤ 2 }
    ensures { IsTrue result → take len (drop first src.now) ≡ take len (drop second src.now) }
{
    match len {
        0 => true,
        1 => src[first] == src[second],
        _ => src[first] == src[second] && src[first + 1] == src[second + 1],
    }
}

// Does the same as `survey`, byte by byte.
#[inline(never)]
fn survey_bytes(src: &[u8], case: CheckCase) -> (usize, bool)
    ensures count { result.0 ≡ length (unspaced src.now) }
    ensures clean { IsTrue result.1 ↔ (first_invalid_spaced case src.now ≡ None) }
{
    (solid_count(src), first_invalid_spaced(src, case).is_none())
}

// Returns the number of bytes that are not white space.
fn solid_count(src: &[u8]) -> usize
    ensures { result ≡ length (unspaced src.now) }
{
    src.iter()
        .filter(|byte| !byte.is_ascii_whitespace())
        .count()
}

// Returns the index of the first byte that is neither white space nor a digit.
fn first_invalid_spaced(src: &[u8], case: CheckCase) -> Option<usize>
    ensures { result ≡ first_invalid_spaced case src.now }
{
    src.iter().position(|byte| !byte.is_ascii_whitespace() && digit_value(*byte, case).is_none())
}

// Returns the error for the byte that `first_invalid_spaced` finds.
#[cold]
fn invalid_error(src: &[u8], case: CheckCase) -> Error
    requires { first_invalid_spaced case src.now ≢ None }
    ensures { option_map (λ i. InvalidChar i (slice_index src.now i))
        (first_invalid_spaced case src.now) ≡ Some result }
{
    let index = first_invalid_spaced(src, case).unwrap();
    Error::InvalidChar {
        index,
        byte: src[index],
    }
}

// Returns the length of the run at the start of a source. The first byte always counts. If it is itself at most a
// space, bytes after it may count too, up to the next such byte. Such a run is no line, because its check fails.
#[inline(never)]
fn run_len(src: &[u8]) -> usize
    ensures some { 0 < length src.now → 0 < result }
    ensures inside { result ≤ length src.now }
{
    let src = &src[..src.len().min(LONGEST_RUN)];
    let mut end = src.len().min(1);
    if src.len() < LANES {
        let more = src[end..].iter().position(|byte| *byte <= b' ');
        return more.map_or(src.len(), |more| end + more);
    }
    'blocks: while end < src.len() {
        // The last block ends with the source, and may overlap the block before it.
        let at = end.min(src.len() - LANES);
        let lanes = u8x32::from_slice(&src[at..]);
        let marks = lanes.simd_le(Simd::splat(b' ')).to_bitmask();
        if marks != 0 {
            let found = at + marks.trailing_zeros() as usize;
            return found.clamp(1, src.len());
        }
        end = at + LANES;
    }
    src.len()
}

// Decodes all digits of a source, which are valid, over all of `dst`. `head` has the lines at the start
// of the source.
#[inline(never)]
fn decode_runs(plan: Backend, src: &[u8], dst: &mut [u8], head: Lines, case: CheckCase)
    requires clean { first_invalid_spaced case src.now ≡ None }
    requires twice { length (unspaced src.now) ≡ 2 * length dst.old }
    requires lines { AreLines case src.now head.len head.gap head.count }
    ensures { Spells case (unspaced src.now) dst.new }
{
    decode_lines(plan, src, dst, head, case);
    let mut at = head.count * (head.len + head.gap);
    let mut done = head.count * (head.len / 2);
    'runs: while at < src.len() {
        if src[at].is_ascii_whitespace() {
            at += 1;
            continue;
        }
        let lines = lines_of(plan, &src[at..], case);
        if lines.count > 0 {
            decode_lines(plan, &src[at..], &mut dst[done..], lines, case);
            at += lines.count * (lines.len + lines.gap);
            done += lines.count * (lines.len / 2);
        } else {
            // No line starts here, so white space follows this digit.
            let low = at + 1 + first_solid(&src[at + 1..]).unwrap();
            dst[done] = pair_byte(src[at], src[low], case);
            at = low + 1;
            done += 1;
        }
    }
}

// Decodes the lines at the start of a source into the start of `dst`.
#[inline(never)]
fn decode_lines(plan: Backend, src: &[u8], dst: &mut [u8], lines: Lines, case: CheckCase)
    requires lines { AreLines case src.now lines.len lines.gap lines.count }
    requires room { lines.count * (lines.len / 2) ≤ length dst.old }
    ensures { DecodesLines case src.now dst.old dst.new (lines.count * (lines.len + lines.gap))
        (lines.count * (lines.len / 2)) }
{
    // As in `line_count`, usual lengths have loops of their own. The ranges there are those of `check`, and these
    // are those of `decode_valid`, so the first one differs by one.
    match lines.len {
        32..=64 => decode_lines_of(plan, src, dst, lines, case),
        65..=96 => decode_lines_of(plan, src, dst, lines, case),
        97..=128 => decode_lines_of(plan, src, dst, lines, case),
        _ => decode_lines_of(plan, src, dst, lines, case),
    }
}

#[inline(always)]
fn decode_lines_of(plan: Backend, src: &[u8], dst: &mut [u8], lines: Lines, case: CheckCase)
    requires lines { AreLines case src.now lines.len lines.gap lines.count }
    requires room { lines.count * (lines.len / 2) ≤ length dst.old }
    ensures { DecodesLines case src.now dst.old dst.new (lines.count * (lines.len + lines.gap))
        (lines.count * (lines.len / 2)) }
{
    let pairs = lines.len / 2;
    let mut at = 0;
    let mut done = 0;
    'lines: for _ in 0..lines.count {
        plan.decode_valid(&src[at..at + lines.len], &mut dst[done..done + pairs], case);
        at += lines.len + lines.gap;
        done += pairs;
    }
}

// Returns the index of the first byte that is not white space.
fn first_solid(src: &[u8]) -> Option<usize>
    ensures { result ≡ position is_solid src.now }
{
    src.iter().position(|byte| !byte.is_ascii_whitespace())
}

// Returns the byte of two digits.
fn pair_byte(high: u8, low: u8, case: CheckCase) -> u8
    requires high { IsSome (value case high) }
    requires low { IsSome (value case low) }
    ensures { Spells case (high ∷ low ∷ []) (result ∷ []) }
{
    16 * digit_value(high, case).unwrap() + digit_value(low, case).unwrap()
}
