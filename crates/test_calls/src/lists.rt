//! Families of digest lists that are read and written.

ghost use Rattle.std.specs.Prelude.{◌<◌};

use crate::ends;
use crate::grouped::{ANY, LOWER, UPPER};
use crate::sinks::{MODES, Mode, Put, Taken};
use hex_core::CheckCase;
use hex_io::HexFlags;
use hex_io::digests::{self, Entry, LineFault, ListFault};
use std::alloc::{Allocator, Global};
use test_kit::destination::Destination;
use test_kit::model::decode_pairs;
use test_kit::refusing::Refusing;
use test_kit::seen::{Given, Seen};
use test_kit::source::{first, joined, repeated, with};

const DIGITS: &[u8] = b"004992db246db6ff102f8e17c3a45d";

const UPPER_DIGITS: &[u8] = b"004992DB246DB6FF102F8E17C3A45D";

// Two lines of a list. `LOWER_LINES` are the same lines as they are written in lowercase.
const LINES: &[u8] = b"ab01  a.txt\nCD02 *b\n";

const LOWER_LINES: &[u8] = b"ab01  a.txt\ncd02 *b\n";

// Returns how often the memory of `count` entries grows: first to room for 4, and then to twice the room.
fn growths(count: usize) -> u64 {
    let mut room: usize = 0;
    let mut growths: u64 = 0;
    for _ in 0..64 {
        if count <= room {
            break;
        }
        room = room.saturating_mul(2).max(4);
        growths = growths.saturating_add(1);
    }
    growths
}

// Returns whether a list consists of the lines of `entries`.
fn are_lines<const N: usize>(entries: &[Entry<'_, N>], list: &[u8]) -> bool
    requires { N < 10000 }
{
    let mut rest = list;
    for i in 0..entries.len() {
        let (entry, mut bytes) = (&entries[i], [0; N]);
        let (digits, behind) = rest.split_at_checked(2 * N).unwrap_or_default();
        let mark = if entry.binary { b" *" } else { b"  " };
        let name = behind.strip_prefix(mark.as_slice()).unwrap_or_default();
        let Some(end) = name.strip_prefix(entry.name) else {
            return false;
        };
        if decode_pairs(digits, &mut bytes) != entry.digest.as_slice() || entry.name.is_empty() {
            return false;
        }
        rest = end.strip_prefix(b"\n".as_slice()).unwrap_or(end);
    }
    rest.is_empty()
}

// Returns the list in place of its entries, or another text if `got` has other entries.
fn listed<'a, A: Allocator + Drop, const N: usize>(
    got: Result<Vec<Entry<'a, N>, A>, ListFault>,
    list: &'a [u8],
) -> Result<&'a [u8], ListFault>
    requires { N < 10000 }
{
    match got {
        Err(fault) => Err(fault),
        Ok(entries) => {
            let are_right = are_lines(entries.as_slice(), list);
            Ok(if are_right { list } else { b"other entries" })
        }
    }
}

// Tries both calls that read a list, with `given.number` allocations granted. The first `count` lines have no fault,
// and the next line has `fault`.
fn reads<const N: usize>(
    seen: &mut Seen,
    alloc: Global,
    given: Given<'_>,
    count: usize,
    fault: Option<LineFault>,
)
    requires { N < 10000 }
{
    seen.tries();
    let (case, src, line) = (given.case, given.src, count.saturating_add(1));
    let want = fault.map_or(Ok(src), |why| Err(ListFault::Line { line, why }));
    let (granted, needed) = (given.number as u64, growths(count));
    let is_refused = granted < needed;
    let want_in = if is_refused {
        Err(ListFault::OutOfMemory)
    } else {
        want
    };
    let refusing = Refusing::new(alloc, granted);
    let got = listed(digests::read_in::<_, N>(&refusing, src, case), src);
    seen.gives(given, "digests::read_in", got, want_in);
    let asked = needed.min(granted.saturating_add(1));
    seen.is(given, "allocations", refusing.is_settled(asked), true);
    if !is_refused {
        let got = listed(digests::read::<N>(alloc, src, case), src);
        seen.gives(given, "digests::read", got, want);
    }
}

// Writes a list, whose text is `text`, into a slice of `given.number` bytes and into sinks that take as many.
fn writes<const N: usize>(seen: &mut Seen, alloc: Global, given: Given<'_>, text: &[u8])
    requires { N < 10000 }
{
    seen.tries();
    let Ok(list) = digests::read::<N>(alloc, given.src, ANY) else {
        seen.is(given, "digests::read", false, true);
        return;
    };
    let put = Put::List(list.as_slice());
    let mut flags = HexFlags::default();
    flags.upper = given.is_upper();
    let is_stopped = given.number < text.len();
    let text = first(text, given.number);
    let want = Taken { text, is_stopped };
    let whole = Given::new(given.case, text.len(), given.src);
    for mode in MODES {
        if mode != Mode::RefusesLong && !(is_stopped && mode == Mode::OneByte) {
            put.is_taken(seen, whole, &flags, mode, want);
        }
    }
    put.fills(seen, given, &flags, want, &mut Destination::new());
}

fn any(number: usize, src: &[u8]) -> Given<'_> {
    Given::new(ANY, number, src)
}

fn lower(number: usize, src: &[u8]) -> Given<'_> {
    Given::new(LOWER, number, src)
}

fn upper(number: usize, src: &[u8]) -> Given<'_> {
    Given::new(UPPER, number, src)
}

// Tries to read a list whose digests have two bytes.
fn two(seen: &mut Seen, alloc: Global, list: &[u8], count: usize, fault: Option<LineFault>) {
    reads::<2>(seen, alloc, any(9, list), count, fault);
}

#[test]
fn lists_are_read_line_by_line(rt: HostRuntime) {
    let (mut seen, alloc) = (Seen::new(), rt.alloc());
    let s = &mut seen;
    let (short, mark) = (Some(LineFault::ShortLine), Some(LineFault::BadMark));
    let invalid = |index, byte| Some(LineFault::InvalidByte { index, byte });
    two(s, alloc, LINES, 2, None);
    two(s, alloc, b"ab01  a.txt\nCD02 *b", 2, None);
    reads::<2>(s, alloc, lower(9, LINES), 1, invalid(0, b'C'));
    reads::<2>(s, alloc, upper(9, LINES), 0, invalid(0, b'a'));
    reads::<2>(s, alloc, lower(9, b"ab01 *b"), 1, None);
    two(s, alloc, b"", 0, None);
    reads::<0>(s, alloc, any(9, b""), 0, None);
    two(s, alloc, b"ab01 -x", 0, mark);
    two(s, alloc, b"ab01x*b", 0, mark);
    two(s, alloc, b"ab01*b ", 0, mark);
    two(s, alloc, b"ab01\t b", 0, mark);
    two(s, alloc, b"ab01 \tb", 0, mark);
    two(s, alloc, b"ab0102 *b", 0, mark);
    two(s, alloc, b"zz", 0, short);
    two(s, alloc, b"\n", 0, short);
    two(s, alloc, b"ab01 *", 0, short);
    two(s, alloc, b"ab01 *\n", 0, short);
    two(s, alloc, b"\nab01  a\n", 0, short);
    two(s, alloc, b"ab01  a\n\n", 1, short);
    two(s, alloc, b"ab01  a\nab0  b\nzz", 1, short);
    two(s, alloc, b"ab01  a\nab01  b\nab01  ", 2, short);
    two(s, alloc, b"abg1x*b", 0, invalid(2, b'g'));
    two(s, alloc, b"abg1 *b", 0, invalid(2, b'g'));
    two(s, alloc, b"a g1  b", 0, invalid(1, b' '));
    let list = b"ab01  a\nab01 *b\nab0z *c\n-";
    two(s, alloc, list, 2, invalid(3, b'z'));
    ends(&rt, seen.ended(25));
}

#[test]
fn names_are_all_that_is_left_of_their_lines(rt: HostRuntime) {
    let (mut seen, alloc) = (Seen::new(), rt.alloc());
    let s = &mut seen;
    let long = b"ab01  a name of more bytes than a block of them, and then some\n";
    two(s, alloc, b"ab01  a\r\n", 1, None);
    two(s, alloc, b"ab01  \r\n", 1, None);
    two(s, alloc, b"ab01   \n", 1, None);
    two(s, alloc, b"ab01   *a b \n", 1, None);
    two(s, alloc, b"ab01  \0\xff\n", 1, None);
    two(s, alloc, b"ab01  a  b\\n\n", 1, None);
    two(s, alloc, long, 1, None);
    let (short, mark) = (Some(LineFault::ShortLine), Some(LineFault::BadMark));
    reads::<0>(s, alloc, any(9, b"  x"), 1, None);
    reads::<0>(s, alloc, any(9, b"  "), 0, short);
    reads::<0>(s, alloc, any(9, b"0  x"), 0, mark);
    ends(&rt, seen.ended(10));
}

#[test]
fn memory_grows_behind_the_line_that_needs_it(rt: HostRuntime) {
    let (mut seen, alloc) = (Seen::new(), rt.alloc());
    let s = &mut seen;
    let short = Some(LineFault::ShortLine);
    for granted in [0, 1] {
        reads::<2>(s, alloc, any(granted, LINES), 2, None);
        reads::<2>(s, alloc, any(granted, b"ab01  a\nzz\n"), 1, short);
    }
    reads::<2>(s, alloc, any(0, b"zz"), 0, short);
    reads::<2>(s, alloc, any(0, b"zz\nab01  a\n"), 0, short);
    reads::<2>(s, alloc, any(0, b""), 0, None);
    let list: [u8; 10_002] = repeated(LINES);
    let list = with(with(list, 10_000, b'z'), 10_001, b'z');
    for granted in 0..=9 {
        reads::<2>(s, alloc, any(granted, &list), 1_000, short);
    }
    let list: [u8; 8_002] = repeated(b"  a\n");
    let list = with(with(list, 8_000, b'z'), 8_001, b'z');
    for granted in 0..=10 {
        reads::<0>(s, alloc, any(granted, &list), 2_000, short);
    }
    ends(&rt, seen.ended(28));
}

// What `sha256sum` printed for a text file with `hello` and a newline, and for an empty binary file.
const PRINTED: &[u8] = b"\
5891b5b522d5df086d0ff0b110fbd9d21bb4fc7163af34d08286a2e846f6be03  a.txt\n\
e3b0c44298fc1c149afbf4c8996fb92427ae41e4649b934ca495991b7852b855 *b\n";

#[test]
fn list_that_sha256sum_printed(rt: HostRuntime) {
    let (mut seen, alloc) = (Seen::new(), rt.alloc());
    reads::<32>(&mut seen, alloc, any(9, PRINTED), 2, None);
    writes::<32>(&mut seen, alloc, lower(8_000, PRINTED), PRINTED);
    ends(&rt, seen.ended(2));
}

// Writes a list, in lowercase as `small` and in uppercase as `large`, into each room up to one byte more than it needs.
fn in_each_room<const N: usize>(
    seen: &mut Seen,
    alloc: Global,
    list: &[u8],
    small: &[u8],
    large: &[u8],
)
    requires { N < 10000 }
{
    for room in 0..=small.len().saturating_add(1) {
        writes::<N>(seen, alloc, lower(room, list), small);
        writes::<N>(seen, alloc, upper(room, list), large);
    }
}

#[test]
fn lists_are_written_into_each_room(rt: HostRuntime) {
    let (mut seen, alloc) = (Seen::new(), rt.alloc());
    let s = &mut seen;
    in_each_room::<2>(s, alloc, LINES, LOWER_LINES, b"AB01  a.txt\nCD02 *b\n");
    in_each_room::<2>(s, alloc, b"", b"", b"");
    let text = b"  x\n *y\r\n";
    in_each_room::<0>(s, alloc, text, text, text);
    in_each_room::<2>(s, alloc, b"ab01 *b", b"ab01 *b\n", b"AB01 *b\n");
    let list: [u8; 8_000] = repeated(LINES);
    let text: [u8; 8_000] = repeated(LOWER_LINES);
    writes::<2>(s, alloc, lower(8_000, &list), &text);
    ends(&rt, seen.ended(91));
}

// Tries lists in a letter case: with one name of each length up to 99, and with three lines.
fn names<const N: usize>(seen: &mut Seen, alloc: Global, case: CheckCase)
    requires { N < 10000 }
{
    let digits: [u8; 130] = repeated(if case == UPPER { UPPER_DIGITS } else { DIGITS });
    let digits = first(&digits, 2 * N);
    let name: [u8; 99] = repeated(b"n.x\xff");
    let mut text = [0; 500];
    for len in 1..=99 {
        let name = first(&name, len);
        let list = joined(&[digits, b" *", name, b"\n"], &mut text);
        writes::<N>(seen, alloc, Given::new(case, 300, list), list);
        reads::<N>(seen, alloc, Given::new(case, 1, list), 1, None);
        reads::<N>(seen, alloc, any(1, list), 1, None);
    }
    let parts = [
        digits,
        b"  a\n",
        digits,
        b" *b.txt\n",
        digits,
        b"  *c \xff\n",
    ];
    let list = joined(&parts, &mut text);
    for room in [list.len(), list.len().saturating_add(1)] {
        writes::<N>(seen, alloc, Given::new(case, room, list), list);
    }
}

// Tries lists that repeat one line, the longest also without its last newline.
fn lines<const N: usize>(seen: &mut Seen, alloc: Global)
    requires { N < 10000 }
{
    let digits: [u8; 130] = repeated(DIGITS);
    let digits = first(&digits, 2 * N);
    let mut line = [0; 137];
    let line = joined(&[digits, b"  name\n"], &mut line);
    let all: [u8; 2_603] = repeated(line);
    for count in [1, 2, 3, 19] {
        let len = line.len().saturating_mul(count);
        let list = first(&all, len);
        writes::<N>(seen, alloc, lower(4_000, list), list);
        reads::<N>(seen, alloc, lower(9, list), count, None);
        if count == 19 {
            let cut = first(list, len.saturating_sub(1));
            writes::<N>(seen, alloc, lower(4_100, cut), list);
        }
    }
}

// Tries all lists whose digests have `N` bytes.
fn sized<const N: usize>(seen: &mut Seen, alloc: Global)
    requires { N < 10000 }
{
    names::<N>(seen, alloc, LOWER);
    names::<N>(seen, alloc, UPPER);
    lines::<N>(seen, alloc);
}

#[test]
fn lists_of_each_length_of_digest(rt: HostRuntime) {
    let (mut seen, alloc) = (Seen::new(), rt.alloc());
    let s = &mut seen;
    sized::<0>(s, alloc);
    sized::<2>(s, alloc);
    sized::<32>(s, alloc);
    sized::<64>(s, alloc);
    sized::<65>(s, alloc);
    ends(&rt, seen.ended(3_035));
}

#[test]
fn names_of_each_length_in_lists(rt: HostRuntime) {
    let (mut seen, alloc) = (Seen::new(), rt.alloc());
    let s = &mut seen;
    let (mut text, mut cut) = ([0; 2_055], [0; 2_055]);
    for len in 1..=2_048 {
        let name = [b'n'; 2_048];
        let name = first(&name, len);
        let list = joined(&[b"ab01  ", name, b"\n"], &mut text);
        reads::<2>(s, alloc, any(1, list), 1, None);
        reads::<2>(s, alloc, lower(1, list), 1, None);
        let list = joined(&[b"AB01  ", name, b"\n"], &mut text);
        reads::<2>(s, alloc, upper(1, list), 1, None);
        let list = joined(&[b"AB01 *", name, b"\n"], &mut text);
        let cut = joined(&[b"ab01 *", name], &mut cut);
        writes::<2>(s, alloc, upper(list.len(), cut), list);
    }
    ends(&rt, seen.ended(8_192));
}

#[test]
fn lists_of_each_number_of_entries(rt: HostRuntime) {
    let (mut seen, alloc) = (Seen::new(), rt.alloc());
    let all: [u8; 12_288] = repeated(b"ab  n\n");
    for count in 1..=2_048 {
        let list = first(&all, 6 * count);
        let needed = growths(count) as usize;
        reads::<1>(&mut seen, alloc, lower(needed, list), count, None);
        writes::<1>(&mut seen, alloc, lower(list.len(), list), list);
    }
    ends(&rt, seen.ended(4_096));
}
