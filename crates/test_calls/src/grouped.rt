//! Families of grouped texts that are read.

use crate::ends;
use crate::slices::POLICIES;
use hex_codec::Group;
use hex_codec::grouped::{GroupFault, read, read_into};
use hex_core::CheckCase;
use std::mem;
use test_kit::destination::Destination;
use test_kit::model::value;
use test_kit::seen::{Given, Seen};
use test_kit::source::{first, repeated};

/// The policy that reads both letter cases. `LOWER` and `UPPER` read one.
pub const ANY: CheckCase = CheckCase::None;

pub const LOWER: CheckCase = CheckCase::Lower;

pub const UPPER: CheckCase = CheckCase::Upper;

// The number of bytes of a piece, and the separator.
type Pieces = (usize, u8);

// The bytes that reading gives, or the error.
type Reading<'a> = Result<&'a [u8], GroupFault>;

const MOST: usize = usize::MAX;

const BAD_LENGTH: Reading<'static> = Err(GroupFault::BadLength);

/// Returns the length of the text of `count` bytes in pieces of `every` bytes.
pub fn text_len(count: usize, every: usize) -> usize {
    let separators = count.saturating_sub(1).checked_div(every).unwrap_or(0);
    count.saturating_mul(2).saturating_add(separators)
}

// Returns how many digits precede the digit at a place, or `None` if a separator is there.
fn digits_before(place: usize, every: usize) -> Option<usize> {
    let digits = every.saturating_mul(2);
    let line = digits.saturating_add(1);
    let is_separator = place.checked_rem(line) == Some(digits);
    let separators = place.checked_div(line).unwrap_or(0);
    (!is_separator).then_some(place.saturating_sub(separators))
}

// Writes the grouped text of `count` bytes, whose digits repeat a unit, into a buffer, and returns it.
fn grouped<'a>(unit: &[u8], count: usize, pieces: Pieces, text: &'a mut [u8]) -> &'a mut [u8] {
    let (every, sep) = pieces;
    let text = text.get_mut(..text_len(count, every)).unwrap_or_default();
    for place in 0..text.len() {
        let digit = digits_before(place, every);
        let at = digit.and_then(|digit| digit.checked_rem(unit.len()));
        text[place] = at.map_or(sep, |at| unit.get(at).copied().unwrap_or(0));
    }
    text
}

// Decodes a grouped text into a buffer, digit by digit. Returns what the calls must give.
fn model<'a>(pieces: Pieces, given: Given<'_>, bytes: &'a mut [u8]) -> Reading<'a> {
    let ((every, sep), src) = (pieces, given.src);
    let mut counts = 0..=src.len();
    let Some(required) = counts.find(|count| text_len(*count, every) == src.len()) else {
        return BAD_LENGTH;
    };
    if given.number < required {
        return Err(GroupFault::OutputTooSmall { required });
    }
    let front = bytes.get_mut(..required).unwrap_or_default();
    for index in 0..src.len() {
        let byte = src[index];
        match (digits_before(index, every), value(byte, given.case)) {
            (None, _) if byte == sep => {}
            (Some(digit), Some(nibble)) => {
                if let Some(byte) = front.get_mut(digit / 2) {
                    *byte = *byte << 4 | nibble;
                }
            }
            _ => return Err(GroupFault::InvalidByte { index, byte }),
        }
    }
    Ok(front)
}

// Tries both calls that read a grouped text.
fn calls(
    seen: &mut Seen,
    pieces: Pieces,
    given: Given<'_>,
    want: Reading<'_>,
    to: &mut Destination,
) {
    let Some(group) = Group::new(pieces.0, pieces.1) else {
        seen.is(given, "Group::new", false, true);
        return;
    };
    let (case, room, src) = (given.case, given.number, given.src);
    let got = read(src, to.lend(room), group, case);
    seen.gives(given, "grouped::read", got, want);
    to.is_left(seen, given, "grouped::read", want);
    let got = read_into(src, to.lend(room), group, case);
    seen.counts(given, "grouped::read_into", got, want);
    to.is_left(seen, given, "grouped::read_into", want);
}

// Tries an input whose result is stated.
fn gives(seen: &mut Seen, pieces: Pieces, given: Given<'_>, want: Reading<'_>) {
    seen.tries();
    calls(seen, pieces, given, want, &mut Destination::new());
}

// Tries an input whose result `model` computes.
fn reads(seen: &mut Seen, pieces: Pieces, given: Given<'_>) {
    gives(seen, pieces, given, model(pieces, given, &mut [0; 2_050]));
}

// Tries a text with colons, whose digits may have either letter case.
fn any(seen: &mut Seen, every: usize, room: usize, src: &[u8], want: Reading<'_>) {
    gives(seen, (every, b':'), Given::new(ANY, room, src), want);
}

#[test]
fn grouped_texts_are_read_into_the_front(rt: HostRuntime) {
    let mut seen = Seen::new();
    let s = &mut seen;
    for room in [5, 3] {
        any(s, 2, room, b"0001:02", Ok(b"\x00\x01\x02"));
    }
    for every in [3, MOST / 2, MOST] {
        any(s, every, 5, b"000102", Ok(b"\x00\x01\x02"));
    }
    any(s, 1, 5, b"00:01:02", Ok(b"\x00\x01\x02"));
    any(s, 2, 5, b"aB", Ok(b"\xab"));
    any(s, 2, 5, b"", Ok(b""));
    any(s, 2, 0, b"", Ok(b""));
    any(s, MOST / 2, 0, b"", Ok(b""));
    let (lower, upper) = (
        Given::new(LOWER, 5, b"abcd:ef"),
        Given::new(UPPER, 5, b"ABCD:EF"),
    );
    gives(s, (2, b':'), lower, Ok(b"\xab\xcd\xef"));
    gives(s, (2, b':'), upper, Ok(b"\xab\xcd\xef"));
    ends(&rt, seen.ended(12));
}

#[test]
fn lengths_of_no_grouped_text_are_refused_first(rt: HostRuntime) {
    let mut seen = Seen::new();
    let s = &mut seen;
    for room in [0, 1, 5] {
        any(s, 2, room, b"0001:0", BAD_LENGTH);
        any(s, 2, room, b"0001:", BAD_LENGTH);
        any(s, 2, room, b"0001:02:", BAD_LENGTH);
        any(s, 2, room, b":", BAD_LENGTH);
        any(s, 2, room, b"0", BAD_LENGTH);
        any(s, 2, room, b"z-z", BAD_LENGTH);
        any(s, 1, room, b"00:01:02:", BAD_LENGTH);
        any(s, 3, room, b"000102:", BAD_LENGTH);
        any(s, MOST / 2, room, b"0001:", BAD_LENGTH);
        any(s, MOST, room, b"0001:", BAD_LENGTH);
    }
    ends(&rt, seen.ended(30));
}

// Tries a text in each destination that is too small.
fn too_small(seen: &mut Seen, every: usize, src: &[u8], required: usize) {
    for room in 0..required {
        let want = Err(GroupFault::OutputTooSmall { required });
        any(seen, every, room, src, want);
    }
}

// Tries the text of three bytes in which the first wrong byte is at `index`.
fn invalid(seen: &mut Seen, every: usize, case: CheckCase, src: &[u8], index: usize, byte: u8) {
    for room in 3..6 {
        let want = Err(GroupFault::InvalidByte { index, byte });
        gives(seen, (every, b':'), Given::new(case, room, src), want);
    }
}

#[test]
fn want_of_room_is_told_before_the_first_wrong_byte(rt: HostRuntime) {
    let mut seen = Seen::new();
    let s = &mut seen;
    too_small(s, 2, b"zz01:02", 3);
    too_small(s, 2, b"0001:02", 3);
    too_small(s, 2, b"0001-02", 3);
    too_small(s, 2, b"0g", 1);
    too_small(s, 1, b"00:01:02:03", 4);
    too_small(s, MOST, b"0001020304", 5);
    invalid(s, 2, ANY, b"0001-02", 4, b'-');
    invalid(s, 2, ANY, b"0001-0G", 4, b'-');
    invalid(s, 2, ANY, b"0001002", 4, b'0');
    invalid(s, 2, LOWER, b"00aB:02", 3, b'B');
    invalid(s, 2, UPPER, b"00aB:02", 2, b'a');
    invalid(s, 2, ANY, b"0001:0G", 6, b'G');
    invalid(s, 2, ANY, b"000G-02", 3, b'G');
    invalid(s, 2, ANY, b"00:0102", 2, b':');
    invalid(s, 2, ANY, b":000102", 0, b':');
    invalid(s, 2, ANY, b"0001::2", 5, b':');
    invalid(s, 1, ANY, b"00:01-0z", 5, b'-');
    invalid(s, MOST / 2, ANY, b"0001:2", 4, b':');
    invalid(s, MOST, ANY, b"0001:2", 4, b':');
    ends(&rt, seen.ended(58));
}

#[test]
fn each_length_has_one_number_of_bytes_or_none(rt: HostRuntime) {
    let mut seen = Seen::new();
    for every in [1, 2, 3, 16, 17, 49, 50, 51, MOST / 2, MOST] {
        for len in 0..=150 {
            for room in [0, 100] {
                let given = Given::new(ANY, room, first(&[b'z'; 150], len));
                reads(&mut seen, (every, b':'), given);
            }
        }
    }
    ends(&rt, seen.ended(3_020));
}

// Replaces the byte at a place, and returns the old one.
fn put(text: &mut [u8], place: usize, byte: u8) -> u8 {
    text.get_mut(place).map_or(0, |at| mem::replace(at, byte))
}

// Reads the prefixes of a text that have the length of a grouped text and contain the changed byte, at `whole.number`.
fn beginnings(seen: &mut Seen, pieces: Pieces, whole: Given<'_>, to: &mut Destination) {
    seen.tries();
    for count in 1..whole.src.len() {
        let src = whole.src.get(..text_len(count, pieces.0));
        let src = src.unwrap_or_default();
        if whole.number < src.len() {
            let given = Given::new(whole.case, count, src);
            calls(seen, pieces, given, model(pieces, given, &mut [0; 19]), to);
        }
    }
}

// Tries each byte at each place of a text.
fn each_byte(seen: &mut Seen, every: usize, count: usize) {
    let mut to = Destination::new();
    let mut text = [0; 60];
    for case in POLICIES {
        let sep = if case == ANY { b':' } else { b' ' };
        let is_upper = case == UPPER;
        let unit = if is_upper {
            b"0123456789ABCDEF"
        } else {
            b"0123456789abcdef"
        };
        let text = grouped(unit, count, (every, sep), &mut text);
        for place in 0..text.len() {
            let right = put(text, place, 0);
            for byte in 0..=255 {
                put(text, place, byte);
                beginnings(seen, (every, sep), Given::new(case, place, text), &mut to);
            }
            put(text, place, right);
        }
    }
}

#[test]
fn each_byte_at_each_place_of_a_grouped_text(rt: HostRuntime) {
    let mut seen = Seen::new();
    for (every, count) in [(1, 13), (2, 16), (3, 17), (4, 18), (8, 19), (16, 19)] {
        each_byte(&mut seen, every, count);
    }
    ends(&rt, seen.ended(180_480));
}

// Tries texts of up to 70 bytes, and of 2,049 bytes. All pieces of a text have the same digits.
fn lengths(seen: &mut Seen, pieces: Pieces) {
    let lower: [u8; 1_026] = repeated(b"004992db246db6ff102f8e17c3a45d");
    let upper: [u8; 1_026] = repeated(b"004992DB246DB6FF102F8E17C3A45D");
    let digits = pieces.0.saturating_mul(2);
    let (lower, upper) = (first(&lower, digits), first(&upper, digits));
    let mut text = [0; 6_200];
    for count in 0..=70 {
        let src = grouped(lower, count, pieces, &mut text);
        reads(seen, pieces, Given::new(ANY, count, src));
        let src = grouped(upper, count, pieces, &mut text);
        reads(seen, pieces, Given::new(UPPER, 72, src));
    }
    let long = if pieces.0 > 20 { b"5c" } else { lower };
    let src = grouped(long, 2_049, pieces, &mut text);
    reads(seen, pieces, Given::new(ANY, 2_049, src));
    reads(seen, pieces, Given::new(LOWER, 2_050, src));
}

#[test]
fn grouped_texts_are_read_back(rt: HostRuntime) {
    let mut seen = Seen::new();
    for every in 1..=20 {
        let separators = b" \0:";
        lengths(&mut seen, (every, separators[(every - 1) % 3]));
    }
    for pieces in [(31, b' '), (32, 0), (33, b':'), (64, b' '), (513, b':')] {
        lengths(&mut seen, pieces);
    }
    ends(&rt, seen.ended(3_600));
}

// Tries wrong bytes at a place, alone and with a `g` behind them: two bytes that are no digits, `G` or a letter of the
// other case, and a separator in place of a digit or a digit in place of a separator.
fn wrong_at(
    seen: &mut Seen,
    pieces: Pieces,
    (case, room): (CheckCase, usize),
    text: &mut [u8],
    place: usize,
) {
    let other = match case {
        CheckCase::None => b'G',
        CheckCase::Lower => b'A',
        CheckCase::Upper => b'a',
    };
    let is_digit = digits_before(place, pieces.0).is_some();
    let exchanged = if is_digit { pieces.1 } else { b'0' };
    let last = text.len().saturating_sub(1);
    for behind in [0, 1, 15, 16, last.saturating_sub(place)] {
        let behind = place.saturating_add(behind);
        for byte in [b'g', 0xff, other, exchanged] {
            if behind <= last {
                let kept = put(text, behind, b'g');
                let right = put(text, place, byte);
                reads(seen, pieces, Given::new(case, room, text));
                put(text, place, right);
                put(text, behind, kept);
            }
        }
    }
}

// Tries wrong bytes at each place of a text of 19 bytes, and at some places of a text of 2,049 bytes.
fn each_wrong(seen: &mut Seen, every: usize, sep: u8) {
    let mut text = [0; 6_200];
    for case in POLICIES {
        let text = grouped(b"70", 19, (every, sep), &mut text);
        for place in 0..text.len() {
            wrong_at(seen, (every, sep), (case, 19), text, place);
        }
    }
    let text = grouped(b"70", 2_049, (every, sep), &mut text);
    for place in (0..text.len()).step_by(866) {
        wrong_at(seen, (every, sep), (ANY, 2_049), text, place);
        wrong_at(
            seen,
            (every, sep),
            (ANY, 2_049),
            text,
            place.saturating_add(1),
        );
    }
}

#[test]
fn wrong_bytes_at_each_place_of_a_grouped_text(rt: HostRuntime) {
    let mut seen = Seen::new();
    for every in [1, 4, 16] {
        each_wrong(&mut seen, every, b' ');
    }
    for every in [2, 5, 8, 17] {
        each_wrong(&mut seen, every, 0);
    }
    for every in [3, 6, 7, 9, 513, MOST] {
        each_wrong(&mut seen, every, b':');
    }
    ends(&rt, seen.ended(30_708));
}
