//! Padded texts, and what sinks take of them.

use crate::ends;
use crate::sinks::{Mode, Put, Taken};
use crate::sized::multiples;
use hex_codec::Group;
use hex_core::CheckCase;
use hex_io::{Align, Hex, HexFlags, Sink, WriterSink};
use std::alloc::Global;
use test_kit::destination::Destination;
use test_kit::fakes::{Pattern, Taker};
use test_kit::model::{digit, value};
use test_kit::prints;
use test_kit::seen::{Given, Seen};
use test_kit::source::{first, listed};

const FAILING: [Mode; 4] = [
    Mode::ThenRefuses,
    Mode::RefusesTheRest,
    Mode::TakesWholes,
    Mode::ThenTakesNone,
];

const DIAMOND: char = '💠';

const SMALL: [u8; 3] = [0, 0xab, 0xcd];

const LARGE: [u8; 700] = [0xab; 700];

// The letters of a format string, with a width, its fill, and a group.
#[derive(Clone, Copy)]
struct Style {
    letters: &'static str,
    width: Option<usize>,
    fill: char,
    group: Option<Group>,
}

fn format(letters: &'static str) -> Style {
    Style {
        letters,
        width: None,
        fill: ' ',
        group: None,
    }
}

impl Style {
    fn wide(self, width: usize, fill: char) -> Style {
        let width = Some(width);
        Style {
            width,
            fill,
            ..self
        }
    }

    fn grouped(self, every: usize, sep: u8) -> Style {
        let group = Group::new(every, sep);
        Style { group, ..self }
    }

    fn flags(self) -> HexFlags {
        let has = |letter: u8| self.letters.as_bytes().contains(&letter);
        HexFlags {
            align: match (has(b'<'), has(b'^')) {
                (true, _) => Align::Left,
                (_, true) => Align::Center,
                _ => Align::Right,
            },
            plus: has(b'+'),
            prefix: has(b'#'),
            zero: has(b'0'),
            upper: has(b'X'),
            width: self.width,
            fill: self.fill,
            group: self.group,
        }
    }
}

// A text, cut at the length of `bytes` if it is longer.
#[derive(Drop)]
struct Text {
    bytes: [u8; 8_200],
    len: usize,
}

impl Text {
    fn put(&mut self, bytes: &[u8]) {
        for byte in bytes {
            if let Some(at) = self.bytes.get_mut(self.len) {
                *at = *byte;
                self.len = self.len.saturating_add(1);
            }
        }
    }

    fn put_copies(&mut self, fill: char, count: usize) {
        let mut bytes = [0; 4];
        let copy = fill.encode_utf8(&mut bytes).as_bytes();
        // A width may be huge, but no sink here has room for more copies.
        for _ in 0..count.min(3_000) {
            self.put(copy);
        }
    }

    fn put_digits(&mut self, bytes: &[u8], flags: &HexFlags) {
        for i in 0..bytes.len() {
            if let Some(group) = flags.group {
                if i > 0 && i.checked_rem(group.every()) == Some(0) {
                    self.put(&[group.sep()]);
                }
            }
            let (high, low) = (bytes[i] >> 4, bytes[i] & 15);
            self.put(&[digit(high, flags.upper), digit(low, flags.upper)]);
        }
    }

    fn as_slice(&self) -> &[u8] {
        first(&self.bytes, self.len)
    }
}

// Returns the text of bytes: sign, prefix and digits. It is filled up to the width, by zeros before the digits or by
// copies of the fill around the whole.
fn padded(format: Style, bytes: &[u8]) -> Text {
    let flags = format.flags();
    let new = || Text {
        bytes: [0; 8_200],
        len: 0,
    };
    let (mut text, mut front, mut digits) = (new(), new(), new());
    front.put(if flags.plus { b"+" } else { b"" });
    front.put(if flags.prefix { b"0x" } else { b"" });
    digits.put_digits(bytes, &flags);
    let len = front.len.saturating_add(digits.len);
    let copies = flags.width.unwrap_or(0).saturating_sub(len);
    let (zeros, before) = match flags.align {
        _ if flags.zero => (copies, 0),
        Align::Left => (0, 0),
        Align::Center => (0, copies / 2),
        Align::Right => (0, copies),
    };
    text.put_copies(flags.fill, before);
    text.put(front.as_slice());
    text.put_copies('0', zeros);
    text.put(digits.as_slice());
    let behind = copies.saturating_sub(zeros).saturating_sub(before);
    text.put_copies(flags.fill, behind);
    text
}

#[derive(Drop)]
struct Tries {
    seen: Seen,
    to: Destination,
    alloc: Global,
}

impl Tries {
    fn new(alloc: Global) -> Tries {
        Tries {
            seen: Seen::new(),
            to: Destination::new(),
            alloc,
        }
    }

    // Puts the text of bytes into a slice or a sink of a mode, which must take as much of `text` as it has room for.
    fn puts(&mut self, sink: Option<Mode>, room: usize, format: Style, bytes: &[u8], text: &[u8]) {
        let (put, flags): (Put<'_, 0>, _) = (Put::Padded(bytes), format.flags());
        let given = Given::new(CheckCase::None, room, bytes).by(format.letters);
        let is_stopped = room < text.len();
        let text = first(text, room);
        let want = Taken { text, is_stopped };
        match sink {
            None => put.fills(&mut self.seen, given, &flags, want, &mut self.to),
            Some(mode) => put.is_taken(&mut self.seen, given, &flags, mode, want),
        }
    }

    // Tries a sink that has room for `room` bytes.
    fn takes(&mut self, sink: Option<Mode>, room: usize, format: Style, bytes: &[u8]) {
        self.seen.tries();
        let text = padded(format, bytes);
        self.puts(sink, room, format, bytes, text.as_slice());
    }

    // Tries each failing sink with `rooms` numbers of bytes for which it has room: the multiples of `step` from 0 on.
    fn fails(&mut self, rooms: usize, step: usize, format: Style, bytes: &[u8]) {
        for mode in FAILING {
            for i in 0..rooms {
                self.takes(Some(mode), i.saturating_mul(step), format, bytes);
            }
        }
    }

    // Tries a slice exactly as long as the text, and a sink that takes one byte at a time.
    fn pads(&mut self, format: Style, bytes: &[u8], text: &[u8]) {
        self.seen.tries();
        self.puts(None, text.len(), format, bytes, text);
        self.puts(Some(Mode::OneByte), text.len(), format, bytes, text);
    }

    fn pad(&mut self, format: Style, bytes: &[u8]) {
        self.pads(format, bytes, padded(format, bytes).as_slice());
    }

    fn shows(&mut self, bytes: &[u8], text: &[u8]) {
        self.seen.tries();
        let given = Given::new(CheckCase::None, 0, bytes);
        let is_shown = prints(self.alloc, &Hex::new(bytes), text);
        self.seen.is(given, "Display", is_shown, true);
    }
}

#[test]
fn examples_of_format_rs(rt: HostRuntime) {
    let mut tries = Tries::new(rt.alloc());
    tries.shows(&SMALL, b"00abcd");
    tries.shows(&SMALL[..2], b"00ab");
    tries.pads(format("#0X").wide(10, ' '), &SMALL, b"0x0000ABCD");
    tries.pads(format("#X"), &SMALL, b"0x00ABCD");
    tries.pads(format("#X"), &SMALL[..2], b"0x00AB");
    ends(&rt, tries.seen.ended(5));
}

// Prints four sources by the format `like` with each word of `letters`.
fn styles(tries: &mut Tries, letters: &'static str, like: Style) {
    for letters in letters.split(' ') {
        let format = Style { letters, ..like };
        for bytes in [[].as_slice(), &[0], &SMALL, &[0xff; 33]] {
            tries.pad(format, bytes);
        }
    }
}

#[test]
fn flags_match_standard_integer_padding(rt: HostRuntime) {
    let mut tries = Tries::new(rt.alloc());
    let plain = format("");
    styles(&mut tries, " # + +# X #X", plain);
    styles(&mut tries, " 0 #0 +#0 < # +#0X", plain.wide(20, ' '));
    styles(&mut tries, "^", plain.wide(21, ' '));
    styles(&mut tries, " <+#0 <+#0X", plain.wide(20, '*'));
    styles(&mut tries, " #", plain.wide(20, '0'));
    styles(&mut tries, "^ ^# ^#X", plain.wide(21, DIAMOND));
    for width in [0, 1, 2, 3, 7, 10, 19, 22, 67, 72] {
        styles(&mut tries, "^+#X", plain.wide(width, DIAMOND));
    }
    ends(&rt, tries.seen.ended(128));
}

#[test]
fn empty_sign_prefix_and_zero_padding_are_explicit(rt: HostRuntime) {
    let mut tries = Tries::new(rt.alloc());
    tries.pads(format(""), &[], b"");
    tries.pads(format("#X"), &[], b"0x");
    tries.pads(format("+#"), &[], b"+0x");
    tries.pads(format("+#0X").wide(8, ' '), &[0xab], b"+0x000AB");
    tries.pads(format("#X").wide(8, '0'), &[0xab], b"00000xAB");
    let text = "💠0xAB💠💠".as_bytes();
    tries.pads(format("^#X").wide(7, DIAMOND), &[0xab], text);
    tries.pads(format(""), &[0xab], b"ab");
    ends(&rt, tries.seen.ended(7));
}

#[test]
fn digits_in_pieces(rt: HostRuntime) {
    let mut tries = Tries::new(rt.alloc());
    let (bytes, two) = ([0, 1, 2], [0xab, 0xcd]);
    let [pairs, singles] = [format("").grouped(2, b':'), format("").grouped(1, b':')];
    let styled = |letters, like: Style| Style { letters, ..like };
    tries.pads(styled("+#0", pairs.wide(12, ' ')), &bytes, b"+0x000001:02");
    tries.pads(styled("^", pairs.wide(10, '*')), &bytes, b"*0001:02**");
    tries.pads(format("").grouped(1, b' '), &bytes, b"00 01 02");
    for every in [usize::MAX, 3, 4] {
        tries.pads(format("").grouped(every, b':'), &bytes, b"000102");
    }
    tries.pads(styled("#", pairs), &[], b"0x");
    tries.pads(pairs.wide(3, '*'), &[], b"***");
    tries.pads(pairs.wide(6, '*'), &bytes, b"0001:02");
    tries.pads(pairs.wide(7, '*'), &bytes, b"0001:02");
    tries.pads(pairs.wide(8, '*'), &bytes, b"*0001:02");
    let format = format("<").grouped(1, b'-');
    tries.pads(format.wide(9, '*'), &bytes, b"00-01-02*");
    tries.pads(styled("X", singles.grouped(1, b'g')), &two, b"ABgCD");
    let dots = singles.grouped(1, b'.').wide(10, DIAMOND);
    tries.pads(styled("+#X", dots), &two, "💠💠+0xAB.CD".as_bytes());
    tries.pads(styled("0", singles.wide(9, ' ')), &two, b"0000ab:cd");
    tries.pads(styled("#0", singles.wide(6, ' ')), &two, b"0xab:cd");
    ends(&rt, tries.seen.ended(16));
}

#[test]
fn sixteen_bytes_as_xxd_prints_them(rt: HostRuntime) {
    let mut tries = Tries::new(rt.alloc());
    let bytes = multiples::<16>(1, 0);
    let text = b"00 01 02 03 04 05 06 07 08 09 0a 0b 0c 0d 0e 0f";
    tries.pads(format("").grouped(1, b' '), &bytes, text);
    let text = b"0001 0203 0405 0607 0809 0a0b 0c0d 0e0f";
    tries.pads(format("").grouped(2, b' '), &bytes, text);
    let text = b"00010203 04050607 08090a0b 0c0d0e0f";
    tries.pads(format("").grouped(4, b' '), &bytes, text);
    ends(&rt, tries.seen.ended(3));
}

#[test]
fn widths_about_the_length_and_pieces_of_each_length(rt: HostRuntime) {
    let mut tries = Tries::new(rt.alloc());
    for width in 0..4 {
        tries.pad(format("").wide(width, ' '), &[0xab]);
    }
    tries.pad(format(""), &[0, 0, 0xab, 0]);
    tries.pad(format("^+#X").wide(9, DIAMOND), &SMALL);
    tries.pad(format("^+#X").wide(69, DIAMOND), &[0xff; 33]);
    tries.pad(format("").grouped(512, b'-'), &LARGE[..513]);
    let rows = [
        0, 1, 2, 3, 7, 8, 9, 16, 17, 63, 64, 65, 511, 512, 513, 1_023, 1_024, 1_025, 1_537,
    ];
    for len in rows {
        let bytes = [0x5c; 1_537];
        let bytes = first(&bytes, len);
        let large = [
            15, 16, 17, 31, 32, 33, 64, 100, 256, 257, 511, 512, 513, 1_024,
        ];
        for every in (1..11).chain(large) {
            tries.pad(format("").grouped(every, b'_'), bytes);
        }
    }
    ends(&rt, tries.seen.ended(464));
}

#[test]
fn bytes_keep_their_order_and_leading_zeroes(rt: HostRuntime) {
    let mut tries = Tries::new(rt.alloc());
    let bytes = multiples::<4_097>(1, 0);
    let lens = [
        0, 1, 7, 8, 16, 32, 63, 64, 127, 128, 129, 255, 256, 257, 511, 512, 513, 1_024, 4_097,
    ];
    for len in lens {
        let bytes = first(&bytes, len);
        tries.shows(bytes, padded(format(""), bytes).as_slice());
        tries.pad(format(""), bytes);
        tries.pad(format("X"), bytes);
    }
    tries.shows(&[0, 0, 0xab, 0], b"0000ab00");
    ends(&rt, tries.seen.ended(58));
}

#[test]
fn padded_texts_of_each_length(rt: HostRuntime) {
    let mut tries = Tries::new(rt.alloc());
    let (list, units) = (listed::<2_048>(0), [0x5c; 2_048]);
    for len in 1..2_049 {
        let bytes = first(&list, len);
        tries.pad(format(""), bytes);
        tries.pad(format("X"), bytes);
        let bytes = first(&units, len);
        tries.pad(format("").grouped(3, b':'), bytes);
    }
    ends(&rt, tries.seen.ended(6_144));
}

#[test]
fn a_full_slice_has_the_beginning(rt: HostRuntime) {
    let mut tries = Tries::new(rt.alloc());
    tries.takes(None, 3, format("+#"), &[0xab]);
    for letters in ["", "^", "<", "+#0"] {
        let format = format(letters).wide(usize::MAX, ' ');
        tries.takes(None, 10, format, &[0xab]);
        tries.takes(None, 10, format.grouped(1, b':'), &[0xab, 0xcd]);
    }
    ends(&rt, tries.seen.ended(9));
}

#[test]
fn partial_writer_errors_preserve_the_exact_accepted_prefix(rt: HostRuntime) {
    let mut tries = Tries::new(rt.alloc());
    for (letters, fill, len) in [
        ("^+#X", DIAMOND, 1_073),
        ("+#", DIAMOND, 1_073),
        ("+#0X", ' ', 1_040),
    ] {
        let format = format(letters).wide(1_040, fill);
        tries.fails(len + 1, 1, format, &LARGE[..513]);
        tries.takes(Some(Mode::OneByte), len, format, &LARGE[..513]);
    }
    ends(&rt, tries.seen.ended(12_759));
}

#[test]
fn writer_errors_stop_immediately_and_preserve_accepted_text(rt: HostRuntime) {
    let mut tries = Tries::new(rt.alloc());
    for len in [0, 1, 10, 32, 128, 129, 513] {
        let bytes = first(&LARGE, len);
        let width = bytes.len().saturating_mul(2).saturating_add(14);
        tries.fails(1_101, 1, format("^+#X").wide(width, DIAMOND), bytes);
        tries.fails(1_101, 1, format("+#X"), bytes);
    }
    ends(&rt, tries.seen.ended(61_656));
}

// An empty text meets no failure, and any other fails if nothing is taken. Sinks then fail among few grouped digits,
// between parts of long texts, and within a long piece. No put has more than 1,024 digits.
#[test]
fn failures_among_digits(rt: HostRuntime) {
    let mut tries = Tries::new(rt.alloc());
    tries.takes(Some(Mode::OneByte), 0, format(""), &[]);
    tries.fails(1, 1, format(""), &[]);
    tries.fails(1, 1, format(""), &[0xab]);
    tries.fails(39, 1, format("").grouped(2, b':'), &[0x5c; 16]);
    tries.fails(14, 97, format("").grouped(4, b':'), &[0x5c; 600]);
    tries.fails(14, 100, format("").grouped(600, b':'), &[0x5c; 700]);
    let long = Some(Mode::RefusesLong);
    tries.takes(long, 1_100, format(""), &LARGE[..513]);
    tries.takes(long, 1_100, format("").grouped(520, b':'), &LARGE[..530]);
    ends(&rt, tries.seen.ended(279));
}

// A put into a `WriterSink` is one write of the whole piece, also of an empty one, and no flush.
fn is_put(alloc: Global, count: usize) -> bool {
    let Ok(piece) = Vec::from_elem(alloc, b'a', count) else {
        return false;
    };
    let mut writer = Taker::new(Pattern::once(piece.as_slice()));
    writer.script = &[i32::MAX; 2];
    let mut sink = WriterSink::new(writer);
    let is_put = sink.put(piece.as_slice()) == Ok(count) && sink.put(&[]) == Ok(0);
    let writer = sink.into_inner();
    is_put && writer.is_filled() && writer.script.is_empty() && writer.flushes == 0
}

#[test]
fn a_put_is_one_write(rt: HostRuntime) {
    let mut seen = Seen::new();
    for count in (1..2_049).chain([2_000_000]) {
        seen.tries();
        let given = Given::new(CheckCase::None, count, &[]);
        seen.is(given, "put", is_put(rt.alloc(), count), true);
    }
    ends(&rt, seen.ended(2_049));
}

#[test]
fn a_group_has_pieces_and_an_ascii_separator_that_is_no_digit(rt: HostRuntime) {
    let mut seen = Seen::new();
    for every in [0, 1, 2, 513, usize::MAX] {
        for sep in 0..=255_u8 {
            seen.tries();
            let is_digit = value(sep, CheckCase::None).is_some();
            let is_group = every > 0 && sep < 0x80 && !is_digit;
            let got = Group::new(every, sep).map(|group| (group.every(), group.sep()));
            let is_so = got == if is_group { Some((every, sep)) } else { None };
            let src = [sep];
            let given = Given::new(CheckCase::None, every, &src);
            seen.is(given, "Group::new", is_so, true);
        }
    }
    ends(&rt, seen.ended(1_280));
}
