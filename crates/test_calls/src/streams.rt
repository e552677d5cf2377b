//! Families of streams. Each ends as it must, after no more reads and puts than it needs.

use crate::ends;
use crate::grouped::{ANY, LOWER, UPPER, text_len};
use crate::sinks::{Mode, Taking};
use hex_codec::Group;
use hex_core::{CheckCase, Error};
use hex_io::stream::{
    StreamFault, decode_spaced_stream, decode_stream, encode_grouped_stream, encode_stream,
};
use hex_io::{SinkFault, WriteFault};
use std::io::ErrorKind;
use test_kit::fakes::{Giver, Pattern};
use test_kit::model::value;
use test_kit::seen::{Given, Seen};
use test_kit::source::{first, repeated, with};

// The most bytes that one read asks for when a stream is decoded, and when it is encoded.
const DECODED: usize = 16_384;

const ENCODED: usize = 8_192;

// The bytes that most streams repeat, and their digits in lines of 30 bytes and with white space.
const BYTES: &[u8] = b"\x00\xab\xff\x10\x32";

const LOWER_LINE: &[u8] = b"00abff103200abff103200abff103200abff103200abff103200abff1032\n";

const UPPER_LINE: &[u8] = b"00ABFF103200ABFF103200ABFF103200ABFF103200ABFF103200ABFF1032\n";

const SPACED: &[u8] = b"00\nAb f\tF1\x0c032\r\n";

fn digits(case: CheckCase) -> &'static [u8] {
    match case {
        CheckCase::None => b"00abfF1032",
        CheckCase::Lower => b"00abff1032",
        CheckCase::Upper => b"00ABFF1032",
    }
}

#[derive(Clone, Copy)]
struct Stream<'a> {
    // The name of the call, and its group if it has one.
    call: &'static str,
    group: Option<Group>,
    case: CheckCase,
    // The bytes that the reader repeats, how many it gives in all and per read, and how often each read is interrupted.
    unit: &'a [u8],
    count: usize,
    every: usize,
    halts: usize,
    fails: bool,
    // The bytes that the sink must take repeatedly, how many it takes in all, and how many failures it counted before.
    text: &'a [u8],
    room: usize,
    failures: u64,
}

// What a call must give, and how many bytes the sink must take.
type Ended = (Result<usize, StreamFault>, usize);

impl<'a> Stream<'a> {
    // Returns the stream with other reads, and a sink of another room.
    fn by(mut self, every: usize, halts: usize, room: usize) -> Stream<'a> {
        self.every = every;
        self.halts = halts;
        self.room = room;
        self
    }

    fn of(mut self, unit: &'a [u8], text: &'a [u8]) -> Stream<'a> {
        self.unit = unit;
        self.text = text;
        self
    }

    // Returns the stream with a read that fails at its end.
    fn fails(mut self) -> Stream<'a> {
        self.fails = true;
        self
    }

    // Returns the stream with a sink that has counted failures before.
    fn after(mut self, failures: u64) -> Stream<'a> {
        self.failures = failures;
        self
    }

    fn source(self) -> Pattern<'a> {
        let mut source = Pattern::once(&[]);
        source.unit = self.unit;
        source.count = self.count;
        source
    }

    fn decodes(self) -> bool {
        matches!(self.call, "decode" | "spaced")
    }

    // Returns how the stream ends: as `end` says after `put` bytes, or with a full sink if there is no room for them.
    fn ended(self, put: usize, end: Result<usize, StreamFault>) -> Ended {
        let full = StreamFault::Write(WriteFault::Sink(SinkFault));
        if put > self.room {
            (Err(full), self.room)
        } else {
            (end, put)
        }
    }

    // Returns how decoding must end. Before each read, the whole pairs of all earlier reads are put.
    fn decoded(self) -> Ended {
        let (mut digits, mut put): (usize, usize) = (0, 0);
        for index in 0..self.count {
            if index.checked_rem(self.every.min(DECODED)) == Some(0) {
                put = digits / 2;
            }
            let byte = self.source().at(index).unwrap_or(0);
            if value(byte, self.case).is_some() {
                digits = digits.saturating_add(1);
            } else if self.call == "decode" || !b" \t\n\x0c\r".contains(&byte) {
                let invalid = Error::InvalidChar { index, byte };
                return self.ended(put, Err(StreamFault::Codec(invalid)));
            }
        }
        let end = match digits % 2 {
            _ if self.fails => Err(StreamFault::Read),
            0 => Ok(digits / 2),
            _ => Err(StreamFault::Codec(Error::OddLength)),
        };
        self.ended(digits / 2, end)
    }

    // Returns how encoding must end.
    fn encoded(self) -> Ended {
        let every = self.group.map_or(usize::MAX, |group| group.every());
        let fault = Err(StreamFault::Read);
        let end = if self.fails { fault } else { Ok(self.count) };
        self.ended(text_len(self.count, every), end)
    }

    fn calls(self, reader: &mut Giver<'_>, sink: &mut Taking<'_>) -> Result<usize, StreamFault> {
        let is_upper = self.case == UPPER;
        match self.group {
            Some(group) => encode_grouped_stream(reader, sink, group, is_upper),
            None if self.call == "encode" => encode_stream(reader, sink, is_upper),
            None if self.call == "decode" => decode_stream(reader, sink, self.case),
            None => decode_spaced_stream(reader, sink, self.case),
        }
    }

    // Returns the number of bytes by which reads are counted. In a grouped stream it is half a read, because a read
    // that ends within a group is followed by one more, to the end of that group.
    fn chunk(self) -> usize {
        match self.group {
            Some(_) => self.every.min(ENCODED).div_ceil(2),
            None if self.decodes() => DECODED,
            None => ENCODED,
        }
    }

    // Tries the stream, and compares how it ends with how it must.
    fn run(self, seen: &mut Seen) {
        seen.tries();
        let decodes = self.decodes();
        let (want, taken) = if decodes {
            self.decoded()
        } else {
            self.encoded()
        };
        let mut reader = Giver::new(self.source());
        reader.every = self.every;
        reader.halts = self.halts;
        reader.failure = self.fails.then_some(ErrorKind::WouldBlock);
        let mut text = Pattern::once(&[]);
        text.unit = self.text;
        text.count = taken;
        let mut sink = Taking::new(Mode::ThenRefuses, text, self.room, self.failures);
        let got = self.calls(&mut reader, &mut sink);
        let is_full = matches!(want, Err(StreamFault::Write(_)));
        let failures = self.failures.saturating_add(u64::from(is_full));
        // One put for each read that gave bytes, and one that is refused.
        let puts = reader.reads.saturating_sub(reader.ended);
        let is_put = sink.puts <= puts.saturating_add(usize::from(is_full));
        let is_read = reader.ended < 2 && reader.is_read_by(self.chunk());
        let given = Given::new(self.case, self.count, self.unit).by(self.call);
        let all = b"".as_slice();
        seen.gives(given, "stream", got.and(Ok(all)), want.and(Ok(all)));
        seen.is(given, "number", got.unwrap_or(0), want.unwrap_or(0));
        seen.is(given, "few reads", is_read, true);
        seen.is(given, "few puts", is_put, true);
        seen.is(given, "sink", sink.is_filled(failures), true);
    }
}

// Returns a stream that is decoded.
fn decode(case: CheckCase, count: usize) -> Stream<'static> {
    Stream {
        call: "decode",
        group: None,
        case,
        unit: digits(case),
        count,
        every: 8_192,
        halts: 0,
        fails: false,
        text: BYTES,
        room: 10_500,
        failures: 0,
    }
}

// Returns a stream of digits and white space.
fn spaced(case: CheckCase, count: usize) -> Stream<'static> {
    let mut stream = decode(case, count).of(SPACED, BYTES);
    stream.call = "spaced";
    stream.by(4_096, 0, 10_000)
}

// Returns a stream that is encoded.
fn encode(case: CheckCase, count: usize) -> Stream<'static> {
    let mut stream = decode(case, count).of(BYTES, digits(case));
    stream.call = "encode";
    stream.by(4_096, 0, 50_000)
}

// Returns a stream that is encoded in groups.
fn grouped(case: CheckCase, count: usize, every: usize, sep: u8) -> Stream<'static> {
    let mut stream = encode(case, count);
    stream.call = "grouped";
    stream.group = Group::new(every, sep);
    stream
}

// Returns a stream that is encoded in lines of 30 bytes.
fn lines(case: CheckCase, count: usize) -> Stream<'static> {
    let is_upper = case == UPPER;
    let line = if is_upper { UPPER_LINE } else { LOWER_LINE };
    grouped(case, count, 30, b'\n').of(BYTES, line)
}

#[test]
fn streams_of_several_chunks(rt: HostRuntime) {
    let mut seen = Seen::new();
    let s = &mut seen;
    for every in [1, 7, 3_000, 8_191, 8_192, 100_000] {
        decode(ANY, 21_000).by(every, 0, 10_500).run(s);
        encode(LOWER, 21_000).by(every, 0, 42_000).run(s);
    }
    encode(UPPER, 21_000).run(s);
    decode(LOWER, 21_000).run(s);
    decode(UPPER, 21_000).run(s);
    for halts in 1..=3 {
        for every in [3, 8_192] {
            decode(ANY, 21_000).by(every, halts, 10_500).run(s);
            encode(UPPER, 21_000).by(every, halts, 42_000).run(s);
        }
        decode(ANY, 300).by(70, halts, 150).after(5).run(s);
        encode(LOWER, 300).by(70, halts, 600).after(5).run(s);
    }
    decode(ANY, 0).of(b"0", b"0").by(1, 0, 0).run(s);
    encode(LOWER, 0).of(b"0", b"0").by(1, 0, 0).run(s);
    ends(&rt, seen.ended(35));
}

#[test]
fn streams_in_groups(rt: HostRuntime) {
    let mut seen = Seen::new();
    let s = &mut seen;
    for (case, text) in [(LOWER, b"00:ab:ff:10:32:"), (UPPER, b"00:AB:FF:10:32:")] {
        let some = grouped(case, 300, 1, b':').of(BYTES, text);
        some.by(70, 0, 1_000).run(s);
    }
    for every in [1, 7, 1_000] {
        let some = grouped(LOWER, 300, 2, b' ').of(b"\x00\xab\xff\x10", b"00ab ff10 ");
        some.by(every, 0, 1_000).run(s);
    }
    for (every, halts) in [(1, 0), (2, 2), (29, 0), (31, 1), (100, 0), (1_000, 3)] {
        lines(LOWER, 300).by(every, halts, 700).run(s);
    }
    for every in [1, 7, 3_000, 8_189, 8_192, 100_000] {
        let some = grouped(UPPER, 21_000, 5, b':').of(BYTES, b"00ABFF1032:");
        some.by(every, 0, 50_000).run(s);
    }
    for every in [1, 29, 3_000, 8_191, 8_192, 100_000] {
        lines(LOWER, 21_000).by(every, 0, 50_000).run(s);
    }
    let text: [u8; 16_391] = with(repeated(digits(LOWER)), 16_390, b':');
    for every in [7, 8_191, 8_192, 100_000] {
        let some = grouped(LOWER, 21_000, 8_195, b':').of(BYTES, &text);
        some.by(every, 0, 50_000).run(s);
    }
    grouped(LOWER, 21_000, 21_000, b':').run(s);
    let whole = grouped(LOWER, 21_000, usize::MAX, b':');
    whole.by(100_000, 0, 50_000).run(s);
    for count in [0, 1, 29, 30, 31] {
        lines(LOWER, count).by(100, 0, 100).run(s);
    }
    let none = grouped(LOWER, 0, 3, b':').of(b"0", b"0");
    none.by(1, 0, 0).run(s);
    ends(&rt, seen.ended(35));
}

// What `xxd -p` prints of the bytes 0 to 63.
const PRINTED: &[u8] = b"\
000102030405060708090a0b0c0d0e0f101112131415161718191a1b1c1d\n\
1e1f202122232425262728292a2b2c2d2e2f303132333435363738393a3b\n\
3c3d3e3f\n";

#[test]
fn white_space_among_digits_is_skipped(rt: HostRuntime) {
    let mut seen = Seen::new();
    let s = &mut seen;
    let mut bytes = [0; 64];
    for byte in 0..64 {
        bytes[byte] = byte as u8;
    }
    let printed = spaced(ANY, 131).of(PRINTED, &bytes);
    printed.by(4_096, 0, 64).run(s);
    spaced(ANY, 32_000).by(1, 0, 10_000).run(s);
    spaced(ANY, 32_000).by(7, 2, 10_000).after(3).run(s);
    spaced(ANY, 32_000).by(100_000, 0, 10_000).run(s);
    spaced(ANY, 9_000).of(b" \n", b"0").by(4_096, 0, 0).run(s);
    spaced(ANY, 5).of(b"00\x0b11", b"0").by(5, 0, 9).run(s);
    spaced(LOWER, 5).of(b"00\nAb", b"0").by(5, 0, 9).run(s);
    for place in [0, 4_096, 8_192] {
        let unit: [u8; 32_000] = with(repeated(SPACED), place, b'g');
        spaced(ANY, 32_000).of(&unit, BYTES).run(s);
    }
    spaced(ANY, 32_001).run(s);
    spaced(ANY, 32_001).fails().run(s);
    for failures in [0, u64::MAX] {
        let some = spaced(ANY, 32_000).by(4_096, 0, 9_000);
        some.after(failures).run(s);
    }
    ends(&rt, seen.ended(14));
}

// Tries `count` digits with the byte `byte` at a place.
fn invalid(seen: &mut Seen, case: CheckCase, count: usize, place: usize, byte: u8, every: usize) {
    let unit: [u8; 21_001] = with(repeated(digits(case)), place, byte);
    let some = decode(case, count).of(first(&unit, count), BYTES);
    some.by(every, 0, 10_500).run(seen);
}

#[test]
fn invalid_bytes_in_each_chunk(rt: HostRuntime) {
    let mut seen = Seen::new();
    let s = &mut seen;
    for place in [
        0, 8_192, 16_384, 1, 8_193, 16_385, 4_095, 12_287, 20_479, 20_999,
    ] {
        invalid(s, ANY, 21_000, place, b'g', 8_192);
    }
    for chunk in 0..30 {
        invalid(s, ANY, 21_000, 700 * chunk, 0xff, 700);
    }
    invalid(s, LOWER, 21_000, 8_190, b'A', 8_192);
    invalid(s, LOWER, 21_000, 16_382, b'A', 8_192);
    for place in [7, 8_199, 16_391, 20_999, 21_000] {
        invalid(s, ANY, 21_001, place, b'g', 8_192);
    }
    ends(&rt, seen.ended(47));
}

#[test]
fn odd_lengths_and_reads_that_fail(rt: HostRuntime) {
    let mut seen = Seen::new();
    let s = &mut seen;
    decode(ANY, 21_001).run(s);
    decode(ANY, 21_001).by(1, 1, 10_500).run(s);
    decode(ANY, 1).by(1, 0, 9).run(s);
    for count in [8_192, 21_000, 21_001, 0, 1, 12, 101, 300] {
        decode(ANY, count).fails().run(s);
        encode(LOWER, count).by(4_096, 2, 50_000).fails().run(s);
    }
    for (count, every) in [(0, 9), (1, 9), (29, 9), (30, 30), (31, 1), (300, 70)] {
        lines(LOWER, count).by(every, 2, 50_000).fails().run(s);
    }
    for count in [8_190, 8_191, 21_000] {
        let some = lines(UPPER, count).by(4_096, 1, 50_000);
        some.after(3).fails().run(s);
    }
    let some = decode(ANY, 21_001).by(1, 3, 10_500);
    some.after(7).fails().run(s);
    let unit: [u8; 21_000] = with(repeated(digits(ANY)), 8_200, b'g');
    decode(ANY, 21_000).of(&unit, BYTES).fails().run(s);
    ends(&rt, seen.ended(30));
}

#[test]
fn full_sinks_end_streams(rt: HostRuntime) {
    let mut seen = Seen::new();
    let s = &mut seen;
    for room in [0, 1, 4_095, 4_096, 4_097, 10_499] {
        decode(ANY, 21_000).by(8_192, 1, room).run(s);
    }
    for room in [0, 4, 16_380, 16_384, 16_388, 41_996] {
        encode(UPPER, 21_000).by(4_096, 1, room).run(s);
    }
    for room in [0, 1, 60, 61, 62, 607, 608] {
        lines(LOWER, 300).by(41, 1, room).run(s);
    }
    for room in [16_653, 16_654, 42_698] {
        lines(LOWER, 21_000).by(4_096, 1, room).after(7).run(s);
    }
    lines(LOWER, 21_000).by(4_096, 0, 42_699).after(5).run(s);
    for room in [9, 10_500] {
        decode(ANY, 21_000).by(8_192, 0, room).after(5).run(s);
    }
    for room in [9, 42_000] {
        encode(LOWER, 21_000).by(4_096, 0, room).after(5).run(s);
    }
    let unit: [u8; 21_000] = with(repeated(digits(ANY)), 8_192, b'g');
    let some = decode(ANY, 21_000).of(&unit, BYTES).by(8_192, 0, 4_096);
    some.after(5).run(s);
    ends(&rt, seen.ended(28));
}

const CASES: [(CheckCase, &[u8]); 3] = [(ANY, b"0aFf"), (LOWER, b"0aff"), (UPPER, b"0AFF")];

// Tries streams of `count` bytes, in one chunk, and in `count` chunks.
fn each_call(seen: &mut Seen, count: usize) {
    let (double, triple) = (count.saturating_mul(2), count.saturating_mul(3));
    for (case, unit) in CASES {
        let whole = decode(case, double).of(unit, b"\x0a\xff");
        whole.by(100_000, 0, count).run(seen);
        let whole = spaced(case, triple).of(b"0\n0", b"\0");
        whole.by(100_000, 0, count).run(seen);
        whole.by(3, 0, count).run(seen);
    }
    decode(ANY, double).by(2, 0, count).run(seen);
    encode(LOWER, count).by(100_000, 0, double).run(seen);
    encode(UPPER, count).by(100_000, 0, double).run(seen);
    encode(LOWER, count).by(1, 0, double).run(seen);
    let room = text_len(count, 30);
    lines(LOWER, count).by(100_000, 0, room).run(seen);
    lines(UPPER, count).by(1, 0, room).run(seen);
}

#[test]
fn streams_of_each_length(rt: HostRuntime) {
    let mut seen = Seen::new();
    for count in 1..=2_048 {
        each_call(&mut seen, count);
    }
    ends(&rt, seen.ended(30_720));
}

#[test]
fn streams_of_millions_of_bytes_and_many_interruptions(rt: HostRuntime) {
    let mut seen = Seen::new();
    let s = &mut seen;
    for (case, unit) in CASES {
        let some = decode(case, 12_000_000).of(unit, b"\x0a\xff");
        some.by(8_192, 0, 6_000_000).run(s);
    }
    encode(LOWER, 6_000_000).by(4_096, 0, 12_000_000).run(s);
    encode(UPPER, 6_000_000).by(4_096, 0, 12_000_000).run(s);
    let some = lines(LOWER, 6_000_000);
    some.by(100_000, 0, 20_000_000).run(s);
    decode(ANY, 100).by(7, 100_000, 50).run(s);
    ends(&rt, seen.ended(7));
}
