//! Families of digits that are fed to a decoder in chunks.

use crate::ends;
use crate::grouped::{ANY, LOWER, UPPER};
use hex_core::{CheckCase, Error};
use hex_io::stream::Decoder;
use test_kit::destination::Destination;
use test_kit::model::{decode_pairs, first_invalid};
use test_kit::seen::{Given, Seen};
use test_kit::source::{first, repeated, with};

// The most chunks of a source: above twice the longest length, because half of the shortest chunks are empty.
const CHUNKS: usize = 24_000;

// The longest chunk for each seed modulo 6.
const WIDEST: [u64; 6] = [1, 2, 8, 70, 300, 3_000];

// Returns the length of the next chunk, which may be 0, from a linear congruential generator.
fn next_length(state: &mut u64, widest: u64) -> usize {
    let product = state.wrapping_mul(6_364_136_223_846_793_005);
    *state = product.wrapping_add(1_442_695_040_888_963_407);
    let length = (*state >> 33).checked_rem(widest.saturating_add(1));
    length.unwrap_or(0) as usize
}

// Feeds a source in chunks, whose lengths the seed `given.number` determines. Returns the number of bytes written, and
// the error if there is one.
fn feed_all(decoder: &mut Decoder, given: Given<'_>, dst: &mut [u8]) -> (usize, Result<(), Error>) {
    let mut state = given.number as u64;
    let widest = WIDEST[given.number % 6];
    let (mut fed, mut written): (usize, usize) = (0, 0);
    for _ in 0..CHUNKS {
        if fed >= given.src.len() {
            break;
        }
        let end = fed.saturating_add(next_length(&mut state, widest));
        let end = end.min(given.src.len());
        let chunk = given.src.get(fed..end).unwrap_or_default();
        match decoder.feed(chunk, dst.get_mut(written..).unwrap_or_default()) {
            Ok(more) => written = written.saturating_add(more),
            Err(e) => return (written, Err(e)),
        }
        fed = end;
    }
    (written, Ok(()))
}

// Returns what decoding a source must give: its error, or the bytes of its pairs.
fn model<'a>(given: Given<'_>, pairs: &'a [u8]) -> Result<&'a [u8], Error> {
    match first_invalid(given.src, given.case) {
        Some(index) => {
            let byte = given.src.get(index).copied().unwrap_or(0);
            Err(Error::InvalidChar { index, byte })
        }
        None if given.src.len() % 2 == 1 => Err(Error::OddLength),
        None => Ok(pairs),
    }
}

// Feeds a source in chunks, and in one chunk the pairs of digits before its first invalid byte.
fn feeds(seen: &mut Seen, given: Given<'_>, to: &mut Destination) {
    seen.tries();
    let len = given.src.len();
    let invalid = first_invalid(given.src, given.case);
    let valid = invalid.unwrap_or(len);
    let mut bytes = [0; 5_000];
    let pairs = decode_pairs(first(given.src, valid), &mut bytes);
    let mut decoder = Decoder::new(given.case);
    let (written, fed) = feed_all(&mut decoder, given, to.lend(len / 2));
    let front: Result<_, Error> = Ok(first(pairs, written));
    to.is_left(seen, given, "Decoder::feed", front);
    let position = decoder.position();
    let is_behind = match invalid {
        Some(index) => position <= index,
        None => position == len,
    };
    seen.is(
        given,
        "Decoder::position",
        is_behind && position / 2 == written,
        true,
    );
    let ended = if fed.is_ok() { decoder.finish() } else { fed };
    let got = ended.and(Ok(written));
    seen.counts(given, "Decoder::finish", got, model(given, pairs));
    let digits = first(given.src, valid / 2 * 2);
    let got = Decoder::new(given.case).feed(digits, to.lend(valid / 2));
    let all: Result<_, Error> = Ok(pairs);
    seen.counts(given, "Decoder::feed", got, all);
    to.is_left(seen, given, "Decoder::feed", all);
}

// Returns digits that a policy reads.
fn source(case: CheckCase) -> [u8; 10_000] {
    let mut digits = repeated(
        b"a81d0a9128005a7e89DdBa8927D0faC7B0ca7CC8553Ffe68965eFBa65601C5FD466fd5Be6aFd831278Ec97E72b789a68555a207AbfDE08c2b2fa57812B",
    );
    for i in 0..digits.len() {
        digits[i] = match case {
            CheckCase::None => digits[i],
            CheckCase::Lower => digits[i].to_ascii_lowercase(),
            CheckCase::Upper => digits[i].to_ascii_uppercase(),
        };
    }
    digits
}

// Tries `len` digits in the chunks of each seed below `seeds`.
fn each_seed(seen: &mut Seen, case: CheckCase, len: usize, seeds: usize) {
    let src = source(case);
    let mut to = Destination::new();
    for seed in 0..seeds {
        feeds(seen, Given::new(case, seed, first(&src, len)), &mut to);
    }
}

#[test]
fn digits_fed_in_chunks(rt: HostRuntime) {
    let mut seen = Seen::new();
    let s = &mut seen;
    each_seed(s, ANY, 300, 600);
    each_seed(s, ANY, 1_000, 600);
    each_seed(s, ANY, 4_096, 300);
    each_seed(s, ANY, 10_000, 200);
    each_seed(s, LOWER, 2_000, 600);
    each_seed(s, UPPER, 2_000, 600);
    each_seed(s, ANY, 301, 600);
    each_seed(s, ANY, 4_097, 300);
    each_seed(s, ANY, 9_999, 200);
    ends(&rt, seen.ended(4_000));
}

// Tries `len` digits with an invalid byte at `count` places. The place grows by `step` each time, the seed by `more`.
fn each_place(
    seen: &mut Seen,
    case: CheckCase,
    len: usize,
    byte: u8,
    [start, step, count]: [usize; 3],
    more: usize,
) {
    let digits = source(case);
    let mut to = Destination::new();
    for i in 0..count {
        let src = with(digits, start.saturating_add(step.saturating_mul(i)), byte);
        let given = Given::new(case, more.saturating_mul(i), first(&src, len));
        feeds(seen, given, &mut to);
    }
}

#[test]
fn digits_fed_in_chunks_with_an_invalid_byte(rt: HostRuntime) {
    let mut seen = Seen::new();
    let s = &mut seen;
    each_place(s, ANY, 1_000, b'g', [0, 2, 500], 1);
    each_place(s, ANY, 1_000, b'g', [1, 2, 500], 5);
    each_place(s, ANY, 1_001, 0xff, [0, 2, 500], 1);
    each_place(s, ANY, 1_001, 0xff, [1, 2, 500], 5);
    each_place(s, ANY, 10_000, b':', [0, 24, 400], 1);
    each_place(s, ANY, 10_000, b':', [7, 24, 400], 5);
    each_place(s, LOWER, 1_000, b'A', [0, 2, 500], 1);
    each_place(s, UPPER, 1_000, b'a', [1, 2, 500], 5);
    ends(&rt, seen.ended(3_800));
}
