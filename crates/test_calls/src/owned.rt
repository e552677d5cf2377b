//! The calls that return a vector or a string, or append to a string. Each allocates at most once.

ghost use Rattle.std.specs.Prelude.{◌<◌};

use crate::ends;
use crate::sized::{SPELLINGS, array, array_gives, fixed, multiples, spelled};
use crate::slices::{POLICIES, Slices, invalid};
use hex_codec::{
    hex_append, hex_append_into, hex_append_upper, hex_decode_vec, hex_decode_vec_with_case,
    hex_string, hex_string_upper,
};
use hex_core::CheckCase::{Lower, None as Either, Upper};
use hex_core::{CheckCase, Error};
use hex_io::Hex;
use std::alloc::Global;
use test_kit::refusing::Refusing;
use test_kit::seen::{Given, Seen};
use test_kit::source::{alphabet, digits, first, listed, placed, repeated, with};
use test_kit::{model, prints};

// A string that is appended to.
type Text<'r> = String<&'r Refusing<Global>>;

type Want<'a> = Result<&'a [u8], Error>;

// What a string has before an append: seven bytes, not all of them ASCII.
const BEFORE: &str = "前缀:";

// The unit that long sources repeat.
const UNIT: &[u8] = b"\x00\x49\x92\xdb\x24\x6d\xb6\xff\x10\x2f\x8e\x17\xc3\xa4\x5d";

// Returns the bytes of the string that encoding returns.
fn string<'r>(
    alloc: &'r Refusing<Global>,
    given: Given<'_>,
) -> Result<Vec<u8, &'r Refusing<Global>>, Error> {
    let got = if given.is_upper() {
        hex_string_upper(alloc, given.src)
    } else {
        hex_string(alloc, given.src)
    };
    got.map(String::into_bytes)
}

// Appends by the call that returns the appended text.
fn lends<'t>(given: Given<'_>, text: &'t mut Text<'_>) -> Result<&'t [u8], Error> {
    let got = if given.is_upper() {
        hex_append_upper(given.src, text)
    } else {
        hex_append(given.src, text)
    };
    got.map(str::as_bytes)
}

// Returns a string with a capacity and a text.
fn with_text<'r>(alloc: &'r Refusing<Global>, capacity: usize, text: &str) -> Option<Text<'r>> {
    let mut string = String::with_capacity(alloc, capacity).ok()?;
    match string.push_str(text) {
        Ok(()) => Some(string),
        Err(_) => None,
    }
}

// A call that makes a vector or a string.
#[derive(Clone, Copy)]
enum Call {
    Vector,
    VectorWithCase,
    String,
}

// In these tests `given.number` is the number of allocations that are granted.
#[derive(Drop)]
struct Tries {
    seen: Seen,
    alloc: Global,
}

impl Tries {
    fn new(alloc: Global) -> Tries {
        let seen = Seen::new();
        Tries { seen, alloc }
    }

    // Tries a call that gives `want` if there is memory. It must allocate before it looks at a byte, no more than it
    // needs, and nothing for an empty source or an odd length.
    fn makes(&mut self, call: Call, given: Given<'_>, want: Want<'_>) {
        let (src, case) = (given.src, given.case);
        let refusing = Refusing::new(self.alloc, given.number as u64);
        let (call, got) = match call {
            Call::Vector => ("decode_vec", hex_decode_vec(&refusing, src)),
            Call::VectorWithCase => {
                let got = hex_decode_vec_with_case(&refusing, src, case);
                ("decode_vec_with_case", got)
            }
            Call::String => ("string", string(&refusing, given)),
        };
        let is_asked = !src.is_empty() && want != Err(Error::OddLength);
        let is_refused = is_asked && given.number == 0;
        let want = if is_refused {
            Err(Error::OutOfMemory)
        } else {
            want
        };
        match got {
            Ok(bytes) => {
                let is_exact = bytes.capacity() == bytes.len();
                self.seen.is(given, call, is_exact, true);
                self.seen.gives(given, call, Ok(bytes.as_slice()), want)
            }
            Err(e) => self.seen.gives::<_, &[u8], _>(given, call, Err(e), want),
        };
        let is_settled = refusing.is_settled(u64::from(is_asked));
        self.seen.is(given, call, is_settled, true);
    }

    // Tries the calls that return a vector.
    fn vector_gives(&mut self, given: Given<'_>, want: Want<'_>) {
        self.makes(Call::VectorWithCase, given, want);
        if given.case == Either {
            self.makes(Call::Vector, given, want);
        }
    }

    fn vector(&mut self, case: CheckCase, granted: usize, src: &[u8]) {
        self.seen.tries();
        let mut bytes = [0; 4_096];
        let want = model::decoded(src, case, usize::MAX, &mut bytes);
        self.vector_gives(Given::new(case, granted, src), want);
    }

    fn string(&mut self, case: CheckCase, granted: usize, src: &[u8]) {
        self.seen.tries();
        let (given, mut text) = (Given::new(case, granted, src), [0; 4_096]);
        let want = model::encoded(src, given.is_upper(), usize::MAX, &mut text);
        self.makes(Call::String, given, want);
    }

    // Tries an append to a string with a capacity and a text, by the call that returns the appended text or by the one
    // that returns nothing. If the string grows, its capacity is then its length.
    fn append_by(&mut self, is_lent: bool, given: Given<'_>, to: (usize, &str), want: Want<'_>) {
        let (capacity, before) = to;
        let call = if is_lent { "append" } else { "append_into" };
        let refusing = Refusing::new(self.alloc, 1);
        let Some(mut text) = with_text(&refusing, capacity, before) else {
            self.seen.is(given, call, "no memory", "memory");
            return;
        };
        let asked = refusing.asked();
        refusing.set_left(given.number as u64);
        let len = given.src.len().saturating_mul(2);
        let grows = before.len().saturating_add(len) > capacity;
        let is_refused = grows && given.number == 0;
        let want = if is_refused {
            Err(Error::OutOfMemory)
        } else {
            want
        };
        let suffix = want.unwrap_or_default();
        if is_lent {
            let got = lends(given, &mut text);
            self.seen.gives(given, call, got, want);
        } else {
            let got = hex_append_into(given.src, &mut text, given.is_upper());
            self.seen.gives(given, call, got.map(|_| suffix), want);
        }
        let after = text.as_str().as_bytes().strip_prefix(before.as_bytes());
        self.seen.is(given, call, after == Some(suffix), true);
        let growths = refusing.asked().wrapping_sub(asked);
        self.seen.is(given, call, growths, u64::from(grows));
        let is_exact = !grows || is_refused || text.capacity() == text.len();
        self.seen.is(given, call, is_exact, true);
    }

    fn append_gives(&mut self, given: Given<'_>, to: (usize, &str), want: Want<'_>) {
        self.append_by(true, given, to, want);
        self.append_by(false, given, to, want);
    }

    fn append(&mut self, case: CheckCase, granted: usize, src: &[u8], to: (usize, &str)) {
        self.seen.tries();
        let (given, mut text) = (Given::new(case, granted, src), [0; 4_096]);
        let want = model::encoded(src, given.is_upper(), usize::MAX, &mut text);
        self.append_gives(given, to, want);
    }

    // Tries three appends to one string, which has room for all of them.
    fn appends<'x>(&mut self, first: &'x [u8], second: &'x [u8], lower: &'x [u8], upper: &'x [u8]) {
        self.seen.tries();
        let refusing = Refusing::new(self.alloc, 1);
        let given = Given::new(Lower, 0, first);
        let next = Given::new(Upper, 0, second);
        let last = Given::new(Lower, 0, &[]);
        let Some(mut text) = with_text(&refusing, 256, BEFORE) else {
            self.seen.is(given, "append", "no memory", "memory");
            return;
        };
        for (given, want) in [(given, lower), (next, upper), (last, &[])] {
            let got = lends(given, &mut text);
            self.seen.gives(given, "append", got, Ok(want));
        }
        let after = text.as_str().as_bytes().strip_prefix(BEFORE.as_bytes());
        let after = after.and_then(|after| after.strip_prefix(lower));
        self.seen.is(given, "append", after == Some(upper), true);
        self.seen.is(given, "append", refusing.asked(), 1);
    }

    // Tries each call that allocates, and printing, with `count` bytes and their digits.
    fn long(&mut self, case: CheckCase, count: usize) {
        self.seen.tries();
        let letter = if case == Upper { b'A' } else { b'a' };
        let bytes = Vec::from_elem(self.alloc, 0xaa, count);
        let text = Vec::from_elem(self.alloc, letter, count.saturating_mul(2));
        if let (Ok(bytes), Ok(text)) = (&bytes, &text) {
            self.are_long(case, bytes.as_slice(), text.as_slice());
        } else {
            self.seen
                .is(Given::new(case, count, &[]), "Vec", "no memory", "memory");
        }
    }

    fn are_long(&mut self, case: CheckCase, bytes: &[u8], text: &[u8]) {
        let given = Given::new(case, 1, bytes);
        self.vector_gives(Given::new(case, 1, text), Ok(bytes));
        self.makes(Call::String, given, Ok(text));
        self.append_gives(given, (0, ""), Ok(text));
        if case != Upper {
            let is_printed = prints(self.alloc, &Hex::new(bytes), text);
            self.seen.is(given, "Hex", is_printed, true);
        }
    }
}

#[test]
fn long_texts(rt: HostRuntime) {
    let mut tries = Tries::new(rt.alloc());
    for case in POLICIES {
        for count in 1..2_049 {
            tries.long(case, count);
        }
        tries.long(case, 34_000_000);
    }
    ends(&rt, tries.seen.ended(6_147));
}

// Tries a source by each policy, with and without memory.
fn each_policy(tries: &mut Tries, src: &[u8]) {
    for case in POLICIES {
        tries.vector(case, 0, src);
        tries.vector(case, 1, src);
    }
}

#[test]
fn vectors_ask_for_memory_once(rt: HostRuntime) {
    let mut tries = Tries::new(rt.alloc());
    for src in " 00 0x01 zz aBfF abff aBff ABFF ABfF A g 000 00aBff".split(' ') {
        each_policy(&mut tries, src.as_bytes());
    }
    each_policy(&mut tries, &[b'4'; 200]);
    each_policy(&mut tries, &[b'4'; 2_050]);
    each_policy(&mut tries, &[b'4'; 8_192]);
    each_policy(&mut tries, &[b'g'; 2_051]);
    each_policy(&mut tries, &with([b'1'; 2_050], 2_049, b'g'));
    each_policy(&mut tries, &with([b'1'; 2_050], 2_049, b'A'));
    each_policy(&mut tries, &with([b'1'; 2_050], 0, b'g'));
    each_policy(&mut tries, &with([b'1'; 8_192], 8_191, b'g'));
    let text = spelled::<8_192>(&multiples::<4_096>(73, 0), Either);
    for len in [14, 16, 30, 32, 34, 62, 64, 66, 126, 128, 130, 512, 8_192] {
        each_policy(&mut tries, first(&text, len));
    }
    ends(&rt, tries.seen.ended(204));
}

// Digits of each even length up to 4,096, and 138,000 bytes of which only the last is no digit.
#[test]
fn vectors_of_each_length(rt: HostRuntime) {
    let mut tries = Tries::new(rt.alloc());
    for case in POLICIES {
        let text = digits::<138_000>(0, case);
        for len in 1..2_049 {
            tries.vector(case, 1, first(&text, len * 2));
        }
        tries.vector(case, 1, &with(text, 137_999, b'g'));
    }
    ends(&rt, tries.seen.ended(6_147));
}

#[test]
fn vectors_decode_complete_inputs_for_every_case_policy(rt: HostRuntime) {
    let mut tries = Tries::new(rt.alloc());
    for (case, letters) in SPELLINGS {
        let text = spelled::<8_192>(&multiples::<4_096>(73, 0), letters);
        for len in [
            0, 2, 14, 16, 30, 32, 34, 62, 64, 66, 126, 128, 130, 512, 8_192,
        ] {
            tries.vector(case, 1, first(&text, len));
        }
    }
    tries.vector(Either, 1, b"0001");
    ends(&rt, tries.seen.ended(61));
}

#[test]
fn vectors_keep_slice_decoder_error_precedence_and_grammar(rt: HostRuntime) {
    let mut tries = Tries::new(rt.alloc());
    for src in [b"g".as_slice(), b"0x00", b"00 0", b"0\n", b"\xff0"] {
        tries.vector(Either, 1, src);
    }
    for case in POLICIES {
        tries.vector(case, 1, b"0A0bg!ff");
    }
    ends(&rt, tries.seen.ended(8));
}

// Digits of whole blocks and a tail, with an invalid byte at some place, alone and with another one at the start.
fn blocks_and_tail<const N: usize>(tries: &mut Tries, case: CheckCase, other: u8)
    requires { N < 10000 }
{
    let mut text = [b'1'; 8_192];
    array::<N>(&mut tries.seen, case, first(&text, N * 2));
    tries.vector(case, 1, first(&text, N * 2));
    for place in [
        0,
        1,
        63,
        64,
        127,
        128,
        2_047,
        2_048,
        (N * 2).saturating_sub(1),
    ] {
        for start in [b'1', other] {
            text[0] = start;
            text[place % 8_192] = other;
            array::<N>(&mut tries.seen, case, first(&text, N * 2));
            tries.vector(case, 1, first(&text, N * 2));
        }
        text[0] = b'1';
        text[place % 8_192] = b'1';
    }
}

#[test]
fn owned_outputs_report_errors_across_complete_blocks_and_tails(rt: HostRuntime) {
    let mut tries = Tries::new(rt.alloc());
    for (case, other) in [(Either, b'g'), (Lower, b'A'), (Upper, b'a')] {
        blocks_and_tail::<1_025>(&mut tries, case, other);
        blocks_and_tail::<4_096>(&mut tries, case, other);
    }
    ends(&rt, tries.seen.ended(228));
}

// Decodes the digits of a hash within a buffer: all, those of four bytes, and with each of `others` for a digit.
fn hashes(tries: &mut Tries, start: usize, case: CheckCase, others: &[u8]) {
    let (from, digits) = (start / 64 % 32, digits::<64>(start, case));
    let mut buffer = [0xa5; 160];
    let src = placed(&digits, from, &mut buffer);
    array::<32>(&mut tries.seen, case, src);
    array::<4>(&mut tries.seen, case, first(src, 8));
    tries.vector(case, 1, src);
    for other in others {
        let src = placed(&with(digits, start % 64, *other), from, &mut buffer);
        array::<31>(&mut tries.seen, case, src);
        array::<32>(&mut tries.seen, case, src);
        array::<32>(&mut tries.seen, case, first(src, 63));
        tries.vector(case, 1, src);
        let src = placed(&with(digits, start % 8, *other), from, &mut buffer);
        array::<4>(&mut tries.seen, case, first(src, 8));
    }
}

#[test]
fn owned_decoders_match_independently_generated_hashes(rt: HostRuntime) {
    let mut tries = Tries::new(rt.alloc());
    for start in 0..2_048 {
        hashes(&mut tries, start, Lower, b"\x00/:Gg\x7f\x80\xffA");
        hashes(&mut tries, start, Upper, b"\x00/:Gg\x7f\x80\xffa");
    }
    ends(&rt, tries.seen.ended(196_608));
}

// Decodes each prefix of a source into an array of 32 bytes, a vector and a slice.
fn each_length(tries: &mut Tries, slices: &mut Slices, case: CheckCase, src: &[u8; 129]) {
    for len in 0..130 {
        array::<32>(&mut tries.seen, case, first(src, len));
        tries.vector(case, 1, first(src, len));
        slices.decodes(case, len / 2, first(src, len));
    }
}

#[test]
fn arbitrary_input_matches_slice_errors_after_array_length_validation(rt: HostRuntime) {
    let (mut tries, mut slices) = (Tries::new(rt.alloc()), Slices::new());
    for case in POLICIES {
        each_length(&mut tries, &mut slices, case, &listed(0));
        each_length(&mut tries, &mut slices, case, &repeated(alphabet(case)));
    }
    let units = [b"0123456789abcdefABCDEF", b"F0123456789abcdefABCDE"];
    each_length(&mut tries, &mut slices, Lower, &repeated(units[0]));
    each_length(&mut tries, &mut slices, Upper, &repeated(units[1]));
    ends(&rt, tries.seen.ended(2_080));
    ends(&rt, slices.ended(1_040));
}

#[test]
fn strings_and_appends_of_each_length(rt: HostRuntime) {
    let mut tries = Tries::new(rt.alloc());
    let (units, list) = (repeated::<2_048>(UNIT), listed::<2_048>(0));
    for len in 1..2_049 {
        let src = first(&units, len);
        let capacity = if len < 600 { 2_000 } else { 5_000 };
        tries.append(Lower, 0, src, (capacity, BEFORE));
        for case in [Lower, Upper] {
            if len < 600 {
                tries.string(case, 1, src);
            }
            tries.append(case, 1, first(&list, len), (0, ""));
        }
    }
    ends(&rt, tries.seen.ended(7_342));
}

#[test]
fn strings_and_appends_ask_for_memory_once(rt: HostRuntime) {
    let mut tries = Tries::new(rt.alloc());
    for (case, granted) in [(Lower, 0), (Lower, 1), (Upper, 0), (Upper, 1)] {
        for src in [b"hello".as_slice(), b"", b"\x12", &[0; 600], &[0xcd; 600]] {
            tries.string(case, granted, src);
        }
        tries.append(case, granted, &[0xab; 32], (256, BEFORE));
        tries.append(case, granted, &[0xab, 0xcd], (10, "hash: "));
        tries.append(case, granted, &[0xab, 0xcd], (9, "hash: "));
        tries.append(case, granted, &[0xab], (6, "hash: "));
        tries.append(case, granted, &[0xff; 600], (263, "prefix:"));
        tries.append(case, granted, &[0x5c; 600], (7, "prefix:"));
        tries.append(case, granted, &[], (7, BEFORE));
        tries.append(case, granted, &[], (0, ""));
    }
    tries.appends(&[0xab, 0xac], &[0xcd; 8], b"abac", b"CDCDCDCDCDCDCDCD");
    ends(&rt, tries.seen.ended(53));
}

#[test]
fn strings_and_append_reuse_capacity_preserving_unicode_prefix(rt: HostRuntime) {
    let mut tries = Tries::new(rt.alloc());
    let bytes = multiples::<129>(73, 19);
    for len in [
        0, 1, 7, 8, 15, 16, 17, 31, 32, 33, 63, 64, 65, 127, 128, 129,
    ] {
        let src = first(&bytes, len);
        tries.string(Lower, 1, src);
        tries.string(Upper, 1, src);
        tries.append(Lower, 1, src, (7, BEFORE));
    }
    tries.string(Lower, 1, &[0xab; 32]);
    tries.string(Upper, 1, &[0xab; 32]);
    tries.append(Lower, 1, &[0xff; 128], (7, "prefix:"));
    tries.appends(
        &[0xab; 32],
        &[0xcd; 32],
        &repeated::<64>(b"ab"),
        &repeated::<64>(b"CD"),
    );
    ends(&rt, tries.seen.ended(52));
}

#[test]
fn heapless_capacity_is_fallible_and_features_are_additive(rt: HostRuntime) {
    let mut tries = Tries::new(rt.alloc());
    fixed::<0>(&mut tries.seen, Lower, &[]);
    fixed::<8>(&mut tries.seen, Lower, &[0xab]);
    fixed::<2>(&mut tries.seen, Upper, &[0xab]);
    fixed::<1>(&mut tries.seen, Lower, &[0xab]);
    fixed::<0>(&mut tries.seen, Upper, &[0xab]);
    tries.string(Lower, 1, &[0xab]);
    ends(&rt, tries.seen.ended(6));
}

fn documented(tries: &mut Tries, case: CheckCase, src: &[u8], want: Want<'_>) {
    tries.seen.tries();
    tries.vector_gives(Given::new(case, 1, src), want);
}

#[test]
fn examples_of_decode_rs(rt: HostRuntime) {
    let mut tries = Tries::new(rt.alloc());
    let mismatch = Err(Error::LengthMismatch {
        expected: 4,
        actual: 2,
    });
    array_gives::<4>(&mut tries.seen, Either, b"0001aBff", Ok(b"\0\x01\xab\xff"));
    array_gives::<4>(&mut tries.seen, Either, b"0001", mismatch);
    array_gives::<0>(&mut tries.seen, Either, b"", Ok(b""));
    array_gives::<2>(&mut tries.seen, Upper, b"AB01", Ok(b"\xab\x01"));
    array_gives::<2>(&mut tries.seen, Upper, b"ab01", invalid(0, b'a'));
    documented(&mut tries, Either, b"00aBff", Ok(b"\0\xab\xff"));
    documented(&mut tries, Either, b"0x01", invalid(1, b'x'));
    documented(&mut tries, Upper, b"AB01", Ok(b"\xab\x01"));
    documented(&mut tries, Upper, b"ab01", invalid(0, b'a'));
    ends(&rt, tries.seen.ended(9));
}

#[test]
fn examples_of_encode_rs_and_lib_rs(rt: HostRuntime) {
    let mut tries = Tries::new(rt.alloc());
    let given = Given::new(Lower, 1, b"\0\xab\xff");
    tries.makes(Call::String, given, Ok(b"00abff"));
    let given = Given::new(Upper, 1, b"\0\xab\xff");
    tries.makes(Call::String, given, Ok(b"00ABFF"));
    tries.makes(Call::String, Given::new(Lower, 1, b""), Ok(b""));
    let given = Given::new(Lower, 0, b"\xab\xcd");
    tries.append_gives(given, (64, "hash: "), Ok(b"abcd"));
    let given = Given::new(Upper, 1, b"\xab\xcd");
    tries.append_gives(given, (6, "hash: "), Ok(b"ABCD"));
    let given = Given::new(Lower, 0, b"\0\x01");
    tries.append_gives(given, (64, ""), Ok(b"0001"));
    let given = Given::new(Lower, 0, b"\0\xab");
    tries.append_gives(given, (64, "id: "), Ok(b"00ab"));
    documented(&mut tries, Either, b"00aB", Ok(b"\0\xab"));
    ends(&rt, tries.seen.ended(1));
}
