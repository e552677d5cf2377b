//! The calls that have a number of bytes in their type: those that return an array, and the texts of a fixed capacity.

ghost use Rattle.std.specs.Prelude.{◌<◌};

use crate::ends;
use crate::slices::POLICIES;
use hex_codec::{heapless_08, hex_decode_array, hex_decode_array_with_case};
use hex_core::CheckCase::{Lower, None as Either, Upper};
use hex_core::{CheckCase, Error};
use test_kit::model;
use test_kit::seen::{Given, Seen};
use test_kit::source::first;

// Calls a function for each of these numbers.
macro_rules! for_sizes {
    ($tries:ident($seen:expr): $($n:literal)*) => {
        $($tries::<$n>($seen);)*
    };
}

/// Policies, each with a letter case that it reads.
pub const SPELLINGS: [(CheckCase, CheckCase); 4] = [
    (Either, Lower),
    (Either, Upper),
    (Lower, Lower),
    (Upper, Upper),
];

/// Returns `N` bytes, of which the one at place `i` is `factor * i + added` modulo 256.
pub fn multiples<const N: usize>(factor: usize, added: usize) -> [u8; N] {
    let mut bytes = [0; N];
    for i in 0..N {
        bytes[i] = (i.wrapping_mul(factor).wrapping_add(added) % 256) as u8;
    }
    bytes
}

/// Returns the first `N` digits of bytes. `Either` puts the letters at the places 0, 3, 6 and so on in uppercase.
pub fn spelled<const N: usize>(bytes: &[u8], letters: CheckCase) -> [u8; N] {
    let mut text = [0; N];
    for i in 0..N {
        let byte = bytes.get(i / 2).copied().unwrap_or(0);
        let nibble = if i % 2 == 0 { byte >> 4 } else { byte & 15 };
        let is_upper = letters == Upper || letters == Either && i % 3 == 0;
        text[i] = model::digit(nibble, is_upper);
    }
    text
}

/// Tries the calls that return an array of `N` bytes.
pub fn array_gives<const N: usize>(
    seen: &mut Seen,
    case: CheckCase,
    src: &[u8],
    want: Result<&[u8], Error>,
)
    requires { N < 10000 }
{
    seen.tries();
    let given = Given::new(case, N, src);
    let got = hex_decode_array_with_case::<N>(src, case);
    seen.gives(given, "hex_decode_array_with_case", got, want);
    if case == Either {
        let got = hex_decode_array::<N>(src);
        seen.gives(given, "hex_decode_array", got, want);
    }
}

/// Does the same as `array_gives`, and computes the result: first an odd length, then a wrong one, last a bad byte.
pub fn array<const N: usize>(seen: &mut Seen, case: CheckCase, src: &[u8])
    requires { N < 10000 }
{
    let actual = src.len() / 2;
    if src.len() % 2 == 0 && actual != N {
        let want = Err(Error::LengthMismatch {
            expected: N,
            actual,
        });
        array_gives::<N>(seen, case, src, want);
        return;
    }
    let mut bytes = [0; 4_096];
    array_gives::<N>(seen, case, src, model::decoded(src, case, N, &mut bytes));
}

// Tries the text of bytes with a capacity of `N` digits.
pub fn fixed<const N: usize>(seen: &mut Seen, case: CheckCase, src: &[u8])
    requires { N < 10000 }
{
    let mut text = [0; 1_100];
    let want = model::encoded(src, case == Upper, N, &mut text);
    fixed_gives::<N>(seen, case, src, want);
}

fn fixed_gives<const N: usize>(
    seen: &mut Seen,
    case: CheckCase,
    src: &[u8],
    want: Result<&[u8], Error>,
)
    requires { N < 10000 }
{
    seen.tries();
    let given = Given::new(case, N, src);
    let got = if given.is_upper() {
        heapless_08::hex_string_upper::<N>(src)
    } else {
        heapless_08::hex_string::<N>(src)
    };
    match got {
        Ok(text) => seen.gives(given, "hex_string", Ok(text.as_str().as_bytes()), want),
        Err(e) => seen.gives::<_, &[u8], _>(given, "hex_string", Err(e), want),
    };
}

#[test]
fn arrays_reject_lengths_before_characters_and_preserve_byte_diagnostics(rt: HostRuntime) {
    let mut seen = Seen::new();
    for src in [b"g".as_slice(), b"gg"] {
        array::<0>(&mut seen, Either, src);
        array::<32>(&mut seen, Either, src);
    }
    array::<1>(&mut seen, Either, b"0g");
    array::<1>(&mut seen, Either, b"\xc3\xa9");
    array::<4>(&mut seen, Either, b"001122ff");
    for case in POLICIES {
        array::<4>(&mut seen, case, b"0A0bg!ff");
    }
    ends(&rt, seen.ended(10));
}

// Tries the digits of `N` bytes by each policy, and two digits more and fewer.
fn about_length<const N: usize>(seen: &mut Seen)
    requires { N < 10000 }
{
    let bytes = multiples::<300>(73, 0);
    for (case, letters) in SPELLINGS {
        let text = spelled::<600>(&bytes, letters);
        array::<N>(seen, case, first(&text, N * 2));
    }
    let mut text = spelled::<600>(first(&bytes, N), Lower);
    array::<N>(seen, Either, first(&text, N * 2 + 2));
    if N > 0 {
        array::<N>(seen, Either, first(&text, N * 2 - 2));
    }
}

#[test]
fn arrays_cover_empty_hashes_and_vector_boundaries(rt: HostRuntime) {
    let mut seen = Seen::new();
    for_sizes!(about_length(&mut seen): 0 1 4 7 8 15 16 17 31 32 33 63 64 65 129 256);
    ends(&rt, seen.ended(95));
}

fn of_both_cases<const N: usize>(seen: &mut Seen)
    requires { N < 10000 }
{
    let text = spelled::<600>(&multiples::<300>(73, 0), Either);
    array::<N>(seen, Either, first(&text, N * 2));
}

#[test]
fn arrays_of_digits_of_both_cases(rt: HostRuntime) {
    let mut seen = Seen::new();
    array::<2>(&mut seen, Lower, b"ab01");
    array::<2>(&mut seen, Lower, b"01AB");
    array::<2>(&mut seen, Upper, b"01ab");
    for_sizes!(of_both_cases(&mut seen): 4 7 8 15 16 17 31 32 33 63 64 65 129 256);
    ends(&rt, seen.ended(17));
}

// Tries each number of bytes up to eight more than fit, and one more than the capacity.
fn about_capacity<const N: usize>(seen: &mut Seen)
    requires { N < 10000 }
{
    let bytes = multiples::<600>(73, 0);
    for i in 0..N / 2 + 10 {
        let len = if i < N / 2 + 9 { i } else { N + 1 };
        fixed::<N>(seen, Lower, first(&bytes, len));
        fixed::<N>(seen, Upper, first(&bytes, len));
    }
}

#[test]
fn heapless_checks_exact_odd_and_vector_boundary_capacities(rt: HostRuntime) {
    let mut seen = Seen::new();
    for_sizes!(about_capacity(&mut seen): 0 1 2 3 15 16 17 31 32 33 127 128 129 513);
    ends(&rt, seen.ended(1_318));
}

#[test]
fn examples_of_heapless_08_rs(rt: HostRuntime) {
    let mut seen = Seen::new();
    let too_small = Err(Error::OutputTooSmall { required: 4 });
    fixed_gives::<8>(&mut seen, Lower, b"\x12\xab\0\xff", Ok(b"12ab00ff"));
    fixed_gives::<4>(&mut seen, Lower, b"\xab\x01", Ok(b"ab01"));
    fixed_gives::<4>(&mut seen, Upper, b"\xab\x01", Ok(b"AB01"));
    fixed_gives::<3>(&mut seen, Lower, b"\xab\x01", too_small);
    fixed_gives::<0>(&mut seen, Lower, b"", Ok(b""));
    ends(&rt, seen.ended(5));
}
