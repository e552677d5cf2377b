//! What is read and written, and what is refused.

ghost use Rattle.std.specs.Prelude.{◌<◌};

use crate::adapter::{
    Adapter, Answer, adapters, invalid, mismatch, modules, ok, over_bound, quoted,
};
use crate::ends;
use crate::tries::Tries;
use faster_hex::AdapterError::{InvalidLength, InvalidPrefix, NotText};
use faster_hex::CheckCase;
use test_kit::model::{first_invalid, value};
use test_kit::source::with;

/// Returns `N` bytes, of which the one at place `i` is `factor * i` modulo 256.
pub fn multiples<const N: usize>(factor: usize) -> [u8; N] {
    let mut bytes = [0; N];
    for i in 0..N {
        bytes[i] = (factor.wrapping_mul(i) % 256) as u8;
    }
    bytes
}

// Reads a JSON text, also with a bound of two bytes and as an array of two bytes.
fn reads_alike(tries: &mut Tries, by: Adapter, json: &[u8], want: Answer<'_>) {
    tries.reads(by, json, want);
    tries.reads_within::<2>(by, json, want);
    tries.reads_array::<2>(by, json, want);
}

// Returns what must be read for `digits`: `bytes`, or the error of the first invalid digit.
fn answer<'a>(by: Adapter, digits: &[u8], bytes: &'a [u8]) -> Answer<'a> {
    match first_invalid(digits, by.format.case) {
        Some(at) => invalid(at, digits.get(at).copied().unwrap_or_default()),
        None => ok(bytes),
    }
}

// Tries letters of each case alone, and of both cases together.
fn letters(tries: &mut Tries, by: Adapter) {
    for (digits, bytes) in [
        (b"1201", [0x12, 1]),
        (b"00ab", [0, 0xab]),
        (b"00AB", [0, 0xab]),
        (b"5caf", [0x5c, 0xaf]),
        (b"5CAF", [0x5c, 0xaf]),
        (b"ab01", [0xab, 1]),
        (b"AB01", [0xab, 1]),
    ] {
        let want = answer(by, digits, &bytes);
        reads_alike(tries, by, &by.string(digits), want);
        tries.writes(by, Some(&bytes), &by.written(&bytes));
    }
    tries.reads(by, &by.string(b"aB"), answer(by, b"aB", &[0xab]));
    let escapes = match by.format.case {
        CheckCase::Upper => br"\u0041\u0042",
        _ => br"\u0061\u0062",
    };
    let prefix = match by.format.prefixed {
        true => br"\u0030\u0078".as_slice(),
        false => b"",
    };
    tries.reads(by, &quoted(prefix, escapes), ok(&[0xab]));
}

// A wrong number of bytes is refused before a byte that is no digit.
fn lengths(tries: &mut Tries, by: Adapter) {
    let empty = by.string(b"");
    tries.reads(by, &empty, ok(b""));
    tries.reads_within::<0>(by, &empty, ok(b""));
    tries.reads_array::<0>(by, &empty, ok(b""));
    tries.reads_array::<2>(by, &empty, mismatch(2, 0));
    tries.reads_within::<0>(by, &by.string(b"00"), over_bound(0, 1));
    tries.reads_array::<2>(by, &by.string(b"00"), mismatch(2, 1));
    for digits in [b"000102", b"gggggg"] {
        tries.reads_within::<2>(by, &by.string(digits), over_bound(2, 3));
        tries.reads_array::<2>(by, &by.string(digits), mismatch(2, 3));
    }
}

// A missing prefix, an odd length, and a byte that is no digit are refused in this order.
fn refuses(tries: &mut Tries, by: Adapter) {
    reads_alike(tries, by, b"null", by.null());
    for json in [b"7".as_slice(), b"true", br#"["0x"]"#] {
        reads_alike(tries, by, json, Err(NotText));
    }
    for text in ["", "0", "ab", "x12", "0Xab", "1234", "00x12", " 0x12"] {
        if by.format.prefixed {
            let json = quoted(b"", text.as_bytes());
            reads_alike(tries, by, &json, Err(InvalidPrefix));
        }
    }
    for digits in [b"a".as_slice(), b"g", b"ggg", b"ggggg"] {
        reads_alike(tries, by, &by.string(digits), Err(InvalidLength));
    }
    reads_alike(tries, by, &by.string(b"00gg"), invalid(2, b'g'));
    for digits in [b"0g".as_slice(), b"0x12", b"0xab", b"0x1234"] {
        let want = invalid(1, digits.get(1).copied().unwrap_or_default());
        tries.reads(by, &by.string(digits), want);
    }
    tries.reads_within::<2>(by, &by.string(b"0g"), invalid(1, b'g'));
    tries.reads(by, &by.string("é".as_bytes()), invalid(0, 0xc3));
}

#[test]
fn each_format_reads_texts_of_few_bytes(rt: HostRuntime) {
    let mut tries = Tries::new(rt.alloc());
    for by in adapters() {
        letters(&mut tries, by);
        lengths(&mut tries, by);
        refuses(&mut tries, by);
    }
    ends(&rt, tries.seen.ended(2_040));
}

// Tries each byte that JSON shows as it is behind a digit, and other bytes at each of 64 places.
fn names_first(tries: &mut Tries, by: Adapter) {
    for byte in b' '..=b'~' {
        let is_shown = byte != b'"' && byte != b'\\';
        if is_shown && value(byte, by.format.case).is_none() {
            tries.reads(by, &by.string(&[b'1', byte]), invalid(1, byte));
        }
    }
    let letter = if by.format.upper { b'a' } else { b'A' };
    let last = if by.format.case == CheckCase::None {
        b'g'
    } else {
        letter
    };
    for at in 0..64 {
        for other in [b'g', b'/', last] {
            let end = if other == b'/' { b'h' } else { b'1' };
            let digits = with(with([b'1'; 64], 63, end), at, other);
            tries.reads(by, &by.string(&digits), invalid(at, other));
        }
    }
}

#[test]
fn each_module_names_the_first_byte_that_is_no_digit(rt: HostRuntime) {
    let mut tries = Tries::new(rt.alloc());
    for by in modules() {
        names_first(&mut tries, by);
    }
    ends(&rt, tries.seen.ended(3_204));
}

fn both_ways(tries: &mut Tries, by: Adapter, src: &[u8]) {
    let text = by.written(src);
    tries.writes(by, Some(src), &text);
    tries.reads(by, &text, ok(src));
}

fn array_both_ways<const N: usize>(tries: &mut Tries, by: Adapter)
    requires { N < 600 }
{
    let bytes: [u8; N] = multiples(37);
    both_ways(tries, by, &bytes);
    tries.reads_array::<N>(by, &by.written(&bytes), ok(&bytes));
}

#[test]
fn each_module_reads_what_it_writes(rt: HostRuntime) {
    let mut tries = Tries::new(rt.alloc());
    let bytes: [u8; 64] = multiples(37);
    for by in modules() {
        for len in 0..65 {
            both_ways(&mut tries, by, bytes.get(..len).unwrap_or_default());
            let odd = [b'7'; 129].get(..len * 2 + 1).unwrap_or_default();
            tries.reads(by, &by.string(odd), Err(InvalidLength));
        }
        both_ways(&mut tries, by, &multiples::<256>(1));
        array_both_ways::<1>(&mut tries, by);
        array_both_ways::<32>(&mut tries, by);
        array_both_ways::<64>(&mut tries, by);
        array_both_ways::<129>(&mut tries, by);
        if by.is_optional {
            tries.writes(by, None, b"null");
        }
    }
    ends(&rt, tries.seen.ended(2_514));
}
