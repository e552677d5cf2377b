//! The functions on lanes, compared byte by byte for blocks of 8 to 64 bytes.

ghost use Rattle.std.specs.Prelude.{IsTrue};
ghost use Rattle.hex_core.specs.Lanes.{AreSmall};

use crate::ends;
use crate::slices::POLICIES;
use hex_core::CheckCase::{self, Lower, None as Either, Upper};
use hex_core::lanes::{
    admitted_16, admitted_32, admitted_64, encode_8, encode_16, encode_32, nibbles_hashed_32,
    nibbles_hashed_64, nibbles_saturating_16, pack_16, pack_32, pack_64,
};
use test_kit::model::value;
use test_kit::seen::{Given, Seen};
use test_kit::source::{alphabet, first, repeated, with};

// Lends the first `$lanes` bytes as a block, or zeros if there are fewer.
macro_rules! block {
    ($bytes:expr, $lanes:literal) => {
        $bytes.first_chunk().unwrap_or(&[0; $lanes])
    };
}

// Stands for the nibble of a refused byte, which may be any number.
const REFUSED: u8 = 255;

// A task, for which there is a function for each width of a block.
#[derive(Clone, Copy)]
enum Call {
    // `y` for each byte that is admitted, and `n` for each other one.
    Admit,
    // The nibbles of 16 bytes.
    Saturate,
    // The checks of hashed bytes.
    Hash,
    // The nibbles of hashed bytes, or `REFUSED` if the check is 128 or more.
    Nibbles,
    // The bytes that pairs of nibbles make.
    Pack,
    // The digits of bytes.
    Write,
}

impl Call {
    fn name(self) -> &'static str {
        match self {
            Call::Admit => "admit",
            Call::Saturate => "saturate",
            Call::Hash => "hash",
            Call::Nibbles => "nibbles",
            Call::Pack => "pack",
            Call::Write => "write",
        }
    }

    // Returns whether the function gives `want` for a block.
    fn gives(self, case: CheckCase, bytes: &[u8], want: &[u8]) -> bool {
        match self {
            Call::Admit => are_admitted(bytes, case, want),
            Call::Saturate => nibbles_saturating_16(block!(bytes, 16), case).as_slice() == want,
            Call::Hash => are_hashed(bytes, case, true, want),
            Call::Nibbles => are_hashed(bytes, case, false, want),
            Call::Pack => are_packed(bytes, want),
            Call::Write => are_written(bytes, case == Upper, want),
        }
    }
}

fn are_admitted(bytes: &[u8], case: CheckCase, letters: &[u8]) -> bool {
    let mask = match bytes.len() {
        16 => u64::from(admitted_16(block!(bytes, 16), case)),
        32 => u64::from(admitted_32(block!(bytes, 32), case)),
        _ => admitted_64(block!(bytes, 64), case),
    };
    let mut rest = mask;
    for i in 0..letters.len() {
        if letters[i] != if rest & 1 == 1 { b'y' } else { b'n' } {
            return false;
        }
        rest >>= 1;
    }
    letters.len() == bytes.len()
}

// Compares the checks if `is_check` is true, and the nibbles otherwise.
fn are_of(nibbles: &[u8], checks: &[u8], is_check: bool, want: &[u8]) -> bool {
    if nibbles.len() != want.len() || checks.len() != want.len() {
        return false;
    }
    for i in 0..want.len() {
        let nibble = if checks[i] < 128 { nibbles[i] } else { REFUSED };
        if want[i] != if is_check { checks[i] } else { nibble } {
            return false;
        }
    }
    true
}

fn are_hashed(bytes: &[u8], case: CheckCase, is_check: bool, want: &[u8]) -> bool {
    if bytes.len() == 32 {
        let (nibbles, checks) = nibbles_hashed_32(block!(bytes, 32), case);
        return are_of(&nibbles, &checks, is_check, want);
    }
    let (nibbles, checks) = nibbles_hashed_64(block!(bytes, 64), case);
    are_of(&nibbles, &checks, is_check, want)
}

fn are_small(nibbles: &[u8]) -> bool
    ensures { IsTrue result → AreSmall nibbles.now }
{
    nibbles.iter().all(|nibble| *nibble < 16)
}

fn are_packed_16(nibbles: &[u8], bytes: &[u8]) -> Option<bool>
    requires { AreSmall nibbles.now }
{
    Some(pack_16(nibbles.try_into().ok()?).as_slice() == bytes)
}

fn are_packed_32(nibbles: &[u8], bytes: &[u8]) -> Option<bool>
    requires { AreSmall nibbles.now }
{
    Some(pack_32(nibbles.try_into().ok()?).as_slice() == bytes)
}

fn are_packed_64(nibbles: &[u8], bytes: &[u8]) -> Option<bool>
    requires { AreSmall nibbles.now }
{
    Some(pack_64(nibbles.try_into().ok()?).as_slice() == bytes)
}

fn are_packed(nibbles: &[u8], want: &[u8]) -> bool {
    if !are_small(nibbles) {
        return false;
    }
    let is_packed = match nibbles.len() {
        16 => are_packed_16(nibbles, want),
        32 => are_packed_32(nibbles, want),
        _ => are_packed_64(nibbles, want),
    };
    is_packed == Some(true)
}

fn are_written(bytes: &[u8], upper: bool, want: &[u8]) -> bool {
    match bytes.len() {
        8 => encode_8(block!(bytes, 8), upper).as_slice() == want,
        16 => encode_16(block!(bytes, 16), upper).as_slice() == want,
        _ => encode_32(block!(bytes, 32), upper).as_slice() == want,
    }
}

// The calls of a test.
#[derive(Drop)]
struct Lanes {
    seen: Seen,
}

impl Lanes {
    fn new() -> Lanes {
        Lanes { seen: Seen::new() }
    }

    // Tries a call with a block of `width` bytes.
    fn tries(&mut self, call: Call, case: CheckCase, width: usize, bytes: &[u8], want: &[u8]) {
        let (bytes, want) = (first(bytes, width), first(want, width));
        self.tries_all(call, case, bytes, want);
    }

    // Tries a call with a block of all these bytes.
    fn tries_all(&mut self, call: Call, case: CheckCase, bytes: &[u8], want: &[u8]) {
        self.seen.tries();
        let given = Given::new(case, bytes.len(), bytes);
        let is_given = call.gives(case, bytes, want);
        self.seen.is(given, call.name(), is_given, true);
    }

    // Tries a byte in each lane among digits. `digit` and `byte` are pairs of a byte and what the call gives for it.
    fn in_each_lane(
        &mut self,
        call: Call,
        case: CheckCase,
        width: usize,
        digit: (u8, u8),
        byte: (u8, u8),
    ) {
        for lane in 0..width {
            let bytes = with([digit.0; 64], lane, byte.0);
            let want = with([digit.1; 64], lane, byte.1);
            self.tries(call, case, width, &bytes, &want);
        }
    }
}

#[test]
fn bytes_of_a_block_are_admitted(rt: HostRuntime) {
    let mut lanes = Lanes::new();
    let bytes =
        b"0123456789ABCDEFabcdef/:@G`g\x7f\x80\xb0\xfffedcbaFEDCBA9876543210 xX-_\n\r\0\xc3\xa9";
    let either = b"yyyyyyyyyyyyyyyyyyyyyynnnnnnnnnnyyyyyyyyyyyyyyyyyyyyyynnnnnnnnnn";
    let lower = b"yyyyyyyyyynnnnnnyyyyyynnnnnnnnnnyyyyyynnnnnnyyyyyyyyyynnnnnnnnnn";
    let upper = b"yyyyyyyyyyyyyyyynnnnnnnnnnnnnnnnnnnnnnyyyyyyyyyyyyyyyynnnnnnnnnn";
    for (case, letters) in [(Either, either), (Lower, lower), (Upper, upper)] {
        for width in [16, 32, 64] {
            lanes.tries(Call::Admit, case, width, bytes, letters);
        }
    }
    for (case, others) in [
        (Either, b"/G\xff".as_slice()),
        (Lower, b"A`"),
        (Upper, b"a@"),
    ] {
        for width in [16, 32, 64] {
            for i in 0..others.len() {
                lanes.in_each_lane(Call::Admit, case, width, (b'0', b'y'), (others[i], b'n'));
            }
        }
    }
    ends(&rt, lanes.seen.ended(793));
}

// A byte that is no digit has the nibble that saturating sums and differences leave.
#[test]
fn saturating_nibbles(rt: HostRuntime) {
    let mut lanes = Lanes::new();
    let values = *b"\x00\x01\x02\x03\x04\x05\x06\x07\x08\x09\x0a\x0b\x0c\x0d\x0e\x0f";
    lanes.tries_all(Call::Saturate, Either, b"0123456789abcdef", &values);
    for (case, nibbles) in [
        (Either, *b"\xd8\x00\x09\x10\x0a\x0f\x10"),
        (Lower, *b"\xd8\x00\x09\x10\x11\x0f\x10"),
        (Upper, *b"\xf8\x00\x09\x10\x0a\x2f\x30"),
    ] {
        let bytes = *b"/09:Afg000000000";
        let mut want = [0; 16];
        for i in 0..7 {
            want[i] = nibbles[i];
            if i != 1 {
                lanes.in_each_lane(Call::Saturate, case, 16, (b'0', 0), (bytes[i], nibbles[i]));
            }
        }
        lanes.tries_all(Call::Saturate, case, &bytes, &want);
    }
    ends(&rt, lanes.seen.ended(292));
}

#[test]
fn checks_of_hashed_bytes(rt: HostRuntime) {
    let mut lanes = Lanes::new();
    for (case, checks) in [
        (Either, *b"\xff\x00\x00\x00\x05\x00\x02\x00"),
        (Lower, *b"\xc0\x00\xc1\x00\x05\x00\x02\x00"),
        (Upper, *b"\xff\x00\x00\x00\xe6\x00\x02\x00"),
    ] {
        for width in [32, 64] {
            let (mut bytes, mut want) = ([b'0'; 64], [0; 64]);
            for i in 0..8 {
                (bytes[i], want[i]) = (b"@0A0f090"[i], checks[i]);
                if i % 2 == 0 {
                    lanes.in_each_lane(Call::Hash, case, width, (b'0', 0), (bytes[i], checks[i]));
                }
            }
            lanes.tries(Call::Hash, case, width, &bytes, &want);
        }
    }
    ends(&rt, lanes.seen.ended(1_158));
}

// Each byte that is no digit is refused between digits, and the byte 0xff in each lane.
#[test]
fn nibbles_of_hashed_bytes(rt: HostRuntime) {
    let mut lanes = Lanes::new();
    let values =
        b"\x00\x01\x02\x03\x04\x05\x06\x07\x08\x09\x0a\x0b\x0c\x0d\x0e\x0f\x0a\x0b\x0c\x0d\x0e\x0f";
    for width in [32, 64] {
        for case in POLICIES {
            let digits = alphabet(case);
            let want = repeated::<64>(first(values, digits.len()));
            let bytes = repeated::<64>(digits);
            lanes.tries(Call::Nibbles, case, width, &bytes, &want);
        }
        lanes.in_each_lane(Call::Nibbles, Either, width, (b'7', 7), (0xff, REFUSED));
        for byte in 0..=255 {
            if value(byte, Either).is_none() {
                let (bytes, want) = (with([b'7'; 64], 5, byte), with([7; 64], 5, REFUSED));
                lanes.tries(Call::Nibbles, Either, width, &bytes, &want);
            }
        }
    }
    ends(&rt, lanes.seen.ended(570));
}

#[test]
fn blocks_are_packed_and_written(rt: HostRuntime) {
    let mut lanes = Lanes::new();
    let values = b"\x00\x01\x02\x03\x04\x05\x06\x07\x08\x09\x0a\x0b\x0c\x0d\x0e\x0f\
        \x0f\x0e\x0d\x0c\x0b\x0a\x09\x08\x07\x06\x05\x04\x03\x02\x01\x00\
        \x00\x0f\x01\x0e\x02\x0d\x03\x0c\x04\x0b\x05\x0a\x06\x09\x07\x08\
        \x0f\x00\x0e\x01\x0d\x02\x0c\x03\x0b\x04\x0a\x05\x09\x06\x08\x07";
    let bytes = b"\x01\x23\x45\x67\x89\xab\xcd\xef\xfe\xdc\xba\x98\x76\x54\x32\x10\
        \x0f\x1e\x2d\x3c\x4b\x5a\x69\x78\xf0\xe1\xd2\xc3\xb4\xa5\x96\x87";
    let lower = b"0123456789abcdeffedcba98765432100f1e2d3c4b5a6978f0e1d2c3b4a59687";
    let upper = b"0123456789ABCDEFFEDCBA98765432100F1E2D3C4B5A6978F0E1D2C3B4A59687";
    for (from, to) in [(0, 8), (8, 24), (0, 32)] {
        let nibbles = values.get(2 * from..2 * to).unwrap_or_default();
        let block = bytes.get(from..to).unwrap_or_default();
        lanes.tries_all(Call::Pack, Either, nibbles, block);
        for (case, text) in [(Lower, lower), (Upper, upper)] {
            let want = text.get(2 * from..2 * to).unwrap_or_default();
            lanes.tries_all(Call::Write, case, block, want);
        }
    }
    ends(&rt, lanes.seen.ended(9));
}
