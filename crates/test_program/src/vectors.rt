//! How a vector runs, and what each stored vector has.

use crate::ends;
use hex_core::CheckCase::{Lower, None as Either, Upper};
use hex_core::Error::{self, InvalidChar, OddLength, OutputTooSmall};
use hex_program::program::serve_vectors;
use hex_program::vectors::Call::{
    self, Decode, Encode, ReadGrouped, ReadList, WriteGrouped, WriteList,
};
use hex_program::vectors::{VECTORS, Vector};
use std::alloc::Global;
use test_kit::model;
use test_kit::seen::{Given, Seen};
use test_kit::source::with;

// Calls a method once for each vector: name, call, source, result and destination.
macro_rules! vectors {
    ($tested:ident.$method:ident: $($name:literal $call:expr, $source:expr, $answer:expr, $left:expr;)*) => {
        $($tested.$method(Vector { name: $name, call: $call, source: $source, answer: $answer, left: $left });)*
    };
}

// A vector that passes.
const SOUND: Vector<'static> = Vector {
    name: "sound",
    call: Decode(Either),
    source: b"00aB",
    answer: Ok(2),
    left: b"\x00\xab\xa5",
};

// What a run prints of a vector that fails under each plan, and of a sound one after it.
const FAILED: &[u8] = b"\
    scalar v fail\nscalar sound pass\nsse41 v fail\nsse41 sound pass\navx2 v fail\navx2 sound pass\n\
    avx512 v fail\navx512 sound pass\nneon v fail\nneon sound pass\ntotal 10 passed 5 failed 5\n";

// What a run prints of a failing vector of groups or lists, which takes no plan, and of a sound one after it.
const FAILED_PLAIN: &[u8] = b"\
    scalar sound pass\nsse41 sound pass\navx2 sound pass\navx512 sound pass\nneon sound pass\n\
    plain v fail\ntotal 6 passed 5 failed 1\n";

// The vectors of a test.
#[derive(Drop)]
struct Vectors {
    seen: Seen,
    alloc: Global,
    // The place of the next stored vector.
    place: usize,
}

impl Vectors {
    fn new(alloc: Global) -> Vectors {
        let (seen, place) = (Seen::new(), 0);
        Vectors { seen, alloc, place }
    }

    // Runs a vector and a sound one after it, and compares the status and, if the vector fails, the lines. Then runs
    // the vector twice, and compares the status.
    fn ends(&mut self, vector: Vector<'_>, fails: bool) {
        self.seen.tries();
        let given = Given::new(Either, vector.left.len(), vector.source);
        let alloc = self.alloc;
        let (out, err) = (Vec::new(alloc), Vec::new(alloc));
        let (status, out, err) = serve_vectors(&alloc, &[vector, SOUND], out, err);
        let (twice, _, err) = serve_vectors(&alloc, &[vector, vector], Vec::new(alloc), err);
        self.seen.is(given, "status", status, u8::from(fails));
        self.seen.is(given, "status of two", twice, u8::from(fails));
        let has_plans = matches!(vector.call, Encode(_) | Decode(_));
        let lines = if has_plans { FAILED } else { FAILED_PLAIN };
        let is_printed = !fails || out.as_slice() == lines;
        self.seen.is(given, "lines", is_printed, true);
        self.seen.is(given, "no message", err.is_empty(), true);
    }

    fn passes(&mut self, vector: Vector<'_>) {
        self.ends(vector, false);
    }

    fn fails(&mut self, vector: Vector<'_>) {
        self.ends(vector, true);
    }

    // Compares the next stored vector with this one.
    fn stores(
        &mut self,
        name: &str,
        call: Call,
        source: &[u8],
        answer: Result<usize, Error>,
        left: &[u8],
    ) {
        self.seen.tries();
        let given = Given::new(Either, left.len(), source);
        let is_stored = VECTORS.get(self.place).is_some_and(|stored| {
            let is_input = stored.call == call && stored.source == source;
            stored.name == name && is_input && stored.answer == answer && stored.left == left
        });
        self.seen.is(given, "stored", is_stored, true);
        self.place = self.place.saturating_add(1);
    }
}

// A vector fails if it states other bytes, fewer, more, an error, none, another error, too little room or another call;
// other bytes behind those that are written, or where none are; or more room than there is. The last vectors pass.
#[test]
fn a_vector_fails_unless_all_that_it_states_is_right(rt: HostRuntime) {
    let mut vectors = Vectors::new(rt.alloc());
    vectors! { vectors.fails:
        "v" Decode(Either), b"00aB", Ok(2), b"\x00\xac\xa5";
        "v" Decode(Either), b"00aB", Ok(2), b"\x00";
        "v" Decode(Either), b"00aB", Ok(2), b"\x00\xab\xa4";
        "v" Decode(Either), b"00aB", Ok(1), b"\x00\xab\xa5";
        "v" Decode(Either), b"00aB", Ok(3), b"\x00\xab\xa5";
        "v" Decode(Either), b"00aB", Err(OddLength), b"\x00\xab\xa5";
        "v" Decode(Either), b"00a", Ok(0), &[0xa5; 3];
        "v" Decode(Either), b"00ag", Err(InvalidChar { index: 3, byte: b'G' }), &[0xa5; 3];
        "v" Decode(Lower), b"00aB", Ok(2), b"\x00\xab\xa5";
        "v" Encode(false), b"00aB", Ok(2), b"\x00\xab\xa5";
        "v" Encode(true), b"\xab", Ok(2), b"ab";
        "v" Decode(Either), b"00a", Err(OddLength), b"\xa5\xa5\x00";
        "v" Decode(Either), b"", Ok(0), &[0xa5; 129];
    }
    vectors! { vectors.passes:
        "v" ReadGrouped, b"aB01:02", Ok(3), b"\xab\x01\x02\xa5";
        "v" ReadGrouped, b"00:", Err(OddLength), &[0xa5; 3];
        "v" Encode(true), b"\xab", Ok(2), b"AB";
        "v" Decode(Either), b"00a", Err(OddLength), &[0xa5; 3];
        "v" Decode(Either), b"", Ok(0), &[0xa5; 128];
    }
    ends(&rt, vectors.seen.ended(18));
}

// A vector of groups fails for a separator elsewhere, a byte behind the text, another case, another place of an error,
// or a changed destination. One that reads a list fails for another digest, mark, name or number, digits of another
// policy, a second entry, or no list. One that writes a list fails for another case, mark, name or number, for fewer or
// more bytes, or for no entry.
#[test]
fn a_vector_of_groups_or_lists_fails_unless_all_is_right(rt: HostRuntime) {
    let mut vectors = Vectors::new(rt.alloc());
    vectors! { vectors.fails:
        "v" WriteGrouped, b"\x00\x01\x02", Ok(7), b"000:102";
        "v" WriteGrouped, b"\x00\x01\x02", Ok(7), b"0001:02\x00";
        "v" WriteGrouped, b"\xab", Ok(2), b"AB";
        "v" ReadGrouped, b"00:0102", Err(InvalidChar { index: 3, byte: b'0' }), &[0xa5; 3];
        "v" ReadGrouped, b"00:0102", Err(InvalidChar { index: 2, byte: b':' }), b"\xa5\xa5\x00";
        "v" ReadList, b"ab02 *b", Ok(1), b"\xab\x01*b";
        "v" ReadList, b"ab01  b", Ok(1), b"\xab\x01*b";
        "v" ReadList, b"ab01 *c", Ok(1), b"\xab\x01*b";
        "v" ReadList, b"ab01 *b\nab01 *b", Ok(1), b"\xab\x01*b";
        "v" ReadList, b"ab01 *c", Ok(1), b"\xab\x01*b";
        "v" ReadList, b"AB01 *b", Ok(1), b"\xab\x01*b";
        "v" ReadList, b"ab01 *b", Ok(0), b"\xab\x01*b";
        "v" ReadList, b"ab01 *b", Ok(2), b"\xab\x01*b";
        "v" ReadList, b"ab01 *b\nab01 *b", Ok(2), b"\xab\x01*b";
        "v" ReadList, b"ab01 *b\nab01 *b", Ok(3), b"\xab\x01*b";
        "v" ReadList, b"zz", Err(InvalidChar { index: 0, byte: b'z' }), b"\xab\x01*b";
        "v" WriteList, b"\xab\x01*b", Ok(8), b"ab01 *b\n";
        "v" WriteList, b"\xab\x01*b", Ok(8), b"AB01 *c\n";
        "v" WriteList, b"\xab\x01 b", Ok(8), b"AB01 *b\n";
        "v" WriteList, b"\xab\x01*b", Ok(7), b"AB01 *b";
        "v" WriteList, b"\xab\x01*b", Ok(8), b"AB01 *b\n\x00";
        "v" WriteList, b"\xab\x01*b", Ok(7), b"AB01 *b\n";
        "v" WriteList, b"\xab", Ok(0), b"";
    }
    ends(&rt, vectors.seen.ended(23));
}

#[test]
fn the_stored_vectors_are_these(rt: HostRuntime) {
    let mut vectors = Vectors::new(rt.alloc());
    let (sevens, ones) = (with([b'7'; 64], 1, 0xff), with([b'1'; 130], 129, b'!'));
    let (mut bytes, mut decoded) = ([0; 33], [0xa5; 40]);
    for i in 0..33 {
        bytes[i] = i as u8;
        decoded[i] = i as u8;
    }
    let (mut text, mut capitals) = ([0; 66], [0; 66]);
    let lower = model::encoded(&bytes, false, 66, &mut text).unwrap_or_default();
    let upper = model::encoded(&bytes, true, 66, &mut capitals).unwrap_or_default();
    calls! { vectors.stores:
        "v01", Encode(false), b"hello", Ok(10), b"68656c6c6f";
        "v02", Encode(true), b"\x00\xab\xff", Ok(6), b"00ABFF";
        "v03", Encode(false), b"\xab\xcd", Err(OutputTooSmall { required: 4 }), &[0xa5; 3];
        "v04", Decode(Either), b"00aBcD", Ok(3), b"\x00\xab\xcd\xa5\xa5";
        "v05", Decode(Either), b"00ff0g", Err(InvalidChar { index: 5, byte: b'g' }), &[0xa5; 3];
        "v06", Decode(Either), b"g", Err(OddLength), &[0xa5; 32];
        "v07", Decode(Either), b"gg", Err(OutputTooSmall { required: 1 }), b"";
        "v08", Decode(Either), b"0A0bg!ff", Err(InvalidChar { index: 4, byte: b'g' }), &[0xa5; 4];
        "v09", Decode(Lower), b"0A0bg!ff", Err(InvalidChar { index: 1, byte: b'A' }), &[0xa5; 4];
        "v10", Decode(Upper), b"0A0bg!ff", Err(InvalidChar { index: 3, byte: b'b' }), &[0xa5; 4];
        "v11", Decode(Either), b"\xc3\xa9", Err(InvalidChar { index: 0, byte: 0xc3 }), &[0xa5; 4];
        "v12", Decode(Either), &sevens, Err(InvalidChar { index: 1, byte: 0xff }), &[0xa5; 32];
        "v13", Decode(Either), &ones, Err(InvalidChar { index: 129, byte: b'!' }), &[0xa5; 65];
        "v14", Encode(false), &bytes, Ok(66), lower;
        "v15", Decode(Upper), upper, Ok(33), &decoded;
        "v16", Decode(Either), b"", Ok(0), &[0xa5; 3];
        "v17", WriteGrouped, b"\x00\x01\x02", Ok(7), b"0001:02";
        "v18", ReadGrouped, b"00:0102", Err(InvalidChar { index: 2, byte: b':' }), &[0xa5; 3];
        "v19", ReadList, b"ab01 *b", Ok(1), b"\xab\x01*b";
        "v20", WriteList, b"\xab\x01*b", Ok(8), b"AB01 *b\n";
    }
    ends(&rt, vectors.seen.ended(20));
}
