//! The stored test vectors, which `fhex vectors` runs.

use Call::{Decode, Encode, ReadGrouped, ReadList, WriteGrouped, WriteList};
use hex_codec::{Group, GroupFault, grouped};
use hex_core::CheckCase::{Lower, None as Either, Upper};
use hex_core::Error::{InvalidChar, OddLength, OutputTooSmall};
use hex_core::{Backend, CheckCase, Error, backends};
use hex_io::digests::{Entry, ListFault, read_in, write_to};
use hex_io::{Hex, HexFlags, SliceSink};
use std::alloc::{AllocError, Allocator};

// Each byte of a destination before the call.
const FILL: u8 = 0xa5;

/// The call of a stored vector. `Encode` and `Decode` run by each plan of [`backends`](hex_core::backends),
/// and the others run once.
#[derive(Clone, Copy, PartialEq, Eq)]
pub enum Call {
    /// [`Backend::encode_slice`], in uppercase if the value is true.
    Encode(bool),
    /// [`Backend::decode_slice`], by this policy.
    Decode(CheckCase),
    /// [`Hex::write_to`] into a [`SliceSink`], in groups of two bytes with a colon between them.
    WriteGrouped,
    /// [`grouped::read`] with the group of `WriteGrouped`. Each fault becomes a similar [`Error`].
    ReadGrouped,
    /// [`digests::write_to`](hex_io::digests::write_to) of one entry into a [`SliceSink`], in
    /// uppercase. The source has the entry, which is a digest of two bytes, the mark and the name.
    WriteList,
    /// [`digests::read`](hex_io::digests::read) of lowercase digits. The expected result is the
    /// number of entries, which is 1. This call has no destination, so `left` has the expected entry:
    /// its digest, its mark and its name.
    ReadList,
}

/// A stored vector has a call, the expected result, and the expected bytes of the destination after
/// the call. Before the call each byte of the destination is 0xa5.
#[derive(Clone, Copy)]
pub struct Vector<'a> {
    /// The name in the line that reports the vector.
    pub name: &'a str,
    /// The call.
    pub call: Call,
    /// The source.
    pub source: &'a [u8],
    /// The expected number of bytes written, or the expected error.
    pub answer: Result<usize, Error>,
    /// All bytes of the destination after the call. A vector with more than 128 of them fails.
    pub left: &'a [u8],
}

// A vector is written as its name, call, source, result and destination.
macro_rules! vectors {
    ($($name:literal $call:expr, $source:expr, $answer:expr, $left:expr;)*) => {
        [$(Vector { name: $name, call: $call, source: $source, answer: $answer, left: $left }),*]
    };
}

/// The stored vectors, in their order.
pub static VECTORS: [Vector<'static>; 20] = vectors! {
    "v01" Encode(false), b"hello", Ok(10), b"68656c6c6f";
    "v02" Encode(true), b"\x00\xab\xff", Ok(6), b"00ABFF";
    "v03" Encode(false), b"\xab\xcd", Err(OutputTooSmall { required: 4 }), &[FILL; 3];
    "v04" Decode(Either), b"00aBcD", Ok(3), b"\x00\xab\xcd\xa5\xa5";
    "v05" Decode(Either), b"00ff0g", Err(InvalidChar { index: 5, byte: b'g' }), &[FILL; 3];
    "v06" Decode(Either), b"g", Err(OddLength), &[FILL; 32];
    "v07" Decode(Either), b"gg", Err(OutputTooSmall { required: 1 }), &[];
    "v08" Decode(Either), b"0A0bg!ff", Err(InvalidChar { index: 4, byte: b'g' }), &[FILL; 4];
    "v09" Decode(Lower), b"0A0bg!ff", Err(InvalidChar { index: 1, byte: b'A' }), &[FILL; 4];
    "v10" Decode(Upper), b"0A0bg!ff", Err(InvalidChar { index: 3, byte: b'b' }), &[FILL; 4];
    "v11" Decode(Either), b"\xc3\xa9", Err(InvalidChar { index: 0, byte: 0xc3 }), &[FILL; 4];
    "v12" Decode(Either), b"7\xff77777777777777777777777777777777777777777777777777777777777777",
        Err(InvalidChar { index: 1, byte: 0xff }), &[FILL; 32];
    "v13" Decode(Either), b"11111111111111111111111111111111111111111111111111111111111111111\
        1111111111111111111111111111111111111111111111111111111111111111!",
        Err(InvalidChar { index: 129, byte: b'!' }), &[FILL; 65];
    "v14" Encode(false), b"\x00\x01\x02\x03\x04\x05\x06\x07\x08\x09\x0a\x0b\x0c\x0d\x0e\x0f\
        \x10\x11\x12\x13\x14\x15\x16\x17\x18\x19\x1a\x1b\x1c\x1d\x1e\x1f\x20",
        Ok(66), b"000102030405060708090a0b0c0d0e0f101112131415161718191a1b1c1d1e1f20";
    "v15" Decode(Upper), b"000102030405060708090A0B0C0D0E0F101112131415161718191A1B1C1D1E1F20",
        Ok(33), b"\x00\x01\x02\x03\x04\x05\x06\x07\x08\x09\x0a\x0b\x0c\x0d\x0e\x0f\
        \x10\x11\x12\x13\x14\x15\x16\x17\x18\x19\x1a\x1b\x1c\x1d\x1e\x1f\x20\
        \xa5\xa5\xa5\xa5\xa5\xa5\xa5";
    "v16" Decode(Either), b"", Ok(0), &[FILL; 3];
    "v17" WriteGrouped, b"\x00\x01\x02", Ok(7), b"0001:02";
    "v18" ReadGrouped, b"00:0102", Err(InvalidChar { index: 2, byte: b':' }), &[FILL; 3];
    "v19" ReadList, b"ab01 *b", Ok(1), b"\xab\x01*b";
    "v20" WriteList, b"\xab\x01*b", Ok(8), b"AB01 *b\n";
};

// Returns an entry from its bytes in the table: a digest of two bytes, the mark and the name.
fn entry_of(bytes: &[u8]) -> Option<Entry<'_, 2>> {
    match bytes {
        [high, low, mark, name @ ..] => Some(Entry {
            digest: [*high, *low],
            binary: *mark == b'*',
            name,
        }),
        _ => None,
    }
}

// Returns whether a list is read as a vector expects. A failed allocation is an error.
fn reads_list<A: Allocator>(alloc: &A, vector: &Vector<'_>) -> Result<bool, AllocError> {
    let Some(entry) = entry_of(vector.left) else {
        return Ok(false);
    };
    match read_in::<_, 2>(alloc, vector.source, CheckCase::Lower) {
        Ok(entries) => {
            let is_stated = vector.answer == Ok(entries.len());
            Ok(is_stated && entries.as_slice() == [entry].as_slice())
        }
        Err(ListFault::OutOfMemory) => Err(AllocError),
        Err(ListFault::Line { .. }) => Ok(false),
    }
}

// Returns whether a sink over the destination takes what a vector expects.
fn writes(vector: &Vector<'_>, destination: &mut [u8]) -> bool {
    let mut sink = SliceSink::new(destination);
    let is_written = if vector.call == Call::WriteList {
        entry_of(vector.source).is_some_and(|entry| write_to(&[entry], &mut sink, true).is_ok())
    } else {
        let flags = HexFlags {
            group: Group::new(2, b':'),
            ..HexFlags::default()
        };
        Hex::new(vector.source).write_to(&mut sink, &flags).is_ok()
    };
    let written = sink.written();
    is_written && vector.answer == Ok(written.len()) && vector.left.starts_with(written)
}

// Reads grouped text. Its errors are replaced by those of reading digits.
fn read_grouped<'a>(source: &[u8], destination: &'a mut [u8]) -> Result<&'a mut [u8], Error> {
    let Some(group) = Group::new(2, b':') else {
        return Err(Error::Overflow);
    };
    match grouped::read(source, destination, group, CheckCase::None) {
        Ok(front) => Ok(front),
        Err(GroupFault::BadLength) => Err(OddLength),
        Err(GroupFault::OutputTooSmall { required }) => Err(OutputTooSmall { required }),
        Err(GroupFault::InvalidByte { index, byte }) => Err(InvalidChar { index, byte }),
    }
}

// Returns whether a call with a destination returns what a vector expects.
fn answers(plan: Backend, vector: &Vector<'_>, destination: &mut [u8]) -> bool {
    let source = vector.source;
    let answer = match vector.call {
        Call::Encode(upper) => plan.encode_slice(source, destination, upper),
        Call::Decode(check_case) => plan.decode_slice(source, destination, check_case),
        Call::ReadGrouped => read_grouped(source, destination),
        _ => return writes(vector, destination),
    };
    match answer {
        Ok(front) => vector.answer == Ok(front.len()) && vector.left.starts_with(front),
        Err(refusal) => vector.answer == Err(refusal),
    }
}

// Returns whether a call returns and writes what a vector expects. A failed allocation is an error.
fn passes<A: Allocator>(alloc: &A, plan: Backend, vector: &Vector<'_>) -> Result<bool, AllocError> {
    if vector.call == Call::ReadList {
        return reads_list(alloc, vector);
    }
    let mut buffer = [FILL; 128];
    let Some(destination) = buffer.get_mut(..vector.left.len()) else {
        return Ok(false);
    };
    Ok(answers(plan, vector, destination) && buffer.starts_with(vector.left))
}

/// The lines of a run so far, the number of vectors that ran, and the number of those that failed.
#[derive(Drop)]
pub(crate) struct Report<A: Allocator> {
    pub(crate) lines: String<A>,
    pub(crate) failed: usize,
    total: usize,
}

impl<A: Allocator> Report<&A> {
    // Runs the vectors of calls that take a plan, and adds their lines. For the plan `plain` it runs
    // those that run only once instead.
    fn add(&mut self, alloc: &A, plan: Backend, table: &[Vector<'_>]) -> Result<(), AllocError> {
        let under = plan.name();
        for vector in table {
            if matches!(vector.call, Encode(_) | Decode(_)) == (under == "plain") {
                continue;
            }
            let passes = passes(alloc, plan, vector)?;
            self.total = self.total.saturating_add(1);
            self.failed = self.failed.saturating_add(usize::from(!passes));
            let verdict = if passes { "pass" } else { "fail" };
            writeln!(self.lines, "{under} {} {verdict}", vector.name)?;
        }
        Ok(())
    }
}

/// Runs the vectors of `table` by each plan, and then those that run only once. Returns a line for
/// each, such as `scalar v01 pass`, with `fail` instead of `pass` if the vector failed, and a last
/// line with the totals.
pub(crate) fn run_vectors<'a, A: Allocator>(
    alloc: &'a A,
    table: &[Vector<'_>],
) -> Result<Report<&'a A>, AllocError> {
    let mut report = Report {
        lines: String::new(alloc),
        failed: 0,
        total: 0,
    };
    for plan in backends() {
        report.add(alloc, plan, table)?;
    }
    report.add(alloc, Backend::plain(), table)?;
    let (total, failed) = (report.total, report.failed);
    let passed = total.saturating_sub(failed);
    writeln!(
        report.lines,
        "total {total} passed {passed} failed {failed}"
    )?;
    Ok(report)
}
