//! Texts, lists and pieces of some 300,000 bytes or lines, and the capacity for an input.

use hex_core::CheckCase;
use hex_io::digests::{read, write_to};
use hex_io::{Hex, Sink, WriterSink};
use hex_program::read_input;
use std::alloc::Global;

// How many bytes are printed or put, and how many lines are read.
const MANY: usize = 300_000;

// Returns whether a view prints its digits alone, also with the flag `#`.
fn is_printed(alloc: Global) -> Option<bool> {
    let bytes = Vec::from_elem(alloc, 0xaa, MANY).ok()?;
    let digits = Vec::from_elem(alloc, b'a', 2 * MANY).ok()?;
    let hex = Hex::new(bytes.as_slice());
    let plain = format!(in alloc; "{hex}").ok()?;
    let flagged = format!(in alloc; "{hex:#}").ok()?;
    let is_plain = plain.as_str().as_bytes() == digits.as_slice();
    Some(is_plain && plain.as_str() == flagged.as_str())
}

#[test]
fn a_long_view_prints_its_digits_alone(rt: HostRuntime) {
    assert!(rt; is_printed(rt.alloc()) == Some(true));
}

// Returns whether a list is read, and its entries are written as the same text.
fn is_listed(alloc: Global) -> Option<bool> {
    let mut list = Vec::new(alloc);
    for _ in 0..MANY {
        list.extend_from_slice(b"0a  n\n").ok()?;
    }
    let entries = read::<1>(alloc, list.as_slice(), CheckCase::None).ok()?;
    let mut sink = WriterSink::new(Vec::new(alloc));
    write_to(entries.as_slice(), &mut sink, false).ok()?;
    Some(entries.len() == MANY && sink.into_inner().as_slice() == list.as_slice())
}

#[test]
fn a_long_list_is_read_and_written(rt: HostRuntime) {
    assert!(rt; is_listed(rt.alloc()) == Some(true));
}

// Returns whether a put passes a long piece on in one write, of which a `Vec` takes all.
fn is_one_write(alloc: Global) -> Option<bool> {
    let piece = Vec::from_elem(alloc, 0xaa, MANY).ok()?;
    let mut sink = WriterSink::new(Vec::new(alloc));
    Some(sink.put(piece.as_slice()) == Ok(MANY))
}

#[test]
fn a_long_piece_is_one_write(rt: HostRuntime) {
    assert!(rt; is_one_write(rt.alloc()) == Some(true));
}

// The capacity is at most that of the longest input and of one more read, 65,536 bytes.
#[test]
fn an_input_takes_no_more_memory_than_the_longest(rt: HostRuntime) {
    let held = read_input(rt.alloc(), &mut b"hello".as_slice());
    assert!(rt; held.is_ok_and(|all| all.capacity() <= 16_777_216 + 65_536));
}
