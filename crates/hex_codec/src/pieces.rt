//! Loops over the pieces of a grouped text, which test, decode or encode the text by a plan. No
//! separator follows the last piece, so it is handled after each loop.

ghost use Rattle.std.specs.Prelude.{◌≡◌, ◌≤◌, ◌<◌, ◌*◌, ◌%◌, None, Ok, length};
ghost use Rattle.hex_core.specs.Search.{first_invalid};
ghost use Rattle.hex_core.specs.Text.{Spells, text};
ghost use Rattle.hex_codec.specs.GroupCalls.{WritesGrouped};
ghost use Rattle.hex_codec.specs.GroupedWriting.{piece_len};
ghost use Rattle.hex_codec.specs.GroupedReading.{GroupSpells, first_invalid_in_text, grouped_len};

use crate::group::Group;
use hex_core::look_ups::{are_digits, write_bytes, write_digits};
use hex_core::{Backend, CheckCase};

// For pieces of at least this many bytes, the call of a plan takes no longer than inlined look-ups.
const CALL_FROM: usize = 8;

// Returns the index of the first invalid byte of a piece.
#[inline(always)]
fn first_invalid(plan: Backend, digits: &[u8], case: CheckCase) -> Option<usize>
    requires { length digits.now % 2 ≡ 0 }
    ensures { result ≡ first_invalid case digits.now }
{
    if digits.len() < 2 * CALL_FROM && are_digits(digits, case) {
        return None;
    }
    plan.first_invalid(digits, case)
}

// Decodes the digits of a piece, which must be valid.
#[inline(always)]
fn read_piece(plan: Backend, digits: &[u8], bytes: &mut [u8], case: CheckCase)
    requires twice { length digits.now ≡ 2 * length bytes.old }
    requires valid { first_invalid case digits.now ≡ None }
    ensures { Spells case digits.now bytes.new }
{
    if bytes.len() < CALL_FROM {
        return write_bytes(digits, bytes, case);
    }
    read_long_piece(plan, digits, bytes, case);
}

// Does the same as `read_piece` for at least `CALL_FROM` bytes. It is not inlined, because decoding
// has an implementation for each range of lengths.
#[inline(never)]
fn read_long_piece(plan: Backend, digits: &[u8], bytes: &mut [u8], case: CheckCase)
    requires twice { length digits.now ≡ 2 * length bytes.old }
    requires valid { first_invalid case digits.now ≡ None }
    ensures { Spells case digits.now bytes.new }
{
    plan.decode_into(digits, bytes, case).unwrap();
}

// Encodes a piece, by inlined look-ups if it is short.
#[inline(always)]
fn write_piece(plan: Backend, bytes: &[u8], digits: &mut [u8], upper: bool)
    requires { length digits.old ≡ 2 * length bytes.now }
    ensures { digits.new ≡ text upper bytes.now }
{
    if bytes.len() < CALL_FROM {
        return write_digits(bytes, digits, upper);
    }
    plan.encode(bytes, digits, upper);
}

/// Returns the index of the first wrong byte of a text, if there is one. `src` has the length of
/// the grouped text of `count` bytes.
pub fn first_invalid_in_text(
    plan: Backend,
    src: &[u8],
    count: usize,
    group: Group,
    case: CheckCase,
) -> Option<usize>
    requires { length src.now ≡ grouped_len (piece_len group) count }
    ensures { result ≡ first_invalid_in_text case group src.now }
{
    let every = group.every();
    let mut at = 0;
    let mut left = count;
    'pieces: while left > every {
        let end = at + 2 * every;
        if let Some(index) = first_invalid(plan, &src[at..end], case) {
            return Some(at + index);
        }
        if src[end] != group.sep() {
            return Some(end);
        }
        at = end + 1;
        left -= every;
    }
    match first_invalid(plan, &src[at..], case) {
        Some(index) => Some(at + index),
        None => None,
    }
}

/// Decodes a text that has no wrong byte over all of `dst`.
pub fn read_pieces(plan: Backend, src: &[u8], dst: &mut [u8], group: Group, case: CheckCase)
    requires long { length src.now ≡ grouped_len (piece_len group) (length dst.old) }
    requires clear { first_invalid_in_text case group src.now ≡ None }
    ensures { GroupSpells case group src.now dst.new }
{
    let every = group.every();
    let mut at = 0;
    let mut done = 0;
    'pieces: while dst.len() - done > every {
        let end = at + 2 * every;
        read_piece(plan, &src[at..end], &mut dst[done..done + every], case);
        at = end + 1;
        done += every;
    }
    read_piece(plan, &src[at..], &mut dst[done..], case);
}

// Returns the length of a piece, which is `EVERY` if that is not 0.
#[inline(always)]
fn piece_len<const EVERY: usize>(group: Group) -> usize
    requires { 0 < EVERY → EVERY ≡ piece_len group }
    ensures { result ≡ piece_len group }
{
    if EVERY > 0 { EVERY } else { group.every() }
}

/// Encodes `src` in groups into the start of `dst`. Returns the number of bytes written. `EVERY` is
/// the length of a piece or 0. If it is not 0, the compiler knows the length, and encodes a short
/// piece without a loop.
pub fn write_by_piece_len<const EVERY: usize>(
    plan: Backend,
    src: &[u8],
    dst: &mut [u8],
    group: Group,
    upper: bool,
) -> usize
    requires every { 0 < EVERY → EVERY ≡ piece_len group }
    requires room { grouped_len (piece_len group) (length src.now) ≤ length dst.old }
    ensures { WritesGrouped group upper src.now dst.old dst.new (Ok result) }
{
    let every = piece_len::<EVERY>(group);
    let mut at = 0;
    let mut done = 0;
    'pieces: while src.len() - at > every {
        let end = done + 2 * every;
        write_piece(plan, &src[at..at + every], &mut dst[done..end], upper);
        dst[end] = group.sep();
        at += every;
        done = end + 1;
    }
    let end = done + 2 * (src.len() - at);
    write_piece(plan, &src[at..], &mut dst[done..end], upper);
    end
}
