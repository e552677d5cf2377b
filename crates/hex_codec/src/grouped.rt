//! Functions that decode and encode grouped digits, which are pieces of digits with a separator
//! between two pieces.
//!
//! The functions that decode test the whole text before they store the first byte.

ghost use Rattle.std.specs.Prelude.{◌≡◌, ◌≤◌, ◌<◌, ◌+◌, ◌*◌, ◌^◌, MatchOption, None, Ok, Some, length};
ghost use Rattle.std.specs.Borrow.{sem};
ghost use Rattle.hex_core.specs.Loan.{LendsAnswer};
ghost use Rattle.hex_codec.specs.GroupedWriting.{piece_len};
ghost use Rattle.hex_codec.specs.GroupedReading.{byte_count, grouped_len};
ghost use Rattle.hex_codec.specs.GroupCalls.{FrontIsRead, Reads, ReadsFront, WritesGrouped};
ghost use Rattle.hex_codec.specs.GroupMessage.{group_fault_text};

pub use crate::group::Group;
use crate::pieces::{first_invalid_in_text, read_pieces, write_by_piece_len};
use hex_core::{Backend, CheckCase, Error};
use std::{error, fmt};

/// An error of a function that decodes grouped text.
///
/// ```rust
/// let group = Group::new(2, b':').ok_or("no group")?;
/// let texts = [
///     (b"0001-02".as_slice(), "invalid byte 0x2d at index 4"),
///     (b"0001:0", "invalid length of grouped hex"),
/// ];
/// for (source, text) in texts {
///     let fault = read_into(source, &mut [0; 3], group, CheckCase::None)
///         .err()
///         .ok_or("no fault")?;
///     assert_eq!(rt; fault.to_string(rt.alloc())?.as_str(), text);
/// }
/// ```
#[derive(Clone, Copy, Debug, PartialEq, Eq)]
pub enum GroupFault {
    /// No number of bytes has a grouped text of this length.
    BadLength,
    /// The destination cannot hold the decoded bytes.
    OutputTooSmall {
        /// The number of decoded bytes.
        required: usize,
    },
    /// A byte is wrong at its index. Either it should be a digit and the policy does not accept it,
    /// or it should be the separator and is another byte.
    InvalidByte {
        /// The index of the first such byte in the text, in bytes.
        index: usize,
        /// That byte.
        byte: u8,
    },
}

impl fmt::Display for GroupFault {
    ghost output = { λ fault. Some (group_fault_text fault) };

    fn fmt<W: fmt::Write>(&self, f: &mut fmt::Formatter<W>) -> fmt::Result {
        match *self {
            GroupFault::BadLength => f.write_str("invalid length of grouped hex"),
            GroupFault::OutputTooSmall { required } => Error::OutputTooSmall { required }.fmt(f),
            GroupFault::InvalidByte { index, byte } => {
                write!(f, "invalid byte 0x{byte:02x} at index {index}")
            }
        }
    }
}

impl error::Error for GroupFault {}

// Returns the number of bytes whose grouped text has `len` bytes, if there is one.
#[inline(always)]
fn byte_count(len: usize, every: usize) -> Option<usize>
    requires { 0 < every }
    ensures { result ≡ byte_count every len }
{
    // A text of one piece comes first, so that `2 * every + 1` cannot exceed `usize`.
    if every > len / 2 {
        return if len % 2 == 0 { Some(len / 2) } else { None };
    }
    let part = 2 * every + 1;
    let last = len % part;
    // If nothing is left after whole parts, the text would end with a separator.
    if last == 0 || last % 2 == 1 {
        return None;
    }
    Some(len / part * every + last / 2)
}

/// Decodes all of a grouped text into the start of `dst`, if `case` accepts its digits. Returns the
/// number of bytes written.
///
/// The text has the digits of pieces of [`Group::every`] bytes, and the last piece may be shorter.
/// There is one [`Group::sep`] between two pieces. So the text of `n` bytes has `2 * n` digits, and
/// one separator fewer than pieces. The bytes of `dst` after the written ones are unchanged. If `src`
/// is empty, the result is 0 and nothing changes.
///
/// This function does the same as [`read`], but returns no borrow. Use it if a proof must say what
/// the whole buffer holds afterwards.
///
/// # Errors
///
/// The conditions are tested in this order. Each error leaves all of `dst` unchanged.
///
/// 1. [`GroupFault::BadLength`] if no number of bytes has a grouped text of `src.len()` bytes.
/// 2. [`GroupFault::OutputTooSmall`] if `dst` has fewer bytes than that number.
/// 3. [`GroupFault::InvalidByte`] if a byte of `src` is wrong at its index, because `case` does not
///    accept it as a digit or because it is not the separator. The error has the first such byte
///    and its index.
///
/// ```rust
/// let group = Group::new(2, b':').ok_or("no group")?;
/// let mut buffer = [0xa5; 4];
/// let written = read_into(b"0001:02", &mut buffer, group, CheckCase::None)?;
/// assert_eq!(rt; written, 3);
/// assert_eq!(rt; buffer, [0, 1, 2, 0xa5]);
/// ```
pub fn read_into(
    src: &[u8],
    dst: &mut [u8],
    group: Group,
    case: CheckCase,
) -> Result<usize, GroupFault>
    ensures answer { Reads case group src.now dst.old dst.new result }
    ensures read { FrontIsRead case group src.now dst.old dst.new result }
{
    read_front(src, dst, group, case)
}

// Does the same as `read_into`, but has only the clause that `read` needs. The proof of `read` is
// written by hand, and would have to carry every further clause.
fn read_front(
    src: &[u8],
    dst: &mut [u8],
    group: Group,
    case: CheckCase,
) -> Result<usize, GroupFault>
    ensures { Reads case group src.now dst.old dst.new result }
{
    read_by(Backend::plain(), src, dst, group, case)
}

/// Does the same as [`read_into`] by the given plan, which is a [`Backend`]. The plan changes only the speed.
///
/// ```rust
/// let group = Group::new(2, b':').ok_or("no group")?;
/// let mut buffer = [0xa5; 4];
/// let [scalar, ..] = backends();
/// let written = read_by(scalar, b"0001:02", &mut buffer, group, CheckCase::None)?;
/// assert_eq!(rt; written, 3);
/// assert_eq!(rt; buffer, [0, 1, 2, 0xa5]);
/// ```
pub fn read_by(
    plan: Backend,
    src: &[u8],
    dst: &mut [u8],
    group: Group,
    case: CheckCase,
) -> Result<usize, GroupFault>
    ensures answer { Reads case group src.now dst.old dst.new result }
{
    let Some(count) = byte_count(src.len(), group.every()) else {
        return Err(GroupFault::BadLength);
    };
    if dst.len() < count {
        return Err(GroupFault::OutputTooSmall { required: count });
    }
    if let Some(index) = first_invalid_in_text(plan, src, count, group, case) {
        return Err(GroupFault::InvalidByte {
            index,
            byte: src[index],
        });
    }
    read_pieces(plan, src, &mut dst[..count], group, case);
    Ok(count)
}

/// Decodes all of a grouped text into the start of `dst`, if `case` accepts its digits. Returns the
/// written part of `dst`.
///
/// The text and its length are those of [`read_into`]. The result borrows only `dst`, and the bytes
/// of `dst` after it are unchanged.
///
/// # Errors
///
/// The errors are those of [`read_into`], in the same order. Each leaves all of `dst` unchanged.
///
/// ```rust
/// let group = Group::new(2, b':').ok_or("no group")?;
/// let mut buffer = [0xa5; 4];
/// let bytes = read(b"0001:02", &mut buffer, group, CheckCase::None)?;
/// bytes[0] = 0xff;
/// assert_eq!(rt; buffer, [0xff, 1, 2, 0xa5]);
/// ```
pub fn read<'a>(
    src: &[u8],
    dst: &'a mut [u8],
    group: Group,
    case: CheckCase,
) -> Result<&'a mut [u8], GroupFault>
    ensures* lends { sem 𝓛 (LendsAnswer dst.entry result) }
    ensures answer { ReadsFront case group src.now (length dst.old) result }
{
    match read_front(src, dst, group, case) {
        Ok(written) => Ok(&mut dst[..written]),
        Err(fault) => Err(fault),
    }
}

// Returns the length of the grouped text of `len` bytes, or `None` if it exceeds `usize`.
#[inline(always)]
fn grouped_len(len: usize, every: usize) -> Option<usize>
    requires { 0 < every }
    ensures { MatchOption result (2 ^ 64 ≤ grouped_len every len)
        (λ n. (n ≡ grouped_len every len) × (n < 2 ^ 64)) }
{
    let digits = len.checked_mul(2)?;
    digits.checked_add(len.saturating_sub(1) / every)
}

/// Encodes `src` in groups into the start of `dst`. Returns the number of bytes written, which is
/// two digits for each byte of `src`, and one separator fewer than pieces. The bytes of `dst` after
/// them are unchanged. If `src` is empty, the result is 0 and nothing changes.
///
/// # Errors
///
/// The conditions are tested in this order. Each error leaves all of `dst` unchanged.
///
/// 1. [`Error::Overflow`] if that length exceeds `usize`.
/// 2. [`Error::OutputTooSmall`] if `dst` has fewer bytes than that length.
///
/// ```rust
/// let group = Group::new(2, b':').ok_or("no group")?;
/// let mut buffer = [0; 8];
/// let written = write_into(&[0, 1, 0xab], &mut buffer, group, true)?;
/// assert_eq!(rt; &buffer[..written], b"0001:AB".as_slice());
/// ```
pub fn write_into(src: &[u8], dst: &mut [u8], group: Group, upper: bool) -> Result<usize, Error>
    ensures answer { WritesGrouped group upper src.now dst.old dst.new result }
{
    write_by(Backend::plain(), src, dst, group, upper)
}

/// Does the same as [`write_into`] by the given plan, which is a [`Backend`]. The plan changes only the speed.
///
/// ```rust
/// let group = Group::new(2, b':').ok_or("no group")?;
/// let mut buffer = [0; 8];
/// let [scalar, ..] = backends();
/// let written = write_by(scalar, &[0, 1, 0xab], &mut buffer, group, true)?;
/// assert_eq!(rt; &buffer[..written], b"0001:AB".as_slice());
/// ```
pub fn write_by(
    plan: Backend,
    src: &[u8],
    dst: &mut [u8],
    group: Group,
    upper: bool,
) -> Result<usize, Error>
    ensures answer { WritesGrouped group upper src.now dst.old dst.new result }
{
    let Some(required) = grouped_len(src.len(), group.every()) else {
        return Err(Error::Overflow);
    };
    if dst.len() < required {
        return Err(Error::OutputTooSmall { required });
    }
    Ok(write_fitting(plan, src, dst, group, upper))
}

/// Does the same as [`write_into`], but `dst` must have at least `3 * src.len() - 1` bytes, which
/// are enough for groups of any size. So this function need not compute the length of the text
/// first, which would take a division. Returns the number of bytes written.
///
/// ```rust
/// let group = Group::new(2, b':').ok_or("no group")?;
/// let mut buffer = [0; 8];
/// let written = write_with_room(&[0, 1, 0xab], &mut buffer, group, true);
/// assert_eq!(rt; &buffer[..written], b"0001:AB".as_slice());
/// ```
pub fn write_with_room(src: &[u8], dst: &mut [u8], group: Group, upper: bool) -> usize
    requires { 3 * length src.now ≤ length dst.old + 1 }
    ensures answer { WritesGrouped group upper src.now dst.old dst.new (Ok result) }
{
    write_fitting(Backend::plain(), src, dst, group, upper)
}

// Encodes `src` in groups into a destination with room. Pieces of 1 and 4 bytes have their own code.
fn write_fitting(plan: Backend, src: &[u8], dst: &mut [u8], group: Group, upper: bool) -> usize
    requires { grouped_len (piece_len group) (length src.now) ≤ length dst.old }
    ensures { WritesGrouped group upper src.now dst.old dst.new (Ok result) }
{
    match group.every() {
        1 => write_by_piece_len::<1>(plan, src, dst, group, upper),
        4 => write_by_piece_len::<4>(plan, src, dst, group, upper),
        _ => write_by_piece_len::<0>(plan, src, dst, group, upper),
    }
}
