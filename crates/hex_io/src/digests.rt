//! Digest lists, such as `sha256sum` prints. A list has one line for each entry, with the digits of
//! its digest, a space, its mark, which is a space or `*`, and its name: `ab01 *photo.jpg`.

ghost use Rattle.std.specs.Prelude.{◌≡◌, ◌≢◌, ◌≤◌, ◌*◌, ◌++◌, ◌∷◌, [], None, Some, length, take};
ghost use Rattle.hex_core.specs.Calls.{Answers};
ghost use Rattle.hex_core.specs.Search.{first_invalid};
ghost use Rattle.hex_core.specs.Text.{text};
ghost use Rattle.hex_io.specs.ListCalls.{ReadsList, WritesList};
ghost use Rattle.hex_io.specs.Lists.{LineIs, fault_in, first_bad_name, is_bad_name, line_fault, mark};
ghost use Rattle.hex_io.specs.Message.{line_fault_text, list_fault_text, list_write_fault_text};
ghost use Rattle.hex_io.specs.SinkState.{Puts};
ghost use Rattle.hex_io.specs.declared.digests.ListWriteFault.TheVariants as fault;

use crate::digits::put_digits;
use crate::laws::puts_in_a_row_are_one;
use crate::lines::line_end;
use crate::sink::{Sink, WriteFault, put_all};
use hex_core::{Backend, CheckCase, Error};
use std::alloc::{Allocator, Global};
use std::{error, fmt};

/// One line of a list.
#[derive(Clone, Copy, Debug, PartialEq, Eq)]
pub struct Entry<'a, const N: usize> {
    /// The digest.
    pub digest: [u8; N],
    /// Whether the mark, which is the byte before the name, is `*`. It means that the file was read
    /// as binary. Otherwise the mark is a space.
    pub binary: bool,
    /// The name of the file. [`read`] returns only names of at least one byte without a newline,
    /// and [`write_to`] accepts only such names. No other byte is special, so a CR at the end of a
    /// line stays in the name.
    pub name: &'a [u8],
}

/// What is wrong with a line. If a line has several of these faults, this is the first of them in
/// the order given here.
#[derive(Clone, Copy, Debug, PartialEq, Eq)]
pub enum LineFault {
    /// The line is too short for the digits, a space, a mark and a name, because it has fewer than
    /// `2 * N + 3` bytes before its newline.
    ShortLine,
    /// A byte among the digits is not a digit that the policy accepts.
    InvalidByte {
        /// The index of the first such byte in the line, in bytes.
        index: usize,
        /// That byte.
        byte: u8,
    },
    /// The byte after the digits is not a space, or the byte after that is neither a space nor `*`.
    BadMark,
}

impl fmt::Display for LineFault {
    ghost output = { λ fault. Some (line_fault_text fault) };

    fn fmt<W: fmt::Write>(&self, f: &mut fmt::Formatter<W>) -> fmt::Result {
        match *self {
            LineFault::ShortLine => f.write_str("line too short"),
            LineFault::InvalidByte { index, byte } => Error::InvalidChar { index, byte }.fmt(f),
            LineFault::BadMark => f.write_str("invalid mark"),
        }
    }
}

impl error::Error for LineFault {}

/// An error of reading a list.
///
/// ```rust
/// let texts = [
///     (b"ab01  a.txt\nzz".as_slice(), "line 2: line too short"),
///     (b"abg1  a.txt", "line 1: invalid hex byte 0x67 at index 2"),
///     (b"ab01x*a.txt", "line 1: invalid mark"),
/// ];
/// for (list, text) in texts {
///     let fault = read::<2>(rt.alloc(), list, CheckCase::None)
///         .err()
///         .ok_or("no fault")?;
///     assert_eq!(rt; fault.to_string(rt.alloc())?.as_str(), text);
/// }
/// let fault = ListFault::OutOfMemory;
/// assert_eq!(rt; fault.to_string(rt.alloc())?.as_str(), "out of memory");
/// ```
#[derive(Clone, Copy, Debug, PartialEq, Eq)]
pub enum ListFault {
    /// A line is malformed.
    Line {
        /// The number of the first such line, from 1.
        line: usize,
        /// What is wrong with it.
        why: LineFault,
    },
    /// The allocation of an entry failed.
    OutOfMemory,
}

impl fmt::Display for ListFault {
    ghost output = { λ fault. Some (list_fault_text fault) };

    fn fmt<W: fmt::Write>(&self, f: &mut fmt::Formatter<W>) -> fmt::Result {
        match self {
            ListFault::Line { line, why } => write!(f, "line {line}: {why}"),
            ListFault::OutOfMemory => f.write_str("out of memory"),
        }
    }
}

impl error::Error for ListFault {}

/// An error of writing a list.
///
/// ```rust
/// let fault = ListWriteFault::BadName { entry: 1 };
/// assert_eq!(rt;
///     fault.to_string(rt.alloc())?.as_str(),
///     "invalid name in entry 1"
/// );
/// ```
#[derive(Clone, Copy, Debug, PartialEq, Eq)]
pub enum ListWriteFault {
    /// A name is empty or has a newline, so it cannot end a line of a list.
    BadName {
        /// The index of the first entry with such a name.
        entry: usize,
    },
    /// The sink failed.
    Write(WriteFault),
}

impl fmt::Display for ListWriteFault {
    ghost output = { λ fault. Some (list_write_fault_text fault) };

    fn fmt<W: fmt::Write>(&self, f: &mut fmt::Formatter<W>) -> fmt::Result {
        match self {
            ListWriteFault::BadName { entry } => write!(f, "invalid name in entry {entry}"),
            ListWriteFault::Write(failed) => failed.fmt(f),
        }
    }
}

impl error::Error for ListWriteFault {}

impl From<WriteFault> for ListWriteFault {
    ghost from_gives = { λ failed given. given ≡ fault.Write failed };

    fn from(failed: WriteFault) -> ListWriteFault {
        ListWriteFault::Write(failed)
    }
}

/// Returns the entries of a list, in the order of its lines. They are allocated by the global
/// allocator.
///
/// A line has `2 * N` digits that `case` accepts, a space, then a space or `*`, and then a name. It
/// ends with a newline, which the last line may lack. An empty source has no entries. The names of
/// the entries are slices of `src`.
///
/// So this function reads a list that `sha256sum` has printed, except for names that `sha256sum`
/// escapes. If a name has a backslash, a newline or a CR, its line begins with a backslash. This is
/// not a digit, so the line is malformed here.
///
/// # Errors
///
/// The lines are read in order. The first error ends the call.
///
/// - [`ListFault::Line`] if a line is malformed. The error has the number of the line and its first
///   fault.
/// - [`ListFault::OutOfMemory`] if an allocation fails. The entry of a line is allocated only after
///   the line was read without a fault.
///
/// ```rust
/// let list = b"ab01  a.txt\nCD02 *b\n";
/// let entries = read::<2>(rt.alloc(), list, CheckCase::None)?;
/// assert_eq!(rt; entries.len(), 2);
/// assert_eq!(rt; entries[1].digest, [0xcd, 2]);
/// assert_eq!(rt; entries[1].name, b"b".as_slice());
/// let refused = read::<2>(rt.alloc(), list, CheckCase::Lower).err();
/// let why = LineFault::InvalidByte {
///     index: 0,
///     byte: b'C',
/// };
/// assert_eq!(rt; refused, Some(ListFault::Line { line: 2, why }));
/// ```
pub fn read<'a, const N: usize>(
    alloc: Global,
    src: &'a [u8],
    case: CheckCase,
) -> Result<Vec<Entry<'a, N>>, ListFault>
    ensures answer { ReadsList case N src.entry.now result }
{
    read_in(alloc, src, case)
}

/// Does the same as [`read`], but allocates with any allocator.
///
/// # Errors
///
/// The errors are those of [`read`], in the same cases.
///
/// ```rust
/// let entries = read_in::<_, 0>(rt.alloc(), b"  x", CheckCase::None)?;
/// assert_eq!(rt; entries[0].name, b"x".as_slice());
/// ```
pub fn read_in<'a, A: Allocator + Drop, const N: usize>(
    alloc: A,
    src: &'a [u8],
    case: CheckCase,
) -> Result<Vec<Entry<'a, N>, A>, ListFault>
    ensures answer { ReadsList case N src.entry.now result }
{
    let mut entries = Vec::new(alloc);
    let mut at = 0;
    let mut line = 1;
    while at < src.len() {
        let rest = &src[at..];
        let end = line_end(rest);
        match read_line(&rest[..end], case) {
            Ok(entry) => {
                if entries.push(entry).is_err() {
                    return Err(ListFault::OutOfMemory);
                }
            }
            Err(why) => return Err(ListFault::Line { line, why }),
        }
        line += 1;
        at += end + 1;
    }
    Ok(entries)
}

// Reads one line, which is given without its newline.
fn read_line<'a, const N: usize>(line: &'a [u8], case: CheckCase) -> Result<Entry<'a, N>, LineFault>
    ensures { Answers (line_fault case N line.entry.now) (λ e. LineIs case line.entry.now e) result }
{
    // This test does not multiply by `N`, because the product may exceed `usize`. It fits once the line
    // is known to be longer.
    if line.len().saturating_sub(1) / 2 <= N {
        return Err(LineFault::ShortLine);
    }
    let mut digest = [0; N];
    if !Backend::plain().decode(&line[..2 * N], &mut digest, case) {
        return Err(invalid_digit::<N>(line, case));
    }
    match &line[2 * N..] {
        [b' ', mark @ (b' ' | b'*'), name @ ..] => Ok(Entry {
            digest,
            binary: *mark == b'*',
            name,
        }),
        _ => Err(LineFault::BadMark),
    }
}

// Returns the fault of the first invalid byte among the digits of a line. There must be one.
#[cold]
fn invalid_digit<const N: usize>(line: &[u8], case: CheckCase) -> LineFault
    requires long { 2 * N ≤ length line.now }
    requires some { first_invalid case (take (2 * N) line.now) ≢ None }
    ensures { fault_in N line.now (first_invalid case (take (2 * N) line.now)) ≡ Some result }
{
    let index = Backend::plain()
        .first_invalid(&line[..2 * N], case)
        .unwrap();
    LineFault::InvalidByte {
        index,
        byte: line[index],
    }
}

/// Puts the list of `entries` into `sink`. The line of an entry has the digits of its digest, a
/// space, its mark, its name and a newline. The digits are uppercase if `upper` is true.
///
/// On `Ok` the sink has taken exactly the bytes of the list, and has counted no failure. Nothing is
/// allocated. The number and the lengths of the puts are unspecified. If [`read`] then reads the
/// list by a policy that accepts the case of its digits, it returns the same entries.
///
/// # Errors
///
/// - [`ListWriteFault::BadName`] exactly if a name is empty or has a newline. The error has the
///   index of the first such entry, and nothing was put.
/// - [`ListWriteFault::Write`] if a put failed, which ends the call. The sink has then taken a
///   first part of the list, and has counted one more failure.
///
/// ```rust
/// let mut buffer = [0; 8];
/// let mut sink = SliceSink::new(&mut buffer);
/// let entry = Entry {
///     digest: [0xab, 1],
///     binary: true,
///     name: b"b",
/// };
/// write_to(&[entry], &mut sink, true)?;
/// assert_eq!(rt; sink.written(), b"AB01 *b\n".as_slice());
///
/// for name in [b"".as_slice(), b"\n", b"a\n", b"a\nb"] {
///     let bad = Entry { name, ..entry };
///     let mut buffer = [0; 40];
///     let mut sink = SliceSink::new(&mut buffer);
///     let first = write_to(&[bad], &mut sink, false);
///     let second = write_to(&[entry, bad], &mut sink, false);
///     let third = write_to(&[entry, entry, bad, bad], &mut sink, false);
///     assert_eq!(rt; first, Err(ListWriteFault::BadName { entry: 0 }));
///     assert_eq!(rt; second, Err(ListWriteFault::BadName { entry: 1 }));
///     assert_eq!(rt; third, Err(ListWriteFault::BadName { entry: 2 }));
///     assert!(rt; sink.written().is_empty() && sink.failures() == 0);
/// }
/// ```
pub fn write_to<S: Sink, const N: usize>(
    entries: &[Entry<'_, N>],
    sink: &mut S,
    upper: bool,
) -> Result<(), ListWriteFault>
    ensures answer { WritesList upper entries.now (S.state sink.old) (S.state sink.new) result }
{
    if let Some(entry) = bad_name(entries) {
        return Err(ListWriteFault::BadName { entry });
    }
    for entry in entries {
        put_line(sink, entry, upper)?;
    }
    Ok(())
}

// Returns whether a name cannot end a line of a list.
fn is_bad(name: &[u8]) -> bool
    ensures { result ≡ is_bad_name name.now }
{
    name.is_empty() || name.contains(&b'\n')
}

// Returns the index of the first entry with a bad name, if there is one.
fn bad_name<const N: usize>(entries: &[Entry<'_, N>]) -> Option<usize>
    ensures { result ≡ first_bad_name entries.now }
{
    'entries: for i in 0..entries.len() {
        if is_bad(entries[i].name) {
            return Some(i);
        }
    }
    None
}

// Returns the byte before the name of an entry.
fn mark_of(binary: bool) -> u8
    ensures { result ≡ mark binary }
{
    if binary { b'*' } else { b' ' }
}

// Puts the line of an entry, with its newline.
fn put_line<S: Sink, const N: usize>(
    sink: &mut S,
    entry: &Entry<'_, N>,
    upper: bool,
) -> Result<(), WriteFault>
    ensures { Puts (S.state sink.old) (S.state sink.new) result
        (text upper entry.now.digest ++ (32 ∷ mark entry.now.binary ∷ []) ++ entry.now.name.now ++ (10 ∷ [])) }
{
    puts_in_a_row_are_one();
    put_digits(sink, &entry.digest, upper, None)?;
    put_all(sink, &[b' ', mark_of(entry.binary)])?;
    put_all(sink, entry.name)?;
    put_all(sink, b"\n")
}
