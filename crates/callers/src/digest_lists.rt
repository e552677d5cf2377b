//! Functions that write and read the checksum file of one file. Each is proved.

ghost use Rattle.std.specs.Prelude.{◌≡◌, IfOk, None, vec_items};
ghost use Rattle.hex_core.specs.declared.digit.CheckCase.TheVariants as policy;
ghost use Rattle.hex_core.specs.Text.{lowercase};
ghost use Rattle.hex_io.specs.ListCalls.{ReadsList};
ghost use Rattle.hex_io.specs.Lists.{first_bad_name, list_of, with_last_newline};
ghost use Rattle.callers.specs.DigestLists.{ReadsChecksum, WritesChecksum, entry_of};

use crate::digest::Digest;
use faster_hex::digests::{self, Entry, ListFault, ListWriteFault};
use faster_hex::{CheckCase, SliceSink};
use hex_core::laws::a_slice_holds_bytes;
use hex_io::laws::{
    a_faulty_source_is_no_list, a_source_lists_one_list, reading_inverts_writing,
    what_was_read_can_be_written, writing_inverts_strict_reading,
};
use std::alloc::Global;

/// Writes the line of one file into the start of a buffer, as `sha256sum` prints it. Returns its
/// length. This line is the list of this file alone.
///
/// # Errors
///
/// - [`ListWriteFault::BadName`] if the name is empty or has a newline. Nothing is written in this
///   case.
/// - [`ListWriteFault::Write`] if the line does not fit the buffer.
///
/// ```rust
/// use callers::digest::Digest;
///
/// let digest = Digest { bytes: [0xab; 32] };
/// let mut buffer = [b'.'; 74];
/// assert_eq!(rt; write_checksum(&digest, b"a.txt", &mut buffer), Ok(72));
/// assert!(rt; buffer.ends_with(b"abab  a.txt\n.."));
/// ```
pub fn write_checksum(
    digest: &Digest,
    name: &[u8],
    buffer: &mut [u8],
) -> Result<usize, ListWriteFault>
    ensures { WritesChecksum (entry_of digest.now name.entry) buffer.old buffer.new result }
{
    a_slice_holds_bytes(&digest.bytes);
    reading_inverts_writing();
    let entry = Entry {
        digest: digest.bytes,
        binary: false,
        name,
    };
    let mut sink = SliceSink::new(buffer);
    digests::write_to(&[entry], &mut sink, false)?;
    Ok(sink.written().len())
}

/// Reads a checksum file. Returns the digest of its first line, or `None` if it has no line.
///
/// If the file is the list of some entries, the result is the digest of the first one, and the only
/// possible error is a failed allocation.
///
/// ```rust
/// let digest = "2cf24dba5fb0a30e26e83b2ac5b9e29e1b161e5c1fa7425e73043362938b9824";
/// let file = format!(in rt.alloc(); "{digest}  a.txt\n")?;
/// let read = read_checksum(rt.alloc(), file.as_bytes())?.ok_or("no digest")?;
/// assert_eq!(rt; read.bytes[0], 0x2c);
/// ```
pub fn read_checksum(alloc: Global, file: &[u8]) -> Result<Option<Digest>, ListFault>
    ensures { ReadsChecksum file.now result }
{
    a_faulty_source_is_no_list();
    a_source_lists_one_list();
    let entries = digests::read::<32>(alloc, file, CheckCase::None)?;
    match entries.first() {
        Some(entry) => Ok(Some(Digest {
            bytes: entry.digest,
        })),
        None => Ok(None),
    }
}

/// Reads a list with lowercase digits. If its entries are written again, the result is this list,
/// with a newline after the last line. Writing accepts all of its names.
pub fn read_canonical<'a>(alloc: Global, list: &'a [u8]) -> Result<Vec<Entry<'a, 32>>, ListFault>
    ensures read { ReadsList policy.Lower 32 list.entry.now result }
    ensures written { IfOk result (λ entries. list_of lowercase (vec_items entries) ≡ with_last_newline list.entry.now) }
    ensures names { IfOk result (λ entries. first_bad_name (vec_items entries) ≡ None) }
{
    writing_inverts_strict_reading();
    what_was_read_can_be_written();
    digests::read::<32>(alloc, list, CheckCase::Lower)
}
