//! Functions that decode and encode grouped digits. Each is proved.

ghost use Rattle.std.specs.Prelude.{◌≡◌, ◌↔◌, IsTrue, ◌≤◌, ℕ, List, Some, length};
ghost use Rattle.hex_core.specs.declared.digit.CheckCase.TheVariants as policy;
ghost use Rattle.hex_core.specs.Calls.{Fills};
ghost use Rattle.hex_core.specs.Text.{lowercase};
ghost use Rattle.hex_codec.specs.GroupedWriting.{grouped, piece_len, separator};
ghost use Rattle.hex_codec.specs.GroupedReading.{GroupSpells, group_refusal};

use faster_hex::grouped::{self, GroupFault, read_into, write_into};
use faster_hex::{CheckCase, Group};
use hex_codec::laws::{
    a_grouped_text_is_digits_and_separators, a_grouped_text_is_read_where_it_spells_a_list,
    grouping_inverts_strict_reading,
};
use hex_core::laws::a_new_front_is_the_front;

/// Decodes a hardware address of six bytes in groups. For example, `00:00:5E:00:53:AF` is in groups
/// of one byte. Returns the six bytes, or `None` if the text is not the grouped text of six bytes.
///
/// ```rust
/// let address = read_address(b"00:00:5E:00:53:AF", Group::new(1, b':').unwrap());
/// assert_eq!(rt; address, Some([0, 0, 0x5e, 0, 0x53, 0xaf]));
/// ```
pub fn read_address(text: &[u8], group: Group) -> Option<[u8; 6]>
    ensures { (bytes : List ℕ) → ((result ≡ Some bytes)
        ↔ (GroupSpells policy.None group text.now bytes × (length bytes ≡ 6))) }
{
    a_new_front_is_the_front();
    let mut address = [0; 6];
    match read_into(text, &mut address, group, CheckCase::None) {
        Ok(6) => Some(address),
        Ok(_) => None,
        Err(_) => None,
    }
}

/// Returns whether a text is a grouped text of at most six bytes.
///
/// ```rust
/// assert!(rt; is_address(b"0000.5E00", Group::new(2, b'.').unwrap()));
/// assert!(rt; !is_address(b"0000-5E00", Group::new(2, b'.').unwrap()));
/// ```
pub fn is_address(text: &[u8], group: Group) -> bool
    ensures { IsTrue result ↔ ((bytes : List ℕ) × GroupSpells policy.None group text.now bytes × (length bytes ≤ 6)) }
{
    a_grouped_text_is_read_where_it_spells_a_list();
    match grouped::read(text, &mut [0; 6], group, CheckCase::None) {
        Ok(_) => true,
        Err(_) => false,
    }
}

/// Returns the length of the grouped text of six bytes.
///
/// ```rust
/// assert_eq!(rt; address_len(Group::new(2, b'.').unwrap()), 14);
/// ```
pub fn address_len(group: Group) -> usize
    ensures { (address : List ℕ) → length address ≡ 6 → length (grouped group lowercase address) ≡ result }
{
    a_grouped_text_is_digits_and_separators();
    11 + 6_usize.div_ceil(group.every())
}

/// Writes the text of a hardware address over `line`, with a colon between two bytes.
///
/// ```rust
/// let mut line = [0; 17];
/// write_mac(&[0, 0, 0x5e, 0, 0x53, 0xaf], &mut line);
/// assert_eq!(rt; &line, b"00:00:5e:00:53:af");
/// ```
pub fn write_mac(address: &[u8; 6], line: &mut [u8; 17])
    ensures { (colons : Group) → piece_len colons ≡ 1 → separator colons ≡ 58
        → line.new ≡ grouped colons lowercase address.now }
{
    let colons = Group::new(1, b':').unwrap();
    write_into(address, line, colons, false).unwrap();
}

/// Decodes a grouped line into the start of a buffer. Returns the number of bytes. Only the
/// lowercase text of these bytes is accepted, so no two lines give the same bytes.
///
/// ```rust
/// let mut buffer = [0; 4];
/// let group = Group::new(1, b'-').unwrap();
/// assert_eq!(rt; read_canonical(b"0a-0b", group, &mut buffer), Ok(2));
/// assert!(rt; read_canonical(b"0A-0B", group, &mut buffer).is_err());
/// ```
pub fn read_canonical(line: &[u8], group: Group, buffer: &mut [u8]) -> Result<usize, GroupFault>
    ensures { Fills (group_refusal policy.Lower group line.now (length buffer.old))
        (λ bytes. grouped group lowercase bytes ≡ line.now) buffer.old buffer.new result }
{
    grouping_inverts_strict_reading();
    read_into(line, buffer, group, CheckCase::Lower)
}
