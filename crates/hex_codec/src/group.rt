//! The way in which digits are grouped.

ghost use Rattle.hex_codec.specs.GroupRule.{IsGroup};

use hex_core::{CheckCase, digit_value};

/// A group says how digits are separated. One part of the text is called a piece here, and a group in
/// C. The bytes are cut into pieces of `every`, and the last piece
/// may be shorter. The text has the digits of each piece, and one separator between two pieces.
///
/// ```rust
/// let group = Group::new(2, b':').ok_or("no group")?;
/// assert_eq!(rt; (group.every(), group.sep()), (2, b':'));
/// ```
#[derive(Clone, Copy, Debug, PartialEq, Eq)]
pub struct Group {
    every: usize,
    sep: u8,
    ghost is_group: { IsGroup every sep },
}

impl Group {
    ghost use Rattle.std.specs.Prelude.{◌≡◌};
    ghost use Rattle.hex_codec.specs.GroupedWriting.{MakesGroup, piece_len, separator};

    /// Returns the group with pieces of `every` bytes and the separator `sep`. Returns `None` if
    /// `every` is 0, or if `sep` is not ASCII or is a hex digit.
    ///
    /// ```rust
    /// assert!(rt; Group::new(2, b'-').is_some());
    /// assert!(rt; Group::new(0, b'-').is_none());
    /// assert!(rt; Group::new(2, b'a').is_none());
    /// ```
    pub fn new(every: usize, sep: u8) -> Option<Group>
        ensures answer { MakesGroup every sep result }
    {
        if every == 0 || !sep.is_ascii() || digit_value(sep, CheckCase::None).is_some() {
            return None;
        }
        Some(Group { every, sep })
    }

    /// Returns how many decoded bytes each piece has. The last piece may have fewer.
    ///
    /// ```rust
    /// let group = Group::new(4, b' ').ok_or("no group")?;
    /// assert_eq!(rt; group.every(), 4);
    /// ```
    pub fn every(self) -> usize
        ensures value { result ≡ piece_len self }
    {
        self.every
    }

    /// Returns the separator, which is an ASCII byte and not a hex digit.
    ///
    /// ```rust
    /// let group = Group::new(4, b' ').ok_or("no group")?;
    /// assert_eq!(rt; group.sep(), b' ');
    /// ```
    pub fn sep(self) -> u8
        ensures value { result ≡ separator self }
    {
        self.sep
    }
}
