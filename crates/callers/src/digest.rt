//! A digest as a type of its own, which has exactly one text. Each function is proved.

ghost use Rattle.std.specs.Prelude.{◌≡◌, MatchResult, Ok, Some, IfOk, length};
ghost use Rattle.std.specs.Cmp.Lexicographic.{slice_cmp};
ghost use Rattle.std.specs.Ordering.{nat_cmp};
ghost use Rattle.hex_core.specs.declared.digit.CheckCase.TheVariants as policy;
ghost use Rattle.hex_core.specs.Refusal.{array_refusal};
ghost use Rattle.hex_core.specs.Text.{Spells, lowercase, text};
ghost use Rattle.callers.specs.declared.digest.Digest.{Digest};

use faster_hex::{CheckCase, Error, Hex, hex_decode_array_with_case, hex_encode_into};
use hex_core::laws::{
    a_slice_holds_bytes, decoding_inverts_encoding, encoding_inverts_strict_decoding,
    texts_compare_as_their_lists,
};
use std::cmp::Ordering;
use std::fmt;

/// A digest of 32 bytes. Its only text is 64 lowercase digits.
///
/// ```rust
/// let digits = "2cf24dba5fb0a30e26e83b2ac5b9e29e1b161e5c1fa7425e73043362938b9824";
/// let digest = Digest::parse(digits.as_bytes()).map_err(|_| "no digest")?;
/// assert_eq!(rt; digest.bytes[0], 0x2c);
/// assert_eq!(rt; digest.to_string(rt.alloc())?.as_str(), digits);
/// assert!(rt; Digest::parse(b"2CF24D").is_err());
/// ```
#[derive(Clone, Copy, Debug, PartialEq, Eq)]
pub struct Digest {
    /// The bytes of the digest, in the order of their digits.
    pub bytes: [u8; 32],
}

impl Digest {
    /// Returns the digest that has this text.
    ///
    /// # Errors
    ///
    /// The conditions are tested in this order.
    ///
    /// 1. [`Error::OddLength`] if the number of bytes is odd.
    /// 2. [`Error::LengthMismatch`] if it is even and not 64.
    /// 3. [`Error::InvalidChar`] if a byte is not a lowercase digit. The error has the first such
    ///    byte and its index.
    pub fn parse(digits: &[u8]) -> Result<Digest, Error>
        ensures answer { MatchResult result
            (λ digest. Spells policy.Lower digits.now digest.bytes)
            (λ e. array_refusal policy.Lower digits.now 32 ≡ Some e) }
        ensures canonical { IfOk result (λ digest. text lowercase digest.bytes ≡ digits.now) }
        ensures only { (digest : Digest) → Spells policy.Lower digits.now digest.bytes
            → length digest.bytes ≡ 32 → result ≡ Ok digest }
    {
        encoding_inverts_strict_decoding();
        let bytes = hex_decode_array_with_case(digits, CheckCase::Lower)?;
        Ok(Digest { bytes })
    }

    /// Writes the 64 digits of the digest over `line`. [`Digest::parse`] reads them as the same
    /// digest.
    ///
    /// ```rust
    /// let mut line = [0; 64];
    /// Digest { bytes: [0xab; 32] }.write(&mut line);
    /// assert!(rt; Digest::parse(&line).is_ok_and(|digest| digest.bytes == [0xab; 32]));
    /// ```
    pub fn write(&self, line: &mut [u8; 64])
        ensures written { line.new ≡ text lowercase self.now.bytes }
        ensures spelled { Spells policy.Lower line.new self.now.bytes }
    {
        a_slice_holds_bytes(&self.bytes);
        decoding_inverts_encoding();
        hex_encode_into(&self.bytes, line, false).unwrap();
    }

    /// Writes the digest and reads it back. Returns what was read, which is the same digest.
    ///
    /// ```rust
    /// let digest = Digest { bytes: [0xab; 32] };
    /// assert_eq!(rt; digest.read_back(), digest);
    /// ```
    pub fn read_back(&self) -> Digest
        ensures { result ≡ self.now }
    {
        let mut line = [0; 64];
        self.write(&mut line);
        Digest::parse(&line).unwrap()
    }

    /// Compares two digests as their texts compare, without writing the texts. So a table of bytes
    /// and a file of digits have the same order.
    ///
    /// ```rust
    /// use std::cmp::Ordering;
    ///
    /// let [low, high] = [[9; 32], [10; 32]].map(|bytes| Digest { bytes });
    /// assert_eq!(rt; low.cmp_text(&high), Ordering::Less);
    /// ```
    pub fn cmp_text(&self, other: &Digest) -> Ordering
        ensures { result ≡ slice_cmp nat_cmp (text lowercase self.now.bytes) (text lowercase other.now.bytes) }
    {
        texts_compare_as_their_lists();
        self.bytes.cmp(&other.bytes)
    }
}

impl fmt::Display for Digest {
    ghost output = { λ digest. Some (text lowercase digest.bytes) };

    fn fmt<W: fmt::Write>(&self, f: &mut fmt::Formatter<W>) -> fmt::Result {
        Hex::new(&self.bytes).fmt(f)
    }
}
