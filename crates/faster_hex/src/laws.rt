//! Laws of the JSON modules. A law is a function that does nothing, and its contract states a fact.
//! A proof that needs the fact calls the function.

ghost use Rattle.std.specs.Prelude.{◌≡◌, length};
ghost use Rattle.std.specs.Option.{ForSome};
ghost use Rattle.faster_hex.specs.AdapterLaws.{ArrayHasNoBound, BoundedReadsWhatFits, OptionReadingInvertsWriting, ReadingInvertsWriting, ReadsNoneApart, UnboundedHasNoBound, WritesNoneApart, WritingInvertsStrictReading};

use hex_core::laws::{
    a_slice_holds_bytes, decoding_inverts_encoding, encoding_inverts_strict_decoding,
};

/// A bounded read accepts exactly the values that an unbounded read accepts and that have at most
/// so many bytes. Its result is the same. An unbounded read and a read into an array never fail
/// because of a bound.
pub fn a_bound_refuses_what_is_longer_alone()
    ensures bounded { BoundedReadsWhatFits }
    ensures unbounded { UnboundedHasNoBound }
    ensures array { ArrayHasNoBound }
{}

/// The value that a format writes for bytes or for `None` is read as the same bytes or as `None`.
/// This holds if the format accepts both letter cases or the case that it writes, as the formats of
/// all modules do.
pub fn reading_inverts_writing()
    ensures bytes { ReadingInvertsWriting }
    ensures option { OptionReadingInvertsWriting }
{
    decoding_inverts_encoding();
}

/// `None` and a list are written as different values, even if the list is empty. No value is read
/// both as `None` and as a list.
pub fn none_and_an_empty_list_stay_apart()
    ensures written { WritesNoneApart }
    ensures read { ReadsNoneApart }
{}

/// If a format accepts only the letters that it writes, a value that is read is the value that is
/// written for its bytes.
pub fn strict_writing_inverts_reading()
    ensures inverts { WritingInvertsStrictReading }
{
    encoding_inverts_strict_decoding();
}

/// If an optional array of `N` bytes is not `None`, it has `N` bytes. Reading an optional array
/// back requires this.
pub fn an_optional_array_has_its_length<const N: usize>(bytes: &Option<[u8; N]>)
    ensures sized { ForSome bytes.now (λ array. length array ≡ N) }
{
    if let Some(array) = bytes {
        a_slice_holds_bytes(array);
    }
}
