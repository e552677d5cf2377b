//! Laws. A law is a function that does nothing, and its contract states a fact about the
//! definitions. A proof that needs the fact calls the function.
#![tactic(auto, using(crate::proofs::LawProofs::laws))]

ghost use Rattle.std.specs.Prelude.{ℕ};
ghost use Rattle.hex_core.specs.Laws.{AcceptsWhatSpells, AreBytes, DecodingInvertsEncoding, EitherCaseIsLowercased, EncodingInvertsStrictDecoding, EncodingLowercases, FirstInvalidIsFirst, FrontsAreKept, JoinedTexts, NamesFirstInvalid, PartsAreValidWhereTheirRangesAre, SpellsBytes, SpellsOneList, StrictAcceptsTexts, TextsAreAscii, TextsAreTwiceAsLong, NoneIsInvalidWhereAllAreValid, TextsCompareAsLists, WholeFrontsAreAll};
ghost use Rattle.hex_core.specs.Refusal.{array_refusal, decode_refusal, source_refusal};

/// Each element of a slice is a byte. Laws that require a list of bytes can then be used with the
/// slice.
pub fn a_slice_holds_bytes(bytes: &[u8])
    ensures bytes { AreBytes bytes.now }
{}

/// A text decodes to at most one list, which is a list of bytes.
pub fn a_text_spells_one_list()
    ensures one { SpellsOneList }
    ensures bytes { SpellsBytes }
{}

/// A source has an even length and no invalid byte exactly if it decodes to some list.
pub fn a_source_is_accepted_where_it_spells_a_list()
    ensures accepted { AcceptsWhatSpells }
{}

/// Bytes that are encoded and then decoded are the same bytes. This holds for the policy that
/// accepts only the case of the text, and for the policy that accepts both cases.
pub fn decoding_inverts_encoding()
    ensures inverts { DecodingInvertsEncoding }
{}

/// A source that is decoded under a policy of one case, and then encoded in this case, is the same
/// source.
pub fn encoding_inverts_strict_decoding()
    ensures inverts { EncodingInvertsStrictDecoding }
{}

/// A policy of one case accepts exactly the texts that encoding in this case gives.
pub fn a_strict_policy_accepts_the_texts_of_its_case()
    ensures accepted { StrictAcceptsTexts }
{}

/// Decoding under the policy of both cases gives the same bytes as decoding the lowercased source
/// under the policy of lowercase. Encoding these bytes in lowercase gives the lowercased source.
pub fn either_case_is_the_lowercased_source()
    ensures same { EitherCaseIsLowercased }
    ensures text { EncodingLowercases }
{}

/// The text of two lists joined is their two texts joined.
pub fn the_text_of_a_joined_list_is_the_texts_joined()
    ensures joined { JoinedTexts }
{}

/// An encoded text is ASCII, so it is also UTF-8. It has two digits for each byte.
pub fn a_text_is_ascii_and_twice_as_long()
    ensures twice { TextsAreTwiceAsLong }
    ensures ascii { TextsAreAscii }
{}

/// An index is that of the first invalid byte exactly if it lies in the source, the byte there is
/// invalid, and all bytes before it are valid. A source has no invalid byte exactly if all its
/// bytes are valid. A part of a source has none exactly if all bytes in its range are valid.
pub fn the_first_invalid_byte_is_the_first()
    ensures first { FirstInvalidIsFirst }
    ensures none { NoneIsInvalidWhereAllAreValid }
    ensures parts { PartsAreValidWhereTheirRangesAre }
{}

/// If decoding returns `InvalidChar`, the error has the index of the first invalid byte, which lies
/// in the source, and the byte itself, which is invalid. This holds for decoding into a slice, into
/// an array and into new memory.
pub fn an_invalid_char_is_the_first_invalid_byte()
    ensures slice { (room : ℕ) → NamesFirstInvalid (λ c s. decode_refusal c s room) }
    ensures array { (n : ℕ) → NamesFirstInvalid (λ c s. array_refusal c s n) }
    ensures source { NamesFirstInvalid source_refusal }
{}

/// A buffer whose start was replaced by new bytes begins with these bytes. If there are as many of
/// them as the buffer has, the buffer is these bytes.
pub fn a_new_front_is_the_front()
    ensures kept { FrontsAreKept }
    ensures whole { WholeFrontsAreAll }
{}

/// Two texts of the same case, compared digit by digit, are in the same order as their lists,
/// compared byte by byte.
pub fn texts_compare_as_their_lists()
    ensures order { TextsCompareAsLists }
{}
