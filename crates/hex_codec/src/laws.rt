//! Laws of grouped texts. A law is a function that does nothing, and its contract states a fact. A
//! proof that needs the fact calls the function.
#![tactic(auto, using(crate::proofs::GroupTextLemmas::laws))]

ghost use Rattle.hex_codec.specs.GroupLaws.{GroupSpellsOneList, GroupedTextsAreDigitsAndSeparators, GroupedTextsAreLong, GroupingInvertsStrictReading, ReadingInvertsGrouping, ReadsWhatGroupSpells, TextsAreDigits};
/// Bytes that are encoded in groups and then decoded are the same bytes. This holds for the policy
/// that accepts only the case of the text, and for the policy that accepts both cases.
pub fn reading_inverts_grouping()
    ensures inverts { ReadingInvertsGrouping }
{}

/// A grouped text that is decoded under a policy of one case, and then encoded in this case and
/// group, is the same text.
pub fn grouping_inverts_strict_reading()
    ensures inverts { GroupingInvertsStrictReading }
{}

/// A grouped text is accepted exactly if it decodes to some list that fits the room. It decodes to
/// at most one list.
pub fn a_grouped_text_is_read_where_it_spells_a_list()
    ensures some { ReadsWhatGroupSpells }
    ensures one { GroupSpellsOneList }
{}

/// A grouped text has two digits for each byte, and a separator between two pieces. Each of its
/// bytes is a digit of its case or the separator. Each byte of a text without groups is a digit of
/// its case.
pub fn a_grouped_text_is_digits_and_separators()
    ensures long { GroupedTextsAreLong }
    ensures bytes { GroupedTextsAreDigitsAndSeparators }
    ensures text { TextsAreDigits }
{}
