//! Laws of digits in chunks, of sinks and of digest lists. A law is a function that does nothing,
//! and its contract states a fact. A proof that needs the fact calls the function.

ghost use Rattle.hex_io.specs.Decoder.{DecodersWereFed, WritesAsOneCall};
ghost use Rattle.hex_io.specs.ListLaws.{FaultyListsNothing, ListsOneList, ListsSameParts, ReadNamesAreGood, ReadingInvertsWriting, WritingInvertsStrictReading};
ghost use Rattle.hex_io.specs.SinkLaws.{PutsInARow, StopsEarlier, StopsFail, StopsInARow, TakesInARow, TakesNothing};

use hex_core::laws::{
    a_source_is_accepted_where_it_spells_a_list, a_text_spells_one_list, decoding_inverts_encoding,
    encoding_inverts_strict_decoding,
};

/// A decoder has written the bytes that one call of `hex_decode_with_case` writes, by the decoder's
/// policy, for the whole pairs of its digits. White space that it skipped does not count, and the
/// lengths of the chunks do not matter.
pub fn any_cutting_is_decoded_as_one_call()
    ensures same { WritesAsOneCall }
{}

/// Every decoder has been fed some source, and has written what its digits spell. So the contract
/// of `feed` also says something about a decoder that a function receives as a parameter.
pub fn every_decoder_has_been_fed()
    ensures fed { DecodersWereFed }
{}

/// Puts in a row have the effect of one put of the joined bytes, even if the last one failed. If
/// there is no put, the sink has taken an empty list.
pub fn puts_in_a_row_are_one()
    ensures taken { TakesInARow }
    ensures stopped { StopsInARow }
    ensures unput { StopsEarlier }
    ensures put { PutsInARow }
    ensures failed { StopsFail }
    ensures none { TakesNothing }
{}

/// A list that was written is read as the same entries. This holds for the policy that accepts only
/// the case of the digits, and for the policy that accepts both cases.
pub fn reading_inverts_writing()
    ensures inverts { ReadingInvertsWriting }
{
    decoding_inverts_encoding();
}

/// A source with a faulty line is not the list of any entries. So reading the list of some entries
/// fails only if memory runs out.
pub fn a_faulty_source_is_no_list()
    ensures none { FaultyListsNothing }
{
    a_source_is_accepted_where_it_spells_a_list();
}

/// A source is the list of at most one list of entries. Two such lists have the same length. At
/// each index they have the same digest, mark and name, which are the `entry_parts`.
pub fn a_source_lists_one_list()
    ensures one { ListsOneList }
    ensures parts { ListsSameParts }
{
    a_text_spells_one_list();
}

/// Entries that were read by a policy of one case are written in this case as the source. If the
/// last line had no newline, one is added.
pub fn writing_inverts_strict_reading()
    ensures inverts { WritingInvertsStrictReading }
{
    encoding_inverts_strict_decoding();
}

/// Writing accepts every name that reading returns.
pub fn what_was_read_can_be_written()
    ensures written { ReadNamesAreGood }
{}
