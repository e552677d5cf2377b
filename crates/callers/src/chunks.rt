//! Functions that decode digits in chunks. Each is proved.

ghost use Rattle.std.specs.Prelude.{◌≡◌, ◌++◌, ℕ, List, Some, MatchResult, length};
ghost use Rattle.hex_core.specs.declared.digit.CheckCase.TheVariants as policy;
ghost use Rattle.hex_core.specs.Text.{Spells, with_front};
ghost use Rattle.callers.specs.Chunks.{DecodesMore, parts_refusal};

use faster_hex::stream::Decoder;
use faster_hex::{CheckCase, Error};
use hex_io::laws::{any_cutting_is_decoded_as_one_call, every_decoder_has_been_fed};

/// Decodes digits that come in two parts, each into the start of its own buffer. The first part may
/// end inside a pair of digits. Returns the number of bytes in each buffer.
///
/// # Errors
///
/// It returns the error of the first part, else that of the second part, else [`Error::OddLength`]
/// if the number of digits is odd. An index counts from the start of the first part.
///
/// ```rust
/// let (mut front, mut back) = ([0xa5; 2], [0xa5; 3]);
/// let counts = decode_parts(b"00a", b"BcD", &mut front, &mut back)?;
/// assert_eq!(rt; counts, (1, 2));
/// assert_eq!(rt; (front, back), ([0, 0xa5], [0xab, 0xcd, 0xa5]));
/// ```
pub fn decode_parts(
    first: &[u8],
    second: &[u8],
    front: &mut [u8],
    back: &mut [u8],
) -> Result<(usize, usize), Error>
    ensures { MatchResult result
        (λ counts. (xs : List ℕ) × (ys : List ℕ) × Spells policy.None (first.now ++ second.now) (xs ++ ys)
        × (counts.0 ≡ length xs) × (front.new ≡ with_front front.old xs)
        × (counts.1 ≡ length ys) × (back.new ≡ with_front back.old ys))
        (λ e. parts_refusal first.now second.now (length front.old) (length back.old) ≡ Some e) }
{
    let mut decoder = Decoder::new(CheckCase::None);
    let one = decoder.feed(first, front)?;
    let two = decoder.feed(second, back)?;
    decoder.finish()?;
    Ok((one, two))
}

/// Decodes more digits by a decoder that the caller has, into the start of a buffer. Returns the
/// number of bytes written. An error leaves the buffer and the decoder unchanged.
///
/// Whatever chunks the decoder was fed, it has written the bytes of the whole pairs of all its
/// digits.
///
/// ```rust
/// use faster_hex::stream::Decoder;
///
/// let mut decoder = Decoder::new(CheckCase::None);
/// decoder.feed(b"6", &mut [])?;
/// let mut buffer = [b'.'; 4];
/// assert_eq!(rt; decode_more(&mut decoder, b"865", &mut buffer)?, 2);
/// assert_eq!(rt; &buffer, b"he..");
/// ```
pub fn decode_more(decoder: &mut Decoder, more: &[u8], buffer: &mut [u8]) -> Result<usize, Error>
    ensures { DecodesMore decoder.old decoder.new more.now buffer.old buffer.new result }
{
    any_cutting_is_decoded_as_one_call();
    every_decoder_has_been_fed();
    decoder.feed(more, buffer)
}
