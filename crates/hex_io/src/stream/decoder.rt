//! Decodes digits that come in chunks of any length, for instance from a file or a socket.
//!
//! Encoding in chunks needs no state: the text of two joined lists is the texts of both, joined.
//!
//! ```rust
//! let mut text = [0; 6];
//! let front = hex_encode_into(&[0, 0xab], &mut text, false)?;
//! hex_encode_into(&[0xcd], &mut text[front..], false)?;
//! assert_eq!(rt; text.as_slice(), b"00abcd".as_slice());
//! ```

ghost use Rattle.std.specs.Prelude.{◌≡◌, ◌≢◌, ◌↔◌, ◌⊎◌, ◌+◌, ◌-◌, ◌/◌, ◌%◌, ◌^◌, ◌<◌, ◌≤◌, ◌++◌, ◌∷◌, [], None, Ok, Some, drop, false, true, length, IfOk, IsSome, IsTrue, MatchOption, OnErr};
ghost use Rattle.std.specs.Option.{ForSome, option_to_list};
ghost use Rattle.hex_core.specs.Digit.{value};
ghost use Rattle.hex_core.specs.Search.{first_invalid};
ghost use Rattle.hex_core.specs.Text.{Spells};
ghost use Rattle.hex_io.specs.Reading.{digits_in, first_invalid_read, plain, spaced};
ghost use Rattle.hex_codec.specs.Spaced.{unspaced};
ghost use Rattle.hex_io.specs.inside.{DecodesPairs, invalid_read_behind};

use crate::laws::every_decoder_has_been_fed;
use crate::stream::unspaced::copy_unspaced;
use hex_core::{Backend, CheckCase, Error, digit_value};

// The number of bytes from which white space is removed at once, if a caller gives no buffer.
const SPACED_BLOCK: usize = 2_048;

// How a source is read: by which policy, and whether white space among the digits is skipped.
#[derive(Clone, Copy, Debug, PartialEq, Eq)]
struct Reading {
    case: CheckCase,
    skips: bool,
}

/// A decoder decodes digits that are fed to it in chunks. A chunk may end inside a pair of digits.
///
/// It keeps its policy, the number of bytes fed, and a digit that waits for the second digit of its
/// pair. Its outputs, joined, are the bytes of all digits fed, except for a digit that waits. The
/// lengths of the chunks do not matter. Nothing is allocated.
///
/// An error is about the digits that were fed so far. For example, `feed` returns the invalid byte
/// `g` for the chunk `0g1`, but `hex_decode` returns the odd length for these three bytes.
///
/// ```rust
/// let mut decoder = Decoder::new(CheckCase::None);
/// let mut bytes = [0; 3];
/// assert_eq!(rt; decoder.feed(b"00a", &mut bytes)?, 1);
/// assert_eq!(rt; decoder.feed(b"BcD", &mut bytes[1..])?, 2);
/// decoder.finish()?;
/// assert_eq!(rt; bytes, [0, 0xab, 0xcd]);
/// ```
#[derive(Clone, Copy, Debug, PartialEq, Eq)]
pub struct Decoder {
    reading: Reading,
    position: usize,
    waiting: Option<u8>,
    // The digit that waits was tested when it came.
    ghost tested: { ForSome waiting (λ digit. IsSome (value reading.case digit)) },
    ghost counted: { length (option_to_list waiting) ≤ position },
    // Without white space, a digit waits exactly if an odd number of bytes was fed.
    ghost paired: { reading.skips ≡ false → position % 2 ≡ length (option_to_list waiting) },
}

impl Decoder {
    ghost use Rattle.hex_io.specs.Decoder.{Feeds, Finished, HasFed, position_of, reading_of, waiting_in};

    /// Returns a decoder that has been fed nothing and accepts the digits of `case`.
    pub fn new(case: CheckCase) -> Decoder
        ensures reading { reading_of result ≡ plain case }
        ensures fresh { HasFed result [] [] }
    {
        Decoder {
            reading: Reading { case, skips: false },
            position: 0,
            waiting: None,
        }
    }

    /// Returns a decoder like [`new`](Decoder::new) that skips ASCII white space, even between the
    /// two digits of a pair. It reads what `xxd -p` and `openssl rand -hex` print, and lines that a
    /// mail program has wrapped.
    ///
    /// White space is a space, tab, newline, form feed or carriage return.
    ///
    /// ```rust
    /// let mut decoder = Decoder::spaced(CheckCase::None);
    /// let mut bytes = [0; 3];
    /// assert_eq!(rt; decoder.feed(b"00\na", &mut bytes)?, 1);
    /// assert_eq!(rt; decoder.feed(b"\r\nB cD\n", &mut bytes[1..])?, 2);
    /// decoder.finish()?;
    /// assert_eq!(rt; bytes, [0, 0xab, 0xcd]);
    /// ```
    pub fn spaced(case: CheckCase) -> Decoder
        ensures reading { reading_of result ≡ spaced case }
        ensures fresh { HasFed result [] [] }
    {
        let mut decoder = Decoder::new(case);
        decoder.reading.skips = true;
        decoder
    }

    /// Returns the number of bytes fed, which is the index of the next one. Skipped bytes count
    /// too.
    ///
    /// ```rust
    /// let mut decoder = Decoder::new(CheckCase::None);
    /// decoder.feed(b"00a", &mut [0; 1])?;
    /// assert_eq!(rt; decoder.position(), 3);
    /// ```
    pub fn position(&self) -> usize
        ensures position { result ≡ position_of self.now }
    {
        self.position
    }

    /// Takes the next chunk, and decodes all pairs that are now whole into the start of `dst`.
    /// Returns the number of bytes written. The bytes of `dst` after them are unchanged. The chunk is
    /// tested in blocks. Only if a byte is invalid, its index is searched byte by byte.
    ///
    /// # Errors
    ///
    /// The conditions are tested in this order. Each error leaves `dst` and the decoder unchanged,
    /// so you can feed it again.
    ///
    /// 1. [`Error::Overflow`] if the number of all bytes fed exceeds `usize`.
    /// 2. [`Error::OutputTooSmall`] if `dst` has fewer bytes than this call would write. The error has
    ///    that number, which is at most `(src.len() + 1) / 2`.
    /// 3. [`Error::InvalidChar`] if a byte is neither an accepted digit nor skipped. The error has
    ///    the first such byte and its index in all bytes fed. The last byte is tested too, even if
    ///    a digit there would wait.
    ///
    /// ```rust
    /// let mut decoder = Decoder::new(CheckCase::None);
    /// let mut bytes = [0xa5; 2];
    /// assert_eq!(rt; decoder.feed(b"00a", &mut bytes)?, 1);
    /// let refused = decoder.feed(b"bg", &mut bytes);
    /// let first = Error::InvalidChar {
    ///     index: 4,
    ///     byte: b'g',
    /// };
    /// assert_eq!(rt; refused, Err(first));
    /// let refused = decoder.feed(b"bcd", &mut bytes[1..]);
    /// assert_eq!(rt; refused, Err(Error::OutputTooSmall { required: 2 }));
    /// assert_eq!(rt; (bytes, decoder.position()), ([0, 0xa5], 3));
    /// ```
    pub fn feed(&mut self, src: &[u8], dst: &mut [u8]) -> Result<usize, Error>
        ensures feeds { Feeds self.old self.new src.now dst.old dst.new result }
        ensures bound { IfOk result (λ n. n ≤ length dst.new) }
        ensures reading { reading_of self.new ≡ reading_of self.old }
        ensures unchanged { OnErr result ((self.new ≡ self.old) × (dst.new ≡ dst.old)) }
    {
        if !self.reading.skips {
            return self.feed_digits(src, src, dst);
        }
        if let Some(written) = self.feed_valid(src, src, dst) {
            return Ok(written);
        }
        if src.len() > SPACED_BLOCK {
            return self.feed_long(src, dst);
        }
        self.feed_spaced(src, &mut [0; SPACED_BLOCK], dst)
    }

    /// Does the same as [`feed`](Decoder::feed), but with a buffer of the caller for the digits of a
    /// chunk with white space. So a stream clears its buffer only once, and copies no chunk twice.
    pub(crate) fn feed_through(
        &mut self,
        src: &[u8],
        buffer: &mut [u8],
        dst: &mut [u8],
    ) -> Result<usize, Error>
        requires copied { length src.now ≤ length buffer.old }
        ensures feeds { Feeds self.old self.new src.now dst.old dst.new result }
        ensures bound { IfOk result (λ n. n ≤ length dst.new) }
        ensures reading { reading_of self.new ≡ reading_of self.old }
    {
        if !self.reading.skips {
            return self.feed_digits(src, src, dst);
        }
        if let Some(written) = self.feed_valid(src, src, dst) {
            return Ok(written);
        }
        self.feed_spaced(src, buffer, dst)
    }

    /// Ends the decoding. All digits fed must be whole pairs.
    ///
    /// # Errors
    ///
    /// [`Error::OddLength`] if the last digit fed waits for the second digit of its pair.
    ///
    /// ```rust
    /// let mut decoder = Decoder::new(CheckCase::None);
    /// decoder.feed(b"00a", &mut [0; 1])?;
    /// assert_eq!(rt; decoder.finish(), Err(Error::OddLength));
    /// ```
    pub fn finish(self) -> Result<(), Error>
        ensures answer { Finished self result }
    {
        if self.waiting.is_some() {
            return Err(Error::OddLength);
        }
        Ok(())
    }

    // Does the same as `feed` for a long chunk with white space. All of it is tested before the first
    // byte is written, so no block of it is refused.
    fn feed_long(&mut self, src: &[u8], dst: &mut [u8]) -> Result<usize, Error>
        requires skips { self.old.reading.skips ≡ true }
        ensures feeds { Feeds self.old self.new src.now dst.old dst.new result }
        ensures bound { IfOk result (λ n. n ≤ length dst.new) }
        ensures reading { reading_of self.new ≡ reading_of self.old }
        ensures unchanged { OnErr result ((self.new ≡ self.old) × (dst.new ≡ dst.old)) }
    {
        // Only whether the sum exceeds `usize` matters here.
        let _end = self.position.checked_add(src.len()).ok_or(Error::Overflow)?;
        let (count, is_clean) = survey(src, self.reading.case);
        let required = self.whole_pairs(count);
        if dst.len() < required {
            return Err(Error::OutputTooSmall { required });
        }
        if !is_clean {
            return Err(self.error_in(src));
        }
        Ok(self.feed_blocks(src, dst))
    }

    // Does the same as `feed_long` for a chunk without an error, block by block. Returns the number
    // of bytes written.
    fn feed_blocks(&mut self, src: &[u8], dst: &mut [u8]) -> usize
        requires skips { self.old.reading.skips ≡ true }
        requires counted { position_of self.old + length src.now < 2 ^ 64 }
        requires room { (length (waiting_in self.old) + length (unspaced src.now)) / 2 ≤ length dst.old }
        requires valid { first_invalid_read (reading_of self.old) src.now ≡ None }
        ensures feeds { Feeds self.old self.new src.now dst.old dst.new (Ok result) }
        ensures bound { result ≤ length dst.new }
        ensures reading { reading_of self.new ≡ reading_of self.old }
    {
        every_decoder_has_been_fed();
        let mut buffer = [0; SPACED_BLOCK];
        let mut done = 0;
        for block in src.chunks(SPACED_BLOCK) {
            done += self
                .feed_spaced(block, &mut buffer, &mut dst[done..])
                .unwrap();
        }
        done
    }

    // Does the same as `feed` for a chunk with white space, whose digits it copies into a buffer.
    fn feed_spaced(&mut self, src: &[u8], buffer: &mut [u8], dst: &mut [u8]) -> Result<usize, Error>
        requires skips { self.old.reading.skips ≡ true }
        requires copied { length src.now ≤ length buffer.old }
        ensures feeds { Feeds self.old self.new src.now dst.old dst.new result }
        ensures bound { IfOk result (λ n. n ≤ length dst.new) }
        ensures reading { reading_of self.new ≡ reading_of self.old }
        ensures unchanged { OnErr result ((self.new ≡ self.old) × (dst.new ≡ dst.old)) }
    {
        let count = copy_unspaced(src, buffer);
        self.feed_digits(src, &buffer[..count], dst)
    }

    // Does the same as `feed` for a chunk whose digits are given.
    fn feed_digits(&mut self, src: &[u8], digits: &[u8], dst: &mut [u8]) -> Result<usize, Error>
        requires digits { digits.now ≡ digits_in (reading_of self.old) src.now }
        ensures feeds { Feeds self.old self.new src.now dst.old dst.new result }
        ensures bound { IfOk result (λ n. n ≤ length dst.new) }
        ensures reading { reading_of self.new ≡ reading_of self.old }
        ensures unchanged { OnErr result ((self.new ≡ self.old) × (dst.new ≡ dst.old)) }
    {
        if let Some(written) = self.feed_valid(src, digits, dst) {
            return Ok(written);
        }
        let _end = self.position.checked_add(src.len()).ok_or(Error::Overflow)?;
        let required = self.whole_pairs(digits.len());
        if dst.len() < required {
            return Err(Error::OutputTooSmall { required });
        }
        Err(self.error_in(src))
    }

    // Feeds a chunk, or returns `None` and changes nothing if the chunk has an error. `digits` has
    // only the digits of the chunk, or all of its bytes, and then white space counts as an error.
    fn feed_valid(&mut self, src: &[u8], digits: &[u8], dst: &mut [u8]) -> Option<usize>
        requires digits { (digits.now ≡ src.now) ⊎ (digits.now ≡ digits_in (reading_of self.old) src.now) }
        ensures feeds { MatchOption result ((self.new ≡ self.old) × (dst.new ≡ dst.old))
            (λ n. Feeds self.old self.new src.now dst.old dst.new (Ok n)) }
        ensures bound { ForSome result (λ n. n ≤ length dst.new) }
        ensures refused { result ≡ None → position_of self.old + length src.now < 2 ^ 64
            → (length (waiting_in self.old) + length digits.now) / 2 ≤ length dst.old
            → first_invalid self.old.reading.case digits.now ≢ None }
        ensures reading { reading_of self.new ≡ reading_of self.old }
    {
        let position = self.position.checked_add(src.len())?;
        let required = self.whole_pairs(digits.len());
        if dst.len() < required {
            return None;
        }
        let waiting = decode_pairs(self.waiting, digits, dst, self.reading.case)?;
        *self = Decoder {
            reading: self.reading,
            position,
            waiting,
        };
        Some(required)
    }

    // Returns how many pairs of digits are whole once `digits` more digits are fed.
    fn whole_pairs(&self, digits: usize) -> usize
        ensures { result ≡ (length (waiting_in self.now) + digits) / 2 }
    {
        digits / 2 + usize::from(self.waiting.is_some() && digits % 2 == 1)
    }

    // Returns the index of the first byte of a chunk that should be a digit and is not.
    fn first_invalid_read(&self, src: &[u8]) -> Option<usize>
        ensures { result ≡ first_invalid_read (reading_of self.now) src.now }
    {
        let Reading { case, skips } = self.reading;
        src.iter().position(|byte| (!skips || !byte.is_ascii_whitespace())
            && digit_value(*byte, case).is_none())
    }

    // Returns the error for the byte that `first_invalid_read` finds, with its index in all bytes fed.
    #[cold]
    fn error_in(&self, src: &[u8]) -> Error
        requires invalid { first_invalid_read (reading_of self.now) src.now ≢ None }
        requires counted { position_of self.now + length src.now < 2 ^ 64 }
        ensures { invalid_read_behind (reading_of self.now) (position_of self.now) src.now ≡ Some result }
    {
        let index = self.first_invalid_read(src).unwrap();
        Error::InvalidChar {
            index: self.position + index,
            byte: src[index],
        }
    }
}

// Returns how many bytes of a source are not white space, and whether all of these are digits. It
// copies the bytes of a block that are not white space, and tests them in vectors. To test byte by byte
// would take ten times as long.
fn survey(src: &[u8], case: CheckCase) -> (usize, bool)
    ensures count { result.0 ≡ length (unspaced src.now) }
    ensures clean { IsTrue result.1 ↔ (first_invalid_read (spaced case) src.now ≡ None) }
{
    let mut buffer = [0; SPACED_BLOCK];
    let mut count = 0;
    let mut is_clean = true;
    for block in src.chunks(SPACED_BLOCK) {
        let more = copy_unspaced(block, &mut buffer);
        is_clean &= Backend::plain().check(&buffer[..more], case);
        count += more;
    }
    (count, is_clean)
}

// Decodes the pairs that more digits complete. Returns the digit that then waits, if there is one.
// Returns `None` if a byte is not a digit.
#[inline(always)]
fn decode_pairs(
    waiting: Option<u8>,
    src: &[u8],
    dst: &mut [u8],
    case: CheckCase,
) -> Option<Option<u8>>
    requires tested { ForSome waiting (λ digit. IsSome (value case digit)) }
    requires room { (length (option_to_list waiting) + length src.now) / 2 ≤ length dst.old }
    ensures { DecodesPairs case waiting src.now dst.old dst.new result }
{
    let Some(high) = waiting else {
        return decode_pairs_of(src, dst, case);
    };
    if src.is_empty() {
        return Some(waiting);
    }
    let byte = pair_byte(high, src[0], case)?;
    let waiting = decode_pairs_of(&src[1..], &mut dst[1..], case)?;
    dst[0] = byte;
    Some(waiting)
}

// Decodes the whole pairs of a source. Returns the digit after them, if there is one. Returns
// `None` if a byte is not a digit.
#[inline(always)]
fn decode_pairs_of(src: &[u8], dst: &mut [u8], case: CheckCase) -> Option<Option<u8>>
    requires { length src.now / 2 ≤ length dst.old }
    ensures { DecodesPairs case None src.now dst.old dst.new result }
{
    let end = src.len() - src.len() % 2;
    let waiting = digit_after(src, end, case)?;
    // A chunk of one digit has no whole pair, so it needs no call.
    if end == 0 {
        return Some(waiting);
    }
    if !Backend::plain().decode(&src[..end], &mut dst[..end / 2], case) {
        return None;
    }
    Some(waiting)
}

// Returns the digit after the whole pairs of a source, if it has one. Returns `None` if that digit
// is invalid.
#[inline(always)]
fn digit_after(src: &[u8], end: usize, case: CheckCase) -> Option<Option<u8>>
    requires { length src.now ≤ end + 1 }
    ensures { MatchOption result (first_invalid case (drop end src.now) ≢ None)
        (λ waiting. (option_to_list waiting ≡ drop end src.now) × ForSome waiting (λ digit. IsSome (value case digit))) }
{
    if src.len() <= end {
        return Some(None);
    }
    digit_value(src[end], case)?;
    Some(Some(src[end]))
}

// Returns the byte of two digits, of which the first is valid. Returns `None` if the second one is
// invalid.
#[inline(always)]
fn pair_byte(high: u8, low: u8, case: CheckCase) -> Option<u8>
    requires { IsSome (value case high) }
    ensures { MatchOption result (value case low ≡ None)
        (λ byte. Spells case (high ∷ low ∷ []) (byte ∷ [])) }
{
    let high = digit_value(high, case).unwrap();
    let low = digit_value(low, case)?;
    Some(16 * high + low)
}
