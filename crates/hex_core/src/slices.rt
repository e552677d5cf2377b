//! Decoding and encoding of slices of any length, by a plan, and the search for the first invalid byte.
//! A function that decodes or encodes writes to the start of a destination. `decode_slice` and
//! `encode_slice` also return the written part of it.

ghost use Rattle.std.specs.Prelude.{◌≡◌, ◌≢◌, ◌*◌, ◌%◌, ◌<◌, ◌≤◌, ℕ, None, Some, length, MatchOption, MatchResult};
ghost use Rattle.std.specs.Borrow.{sem};
ghost use Rattle.hex_core.specs.declared.digit.CheckCase.{CheckCase};
ghost use Rattle.hex_core.specs.Calls.{Answers, Decodes, DecodesFront, Encodes, EncodesFront};
ghost use Rattle.hex_core.specs.Loan.{LendsAnswer};
ghost use Rattle.hex_core.specs.declared.error.Error.TheVariants.{InvalidChar};
ghost use Rattle.hex_core.specs.Refusal.{decode_refusal, encode_refusal, first_invalid_char};
ghost use Rattle.hex_core.specs.Search.{first_invalid};
ghost use Rattle.hex_core.specs.Text.{Spells};

use crate::backend::Backend;
use crate::digit::CheckCase;
use crate::error::Error;
use crate::plain::MOST_INLINE;
use crate::search::locate;
use crate::slice_probe::SliceProbe;

// `decode_or_find_outlined` adds this to an invalid byte. The sum is never 0, and its remainder by
// 256 is the byte.
const INVALID: u16 = 256;

// Returns the number of bytes that `src` decodes to. Returns an error if the length of `src` is
// odd, or if that number exceeds `room`.
#[inline(always)]
fn decoded_len(src: &[u8], room: usize) -> Result<usize, Error>
    ensures { MatchResult result
        (λ n. (length src.now ≡ 2 * n) × (n ≤ room))
        (λ e. (case : CheckCase) → decode_refusal case src.now room ≡ Some e) }
{
    if src.len() % 2 == 1 {
        return Err(Error::OddLength);
    }
    let required = src.len() / 2;
    if room < required {
        return Err(Error::OutputTooSmall { required });
    }
    Ok(required)
}

// Returns the number of digits that encode `src`. Returns an error if that number exceeds `usize`
// or `room`.
#[inline(always)]
fn encoded_len(src: &[u8], room: usize) -> Result<usize, Error>
    ensures { Answers (encode_refusal src.now room) (λ n. n ≡ 2 * length src.now) result }
{
    // If this test passes, the product fits `usize`, so it needs no checked multiplication.
    if src.len() <= room / 2 {
        return Ok(2 * src.len());
    }
    Err(match src.len().checked_mul(2) {
        None => Error::Overflow,
        Some(required) => Error::OutputTooSmall { required },
    })
}

impl Backend {
    /// Decodes all of `src` into the start of `dst`. Returns the number of bytes written, which is
    /// `src.len() / 2`. The bytes of `dst` after them are unchanged.
    ///
    /// # Errors
    ///
    /// The conditions are tested in this order. Each error leaves all of `dst` unchanged.
    ///
    /// 1. [`Error::OddLength`] if `src` has an odd number of bytes.
    /// 2. [`Error::OutputTooSmall`] if `dst` has fewer than `src.len() / 2` bytes.
    /// 3. [`Error::InvalidChar`] if `case` does not accept a byte of `src`. The error has the first
    ///    such byte and its index.
    ///
    /// ```rust
    /// let mut buffer = [0xa5; 3];
    /// let written = Backend::plain().decode_into(b"00ab", &mut buffer, CheckCase::None)?;
    /// assert_eq!(rt; written, 2);
    /// assert_eq!(rt; buffer, [0, 0xab, 0xa5]);
    /// ```
    #[inline(always)]
    pub fn decode_into(self, src: &[u8], dst: &mut [u8], case: CheckCase) -> Result<usize, Error>
        ensures answer { Decodes case src.now dst.old dst.new result }
    {
        let required = decoded_len(src, dst.len())?;
        if src.len() <= MOST_INLINE && self.decode(src, &mut dst[..required], case) {
            return Ok(required);
        }
        match self.decode_or_find_outlined(src, &mut dst[..required], case) {
            (written, 0) => Ok(written),
            (index, marked) => Err(Error::InvalidChar {
                index,
                byte: (marked % INVALID) as u8,
            }),
        }
    }

    // Decodes a source of more than `MOST_INLINE` digits, or finds the first invalid byte of a
    // source of any length. Returns the index of that byte, and the byte plus `INVALID`. If all
    // bytes are valid, it returns the number of bytes written, and 0.
    //
    // This is a function of its own, whose result fits two registers. So `decode_into` keeps no value
    // across the call and saves no register, which would slow short sources down.
    #[inline(never)]
    fn decode_or_find_outlined(self, src: &[u8], dst: &mut [u8], case: CheckCase) -> (usize, u16)
        requires twice { length src.now ≡ 2 * length dst.old }
        requires refused { length src.now ≤ MOST_INLINE → first_invalid case src.now ≢ None }
        ensures answer { MatchOption (first_invalid_char case src.now)
            (result ≡ (length dst.old, 0))
            (λ e. (e ≡ InvalidChar result.0 (result.1 % INVALID)) × (result.1 ≢ 0)) }
        ensures decoded { MatchOption (first_invalid case src.now)
            (Spells case src.now dst.new) (λ _. dst.new ≡ dst.old) }
    {
        if src.len() > MOST_INLINE && self.decode_many(src, dst, case) {
            return (dst.len(), 0);
        }
        let (index, byte) = self.first_invalid_byte(src, case);
        (index, INVALID + byte as u16)
    }

    /// Encodes all of `src` into the start of `dst`, in uppercase if `upper` is true. Returns the
    /// number of bytes written, which is `2 * src.len()`. The bytes of `dst` after them are
    /// unchanged.
    ///
    /// # Errors
    ///
    /// The conditions are tested in this order. Each error leaves all of `dst` unchanged.
    ///
    /// 1. [`Error::Overflow`] if `2 * src.len()` exceeds `usize`.
    /// 2. [`Error::OutputTooSmall`] if `dst` has fewer than `2 * src.len()` bytes.
    ///
    /// ```rust
    /// let mut buffer = [b'-'; 5];
    /// let written = Backend::plain().encode_into(&[0, 0xab], &mut buffer, false)?;
    /// assert_eq!(rt; written, 4);
    /// assert_eq!(rt; &buffer, b"00ab-");
    /// ```
    #[inline(always)]
    pub fn encode_into(self, src: &[u8], dst: &mut [u8], upper: bool) -> Result<usize, Error>
        ensures answer { Encodes upper src.now dst.old dst.new result }
    {
        let written = encoded_len(src, dst.len())?;
        self.encode(src, &mut dst[..written], upper);
        Ok(written)
    }

    /// Decodes all of `src` into the start of `dst`. Returns the written part of `dst`, which has
    /// `src.len() / 2` bytes. The result borrows only `dst`, and the bytes of `dst` after it are
    /// unchanged.
    ///
    /// # Errors
    ///
    /// The errors are those of [`Backend::decode_into`], in the same order. Each leaves all of
    /// `dst` unchanged.
    ///
    /// ```rust
    /// let [_, _, avx2, ..] = backends();
    /// let mut buffer = [0xa5; 3];
    /// let bytes = avx2.decode_slice(b"00ab", &mut buffer, CheckCase::None)?;
    /// bytes[0] = 0xff;
    /// assert_eq!(rt; buffer, [0xff, 0xab, 0xa5]);
    /// ```
    #[inline(always)]
    pub fn decode_slice<'a>(
        self,
        src: &[u8],
        dst: &'a mut [u8],
        case: CheckCase,
    ) -> Result<&'a mut [u8], Error>
        ensures* lends { sem 𝓛 (LendsAnswer dst.entry result) }
        ensures answer { DecodesFront case src.now (length dst.old) result }
    {
        match self.decode_into(src, dst, case) {
            Ok(written) => Ok(&mut dst[..written]),
            Err(error) => Err(error),
        }
    }

    /// Encodes all of `src` into the start of `dst`, in uppercase if `upper` is true. Returns the
    /// written part of `dst`, which has `2 * src.len()` bytes. The result borrows only `dst`, and
    /// the bytes of `dst` after it are unchanged.
    ///
    /// # Errors
    ///
    /// The errors are those of [`Backend::encode_into`], in the same order. Each leaves all of
    /// `dst` unchanged.
    ///
    /// ```rust
    /// let [_, _, avx2, ..] = backends();
    /// let mut buffer = [0; 4];
    /// let text = avx2.encode_slice(&[0, 0xab], &mut buffer, true)?;
    /// assert_eq!(rt; &*text, b"00AB".as_slice());
    /// ```
    #[inline(always)]
    pub fn encode_slice<'a>(
        self,
        src: &[u8],
        dst: &'a mut [u8],
        upper: bool,
    ) -> Result<&'a mut [u8], Error>
        ensures* lends { sem 𝓛 (LendsAnswer dst.entry result) }
        ensures answer { EncodesFront upper src.now (length dst.old) result }
    {
        match self.encode_into(src, dst, upper) {
            Ok(written) => Ok(&mut dst[..written]),
            Err(error) => Err(error),
        }
    }

    /// Returns the index of the first byte of `src` that is invalid under `case`, or `None` if all
    /// bytes are valid. Any length is accepted, odd or even.
    ///
    /// It first checks all of `src`. Only if the check fails, it searches by [`locate`], which
    /// looks bytes up in a table. So if all bytes are valid, [`Backend::plain`] uses none of them
    /// as an index of a table. This matters if they are secret.
    ///
    /// ```rust
    /// let plain = Backend::plain();
    /// assert_eq!(rt; plain.first_invalid(b"00aBcD", CheckCase::None), None);
    /// assert_eq!(rt; plain.first_invalid(b"00aBcD", CheckCase::Lower), Some(3));
    /// ```
    #[inline(never)]
    pub fn first_invalid(self, src: &[u8], case: CheckCase) -> Option<usize>
        ensures place { result ≡ first_invalid case src.now }
    {
        if self.check(src, case) {
            return None;
        }
        locate(&mut SliceProbe::new(self, src, case))
    }

    /// Returns an [`Error::InvalidChar`] with the first byte of `src` that is invalid under `case`,
    /// and with its index.
    ///
    /// Requires that `src` has an invalid byte. A caller knows this after a check or a decoding
    /// that returned false.
    ///
    /// ```rust
    /// let error = Backend::plain().first_error(b"00fg", CheckCase::None);
    /// let first = Error::InvalidChar {
    ///     index: 3,
    ///     byte: b'g',
    /// };
    /// assert_eq!(rt; error, first);
    /// ```
    #[inline(always)]
    pub fn first_error(self, src: &[u8], case: CheckCase) -> Error
        requires { first_invalid case src.now ≢ None }
        ensures error { first_invalid_char case src.now ≡ Some result }
    {
        let (index, byte) = self.first_invalid_byte(src, case);
        Error::InvalidChar { index, byte }
    }

    // Returns the index of the first invalid byte, and the byte. Unlike an `Error`, this pair is
    // returned in registers.
    #[cold]
    #[inline(never)]
    pub(crate) fn first_invalid_byte(self, src: &[u8], case: CheckCase) -> (usize, u8)
        requires { first_invalid case src.now ≢ None }
        ensures { first_invalid_char case src.now ≡ Some (InvalidChar result.0 result.1) }
    {
        let index = locate(&mut SliceProbe::new(self, src, case)).unwrap();
        (index, src[index])
    }
}
