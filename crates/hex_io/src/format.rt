//! A view of bytes that prints them as hex digits, with padding.

ghost use Rattle.std.specs.Prelude.{◌≡◌, None, Some, false};
ghost use Rattle.std.specs.Fmt.{WritesOnOk};
ghost use Rattle.std.specs.Str.{IsAscii};
ghost use Rattle.hex_core.specs.Text.{lowercase, text};
ghost use Rattle.hex_io.specs.Frame.{digits_of, frame, hex_bytes, plain_flags, sign_and_prefix};
ghost use Rattle.hex_io.specs.SinkState.{Puts};

pub use crate::digits::put_digits;
use crate::digits::{ENCODE_CHUNK, SHORT_SOURCE, encoded};
use crate::padding::{before_text, padding_len, put_copies};
pub use crate::sink::{Sink, SinkFault, SliceSink, WriteFault, WriterSink, put_all};
use hex_codec::Group;
use std::{fmt, str};

/// Where the fill characters of a padded text go.
#[derive(Clone, Copy, Debug, PartialEq, Eq)]
pub enum Align {
    /// The text is left-aligned, with the fill after it.
    Left,
    /// The text is right-aligned, with the fill before it.
    Right,
    /// The text is centered. If the number of fill characters is odd, one more goes after the text
    /// than before it.
    Center,
}

/// The format in which [`Hex::write_to`] writes a view.
///
/// The default has no sign, no prefix, no width and no group, and the digits are lowercase. If you
/// set only a width, spaces before the text fill it up.
#[derive(Clone, Copy, Debug, PartialEq, Eq)]
pub struct HexFlags {
    /// Whether the text begins with `+`.
    pub plus: bool,
    /// Whether `0x` comes after the sign. It is lowercase even if the digits are uppercase, and it
    /// is written even if there are no bytes.
    pub prefix: bool,
    /// Whether zeros between the prefix and the digits fill up the width. `fill` and `align` are
    /// then ignored.
    pub zero: bool,
    /// The minimum length of the text, in characters.
    pub width: Option<usize>,
    /// The character that fills up to the width.
    pub fill: char,
    /// Where the fill characters go.
    pub align: Align,
    /// Whether the letters are `A` to `F` instead of `a` to `f`.
    pub upper: bool,
    /// The group, if the digits have separators between pieces. Padding is not grouped.
    pub group: Option<Group>,
}

impl Default for HexFlags {
    ghost is_default = { λ flags. flags ≡ plain_flags };

    fn default() -> HexFlags {
        HexFlags {
            plus: false,
            prefix: false,
            zero: false,
            width: None,
            fill: ' ',
            align: Align::Right,
            upper: false,
            group: None,
        }
    }
}

/// A view of borrowed bytes. It prints them in order as hex digits, two for each byte. `{}` and `{:#}`
/// print lowercase digits alone. [`Hex::write_to`] has a prefix, a width, uppercase and groups.
///
/// ```rust
/// let text = format!(in rt.alloc(); "{}", Hex::new(&[0, 0xab, 0xcd]))?;
/// assert_eq!(rt; text.as_str(), "00abcd");
/// ```
#[derive(Clone, Copy, Debug)]
pub struct Hex<'a> {
    bytes: &'a [u8],
}

impl<'a> Hex<'a> {
    /// Returns a view of `bytes`, which are not copied.
    pub fn new(bytes: &'a [u8]) -> Hex<'a>
        ensures bytes { hex_bytes result ≡ bytes.entry.now }
    {
        Hex { bytes }
    }

    /// Puts the text of the view into `sink`. The text is the sign, the prefix and the digits. If
    /// that is shorter than `flags.width` characters, it is padded to that width, as `flags` say.
    ///
    /// On `Ok` the sink has taken exactly this text, and has counted no failure. An empty text is
    /// always `Ok`. The call needs no allocator, and its puts may have any number and any lengths.
    ///
    /// # Errors
    ///
    /// The first failed put ends the call. The sink has then taken a first part of the text, which
    /// may end inside a fill character, and has counted one more failure.
    ///
    /// - [`WriteFault::Sink`] if the sink refused a piece.
    /// - [`WriteFault::TookNothing`] if it took no byte of a nonempty piece.
    ///
    /// ```rust
    /// let mut buffer = [0; 10];
    /// let mut sink = SliceSink::new(&mut buffer);
    /// let flags = HexFlags {
    ///     prefix: true,
    ///     zero: true,
    ///     width: Some(8),
    ///     ..HexFlags::default()
    /// };
    /// Hex::new(&[0xab]).write_to(&mut sink, &flags)?;
    /// assert_eq!(rt; sink.written(), b"0x0000ab".as_slice());
    /// ```
    pub fn write_to<S: Sink>(&self, sink: &mut S, flags: &HexFlags) -> Result<(), WriteFault>
        ensures framed { Puts (S.state sink.old) (S.state sink.new) result (frame flags.now (hex_bytes self.now)) }
        ensures bare { flags.now.plus ≡ false → flags.now.prefix ≡ false → flags.now.width ≡ None
            → Puts (S.state sink.old) (S.state sink.new) result (digits_of flags.now (hex_bytes self.now)) }
    {
        put_framed(self.bytes, sink, flags)
    }
}

// Puts the text of some bytes, padded as `flags` say, one part after the other.
fn put_framed<S: Sink>(bytes: &[u8], sink: &mut S, flags: &HexFlags) -> Result<(), WriteFault>
    ensures { Puts (S.state sink.old) (S.state sink.new) result (frame flags.now bytes.now) }
{
    let front = sign_and_prefix(flags);
    let padding = padding_len(flags, front, bytes);
    if flags.zero {
        put_all(sink, front)?;
        put_copies(sink, '0', padding)?;
        return put_digits(sink, bytes, flags.upper, flags.group);
    }
    let left = before_text(flags.align, padding);
    put_copies(sink, flags.fill, left)?;
    put_all(sink, front)?;
    put_digits(sink, bytes, flags.upper, flags.group)?;
    put_copies(sink, flags.fill, padding - left)
}

impl fmt::Display for Hex<'_> {
    ghost output = { λ hex. Some (text lowercase (hex_bytes hex)) };

    fn fmt<W: fmt::Write>(&self, f: &mut fmt::Formatter<W>) -> fmt::Result {
        if self.bytes.len() <= SHORT_SOURCE {
            let mut buffer = [0; 2 * SHORT_SOURCE];
            return write_ascii(f, encoded(self.bytes, false, &mut buffer));
        }
        let mut buffer = [0; 2 * ENCODE_CHUNK];
        for chunk in self.bytes.chunks(ENCODE_CHUNK) {
            let digits = encoded(chunk, false, &mut buffer);
            write_ascii(f, digits)?;
        }
        Ok(())
    }
}

// Writes ASCII bytes as text.
fn write_ascii<W: fmt::Write>(f: &mut fmt::Formatter<W>, bytes: &[u8]) -> fmt::Result
    requires { IsAscii bytes.now }
    ensures { WritesOnOk W.write_str_gives f.old result bytes.now f.new }
{
    f.write_str(unsafe { str::from_utf8_unchecked(bytes) })
}

// Returns the sign and the prefix that `flags` ask for.
fn sign_and_prefix(flags: &HexFlags) -> &'static [u8]
    ensures { result.now ≡ sign_and_prefix flags.now }
{
    match (flags.plus, flags.prefix) {
        (true, true) => b"+0x",
        (true, false) => b"+",
        (false, true) => b"0x",
        (false, false) => b"",
    }
}
