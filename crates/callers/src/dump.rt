//! Writes a line of a dump as `xxd -g` prints it, without the column of text. The function is proved.

ghost use Rattle.std.specs.Prelude.{◌≡◌, ◌++◌, ◌∷◌, []};
ghost use Rattle.hex_core.specs.Text.{lowercase, text};
ghost use Rattle.hex_codec.specs.GroupedWriting.{grouped};
ghost use Rattle.hex_io.specs.SinkState.{Puts};

use faster_hex::format::{put_all, put_digits};
use faster_hex::{Group, Sink, WriteFault};
use hex_io::laws::puts_in_a_row_are_one;

/// Puts a line of a dump into any sink. The line has the eight digits of its offset, a colon, a
/// space, its bytes in groups, and a newline.
///
/// ```rust
/// let mut line = [0; 20];
/// let mut sink = faster_hex::SliceSink::new(&mut line);
/// let group = Group::new(2, b' ').unwrap();
/// write_line(&0x40_u32.to_be_bytes(), b"Rust", group, &mut sink)?;
/// assert_eq!(rt; &line, b"00000040: 5275 7374\n");
/// ```
pub fn write_line<S: Sink>(
    offset: &[u8; 4],
    bytes: &[u8],
    group: Group,
    sink: &mut S,
) -> Result<(), WriteFault>
    ensures { Puts (S.state sink.old) (S.state sink.new) result
        (text lowercase offset.now ++ (58 ∷ 32 ∷ []) ++ grouped group lowercase bytes.now ++ (10 ∷ [])) }
{
    puts_in_a_row_are_one();
    put_digits(sink, offset, false, None)?;
    put_all(sink, b": ")?;
    put_digits(sink, bytes, false, Some(group))?;
    put_all(sink, b"\n")
}
