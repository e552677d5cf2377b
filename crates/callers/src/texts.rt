//! Functions that keep digits as text. Each is proved.

ghost use Rattle.std.specs.Prelude.{◌≡◌, ◌+◌, ◌*◌, ◌≤◌, ◌++◌, MatchResult, length, string_bytes, string_len, string_capacity};
ghost use Rattle.std.specs.Str.{str_to_ascii_lowercase};
ghost use Rattle.hex_core.specs.declared.digit.CheckCase.TheVariants as policy;
ghost use Rattle.hex_core.specs.Refusal.{OwnedFailure};
ghost use Rattle.hex_core.specs.Text.{lowercase, text};

use faster_hex::{Error, hex_append_into, hex_decode_vec, hex_encode, hex_encode_into, hex_string};
use hex_core::laws::{
    a_text_is_ascii_and_twice_as_long, either_case_is_the_lowercased_source,
    the_text_of_a_joined_list_is_the_texts_joined,
};
use std::alloc::{AllocError, Allocator, Global};
use std::str;

/// Appends the digits of two parts to a text. They are the digits of both parts joined. The
/// capacity of the text suffices, so the function cannot fail.
pub fn append_both<A: Allocator>(line: &mut String<A>, first: &[u8], second: &[u8])
    requires { string_len line.old + 2 * length first.now + 2 * length second.now
        ≤ string_capacity line.old }
    ensures { string_bytes line.new ≡ string_bytes line.old ++ text lowercase (first.now ++ second.now) }
{
    the_text_of_a_joined_list_is_the_texts_joined();
    hex_append_into(first, line, false).unwrap();
    hex_append_into(second, line, false).unwrap();
}

/// Appends the 32 digits of an identifier to a text, through a buffer on the stack. It fails only
/// if memory runs out, and then leaves the text unchanged.
///
/// ```rust
/// let mut line = String::new(rt.alloc());
/// line.push_str("id ")?;
/// append_identifier(&mut line, b"hello, 16 bytes!")?;
/// assert_eq!(rt; line.as_str(), "id 68656c6c6f2c20313620627974657321");
/// ```
pub fn append_identifier<A: Allocator>(
    line: &mut String<A>,
    id: &[u8; 16],
) -> Result<(), AllocError>
    ensures { MatchResult result
        (λ _. string_bytes line.new ≡ string_bytes line.old ++ text lowercase id.now)
        (λ _. string_bytes line.new ≡ string_bytes line.old) }
{
    a_text_is_ascii_and_twice_as_long();
    let mut buffer = [0; 32];
    let digits = hex_encode(id, &mut buffer).unwrap();
    line.push_str(str::from_utf8(digits).unwrap())
}

/// Returns the 40 digits of an identifier of 20 bytes, in an array that is exactly as long.
///
/// ```rust
/// let digits = identifier_digits(&[0xab; 20]);
/// assert!(rt; digits.chunks(2).all(|pair| pair == b"ab".as_slice()));
/// ```
pub fn identifier_digits(id: &[u8; 20]) -> [u8; 40]
    ensures { result ≡ text lowercase id.now }
{
    a_text_is_ascii_and_twice_as_long();
    let mut digits = [0; 40];
    hex_encode_into(id, &mut digits, false).unwrap();
    digits
}

/// Decodes digits of either case, and returns the bytes as new lowercase digits.
///
/// ```rust
/// assert_eq!(rt; lowercased(rt.alloc(), b"00aBcD")?.as_str(), "00abcd");
/// ```
pub fn lowercased(alloc: Global, digits: &[u8]) -> Result<String, Error>
    ensures { MatchResult result
        (λ text. string_bytes text ≡ str_to_ascii_lowercase digits.now)
        (λ e. OwnedFailure policy.None digits.now e) }
{
    either_case_is_the_lowercased_source();
    let bytes = hex_decode_vec(alloc, digits)?;
    hex_string(alloc, &bytes)
}
