//! Hex digits, and their values under a policy.

ghost use Rattle.std.specs.Prelude.{◌≡◌};
ghost use Rattle.hex_core.specs.declared.digit.CheckCase.TheVariants as policy;
ghost use Rattle.hex_core.specs.Digit.{value};

/// A policy says which letter cases checking and decoding accept.
///
/// Every policy accepts `0` to `9`. No policy accepts a prefix, a space, a separator or a byte
/// above 0x7f. A byte is *valid* if the policy accepts it. The default policy is `None`. It accepts
/// both cases, even mixed in one source.
///
/// ```rust
/// assert_eq!(rt; digit_value(b'b', CheckCase::Lower), Some(11));
/// assert_eq!(rt; digit_value(b'B', CheckCase::Lower), None);
/// ```
#[derive(Clone, Copy, Debug, PartialEq, Eq, Hash)]
pub enum CheckCase {
    /// Accepts `a` to `f` and `A` to `F`.
    None,
    /// Accepts only `a` to `f`.
    Lower,
    /// Accepts only `A` to `F`.
    Upper,
}

impl Default for CheckCase {
    ghost is_default = { λ case. case ≡ policy.None };

    /// Returns `CheckCase::None`, the policy that accepts both cases.
    fn default() -> CheckCase {
        CheckCase::None
    }
}

/// Returns the value of `byte` as a digit, from 0 to 15, or `None` if `case` does not accept it.
///
/// ```rust
/// assert_eq!(rt; digit_value(b'7', CheckCase::None), Some(7));
/// assert_eq!(rt; digit_value(b'g', CheckCase::None), None);
/// ```
pub fn digit_value(byte: u8, case: CheckCase) -> Option<u8>
    ensures value { result ≡ value case byte }
{
    match byte {
        b'0'..=b'9' => Some(byte - b'0'),
        b'a'..=b'f' if case != CheckCase::Upper => Some(byte - b'a' + 10),
        b'A'..=b'F' if case != CheckCase::Lower => Some(byte - b'A' + 10),
        _ => None,
    }
}
