//! What calls must give, computed byte by byte from the definition of a digit.

use hex_core::{CheckCase, Error};

/// Returns the value of a digit of a policy.
pub fn value(byte: u8, case: CheckCase) -> Option<u8> {
    match (byte, case) {
        (b'0'..=b'9', _) => Some(byte - b'0'),
        (b'a'..=b'f', CheckCase::None | CheckCase::Lower) => Some(byte - b'a' + 10),
        (b'A'..=b'F', CheckCase::None | CheckCase::Upper) => Some(byte - b'A' + 10),
        _ => None,
    }
}

/// Returns the digit of a value below 16.
pub fn digit(value: u8, is_upper: bool) -> u8 {
    let digits = if is_upper {
        b"0123456789ABCDEF"
    } else {
        b"0123456789abcdef"
    };
    digits[usize::from(value % 16)]
}

/// Returns the place of the first byte that is no digit.
pub fn first_invalid(src: &[u8], case: CheckCase) -> Option<usize> {
    for place in 0..src.len() {
        if value(src[place], case).is_none() {
            return Some(place);
        }
    }
    None
}

/// Decodes digits into a buffer for the result. Returns the result for a destination of `room` bytes.
pub fn decoded<'a>(
    src: &[u8],
    case: CheckCase,
    room: usize,
    bytes: &'a mut [u8],
) -> Result<&'a [u8], Error> {
    let required = src.len() / 2;
    if src.len() % 2 == 1 {
        return Err(Error::OddLength);
    }
    if room < required {
        return Err(Error::OutputTooSmall { required });
    }
    if let Some(index) = first_invalid(src, case) {
        let byte = src.get(index).copied().unwrap_or(0);
        return Err(Error::InvalidChar { index, byte });
    }
    Ok(decode_pairs(src, bytes))
}

/// Decodes the whole pairs of digits into a buffer for the result, and returns their bytes.
pub fn decode_pairs<'a>(digits: &[u8], bytes: &'a mut [u8]) -> &'a [u8] {
    let front = bytes.get_mut(..digits.len() / 2).unwrap_or_default();
    for i in 0..front.len() {
        let [high, low] = [2 * i, 2 * i + 1].map(|place| {
            let digit = digits.get(place).copied().unwrap_or(0);
            value(digit, CheckCase::None).unwrap_or(0)
        });
        front[i] = high << 4 | low;
    }
    front
}

/// Encodes bytes into a buffer for the result. Returns the result for a destination of `room` bytes.
pub fn encoded<'a>(
    src: &[u8],
    is_upper: bool,
    room: usize,
    text: &'a mut [u8],
) -> Result<&'a [u8], Error> {
    let required = src.len().saturating_mul(2);
    if room < required {
        return Err(Error::OutputTooSmall { required });
    }
    let front = text.get_mut(..required).unwrap_or_default();
    for i in 0..front.len() {
        let byte = src.get(i / 2).copied().unwrap_or(0);
        let nibble = if i % 2 == 0 { byte >> 4 } else { byte & 15 };
        front[i] = digit(nibble, is_upper);
    }
    Ok(front)
}
