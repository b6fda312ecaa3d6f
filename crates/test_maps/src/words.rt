//! Words, numbers and bytes as cases spell them.

use std::alloc::{AllocError, Global};

// What stands before and behind the first of these bytes.
pub(crate) fn cut(bytes: &[u8], mark: u8) -> Option<(&[u8], &[u8])> {
    let end = bytes.iter().position(|b| *b == mark)?;
    let (front, back) = bytes.split_at(end);
    let (_, rest) = back.split_first()?;
    Some((front, rest))
}

pub(crate) fn number(word: &[u8]) -> Option<u64> {
    str::from_utf8(word).ok()?.parse::<u64>().ok()
}

// The bytes that digits in pairs spell; what isn't a digit is left out.
pub(crate) fn hexadecimal(alloc: Global, digits: &[u8]) -> Result<Vec<u8>, AllocError> {
    let mut bytes = Vec::new(alloc);
    let mut high = None;
    for digit in digits {
        if let Some(low) = digit_value(*digit) {
            high = match high {
                None => Some(low),
                Some(first) => {
                    bytes.push(byte(first, low))?;
                    None
                }
            };
        }
    }
    Ok(bytes)
}

fn byte(high: u8, low: u8) -> u8 {
    high.wrapping_mul(16).wrapping_add(low)
}

fn digit_value(digit: u8) -> Option<u8> {
    match digit {
        b'0'..=b'9' => Some(digit - b'0'),
        b'a'..=b'f' => Some(digit - b'a' + 10),
        _ => None,
    }
}
