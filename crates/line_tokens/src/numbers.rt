//! Widths and literals.

ghost use Rattle.std.specs.Prelude.{◌≡◌, ◌+◌, ◌-◌, ◌*◌, ◌^◌, ◌<◌, not, IfSome};
ghost use Rattle.std.specs.Option.{SomeIff, option_map};
ghost use Rattle.std.specs.Char.{is_ascii_digit};
ghost use Rattle.std.specs.List.{list_all};
ghost use Rattle.sp_text.specs.Tokens.{tok, are_digits, is_numeral};
ghost use Rattle.line_tokens.specs.Numbers.{decimal, is_width, is_literal, width_within, width_of, width_passes, is_integer_word, number_spelled, literal_within, literal_spelled, literal_of, literal_passes};

use crate::literals::{Limited, Literal};
use crate::widths::Width;
use sp_text::{Kind, Token};

// The number that digits spell, where it is below 2^64.
fn decimal(digits: &[u8]) -> Option<u64>
    ensures { SomeIff result (decimal digits.now < 2 ^ 64) (decimal digits.now) }
{
    let mut number = 0;
    for digit in digits {
        number = with_digit(number, *digit)?;
    }
    Some(number)
}

fn with_digit(front: u64, digit: u8) -> Option<u64>
    ensures { SomeIff result (10 * front + (digit - 48) < 2 ^ 64) (10 * front + (digit - 48)) }
{
    let tens = front.checked_mul(10)?;
    tens.checked_add(u64::from(digit.saturating_sub(b'0')))
}

fn are_all_digits(bytes: &[u8]) -> bool
    ensures { result ≡ list_all is_ascii_digit bytes.now }
{
    bytes.iter().all(|b| b.is_ascii_digit())
}

fn are_digits(bytes: &[u8]) -> bool
    ensures { result ≡ are_digits bytes.now }
{
    match bytes {
        [] => false,
        [first, more @ ..] => first.is_ascii_digit() && are_all_digits(more),
    }
}

fn is_numeral(bytes: &[u8]) -> bool
    ensures { result ≡ is_numeral bytes.now }
{
    match bytes {
        [b'0', more @ ..] => more.is_empty(),
        _ => are_digits(bytes),
    }
}

/// Whether a word is `i` and digits.
pub fn is_integer_word(bytes: &[u8]) -> bool
    ensures { result ≡ is_integer_word bytes.now }
{
    match bytes {
        [b'i', digits @ ..] => are_digits(digits),
        _ => false,
    }
}

// The width that the digits of `iN` spell.
fn width_spelled(digits: &[u8]) -> Limited<Width>
    ensures value { result.value.bits ≡ width_within (decimal digits.now) }
    ensures passes { result.passes ≡ not (is_width (decimal digits.now)) }
{
    match decimal(digits) {
        Some(bits) if 1 <= bits && bits <= 64 => Limited {
            value: Width { bits: bits as u32 },
            passes: false,
        },
        _ => Limited {
            value: Width { bits: 1 },
            passes: true,
        },
    }
}

/// The width of `iN`.
pub fn width(token: &Token) -> Option<Limited<Width>>
    ensures value { option_map (λ it. it.value.bits) result ≡ width_of (tok token.now.kind token.now.bytes.now) }
    ensures passes { IfSome result (λ it. it.passes ≡ width_passes (tok token.now.kind token.now.bytes.now)) }
{
    match token.kind {
        Kind::Word => width_in(token.bytes),
        _ => None,
    }
}

/// The width of the word `iN`.
pub fn width_in(bytes: &[u8]) -> Option<Limited<Width>>
    ensures value { option_map (λ it. it.value.bits) result ≡ width_of (tok Kind.Word bytes.now) }
    ensures passes { IfSome result (λ it. it.passes ≡ width_passes (tok Kind.Word bytes.now)) }
{
    match bytes {
        [b'i', digits @ ..] if is_numeral(digits) => Some(width_spelled(digits)),
        _ => None,
    }
}

/// The literal that a number spells.
pub fn literal(token: &Token) -> Option<Limited<Literal>>
    ensures value { option_map (λ it. it.value) result ≡ literal_of (tok token.now.kind token.now.bytes.now) }
    ensures passes { IfSome result (λ it. it.passes ≡ literal_passes (tok token.now.kind token.now.bytes.now)) }
{
    match token.kind {
        Kind::Number => Some(literal_in(token.bytes)),
        _ => None,
    }
}

/// The literal that an optional `-` and digits spell.
pub fn literal_in(bytes: &[u8]) -> Limited<Literal>
    ensures value { result.value ≡ literal_spelled bytes.now }
    ensures passes { result.passes ≡ not (is_literal (number_spelled bytes.now)) }
{
    match bytes {
        [b'-', digits @ ..] => signed(true, digits),
        _ => signed(false, bytes),
    }
}

// The literal of this sign that the digits spell.
fn signed(negative: bool, digits: &[u8]) -> Limited<Literal>
    ensures value { result.value ≡ literal_within (record { negative = negative; magnitude = decimal digits.now }) }
    ensures passes { result.passes ≡ not (is_literal (record { negative = negative; magnitude = decimal digits.now })) }
{
    let most = if negative { 1 << 63 } else { u64::MAX };
    match decimal(digits) {
        Some(magnitude) if magnitude <= most => Limited {
            value: Literal {
                negative,
                magnitude,
            },
            passes: false,
        },
        _ => Limited {
            value: Literal {
                negative: false,
                magnitude: 1,
            },
            passes: true,
        },
    }
}
