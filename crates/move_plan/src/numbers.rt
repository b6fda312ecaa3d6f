//! Numbers in decimals.

ghost use Rattle.std.specs.Prelude.{◌≡◌, ◌+◌, ◌*◌, ◌^◌, ◌<◌, ◌≤◌, MatchOption, ℤ, pos, neg_ℤ};
ghost use Rattle.std.specs.Option.{SomeIff};
ghost use Rattle.std.specs.Str.Parse.{digits_value};
ghost use Rattle.move_plan.specs.Decoded.{count_of, number_of, numeral_of, positive, with_digit};
ghost use Rattle.move_plan.specs.InputNumbers.{AreDigits, IsNumber};

// The most digits of an input's number.
const INPUT_DIGITS: usize = 19;

// The number of 64 bits that a word of a plan spells: digits without a leading zero.
pub(crate) fn number(word: &[u8]) -> Option<u64>
    ensures { result ≡ number_of word.now }
{
    match word {
        [b'0', _, ..] => None,
        _ => numeral(word),
    }
}

// The same, but 0.
pub(crate) fn count(word: &[u8]) -> Option<u64>
    ensures { result ≡ count_of word.now }
{
    let number = number(word)?;
    if number == 0 { None } else { Some(number) }
}

// The number that a word of an input spells.
pub(crate) fn signed_number(word: &[u8]) -> Option<i64>
    ensures { MatchOption result ((n : ℤ) → ¬ IsNumber word.now n) (IsNumber word.now) }
{
    let (first, rest) = word.split_first()?;
    if *first == b'-' {
        negative(magnitude(rest)?)
    } else {
        positive(magnitude(word)?)
    }
}

// The number that a few digits spell.
fn magnitude(digits: &[u8]) -> Option<u64>
    ensures { SomeIff result (AreDigits digits.now) (digits_value 10 digits.now) }
{
    if digits.len() > INPUT_DIGITS {
        return None;
    }
    numeral(digits)
}

fn positive(magnitude: u64) -> Option<i64>
    ensures { SomeIff result (magnitude < 2 ^ 63) (pos magnitude) }
{
    i64::try_from(magnitude).ok()
}

fn negative(magnitude: u64) -> Option<i64>
    ensures { SomeIff result (magnitude ≤ 2 ^ 63) (neg_ℤ (pos magnitude)) }
{
    0i64.checked_sub_unsigned(magnitude)
}

// The number that digits spell, with leading zeros or without.
fn numeral(digits: &[u8]) -> Option<u64>
    ensures { result ≡ numeral_of digits.now }
{
    if digits.is_empty() {
        return None;
    }
    let mut number = 0;
    for digit in digits {
        number = with_digit(number, *digit)?;
    }
    Some(number)
}

// A digit behind those that spell a number.
fn with_digit(number: u64, digit: u8) -> Option<u64>
    ensures { result ≡ with_digit number digit }
{
    let value = char::from(digit).to_digit(10)?;
    let tens = number.checked_mul(10)?;
    tens.checked_add(u64::from(value))
}
