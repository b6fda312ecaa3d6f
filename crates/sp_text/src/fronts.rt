//! How far the token at the front of a line reaches.

ghost use Rattle.std.specs.Prelude.{◌≡◌, ◌≤◌, ◌∷◌, ◌==◌, length, drop, position, MatchOption};
ghost use Rattle.std.specs.List.{prefix_len};
ghost use Rattle.std.specs.Char.{is_ascii_digit};
ghost use Rattle.sp_text.specs.Bytes.{after_blanks, in_name, in_word};
ghost use Rattle.sp_text.specs.Fronts.{IsLongestFront, HasNoFront};
ghost use Rattle.sp_text.specs.TokenAt.{past_blanks};
ghost use Rattle.sp_text.specs.Tokens.{front_of, are_digits, ends_quote, is_bang_end, is_ellipsis_end, is_name};

use crate::bytes::{FIRST_BYTES, begins_name, is_blank, is_in_name, is_in_word};
use crate::tokens::Kind;
use memchr::memchr;

// The longest token that begins with the byte `first`: its kind and its length.
#[inline(always)]
pub(crate) fn front(first: u8, rest: &[u8]) -> Option<(Kind, usize)>
    ensures { result ≡ front_of (first ∷ rest.now) }
{
    // marks and words are most of the tokens
    let class = FIRST_BYTES[first as usize];
    if class == b',' {
        return Some((Kind::Punct, 1));
    }
    if class == b'a' {
        return Some((Kind::Word, 1 + word_len(rest)));
    }
    match first {
        b'%' => Some((Kind::Local, 1 + name_front(rest)?)),
        b'@' => Some((Kind::Global, 1 + name_front(rest)?)),
        b'-' => Some((Kind::Number, 1 + digits_front(rest)?)),
        b'#' => Some((Kind::Hash, 1 + digits_front(rest)?)),
        b'"' => Some((Kind::Quoted, 1 + quote_front(rest)?)),
        b'!' => Some((Kind::Bang, 1 + bang_front(rest)?)),
        b'.' => Some((Kind::Word, 1 + ellipsis_front(rest)?)),
        _ if first.is_ascii_digit() => Some((Kind::Number, 1 + digits_len(rest))),
        _ => None,
    }
}

// A name or a number without leading zeros.
#[inline(always)]
pub(crate) fn name_front(bytes: &[u8]) -> Option<usize>
    ensures { MatchOption result (HasNoFront is_name bytes.now) (IsLongestFront is_name bytes.now) }
{
    let (first, rest) = bytes.split_first()?;
    if begins_name(*first) {
        Some(1 + name_len(rest))
    } else if *first == b'0' {
        Some(1)
    } else if first.is_ascii_digit() {
        Some(1 + digits_len(rest))
    } else {
        None
    }
}

// One or more digits.
fn digits_front(bytes: &[u8]) -> Option<usize>
    ensures { MatchOption result (HasNoFront are_digits bytes.now) (IsLongestFront are_digits bytes.now) }
{
    match digits_len(bytes) {
        0 => None,
        len => Some(len),
    }
}

// A name, or digits with or without leading zeros.
fn bang_front(bytes: &[u8]) -> Option<usize>
    ensures { MatchOption result (HasNoFront is_bang_end bytes.now) (IsLongestFront is_bang_end bytes.now) }
{
    let (first, rest) = bytes.split_first()?;
    if first.is_ascii_digit() {
        Some(1 + digits_len(rest))
    } else if begins_name(*first) {
        Some(1 + name_len(rest))
    } else {
        None
    }
}

// All bytes up to a quote, and the quote.
fn quote_front(bytes: &[u8]) -> Option<usize>
    ensures { MatchOption result (HasNoFront ends_quote bytes.now) (IsLongestFront ends_quote bytes.now) }
{
    let len = find(bytes, b'"')?;
    Some(len + 1)
}

// Two dots.
fn ellipsis_front(bytes: &[u8]) -> Option<usize>
    ensures { MatchOption result (HasNoFront is_ellipsis_end bytes.now) (IsLongestFront is_ellipsis_end bytes.now) }
{
    match bytes {
        [b'.', b'.', ..] => Some(2),
        _ => None,
    }
}

// What stands at and after a place.
pub(crate) fn after(bytes: &[u8], place: usize) -> &[u8]
    requires { place ≤ length bytes.now }
    ensures { result.now ≡ drop place bytes.now }
{
    let (_, rest) = bytes.split_at(place);
    rest
}

// What follows the blanks.
pub(crate) fn after_blanks(bytes: &[u8]) -> &[u8]
    ensures { result.now ≡ after_blanks bytes.now }
{
    after(bytes, past_blanks(bytes, 0))
}

// The place of the first byte that is this one.
pub(crate) fn find(bytes: &[u8], byte: u8) -> Option<usize>
    ensures { result ≡ position (λ b. b == byte) bytes.now }
{
    memchr(byte, bytes)
}

// The place of the first byte from `from` on that is no blank.
#[inline(always)]
pub(crate) fn past_blanks(bytes: &[u8], from: usize) -> usize
    requires { from ≤ length bytes.now }
    ensures place { result ≡ past_blanks bytes.now from }
    ensures within { result ≤ length bytes.now }
{
    let mut at = from;
    while at < bytes.len() && is_blank(bytes[at]) {
        at += 1;
    }
    at
}

// How many digits stand first.
fn digits_len(bytes: &[u8]) -> usize
    ensures len { result ≡ prefix_len is_ascii_digit bytes.now }
    ensures within { result ≤ length bytes.now }
{
    bytes.iter().take_while(|b| b.is_ascii_digit()).count()
}

// How many bytes stand first that a word may have after its first.
#[inline(always)]
fn word_len(bytes: &[u8]) -> usize
    ensures len { result ≡ prefix_len in_word bytes.now }
    ensures within { result ≤ length bytes.now }
{
    let mut len = 0;
    let mut rest = bytes;
    // one look at what is left for four bytes
    while let [a, b, c, d, more @ ..] = rest {
        if !is_in_word(*a) {
            return len;
        }
        if !is_in_word(*b) {
            return len + 1;
        }
        if !is_in_word(*c) {
            return len + 2;
        }
        if !is_in_word(*d) {
            return len + 3;
        }
        len += 4;
        rest = more;
    }
    len + word_len_by_one(rest)
}

// The same, where few bytes are left.
fn word_len_by_one(bytes: &[u8]) -> usize
    ensures len { result ≡ prefix_len in_word bytes.now }
    ensures within { result ≤ length bytes.now }
{
    bytes.iter().take_while(|b| is_in_word(**b)).count()
}

// How many bytes stand first that a name may have after its first.
#[inline(always)]
fn name_len(bytes: &[u8]) -> usize
    ensures len { result ≡ prefix_len in_name bytes.now }
    ensures within { result ≤ length bytes.now }
{
    let mut len = 0;
    let mut rest = bytes;
    // one look at what is left for four bytes
    while let [a, b, c, d, more @ ..] = rest {
        if !is_in_name(*a) {
            return len;
        }
        if !is_in_name(*b) {
            return len + 1;
        }
        if !is_in_name(*c) {
            return len + 2;
        }
        if !is_in_name(*d) {
            return len + 3;
        }
        len += 4;
        rest = more;
    }
    len + name_len_by_one(rest)
}

// The same, where few bytes are left.
fn name_len_by_one(bytes: &[u8]) -> usize
    ensures len { result ≡ prefix_len in_name bytes.now }
    ensures within { result ≤ length bytes.now }
{
    bytes.iter().take_while(|b| is_in_name(**b)).count()
}
