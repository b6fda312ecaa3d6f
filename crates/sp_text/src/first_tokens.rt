//! The first tokens of a line, as many as there is room for.

ghost use Rattle.std.specs.Prelude.{◌≡◌, ◌++◌, ◌≤◌, ◌⊎◌, length, map, take};
ghost use Rattle.sp_text.specs.TokenAt.{HasNoToken, IsEnd, seen_token};
ghost use Rattle.sp_text.specs.Tokens.{tokens};

use crate::bytes::is_blank;
use crate::fronts::{after_blanks, front};
use crate::tokens::Token;

// Finds the first tokens, as many as there is room for: how many, and what follows them.
#[inline(always)]
pub(crate) fn find_tokens<'a>(bytes: &'a [u8], room: &mut [Token<'a>]) -> (usize, &'a [u8])
    ensures within { result.0 ≤ length room.new }
    ensures end { IsEnd bytes.now result.1.now }
    ensures all { tokens bytes.now ≡ map seen_token (take result.0 room.new) ++ tokens result.1.now }
    ensures full { (result.0 ≡ length room.new) ⊎ HasNoToken result.1.now }
{
    let mut count = 0;
    let mut rest = after_blanks(bytes);
    while let Some((first, behind)) = rest.split_first() {
        if count == room.len() {
            return (count, rest);
        }
        let Some((kind, len)) = front(*first, behind) else {
            if is_blank(*first) {
                rest = behind;
                continue;
            }
            return (count, rest);
        };
        let (bytes, more) = rest.split_at(len);
        room[count] = Token { kind, bytes };
        count += 1;
        rest = past_space(more);
    }
    (count, rest)
}

// What follows one space, or all.
#[inline(always)]
fn past_space(bytes: &[u8]) -> &[u8]
    ensures end { IsEnd bytes.now result.now }
    ensures same { tokens result.now ≡ tokens bytes.now }
{
    match bytes.split_first() {
        Some((b' ', more)) => more,
        _ => bytes,
    }
}
