//! The tokens of a line, and where each stands.

ghost use Rattle.std.specs.Prelude.{IsTrue};
ghost use Rattle.sp_text.specs.Tokens.{is_token};

use crate::first_tokens::find_tokens;
use crate::fronts::{after, front, past_blanks};
use crate::lines::Line;
use std::error::Error;
use std::fmt;

/// What a token is.
#[derive(Clone, Copy, Debug, PartialEq, Eq)]
pub enum Kind {
    /// A letter or `_`, then letters, digits, `_` and `.`; also `...`.
    Word,
    /// `%` and a name (LLVM Language Reference, "Identifiers").
    Local,
    /// `@` and a name.
    Global,
    /// An optional `-`, then digits.
    Number,
    /// `"`, bytes other than `"`, `"`.
    Quoted,
    /// `#` and digits.
    Hash,
    /// `!` and a name, or `!` and digits.
    Bang,
    /// One of `( ) { } [ ] , = : *`.
    Punct,
}

/// A token of a line, a slice of the text.
#[derive(Clone, Copy, Debug)]
pub struct Token<'a> {
    pub kind: Kind,
    pub bytes: &'a [u8],
    pub ghost spelled: { IsTrue (is_token kind bytes.now) },
}

/// A token of a line in its place, the longest there.
#[derive(Clone, Copy, Debug)]
pub struct PlacedToken<'a> {
    pub kind: Kind,
    /// The slice `from..to` of the line.
    pub bytes: &'a [u8],
    /// The place of its first byte in the line.
    pub from: usize,
    /// The place after its last byte.
    pub to: usize,
}

/// A byte outside comments and quoted texts that begins no token.
#[derive(Clone, Copy, Debug, PartialEq, Eq)]
pub struct BadByte {
    /// The line's number.
    pub line: u32,
    /// The byte's place in the line.
    pub at: usize,
}

impl fmt::Display for BadByte {
    fn fmt<W: fmt::Write>(&self, f: &mut fmt::Formatter<W>) -> fmt::Result {
        write!(f, "line {}: byte {} begins no token", self.line, self.at)
    }
}

impl Error for BadByte {}

impl<'a> Line<'a> {
    ghost use Rattle.std.specs.Prelude.{◌≡◌, ◌++◌, ◌≤◌, ◌↔◌, ◌⊎◌, length, map, take, drop, IsErr, IfOk, IfErr, IfSome};
    ghost use Rattle.sp_text.specs.TokenAt.{IsFirstToken, BeginsNoToken, HasNoToken, past_blanks, tokens_by, seen_token};
    ghost use Rattle.sp_text.specs.Tokens.{tokens, says_nothing};

    /// The first token at or after `from`: `None` exactly where only blanks or a comment follow, and
    /// [`BadByte`] exactly where the first byte after the blanks begins no token.
    #[inline(always)]
    pub fn token_at(&self, from: usize) -> Result<Option<PlacedToken<'a>>, BadByte>
        requires { from ≤ length self.now.bytes.now }
        ensures remaining { tokens (drop from self.now.bytes.now) ≡ tokens_by self.now.bytes.now result }
        ensures token { IfOk result (λ found. IfSome found (IsFirstToken self.now.bytes.now from)) }
        ensures none { (result ≡ Ok None) ↔ IsTrue (says_nothing (drop from self.now.bytes.now)) }
        ensures bad { IsErr result ↔ BeginsNoToken (drop from self.now.bytes.now) }
        ensures bad_line { IfErr result (λ byte. byte.line ≡ self.now.number) }
        ensures bad_place { IfErr result (λ byte. byte.at ≡ past_blanks self.now.bytes.now from) }
    {
        let bytes = self.bytes;
        let at = past_blanks(bytes, from);
        let Some((first, rest)) = after(bytes, at).split_first() else {
            return Ok(None);
        };
        if *first == b';' {
            return Ok(None);
        }
        match front(*first, rest) {
            Some((kind, len)) => {
                let to = at + len;
                Ok(Some(PlacedToken {
                    kind,
                    bytes: &bytes[at..to],
                    from: at,
                    to,
                }))
            }
            None => Err(BadByte {
                line: self.number,
                at,
            }),
        }
    }

    /// Finds the line's first tokens, as many as there is room for: how many, and the place from which the others follow. Where
    /// room is left, none does.
    #[inline(never)]
    pub fn first_tokens(&self, room: &mut [Token<'a>]) -> (usize, usize)
        ensures within { result.0 ≤ length room.new }
        ensures place { result.1 ≤ length self.now.bytes.now }
        ensures all { tokens self.now.bytes.now ≡ map seen_token (take result.0 room.new) ++ tokens (drop result.1 self.now.bytes.now) }
        ensures full { (result.0 ≡ length room.new) ⊎ HasNoToken (drop result.1 self.now.bytes.now) }
    {
        let (count, rest) = find_tokens(self.bytes, room);
        (count, self.bytes.len() - rest.len())
    }
}
