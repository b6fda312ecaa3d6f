//! A place in a line: the tokens from there on.

ghost use Rattle.std.specs.Prelude.{◌≡◌, ◌+◌, ◌++◌, ◌≤◌, ◌<◌, ◌^◌, ◌||◌, ◌⊎◌, List, [], ◌∷◌, length, map, drop, MatchOption, IfSome};
ghost use Rattle.sp_text.specs.Tokens.{tok, bad, over, tokens};
ghost use Rattle.sp_text.specs.TokenAt.{seen_token};
ghost use Rattle.line_parts.specs.Gives.{BeginsWith, is_nil, noted, end_of};

use sp_text::{Line, Token};
use std::marker::Model;

/// A place in a line. Contracts see the tokens from there on, and behind them a note if a limit was passed on the way there.
#[derive(Drop)]
pub struct Cursor<'t, 'a> {
    // The first tokens of the line, of which those from a place on are the next.
    found: &'t [Token<'a>],
    at: usize,
    // What stands behind them in the line.
    rest: &'a [u8],
    // Whether a width or number before this place passed its limit.
    passed: bool,
}

impl<'t, 'a> Model for Cursor<'t, 'a> {
    ghost use Rattle.std.specs.Prelude.{List, length, map, drop, ◌++◌, ◌<◌, ◌^◌};
    ghost use Rattle.sp_text.specs.Tokens.{Tok, tokens};
    ghost use Rattle.sp_text.specs.TokenAt.{seen_token};
    ghost use Rattle.line_parts.specs.Gives.{noted};

    ghost Value = { List Tok };

    ghost view = { λ c. noted c.passed (map seen_token (drop c.at c.found.now) ++ tokens c.rest.now) };

    ghost invariant = { λ c. length (map seen_token (drop c.at c.found.now) ++ tokens c.rest.now) < 2 ^ 63 };
}

// The token at this place, where one stands there.
#[inline(always)]
fn found_at<'a>(found: &[Token<'a>], at: usize) -> Option<Token<'a>>
    ensures token { MatchOption result (drop at found.now ≡ []) (λ token. drop at found.now ≡ token ∷ drop (at + 1) found.now) }
    ensures fits { IfSome result (λ _. at + 1 < 2 ^ 64) }
{
    if at < found.len() {
        Some(found[at])
    } else {
        None
    }
}

// The first token of the bytes, and what follows it. There may be none: the line ends there, or a byte begins no token.
#[inline(always)]
#[tactic(auto, using(crate::proofs::TokenCount::no_bytes))]
fn first_of<'a>(bytes: &'a [u8]) -> Option<(Token<'a>, &'a [u8])>
    ensures { MatchOption result ((tokens bytes.now ≡ []) ⊎ (tokens bytes.now ≡ bad ∷ []))
        (λ found. tokens bytes.now ≡ tok found.0.kind found.0.bytes.now ∷ tokens found.1.now) }
{
    if bytes.is_empty() {
        None
    } else {
        first_found(bytes)
    }
}

// The same, where bytes are left: mostly a line's tokens were all found before.
#[inline(never)]
fn first_found<'a>(bytes: &'a [u8]) -> Option<(Token<'a>, &'a [u8])>
    ensures { MatchOption result ((tokens bytes.now ≡ []) ⊎ (tokens bytes.now ≡ bad ∷ []))
        (λ found. tokens bytes.now ≡ tok found.0.kind found.0.bytes.now ∷ tokens found.1.now) }
{
    let line = Line { number: 0, bytes };
    match line.token_at(0) {
        Ok(Some(token)) => {
            let first = Token {
                kind: token.kind,
                bytes: token.bytes,
            };
            Some((first, &bytes[token.to..]))
        }
        Ok(None) => None,
        Err(_) => None,
    }
}

// Whether no token and no byte that begins none stands there.
#[inline(always)]
#[tactic(auto, using(crate::proofs::TokenCount::no_bytes))]
fn ends(bytes: &[u8]) -> bool
    ensures { result ≡ is_nil (tokens bytes.now) }
{
    if bytes.is_empty() {
        true
    } else {
        says_nothing(bytes)
    }
}

#[inline(never)]
fn says_nothing(bytes: &[u8]) -> bool
    ensures { result ≡ is_nil (tokens bytes.now) }
{
    let line = Line { number: 0, bytes };
    match line.token_at(0) {
        Ok(None) => true,
        Ok(Some(_)) => false,
        Err(_) => false,
    }
}

fn either(first: bool, second: bool) -> bool
    ensures { result ≡ (first || second) }
{
    first || second
}

impl<'t, 'a> Cursor<'t, 'a> {
    /// The first place of a line, of whose tokens the first are these, and the others stand from the place on.
    pub fn of(line: Line<'a>, found: &'t [Token<'a>], from: usize) -> Cursor<'t, 'a>
        requires place { from ≤ length line.bytes.now }
        requires all { tokens line.bytes.now ≡ map seen_token found.now ++ tokens (drop from line.bytes.now) }
        ensures { result ≡ tokens line.entry.bytes.now }
    {
        let (_, rest) = line.bytes.split_at(from);
        Cursor {
            found,
            at: 0,
            rest,
            passed: false,
        }
    }

    /// The next token, which is passed. There may be none: the line ends there, or a byte begins no token.
    #[inline(always)]
    pub fn token(&mut self) -> Option<Token<'a>>
        ensures { MatchOption result ((self.new ≡ self.old) × ((self.old ≡ []) ⊎ ((self.old ≡ bad ∷ []) ⊎ (self.old ≡ over ∷ []))))
            (λ token. self.old ≡ tok token.kind token.bytes.now ∷ self.new) }
    {
        match found_at(self.found, self.at) {
            Some(token) => {
                self.at += 1;
                Some(token)
            }
            None => match first_of(self.rest) {
                Some((token, more)) => {
                    self.rest = more;
                    Some(token)
                }
                None => None,
            },
        }
    }

    /// The next token, which is not passed.
    #[inline(always)]
    pub fn peek(&self) -> Option<Token<'a>>
        ensures { MatchOption result ((self.now ≡ []) ⊎ ((self.now ≡ bad ∷ []) ⊎ (self.now ≡ over ∷ [])))
            (λ token. BeginsWith token.kind token.bytes.now self.now) }
    {
        match found_at(self.found, self.at) {
            Some(token) => Some(token),
            None => match first_of(self.rest) {
                Some((token, _)) => Some(token),
                None => None,
            },
        }
    }

    /// Whether the line ends there, but for a comment, and no limit was passed.
    pub fn is_at_end(&self) -> bool
        ensures { result ≡ is_nil self.now }
    {
        match self.end() {
            Some(passed) => !passed,
            None => false,
        }
    }

    /// Where the line ends there, but for a comment, whether a limit was passed.
    pub fn end(&self) -> Option<bool>
        ensures { result ≡ end_of self.now }
    {
        match found_at(self.found, self.at) {
            Some(_) => None,
            None => {
                if ends(self.rest) {
                    Some(self.passed)
                } else {
                    None
                }
            }
        }
    }

    /// Notes whether a limit was passed.
    #[inline(always)]
    pub fn note(&mut self, passes: bool)
        ensures { self.new ≡ noted passes self.old }
    {
        self.passed = either(self.passed, passes);
    }

    /// Another cursor at the same place.
    #[inline(always)]
    pub fn copied(&self) -> Cursor<'t, 'a>
        ensures same { result ≡ self.now }
        ensures small { length result ≤ 2 ^ 63 }
    {
        Cursor {
            found: self.found,
            at: self.at,
            rest: self.rest,
            passed: self.passed,
        }
    }
}
