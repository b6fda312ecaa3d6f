//! Numbers of a type in lines of statepoint groups, and the end of what a statepoint passes.

ghost use Rattle.std.specs.Prelude.{◌≡◌};
ghost use Rattle.sp_text.specs.Names.{seen_name};
ghost use Rattle.sp_text.specs.Tokens.{tok};
ghost use Rattle.line_tokens.specs.Marks.{stands};
ghost use Rattle.line_tokens.specs.Numbers.{literal_of};
ghost use Rattle.line_parts.specs.Gives.{Gives, Takes, one_at};
ghost use Rattle.line_parts.specs.Parts.{mark_at, word_at};
ghost use Rattle.line_parts.specs.Groups.{number_at, is_zero, zero_at, token_at, closing_at};

use crate::cursor::Cursor;
use crate::faults::Stop;
use line_tokens::{Dropped, Literal, is_mark, is_text, is_word};
use sp_text::{Kind, Name, Token};

fn is_zero(token: &Token) -> bool
    ensures { result ≡ is_zero (tok token.now.kind token.now.bytes.now) }
{
    match token.kind {
        Kind::Number => is_text(token.bytes, b"0"),
        _ => false,
    }
}

// Passes the number 0, if it stands there.
#[tactic(auto, unfolding(crate::specs::Gives::one_at))]
fn takes_zero_number(cursor: &mut Cursor) -> bool
    ensures { Takes result cursor.new (one_at (stands is_zero) cursor.old) }
{
    match cursor.token() {
        Some(token) => is_zero(&token),
        None => false,
    }
}

#[tactic(auto, unfolding(crate::specs::Gives::one_at))]
fn takes_word(cursor: &mut Cursor, text: &[u8]) -> bool
    ensures { Takes result cursor.new (word_at text.now cursor.old) }
{
    match cursor.token() {
        Some(token) => is_word(&token, text),
        None => false,
    }
}

#[tactic(auto, unfolding(crate::specs::Gives::one_at))]
fn takes_mark(cursor: &mut Cursor, text: &[u8]) -> bool
    ensures { Takes result cursor.new (mark_at text.now cursor.old) }
{
    match cursor.token() {
        Some(token) => is_mark(&token, text),
        None => false,
    }
}

// Passes `i32 0`, if it stands there.
#[tactic(auto, unfolding(crate::specs::Groups::zero_at, crate::specs::Gives::after))]
fn takes_zero(cursor: &mut Cursor) -> bool
    ensures { Takes result cursor.new (zero_at cursor.old) }
{
    if !takes_word(cursor, b"i32") {
        return false;
    }
    cursor.skip(Dropped::Groups);
    takes_zero_number(cursor)
}

/// Passes the end of what a statepoint passes, if it stands there.
#[tactic(auto, unfolding(crate::specs::Groups::closing_at, crate::specs::Gives::after))]
pub fn takes_closing(cursor: &mut Cursor) -> bool
    ensures { Takes result cursor.new (closing_at cursor.old) }
{
    if !takes_mark(cursor, b",") {
        return false;
    }
    if !takes_zero(cursor) {
        return false;
    }
    if !takes_mark(cursor, b",") {
        return false;
    }
    if !takes_zero(cursor) {
        return false;
    }
    takes_mark(cursor, b")")
}

/// Passes the end of what a statepoint passes.
pub fn closing(cursor: &mut Cursor) -> Result<(), Stop>
    ensures { Gives (λ _. tt) result cursor.new (closing_at cursor.old) }
{
    if takes_closing(cursor) {
        Ok(())
    } else {
        Err(Stop::NoReading)
    }
}

/// Passes `i32 0`.
pub fn zero(cursor: &mut Cursor) -> Result<(), Stop>
    ensures { Gives (λ _. tt) result cursor.new (zero_at cursor.old) }
{
    if takes_zero(cursor) {
        Ok(())
    } else {
        Err(Stop::NoReading)
    }
}

/// A number of this type.
#[tactic(auto, unfolding(crate::specs::Groups::number_at, crate::specs::Gives::after))]
pub fn number_of(cursor: &mut Cursor, ty: &[u8]) -> Result<Literal, Stop>
    ensures { Gives (λ n. n) result cursor.new (number_at ty.now cursor.old) }
{
    cursor.word(ty)?;
    cursor.skip(Dropped::Groups);
    cursor.number()
}

/// The name of a token.
#[tactic(auto, unfolding(crate::specs::Groups::token_at, crate::specs::Gives::after))]
pub fn token_name<'a>(cursor: &mut Cursor<'_, 'a>) -> Result<Name<'a>, Stop>
    ensures { Gives seen_name result cursor.new (token_at cursor.old) }
{
    cursor.word(b"token")?;
    cursor.skip(Dropped::Groups);
    cursor.local()
}
