//! The parts of declarations of the three families.

ghost use Rattle.std.specs.Prelude.{◌≡◌};
ghost use Rattle.std.specs.Option.{option_map};
ghost use Rattle.sp_text.specs.Tokens.{tok};
ghost use Rattle.line_tokens.specs.Marks.{stands};
ghost use Rattle.line_parts.specs.Gives.{Gives, one_at};
ghost use Rattle.line_parts.specs.Groups.{declares_family, family_answer_at, bracketing_at};
ghost use Rattle.line_parts.specs.Seen.{seen_type};

use line_parts::{Cursor, Stop, TypeWord};
use line_tokens::{global, is_family_name};
use sp_text::Token;

fn declares_family(token: &Token) -> bool
    ensures { result ≡ declares_family (tok token.now.kind token.now.bytes.now) }
{
    match global(token) {
        Some(name) => is_family_name(name.bytes),
        None => false,
    }
}

/// Passes a name of one of the three families.
#[tactic(auto, unfolding(line_parts::specs::Gives::one_at))]
pub fn family_name(cursor: &mut Cursor) -> Result<(), Stop>
    ensures { Gives (λ _. tt) result cursor.new (one_at (stands declares_family) cursor.old) }
{
    let Some(token) = cursor.token() else {
        return Err(Stop::NoReading);
    };
    if declares_family(&token) {
        Ok(())
    } else {
        Err(Stop::NoReading)
    }
}

/// What a function of the three families answers: a type or `void`, or nothing of these where it is `token`.
#[tactic(auto, unfolding(line_parts::specs::Groups::family_answer_at, line_parts::specs::Gives::after))]
pub fn family_answer(cursor: &mut Cursor) -> Result<Option<TypeWord>, Stop>
    ensures { Gives (option_map seen_type) result cursor.new (family_answer_at cursor.old) }
{
    if cursor.begins_word(b"token") {
        cursor.word(b"token")?;
        return Ok(None);
    }
    let answer = cursor.answer_type()?;
    Ok(Some(answer))
}

/// Passes parentheses, with any tokens between them.
#[tactic(auto, unfolding(line_parts::specs::Groups::bracketing_at, line_parts::specs::Gives::after))]
pub fn bracketing(cursor: &mut Cursor) -> Result<(), Stop>
    ensures { Gives (λ _. tt) result cursor.new (bracketing_at cursor.old) }
{
    cursor.mark(b"(")?;
    match cursor.after_bracket() {
        Some(rest) => {
            *cursor = rest;
            Ok(())
        }
        None => Err(Stop::NoReading),
    }
}
