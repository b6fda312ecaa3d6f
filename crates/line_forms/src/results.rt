//! The functions that the lines of groups call.

ghost use Rattle.std.specs.Prelude.{◌≡◌};
ghost use Rattle.sp_text.specs.Tokens.{tok};
ghost use Rattle.line_tokens.specs.Families.{statepoint_name, relocate_name};
ghost use Rattle.line_tokens.specs.Marks.{is_global, stands};
ghost use Rattle.line_parts.specs.Gives.{Gives, one_at};
ghost use Rattle.line_parts.specs.Groups.{suffix_of, result_at};
ghost use Rattle.line_parts.specs.Seen.{seen_type};

use line_parts::{Cursor, Stop, TypeWord};
use line_tokens::{global, is_result_of, is_text, relocate_name, statepoint_name};
use sp_text::Token;

fn names_function(token: &Token, name: &[u8]) -> bool
    ensures { result ≡ is_global name.now (tok token.now.kind token.now.bytes.now) }
{
    match global(token) {
        Some(found) => is_text(found.bytes, name),
        None => false,
    }
}

// Passes the function of this name.
#[tactic(auto, unfolding(line_parts::specs::Gives::one_at))]
fn function_named(cursor: &mut Cursor, name: &[u8]) -> Result<(), Stop>
    ensures { Gives (λ _. tt) result cursor.new (one_at (stands (is_global name.now)) cursor.old) }
{
    let Some(token) = cursor.token() else {
        return Err(Stop::NoReading);
    };
    if names_function(&token, name) {
        Ok(())
    } else {
        Err(Stop::NoReading)
    }
}

// The end of a result's name, where a type begins here.
fn suffix<'a>(cursor: &Cursor<'_, 'a>, ty: TypeWord) -> &'a [u8]
    ensures { result.now ≡ suffix_of (seen_type ty) cursor.now }
{
    match ty {
        TypeWord::Managed => b"p1",
        _ => match cursor.peek() {
            Some(token) => token.bytes,
            None => b"",
        },
    }
}

/// The type of a result, and its name behind it.
#[tactic(auto, unfolding(line_parts::specs::Groups::result_at, line_parts::specs::Gives::after))]
pub fn result_type(cursor: &mut Cursor) -> Result<TypeWord, Stop>
    ensures { Gives seen_type result cursor.new (result_at cursor.old) }
{
    let first = cursor.copied();
    let ty = cursor.value_type()?;
    let name = cursor.global()?;
    if is_result_of(suffix(&first, ty), name.bytes) {
        Ok(ty)
    } else {
        Err(Stop::NoReading)
    }
}

/// Passes the name of the statepoint.
pub fn statepoint_function(cursor: &mut Cursor) -> Result<(), Stop>
    ensures { Gives (λ _. tt) result cursor.new (one_at (stands (is_global statepoint_name)) cursor.old) }
{
    function_named(cursor, statepoint_name())
}

/// Passes the name of the relocates.
pub fn relocate_function(cursor: &mut Cursor) -> Result<(), Stop>
    ensures { Gives (λ _. tt) result cursor.new (one_at (stands (is_global relocate_name)) cursor.old) }
{
    function_named(cursor, relocate_name())
}
