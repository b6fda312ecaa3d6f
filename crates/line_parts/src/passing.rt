//! What a statepoint passes, and whether its callee may take it.

ghost use Rattle.std.specs.Prelude.{◌≡◌, map, false, true};
ghost use Rattle.std.specs.List.{list_all};
ghost use Rattle.line_parts.specs.Gives.{Gives};
ghost use Rattle.line_parts.specs.Lists.{is_argument_type, listed_at, passed_at};
ghost use Rattle.line_parts.specs.Seen.{seen_type, seen_passed};
ghost use Rattle.line_parts.specs.Groups.{begins_argument, handed_at, is_value_given, takes_own};

use crate::cursor::Cursor;
use crate::faults::Stop;
use crate::marks::takes_closing;
use crate::readings::{AllPassed, Passed, TypeWord};
use line_tokens::is_text;
use smallvec::SmallVec;
use std::alloc::Global;

fn begins_argument(cursor: &Cursor) -> bool
    ensures { result ≡ begins_argument cursor.now }
{
    if !cursor.begins_mark(b",") {
        return false;
    }
    let mut rest = cursor.copied();
    !takes_closing(&mut rest)
}

fn some_handed<'a>(cursor: &mut Cursor<'_, 'a>, alloc: Global) -> Result<AllPassed<'a>, Stop>
    ensures { Gives (λ passed. map seen_passed passed.items) result cursor.new (listed_at (passed_at true) begins_argument cursor.old) }
{
    let mut all = SmallVec::new(alloc);
    loop {
        let passed = cursor.passed(true)?;
        all.push(passed)?;
        if !begins_argument(cursor) {
            return Ok(all);
        }
        cursor.pass_comma();
    }
}

/// The arguments of what a statepoint calls, a comma before each.
#[tactic(auto, unfolding(crate::specs::Groups::handed_at))]
pub fn handed<'a>(cursor: &mut Cursor<'_, 'a>, alloc: Global) -> Result<AllPassed<'a>, Stop>
    ensures { Gives (λ passed. map seen_passed passed.items) result cursor.new (handed_at cursor.old) }
{
    if !begins_argument(cursor) {
        return Ok(SmallVec::new(alloc));
    }
    cursor.pass_comma();
    some_handed(cursor, alloc)
}

fn is_value_type(ty: TypeWord) -> bool
    ensures { result ≡ is_argument_type false (seen_type ty) }
{
    match ty {
        TypeWord::Int(_) => true,
        TypeWord::Managed => true,
        TypeWord::Void => false,
        TypeWord::Plain => false,
    }
}

fn are_value_types(types: &[TypeWord]) -> bool
    ensures { result ≡ list_all (is_argument_type false) (map seen_type types.now) }
{
    for ty in types {
        if !is_value_type(*ty) {
            return false;
        }
    }
    true
}

fn is_value(passed: &Passed) -> bool
    ensures { result ≡ is_value_given (seen_passed passed.now) }
{
    match passed {
        Passed::Function(_) => false,
        Passed::Value(..) => true,
    }
}

fn are_values(passed: &[Passed]) -> bool
    ensures { result ≡ list_all is_value_given (map seen_passed passed.now) }
{
    for one in passed {
        if !is_value(one) {
            return false;
        }
    }
    true
}

/// Whether a function of this name may have these parameters, and take these arguments.
pub fn takes_own(name: &[u8], types: &[TypeWord], passed: &[Passed]) -> bool
    ensures { result ≡ takes_own name.now (map seen_type types.now) (map seen_passed passed.now) }
{
    is_text(name, b"task_start") || (are_value_types(types) && are_values(passed))
}
