//! The lines of statepoint groups, and the declarations of what they call.
#![tactic(auto, unfolding(crate::specs::Seen::line_at, crate::specs::Forms::fit, crate::specs::Slots::parse, crate::specs::Slots::part, line_parts::specs::Gives::after))]

ghost use Rattle.std.specs.Prelude.{List, [], ◌∷◌, map};
ghost use Rattle.std.specs.Option.{option_map};
ghost use Rattle.sp_text.specs.Tokens.{Tok};
ghost use Rattle.line_parts.specs.Gives.{Gives};
ghost use Rattle.line_parts.specs.Seen.{seen_type, seen_passed, seen_value};
ghost use Rattle.line_forms.specs.Forms.{result_is, calling, first_types, last_types, point_id, callee_type, callee_count, point_end};
ghost use Rattle.line_forms.specs.Seen.{seen, seen_kept, of_form, line_at, dropped_says};
ghost use Rattle.line_forms.specs.Slots.{name, ty, types, literal, handed, bundles, parse};

use crate::bundles::{LiveEntries, bundles_if_any};
use crate::families::{bracketing, family_answer, family_name};
use crate::forms::{DroppedLine, Form};
use crate::kept::Kept;
use crate::readings::{FunctionType, Reading, StatepointCall};
use crate::results::{relocate_function, result_type, statepoint_function};
use line_parts::{
    AllPassed, Cursor, Stop, TypeWord, closing, handed, number_of, parameters, takes_own,
    token_name, zero,
};
use line_tokens::{Dropped, Flags, Literal};
use sp_text::Name;
use std::alloc::Global;

// `%x = call`, before the type of what is called.
fn called_result<'a>(cursor: &mut Cursor<'_, 'a>) -> Result<Name<'a>, Stop>
    ensures { Gives (λ x. name x.bytes.now ∷ []) result cursor.new (parse (result_is (calling [])) cursor.old) }
{
    let result = cursor.local()?;
    cursor.mark(b"=")?;
    cursor.skip(Dropped::Words(Flags::Calling));
    cursor.word(b"call")?;
    cursor.skip(Dropped::Groups);
    Ok(result)
}

// Passes `token (i64, i32, ptr`.
fn first_types(cursor: &mut Cursor) -> Result<(), Stop>
    ensures { Gives (λ _. []) result cursor.new (parse first_types cursor.old) }
{
    cursor.word(b"token")?;
    cursor.mark(b"(")?;
    cursor.word(b"i64")?;
    cursor.mark(b",")?;
    cursor.word(b"i32")?;
    cursor.mark(b",")?;
    cursor.word(b"ptr")?;
    Ok(())
}

// Passes `, i32, i32, ...)`.
fn last_types(cursor: &mut Cursor) -> Result<(), Stop>
    ensures { Gives (λ _. []) result cursor.new (parse last_types cursor.old) }
{
    cursor.mark(b",")?;
    cursor.word(b"i32")?;
    cursor.mark(b",")?;
    cursor.word(b"i32")?;
    cursor.mark(b",")?;
    cursor.word(b"...")?;
    cursor.mark(b")")?;
    Ok(())
}

// The id of a statepoint, behind its name.
fn statepoint_id(cursor: &mut Cursor) -> Result<Literal, Stop>
    ensures { Gives (λ id. literal id ∷ []) result cursor.new (parse point_id cursor.old) }
{
    statepoint_function(cursor)?;
    cursor.mark(b"(")?;
    let id = number_of(cursor, b"i64")?;
    cursor.mark(b",")?;
    zero(cursor)?;
    cursor.mark(b",")?;
    Ok(id)
}

// The type of what a statepoint calls.
fn callee_type(cursor: &mut Cursor, alloc: Global) -> Result<FunctionType, Stop>
    ensures { Gives (λ t. ty (seen_type t.answer) ∷ types (map seen_type t.parameters.items) ∷ []) result cursor.new (parse callee_type cursor.old) }
{
    cursor.word(b"ptr")?;
    cursor.skip(Dropped::BesideElementType);
    cursor.word(b"elementtype")?;
    cursor.mark(b"(")?;
    let answer = cursor.answer_type()?;
    cursor.mark(b"(")?;
    let parameters = parameters(cursor, alloc)?;
    cursor.mark(b")")?;
    cursor.mark(b")")?;
    Ok(FunctionType { answer, parameters })
}

// The name of what a statepoint calls, and how many arguments the line says that there are.
fn callee_count<'a>(cursor: &mut Cursor<'_, 'a>) -> Result<(Name<'a>, Literal), Stop>
    ensures { Gives (λ said. name said.0.bytes.now ∷ literal said.1 ∷ []) result cursor.new (parse callee_count cursor.old) }
{
    cursor.skip(Dropped::BesideElementType);
    let callee = cursor.global()?;
    cursor.mark(b",")?;
    let count = number_of(cursor, b"i32")?;
    cursor.mark(b",")?;
    zero(cursor)?;
    Ok((callee, count))
}

// The arguments and the bundles.
fn point_end<'a>(
    cursor: &mut Cursor<'_, 'a>,
    alloc: Global,
) -> Result<(AllPassed<'a>, (Kept<'a>, LiveEntries<'a>)), Stop>
    ensures { Gives (λ end. handed (map seen_passed end.0.items) ∷ bundles (map seen_kept end.1.0.items) (map seen_value end.1.1.items) ∷ []) result cursor.new (parse point_end cursor.old) }
{
    let passed = handed(cursor, alloc)?;
    closing(cursor)?;
    cursor.skip(Dropped::Groups);
    let both = bundles_if_any(cursor, alloc)?;
    cursor.skip(Dropped::Attachments);
    Ok((passed, both))
}

// A statepoint, whose call is kept apart, so that other readings stay small.
fn boxed<'a>(
    alloc: Global,
    token: Name<'a>,
    call: StatepointCall<'a>,
    entries: LiveEntries<'a>,
) -> Result<Reading<'a>, Stop>
    ensures { (rest : List Tok) → Gives seen result rest (Some (
      of_form Form.Statepoint (name token.entry.bytes.now ∷ literal call.entry.id
          ∷ ty (seen_type call.entry.function_type.answer) ∷ types (map seen_type call.entry.function_type.parameters.items) ∷ name call.entry.callee.bytes.now
          ∷ literal call.entry.count ∷ handed (map seen_passed call.entry.passed.items) ∷ bundles (map seen_kept call.entry.kept.items) (map seen_value entries.entry.items) ∷ []),
      rest,
    )) }
{
    match Box::new(alloc, call) {
        Ok(call) => Ok(Reading::Statepoint {
            result: token,
            call,
            live: entries,
        }),
        Err(_) => Err(Stop::Memory),
    }
}

#[tactic(auto, unfolding(crate::specs::Seen::line_at, crate::specs::Forms::fit, line_parts::specs::Gives::after))]
#[inline(never)]
pub fn statepoint<'a>(cursor: &mut Cursor<'_, 'a>, alloc: Global) -> Result<Reading<'a>, Stop>
    ensures { Gives seen result cursor.new (line_at Form.Statepoint cursor.old) }
{
    let result = called_result(cursor)?;
    first_types(cursor)?;
    last_types(cursor)?;
    let id = statepoint_id(cursor)?;
    let function_type = callee_type(cursor, alloc)?;
    let (callee, count) = callee_count(cursor)?;
    let (passed, (kept, live)) = point_end(cursor, alloc)?;
    if !takes_own(
        callee.bytes,
        function_type.parameters.as_slice(),
        passed.as_slice(),
    ) {
        return Err(Stop::NoReading);
    }
    let call = StatepointCall {
        id,
        function_type,
        callee,
        count,
        passed,
        kept,
    };
    boxed(alloc, result, call, live)
}

#[inline(never)]
pub fn gc_result<'a>(cursor: &mut Cursor<'_, 'a>) -> Result<Reading<'a>, Stop>
    ensures { Gives seen result cursor.new (line_at Form.GcResult cursor.old) }
{
    let result = cursor.local()?;
    cursor.mark(b"=")?;
    cursor.skip(Dropped::Words(Flags::Calling));
    cursor.word(b"call")?;
    cursor.skip(Dropped::Groups);
    let answer = result_type(cursor)?;
    cursor.mark(b"(")?;
    let token = token_name(cursor)?;
    cursor.mark(b")")?;
    cursor.skip(Dropped::Groups);
    cursor.skip(Dropped::Attachments);
    Ok(Reading::GcResult {
        result,
        answer,
        token,
    })
}

#[inline(never)]
pub fn gc_relocate<'a>(cursor: &mut Cursor<'_, 'a>) -> Result<Reading<'a>, Stop>
    ensures { Gives seen result cursor.new (line_at Form.GcRelocate cursor.old) }
{
    let result = cursor.local()?;
    cursor.mark(b"=")?;
    cursor.skip(Dropped::Words(Flags::Calling));
    cursor.word(b"call")?;
    cursor.skip(Dropped::Groups);
    cursor.managed()?;
    relocate_function(cursor)?;
    cursor.mark(b"(")?;
    let token = token_name(cursor)?;
    cursor.mark(b",")?;
    let base = number_of(cursor, b"i32")?;
    cursor.mark(b",")?;
    let derived = number_of(cursor, b"i32")?;
    cursor.mark(b")")?;
    cursor.skip(Dropped::Groups);
    cursor.skip(Dropped::Attachments);
    Ok(Reading::GcRelocate {
        result,
        token,
        base,
        derived,
    })
}

// What the declared function answers, unless it is a token.
pub fn family_declaration(cursor: &mut Cursor) -> Result<Option<TypeWord>, Stop>
    ensures { Gives (λ answer. of_form (Form.Dropped DroppedLine.Family) (dropped_says DroppedLine.Family (option_map seen_type answer))) result cursor.new (line_at (Form.Dropped DroppedLine.Family) cursor.old) }
{
    cursor.word(b"declare")?;
    cursor.skip(Dropped::HeadAttachments);
    cursor.skip(Dropped::Groups);
    let answer = family_answer(cursor)?;
    family_name(cursor)?;
    bracketing(cursor)?;
    cursor.skip(Dropped::Groups);
    Ok(answer)
}
