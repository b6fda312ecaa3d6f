//! Whole lines of a form.

ghost use Rattle.std.specs.Prelude.{◌≡◌, true, false, is_some};
ghost use Rattle.std.specs.Option.{option_map};
ghost use Rattle.sp_text.specs.Names.{seen_name};
ghost use Rattle.line_parts.specs.Gives.{Gives};
ghost use Rattle.line_parts.specs.Seen.{seen_type};
ghost use Rattle.line_forms.specs.Forms.{is_dropped_form, is_operator_form};
ghost use Rattle.line_forms.specs.Seen.{seen, of_form, line_at, behind_operator, opened_at, ended, Reads, dropped_says};

use crate::accesses::{layout_element, load, scalar_element, store, value_call, void_call};
use crate::computing::{binary, cast, compare, convert, phi, select};
use crate::control::{
    branch, case, jump, return_value, return_void, switch, switch_end, unreachable,
};
use crate::forms::{DroppedLine, Form};
use crate::groups::{gc_relocate, gc_result, statepoint};
use crate::heads::{close, declare, define, dropped_line, layout};
use crate::readings::Reading;
use line_parts::{Cursor, Stop, TypeWord};
use sp_text::Name;
use std::alloc::Global;

// What a line of this form says.
#[inline(always)]
fn kept<'a>(cursor: &mut Cursor<'_, 'a>, alloc: Global, form: Form) -> Result<Reading<'a>, Stop>
    requires kept { is_dropped_form form ≡ false }
    requires whole { is_operator_form form ≡ false }
    ensures { Gives seen result cursor.new (line_at form cursor.old) }
{
    match form {
        Form::Layout => layout(cursor, alloc),
        Form::Declare => declare(cursor, alloc),
        Form::Define => define(cursor, alloc),
        Form::Close => close(cursor),
        Form::Store => store(cursor),
        Form::ValueCall => value_call(cursor, alloc),
        Form::VoidCall => void_call(cursor, alloc),
        Form::Jump => jump(cursor),
        Form::Branch => branch(cursor),
        Form::Switch => switch(cursor),
        Form::Case => case(cursor),
        Form::SwitchEnd => switch_end(cursor),
        Form::ReturnVoid => return_void(cursor),
        Form::Return => return_value(cursor),
        Form::Unreachable => unreachable(cursor),
        Form::Statepoint => statepoint(cursor, alloc),
        Form::GcResult => gc_result(cursor),
        Form::GcRelocate => gc_relocate(cursor),
        _ => Err(Stop::NoReading),
    }
}

// What a line of this form says from behind its operator on.
#[inline(always)]
fn operated<'a>(
    cursor: &mut Cursor<'_, 'a>,
    alloc: Global,
    form: Form,
    name: Name<'a>,
) -> Result<Reading<'a>, Stop>
    requires { is_operator_form form ≡ true }
    ensures { Gives seen result cursor.new (behind_operator form name.entry.bytes.now cursor.old) }
{
    match form {
        Form::Binary(op) => binary(cursor, name, op),
        Form::Compare => compare(cursor, name),
        Form::Convert(op) => convert(cursor, name, op),
        Form::Cast(op) => cast(cursor, name, op),
        Form::Select => select(cursor, name),
        Form::Phi => phi(cursor, name, alloc),
        Form::ScalarElement => scalar_element(cursor, name),
        Form::LayoutElement => layout_element(cursor, name),
        Form::Load => load(cursor, name),
        _ => Err(Stop::NoReading),
    }
}

/// What a line of this form says, from where it was opened on ([`opened_form`](crate::opened_form)): `name` is its result, where
/// the cursor stands behind its operator. Behind the form it may go on.
#[inline(always)]
pub fn kept_front<'a>(
    cursor: &mut Cursor<'_, 'a>,
    alloc: Global,
    form: Form,
    name: Option<Name<'a>>,
) -> Result<Reading<'a>, Stop>
    requires kept { is_dropped_form form ≡ false }
    requires opened { is_some (option_map seen_name name) ≡ is_operator_form form }
    ensures { Gives seen result cursor.new (opened_at form (option_map seen_name name.entry) cursor.old) }
{
    match name {
        Some(name) => operated(cursor, alloc, form, name),
        None => kept(cursor, alloc, form),
    }
}

/// Passes a whole line that is dropped, and tells whether it passes a limit. The one thing that it may say is what a function of
/// a statepoint group answers.
pub fn whole_dropped(
    cursor: &mut Cursor,
    which: DroppedLine,
) -> Result<(Option<TypeWord>, bool), Stop>
    ensures { Reads (λ answer. of_form (Form.Dropped which) (dropped_says which (option_map seen_type answer))) result (ended (line_at (Form.Dropped which) cursor.old)) }
{
    let answer = dropped_line(cursor, which)?;
    match cursor.end() {
        Some(passed) => Ok((answer, passed)),
        None => Err(Stop::NoReading),
    }
}
