//! Whether the calls of a line fit the heads of what they call.

ghost use Rattle.std.specs.Prelude.{◌≡◌, ◌||◌, ◌&&◌, ◌∷◌, codes, not, map, filter_map, option_map, slice_get};
ghost use Rattle.std.specs.Option.{option_and_then};
ghost use Rattle.std.specs.Str.{bytes_eq};
ghost use Rattle.line_parts.specs.Types.{Int};
ghost use Rattle.line_parts.specs.Seen.{seen_type, seen_argument, seen_passed, seen_value};
ghost use Rattle.module_build.specs.Lost.{tables_in, is_missing, after_names, after_named, after_spelling, starts_at, task_starts, operands_fit, call_fits, statepoint_fits};
ghost use Rattle.ir_lines.specs.Modules.{passed_type};
ghost use Rattle.ir_lines.specs.Parts.{passed_function};
ghost use Rattle.ir_lines.specs.Sections.{types_of};
ghost use Rattle.ir_lines.specs.Tables.{seen_head};
ghost use Rattle.ir_lines.specs.Types.{same_type, same_types, literal_fits};
ghost use Rattle.ir_lines.specs.Faults.TypeClash.{is_task, is_kind, gives_kind, checks_kind, agrees, takes_types};
ghost use Rattle.ir_lines.specs.TextForms.{is_source};
ghost use Rattle.ir_lines.specs.Views.{seen_guarded};

use crate::lost::Lost;
use crate::scope::Scope;
use ir_ast::{Cell, Form};
use ir_lines::literals::{is_within, same_type, wrapped};
use ir_lines::names::{Names, is_text};
use ir_lines::operands::passed_type;
use ir_lines::scope::{Head, Top};
use ir_reader::{Argument, Passed, StatepointCall, TypeWord, Value};

// Whether a name is unknown behind the functions that are passed.
fn unknown_behind(names: &Names, passed: &[Passed], unknown: bool) -> bool
    ensures { result ≡ after_names names.now unknown (filter_map passed_function (map seen_passed passed.now)) }
{
    let mut unknown = unknown;
    for one in passed {
        unknown = is_unknown(names, one) || unknown;
    }
    unknown
}

// Whether it is a function that there isn't.
fn is_unknown(names: &Names, one: &Passed) -> bool
    ensures { result ≡ is_missing names.now (passed_function (seen_passed one.now)) }
{
    match one {
        Passed::Value(_, _) => false,
        Passed::Function(name) => names.find(name.bytes).is_none(),
    }
}

// ---- types

/// Whether the parameters have these types.
pub fn has_types(parameters: &[Argument], types: &[TypeWord]) -> bool
    ensures { result ≡ same_types (types_of (map seen_argument parameters.now)) (map seen_type types.now) }
{
    if parameters.len() != types.len() {
        return false;
    }
    for (parameter, ty) in parameters.iter().zip(types.iter()) {
        if !same_type(parameter.ty, *ty) {
            return false;
        }
    }
    true
}

// Whether what is passed has the types of the parameters.
fn same_types(passed: &[Passed], parameters: &[Argument]) -> bool
    ensures { result ≡ same_types (map passed_type (map seen_passed passed.now)) (types_of (map seen_argument parameters.now)) }
{
    if passed.len() != parameters.len() {
        return false;
    }
    for (i, one) in passed.iter().enumerate() {
        if !same_type(passed_type(one), parameters[i].ty) {
            return false;
        }
    }
    true
}

// Whether a task can start there.
fn is_task(head: Option<&Head>) -> bool
    ensures { result ≡ is_task (option_map (λ one. seen_head one.now) head.entry) }
{
    match head {
        Some(head) => {
            head.defined
                && same_type(head.answer, TypeWord::Void)
                && has_types(head.parameters, &[TypeWord::Managed])
        }
        None => false,
    }
}

// Whether a call has the types of what the head of its callee says.
fn agrees(answer: TypeWord, passed: &[Passed], head: Option<&Head>) -> bool
    ensures { result ≡ agrees (seen_type answer) (map seen_passed passed.now) (option_map (λ one. seen_head one.now) head.entry) }
{
    match head {
        Some(head) => same_type(answer, head.answer) && same_types(passed, head.parameters),
        None => true,
    }
}

// Whether these are the types of the head's parameters.
fn takes_types(types: &[TypeWord], head: Option<&Head>) -> bool
    ensures { result ≡ takes_types (map seen_type types.now) (option_map (λ one. seen_head one.now) head.entry) }
{
    match head {
        Some(head) => are_types_of(types, head.parameters),
        None => true,
    }
}

fn are_types_of(types: &[TypeWord], parameters: &[Argument]) -> bool
    ensures { result ≡ same_types (map seen_type types.now) (types_of (map seen_argument parameters.now)) }
{
    if types.len() != parameters.len() {
        return false;
    }
    for (i, ty) in types.iter().enumerate() {
        if !same_type(*ty, parameters[i].ty) {
            return false;
        }
    }
    true
}

// Whether it is a literal that is the kind of a cell.
fn is_kind(value: &Value) -> bool
    ensures { result ≡ is_kind (seen_value value.now) }
{
    match value {
        Value::Number(literal) => Cell::is_kind(wrapped(64, *literal)),
        _ => false,
    }
}

fn gives_kind(passed: &Passed) -> bool
    ensures { result ≡ gives_kind (seen_passed passed.now) }
{
    match passed {
        Passed::Value(_, value) => is_kind(value),
        Passed::Function(_) => false,
    }
}

// Whether the third operand is the kind of a cell, where it is passed.
fn checks_kind(passed: &[Passed]) -> bool
    ensures { result ≡ checks_kind (map seen_passed passed.now) }
{
    match passed {
        [_, _, kind, ..] => gives_kind(kind),
        [] | [_] | [_, _] => true,
    }
}

// ---- in scope

// What the head at a place says.
fn head_at<'s, 't, 'a>(top: &'s Top<'t, 'a>, place: Option<usize>) -> Option<&'s Head<'t, 'a>>
    ensures { option_map (λ one. seen_head one.now) result ≡ option_and_then (slice_get (map seen_head top.now.head_list.items)) place }
{
    let place = place?;
    top.head_list.get(place)
}

impl Scope<'_, '_, '_, '_> {
    fn starts_at(&self, passed: &Passed) -> bool
        ensures { result ≡ starts_at (tables_in self.now) (seen_passed passed.now) }
    {
        match passed {
            Passed::Value(_, _) => false,
            Passed::Function(name) => is_task(self.top.head(name.bytes)),
        }
    }

    fn starts_task(&self, passed: &[Passed]) -> bool
        ensures { result ≡ task_starts (tables_in self.now) (map seen_passed passed.now) }
    {
        match passed {
            [one, ..] => self.starts_at(one),
            [] => true,
        }
    }

    fn kind_fits(&self, callee: &[u8], passed: &[Passed]) -> bool
        ensures { result ≡ (is_source self.now.form || not (bytes_eq callee.now (codes "gc_check")) || checks_kind (map seen_passed passed.now)) }
    {
        match self.form {
            Form::Source => true,
            Form::Rewritten => !is_text(callee, b"gc_check") || checks_kind(passed),
        }
    }

    fn task_fits(&self, callee: &[u8], passed: &[Passed]) -> bool
        ensures { result ≡ (not (bytes_eq callee.now (codes "task_start")) || task_starts (tables_in self.now) (map seen_passed passed.now)) }
    {
        !is_text(callee, b"task_start") || self.starts_task(passed)
    }

    // What two of the externals ask of their operands.
    fn takes_operands(&self, callee: &[u8], passed: &[Passed]) -> bool
        ensures { result ≡ operands_fit self.now.form (tables_in self.now) callee.now (map seen_passed passed.now) }
    {
        self.task_fits(callee, passed) && self.kind_fits(callee, passed)
    }

    // Whether a call has the types of what this head says, which is the first of its callee.
    fn call_agrees(
        &self,
        head: Option<&Head>,
        answer: TypeWord,
        callee: &[u8],
        passed: &[Passed],
    ) -> bool
        ensures { result ≡ (agrees (seen_type answer) (map seen_passed passed.now) (option_map (λ one. seen_head one.now) head.entry)
            && operands_fit self.now.form (tables_in self.now) callee.now (map seen_passed passed.now)) }
    {
        agrees(answer, passed, head) && self.takes_operands(callee, passed)
    }

    /// Notes what a call loses by what it calls and passes, and by its types.
    pub(crate) fn note_call(
        &self,
        answer: TypeWord,
        callee: &[u8],
        passed: &[Passed],
        lost: &mut Lost,
    )
        ensures { lost.new ≡ after_spelling (not (call_fits self.now.form (tables_in self.now) (seen_type answer) callee.now (map seen_passed passed.now)))
            (after_named self.now.top.now.heads (callee.now ∷ filter_map passed_function (map seen_passed passed.now)) lost.old) }
    {
        let heads = &self.top.heads;
        let place = heads.find(callee);
        lost.unknown = unknown_behind(heads, passed, place.is_none() || lost.unknown);
        let head = head_at(self.top, place);
        lost.misspelled = !self.call_agrees(head, answer, callee, passed) || lost.misspelled;
    }

    // Whether a statepoint fits this head, which is the first of its callee: as a call, by the type of the callee that
    // it spells, and with a number of arguments of `i32`.
    fn statepoint_agrees(&self, head: Option<&Head>, call: &StatepointCall) -> bool
        ensures { result ≡ (agrees (seen_guarded call.now).signature.answer (seen_guarded call.now).passed (option_map (λ one. seen_head one.now) head.entry)
            && operands_fit self.now.form (tables_in self.now) (seen_guarded call.now).callee (seen_guarded call.now).passed
            && (takes_types (seen_guarded call.now).signature.parameters (option_map (λ one. seen_head one.now) head.entry)
            && literal_fits (Int 32) (seen_guarded call.now).count)) }
    {
        self.call_agrees(
            head,
            call.function_type.answer,
            call.callee.bytes,
            call.passed.as_slice(),
        ) && spells_type(head, call)
    }

    /// The same of a statepoint.
    pub(crate) fn note_statepoint(&self, call: &StatepointCall, lost: &mut Lost)
        ensures { lost.new ≡ after_spelling (not (statepoint_fits self.now.form (tables_in self.now) (seen_guarded call.now)))
            (after_named self.now.top.now.heads ((seen_guarded call.now).callee ∷ filter_map passed_function (seen_guarded call.now).passed) lost.old) }
    {
        let heads = &self.top.heads;
        let place = heads.find(call.callee.bytes);
        lost.unknown = unknown_behind(
            heads,
            call.passed.as_slice(),
            place.is_none() || lost.unknown,
        );
        let head = head_at(self.top, place);
        lost.misspelled = !self.statepoint_agrees(head, call) || lost.misspelled;
    }
}

// What a statepoint asks besides the call: the callee's type, and a number of arguments of `i32`.
fn spells_type(head: Option<&Head>, call: &StatepointCall) -> bool
    ensures { result ≡ (takes_types (seen_guarded call.now).signature.parameters (option_map (λ one. seen_head one.now) head.entry)
        && literal_fits (Int 32) (seen_guarded call.now).count) }
{
    takes_types(call.function_type.parameters.as_slice(), head) && is_within(32, call.count)
}
