//! The faults of layouts, declarations and heads.

ghost use Rattle.std.specs.Prelude.{◌≡◌, ◌⊎◌, ◌↔◌, ◌&&◌, [], ◌∷◌, IsTrue, map, codes};
ghost use Rattle.std.specs.Option.{option_copied};
ghost use Rattle.std.specs.List.{Contains, list_all};
ghost use Rattle.ir_ast.specs.Lists.{HasFront};
ghost use Rattle.ir_ast.specs.Faults.Reserved.{externals, IsExternalName};
ghost use Rattle.line_parts.specs.Types.{Int, Managed};
ghost use Rattle.line_parts.specs.Seen.{seen_type, seen_argument};
ghost use Rattle.ir_lines.specs.Sections.{types_of};
ghost use Rattle.ir_lines.specs.Types.{same_type, same_types, is_cell};
ghost use Rattle.ir_lines.specs.Externals.{external, externals_of, makers_of, own_externals, own_basics, own_helpers, basics, helpers, gc_new};
ghost use Rattle.ir_lines.specs.Notes.{Notes};
ghost use Rattle.text_resolve.specs.TopFaults.{DeclareFault, DefineFault, OuterFault, OuterFaults};
ghost use Rattle.ir_lines.specs.Views.{said, seen_lines};
ghost use Rattle.ir_lines.specs.Faults.NoStrategy.{is_strategy};
ghost use Rattle.ir_lines.specs.Faults.BadLayout.{are_cells};

use ir_ast::Form;
use ir_lines::best::First;
use ir_lines::literals::{is_cell, same_type};
use ir_lines::names::is_text;
use ir_lines::scope::Top;
use ir_reader::{Argument, NumberedReading, Reading, TypeWord, Width};
use module_build::calls::has_types;

const STRATEGY: &[u8] = b"statepoint-example";

const GC_NEW: &[u8] = b"gc_new.";

const I1: TypeWord = TypeWord::Int(Width { bits: 1 });

const I64: TypeWord = TypeWord::Int(Width { bits: 64 });

fn all_cells(fields: &[TypeWord]) -> bool
    ensures { result ≡ list_all is_cell (map seen_type fields.now) }
{
    for field in fields {
        if !is_cell(*field) {
            return false;
        }
    }
    true
}

fn is_good_layout(fields: &[TypeWord]) -> bool
    ensures { result ≡ are_cells (map seen_type fields.now) }
{
    fields.len() != 0 && all_cells(fields)
}

fn is_helper(name: &[u8]) -> bool
    ensures { IsTrue result ↔ Contains helpers name.now }
{
    is_text(name, b"gc.safepoint_poll") || is_text(name, b"gc_check") || is_text(name, b"gc_same")
}

fn is_of_llvm(name: &[u8]) -> bool
    ensures { IsTrue result ↔ HasFront (codes "llvm.") name.now }
{
    name.starts_with(b"llvm.")
}

// Whether only rewritten modules declare it.
fn is_of_rewritten(name: &[u8]) -> bool
    ensures { IsTrue result ↔ (Contains helpers name.now ⊎ HasFront (codes "llvm.") name.now) }
{
    is_helper(name) || is_of_llvm(name)
}

// Whether no text in this form declares it.
fn is_reserved(form: Form, name: &[u8]) -> bool
    ensures { IsTrue result ↔ ((form ≡ Form.Source) × (Contains helpers name.now ⊎ HasFront (codes "llvm.") name.now)) }
{
    match form {
        Form::Source => is_of_rewritten(name),
        Form::Rewritten => false,
    }
}

fn is_basic(name: &[u8]) -> bool
    ensures { IsTrue result ↔ Contains basics name.now }
{
    is_text(name, b"print_i64") || is_text(name, b"read_i64") || is_text(name, b"task_start")
}

// Whether it is the name of an external whose name is whole.
fn is_whole_name(name: &[u8]) -> bool
    ensures { IsTrue result ↔ Contains externals name.now }
{
    if is_basic(name) {
        return true;
    }
    is_helper(name)
}

fn is_external_name(name: &[u8]) -> bool
    ensures { IsTrue result ↔ IsExternalName name.now }
{
    is_whole_name(name) || has_gc_new(name) || is_of_llvm(name)
}

fn is_type(ty: TypeWord, other: TypeWord) -> bool
    ensures { result ≡ same_type (seen_type ty) (seen_type other) }
{
    same_type(ty, other)
}

// Whether the declaration is the external of this name, with its answer and its parameters.
fn is_same(
    name: &[u8],
    answer: TypeWord,
    parameters: &[Argument],
    due: &[u8],
    gives: TypeWord,
    takes: &[TypeWord],
) -> bool
    ensures { IsTrue result ↔ (external name.now (seen_type answer) (types_of (map seen_argument parameters.now)) ≡ external due.now (seen_type gives) (map seen_type takes.now)) }
{
    if !is_text(name, due) {
        return false;
    }
    if !is_type(answer, gives) {
        return false;
    }
    has_types(parameters, takes)
}

fn has_gc_new(name: &[u8]) -> bool
    ensures { IsTrue result ↔ HasFront (codes "gc_new.") name.now }
{
    name.starts_with(GC_NEW)
}

// Whether the declaration answers and takes what `gc_new` of a layout does.
fn is_gc_new(answer: TypeWord, parameters: &[Argument]) -> bool
    ensures { result ≡ (same_type (seen_type answer) Managed && same_types (types_of (map seen_argument parameters.now)) (Int 64 ∷ [])) }
{
    same_type(answer, TypeWord::Managed) && has_types(parameters, &[I64])
}

// Whether it is one of the externals whose names are whole, with its answer and its parameters.
fn is_own(name: &[u8], answer: TypeWord, parameters: &[Argument]) -> bool
    ensures { IsTrue result ↔ Contains own_externals (external name.now (seen_type answer) (types_of (map seen_argument parameters.now))) }
{
    if is_own_basic(name, answer, parameters) {
        return true;
    }
    is_own_helper(name, answer, parameters)
}

fn is_own_basic(name: &[u8], answer: TypeWord, parameters: &[Argument]) -> bool
    ensures { IsTrue result ↔ Contains own_basics (external name.now (seen_type answer) (types_of (map seen_argument parameters.now))) }
{
    is_same(
        name,
        answer,
        parameters,
        b"print_i64",
        TypeWord::Void,
        &[I64],
    ) || is_same(name, answer, parameters, b"read_i64", I64, &[])
        || is_same(
            name,
            answer,
            parameters,
            b"task_start",
            TypeWord::Void,
            &[TypeWord::Plain, TypeWord::Managed],
        )
}

fn is_own_helper(name: &[u8], answer: TypeWord, parameters: &[Argument]) -> bool
    ensures { IsTrue result ↔ Contains own_helpers (external name.now (seen_type answer) (types_of (map seen_argument parameters.now))) }
{
    is_same(
        name,
        answer,
        parameters,
        b"gc.safepoint_poll",
        TypeWord::Void,
        &[],
    ) || is_same(
        name,
        answer,
        parameters,
        b"gc_check",
        TypeWord::Void,
        &[TypeWord::Managed, TypeWord::Managed, I64],
    ) || is_same(
        name,
        answer,
        parameters,
        b"gc_same",
        I1,
        &[
            TypeWord::Managed,
            TypeWord::Managed,
            TypeWord::Managed,
            TypeWord::Managed,
        ],
    )
}

// Whether the name is that of `gc_new` of a layout.
fn makes_layout(top: &Top, name: &[u8]) -> bool
    ensures { IsTrue result ↔ Contains (map gc_new top.now.layouts) name.now }
{
    match name.strip_prefix(GC_NEW) {
        Some(layout) => top.layouts.has(layout),
        None => false,
    }
}

// Whether it is `gc_new` of a layout, with its answer and its parameters.
fn is_made(top: &Top, answer: TypeWord, name: &[u8], parameters: &[Argument]) -> bool
    ensures { IsTrue result ↔ Contains (makers_of top.now.layouts) (external name.now (seen_type answer) (types_of (map seen_argument parameters.now))) }
{
    if !is_gc_new(answer, parameters) {
        return false;
    }
    makes_layout(top, name)
}

// Whether it is one of the externals, with its answer and its parameters.
fn is_external(top: &Top, answer: TypeWord, name: &[u8], parameters: &[Argument]) -> bool
    ensures { IsTrue result ↔ Contains (externals_of top.now.layouts) (external name.now (seen_type answer) (types_of (map seen_argument parameters.now))) }
{
    if is_made(top, answer, name, parameters) {
        return true;
    }
    is_own(name, answer, parameters)
}

// Notes the faults of a declaration.
fn note_declaration(
    top: &Top,
    form: Form,
    line: u32,
    answer: TypeWord,
    name: &[u8],
    parameters: &[Argument],
    first: &mut First,
)
    ensures { Notes first.old.found first.new.found (λ at code. (at ≡ line)
        × DeclareFault form top.now.functions top.now.layouts (seen_type answer) name.now (map seen_argument parameters.now) code) }
{
    first.note_if(top.functions.has(name), line, 3);
    first.note_if(!is_external(top, answer, name, parameters), line, 12);
    first.note_if(is_reserved(form, name), line, 14);
}

// Notes the faults of a line outside functions.
fn note_line(top: &Top, form: Form, line: &NumberedReading, first: &mut First)
    ensures { Notes first.old.found first.new.found (λ at code. (at ≡ line.now.line)
        × OuterFault form top.now.functions top.now.layouts (said line.now.reading) code) }
{
    match &line.reading {
        Reading::Layout { fields, .. } => {
            first.note_if(!is_good_layout(fields.as_slice()), line.line, 13);
        }
        Reading::Declare {
            answer,
            name,
            parameters,
        } => note_declaration(
            top,
            form,
            line.line,
            *answer,
            name.bytes,
            parameters.as_slice(),
            first,
        ),
        Reading::Define { name, strategy, .. } => note_head(
            line.line, name.bytes, *strategy, first,
        ),
        _ => {}
    }
}

/// Notes the faults of lines outside functions.
pub(crate) fn note_lines(top: &Top, form: Form, lines: &[NumberedReading], first: &mut First)
    ensures { Notes first.old.found first.new.found (OuterFaults form top.now.functions top.now.layouts (seen_lines lines.now)) }
{
    for line in lines {
        note_line(top, form, line, first);
    }
}

fn is_strategy(strategy: Option<&[u8]>) -> bool
    ensures { result ≡ is_strategy (option_copied strategy.entry) }
{
    match strategy {
        Some(name) => is_text(name, STRATEGY),
        None => false,
    }
}

// Notes the faults of the head of a definition.
fn note_head(line: u32, name: &[u8], strategy: Option<&[u8]>, first: &mut First)
    ensures { Notes first.old.found first.new.found (λ at code. (at ≡ line) × DefineFault name.now (option_copied strategy.entry) code) }
{
    first.note_if(!is_strategy(strategy), line, 10);
    first.note_if(is_external_name(name), line, 14);
}
