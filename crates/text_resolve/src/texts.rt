//! A text resolved.

ghost use Rattle.std.specs.Prelude.{◌≡◌, IfOk, None};
ghost use Rattle.ir_lines.specs.Notes.{Notes};
ghost use Rattle.ir_lines.specs.Views.{seen_lines};
ghost use Rattle.ir_resolve.specs.Resolved.{resolved};
ghost use Rattle.ir_resolve.specs.TextFaults.{HasTextFault};
ghost use Rattle.ir_lines.specs.TextLines.{IsTextLines};

use crate::functions::resolve_functions;
use crate::tops::note_lines;
use case_lines::CaseLines;
use ir_ast::{Form, Module};
use ir_lines::best::First;
use ir_lines::faults::Fault;
use ir_lines::scope::Top;
use ir_reader::Woven;
use module_build::heads::layouts_of;
use sp_ids::Memory;
use std::alloc::Global;

/// A text resolved.
#[derive(Drop)]
pub struct Resolution {
    /// The module that its lines stand for, whatever their faults, with the lines of its instructions.
    pub whole: Module,
    /// Of each function, of each of its instructions, the lines of its cases.
    pub cases: Vec<CaseLines>,
    /// The first of the faults that resolving loses: the least line, and of that the least code.
    pub fault: Option<Fault>,
}

/// Resolves the lines of a text in this form. The lines of a body are let go as soon as its function stands.
pub fn resolve(alloc: Global, form: Form, lines: Woven) -> Result<Resolution, Memory>
    requires { IsTextLines form (seen_lines lines) }
    ensures whole { IfOk result (λ text. text.whole ≡ (resolved form (seen_lines lines.entry)).whole) }
    ensures cases { IfOk result (λ text. text.cases.items ≡ (resolved form (seen_lines lines.entry)).cases) }
    ensures fault { IfOk result (λ text. Notes None text.fault (λ line code. HasTextFault form (seen_lines lines.entry) line code)) }
{
    let (outer, bodies) = lines.into_parts();
    let outer_lines = outer.as_slice();
    let mut first = First::NONE;
    let top = Top::of(alloc, outer_lines, &mut first)?;
    note_lines(&top, form, outer_lines, &mut first);
    let layouts = layouts_of(alloc, outer_lines)?;
    let count = top.functions.list().len();
    let mut funcs = Vec::with_capacity(alloc, count)?;
    let mut cases = Vec::with_capacity(alloc, count)?;
    resolve_functions(
        alloc,
        form,
        &top,
        outer_lines,
        bodies,
        &mut funcs,
        &mut cases,
        &mut first,
    )?;
    Ok(Resolution {
        whole: Module::of(layouts, funcs, form),
        cases,
        fault: first.found,
    })
}
