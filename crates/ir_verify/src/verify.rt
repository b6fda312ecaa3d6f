//! The first rule that a module breaks: the order of the passes.

ghost use Rattle.std.specs.Prelude.{◌≡◌, ◌<◌, ◌^◌, [], false, length, IsTrue, IfOk, OnOk, map, slice_get, unwrap_or};
ghost use Rattle.ir_ast.specs.Faults.PointerOrder.{orders_pointers};
ghost use Rattle.ir_ast.specs.Funcs.{instructions_of};
ghost use Rattle.ir_ast.specs.Ops.{is_terminator};
ghost use Rattle.ir_ast.specs.Scope.{scope_of};
ghost use Rattle.ir_ast.specs.Values.{value_types};
ghost use Rattle.ir_verify.specs.Bodies.{insts_of};
ghost use Rattle.body_tables.specs.Bodies.{seen_insts, any_step};
ghost use Rattle.ir_verify.specs.Founds.{FoundIn};
ghost use Rattle.ir_verify.specs.FunctionFaults.{InstFault, LineFaultAt, EscapeAt, FormFault, FunctionFault, FunctionAt};
ghost use Rattle.ir_resolve.specs.ModuleFaults.{HasModuleFault, IsTypedBesidesCalls};
ghost use Rattle.ir_lines.specs.Notes.{Notes};
ghost use Rattle.ir_resolve.specs.Resolved.{cases_at};

use crate::cases::note_cases;
use crate::groups::note_shapes;
use crate::insts::{note_entry, orders_pointers};
use crate::mains::has_main;
use crate::phis::note_phis;
use crate::types::is_typed;
use body_tables::{derived, instructions, lets_out, value_table};
use case_lines::CaseLines;
use ir_ast::{Form, Func, Inst, Module, Ty};
use ir_lines::best::First;
use ir_lines::faults::Fault;
use sp_ids::Memory;
use std::alloc::Global;

// The lines of the cases of an instruction of a function.
fn cases_at(cases: &[CaseLines], number: usize, place: usize) -> &[u32]
    ensures { result.now ≡ cases_at cases.now number place }
{
    match cases.get(number) {
        Some(rows) => rows.row(place),
        None => &[],
    }
}

// Notes what an instruction breaks by itself.
fn note_inst(
    alloc: Global,
    module: &Module,
    func: &Func,
    types: &[Ty],
    line: u32,
    cases: &[u32],
    inst: &Inst,
    first: &mut First,
) -> Result<(), Memory>
    requires { types.now ≡ value_types func.now.content }
    ensures { OnOk result (Notes first.old.found first.new.found (InstFault «module».now.content func.now.content line cases.now inst.now)) }
{
    first.note_if(!is_typed(module, func, types, inst), line, 5);
    first.note_if(orders_pointers(inst), line, 15);
    note_cases(alloc, line, cases, inst, first)?;
    note_entry(line, cases, inst, first);
    Ok(())
}

// Whether an instruction that ends no block breaks nothing by itself, as most.
fn is_sound(module: &Module, func: &Func, types: &[Ty], inst: &Inst) -> bool
    requires { types.now ≡ value_types func.now.content }
    ensures inside { IsTrue result → is_terminator inst.now.op ≡ false }
    ensures unordered { IsTrue result → orders_pointers inst.now.op inst.now.ty ≡ false }
    ensures typed { IsTrue result → IsTypedBesidesCalls (scope_of «module».now.content func.now.content) inst.now }
{
    !inst.op().is_terminator() && !orders_pointers(inst) && is_typed(module, func, types, inst)
}

// Notes what the instruction at a place of a function with this number breaks by itself. Its line is looked up only for
// an instruction that may break something.
fn note_line(
    alloc: Global,
    module: &Module,
    cases: &[CaseLines],
    number: usize,
    func: &Func,
    types: &[Ty],
    place: usize,
    inst: &Inst,
    first: &mut First,
) -> Result<(), Memory>
    requires types { types.now ≡ value_types func.now.content }
    requires few { place < 2 ^ 30 }
    ensures { OnOk result (Notes first.old.found first.new.found
        (LineFaultAt «module».now.content func.now (unwrap_or (slice_get cases.now number) []) place inst.now)) }
{
    if is_sound(module, func, types, inst) {
        return Ok(());
    }
    let line = func.line_of(place as u32);
    let rows = cases_at(cases, number, place);
    note_inst(alloc, module, func, types, line, rows, inst, first)
}

// Notes what the instructions of a function with this number break by themselves.
fn note_lines(
    alloc: Global,
    module: &Module,
    cases: &[CaseLines],
    number: usize,
    func: &Func,
    insts: &[&Inst],
    types: &[Ty],
    first: &mut First,
) -> Result<(), Memory>
    requires insts { seen_insts insts.now ≡ instructions_of func.now.content.blocks }
    requires types { types.now ≡ value_types func.now.content }
    requires few { length (instructions_of func.now.content.blocks) < 2 ^ 30 }
    ensures { OnOk result (Notes first.old.found first.new.found
        (FoundIn (LineFaultAt «module».now.content func.now (unwrap_or (slice_get cases.now number) [])) (insts_of func.now))) }
{
    for (place, inst) in insts.iter().enumerate() {
        note_line(
            alloc, module, cases, number, func, types, place, inst, first,
        )?;
    }
    Ok(())
}

// Notes the instructions by which derived values leave.
fn note_escapes(
    alloc: Global,
    func: &Func,
    insts: &[&Inst],
    has_step: bool,
    first: &mut First,
) -> Result<(), Memory>
    requires insts { seen_insts insts.now ≡ instructions_of func.now.content.blocks }
    requires steps { has_step ≡ any_step (instructions_of func.now.content.blocks) }
    requires few { length (instructions_of func.now.content.blocks) < 2 ^ 30 }
    ensures { OnOk result (Notes first.old.found first.new.found (FoundIn (EscapeAt func.now) (insts_of func.now))) }
{
    if !has_step {
        return Ok(());
    }
    let marks = derived(alloc, func, insts)?;
    for (place, inst) in insts.iter().enumerate() {
        first.note_if(
            lets_out(marks.as_slice(), inst),
            func.line_of(place as u32),
            9,
        );
    }
    Ok(())
}

// Notes what only one of the two forms asks.
fn note_by_form(
    alloc: Global,
    form: Form,
    func: &Func,
    insts: &[&Inst],
    types: &[Ty],
    has_step: bool,
    first: &mut First,
) -> Result<(), Memory>
    requires insts { seen_insts insts.now ≡ instructions_of func.now.content.blocks }
    requires types { types.now ≡ value_types func.now.content }
    requires steps { has_step ≡ any_step (instructions_of func.now.content.blocks) }
    requires few { length (instructions_of func.now.content.blocks) < 2 ^ 30 }
    ensures { OnOk result (Notes first.old.found first.new.found (FormFault form func.now)) }
{
    match form {
        Form::Source => note_escapes(alloc, func, insts, has_step, first),
        Form::Rewritten => {
            note_shapes(func, insts, types, first);
            Ok(())
        }
    }
}

// Notes what the function with this number breaks.
fn note_function(
    alloc: Global,
    module: &Module,
    cases: &[CaseLines],
    number: usize,
    func: &Func,
    first: &mut First,
) -> Result<(), Memory>
    ensures { OnOk result (Notes first.old.found first.new.found (FunctionAt «module».now.content cases.now number func.now)) }
{
    let insts = instructions(alloc, func)?;
    let insts = insts.as_slice();
    let values = value_table(alloc, func, insts)?;
    let types = values.types.as_slice();
    note_lines(alloc, module, cases, number, func, insts, types, first)?;
    note_phis(alloc, func, values.has_phi, first)?;
    note_by_form(
        alloc,
        module.form(),
        func,
        insts,
        types,
        values.has_step,
        first,
    )
}

fn note_functions(
    alloc: Global,
    module: &Module,
    cases: &[CaseLines],
    funcs: &[Func],
    first: &mut First,
) -> Result<(), Memory>
    ensures { OnOk result (Notes first.old.found first.new.found (FoundIn (FunctionAt «module».now.content cases.now) funcs.now)) }
{
    for (number, func) in funcs.iter().enumerate() {
        note_function(alloc, module, cases, number, func, first)?;
    }
    Ok(())
}

/// The first fault among those of a module and one that was noted before: the least line, and of that the least
/// code. `cases` has the lines of the cases of each `switch`, function by function.
pub fn first_broken(
    alloc: Global,
    module: &Module,
    cases: &[CaseLines],
    noted: Option<Fault>,
) -> Result<Option<Fault>, Memory>
    ensures { IfOk result (λ found. Notes noted found (λ line code.
        HasModuleFault (record { whole = «module».now; cases = cases.now }) line code)) }
{
    let mut first = First { found: noted };
    first.note_if(!has_main(module), 0, 11);
    note_functions(alloc, module, cases, module.funcs(), &mut first)?;
    Ok(first.found)
}
