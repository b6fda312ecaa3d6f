//! Whether only what reads the same stands for values under a table.

ghost use Rattle.std.specs.Prelude.{◌≡◌, ◌⊎◌, ℕ, ◌+◌, ◌<◌, ◌^◌, true, false, length, IfOk};
ghost use Rattle.std.specs.Bool.{OnTrue};
ghost use Rattle.std.specs.List.{All};
ghost use Rattle.ir_ast.specs.declared.types.Ty.{Ty};
ghost use Rattle.ir_ast.specs.Derived.{Derived};
ghost use Rattle.ir_ast.specs.Faults.TypeClash.{Fits};
ghost use Rattle.ir_ast.specs.Funcs.{instructions_of};
ghost use Rattle.ir_ast.specs.Lists.{has_mark};
ghost use Rattle.ir_ast.specs.Operands.{named};
ghost use Rattle.body_tables.specs.Bodies.{seen_insts};
ghost use Rattle.folded_forms.specs.Folded.{stands_for, stays};
ghost use Rattle.folded_forms.specs.Foldings.{Folds, IsFolding};
ghost use Rattle.fold_tables.specs.Checks.{FoldsAt, DerivedAlike, FitsAt};
ghost use Rattle.fold_tables.specs.Lines.{EachLine, results_of};

use crate::lines::following;
use crate::standing::{chosen, is_root, literal_given, stand_for, stays};
use body_tables::{derived, value_table};
use ir_ast::{Func, Inst, Op, Operand, Ty};
use sp_ids::{Memory, ValueId};
use std::alloc::Global;

/// Whether under the table only what reads the same stands for the values of a function that has these instructions.
pub fn is_folding(
    alloc: Global,
    func: &Func,
    insts: &[&Inst],
    table: &[Operand],
) -> Result<bool, Memory>
    requires { seen_insts insts.now ≡ instructions_of func.now.content.blocks }
    ensures { IfOk result (λ yes. OnTrue yes (IsFolding func.now.content table.now)) }
{
    if !keeps_front(table, func.args().len())
        || !is_closed(table)
        || !folds_each(table, func.args().len(), insts)
    {
        return Ok(false);
    }
    let values = value_table(alloc, func, insts)?;
    if !fit_each(table, values.types.as_slice()) {
        return Ok(false);
    }
    let marks = derived(alloc, func, insts)?;
    Ok(are_derived_alike(table, marks.as_slice()))
}

/// Whether the first so many values stay.
pub(crate) fn keeps_front(table: &[Operand], count: usize) -> bool
    ensures { OnTrue result ((value : ℕ) → value < count → stays table.now value ≡ true) }
{
    for value in 0..count {
        if !stays(table, value) {
            return false;
        }
    }
    true
}

// Whether each operand of the table stands for itself.
fn is_closed(table: &[Operand]) -> bool
    ensures { OnTrue result (All (λ operand. stands_for table.now operand ≡ operand) table.now) }
{
    for operand in table {
        if !is_root(table, *operand) {
            return false;
        }
    }
    true
}

// ---- lines

fn folds_each(table: &[Operand], first: usize, insts: &[&Inst]) -> bool
    requires { first + length insts.now < 2 ^ 32 }
    ensures whole { OnTrue result (length table.now ≡ first + results_of (seen_insts insts.now)) }
    ensures each { OnTrue result (EachLine (FoldsAt table.now) first (seen_insts insts.now)) }
{
    let mut next = first;
    for inst in insts {
        if !folds_at(table, next, inst) {
            return false;
        }
        next = following(next, inst);
    }
    next == table.len()
}

fn folds_at(table: &[Operand], value: usize, inst: &Inst) -> bool
    requires { value < 2 ^ 32 }
    ensures { OnTrue result (FoldsAt table.now value inst.now) }
{
    if inst.result().is_none() || stays(table, value) {
        return true;
    }
    let value = ValueId(value as u32);
    folds(table, value, inst, stand_for(table, Operand::Value(value)))
}

// Whether the operand stands under the table for the result.
fn folds(table: &[Operand], value: ValueId, inst: &Inst, to: Operand) -> bool
    ensures { OnTrue result (Folds table.now value.0 inst.now to) }
{
    match inst.op() {
        Op::Phi => entries_stand(table, value, inst.operands(), to),
        Op::Select => match chosen(table, inst.operands()) {
            Some(operand) => operand.is_same(to),
            None => false,
        },
        _ => match literal_given(table, inst) {
            Some(number) => Operand::Int(number).is_same(to),
            None => false,
        },
    }
}

fn entries_stand(table: &[Operand], value: ValueId, operands: &[Operand], to: Operand) -> bool
    ensures { OnTrue result (All (λ entry. (entry ≡ named value.0) ⊎ (stands_for table.now entry ≡ to)) operands.now) }
{
    for operand in operands {
        if !entry_stands(table, value, *operand, to) {
            return false;
        }
    }
    true
}

fn entry_stands(table: &[Operand], value: ValueId, entry: Operand, to: Operand) -> bool
    ensures { OnTrue result ((entry ≡ named value.0) ⊎ (stands_for table.now entry ≡ to)) }
{
    entry.is_same(Operand::Value(value)) || stand_for(table, entry).is_same(to)
}

// ---- types

fn fit_each(table: &[Operand], types: &[Ty]) -> bool
    ensures { OnTrue result ((value : ℕ) → value < length table.now → FitsAt types.now table.now value) }
{
    for value in 0..table.len() {
        if !fits_at(table, types, value) {
            return false;
        }
    }
    true
}

// Whether what stands for a value has its type.
fn fits_at(table: &[Operand], types: &[Ty], value: usize) -> bool
    ensures { OnTrue result (FitsAt types.now table.now value) }
{
    match (table.get(value), types.get(value)) {
        (Some(operand), Some(ty)) => fits(types, *operand, *ty),
        _ => false,
    }
}

fn fits(types: &[Ty], operand: Operand, ty: Ty) -> bool
    ensures { OnTrue result (Fits types.now operand ty) }
{
    match operand {
        Operand::Value(id) => types.get(id.0 as usize).copied() == Some(ty),
        Operand::Int(number) => match ty {
            Ty::Int(width) => width < 64 && number < 1 << width || width == 64,
            Ty::Void | Ty::Ptr | Ty::Token => false,
        },
        Operand::Null => ty == Ty::Ptr,
        Operand::Fun(_) => ty == Ty::Void,
    }
}

// ---- derived values

// Whether a value for which a marked one stands is marked.
fn are_derived_alike(table: &[Operand], marks: &[bool]) -> bool
    ensures { OnTrue result ((value : ℕ) → value < length table.now → DerivedAlike marks.now table.now value) }
{
    for value in 0..table.len() {
        if !is_derived_alike(table, marks, value) {
            return false;
        }
    }
    true
}

fn is_derived_alike(table: &[Operand], marks: &[bool], value: usize) -> bool
    ensures { OnTrue result (DerivedAlike marks.now table.now value) }
{
    match table.get(value) {
        Some(Operand::Value(id)) => !has_mark(marks, id.0 as usize) || has_mark(marks, value),
        _ => true,
    }
}

pub(crate) fn has_mark(marks: &[bool], value: usize) -> bool
    ensures { result ≡ has_mark marks.now value }
{
    marks.get(value).copied().unwrap_or(false)
}
