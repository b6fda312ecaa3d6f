//! Whether nothing foldable and nothing dead is left.

ghost use Rattle.std.specs.Prelude.{◌≡◌, ◌≢◌, ◌⊎◌, ℕ, ◌+◌, ◌<◌, ◌^◌, true, false, length, map, replicate, IfOk};
ghost use Rattle.std.specs.Bool.{OnTrue};
ghost use Rattle.std.specs.List.{Contains};
ghost use Rattle.ir_ast.specs.Funcs.{instructions_of};
ghost use Rattle.ir_ast.specs.Lists.{has_mark};
ghost use Rattle.ir_ast.specs.Operands.{named, values_used};
ghost use Rattle.body_tables.specs.Bodies.{seen_insts};
ghost use Rattle.folded_forms.specs.Foldable.{IsReduced};
ghost use Rattle.fold_tables.specs.Checks.{LeftAt, MarksUsed, UsedByAnother, given};
ghost use Rattle.fold_tables.specs.Lines.{EachLine};

use crate::folding::has_mark;
use crate::lines::following;
use crate::pure::{is_foldable, is_pure};
use ir_ast::{Func, Inst, Operand, Ty};
use sp_ids::{Memory, ValueId};
use std::alloc::Global;

/// Whether a function that has these instructions has no foldable and no dead one.
pub fn is_reduced(alloc: Global, func: &Func, insts: &[&Inst]) -> Result<bool, Memory>
    requires { seen_insts insts.now ≡ instructions_of func.now.content.blocks }
    ensures { IfOk result (λ yes. OnTrue yes (IsReduced func.now.content)) }
{
    let first = func.args().len();
    let marks = used_by_others(alloc, first, insts)?;
    Ok(all_left(marks.as_slice(), first, insts))
}

fn all_left(marks: &[bool], first: usize, insts: &[&Inst]) -> bool
    requires { first + length insts.now < 2 ^ 32 }
    ensures { OnTrue result (EachLine (LeftAt marks.now) first (seen_insts insts.now)) }
{
    let mut next = first;
    for inst in insts {
        if !is_left(marks, next, inst) {
            return false;
        }
        next = following(next, inst);
    }
    true
}

fn is_left(marks: &[bool], value: usize, inst: &Inst) -> bool
    requires { value < 2 ^ 32 }
    ensures { OnTrue result (LeftAt marks.now value inst.now) }
{
    !is_foldable(ValueId(value as u32), inst)
        && (!is_pure(inst) || inst.result().is_some() && has_mark(marks, value))
}

// A mark for each value that another instruction uses than that which gives it.
fn used_by_others(alloc: Global, first: usize, insts: &[&Inst]) -> Result<Vec<bool>, Memory>
    requires { first + length insts.now < 2 ^ 32 }
    ensures { IfOk result (λ marks. MarksUsed first (seen_insts insts.now) marks.items) }
{
    let mut marks = no_marks(alloc, first + insts.len())?;
    mark_each(first, insts, marks.as_mut_slice());
    Ok(marks)
}

fn no_marks(alloc: Global, count: usize) -> Result<Vec<bool>, Memory>
    ensures { IfOk result (λ marks. marks.items ≡ replicate count false) }
{
    Ok(vec![in alloc; false; count]?)
}

fn mark_each(first: usize, insts: &[&Inst], marks: &mut [bool])
    requires { first + length insts.now < 2 ^ 32 }
    ensures { (value : ℕ) → has_mark marks.new value ≡ true → (has_mark marks.old value ≡ true) ⊎ UsedByAnother first (seen_insts insts.now) value }
{
    let mut next = first;
    for inst in insts {
        mark_used(given(next, inst), inst, marks);
        next = following(next, inst);
    }
}

// The value that an instruction gives.
fn given(next: usize, inst: &Inst) -> Option<usize>
    ensures { result ≡ given next inst.now }
{
    if inst.result().is_some() {
        Some(next)
    } else {
        None
    }
}

fn mark_used(own: Option<usize>, inst: &Inst, marks: &mut [bool])
    ensures { (value : ℕ) → has_mark marks.new value ≡ true
        → (has_mark marks.old value ≡ true) ⊎ (Contains (values_used inst.now) value × (own ≢ Some value)) }
{
    mark_operands(own, inst.operands(), marks);
    mark_entries(own, inst.bundle(), marks);
}

fn mark_operands(own: Option<usize>, operands: &[Operand], marks: &mut [bool])
    ensures { (value : ℕ) → has_mark marks.new value ≡ true
        → (has_mark marks.old value ≡ true) ⊎ (Contains operands.now (named value) × (own ≢ Some value)) }
{
    for operand in operands {
        mark(own, *operand, marks);
    }
}

fn mark_entries(own: Option<usize>, entries: &[(Ty, Operand)], marks: &mut [bool])
    ensures { (value : ℕ) → has_mark marks.new value ≡ true
        → (has_mark marks.old value ≡ true) ⊎ (Contains (map (λ entry. entry.1) entries.now) (named value) × (own ≢ Some value)) }
{
    for (_ty, operand) in entries {
        mark(own, *operand, marks);
    }
}

fn mark(own: Option<usize>, operand: Operand, marks: &mut [bool])
    ensures { (value : ℕ) → has_mark marks.new value ≡ true
        → (has_mark marks.old value ≡ true) ⊎ ((operand ≡ named value) × (own ≢ Some value)) }
{
    if let Operand::Value(id) = operand {
        let value = id.0 as usize;
        if own != Some(value) && value < marks.len() {
            marks[value] = true;
        }
    }
}
