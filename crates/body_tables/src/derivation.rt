//! Derived pointers that leave (Garbage Collection Safepoints in LLVM, "Base & Derived Pointers").

ghost use Rattle.std.specs.Prelude.{◌≡◌, map, IfOk, Some, take};
ghost use Rattle.std.specs.List.{filter_map, list_any};
ghost use Rattle.std.specs.Option.{option_map, option_to_list};
ghost use Rattle.ir_ast.specs.Operands.{value_in, values_used};
ghost use Rattle.ir_ast.specs.Faults.DerivedEscapes.{values_leaving};
ghost use Rattle.ir_ast.specs.Funcs.{instructions_of};
ghost use Rattle.derived_values.specs.Givens.{given_by, seen_giver};
ghost use Rattle.body_tables.specs.Derivations.{giver_of, MarksDerived};
ghost use Rattle.body_tables.specs.Bodies.{seen_insts};
ghost use Rattle.ir_ast.specs.Lists.{has_mark};

use crate::bodies::givers;
use derived_values::{Giver, Givers, derived_marks};
use ir_ast::{Func, Inst, Op, Operand};
use sp_ids::Memory;
use std::alloc::Global;

// Values by what gives them.
#[derive(Drop)]
struct GivenBy<'a>(&'a [Option<&'a Inst>]);

impl Givers for GivenBy<'_> {
    ghost givers = { λ given. map giver_of (map (option_map (λ inst. inst.now)) given.0.now) };

    fn count(&self) -> usize {
        self.0.len()
    }

    fn giver(&self, value: usize) -> Giver<'_> {
        giver_of(self.0[value])
    }
}

fn giver_of(giver: Option<&Inst>) -> Giver<'_>
    ensures { seen_giver result ≡ giver_of (option_map (λ inst. inst.now) giver.entry) }
{
    match giver {
        Some(inst) => giver_by(inst),
        None => Giver::Other,
    }
}

fn giver_by(inst: &Inst) -> Giver<'_>
    ensures { seen_giver result ≡ given_by inst.now.op (values_used inst.now) }
{
    match inst.op() {
        Op::Gep { .. } => Giver::Step,
        Op::Phi | Op::Select => Giver::Merge(inst.operands(), inst.bundle()),
        _ => Giver::Other,
    }
}

/// For each value of a function that has these instructions whether it is derived.
pub fn derived(alloc: Global, func: &Func, insts: &[&Inst]) -> Result<Vec<bool>, Memory>
    requires { seen_insts insts.now ≡ instructions_of func.now.content.blocks }
    ensures { IfOk result (λ marks. MarksDerived func.now.content marks.items) }
{
    let givers = givers(alloc, func, insts)?;
    let marks = derived_marks(alloc, &GivenBy(givers.as_slice()))?;
    Ok(marks)
}

// ---- what leaves

fn has_mark(marks: &[bool], operand: Operand) -> bool
    ensures { result ≡ list_any (has_mark marks.now) (option_to_list (value_in operand)) }
{
    match operand {
        Operand::Value(value) => marks.get(value.0 as usize).copied().unwrap_or(false),
        Operand::Int(_) | Operand::Null | Operand::Fun(_) => false,
    }
}

fn any_marked(marks: &[bool], operands: &[Operand]) -> bool
    ensures { result ≡ list_any (has_mark marks.now) (filter_map value_in operands.now) }
{
    for operand in operands {
        if has_mark(marks, *operand) {
            return true;
        }
    }
    false
}

fn any_stored(marks: &[bool], operands: &[Operand]) -> bool
    ensures { result ≡ list_any (has_mark marks.now) (filter_map value_in (take 1 operands.now)) }
{
    match operands.first() {
        Some(operand) => has_mark(marks, *operand),
        None => false,
    }
}

/// Whether a marked value is stored, passed or returned.
pub fn lets_out(marks: &[bool], inst: &Inst) -> bool
    ensures { result ≡ list_any (has_mark marks.now) (values_leaving inst.now) }
{
    match inst.op() {
        Op::Store => any_stored(marks, inst.operands()),
        Op::Call { .. } => any_marked(marks, inst.operands()),
        Op::Ret => any_marked(marks, inst.operands()),
        _ => false,
    }
}
