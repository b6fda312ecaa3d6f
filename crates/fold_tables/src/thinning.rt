//! Whether a table drops only what is pure, and used by nothing that stays.

ghost use Rattle.std.specs.Prelude.{◌≡◌, ◌+◌, ◌<◌, ◌^◌, length};
ghost use Rattle.std.specs.Bool.{OnTrue};
ghost use Rattle.std.specs.List.{All};
ghost use Rattle.ir_ast.specs.Funcs.{instructions_of};
ghost use Rattle.body_tables.specs.Bodies.{seen_insts};
ghost use Rattle.folded_forms.specs.Foldings.{IsThinning};
ghost use Rattle.fold_tables.specs.Checks.{StaysIn, ThinsAt, UsesStay};
ghost use Rattle.fold_tables.specs.Lines.{EachLine, results_of};

use crate::folding::keeps_front;
use crate::lines::following;
use crate::pure::is_pure;
use crate::standing::stays;
use ir_ast::{Func, Inst, Operand, Ty};

/// Whether the table drops only pure instructions of a function that has these, whose results nothing uses that stays.
pub fn is_thinning(func: &Func, insts: &[&Inst], table: &[Operand]) -> bool
    requires { seen_insts insts.now ≡ instructions_of func.now.content.blocks }
    ensures { OnTrue result (IsThinning func.now.content table.now) }
{
    keeps_front(table, func.args().len()) && thins_each(table, func.args().len(), insts)
}

fn thins_each(table: &[Operand], first: usize, insts: &[&Inst]) -> bool
    requires { first + length insts.now < 2 ^ 32 }
    ensures whole { OnTrue result (length table.now ≡ first + results_of (seen_insts insts.now)) }
    ensures each { OnTrue result (EachLine (ThinsAt table.now) first (seen_insts insts.now)) }
{
    let mut next = first;
    for inst in insts {
        if !thins_at(table, next, inst) {
            return false;
        }
        next = following(next, inst);
    }
    next == table.len()
}

fn thins_at(table: &[Operand], value: usize, inst: &Inst) -> bool
    ensures { OnTrue result (ThinsAt table.now value inst.now) }
{
    if inst.result().is_some() && !stays(table, value) {
        is_pure(inst)
    } else {
        uses_stay(table, inst)
    }
}

fn uses_stay(table: &[Operand], inst: &Inst) -> bool
    ensures { OnTrue result (UsesStay table.now inst.now) }
{
    operands_stay(table, inst.operands()) && entries_stay(table, inst.bundle())
}

fn operands_stay(table: &[Operand], operands: &[Operand]) -> bool
    ensures { OnTrue result (All (StaysIn table.now) operands.now) }
{
    for operand in operands {
        if !stays_in(table, *operand) {
            return false;
        }
    }
    true
}

fn entries_stay(table: &[Operand], entries: &[(Ty, Operand)]) -> bool
    ensures { OnTrue result (All (λ entry. StaysIn table.now entry.1) entries.now) }
{
    for (_ty, operand) in entries {
        if !stays_in(table, *operand) {
            return false;
        }
    }
    true
}

fn stays_in(table: &[Operand], operand: Operand) -> bool
    ensures { OnTrue result (StaysIn table.now operand) }
{
    match operand {
        Operand::Value(id) => stays(table, id.0 as usize),
        Operand::Int(_) | Operand::Null | Operand::Fun(_) => true,
    }
}
