//! What an instruction breaks by itself: the order of pointers, and labels of the first block.

ghost use Rattle.std.specs.Prelude.{◌≡◌, ◌+◌, ◌⊎◌, ℕ, IsTrue, ◌↔◌, [], true, unwrap_or, slice_get, length};
ghost use Rattle.ir_ast.specs.Faults.PointerOrder.{is_order, orders_pointers};
ghost use Rattle.ir_ast.specs.Ops.{is_terminator};
ghost use Rattle.ir_verify.specs.Founds.{FoundIn};
ghost use Rattle.ir_verify.specs.FunctionFaults.{LabelAt, EntryFault};
ghost use Rattle.ir_lines.specs.Notes.{Notes};
ghost use Rattle.ir_resolve.specs.Resolved.{part_line};

use ir_ast::{Inst, Op, Pred, Ty};
use ir_lines::best::First;
use sp_ids::BlockId;

fn is_order(pred: Pred) -> bool
    ensures { result ≡ is_order pred }
{
    !matches!(pred, Pred::Eq | Pred::Ne)
}

/// Whether it orders pointers.
pub(crate) fn orders_pointers(inst: &Inst) -> bool
    ensures { result ≡ orders_pointers inst.now.op inst.now.ty }
{
    match (inst.op(), *inst.ty()) {
        (Op::Icmp(pred), Ty::Ptr) => is_order(*pred),
        _ => false,
    }
}

/// The line of an operand or a label, by its number: each case of a `switch` has its own.
pub(crate) fn part_line(line: u32, cases: &[u32], part: usize) -> u32
    ensures { result ≡ part_line line cases.now part }
{
    if part == 0 {
        return line;
    }
    cases.get(part - 1).copied().unwrap_or(line)
}

fn note_labels(line: u32, cases: &[u32], labels: &[BlockId], first: &mut First)
    ensures { Notes first.old.found first.new.found (FoundIn (LabelAt line cases.now) labels.now) }
{
    for (part, label) in labels.iter().enumerate() {
        first.note_if(label.0 == 0, part_line(line, cases, part), 6);
    }
}

/// Notes the labels of a terminator that name the first block.
pub(crate) fn note_entry(line: u32, cases: &[u32], inst: &Inst, first: &mut First)
    ensures { Notes first.old.found first.new.found (EntryFault line cases.now inst.now) }
{
    if inst.op().is_terminator() {
        note_labels(line, cases, inst.labels(), first);
    }
}
