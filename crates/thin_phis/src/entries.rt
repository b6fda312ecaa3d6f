//! Entries of phis, taken in the order of the text, and those that are left where phis go.

ghost use Rattle.std.specs.Prelude.{◌≡◌, ◌++◌, ◌∷◌, [], ◌≤◌, length, map, take, drop, IfOk};
ghost use Rattle.std.specs.List.{flat_map};
ghost use Rattle.ir_cfg.specs.Graphs.{graph_of};
ghost use Rattle.ssa_rebuild.specs.Answers.{number_of};
ghost use Rattle.ssa_rebuild.specs.Rows.{use_numbers};
ghost use Rattle.thin_phis.specs.Thinned.{number_now};
ghost use Rattle.thin_phis.specs.Runs.{entry_count, phis_over, behind_phis, entries_over, behind_entries, phi_left, entries_left};

use crate::numbers::Renumbering;
use crate::rows::{inserted, number_of};
use ir_ast::{Func, Inst, Op, Operand};
use ir_cfg::Cfg;
use sp_ids::{BlockId, Memory, ValueId};
use std::alloc::Global;
use std::marker::Model;
use version_walk::Packed;

/// The entries of phis that are still to be taken. Contracts see the list of their numbers.
#[derive(Drop)]
pub(crate) struct Entries<'a> {
    numbers: &'a [u32],
}

impl<'a> Model for Entries<'a> {
    ghost use Rattle.std.specs.Prelude.{ℕ, List};

    ghost Value = { List ℕ };

    ghost view = { λ entries. entries.numbers.now };
}

impl<'a> Entries<'a> {
    /// All of these.
    pub(crate) fn of(numbers: &'a [u32]) -> Entries<'a>
        ensures { result ≡ numbers.now }
    {
        Entries { numbers }
    }

    /// Takes so many, or all where fewer are left.
    pub(crate) fn next_ones(&mut self, count: usize) -> &'a [u32]
        ensures taken { result.now ≡ take count self.old }
        ensures rest { self.new ≡ drop count self.old }
    {
        let numbers = self.numbers;
        let place = count.min(numbers.len());
        self.numbers = &numbers[place..];
        &numbers[..place]
    }
}

/// How many entries of a line take a version: those of a phi that have a label, and are values.
pub(crate) fn entry_count(inst: &Inst) -> usize
    ensures { result ≡ entry_count inst.now }
{
    if matches!(inst.op(), Op::Phi) {
        value_count(labeled(inst.operands(), inst.labels().len()))
    } else {
        0
    }
}

fn labeled(operands: &[Operand], labels: usize) -> &[Operand]
    ensures { result.now ≡ take labels operands.now }
{
    &operands[..labels.min(operands.len())]
}

fn value_count(operands: &[Operand]) -> usize
    ensures { result ≡ length (use_numbers (λ v. 0) operands.now) }
{
    let mut count = 0;
    for operand in operands {
        count += value_in(*operand);
    }
    count
}

fn value_in(operand: Operand) -> usize
    ensures count { result ≡ length (use_numbers (λ v. 0) (operand ∷ [])) }
    ensures one { result ≤ 1 }
{
    match operand {
        Operand::Value(_) => 1,
        Operand::Int(_) | Operand::Null | Operand::Fun(_) => 0,
    }
}

/// The numbers of the entries that are left, in the order of the text, all numbers new.
pub(crate) fn thin_entries(
    alloc: Global,
    func: &Func,
    cfg: &Cfg,
    joins: &[Vec<ValueId>],
    rows: &[Vec<Packed>],
    entries: &[u32],
    numbers: &Renumbering,
) -> Result<Vec<u32>, Memory>
    requires { cfg.now ≡ graph_of func.now.content }
    ensures { IfOk result (λ after. after.items ≡ entries_left joins.now rows.now cfg.now numbers.now entries.now 0 func.now.content.blocks) }
{
    let mut after = Vec::with_capacity(alloc, entries.len())?;
    let mut rest = Entries::of(entries);
    let mut number = 0;
    for block in func.blocks() {
        let width = cfg.preds(BlockId(number as u32)).len();
        push_inserted(
            inserted(joins, rows, number),
            width,
            numbers,
            &mut rest,
            &mut after,
        )?;
        push_own(block.insts(), numbers, &mut rest, &mut after)?;
        number += 1;
    }
    Ok(after)
}

// Adds the entries of inserted phis that stay.
fn push_inserted(
    slots: &[Packed],
    width: usize,
    numbers: &Renumbering,
    rest: &mut Entries<'_>,
    after: &mut Vec<u32>,
) -> Result<(), Memory>
    ensures after { IfOk result (λ _. after.new.items ≡ after.old.items ++ flat_map (phi_left numbers.now) (phis_over width (map number_of slots.now) rest.old)) }
    ensures rest { IfOk result (λ _. rest.new ≡ behind_phis width (map number_of slots.now) rest.old) }
{
    for slot in slots {
        let taken = rest.next_ones(width);
        push_phi(number_of(slot.slot()), taken, numbers, after)?;
    }
    Ok(())
}

fn push_phi(
    number: u32,
    taken: &[u32],
    numbers: &Renumbering,
    after: &mut Vec<u32>,
) -> Result<(), Memory>
    ensures { IfOk result (λ _. after.new.items ≡ after.old.items ++ phi_left numbers.now (record { name = number; operands = taken.now })) }
{
    if !numbers.stays(number) {
        return Ok(());
    }
    push_all(taken, numbers, after)
}

// Adds the entries of the phis among these lines.
fn push_own(
    insts: &[Inst],
    numbers: &Renumbering,
    rest: &mut Entries<'_>,
    after: &mut Vec<u32>,
) -> Result<(), Memory>
    ensures after { IfOk result (λ _. after.new.items ≡ after.old.items ++ map (number_now numbers.now) (entries_over insts.now rest.old)) }
    ensures rest { IfOk result (λ _. rest.new ≡ behind_entries insts.now rest.old) }
{
    for inst in insts {
        let taken = rest.next_ones(entry_count(inst));
        push_all(taken, numbers, after)?;
    }
    Ok(())
}

fn push_all(taken: &[u32], numbers: &Renumbering, after: &mut Vec<u32>) -> Result<(), Memory>
    ensures { IfOk result (λ _. after.new.items ≡ after.old.items ++ map (number_now numbers.now) taken.now) }
{
    for number in taken {
        after.push(numbers.now(*number))?;
    }
    Ok(())
}
