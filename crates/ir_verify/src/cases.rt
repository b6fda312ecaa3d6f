//! The cases of a `switch`.

ghost use Rattle.std.specs.Prelude.{◌≡◌, ◌<◌, ◌&&◌, ℕ, IsTrue, OnOk, IfOk, true, false, nat_eq, nat_lt, if◌then◌else◌};
ghost use Rattle.std.specs.List.{list_any};
ghost use Rattle.ir_ast.specs.declared.ops.Operand.{Operand};
ghost use Rattle.ir_verify.specs.Cases.{has, same};
ghost use Rattle.ir_verify.specs.Founds.{FoundIn};
ghost use Rattle.ir_verify.specs.FunctionFaults.{At, CaseAt, CaseFault};
ghost use Rattle.ir_lines.specs.Notes.{Notes};
ghost use Rattle.ir_resolve.specs.Resolved.{part_line};

use crate::insts::part_line;
use indexmap::IndexSet;
use ir_ast::{Inst, Op, Operand};
use ir_lines::best::First;
use sp_ids::Memory;
use std::alloc::Global;

/// Operands, by their kinds.
#[derive(Drop)]
pub(crate) struct Seen {
    pub(crate) numbers: IndexSet<u64>,
    pub(crate) values: IndexSet<u64>,
    pub(crate) functions: IndexSet<u64>,
    pub(crate) null: bool,
}

fn nothing_seen(alloc: Global) -> Seen
    ensures { (one : Operand) → has result one ≡ false }
{
    Seen {
        numbers: IndexSet::new(alloc),
        values: IndexSet::new(alloc),
        functions: IndexSet::new(alloc),
        null: false,
    }
}

// Adds a number, and answers whether it is there already.
fn is_there(numbers: &mut IndexSet<u64>, number: u64) -> Result<bool, Memory>
    ensures again { IfOk result (λ again. again ≡ list_any (nat_eq number) numbers.old.keys) }
    ensures added { OnOk result ((one : ℕ) → list_any (nat_eq one) numbers.new.keys
        ≡ (if nat_eq number one then true else list_any (nat_eq one) numbers.old.keys)) }
{
    let is_new = numbers.insert(number)?;
    Ok(!is_new)
}

// Adds an operand, and answers whether it is there already.
fn is_again(seen: &mut Seen, operand: Operand) -> Result<bool, Memory>
    ensures again { IfOk result (λ again. again ≡ has seen.old operand) }
    ensures added { OnOk result ((one : Operand) → has seen.new one ≡ (if same operand one then true else has seen.old one)) }
{
    match operand {
        Operand::Int(number) => is_there(&mut seen.numbers, number),
        Operand::Value(value) => is_there(&mut seen.values, u64::from(value.0)),
        Operand::Fun(func) => is_there(&mut seen.functions, u64::from(func.0)),
        Operand::Null => {
            let is_again = seen.null;
            seen.null = true;
            Ok(is_again)
        }
    }
}

// Notes a case that an earlier one has, and adds it; the first operand is what is tested.
fn note_case(
    line: u32,
    cases: &[u32],
    later: usize,
    operand: Operand,
    seen: &mut Seen,
    first: &mut First,
) -> Result<(), Memory>
    ensures noted { OnOk result (Notes first.old.found first.new.found
        (At 5 (part_line line cases.now later) ((0 < later) × (has seen.old operand ≡ true)))) }
    ensures added { OnOk result ((one : Operand) → has seen.new one ≡ (if nat_lt 0 later && same operand one then true else has seen.old one)) }
{
    if later == 0 {
        return Ok(());
    }
    let again = is_again(seen, operand)?;
    first.note_if(again, part_line(line, cases, later), 5);
    Ok(())
}

fn note_all(
    alloc: Global,
    line: u32,
    cases: &[u32],
    operands: &[Operand],
    first: &mut First,
) -> Result<(), Memory>
    ensures { OnOk result (Notes first.old.found first.new.found (FoundIn (CaseAt line cases.now operands.now) operands.now)) }
{
    let mut seen = nothing_seen(alloc);
    for (later, operand) in operands.iter().enumerate() {
        note_case(line, cases, later, *operand, &mut seen, first)?;
    }
    Ok(())
}

/// Notes the cases of a `switch` with the value of an earlier one.
pub(crate) fn note_cases(
    alloc: Global,
    line: u32,
    cases: &[u32],
    inst: &Inst,
    first: &mut First,
) -> Result<(), Memory>
    ensures { OnOk result (Notes first.old.found first.new.found (CaseFault line cases.now inst.now)) }
{
    match inst.op() {
        Op::Switch => note_all(alloc, line, cases, inst.operands(), first),
        _ => Ok(()),
    }
}
