//! Slots: what a statepoint keeps in its frame's words, and what the members of its group read there.

ghost use Rattle.std.specs.Prelude.{◌≡◌, ℕ, List, [], ◌∷◌, length, map, drop, filter, ◌++◌, OnOk};
ghost use Rattle.ir_ast.specs.Objects.{number};
ghost use Rattle.frame_forms.specs.FrameSizes.{is_named_integer};
ghost use Rattle.object_meaning.specs.Numbers.{width_of, sign_extended};
ghost use Rattle.object_meaning.specs.Registers.{value, number_in};
ghost use Rattle.machine_meaning.specs.Machines.{over, slot_value};
ghost use Rattle.machine_meaning.specs.Words.{worded_operand};
ghost use Rattle.machine_frames.specs.Frames.{kept_in};
ghost use Rattle.machine_lines.specs.Decoding.{decoded_of};
ghost use Rattle.machine_lines.specs.Lines.{line_of};

use frame_walk::Stack;
use ir_ast::{Inst, Op, Operand, Ty};
use machine_lines::{Decoded, widened, word};
use sp_ids::Memory;

/// A statepoint with so many arguments writes what it keeps over the newest words of its stack: its live entries, then the
/// integers that its bundle names, sign-extended.
#[inline(always)]
pub(crate) fn keep(
    stack: &mut Stack,
    registers: &[u64],
    inst: &Inst,
    arguments: usize,
) -> Result<(), Memory>
    ensures { OnOk result (stack.new ≡ over (kept_in (map number registers.now) inst.now arguments) stack.old) }
{
    let entries = behind(inst.operands(), arguments);
    keep_entries(stack, registers, entries)?;
    keep_bundle(stack, registers, entries.len(), inst.bundle())
}

#[inline(always)]
fn keep_entries(stack: &mut Stack, registers: &[u64], entries: &[Operand]) -> Result<(), Memory>
    ensures { OnOk result (stack.new ≡ over (map (λ operand. number_in (value (map number registers.now) operand)) (map worded_operand entries.now)) stack.old) }
{
    for (place, entry) in entries.iter().enumerate() {
        keep_word(stack, place, word(registers, *entry))?;
    }
    Ok(())
}

// Behind so many words that are kept.
#[inline(always)]
fn keep_bundle(
    stack: &mut Stack,
    registers: &[u64],
    kept: usize,
    bundle: &[(Ty, Operand)],
) -> Result<(), Memory>
    ensures { OnOk result ((words before : List ℕ) → length words ≡ kept → stack.old ≡ over words before → stack.new ≡ over (words ++ map (λ entry. sign_extended (width_of entry.0) 64 (number_in (value (map number registers.now) entry.1))) (filter (λ entry. is_named_integer entry.0 entry.1) bundle.now)) before) }
{
    let mut next = kept;
    for entry in bundle {
        if is_named_integer(entry.0, entry.1) {
            let wide = widened(&entry.0, word(registers, entry.1));
            keep_word(stack, next, wide)?;
            let after = next.checked_add(1).ok_or(Memory)?;
            next = after;
        }
    }
    Ok(())
}

// The word with this place is written, behind so many that are kept.
#[inline(always)]
fn keep_word(stack: &mut Stack, place: usize, word: u64) -> Result<(), Memory>
    ensures { OnOk result ((words before : List ℕ) → length words ≡ place → stack.old ≡ over words before → stack.new ≡ over (words ++ word ∷ []) before) }
{
    if place >= stack.len() || place > u32::MAX as usize {
        return Err(Memory);
    }
    stack.set_word(place as u32, word);
    Ok(())
}

#[inline(always)]
fn is_named_integer(ty: Ty, operand: Operand) -> bool
    ensures { result ≡ is_named_integer ty operand }
{
    matches!(ty, Ty::Int(_)) && matches!(operand, Operand::Value(_))
}

#[inline(always)]
fn behind(operands: &[Operand], count: usize) -> &[Operand]
    ensures { result.now ≡ drop count operands.now }
{
    if count < operands.len() {
        &operands[count..]
    } else {
        &[]
    }
}

/// What a member of a group gets: a relocate the present word of its derived slot, a result the callee's answer.
#[inline(always)]
pub(crate) fn member_word(stack: &Stack, member: &Inst, one: &Decoded, answer: u64) -> u64
    requires { one.now ≡ decoded_of member.now }
    ensures { slot_value stack.now (number answer) (line_of 0 member.now) member.now.op ≡ number result }
{
    match member.op() {
        Op::GcRelocate => stack.word_or_zero(one.index()),
        _ => answer,
    }
}
