//! Which values an instruction uses, with the bases of its pointers.

ghost use Rattle.std.specs.Prelude.{◌≡◌, ◌||◌, ◌&&◌, not, true, false, if◌then◌else◌, IfOk};
ghost use Rattle.std.specs.List.{list_any};
ghost use Rattle.ir_ast.specs.declared.ops.Operand.TheVariants.{Value};
ghost use Rattle.ir_ast.specs.Faults.PhiEdges.{is_phi};
ghost use Rattle.rewriting_forms.specs.Numbered.{base_at};
ghost use Rattle.live_sets.specs.Sets.{Changed};
ghost use Rattle.live_sets.specs.Uses.{other_than, base_named, uses_of, names, uses, line_uses};
ghost use Rattle.ir_ast.specs.Lists.{has_mark};
ghost use Rattle.ir_ast.specs.Operands.{value_named};

use crate::pointer_sets::PointerSet;
use ir_ast::{Inst, Op, Operand, Ty};
use sp_ids::{Memory, ValueId};

/// The values that an operand uses: a value, and where it is a pointer that isn't its own base, this base.
#[derive(Clone, Copy)]
pub(crate) struct Uses {
    pub(crate) itself: Option<ValueId>,
    pub(crate) base: Option<ValueId>,
}

/// Which values an operand uses. The marks are those of pointers, and the table has their bases.
pub(crate) fn uses_of(marks: &[bool], bases: &[Operand], operand: Operand) -> Uses
    ensures { result ≡ uses_of marks.now bases.now operand }
{
    let itself = value_in(operand);
    let base = base_in(marks, bases, itself);
    Uses { itself, base }
}

fn value_in(operand: Operand) -> Option<ValueId>
    ensures { result ≡ value_named operand }
{
    match operand {
        Operand::Value(value) => Some(value),
        Operand::Int(_) | Operand::Null | Operand::Fun(_) => None,
    }
}

fn base_in(marks: &[bool], bases: &[Operand], value: Option<ValueId>) -> Option<ValueId>
    ensures { result ≡ base_named marks.now bases.now value }
{
    let value = value?;
    if !has_mark(marks, value) {
        return None;
    }
    base_of(bases, value)
}

// The base of a pointer that isn't its own base.
#[inline(always)]
fn base_of(bases: &[Operand], value: ValueId) -> Option<ValueId>
    ensures { result ≡ other_than value (value_named (base_at bases.now value.0)) }
{
    let base = value_in(
        bases
            .get(value.0 as usize)
            .copied()
            .unwrap_or(Operand::Null),
    )?;
    if base.0 == value.0 {
        return None;
    }
    Some(base)
}

/// Puts a value into a set of pointers, where it is one.
#[inline(always)]
pub(crate) fn put(
    marks: &[bool],
    value: Option<ValueId>,
    set: &mut PointerSet,
) -> Result<(), Memory>
    ensures { IfOk result (λ _. Changed marks.now set.old set.new (λ v old. if names value v then true else old)) }
{
    if let Some(value) = value {
        if !set.is_stamped(value) && has_mark(marks, value) {
            set.put_in(value)?;
        }
    }
    Ok(())
}

#[inline(always)]
fn has_mark(marks: &[bool], value: ValueId) -> bool
    ensures { result ≡ has_mark marks.now value.0 }
{
    marks.get(value.0 as usize).copied().unwrap_or(false)
}

// Takes a value out of a set of pointers.
#[inline(always)]
fn take(marks: &[bool], value: Option<ValueId>, set: &mut PointerSet)
    ensures { Changed marks.now set.old set.new (λ v old. if names value v then false else old) }
{
    if let Some(value) = value {
        if has_mark(marks, value) {
            set.take(value);
        }
    }
}

/// Puts in what an operand uses.
#[inline(always)]
pub(crate) fn put_operand(
    marks: &[bool],
    bases: &[Operand],
    operand: Operand,
    set: &mut PointerSet,
) -> Result<(), Memory>
    ensures { IfOk result (λ _. Changed marks.now set.old set.new (λ v old. uses marks.now bases.now v operand || old)) }
{
    if let Operand::Value(value) = operand {
        if has_mark(marks, value) {
            put_pointer(marks, bases, value, set)?;
        }
    }
    Ok(())
}

// Puts in a pointer and its base.
#[inline(always)]
fn put_pointer(
    marks: &[bool],
    bases: &[Operand],
    value: ValueId,
    set: &mut PointerSet,
) -> Result<(), Memory>
    requires { has_mark marks.now value.0 ≡ true }
    ensures { IfOk result (λ _. Changed marks.now set.old set.new (λ v old. uses marks.now bases.now v (Value value) || old)) }
{
    set.put(value)?;
    put(marks, base_of(bases, value), set)?;
    Ok(())
}

/// Puts in what these operands use.
#[inline(always)]
pub(crate) fn put_operands(
    marks: &[bool],
    bases: &[Operand],
    operands: &[Operand],
    set: &mut PointerSet,
) -> Result<(), Memory>
    ensures { IfOk result (λ _. Changed marks.now set.old set.new (λ v old. list_any (uses marks.now bases.now v) operands.now || old)) }
{
    for operand in operands {
        put_operand(marks, bases, *operand, set)?;
    }
    Ok(())
}

/// Puts in what the operands of a bundle use.
#[inline(always)]
pub(crate) fn put_bundle(
    marks: &[bool],
    bases: &[Operand],
    bundle: &[(Ty, Operand)],
    set: &mut PointerSet,
) -> Result<(), Memory>
    ensures { IfOk result (λ _. Changed marks.now set.old set.new (λ v old. list_any (λ entry. uses marks.now bases.now v entry.1) bundle.now || old)) }
{
    if !bundle.is_empty() {
        put_entries(marks, bases, bundle, set)?;
    }
    Ok(())
}

// The rarer part of `put_bundle`: most lines have none.
#[inline(never)]
fn put_entries(
    marks: &[bool],
    bases: &[Operand],
    bundle: &[(Ty, Operand)],
    set: &mut PointerSet,
) -> Result<(), Memory>
    ensures { IfOk result (λ _. Changed marks.now set.old set.new (λ v old. list_any (λ entry. uses marks.now bases.now v entry.1) bundle.now || old)) }
{
    for (_, operand) in bundle {
        put_operand(marks, bases, *operand, set)?;
    }
    Ok(())
}

// Puts in what the operands of a line use. The entries of a phi are used elsewhere.
#[inline(always)]
fn put_own(
    marks: &[bool],
    bases: &[Operand],
    inst: &Inst,
    set: &mut PointerSet,
) -> Result<(), Memory>
    ensures { IfOk result (λ _. Changed marks.now set.old set.new (λ v old. (not (is_phi inst.now.op) && list_any (uses marks.now bases.now v) inst.now.operands) || old)) }
{
    if is_phi(inst.op()) {
        return Ok(());
    }
    put_operands(marks, bases, inst.operands(), set)?;
    Ok(())
}

/// Goes back over a line: what it gives isn't live before it, and what it uses is.
#[inline(always)]
pub(crate) fn go_back(
    marks: &[bool],
    bases: &[Operand],
    inst: &Inst,
    to: Option<ValueId>,
    set: &mut PointerSet,
) -> Result<(), Memory>
    ensures { IfOk result (λ _. Changed marks.now set.old set.new (λ v old. line_uses marks.now bases.now v inst.now || (not (names to v) && old))) }
{
    take(marks, to, set);
    put_own(marks, bases, inst, set)?;
    put_bundle(marks, bases, inst.bundle(), set)?;
    Ok(())
}

/// Whether the operator is that of a phi.
pub(crate) fn is_phi(op: &Op) -> bool
    ensures { result ≡ is_phi op.now }
{
    matches!(op, Op::Phi)
}
