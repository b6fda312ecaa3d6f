//! The lines that are put in, and the old ones over new numbers.

ghost use Rattle.std.specs.Prelude.{◌≡◌, [], ◌∷◌, if◌then◌else◌, map, slice_index_or, IfOk, OnOk};
ghost use Rattle.ir_ast.specs.declared.types.Ty.{Ty};
ghost use Rattle.ir_ast.specs.declared.ops.Op.{Op};
ghost use Rattle.ir_ast.specs.declared.ops.Operand.{Operand};
ghost use Rattle.ir_ast.specs.Cells.{kind_of};
ghost use Rattle.object_meaning.specs.Accesses.{cell_of};
ghost use Rattle.base_forms.specs.Lines.{kept_line, merged_bases, base_line, check, same_call, negated_line, numbered_name};
ghost use Rattle.base_tables.specs.Tables.{now_by, base_by, tabled};

use base_tables::Tables;
use ir_ast::{Callee, Cell, Inst, Name, Op, Operand, Operands, Rest, Ty, Types};
use itoa::Buffer;
use smallvec::SmallVec;
use sp_ids::Memory;
use std::alloc::Global;
use std::mem;

/// Gives an instruction the new numbers, where it stands.
pub(crate) fn renumber_inst(alloc: Global, tables: &Tables, inst: &mut Inst) -> Result<(), Memory>
    ensures { OnOk result (inst.new ≡ kept_line (tabled tables.now) inst.old) }
{
    if inst.bundle().is_empty() {
        renumber_operands(tables, inst);
        return Ok(());
    }
    renumber_with_bundle(alloc, tables, inst)
}

// The rarer part of `renumber_inst`.
#[inline(never)]
fn renumber_with_bundle(alloc: Global, tables: &Tables, inst: &mut Inst) -> Result<(), Memory>
    ensures { OnOk result (inst.new ≡ kept_line (tabled tables.now) inst.old) }
{
    let old = mem::replace(inst, no_line(alloc));
    *inst = kept(alloc, tables, old)?;
    Ok(())
}

fn renumber_operands(tables: &Tables, inst: &mut Inst)
    requires { inst.old.bundle ≡ [] }
    ensures { inst.new ≡ kept_line (tabled tables.now) inst.old }
{
    renumber(tables, inst.operands_mut());
}

fn no_line(alloc: Global) -> Inst {
    Inst::of(
        None,
        Op::Unreachable,
        Ty::Void,
        SmallVec::new(alloc),
        Rest::nothing(),
    )
}

// The instruction itself, over the new numbers.
fn kept(alloc: Global, tables: &Tables, inst: Inst) -> Result<Inst, Memory>
    ensures { IfOk result (λ line. line ≡ kept_line (tabled tables.now) inst) }
{
    let mut bundle = Vec::from_slice(alloc, inst.bundle())?;
    renumber_bundle(tables, bundle.as_mut_slice());
    let rest = Rest::of(alloc, inst.labels(), bundle)?;
    let (named, op, ty, mut operands, _rest) = inst.into_parts();
    renumber(tables, operands.as_mut_slice());
    Ok(Inst::of(named, op, ty, operands, rest))
}

fn renumber(tables: &Tables, operands: &mut [Operand])
    ensures { operands.new ≡ map (now_by tables.now) operands.old }
{
    for operand in operands.iter_mut() {
        *operand = tables.operand(*operand);
    }
}

fn renumber_bundle(tables: &Tables, entries: &mut [(Ty, Operand)])
    ensures { entries.new ≡ map (λ entry. (entry.0, now_by tables.now entry.1)) entries.old }
{
    for entry in entries.iter_mut() {
        *entry = (entry.0, tables.operand(entry.1));
    }
}

/// The phi of the bases of a phi's operands, or the select of those of a select's.
pub(crate) fn base_line(
    alloc: Global,
    tables: &Tables,
    next: usize,
    is_select: bool,
    inst: &Inst,
) -> Result<Inst, Memory>
    requires { inst.now.op ≡ (if is_select then Op.Select else Op.Phi) }
    ensures { IfOk result (λ line. line ≡ base_line (tabled tables.now) next inst.now) }
{
    let named = name(alloc, b"sp.b", tables.base_rank(next))?;
    let operands = bases(alloc, tables, is_select, inst.operands())?;
    let rest = Rest::of(alloc, inst.labels(), Vec::new(alloc))?;
    Ok(Inst::of(Some(named), merge_op(is_select), *inst.ty(), operands, rest))
}

fn merge_op(is_select: bool) -> Op
    ensures { result ≡ (if is_select then Op.Select else Op.Phi) }
{
    if is_select { Op::Select } else { Op::Phi }
}

fn bases(
    alloc: Global,
    tables: &Tables,
    is_select: bool,
    operands: &[Operand],
) -> Result<Operands, Memory>
    ensures { IfOk result (λ bases. bases.items ≡ merged_bases (tabled tables.now) (if is_select then Op.Select else Op.Phi) operands.now) }
{
    if is_select {
        select_bases(alloc, tables, operands)
    } else {
        all_bases(alloc, tables, operands)
    }
}

fn all_bases(alloc: Global, tables: &Tables, operands: &[Operand]) -> Result<Operands, Memory>
    ensures { IfOk result (λ bases. bases.items ≡ map (base_by tables.now) operands.now) }
{
    let mut bases = SmallVec::new(alloc);
    for operand in operands {
        bases.push(tables.base(*operand))?;
    }
    Ok(bases)
}

fn select_bases(alloc: Global, tables: &Tables, operands: &[Operand]) -> Result<Operands, Memory>
    ensures { IfOk result (λ bases. bases.items ≡ merged_bases (tabled tables.now) Op.Select operands.now) }
{
    match operands.split_first() {
        None => Ok(SmallVec::new(alloc)),
        Some((condition, pointers)) => conditional(alloc, tables, *condition, pointers),
    }
}

// The condition stays.
fn conditional(
    alloc: Global,
    tables: &Tables,
    condition: Operand,
    pointers: &[Operand],
) -> Result<Operands, Memory>
    ensures { IfOk result (λ bases. bases.items ≡ now_by tables.now condition ∷ map (base_by tables.now) pointers.now) }
{
    let mut bases = SmallVec::new(alloc);
    bases.push(tables.operand(condition))?;
    for pointer in pointers {
        bases.push(tables.base(*pointer))?;
    }
    Ok(bases)
}

/// `call void @gc_check(P base, P address, i64 kind)`, before an access.
pub(crate) fn check_line(
    alloc: Global,
    tables: &Tables,
    inst: &Inst,
    address: Operand,
) -> Result<Inst, Memory>
    ensures { IfOk result (λ line. line ≡ check (tabled tables.now) inst.now address) }
{
    let op = Op::Call {
        callee: Callee::Check,
        types: check_types(alloc)?,
    };
    let operands = [
        tables.base(address),
        tables.operand(address),
        Operand::Int(kind(inst.ty())),
    ];
    Ok(Inst::of(
        None,
        op,
        Ty::Void,
        SmallVec::from_buf(alloc, operands),
        Rest::nothing(),
    ))
}

fn check_types(alloc: Global) -> Result<Types, Memory>
    ensures { IfOk result (λ types. types ≡ Ty.Ptr ∷ Ty.Ptr ∷ Ty.Int 64 ∷ []) }
{
    Types::of(alloc, &[Ty::Ptr, Ty::Ptr, Ty::Int(64)])
}

// The kind of the cell that an access of this type has.
fn kind(ty: &Ty) -> u64
    ensures { result ≡ kind_of (cell_of ty.now) }
{
    match ty {
        Ty::Ptr => Cell::Ptr.kind(),
        Ty::Void | Ty::Int(_) | Ty::Token => Cell::I64.kind(),
    }
}

/// `%x = call i1 @gc_same(P base 1, P address 1, P base 2, P address 2)`.
pub(crate) fn same_line(
    alloc: Global,
    tables: &Tables,
    named: Option<Name>,
    first: Operand,
    second: Operand,
) -> Result<Inst, Memory>
    ensures { IfOk result (λ line. line ≡ same_call (tabled tables.now) named first second) }
{
    let op = Op::Call {
        callee: Callee::Same,
        types: same_types(alloc)?,
    };
    let mut operands = SmallVec::new(alloc);
    operands.push(tables.base(first))?;
    operands.push(tables.operand(first))?;
    operands.push(tables.base(second))?;
    operands.push(tables.operand(second))?;
    Ok(Inst::of(named, op, Ty::Int(1), operands, Rest::nothing()))
}

fn same_types(alloc: Global) -> Result<Types, Memory>
    ensures { IfOk result (λ types. types ≡ Ty.Ptr ∷ Ty.Ptr ∷ Ty.Ptr ∷ Ty.Ptr ∷ []) }
{
    Types::of(alloc, &[Ty::Ptr, Ty::Ptr, Ty::Ptr, Ty::Ptr])
}

/// `%x = xor i1 %sp.sN, true`.
pub(crate) fn negation(
    alloc: Global,
    tables: &Tables,
    next: usize,
    named: Option<Name>,
) -> Result<Inst, Memory>
    ensures { IfOk result (λ line. line ≡ negated_line (tabled tables.now) next named) }
{
    let mut operands = SmallVec::new(alloc);
    operands.push(Operand::Value(tables.inserted(next)))?;
    operands.push(Operand::Int(1))?;
    Ok(Inst::of(named, Op::Xor, Ty::Int(1), operands, Rest::nothing()))
}

/// A name of this front and a number.
pub(crate) fn name(alloc: Global, front: &[u8], rank: u32) -> Result<Name, Memory>
    ensures { IfOk result (λ name. name ≡ numbered_name front.now rank) }
{
    let mut buffer = Buffer::new();
    let mut bytes = SmallVec::<u8, 16>::new(alloc);
    bytes.extend_from_slice(front)?;
    bytes.extend_from_slice(buffer.format(rank).as_bytes())?;
    Ok(Name::of(alloc, bytes.as_slice())?)
}

/// The operand at a place, or `null` where there is none.
pub(crate) fn operand_at(operands: &[Operand], place: usize) -> Operand
    ensures { result ≡ slice_index_or operands.now place Operand.Null }
{
    operands.get(place).copied().unwrap_or(Operand::Null)
}
