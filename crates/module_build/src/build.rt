//! The instructions that lines stand for, and what lines lose.

ghost use Rattle.std.specs.Prelude.{◌≡◌, [], ◌∷◌, ◌++◌, map, filter_map, not, option_map, option_to_list, drop, if◌then◌else◌, IfOk, OnOk};
ghost use Rattle.std.specs.Option.{option_copied};
ghost use Rattle.ir_ast.specs.Rests.{labels_and_bundle};
ghost use Rattle.line_parts.specs.Parts as values;
ghost use Rattle.line_parts.specs.Types.{Int, Managed};
ghost use Rattle.line_parts.specs.Seen.{seen_type, seen_value, seen_entry, seen_passed};
ghost use Rattle.line_forms.specs.Seen.{seen_kept};
ghost use Rattle.ir_lines.specs.Parts.{entry_use, live_use, token_type, token_use, index_use, passed_value, passed_function};
ghost use Rattle.ir_lines.specs.Statements.{call, calling, is_leaf_name, statepoint};
ghost use Rattle.ir_lines.specs.Places.{number_in};
ghost use Rattle.ir_lines.specs.Types.{same_type};
ghost use Rattle.ir_lines.specs.Views.{seen_guarded, said, seen_lines};
ghost use Rattle.ir_lines.specs.Modules.{wrapped, used_operand, kept_entry, instruction, keeping, instruction_said, external_callee, callee_of, passed_operand, given_type, case_values, case_labels, element_of, entry_operand, entry_label, operand_in, label_in, type_of, binary_of, conversion_of, place_of};
ghost use Rattle.ir_resolve.specs.TextFaults.{is_below_zero};
ghost use Rattle.module_build.specs.Known.{known_in};
ghost use Rattle.module_build.specs.Lost.{tables_in, after_uses, after_named, after_spelling, after_line, fits_in, call_fits};

use crate::fits::{fits, is_below_zero};
use crate::lost::{Lost, add_unknown, label, nothing_lost, operand};
use crate::scope::Scope;
use ir_ast::{Callee, Elem, Inst, Labels, Name, Op, Operand, Operands, Pred, Rest, Ty, Types};
use ir_lines::literals::{same_type, wrapped};
use ir_lines::names::{is_text, number_of};
use ir_lines::operands::{binary_of, conversion_of, element_of, passed_type, type_of};
use ir_lines::parts::TOKEN;
use ir_lines::scope::Local;
use ir_reader::{
    Binary, Conversion, Entry, KeptEntry, Literal, NumberedReading, Passed, Reading,
    StatepointCall, TypeWord, Value, Width,
};
use smallvec::SmallVec;
use sp_ids::{BlockId, FuncId, Memory};
use std::alloc::{AllocError, Global};

// The layout of a `gc_new.T`.
fn layout_made(name: &[u8]) -> &[u8]
    ensures { result.now ≡ drop 7 name.now }
{
    if name.len() < 7 { &[] } else { &name[7..] }
}

/// A name of its own.
pub fn owned(alloc: Global, name: &[u8]) -> Result<Name, AllocError>
    ensures { IfOk result (λ owned. owned ≡ name.now) }
{
    Name::of(alloc, name)
}

// The place of a field.
fn place_of(place: Literal) -> u32
    ensures { result ≡ place_of place }
{
    place.magnitude.min(u64::from(u32::MAX)) as u32
}

fn place_if_any(place: Option<Literal>) -> Option<u32>
    ensures { result ≡ option_map place_of place }
{
    match place {
        Some(place) => Some(place_of(place)),
        None => None,
    }
}

// The name of a result.
fn named(alloc: Global, name: Option<&[u8]>) -> Result<Option<Name>, AllocError>
    ensures { IfOk result (λ named. named ≡ option_copied name.entry) }
{
    match name {
        Some(name) => {
            let name = owned(alloc, name)?;
            Ok(Some(name))
        }
        None => Ok(None),
    }
}

// These labels, and no bundle.
fn with_labels(alloc: Global, labels: &[BlockId]) -> Result<Rest, Memory>
    ensures { IfOk result (λ rest. rest ≡ labels_and_bundle labels.now []) }
{
    Rest::of(alloc, labels, Vec::new(alloc))
}

// Adds an instruction with these operands and labels behind the others.
fn push_inst(
    alloc: Global,
    name: Option<&[u8]>,
    op: Op,
    ty: Ty,
    operands: &[Operand],
    labels: &[BlockId],
    insts: &mut Vec<Inst>,
) -> Result<(), Memory>
    ensures { OnOk result (insts.new.items ≡ insts.old.items ++ instruction (option_copied name.entry) op ty operands.now labels.now ∷ []) }
{
    let name = named(alloc, name)?;
    let operands = SmallVec::from_slice(alloc, operands)?;
    let rest = with_labels(alloc, labels)?;
    insts.push(Inst::of(name, op, ty, operands, rest))?;
    Ok(())
}

// Adds an instruction with this operand behind the others.
fn push_single(
    alloc: Global,
    name: Option<&[u8]>,
    op: Op,
    ty: Ty,
    operand: Operand,
    insts: &mut Vec<Inst>,
) -> Result<(), Memory>
    ensures { OnOk result (insts.new.items ≡ insts.old.items ++ instruction (option_copied name.entry) op ty (operand ∷ []) [] ∷ []) }
{
    let name = named(alloc, name)?;
    let mut operands: Operands = SmallVec::new(alloc);
    operands.push(operand)?;
    insts.push(Inst::of(name, op, ty, operands, Rest::nothing()))?;
    Ok(())
}

// Adds an instruction with these two operands behind the others.
fn push_pair(
    alloc: Global,
    name: Option<&[u8]>,
    op: Op,
    ty: Ty,
    left: Operand,
    right: Operand,
    insts: &mut Vec<Inst>,
) -> Result<(), Memory>
    ensures { OnOk result (insts.new.items ≡ insts.old.items ++ instruction (option_copied name.entry) op ty (left ∷ right ∷ []) [] ∷ []) }
{
    let name = named(alloc, name)?;
    let mut operands: Operands = SmallVec::new(alloc);
    operands.push(left)?;
    operands.push(right)?;
    insts.push(Inst::of(name, op, ty, operands, Rest::nothing()))?;
    Ok(())
}

// The types of what is passed.
fn types_of(alloc: Global, passed: &[Passed]) -> Result<Types, Memory>
    ensures { IfOk result (λ types. types ≡ map given_type (map seen_passed passed.now)) }
{
    let mut types = Vec::with_capacity(alloc, passed.len())?;
    for one in passed {
        types.push(type_of(passed_type(one)))?;
    }
    Types::of(alloc, types.as_slice())
}

fn binary(
    local: &Local,
    alloc: Global,
    name: &[u8],
    op: Binary,
    width: Width,
    left: &Value,
    right: &Value,
    insts: &mut Vec<Inst>,
    lost: &mut Lost,
) -> Result<(), Memory>
    ensures insts { OnOk result (insts.new.items ≡ insts.old.items ++ (instruction (Some name.now) (binary_of op) (Ty.Int width.bits)
        (operand_in local.now.values (Int width.bits) (seen_value left.now) ∷ operand_in local.now.values (Int width.bits) (seen_value right.now) ∷ []) []) ∷ []) }
    ensures lost { lost.new ≡ after_uses local.now.values lost.old ((seen_value left.now, Int width.bits) ∷ (seen_value right.now, Int width.bits) ∷ []) }
{
    let ty = TypeWord::Int(width);
    let left = operand(local, ty, left, lost);
    let right = operand(local, ty, right, lost);
    push_pair(
        alloc,
        Some(name),
        binary_of(op),
        type_of(ty),
        left,
        right,
        insts,
    )
}

fn compare(
    local: &Local,
    alloc: Global,
    name: &[u8],
    pred: Pred,
    ty: TypeWord,
    left: &Value,
    right: &Value,
    insts: &mut Vec<Inst>,
    lost: &mut Lost,
) -> Result<(), Memory>
    ensures insts { OnOk result (insts.new.items ≡ insts.old.items ++ (instruction (Some name.now) (Op.Icmp pred) (type_of (seen_type ty))
        (operand_in local.now.values (seen_type ty) (seen_value left.now) ∷ operand_in local.now.values (seen_type ty) (seen_value right.now) ∷ []) []) ∷ []) }
    ensures lost { lost.new ≡ after_uses local.now.values lost.old ((seen_value left.now, seen_type ty) ∷ (seen_value right.now, seen_type ty) ∷ []) }
{
    let left = operand(local, ty, left, lost);
    let right = operand(local, ty, right, lost);
    let op = Op::Icmp(pred);
    push_pair(alloc, Some(name), op, type_of(ty), left, right, insts)
}

fn convert(
    local: &Local,
    alloc: Global,
    name: &[u8],
    op: Conversion,
    width: Width,
    value: &Value,
    to: Width,
    insts: &mut Vec<Inst>,
    lost: &mut Lost,
) -> Result<(), Memory>
    ensures insts { OnOk result (insts.new.items ≡ insts.old.items ++ (instruction (Some name.now) (conversion_of op to.bits) (Ty.Int width.bits)
        (operand_in local.now.values (Int width.bits) (seen_value value.now) ∷ []) []) ∷ []) }
    ensures lost { lost.new ≡ after_uses local.now.values lost.old ((seen_value value.now, Int width.bits) ∷ []) }
{
    let ty = TypeWord::Int(width);
    let value = operand(local, ty, value, lost);
    push_single(
        alloc,
        Some(name),
        conversion_of(op, to.bits),
        type_of(ty),
        value,
        insts,
    )
}

fn select(
    local: &Local,
    alloc: Global,
    name: &[u8],
    condition: &Value,
    left_ty: TypeWord,
    left: &Value,
    right_ty: TypeWord,
    right: &Value,
    insts: &mut Vec<Inst>,
    lost: &mut Lost,
) -> Result<(), Memory>
    ensures insts { OnOk result (insts.new.items ≡ insts.old.items ++ (instruction (Some name.now) Op.Select (type_of (seen_type left_ty))
        (operand_in local.now.values (Int 1) (seen_value condition.now) ∷ operand_in local.now.values (seen_type left_ty) (seen_value left.now)
        ∷ operand_in local.now.values (seen_type right_ty) (seen_value right.now) ∷ []) []) ∷ []) }
    ensures lost { lost.new ≡ after_spelling (not (same_type (seen_type left_ty) (seen_type right_ty))) (after_uses local.now.values lost.old
        ((seen_value condition.now, Int 1) ∷ (seen_value left.now, seen_type left_ty) ∷ (seen_value right.now, seen_type right_ty) ∷ [])) }
{
    let operands = [
        operand(local, TypeWord::Int(Width { bits: 1 }), condition, lost),
        operand(local, left_ty, left, lost),
        operand(local, right_ty, right, lost),
    ];
    lost.misspelled = !same_type(left_ty, right_ty) || lost.misspelled;
    push_inst(
        alloc,
        Some(name),
        Op::Select,
        type_of(left_ty),
        &operands,
        &[],
        insts,
    )
}

fn step(
    local: &Local,
    alloc: Global,
    name: &[u8],
    op: Op,
    address: &Value,
    width: Width,
    index: &Value,
    insts: &mut Vec<Inst>,
    lost: &mut Lost,
) -> Result<(), Memory>
    ensures insts { OnOk result (insts.new.items ≡ insts.old.items ++ (instruction (Some name.now) op Ty.Ptr
        (operand_in local.now.values Managed (seen_value address.now) ∷ operand_in local.now.values (Int width.bits) (seen_value index.now) ∷ []) []) ∷ []) }
    ensures lost { lost.new ≡ after_uses local.now.values lost.old ((seen_value address.now, Managed) ∷ (seen_value index.now, Int width.bits) ∷ []) }
{
    let address = operand(local, TypeWord::Managed, address, lost);
    let index = operand(local, TypeWord::Int(width), index, lost);
    push_pair(alloc, Some(name), op, Ty::Ptr, address, index, insts)
}

fn scalar_step(
    local: &Local,
    alloc: Global,
    name: &[u8],
    element: TypeWord,
    address: &Value,
    width: Width,
    index: &Value,
    insts: &mut Vec<Inst>,
    lost: &mut Lost,
) -> Result<(), Memory>
    ensures insts { OnOk result (insts.new.items ≡ insts.old.items ++ (instruction (Some name.now) (Op.Gep (element_of (seen_type element)) width.bits None) Ty.Ptr
        (operand_in local.now.values Managed (seen_value address.now) ∷ operand_in local.now.values (Int width.bits) (seen_value index.now) ∷ []) []) ∷ []) }
    ensures lost { lost.new ≡ after_uses local.now.values lost.old ((seen_value address.now, Managed) ∷ (seen_value index.now, Int width.bits) ∷ []) }
{
    let op = Op::Gep {
        elem: element_of(element),
        index_width: width.bits,
        place: None,
    };
    step(local, alloc, name, op, address, width, index, insts, lost)
}

fn load(
    local: &Local,
    alloc: Global,
    name: &[u8],
    ty: TypeWord,
    address: &Value,
    insts: &mut Vec<Inst>,
    lost: &mut Lost,
) -> Result<(), Memory>
    ensures insts { OnOk result (insts.new.items ≡ insts.old.items ++ (instruction (Some name.now) Op.Load (type_of (seen_type ty))
        (operand_in local.now.values Managed (seen_value address.now) ∷ []) []) ∷ []) }
    ensures lost { lost.new ≡ after_uses local.now.values lost.old ((seen_value address.now, Managed) ∷ []) }
{
    let address = operand(local, TypeWord::Managed, address, lost);
    push_single(alloc, Some(name), Op::Load, type_of(ty), address, insts)
}

fn store(
    local: &Local,
    alloc: Global,
    ty: TypeWord,
    value: &Value,
    address: &Value,
    insts: &mut Vec<Inst>,
    lost: &mut Lost,
) -> Result<(), Memory>
    ensures insts { OnOk result (insts.new.items ≡ insts.old.items ++ (instruction None Op.Store (type_of (seen_type ty))
        (operand_in local.now.values (seen_type ty) (seen_value value.now) ∷ operand_in local.now.values Managed (seen_value address.now) ∷ []) []) ∷ []) }
    ensures lost { lost.new ≡ after_uses local.now.values lost.old ((seen_value value.now, seen_type ty) ∷ (seen_value address.now, Managed) ∷ []) }
{
    let value = operand(local, ty, value, lost);
    let address = operand(local, TypeWord::Managed, address, lost);
    push_pair(alloc, None, Op::Store, type_of(ty), value, address, insts)
}

fn phi(
    local: &Local,
    alloc: Global,
    name: &[u8],
    ty: TypeWord,
    entries: &[Entry],
    insts: &mut Vec<Inst>,
    lost: &mut Lost,
) -> Result<(), Memory>
    ensures insts { OnOk result (insts.new.items ≡ insts.old.items ++ (instruction (Some name.now) Op.Phi (type_of (seen_type ty))
        (map (entry_operand local.now.values (seen_type ty)) (map seen_entry entries.now)) (map (entry_label local.now.blocks) (map seen_entry entries.now))) ∷ []) }
    ensures lost { OnOk result (lost.new ≡ after_named local.now.blocks (map (λ entry. entry.1) (map seen_entry entries.now))
        (after_uses local.now.values lost.old (map (entry_use (seen_type ty)) (map seen_entry entries.now)))) }
{
    let mut operands: Operands = SmallVec::new(alloc);
    let mut labels: Labels = SmallVec::new(alloc);
    let mut lost_labels = nothing_lost();
    for entry in entries {
        operands.push(operand(local, ty, &entry.value, lost))?;
        labels.push(label(local, entry.label.bytes, &mut lost_labels))?;
    }
    add_unknown(lost_labels.unknown, lost);
    let name = owned(alloc, name)?;
    let rest = with_labels(alloc, labels.as_slice())?;
    insts.push(Inst::of(Some(name), Op::Phi, type_of(ty), operands, rest))?;
    Ok(())
}

fn jump(
    local: &Local,
    alloc: Global,
    to: &[u8],
    insts: &mut Vec<Inst>,
    lost: &mut Lost,
) -> Result<(), Memory>
    ensures insts { OnOk result (insts.new.items ≡ insts.old.items ++ (instruction None Op.Br Ty.Void [] (label_in local.now.blocks to.now ∷ [])) ∷ []) }
    ensures lost { lost.new ≡ after_named local.now.blocks (to.now ∷ []) lost.old }
{
    let labels = [label(local, to, lost)];
    push_inst(alloc, None, Op::Br, Ty::Void, &[], &labels, insts)
}

fn branch(
    local: &Local,
    alloc: Global,
    condition: &Value,
    on_true: &[u8],
    on_false: &[u8],
    insts: &mut Vec<Inst>,
    lost: &mut Lost,
) -> Result<(), Memory>
    ensures insts { OnOk result (insts.new.items ≡ insts.old.items ++ (instruction None Op.CondBr (Ty.Int 1)
        (operand_in local.now.values (Int 1) (seen_value condition.now) ∷ [])
        (label_in local.now.blocks on_true.now ∷ label_in local.now.blocks on_false.now ∷ [])) ∷ []) }
    ensures lost { lost.new ≡ after_named local.now.blocks (on_true.now ∷ on_false.now ∷ [])
        (after_uses local.now.values lost.old ((seen_value condition.now, Int 1) ∷ [])) }
{
    let operands = [operand(local, TypeWord::Int(Width { bits: 1 }), condition, lost)];
    let labels = [label(local, on_true, lost), label(local, on_false, lost)];
    push_inst(
        alloc,
        None,
        Op::CondBr,
        Ty::Int(1),
        &operands,
        &labels,
        insts,
    )
}

fn ret(
    local: &Local,
    alloc: Global,
    ty: TypeWord,
    value: &Value,
    insts: &mut Vec<Inst>,
    lost: &mut Lost,
) -> Result<(), Memory>
    ensures insts { OnOk result (insts.new.items ≡ insts.old.items ++ (instruction None Op.Ret (type_of (seen_type ty)) (operand_in local.now.values (seen_type ty) (seen_value value.now) ∷ []) []) ∷ []) }
    ensures lost { lost.new ≡ after_uses local.now.values lost.old ((seen_value value.now, seen_type ty) ∷ []) }
{
    let value = operand(local, ty, value, lost);
    push_single(alloc, None, Op::Ret, type_of(ty), value, insts)
}

fn gc_result(
    local: &Local,
    alloc: Global,
    name: &[u8],
    answer: TypeWord,
    token: ir_reader::Name,
    insts: &mut Vec<Inst>,
    lost: &mut Lost,
) -> Result<(), Memory>
    ensures insts { OnOk result (insts.new.items ≡ insts.old.items ++ (instruction (Some name.now) Op.GcResult (type_of (seen_type answer))
        (operand_in local.now.values token_type (values.local token.entry.bytes.now) ∷ []) []) ∷ []) }
    ensures lost { lost.new ≡ after_uses local.now.values lost.old (token_use token.entry.bytes.now ∷ []) }
{
    let token = operand(local, TOKEN, &Value::Local(token), lost);
    push_single(
        alloc,
        Some(name),
        Op::GcResult,
        type_of(answer),
        token,
        insts,
    )
}

fn gc_relocate(
    local: &Local,
    alloc: Global,
    name: &[u8],
    token: ir_reader::Name,
    base: Literal,
    derived: Literal,
    insts: &mut Vec<Inst>,
    lost: &mut Lost,
) -> Result<(), Memory>
    ensures insts { OnOk result (insts.new.items ≡ insts.old.items ++ (instruction (Some name.now) Op.GcRelocate Ty.Ptr
        (operand_in local.now.values token_type (values.local token.entry.bytes.now)
        ∷ operand_in local.now.values (Int 32) (values.number base)
        ∷ operand_in local.now.values (Int 32) (values.number derived) ∷ []) []) ∷ []) }
    ensures lost { lost.new ≡ after_uses local.now.values lost.old (token_use token.entry.bytes.now ∷ index_use base ∷ index_use derived ∷ []) }
{
    let index = TypeWord::Int(Width { bits: 32 });
    let operands = [
        operand(local, TOKEN, &Value::Local(token), lost),
        operand(local, index, &Value::Number(base), lost),
        operand(local, index, &Value::Number(derived), lost),
    ];
    push_inst(
        alloc,
        Some(name),
        Op::GcRelocate,
        Ty::Ptr,
        &operands,
        &[],
        insts,
    )
}

// A `switch` with the cases that stand behind it. What a case loses is found at its own line.
fn switch(
    local: &Local,
    alloc: Global,
    width: Width,
    value: &Value,
    default: &[u8],
    behind: &[NumberedReading],
    insts: &mut Vec<Inst>,
    lost: &mut Lost,
) -> Result<(), Memory>
    ensures insts { OnOk result (insts.new.items ≡ insts.old.items ++ (instruction None Op.Switch (Ty.Int width.bits)
        (operand_in local.now.values (Int width.bits) (seen_value value.now) ∷ case_values local.now.values width.bits (seen_lines behind.now))
        (label_in local.now.blocks default.now ∷ case_labels local.now.blocks (seen_lines behind.now))) ∷ []) }
    ensures lost { OnOk result (lost.new ≡ after_named local.now.blocks (default.now ∷ [])
        (after_uses local.now.values lost.old ((seen_value value.now, Int width.bits) ∷ []))) }
{
    let ty = TypeWord::Int(width);
    let mut operands: Operands = SmallVec::new(alloc);
    let mut labels: Labels = SmallVec::new(alloc);
    operands.push(operand(local, ty, value, lost))?;
    labels.push(label(local, default, lost))?;
    for line in behind {
        let Reading::Case { value, label, .. } = &line.reading else {
            break;
        };
        operands.push(local.operand(ty, value))?;
        labels.push(local.label(label.bytes))?;
    }
    let rest = with_labels(alloc, labels.as_slice())?;
    insts.push(Inst::of(None, Op::Switch, type_of(ty), operands, rest))?;
    Ok(())
}

// A case of a `switch`, which is no instruction by itself.
fn case(local: &Local, width: Width, value: &Value, to: &[u8], lost: &mut Lost)
    ensures { lost.new ≡ after_named local.now.blocks (to.now ∷ []) (after_uses local.now.values lost.old ((seen_value value.now, Int width.bits) ∷ [])) }
{
    operand(local, TypeWord::Int(width), value, lost);
    label(local, to, lost);
}

// Whether it is the name of an external that reaches no safepoint.
fn is_leaf(name: &[u8]) -> bool
    ensures { result ≡ is_leaf_name name.now }
{
    is_text(name, b"print_i64")
        || is_text(name, b"read_i64")
        || is_text(name, b"gc_check")
        || is_text(name, b"gc_same")
}

// What a call keeps of its bundle: of a leaf nothing.
fn kept_by<'k, 'a>(callee: &[u8], kept: &'k [KeptEntry<'a>]) -> &'k [KeptEntry<'a>]
    ensures { map seen_kept result.now ≡ (if is_leaf_name callee.now then [] else map seen_kept kept.now) }
{
    if is_leaf(callee) { &[] } else { kept }
}

impl Scope<'_, '_, '_, '_> {
    fn layout(&self, name: &[u8], lost: &mut Lost) -> u32
        ensures layout { result ≡ number_in self.now.top.now.layouts name.now }
        ensures lost { lost.new ≡ after_named self.now.top.now.layouts (name.now ∷ []) lost.old }
    {
        let place = self.top.layouts.find(name);
        lost.unknown = place.is_none() || lost.unknown;
        number_of(place)
    }

    fn external(&self, name: &[u8]) -> Callee
        ensures { result ≡ external_callee (known_in self.now) name.now }
    {
        if is_text(name, b"print_i64") {
            Callee::Print
        } else if is_text(name, b"read_i64") {
            Callee::Read
        } else if is_text(name, b"task_start") {
            Callee::TaskStart
        } else if is_text(name, b"gc.safepoint_poll") {
            Callee::Poll
        } else if is_text(name, b"gc_check") {
            Callee::Check
        } else if is_text(name, b"gc_same") {
            Callee::Same
        } else {
            Callee::New(self.top.layouts.number(layout_made(name)))
        }
    }

    fn callee(&self, name: &[u8]) -> Callee
        ensures { result ≡ callee_of (known_in self.now) name.now }
    {
        match self.top.functions.find(name) {
            Some(place) => Callee::Fun(FuncId(number_of(Some(place)))),
            None => self.external(name),
        }
    }

    // What is passed. Whether there is the function that a task starts at is judged with the callee.
    fn passed_operand(&self, one: &Passed, lost: &mut Lost) -> Operand
        ensures operand { result ≡ passed_operand (known_in self.now) (seen_passed one.now) }
        ensures lost { lost.new ≡ after_uses self.now.local.now.values lost.old (option_to_list (passed_value (seen_passed one.now))) }
    {
        match one {
            Passed::Value(ty, value) => operand(self.local, *ty, value, lost),
            Passed::Function(name) => Operand::Fun(FuncId(self.top.functions.number(name.bytes))),
        }
    }

    // The entry of a bundle.
    fn kept_entry(&self, one: &KeptEntry, lost: &mut Lost) -> (Ty, Operand)
        ensures entry { result ≡ kept_entry (known_in self.now) (seen_kept one.now) }
        ensures lost { lost.new ≡ after_uses self.now.local.now.values lost.old (seen_kept one.now ∷ []) }
    {
        let operand = operand(self.local, one.ty, &one.value, lost);
        (type_of(one.ty), operand)
    }

    // The bundle of these entries. Where there is none, no memory is taken.
    fn bundle(
        &self,
        alloc: Global,
        kept: &[KeptEntry],
        lost: &mut Lost,
    ) -> Result<Vec<(Ty, Operand)>, Memory>
        ensures made { IfOk result (λ made. made.items ≡ map (kept_entry (known_in self.now)) (map seen_kept kept.now)) }
        ensures lost { OnOk result (lost.new ≡ after_uses self.now.local.now.values lost.old (map seen_kept kept.now)) }
    {
        let mut bundle = Vec::new(alloc);
        for one in kept {
            bundle.push(self.kept_entry(one, lost))?;
        }
        Ok(bundle)
    }

    // The call with these operands and this bundle.
    fn called(
        &self,
        alloc: Global,
        name: Option<&[u8]>,
        answer: TypeWord,
        callee: &[u8],
        passed: &[Passed],
        operands: Operands,
        bundle: Vec<(Ty, Operand)>,
        insts: &mut Vec<Inst>,
    ) -> Result<(), Memory>
        ensures insts { OnOk result (insts.new.items ≡ insts.old.items ++ (keeping bundle.items (instruction (option_copied name.entry)
            (Op.Call (callee_of (known_in self.now) callee.now) (map given_type (map seen_passed passed.now))) (type_of (seen_type answer)) operands.items [])) ∷ []) }
    {
        let op = Op::Call {
            callee: self.callee(callee),
            types: types_of(alloc, passed)?,
        };
        let name = named(alloc, name)?;
        let rest = Rest::of(alloc, &[], bundle)?;
        insts.push(Inst::of(name, op, type_of(answer), operands, rest))?;
        Ok(())
    }

    // A call that passes these, with what it keeps of these.
    fn call(
        &self,
        alloc: Global,
        name: Option<&[u8]>,
        answer: TypeWord,
        callee: &[u8],
        passed: &[Passed],
        kept: &[KeptEntry],
        insts: &mut Vec<Inst>,
        lost: &mut Lost,
    ) -> Result<(), Memory>
        ensures insts { OnOk result (insts.new.items ≡ insts.old.items ++ option_to_list (instruction_said (known_in self.now) []
            (call (option_copied name.entry) (calling (seen_type answer) callee.now (map seen_passed passed.now) (map seen_kept kept.now))))) }
        ensures lost { OnOk result (lost.new ≡ after_line self.now.form (tables_in self.now) lost.old
            (call (option_copied name.entry) (calling (seen_type answer) callee.now (map seen_passed passed.now) (map seen_kept kept.now)))) }
    {
        let operands = self.passed_operands(alloc, passed, lost)?;
        let bundle = self.bundle(alloc, kept_by(callee, kept), lost)?;
        self.note_call(answer, callee, passed, lost);
        self.called(alloc, name, answer, callee, passed, operands, bundle, insts)
    }

    // The instruction of a conversion from or to pointers, which no module has: a call that passes nothing keeps its
    // result's place among the values.
    fn cast(
        &self,
        alloc: Global,
        name: &[u8],
        from: TypeWord,
        value: &Value,
        to: TypeWord,
        insts: &mut Vec<Inst>,
        lost: &mut Lost,
    ) -> Result<(), Memory>
        ensures insts { OnOk result (insts.new.items ≡ insts.old.items ++ (instruction (Some name.now) (Op.Call (callee_of (known_in self.now) []) []) (type_of (seen_type to)) [] []) ∷ []) }
        ensures lost { lost.new ≡ after_spelling (not (fits_in self.now.local.now.values (map seen_type self.now.local.now.types.items) (seen_type from) (seen_value value.now)))
            (after_uses self.now.local.now.values lost.old ((seen_value value.now, seen_type from) ∷ [])) }
    {
        operand(self.local, from, value, lost);
        lost.misspelled = !fits(self.local, from, value) || lost.misspelled;
        let op = Op::Call {
            callee: self.callee(b""),
            types: Types::nothing(),
        };
        push_inst(alloc, Some(name), op, type_of(to), &[], &[], insts)
    }

    fn layout_step(
        &self,
        alloc: Global,
        name: &[u8],
        layout: &[u8],
        place: Option<Literal>,
        address: &Value,
        width: Width,
        index: &Value,
        insts: &mut Vec<Inst>,
        lost: &mut Lost,
    ) -> Result<(), Memory>
        ensures insts { OnOk result (insts.new.items ≡ insts.old.items ++ (instruction (Some name.now)
            (Op.Gep (Elem.Layout (number_in self.now.top.now.layouts layout.now)) width.bits (option_map place_of place)) Ty.Ptr
            (operand_in self.now.local.now.values Managed (seen_value address.now) ∷ operand_in self.now.local.now.values (Int width.bits) (seen_value index.now) ∷ []) []) ∷ []) }
        ensures lost { lost.new ≡ after_spelling (is_below_zero place) (after_named self.now.top.now.layouts (layout.now ∷ [])
            (after_uses self.now.local.now.values lost.old ((seen_value address.now, Managed) ∷ (seen_value index.now, Int width.bits) ∷ []))) }
    {
        let address = operand(self.local, TypeWord::Managed, address, lost);
        let index = operand(self.local, TypeWord::Int(width), index, lost);
        let op = Op::Gep {
            elem: Elem::Layout(self.layout(layout, lost)),
            index_width: width.bits,
            place: place_if_any(place),
        };
        lost.misspelled = is_below_zero(place) || lost.misspelled;
        push_pair(alloc, Some(name), op, Ty::Ptr, address, index, insts)
    }

    // The operands of what is passed.
    fn passed_operands(
        &self,
        alloc: Global,
        passed: &[Passed],
        lost: &mut Lost,
    ) -> Result<Operands, Memory>
        ensures made { IfOk result (λ made. made.items ≡ map (passed_operand (known_in self.now)) (map seen_passed passed.now)) }
        ensures lost { OnOk result (lost.new ≡ after_uses self.now.local.now.values lost.old (filter_map passed_value (map seen_passed passed.now))) }
    {
        let mut operands: Operands = SmallVec::new(alloc);
        for one in passed {
            operands.push(self.passed_operand(one, lost))?;
        }
        Ok(operands)
    }

    // The operands of a statepoint: its arguments first and then its live entries.
    fn statepoint_operands(
        &self,
        alloc: Global,
        passed: &[Passed],
        live: &[Value],
        lost: &mut Lost,
    ) -> Result<Operands, Memory>
        ensures made { IfOk result (λ made. made.items ≡ map (passed_operand (known_in self.now)) (map seen_passed passed.now)
            ++ map (used_operand (known_in self.now)) (map live_use (map seen_value live.now))) }
        ensures lost { OnOk result (lost.new ≡ after_uses self.now.local.now.values lost.old
            (filter_map passed_value (map seen_passed passed.now) ++ map live_use (map seen_value live.now))) }
    {
        let mut operands = self.passed_operands(alloc, passed, lost)?;
        for entry in live {
            operands.push(operand(self.local, TypeWord::Managed, entry, lost))?;
        }
        Ok(operands)
    }

    // The statepoint with these operands and this bundle.
    fn guarded(
        &self,
        alloc: Global,
        name: &[u8],
        call: &StatepointCall,
        operands: Operands,
        bundle: Vec<(Ty, Operand)>,
        insts: &mut Vec<Inst>,
    ) -> Result<(), Memory>
        ensures insts { OnOk result (insts.new.items ≡ insts.old.items ++ (keeping bundle.items (instruction (Some name.now)
            (Op.Statepoint (wrapped 64 (seen_guarded call.now).id) (callee_of (known_in self.now) (seen_guarded call.now).callee)
            (map given_type (seen_guarded call.now).passed)) (type_of (seen_guarded call.now).signature.answer) operands.items [])) ∷ []) }
    {
        let op = Op::Statepoint {
            id: wrapped(64, call.id),
            callee: self.callee(call.callee.bytes),
            types: types_of(alloc, call.passed.as_slice())?,
        };
        let ty = type_of(call.function_type.answer);
        let name = owned(alloc, name)?;
        let rest = Rest::of(alloc, &[], bundle)?;
        insts.push(Inst::of(Some(name), op, ty, operands, rest))?;
        Ok(())
    }

    fn statepoint(
        &self,
        alloc: Global,
        name: &[u8],
        call: &StatepointCall,
        live: &[Value],
        insts: &mut Vec<Inst>,
        lost: &mut Lost,
    ) -> Result<(), Memory>
        ensures insts { OnOk result (insts.new.items ≡ insts.old.items
            ++ option_to_list (instruction_said (known_in self.now) [] (statepoint name.now (seen_guarded call.now) (map seen_value live.now)))) }
        ensures lost { OnOk result (lost.new
            ≡ after_line self.now.form (tables_in self.now) lost.old (statepoint name.now (seen_guarded call.now) (map seen_value live.now))) }
    {
        let operands = self.statepoint_operands(alloc, call.passed.as_slice(), live, lost)?;
        let bundle = self.bundle(alloc, call.kept.as_slice(), lost)?;
        self.note_statepoint(call, lost);
        self.guarded(alloc, name, call, operands, bundle, insts)
    }

    /// Adds the instruction of a line behind the others, where it is one; a `switch` has the cases that stand behind it.
    /// Adds what the line loses.
    pub(crate) fn instruction(
        &self,
        alloc: Global,
        reading: &Reading,
        behind: &[NumberedReading],
        insts: &mut Vec<Inst>,
        lost: &mut Lost,
    ) -> Result<(), Memory>
        ensures insts { OnOk result (insts.new.items ≡ insts.old.items
            ++ option_to_list (instruction_said (known_in self.now) (seen_lines behind.now) (said reading.now))) }
        ensures lost { OnOk result (lost.new ≡ after_line self.now.form (tables_in self.now) lost.old (said reading.now)) }
    {
        let local = self.local;
        match reading {
            Reading::Binary {
                result,
                op,
                width,
                left,
                right,
            } => binary(
                local,
                alloc,
                result.bytes,
                *op,
                *width,
                left,
                right,
                insts,
                lost,
            ),
            Reading::Compare {
                result,
                pred,
                ty,
                left,
                right,
            } => compare(
                local,
                alloc,
                result.bytes,
                *pred,
                *ty,
                left,
                right,
                insts,
                lost,
            ),
            Reading::Convert {
                result,
                op,
                width,
                value,
                to,
            } => convert(
                local,
                alloc,
                result.bytes,
                *op,
                *width,
                value,
                *to,
                insts,
                lost,
            ),
            Reading::Select {
                result,
                condition,
                left_ty,
                left,
                right_ty,
                right,
            } => select(
                local,
                alloc,
                result.bytes,
                condition,
                *left_ty,
                left,
                *right_ty,
                right,
                insts,
                lost,
            ),
            Reading::Phi {
                result,
                ty,
                entries,
            } => phi(
                local,
                alloc,
                result.bytes,
                *ty,
                entries.as_slice(),
                insts,
                lost,
            ),
            Reading::ScalarElement {
                result,
                element,
                address,
                width,
                index,
            } => scalar_step(
                local,
                alloc,
                result.bytes,
                *element,
                address,
                *width,
                index,
                insts,
                lost,
            ),
            Reading::LayoutElement {
                result,
                layout,
                address,
                width,
                index,
                place,
            } => self.layout_step(
                alloc,
                result.bytes,
                layout.bytes,
                *place,
                address,
                *width,
                index,
                insts,
                lost,
            ),
            Reading::Load {
                result,
                ty,
                address,
            } => load(local, alloc, result.bytes, *ty, address, insts, lost),
            Reading::Store { ty, value, address } => store(
                local, alloc, *ty, value, address, insts, lost,
            ),
            Reading::ValueCall {
                result,
                answer,
                callee,
                passed,
                kept,
            } => self.call(
                alloc,
                Some(result.bytes),
                *answer,
                callee.bytes,
                passed.as_slice(),
                kept.as_slice(),
                insts,
                lost,
            ),
            Reading::VoidCall {
                callee,
                passed,
                kept,
            } => self.call(
                alloc,
                None,
                TypeWord::Void,
                callee.bytes,
                passed.as_slice(),
                kept.as_slice(),
                insts,
                lost,
            ),
            Reading::Jump { label } => jump(local, alloc, label.bytes, insts, lost),
            Reading::Branch {
                condition,
                on_true,
                on_false,
            } => branch(
                local,
                alloc,
                condition,
                on_true.bytes,
                on_false.bytes,
                insts,
                lost,
            ),
            Reading::Switch {
                width,
                value,
                default,
            } => switch(
                local,
                alloc,
                *width,
                value,
                default.bytes,
                behind,
                insts,
                lost,
            ),
            Reading::ReturnVoid => push_inst(alloc, None, Op::Ret, Ty::Void, &[], &[], insts),
            Reading::Return { ty, value } => ret(local, alloc, *ty, value, insts, lost),
            Reading::Unreachable => push_inst(
                alloc,
                None,
                Op::Unreachable,
                Ty::Void,
                &[],
                &[],
                insts,
            ),
            Reading::Statepoint { result, call, live } => {
                self.statepoint(alloc, result.bytes, &**call, live.as_slice(), insts, lost)
            }
            Reading::GcResult {
                result,
                answer,
                token,
            } => gc_result(local, alloc, result.bytes, *answer, *token, insts, lost),
            Reading::GcRelocate {
                result,
                token,
                base,
                derived,
            } => gc_relocate(
                local,
                alloc,
                result.bytes,
                *token,
                *base,
                *derived,
                insts,
                lost,
            ),
            Reading::Cast {
                result,
                from,
                value,
                to,
                ..
            } => self.cast(alloc, result.bytes, *from, value, *to, insts, lost),
            Reading::Case {
                width,
                value,
                label,
            } => {
                case(local, *width, value, label.bytes, lost);
                Ok(())
            }
            _ => Ok(()),
        }
    }
}
