//! Statepoint groups (Garbage Collection Safepoints in LLVM, "Intrinsics").

ghost use Rattle.std.specs.Prelude.{◌≡◌, ◌↔◌, ◌+◌, ◌<◌, ◌^◌, ◌++◌, ◌∷◌, [], ℕ, IsTrue, Some, slice_get, map, drop, length, is_some, if◌then◌else◌, OnOk, true};
ghost use Rattle.std.specs.List.{All, filter_map, list_all, list_any};
ghost use Rattle.std.specs.Option.{option_map};
ghost use Rattle.ir_ast.specs.declared.types.Ty.TheVariants.{Token};
ghost use Rattle.ir_ast.specs.declared.ops.Operand.TheVariants.{Value};
ghost use Rattle.sp_ids.specs.declared.ids.ValueId.{ValueId};
ghost use Rattle.ir_ast.specs.Funcs.{instructions_of};
ghost use Rattle.ir_ast.specs.Operands.{same_operand, value_in, values_used, named};
ghost use Rattle.ir_ast.specs.Values.{value_types};
ghost use Rattle.ir_ast.specs.Faults.GroupShape.{entries_of, holds_live, is_held, is_part};
ghost use Rattle.ir_verify.specs.Bodies.{insts_of};
ghost use Rattle.body_tables.specs.Bodies.{seen_insts, given_by};
ghost use Rattle.ir_verify.specs.Founds.{FoundIn};
ghost use Rattle.ir_verify.specs.FunctionFaults.{ShapeAt};
ghost use Rattle.ir_verify.specs.Groups.{is_value_of, seen_open, kept_open, behind_op, ResultFits, IsResultOf, RelocateFits, IsRelocateOf, number_in, NamesEntries, HaveEntries, NamesToken, UsesNo, IsApartBy, ShapeBy};
ghost use Rattle.ir_lines.specs.Notes.{Notes};

use crate::types::all_fit;
use ir_ast::{Func, Inst, Op, Operand, Ty};
use ir_lines::best::First;

/// The statepoint with which some instructions end, but for parts of its group.
#[derive(Clone, Copy)]
pub(crate) struct Open<'a> {
    /// The number of its token.
    pub(crate) number: u64,
    /// What its callee answers.
    pub(crate) answer: Ty,
    pub(crate) live: &'a [Operand],
    /// No part stands behind it yet.
    pub(crate) is_fresh: bool,
}

// ---- what is open

fn is_value_of(operand: Option<Operand>, token: u64) -> bool
    ensures { result ≡ is_value_of token operand }
{
    match operand {
        Some(Operand::Value(value)) => u64::from(value.0) == token,
        _ => false,
    }
}

fn starts_with(operands: &[Operand], token: u64) -> bool
    ensures { result ≡ is_value_of token (slice_get operands.now 0) }
{
    is_value_of(operands.get(0).copied(), token)
}

// Whether it is a result or a relocate of this token.
fn is_part(inst: &Inst, token: u64) -> bool
    ensures { result ≡ is_part token inst.now }
{
    let operands = inst.operands();
    match inst.op() {
        Op::GcResult => starts_with(operands, token),
        Op::GcRelocate => starts_with(operands, token),
        _ => false,
    }
}

// What is open behind a part.
fn kept_open<'a>(held: Option<Open<'a>>, inst: &Inst) -> Option<Open<'a>>
    ensures { option_map seen_open result ≡ kept_open (option_map seen_open held.entry) inst.now }
{
    match held {
        Some(group) => {
            if is_part(inst, group.number) {
                Some(Open {
                    number: group.number,
                    answer: group.answer,
                    live: group.live,
                    is_fresh: false,
                })
            } else {
                None
            }
        }
        None => None,
    }
}

// What is open behind an instruction, where so many values stand before its own.
fn open_behind<'a>(held: Option<Open<'a>>, number: u64, inst: &'a Inst) -> Option<Open<'a>>
    ensures { option_map seen_open result ≡ behind_op (option_map seen_open held.entry) number inst.now.op inst.now }
{
    match inst.op() {
        Op::Statepoint { .. } => Some(Open {
            number,
            answer: *inst.ty(),
            live: inst.live_entries(),
            is_fresh: true,
        }),
        Op::GcResult => kept_open(held, inst),
        Op::GcRelocate => kept_open(held, inst),
        _ => None,
    }
}

// ---- results and relocates

// Whether the operands are this token alone.
fn is_alone(operands: &[Operand], token: u64) -> bool
    ensures { IsTrue result ↔ (operands.now ≡ named token ∷ []) }
{
    match operands {
        [Operand::Value(value)] => u64::from(value.0) == token,
        _ => false,
    }
}

fn is_result_of(group: &Open, inst: &Inst) -> bool
    ensures { IsTrue result ↔ IsResultOf (seen_open group.now) inst.now }
{
    is_alone(inst.operands(), group.number) && group.is_fresh && *inst.ty() == group.answer
}

// Whether it directly follows its statepoint, with the type of the callee's answer.
fn result_fits(held: Option<Open>, inst: &Inst) -> bool
    ensures { IsTrue result ↔ ResultFits (option_map seen_open held.entry) inst.now }
{
    match held {
        Some(group) => is_result_of(&group, inst),
        None => false,
    }
}

fn is_entry(live: &[Operand], place: u64) -> bool
    ensures { IsTrue result ↔ (place < length live.now) }
{
    (place as usize) < live.len()
}

// Whether an entry is a value.
fn is_relocated(live: &[Operand], place: u64) -> bool
    ensures { IsTrue result ↔ ((value : ValueId) × (slice_get live.now place ≡ Some (Value value))) }
{
    matches!(live.get(place as usize), Some(Operand::Value(_)))
}

fn number_in(operand: Option<Operand>) -> Option<u64>
    ensures { result ≡ number_in operand }
{
    match operand {
        Some(Operand::Int(number)) => Some(number),
        _ => None,
    }
}

fn number_at(operands: &[Operand], place: usize) -> Option<u64>
    ensures { result ≡ number_in (slice_get operands.now place) }
{
    number_in(operands.get(place).copied())
}

// Whether two indices name two entries of the group that a relocate can.
fn names_entries(group: &Open, base: u64, derived: u64) -> bool
    ensures { IsTrue result ↔ NamesEntries (seen_open group.now) base derived }
{
    is_entry(group.live, base) && is_relocated(group.live, derived)
}

fn have_entries(group: &Open, base: Option<u64>, derived: Option<u64>) -> bool
    ensures { IsTrue result ↔ HaveEntries (seen_open group.now) base derived }
{
    match base {
        Some(base) => match derived {
            Some(derived) => names_entries(group, base, derived),
            None => false,
        },
        None => false,
    }
}

fn is_relocate_of(group: &Open, inst: &Inst) -> bool
    ensures { IsTrue result ↔ IsRelocateOf (seen_open group.now) inst.now }
{
    let operands = inst.operands();
    if operands.len() != 3 {
        return false;
    }
    if !starts_with(operands, group.number) {
        return false;
    }
    have_entries(group, number_at(operands, 1), number_at(operands, 2))
}

// Whether it stands in its group, and names two entries of it that it can.
fn relocate_fits(held: Option<Open>, inst: &Inst) -> bool
    ensures { IsTrue result ↔ RelocateFits (option_map seen_open held.entry) inst.now }
{
    match held {
        Some(group) => is_relocate_of(&group, inst),
        None => false,
    }
}

// ---- tokens elsewhere

fn is_token(types: &[Ty], operand: Operand) -> bool
    ensures { IsTrue result ↔ NamesToken types.now operand }
{
    match operand {
        Operand::Value(value) => is_token_type(types.get(value.0 as usize).copied()),
        Operand::Int(_) | Operand::Null | Operand::Fun(_) => false,
    }
}

fn is_token_type(ty: Option<Ty>) -> bool
    ensures { IsTrue result ↔ (ty ≡ Some Token) }
{
    matches!(ty, Some(Ty::Token))
}

fn no_token(types: &[Ty], operands: &[Operand]) -> bool
    ensures { IsTrue result ↔ All (λ operand. ¬ NamesToken types.now operand) operands.now }
{
    for operand in operands {
        if is_token(types, *operand) {
            return false;
        }
    }
    true
}

fn no_token_kept(types: &[Ty], bundle: &[(Ty, Operand)]) -> bool
    ensures { IsTrue result ↔ All (λ entry. ¬ NamesToken types.now entry.1) bundle.now }
{
    for entry in bundle {
        if is_token(types, entry.1) {
            return false;
        }
    }
    true
}

fn uses_no_token(types: &[Ty], inst: &Inst) -> bool
    ensures { IsTrue result ↔ UsesNo types.now inst.now }
{
    no_token(types, inst.operands()) && no_token_kept(types, inst.bundle())
}

fn is_apart(types: &[Ty], inst: &Inst) -> bool
    ensures { IsTrue result ↔ IsApartBy types.now inst.now }
{
    uses_no_token(types, inst) && all_fit(types, inst.live_entries(), Ty::Ptr)
}

// ---- what a statepoint keeps

fn has_entry(live: &[Operand], operand: Operand) -> bool
    ensures { result ≡ list_any (λ entry. same_operand entry operand) live.now }
{
    live.iter().any(|entry| entry.is_same(operand))
}

fn is_held(live: &[Operand], entry: &(Ty, Operand)) -> bool
    ensures { result ≡ is_held live.now entry.now.0 entry.now.1 }
{
    match entry {
        (Ty::Ptr, Operand::Value(_)) => has_entry(live, entry.1),
        _ => true,
    }
}

fn all_held(live: &[Operand], bundle: &[(Ty, Operand)]) -> bool
    ensures { result ≡ list_all (λ entry. is_held live.now entry.0 entry.1) bundle.now }
{
    bundle.iter().all(|entry| is_held(live, entry))
}

// Whether each pointer that the bundle of a statepoint names is one of its live entries.
fn holds_live(inst: &Inst) -> bool
    ensures { result ≡ holds_live inst.now }
{
    all_held(inst.live_entries(), inst.bundle())
}

fn keeps_live(types: &[Ty], inst: &Inst) -> bool
    ensures { IsTrue result ↔ (IsApartBy types.now inst.now × (holds_live inst.now ≡ true)) }
{
    is_apart(types, inst) && holds_live(inst)
}

// Whether an instruction is in shape, behind which group is open.
fn in_shape(types: &[Ty], held: Option<Open>, inst: &Inst) -> bool
    ensures { IsTrue result ↔ ShapeBy types.now (option_map seen_open held.entry) inst.now.op inst.now }
{
    match inst.op() {
        Op::GcResult => result_fits(held, inst),
        Op::GcRelocate => relocate_fits(held, inst),
        Op::Statepoint { .. } => keeps_live(types, inst),
        _ => is_apart(types, inst),
    }
}

// ---- a function

fn count_given(inst: &Inst) -> u64
    ensures { result ≡ length (given_by inst.now) }
{
    if inst.result().is_some() { 1 } else { 0 }
}

/// Notes the instructions of a function that are out of shape.
pub(crate) fn note_shapes(func: &Func, insts: &[&Inst], types: &[Ty], first: &mut First)
    requires insts { seen_insts insts.now ≡ instructions_of func.now.content.blocks }
    requires types { types.now ≡ value_types func.now.content }
    requires few { length (instructions_of func.now.content.blocks) < 2 ^ 30 }
    ensures { Notes first.old.found first.new.found (FoundIn (ShapeAt func.now) (insts_of func.now)) }
{
    let args = func.args();
    let mut number = args.len() as u64;
    let mut held = None;
    for (place, inst) in insts.iter().enumerate() {
        first.note_if(!in_shape(types, held, inst), func.line_of(place as u32), 18);
        held = open_behind(held, number, inst);
        number += count_given(inst);
    }
}
