//! Where the values of "deopt" bundles stand in a frame.
ghost use Rattle.std.specs.Prelude.{◌≡◌, ◌≤◌, ◌<◌, ◌^◌, ◌+◌, ◌++◌, length, map, OnOk, IfOk};
ghost use Rattle.std.specs.List.{position};
ghost use Rattle.ir_ast.specs.declared.ops.Operand.TheVariants.{Value};
ghost use Rattle.ir_ast.specs.Operands.{same_operand};
ghost use Rattle.ir_ast.specs.Funcs.{instructions_of};
ghost use Rattle.frame_forms.specs.BundleWords.{bundle_word, bundles_from, deopt_word, deopt_words, has_bundle, words_taken};
ghost use Rattle.frame_slots.specs.Tables.{words_of};

use crate::frames::is_named_integer;
use crate::returns::is_statepoint;
use ir_ast::{Func, Inst, Operand, Ty};
use sp_ids::{Memory, ValueId};
use std::alloc::Global;

/// A statepoint with a bundle: its place in its function, and the words of its operands.
#[derive(Drop)]
pub(crate) struct Bundle {
    pub(crate) place: u32,
    pub(crate) words: Vec<Option<usize>>,
}

/// The bundles of a function's statepoints.
pub(crate) fn bundles_of(alloc: Global, func: &Func) -> Result<Vec<Bundle>, Memory>
    ensures { IfOk result (λ bundles. map words_of bundles.items ≡ bundles_from 0 (instructions_of func.now.content.blocks)) }
{
    let mut bundles = Vec::new(alloc);
    let mut place = 0;
    for block in func.blocks() {
        let insts = block.insts();
        add_bundles(alloc, &mut bundles, place, insts)?;
        place += insts.len();
    }
    Ok(bundles)
}

// Adds those of instructions of which the first has this place.
fn add_bundles(
    alloc: Global,
    bundles: &mut Vec<Bundle>,
    first: usize,
    insts: &[Inst],
) -> Result<(), Memory>
    requires { first + length insts.now < 2 ^ 30 }
    ensures { OnOk result (map words_of bundles.new.items ≡ map words_of bundles.old.items ++ bundles_from first insts.now) }
{
    for (index, inst) in insts.iter().enumerate() {
        if has_bundle(inst) {
            let words = deopt_words(alloc, inst)?;
            bundles.push(Bundle {
                place: (first + index) as u32,
                words,
            })?;
        }
    }
    Ok(())
}

fn has_bundle(inst: &Inst) -> bool
    ensures { result ≡ has_bundle inst.now }
{
    is_statepoint(inst) && inst.bundle().len() > 0
}

// The word of each operand of a call's bundle.
fn deopt_words(alloc: Global, inst: &Inst) -> Result<Vec<Option<usize>>, Memory>
    ensures { IfOk result (λ words. words.items ≡ deopt_words inst.now) }
{
    let entries = inst.live_entries();
    let mut next = entries.len();
    let mut words = Vec::new(alloc);
    for entry in inst.bundle() {
        words.push(deopt_word(entries, next, entry.0, entry.1))?;
        next += words_taken(entry.0, entry.1);
    }
    Ok(words)
}

/// The word of an operand of a bundle, where these are the live entries and `next` is the first word that is free behind
/// them. A literal and `null` have none.
pub fn deopt_word(entries: &[Operand], next: usize, ty: Ty, operand: Operand) -> Option<usize>
    ensures { result ≡ deopt_word entries.now next ty operand }
{
    match (ty, operand) {
        (Ty::Int(_), Operand::Value(_)) => Some(next),
        (Ty::Ptr, Operand::Value(value)) => first_entry(entries, value),
        _ => None,
    }
}

// The place of the first entry that is this value.
fn first_entry(entries: &[Operand], value: ValueId) -> Option<usize>
    ensures { result ≡ position (λ entry. same_operand entry (Value value)) entries.now }
{
    entries
        .iter()
        .position(|entry| entry.is_same(Operand::Value(value)))
}

/// How many words behind the live entries an operand of a bundle takes.
pub fn words_taken(ty: Ty, operand: Operand) -> usize
    ensures value { result ≡ words_taken ty operand }
    ensures one { result ≤ 1 }
{
    if is_named_integer(ty, operand) { 1 } else { 0 }
}

/// The word of an operand of the statepoint at a place.
pub(crate) fn word_at(bundles: &[Bundle], place: u32, operand: u32) -> Option<usize>
    ensures { result ≡ bundle_word (map words_of bundles.now) place operand }
{
    for one in bundles {
        if one.place == place {
            return one.words.get(operand as usize).copied().unwrap_or(None);
        }
    }
    None
}
