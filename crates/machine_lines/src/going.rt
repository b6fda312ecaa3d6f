//! Lines that stay in their frame, one after another.

ghost use Rattle.std.specs.Prelude.{◌≡◌, ◌≤◌, ◌+◌, false, List, drop, map, length, IsTrue, IfSome, IfNone, slice_set};
ghost use Rattle.ir_ast.specs.Layouts.{ObjectLayout};
ghost use Rattle.ir_ast.specs.Objects.{number};
ghost use Rattle.machine_meaning.specs.Machines.{Machine, Machinery};
ghost use Rattle.machine_lines.specs.Decoding.{decoded_of};
ghost use Rattle.machine_lines.specs.Going.{Does, DoesLine, GoesOver, stood};
ghost use Rattle.machine_lines.specs.Lines.{lines_left};

use crate::accesses::{cell_named, stepped_word};
use crate::computing::outcome;
use crate::decoded::{Decoded, Lines};
use heap_hints::Hints;
use ir_ast::{Callee, Inst, Layout, Op};
use moving_heap::Heap;

/// The lines that stand first take effect on registers and on the heap, up to one that leaves its frame, is denied or traps, or
/// has no register for its result. How many they are, and the register of the next result.
#[inline(always)]
pub fn go_over(
    registers: &mut [u64],
    heap: &mut Heap,
    hints: &mut Hints,
    layouts: &[Layout],
    first: usize,
    lines: Lines<'_>,
) -> (usize, usize)
    ensures within { result.0 ≤ length lines.entry.insts.now }
    ensures stands { heap.new.stands ≡ heap.old.stands }
    ensures goes { (machinery : Machinery) → (machine : Machine) → layouts.now ≡ machinery.setting.layouts → GoesOver machinery (stood machine (lines_left first lines.entry.insts.now) (map number registers.old) heap.old) (stood machine (lines_left result.1 (drop result.0 lines.entry.insts.now)) (map number registers.new) heap.new) }
{
    go_over_all(
        registers,
        heap,
        hints,
        layouts,
        first,
        lines.insts,
        lines.decoded,
    )
}

#[inline(always)]
fn go_over_all(
    registers: &mut [u64],
    heap: &mut Heap,
    hints: &mut Hints,
    layouts: &[Layout],
    first: usize,
    insts: &[Inst],
    decoded: &[Decoded],
) -> (usize, usize)
    requires { decoded.now ≡ map decoded_of insts.now }
    ensures within { result.0 ≤ length insts.now }
    ensures stands { heap.new.stands ≡ heap.old.stands }
    ensures goes { (machinery : Machinery) → (machine : Machine) → layouts.now ≡ machinery.setting.layouts → GoesOver machinery (stood machine (lines_left first insts.now) (map number registers.old) heap.old) (stood machine (lines_left result.1 (drop result.0 insts.now)) (map number registers.new) heap.new) }
{
    let mut next = first;
    for (place, inst) in insts.iter().enumerate() {
        match do_line(registers, heap, hints, layouts, next, inst, &decoded[place]) {
            None => return (place, next),
            Some(after) => next = after,
        }
    }
    (insts.len(), next)
}

// One line takes effect, unless the loop stops at it. The register of the next result.
#[inline(always)]
fn do_line(
    registers: &mut [u64],
    heap: &mut Heap,
    hints: &mut Hints,
    layouts: &[Layout],
    next: usize,
    inst: &Inst,
    one: &Decoded,
) -> Option<usize>
    requires { one.now ≡ decoded_of inst.now }
    ensures did { IfSome result (λ after. DoesLine layouts.now inst.now next registers.old heap.old after registers.new heap.new) }
    ensures registers { IfNone result (registers.new ≡ registers.old) }
    ensures heap { IfNone result (heap.new ≡ heap.old) }
    ensures stands { heap.new.stands ≡ heap.old.stands }
{
    if one.gives {
        let word = word_given(registers, heap, hints, layouts, inst, one)?;
        put_next(registers, next, word)
    } else if is_done(registers, heap, hints, inst, one) {
        Some(next)
    } else {
        None
    }
}

// The next result goes to its register, if there is one. The register of the result behind it.
#[inline(always)]
fn put_next(registers: &mut [u64], next: usize, word: u64) -> Option<usize>
    ensures some { IfSome result (λ after. (after ≡ next + 1) × (registers.new ≡ slice_set registers.old next word)) }
    ensures none { IfNone result (registers.new ≡ registers.old) }
{
    if next < registers.len() {
        registers[next] = word;
        Some(next + 1)
    } else {
        None
    }
}

// The word that a line gives which has a result.
#[inline(always)]
fn word_given(
    registers: &[u64],
    heap: &Heap,
    hints: &mut Hints,
    layouts: &[Layout],
    inst: &Inst,
    one: &Decoded,
) -> Option<u64>
    requires { one.now ≡ decoded_of inst.now }
    ensures { IfSome result (λ word. Does layouts.now inst.now registers.now heap.now word heap.now) }
{
    if one.plain {
        return outcome(inst.op(), inst.ty(), one, registers);
    }
    match inst.op() {
        Op::Gep {
            elem,
            index_width,
            place,
        } => {
            let from = one.first_word(registers);
            let index = one.second_word(registers);
            Some(stepped_word(layouts, *elem, *index_width, *place, from, index))
        }
        Op::Load => match hints.load(heap, one.first_word(registers)) {
            Ok(word) => Some(word),
            Err(_deny) => None,
        },
        _ => None,
    }
}

// Whether a line without a result took effect; else the heap stays.
#[inline(always)]
fn is_done(
    registers: &[u64],
    heap: &mut Heap,
    hints: &mut Hints,
    inst: &Inst,
    one: &Decoded,
) -> bool
    requires { one.now ≡ decoded_of inst.now }
    ensures done { IsTrue result → (layouts : List ObjectLayout) → Does layouts inst.now registers.now heap.old 0 heap.new }
    ensures kept { result ≡ false → heap.new ≡ heap.old }
    ensures stands { heap.new.stands ≡ heap.old.stands }
{
    match inst.op() {
        Op::Store => {
            let word = one.first_word(registers);
            let place = one.second_word(registers);
            match hints.store(heap, place, word) {
                Ok(()) => true,
                Err(_deny) => false,
            }
        }
        Op::Call { callee, .. } => match callee {
            Callee::Check => {
                let base = one.first_word(registers);
                let place = one.second_word(registers);
                let kind = cell_named(one.third_word(registers));
                match hints.check(heap, base, place, kind) {
                    Ok(()) => true,
                    Err(_deny) => false,
                }
            }
            _ => false,
        },
        _ => false,
    }
}
