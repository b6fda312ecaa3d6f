//! Records.
ghost use Rattle.std.specs.Prelude.{◌≡◌, ◌≤◌, ◌<◌, ◌^◌, ◌+◌, ◌*◌, ◌++◌, length, slice_get, pos, OnOk};
ghost use Rattle.std.specs.List.{flat_map, AllByRecursion};
ghost use Rattle.object_meaning.specs.Frames.{index_in};
ghost use Rattle.ir_ast.specs.Funcs.{instructions_of};
ghost use Rattle.map_bytes.specs.Maps.{place_bytes, record_bytes, padding_bytes};
ghost use Rattle.map_bytes.specs.Fits.{PlaceFits, RecordFits};
ghost use Rattle.stackmap_write.specs.ModuleMaps.{constant_place, deopt_place, deopt_places, head_places, listed_place, member_places, number_place, records_at, records_from, records_of, slot_place, statepoint_record};

use crate::constants::{entry_number, is_small};
use crate::fields::{put_i32, put_u8, put_u16, put_u32, put_u64};
use frame_slots::{deopt_word, group_size, words_taken};
use indexmap::IndexSet;
use ir_ast::{Func, Inst, Op, Operand, Ty};
use map_bytes::Place;
use sp_ids::Memory;

// Kinds of locations.
const INDIRECT: u8 = 3;

const CONSTANT: u8 = 4;

const CONSTANT_INDEX: u8 = 5;

/// The DWARF number of the stack pointer of x86-64.
const STACK_POINTER: u16 = 7;

/// Bytes of a word.
const WORD: u16 = 8;

/// Puts the records of a function's statepoints, in a map of these constants.
pub(crate) fn put_records(
    bytes: &mut Vec<u8>,
    constants: &IndexSet<u64>,
    func: &Func,
) -> Result<(), Memory>
    requires few { length constants.now.keys < 2 ^ 32 }
    requires fit { AllByRecursion (RecordFits (length constants.now.keys)) (records_of constants.now.keys func.now.content) }
    ensures { OnOk result (bytes.new.items ≡ bytes.old.items ++ flat_map record_bytes (records_of constants.now.keys func.now.content)) }
{
    let mut place = 0;
    for block in func.blocks() {
        let insts = block.insts();
        put_block(bytes, constants, place, insts)?;
        place += insts.len();
    }
    Ok(())
}

// Puts the records of instructions of which the first has this place.
#[tactic(auto, using(crate::proofs::RecordLemmas::inst_step, crate::proofs::AppendLemmas::all_front, crate::proofs::AppendLemmas::all_back))]
fn put_block(
    bytes: &mut Vec<u8>,
    constants: &IndexSet<u64>,
    first: usize,
    insts: &[Inst],
) -> Result<(), Memory>
    requires few { length constants.now.keys < 2 ^ 32 }
    requires small { first + length insts.now < 2 ^ 30 }
    requires fit { AllByRecursion (RecordFits (length constants.now.keys)) (records_from constants.now.keys first insts.now) }
    ensures { OnOk result (bytes.new.items ≡ bytes.old.items ++ flat_map record_bytes (records_from constants.now.keys first insts.now)) }
{
    for (index, inst) in insts.iter().enumerate() {
        put_inst(bytes, constants, first + index, inst, &insts[index + 1..])?;
    }
    Ok(())
}

// Puts the record of an instruction with this place, if it is a statepoint; `rest` stands behind it.
fn put_inst(
    bytes: &mut Vec<u8>,
    constants: &IndexSet<u64>,
    place: usize,
    inst: &Inst,
    rest: &[Inst],
) -> Result<(), Memory>
    requires few { length constants.now.keys < 2 ^ 32 }
    requires small { place + 1 + length rest.now < 2 ^ 30 }
    requires fit { AllByRecursion (RecordFits (length constants.now.keys)) (records_at place (deopt_places constants.now.keys inst.now) inst.now.op rest.now) }
    ensures { OnOk result (bytes.new.items ≡ bytes.old.items ++ flat_map record_bytes (records_at place (deopt_places constants.now.keys inst.now) inst.now.op rest.now)) }
{
    let Op::Statepoint { id, .. } = inst.op() else {
        return Ok(());
    };
    let size = group_size(inst, rest);
    put_record(
        bytes,
        constants,
        *id,
        4 * (place + 1 + size) as u32,
        inst,
        &rest[..size],
    )
}

// Puts the record of a statepoint with this group.
#[tactic(auto, unfolding(map_bytes::specs::Maps::record_bytes_then))]
fn put_record(
    bytes: &mut Vec<u8>,
    constants: &IndexSet<u64>,
    id: u64,
    offset: u32,
    call: &Inst,
    group: &[Inst],
) -> Result<(), Memory>
    requires few { length constants.now.keys < 2 ^ 32 }
    requires fits { RecordFits (length constants.now.keys) (statepoint_record id offset (deopt_places constants.now.keys call.now) group.now) }
    ensures { OnOk result (bytes.new.items ≡ bytes.old.items ++ record_bytes (statepoint_record id offset (deopt_places constants.now.keys call.now) group.now)) }
{
    let deopts = call.bundle().len();
    let places = place_count(deopts, group);
    put_u64(bytes, id)?;
    put_u32(bytes, offset)?;
    put_u16(bytes, 0)?;
    put_u16(bytes, places)?;
    put_head_places(bytes, deopts as u16)?;
    put_deopts(bytes, constants, call)?;
    put_pairs(bytes, group)?;
    put_padding(bytes, 16 + 12 * u64::from(places))?;
    put_u16(bytes, 0)?;
    put_u16(bytes, 0)?;
    put_padding(bytes, 4)?;
    Ok(())
}

// How many locations the record of a group has, with so many "deopt" locations.
fn place_count(deopts: usize, group: &[Inst]) -> u16
    requires { 3 + deopts + length (flat_map member_places group.now) < 2 ^ 16 }
    ensures { result ≡ 3 + deopts + length (flat_map member_places group.now) }
{
    let mut count = 3 + deopts as u16;
    for inst in group {
        if matches!(inst.op(), Op::GcRelocate) {
            count += 2;
        }
    }
    count
}

fn put_head_places(bytes: &mut Vec<u8>, deopts: u16) -> Result<(), Memory>
    ensures { OnOk result (bytes.new.items ≡ bytes.old.items ++ flat_map place_bytes (head_places deopts)) }
{
    put_place(bytes, constant_place(0))?;
    put_place(bytes, constant_place(0))?;
    put_place(bytes, constant_place(i32::from(deopts)))
}

// Puts a location for each operand of the bundle.
fn put_deopts(bytes: &mut Vec<u8>, constants: &IndexSet<u64>, call: &Inst) -> Result<(), Memory>
    requires few { length constants.now.keys < 2 ^ 32 }
    requires fit { AllByRecursion (PlaceFits (length constants.now.keys)) (deopt_places constants.now.keys call.now) }
    ensures { OnOk result (bytes.new.items ≡ bytes.old.items ++ flat_map place_bytes (deopt_places constants.now.keys call.now)) }
{
    let entries = call.live_entries();
    let mut next = entries.len();
    for entry in call.bundle() {
        let word = deopt_word(entries, next, entry.0, entry.1);
        put_place(bytes, deopt_place(constants, entry.0, entry.1, word))?;
        next += words_taken(entry.0, entry.1);
    }
    Ok(())
}

// The location of an operand of a bundle, by its word of the frame.
fn deopt_place(constants: &IndexSet<u64>, ty: Ty, operand: Operand, word: Option<usize>) -> Place
    requires few { length constants.now.keys < 2 ^ 32 }
    requires fits { PlaceFits (length constants.now.keys) (deopt_place constants.now.keys ty operand word) }
    ensures { result ≡ deopt_place constants.now.keys ty operand word }
{
    match word {
        Some(word) => slot_of(word as u64),
        None => number_place(constants, entry_number(ty, operand)),
    }
}

// A small number itself, or the place of a number among the constants.
fn number_place(constants: &IndexSet<u64>, number: i64) -> Place
    requires { length constants.now.keys < 2 ^ 32 }
    ensures { result ≡ number_place constants.now.keys number }
{
    if is_small(number) {
        return constant_place(number as i32);
    }
    let place = constants.get_index_of(&number.cast_unsigned()).unwrap_or(0);
    listed_place(place as u32)
}

// Puts the base slot and the derived slot of each relocate.
fn put_pairs(bytes: &mut Vec<u8>, group: &[Inst]) -> Result<(), Memory>
    requires { AllByRecursion (PlaceFits 0) (flat_map member_places group.now) }
    ensures { OnOk result (bytes.new.items ≡ bytes.old.items ++ flat_map place_bytes (flat_map member_places group.now)) }
{
    for inst in group {
        put_pair(bytes, inst)?;
    }
    Ok(())
}

fn put_pair(bytes: &mut Vec<u8>, inst: &Inst) -> Result<(), Memory>
    requires { AllByRecursion (PlaceFits 0) (member_places inst.now) }
    ensures { OnOk result (bytes.new.items ≡ bytes.old.items ++ flat_map place_bytes (member_places inst.now)) }
{
    let Op::GcRelocate = inst.op() else {
        return Ok(());
    };
    put_place(bytes, slot_of(index_at(inst.operands(), 1)))?;
    put_place(bytes, slot_of(index_at(inst.operands(), 2)))
}

// The literal at a place of operands.
fn index_at(operands: &[Operand], number: usize) -> u64
    ensures { result ≡ index_in (slice_get operands.now number) }
{
    match operands.get(number) {
        Some(Operand::Int(index)) => *index,
        Some(Operand::Value(_) | Operand::Null | Operand::Fun(_)) | None => 0,
    }
}

fn constant_place(number: i32) -> Place
    ensures { result ≡ constant_place number }
{
    Place {
        kind: CONSTANT,
        size: WORD,
        register: 0,
        offset: number,
    }
}

fn listed_place(place: u32) -> Place
    ensures { result ≡ listed_place place }
{
    Place {
        kind: CONSTANT_INDEX,
        size: WORD,
        register: 0,
        offset: place.cast_signed(),
    }
}

// The slot of this word of the frame.
fn slot_of(word: u64) -> Place
    requires { PlaceFits 0 (slot_place word) }
    ensures { result ≡ slot_place word }
{
    Place {
        kind: INDIRECT,
        size: WORD,
        register: STACK_POINTER,
        offset: 8 * word as i32,
    }
}

#[tactic(auto, unfolding(map_bytes::specs::Maps::place_bytes))]
fn put_place(bytes: &mut Vec<u8>, place: Place) -> Result<(), Memory>
    ensures { OnOk result (bytes.new.items ≡ bytes.old.items ++ place_bytes place) }
{
    put_u8(bytes, place.kind)?;
    put_u8(bytes, 0)?;
    put_u16(bytes, place.size)?;
    put_u16(bytes, place.register)?;
    put_u16(bytes, 0)?;
    put_i32(bytes, place.offset)?;
    Ok(())
}

// Puts four bytes where so many bytes are no multiple of 8.
fn put_padding(bytes: &mut Vec<u8>, before: u64) -> Result<(), Memory>
    ensures { OnOk result (bytes.new.items ≡ bytes.old.items ++ padding_bytes before) }
{
    if before % 8 == 0 {
        return Ok(());
    }
    put_u32(bytes, 0)
}
