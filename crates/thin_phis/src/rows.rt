//! The pointers of inserted phis and the rows of blocks, without those of phis that go.

ghost use Rattle.std.specs.Prelude.{◌≡◌, ◌++◌, ◌∷◌, [], if◌then◌else◌, length, map, take, drop, IfOk};
ghost use Rattle.std.specs.List.{filter, range_with_len};
ghost use Rattle.version_walk.specs.Forest.{list_at};
ghost use Rattle.ssa_rebuild.specs.Answers.{number_of};
ghost use Rattle.thin_phis.specs.Thinned.{stays, number_now};
ghost use Rattle.thin_phis.specs.Runs.{left_at, join_left, row_left};

use crate::numbers::Renumbering;
use sp_ids::{Memory, ValueId};
use std::alloc::Global;
use version_walk::{Packed, Slot};

/// The number of an answered slot.
pub(crate) fn number_of(slot: Slot) -> u32
    ensures { result ≡ number_of slot }
{
    match slot {
        Slot::Number(number) => number,
        Slot::Use(_) | Slot::Own(_) | Slot::Give(_) | Slot::Token => 0,
    }
}

fn row_at(rows: &[Vec<Packed>], block: usize) -> &[Packed]
    ensures { result.now ≡ list_at rows.now block }
{
    match rows.get(block) {
        Some(row) => row.as_slice(),
        None => &[],
    }
}

fn join_at(joins: &[Vec<ValueId>], block: usize) -> &[ValueId]
    ensures { result.now ≡ list_at joins.now block }
{
    match joins.get(block) {
        Some(join) => join.as_slice(),
        None => &[],
    }
}

/// The slots of a block's inserted phis.
pub(crate) fn inserted<'a>(
    joins: &[Vec<ValueId>],
    rows: &'a [Vec<Packed>],
    block: usize,
) -> &'a [Packed]
    ensures { result.now ≡ take (length (list_at joins.now block)) (list_at rows.now block) }
{
    front(row_at(rows, block), join_at(joins, block).len())
}

fn front(row: &[Packed], count: usize) -> &[Packed]
    ensures { result.now ≡ take count row.now }
{
    &row[..count.min(row.len())]
}

fn behind(row: &[Packed], count: usize) -> &[Packed]
    ensures { result.now ≡ drop count row.now }
{
    &row[count.min(row.len())..]
}

/// For each block the pointers whose inserted phis stay.
pub(crate) fn thin_joins(
    alloc: Global,
    joins: &[Vec<ValueId>],
    rows: &[Vec<Packed>],
    numbers: &Renumbering,
) -> Result<Vec<Vec<ValueId>>, Memory>
    ensures { IfOk result (λ after. map (λ join. join.items) after.items ≡ map (join_left joins.now rows.now numbers.now) (range_with_len 0 (length joins.now))) }
{
    let mut after = Vec::with_capacity(alloc, joins.len())?;
    for block in 0..joins.len() {
        after.push(thin_join(
            alloc,
            join_at(joins, block),
            inserted(joins, rows, block),
            numbers,
        )?)?;
    }
    Ok(after)
}

fn thin_join(
    alloc: Global,
    join: &[ValueId],
    slots: &[Packed],
    numbers: &Renumbering,
) -> Result<Vec<ValueId>, Memory>
    ensures { IfOk result (λ after. after.items ≡ left_at (stays numbers.now) join.now (map number_of slots.now)) }
{
    let mut after = Vec::new(alloc);
    for place in 0..join.len().min(slots.len()) {
        let stays = numbers.stays(number_of(slots[place].slot()));
        push_value(join[place], stays, &mut after)?;
    }
    Ok(after)
}

fn push_value(value: ValueId, stays: bool, after: &mut Vec<ValueId>) -> Result<(), Memory>
    ensures { IfOk result (λ _. after.new.items ≡ after.old.items ++ (if stays then value ∷ [] else [])) }
{
    if stays {
        after.push(value)?;
    }
    Ok(())
}

/// The rows without the numbers of phis that go, all numbers new.
pub(crate) fn thin_rows(
    alloc: Global,
    joins: &[Vec<ValueId>],
    rows: &[Vec<Packed>],
    numbers: &Renumbering,
) -> Result<Vec<Vec<Packed>>, Memory>
    ensures { IfOk result (λ after. map (λ row. map number_of row.items) after.items ≡ map (row_left joins.now rows.now numbers.now) (range_with_len 0 (length rows.now))) }
{
    let mut after = Vec::with_capacity(alloc, rows.len())?;
    for block in 0..rows.len() {
        after.push(thin_row(
            alloc,
            row_at(rows, block),
            join_at(joins, block).len(),
            numbers,
        )?)?;
    }
    Ok(after)
}

fn thin_row(
    alloc: Global,
    row: &[Packed],
    count: usize,
    numbers: &Renumbering,
) -> Result<Vec<Packed>, Memory>
    ensures { IfOk result (λ after. map number_of after.items
        ≡ map (number_now numbers.now) (filter (stays numbers.now) (map number_of (take count row.now))) ++ map (number_now numbers.now) (map number_of (drop count row.now))) }
{
    let mut after = Vec::with_capacity(alloc, row.len())?;
    push_left(front(row, count), numbers, &mut after)?;
    push_all(behind(row, count), numbers, &mut after)?;
    Ok(after)
}

fn push_left(slots: &[Packed], numbers: &Renumbering, after: &mut Vec<Packed>) -> Result<(), Memory>
    ensures { IfOk result (λ _. map number_of after.new.items ≡ map number_of after.old.items ++ map (number_now numbers.now) (filter (stays numbers.now) (map number_of slots.now))) }
{
    for slot in slots {
        push_if_stays(number_of(slot.slot()), numbers, after)?;
    }
    Ok(())
}

fn push_if_stays(number: u32, numbers: &Renumbering, after: &mut Vec<Packed>) -> Result<(), Memory>
    ensures { IfOk result (λ _. map number_of after.new.items ≡ map number_of after.old.items ++ (if stays numbers.now number then number_now numbers.now number ∷ [] else [])) }
{
    if numbers.stays(number) {
        push_now(number, numbers, after)?;
    }
    Ok(())
}

fn push_all(slots: &[Packed], numbers: &Renumbering, after: &mut Vec<Packed>) -> Result<(), Memory>
    ensures { IfOk result (λ _. map number_of after.new.items ≡ map number_of after.old.items ++ map (number_now numbers.now) (map number_of slots.now)) }
{
    for slot in slots {
        push_now(number_of(slot.slot()), numbers, after)?;
    }
    Ok(())
}

fn push_now(number: u32, numbers: &Renumbering, after: &mut Vec<Packed>) -> Result<(), Memory>
    ensures { IfOk result (λ _. map number_of after.new.items ≡ map number_of after.old.items ++ number_now numbers.now number ∷ []) }
{
    after.push(Packed::of(Slot::Number(numbers.now(number)))?)?;
    Ok(())
}
