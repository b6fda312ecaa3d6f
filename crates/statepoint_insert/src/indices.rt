//! The places of bases among the "gc-live" entries of a call.

ghost use Rattle.std.specs.Prelude.{◌≡◌, ◌<◌, ◌+◌, ◌-◌, ◌^◌, length, map, IfOk};
ghost use Rattle.std.specs.List.{All, list_any};
ghost use Rattle.rewriting_forms.specs.Numbered.{base_at};
ghost use Rattle.rewriting_forms.specs.Rewritten.{is_null};
ghost use Rattle.statepoint_insert.specs.Groups.{numbers_in, group_of};
ghost use Rattle.statepoint_insert.specs.Texts.{first_rank};
ghost use Rattle.statepoint_insert.specs.Ranks.{HasRanks, IsBlank, IsBlankBeside, index_by, relocate_by};

use crate::groups::{Group, Relocate};
use ir_ast::Operand;
use sp_ids::{Memory, ValueId};
use std::alloc::Global;

/// The group of a call with this live list. The row has a place for each listed value, and is blank before and after.
pub(crate) fn group(
    alloc: Global,
    bases: &[Operand],
    list: &[ValueId],
    row: &mut Vec<u32>,
) -> Result<Group, Memory>
    requires few { length list.now < 2 ^ 32 - 1 }
    requires room { All (λ value. value.0 < length row.old.items) list.now }
    requires blank { IsBlank row.old.items }
    ensures group { IfOk result (λ group. group ≡ group_of bases.now (numbers_in list.now)) }
    ensures blank { IfOk result (λ _. IsBlank row.new.items) }
    ensures whole { IfOk result (λ _. length row.new.items ≡ length row.old.items) }
{
    let has_null = has_null(bases, list);
    set_ranks(list, first_rank(has_null), row);
    let relocates = relocates(alloc, bases, list, row.as_slice())?;
    clear(list, row);
    Ok(Group::of(has_null, relocates))
}

/// The index of the first pointer in a "gc-live" list.
pub(crate) fn first_rank(has_null: bool) -> u32
    ensures { result ≡ first_rank has_null }
{
    if has_null { 1 } else { 0 }
}

// Whether some value's base is `null`.
fn has_null(bases: &[Operand], list: &[ValueId]) -> bool
    ensures { result ≡ list_any (λ value. is_null (base_at bases.now value.0)) list.now }
{
    list.iter().any(|value| is_null(base_of(bases, *value)))
}

fn is_null(operand: Operand) -> bool
    ensures { result ≡ is_null operand }
{
    match operand {
        Operand::Null => true,
        Operand::Value(_) | Operand::Int(_) | Operand::Fun(_) => false,
    }
}

fn base_of(bases: &[Operand], value: ValueId) -> Operand
    ensures { result ≡ base_at bases.now value.0 }
{
    bases
        .get(value.0 as usize)
        .copied()
        .unwrap_or(Operand::Null)
}

// Puts the index of each value of the list into the row, the first index where a value stands twice.
fn set_ranks(list: &[ValueId], first: u32, row: &mut Vec<u32>)
    requires few { first + length list.now < 2 ^ 32 }
    requires room { All (λ value. value.0 < length row.old.items) list.now }
    requires blank { IsBlank row.old.items }
    ensures whole { length row.new.items ≡ length row.old.items }
    ensures ranks { HasRanks first list.now row.new.items }
{
    let mut place = list.len();
    while place > 0 {
        place -= 1;
        row[list[place].0 as usize] = first + place as u32;
    }
}

// Puts 0 into the row for each value of the list; elsewhere it is 0.
fn clear(list: &[ValueId], row: &mut Vec<u32>)
    requires room { All (λ value. value.0 < length row.old.items) list.now }
    requires beside { IsBlankBeside list.now row.old.items }
    ensures whole { length row.new.items ≡ length row.old.items }
    ensures blank { IsBlank row.new.items }
{
    for value in list {
        row[value.0 as usize] = 0;
    }
}

fn relocates(
    alloc: Global,
    bases: &[Operand],
    list: &[ValueId],
    row: &[u32],
) -> Result<Vec<Relocate>, Memory>
    ensures { IfOk result (λ relocates. relocates.items ≡ map (relocate_by bases.now row.now) list.now) }
{
    let mut relocates = Vec::with_capacity(alloc, list.len())?;
    for value in list {
        relocates.push(Relocate {
            value: *value,
            base: index_of(row, base_of(bases, *value)),
        })?;
    }
    Ok(relocates)
}

fn index_of(row: &[u32], operand: Operand) -> u32
    ensures { result ≡ index_by row.now operand }
{
    match operand {
        Operand::Value(value) => row.get(value.0 as usize).copied().unwrap_or(0),
        Operand::Int(_) | Operand::Null | Operand::Fun(_) => 0,
    }
}
