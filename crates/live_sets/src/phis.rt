//! Where phis are inserted.

ghost use Rattle.std.specs.Prelude.{◌≡◌, ◌<◌, ◌≤◌, ◌+◌, ◌++◌, ◌&&◌, ◌==◌, ◌^◌, [], ◌∷◌, if◌then◌else◌, length, map, replicate, true, false, slice_index_or, IfOk, ℕ};
ghost use Rattle.ir_ast.specs.Types.{is_pointer};
ghost use Rattle.ir_ast.specs.Values.{value_types};
ghost use Rattle.object_meaning.specs.Lines.{registers_of};
ghost use Rattle.rewriting_forms.specs.Numbered.{pointers, preds};
ghost use Rattle.live_sets.specs.Starts.{AreStarts};
ghost use Rattle.ir_ast.specs.Formed.{IsFormed};
ghost use Rattle.ir_cfg.specs.Graphs.{graph_of};
ghost use Rattle.graph_search.specs.Edges.{AreInside};
ghost use Rattle.rewriting_forms.specs.Names.{is_many};
ghost use Rattle.live_sets.specs.Ends.{rows_of, GrownWhere};
ghost use Rattle.live_sets.specs.Joins.{AreListed, AddsJoins, AreJoins};
ghost use Rattle.ir_ast.specs.Operands.{valued};
ghost use Rattle.ir_ast.specs.Lists.{has_mark};

use crate::ends::{Backward, are_many};
use crate::numbers::first_numbers;
use crate::starts::{add_to, empty_lists, starts};
use crate::values::{is_marked, marked, pointer_marks};
use ir_ast::{Func, Operand};
use ir_cfg::Cfg;
use shared_search::find_reached;
use sp_ids::{BlockId, Memory, ValueId};
use std::alloc::Global;

/// For each block the pointers that get a phi there when statepoints are put in: at a block with two or more edges into it those that
/// stand in the live list of some call and are live at its front. Each list has arguments first and then results in text order.
///
/// It takes a formed function, the graph of its edges, the base of each of its values, and marks of the values that stand in a list.
pub fn joins(
    alloc: Global,
    func: &Func,
    cfg: &Cfg,
    bases: &[Operand],
    listed: &[bool],
) -> Result<Vec<Vec<ValueId>>, Memory>
    requires formed { IsFormed func.now.content }
    requires cfg { cfg.now ≡ graph_of func.now.content }
    requires listed { AreListed func.now.content bases.now listed.now }
    ensures { IfOk result (λ joins. AreJoins func.now.content bases.now joins.items) }
{
    let count = func.blocks().len();
    if !has_join(func, cfg) {
        let none = empty_lists(alloc, count)?;
        return Ok(none);
    }
    let marks = pointer_marks(alloc, func)?;
    let values = marked(alloc, marks.as_slice())?;
    let firsts = first_numbers(alloc, func)?;
    let starts = starts(
        alloc,
        func,
        marks.as_slice(),
        bases,
        listed,
        firsts.as_slice(),
    )?;
    all_joins(
        alloc,
        func,
        cfg,
        count,
        marks.as_slice(),
        firsts.as_slice(),
        values.as_slice(),
        starts.as_slice(),
        bases,
        listed,
    )
}

// Whether two or more edges lead into some block.
fn has_join(func: &Func, cfg: &Cfg) -> bool
    requires { cfg.now ≡ graph_of func.now.content }
    ensures { result ≡ false → (b : ℕ) → b < length func.now.content.blocks → is_many (preds func.now.content b) ≡ false }
{
    for number in 0..func.blocks().len() {
        if are_many(cfg.preds(BlockId(number as u32))) {
            return true;
        }
    }
    false
}

fn all_joins(
    alloc: Global,
    func: &Func,
    cfg: &Cfg,
    count: usize,
    marks: &[bool],
    firsts: &[usize],
    values: &[ValueId],
    starts: &[Vec<usize>],
    bases: &[Operand],
    listed: &[bool],
) -> Result<Vec<Vec<ValueId>>, Memory>
    requires formed { IsFormed func.now.content }
    requires cfg { cfg.now ≡ graph_of func.now.content }
    requires count { count ≡ length func.now.content.blocks }
    requires few { count < 2 ^ 31 }
    requires marks { marks.now ≡ map is_pointer (value_types func.now.content) }
    requires firsts { firsts.now ≡ registers_of func.now.content }
    requires values { values.now ≡ map valued (pointers func.now.content) }
    requires starts { AreStarts func.now.content marks.now bases.now listed.now starts.now }
    requires listed { AreListed func.now.content bases.now listed.now }
    ensures { IfOk result (λ joins. AreJoins func.now.content bases.now joins.items) }
{
    let mut joins = empty_lists(alloc, count)?;
    let mut seen = vec![in alloc; false; count + count]?;
    let mut found = Vec::new(alloc);
    for value in values {
        let number = value.0 as usize;
        let places = Backward::of(cfg, count, firsts, number);
        let wanted = is_marked(listed, number);
        add_joins(
            &places,
            *value,
            wanted,
            starts[number].as_slice(),
            &mut seen,
            &mut found,
            &mut joins,
        )?;
    }
    Ok(joins)
}

// Adds a pointer, where it is wanted, to the lists of the joins at whose fronts it is live. The marks of places are clear before and
// behind.
fn add_joins(
    places: &Backward<'_>,
    value: ValueId,
    wanted: bool,
    starts: &[usize],
    seen: &mut Vec<bool>,
    found: &mut Vec<usize>,
    joins: &mut Vec<Vec<ValueId>>,
) -> Result<(), Memory>
    requires inside { wanted ≡ true → AreInside (rows_of places.now) starts.now }
    requires clear { seen.old.items ≡ replicate (length places.now.fronts + length places.now.fronts) false }
    requires whole { length joins.old.items ≡ length places.now.fronts }
    ensures clear { IfOk result (λ _. seen.new.items ≡ seen.old.items) }
    ensures added { IfOk result (λ _. AddsJoins (rows_of places.now) places.now.fronts (length joins.old.items) starts.now wanted value joins.old.items joins.new.items) }
{
    if !wanted {
        return Ok(());
    }
    if starts.is_empty() {
        return Ok(());
    }
    find_reached(places, starts, seen, found)?;
    for node in found.as_slice() {
        add_join(places, *node, value, joins)?;
    }
    Ok(())
}

// Adds a pointer to the list of a block, where the place is its front and two or more edges lead into it.
fn add_join(
    places: &Backward<'_>,
    place: usize,
    value: ValueId,
    joins: &mut Vec<Vec<ValueId>>,
) -> Result<(), Memory>
    requires whole { length joins.old.items ≡ length places.now.fronts }
    ensures { IfOk result (λ _. GrownWhere joins.old.items joins.new.items
        (λ b. is_many (slice_index_or places.now.fronts b []) && (place == (length joins.old.items + b))) value) }
{
    let count = joins.len();
    if place < count {
        return Ok(());
    }
    let block = place - count;
    if block >= count {
        return Ok(());
    }
    if !places.is_join(block) {
        return Ok(());
    }
    add_to(joins, block, value)
}
