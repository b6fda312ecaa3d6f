//! The blocks at whose end a value is live, by a search against the edges.

ghost use Rattle.std.specs.Prelude.{◌≡◌, ◌<◌, ◌≤◌, ◌+◌, ◌==◌, ◌&&◌, ◌^◌, ◌++◌, [], ◌∷◌, ℕ, if◌then◌else◌, length, map, filter, replicate, IfOk, Some, slice_get, slice_index_or, true, false};
ghost use Rattle.std.specs.List.{All};
ghost use Rattle.ir_ast.specs.Formed.{IsFormed};
ghost use Rattle.ir_cfg.specs.Graphs.{graph_of, preds_of};
ghost use Rattle.graph_search.specs.Edges.{AreInside};
ghost use Rattle.object_meaning.specs.Lines.{registers_of};
ghost use Rattle.ir_ast.specs.Types.{is_pointer};
ghost use Rattle.ir_ast.specs.Values.{value_types};
ghost use Rattle.rewriting_forms.specs.Numbered.{pointers, succs};
ghost use Rattle.rewriting_forms.specs.Names.{is_many};
ghost use Rattle.live_sets.specs.Starts.{list_at, GrownAt, AreStarts};
ghost use Rattle.live_sets.specs.Ends.{fronts_of, rows_of, GrownWhere, gives_in, AddsEnds, AreEnds};
ghost use Rattle.ir_ast.specs.Operands.{valued};
ghost use Rattle.ir_ast.specs.Lists.{has_mark};

use crate::starts::{add_to, empty_lists, starts};
use crate::values::{is_marked, marked};
use graph_search::Edges;
use ir_ast::{Func, Operand};
use ir_cfg::Cfg;
use shared_search::find_reached;
use sp_ids::{BlockId, Memory, ValueId};
use std::alloc::Global;
use std::marker::Model;

/// The ends of the blocks and behind them their fronts, as the nodes of a graph: an edge leads from the end of a block to its front,
/// where the block doesn't give the value, and from a front to the ends of the blocks before. Contracts see its `Places`.
#[derive(Drop)]
pub(crate) struct Backward<'a> {
    cfg: &'a Cfg,
    count: usize,
    firsts: &'a [usize],
    value: usize,
}

impl<'a> Model for Backward<'a> {
    ghost use Rattle.std.specs.Prelude.{◌≡◌, ◌<◌, ◌^◌, length};
    ghost use Rattle.live_sets.specs.Ends.{Places, fronts_of};

    ghost Value = { Places };

    ghost view = { λ places. record {
      fronts = fronts_of places.cfg.now;
      firsts = places.firsts.now;
      value = places.value;
    } };

    ghost invariant = { λ places. (places.count ≡ length places.cfg.now) × (places.count < 2 ^ 31) };
}

impl<'a> Backward<'a> {
    /// The places of a value, in a graph of so many blocks with these first results.
    pub(crate) fn of(cfg: &'a Cfg, count: usize, firsts: &'a [usize], value: usize) -> Backward<'a>
        requires count { count ≡ length cfg.now }
        requires few { count < 2 ^ 31 }
        ensures { result ≡ record { fronts = fronts_of cfg.now; firsts = firsts.now; value = value } }
    {
        Backward {
            cfg,
            count,
            firsts,
            value,
        }
    }

    /// Whether two or more edges lead into a block.
    pub(crate) fn is_join(&self, block: usize) -> bool
        requires { block < length self.now.fronts }
        ensures { result ≡ is_many (slice_index_or self.now.fronts block []) }
    {
        are_many(self.sources(block))
    }

    // How many blocks there are.
    fn count(&self) -> usize
        ensures is { result ≡ length self.now.fronts }
        ensures few { result < 2 ^ 31 }
    {
        self.count
    }

    // Whether a block gives the value.
    fn gives(&self, block: usize) -> bool
        requires { block < 18446744073709551615 }
        ensures { result ≡ gives_in self.now.firsts self.now.value block }
    {
        gives(self.firsts, self.value, block)
    }

    // The blocks before a block.
    fn sources(&self, block: usize) -> &[BlockId]
        requires { block < length self.now.fronts }
        ensures { map (λ from. from.0) result.now ≡ slice_index_or self.now.fronts block [] }
    {
        let _count = self.count();
        self.cfg.preds(BlockId(block as u32))
    }
}

/// Whether there are two or more blocks.
pub(crate) fn are_many(blocks: &[BlockId]) -> bool
    ensures { result ≡ is_many (map (λ block. block.0) blocks.now) }
{
    blocks.len() >= 2
}

impl Edges for Backward<'_> {
    ghost rows = { λ places. rows_of places };

    fn node_count(&self) -> usize {
        let count = self.count();
        count + count
    }

    fn degree(&self, node: usize) -> usize {
        let count = self.count();
        if node >= count {
            return self.sources(node - count).len();
        }
        if self.gives(node) { 0 } else { 1 }
    }

    fn target(&self, node: usize, number: usize) -> usize {
        let count = self.count();
        if node >= count {
            return number_at(self.sources(node - count), number);
        }
        count + node
    }
}

fn number_at(blocks: &[BlockId], place: usize) -> usize
    requires { place < length blocks.now }
    ensures { slice_get (map (λ block. block.0) blocks.now) place ≡ Some result }
{
    blocks[place].0 as usize
}

// Whether a block gives a value.
fn gives(firsts: &[usize], value: usize, block: usize) -> bool
    requires { block < 18446744073709551615 }
    ensures { result ≡ gives_in firsts.now value block }
{
    at(firsts, block) <= value && value < at(firsts, block + 1)
}

fn at(numbers: &[usize], place: usize) -> usize
    ensures { result ≡ slice_index_or numbers.now place 0 }
{
    numbers.get(place).copied().unwrap_or(0)
}

/// For each wanted block, the pointers that are live at its end, in order.
pub(crate) fn ends(
    alloc: Global,
    func: &Func,
    cfg: &Cfg,
    marks: &[bool],
    firsts: &[usize],
    bases: &[Operand],
    wanted: &[bool],
) -> Result<Vec<Vec<ValueId>>, Memory>
    requires formed { IsFormed func.now.content }
    requires cfg { cfg.now ≡ graph_of func.now.content }
    requires marks { marks.now ≡ map is_pointer (value_types func.now.content) }
    requires firsts { firsts.now ≡ registers_of func.now.content }
    ensures { IfOk result (λ ends. AreEnds func.now.content bases.now wanted.now ends.items) }
{
    let count = func.blocks().len();
    if !has_edge(func, cfg) {
        let none = empty_lists(alloc, count)?;
        return Ok(none);
    }
    let values = marked(alloc, marks)?;
    let starts = starts(alloc, func, marks, bases, marks, firsts)?;
    all_ends(
        alloc,
        func,
        cfg,
        count,
        marks,
        firsts,
        values.as_slice(),
        starts.as_slice(),
        bases,
        wanted,
    )
}

// Whether some block has an edge.
fn has_edge(func: &Func, cfg: &Cfg) -> bool
    requires { cfg.now ≡ graph_of func.now.content }
    ensures { result ≡ false → (b : ℕ) → b < length func.now.content.blocks → succs func.now.content b ≡ [] }
{
    for number in 0..func.blocks().len() {
        if has_any(cfg.succs(BlockId(number as u32))) {
            return true;
        }
    }
    false
}

fn has_any(blocks: &[BlockId]) -> bool
    ensures { result ≡ false → blocks.now ≡ [] }
{
    !blocks.is_empty()
}

fn all_ends(
    alloc: Global,
    func: &Func,
    cfg: &Cfg,
    count: usize,
    marks: &[bool],
    firsts: &[usize],
    values: &[ValueId],
    starts: &[Vec<usize>],
    bases: &[Operand],
    wanted: &[bool],
) -> Result<Vec<Vec<ValueId>>, Memory>
    requires formed { IsFormed func.now.content }
    requires cfg { cfg.now ≡ graph_of func.now.content }
    requires count { count ≡ length func.now.content.blocks }
    requires few { count < 2 ^ 31 }
    requires marks { marks.now ≡ map is_pointer (value_types func.now.content) }
    requires firsts { firsts.now ≡ registers_of func.now.content }
    requires values { values.now ≡ map valued (pointers func.now.content) }
    requires starts { AreStarts func.now.content marks.now bases.now marks.now starts.now }
    ensures { IfOk result (λ ends. AreEnds func.now.content bases.now wanted.now ends.items) }
{
    let mut ends = empty_lists(alloc, count)?;
    let mut seen = vec![in alloc; false; count + count]?;
    let mut found = Vec::new(alloc);
    for value in values {
        let number = value.0 as usize;
        let places = Backward::of(cfg, count, firsts, number);
        add_ends(
            &places,
            *value,
            wanted,
            starts[number].as_slice(),
            &mut seen,
            &mut found,
            &mut ends,
        )?;
    }
    Ok(ends)
}

// Adds a pointer to the lists of the wanted blocks at whose ends it is live. The marks of places are clear before and behind.
fn add_ends(
    places: &Backward<'_>,
    value: ValueId,
    wanted: &[bool],
    starts: &[usize],
    seen: &mut Vec<bool>,
    found: &mut Vec<usize>,
    ends: &mut Vec<Vec<ValueId>>,
) -> Result<(), Memory>
    requires inside { AreInside (rows_of places.now) starts.now }
    requires clear { seen.old.items ≡ replicate (length places.now.fronts + length places.now.fronts) false }
    requires whole { length ends.old.items ≡ length places.now.fronts }
    ensures clear { IfOk result (λ _. seen.new.items ≡ seen.old.items) }
    ensures added { IfOk result (λ _. AddsEnds (rows_of places.now) wanted.now starts.now value ends.old.items ends.new.items) }
{
    if starts.is_empty() {
        return Ok(());
    }
    find_reached(places, starts, seen, found)?;
    for node in found.as_slice() {
        add_end(*node, value, wanted, ends)?;
    }
    Ok(())
}

// Adds a pointer to the list of a wanted block, where the place is its end.
fn add_end(
    place: usize,
    value: ValueId,
    wanted: &[bool],
    ends: &mut Vec<Vec<ValueId>>,
) -> Result<(), Memory>
    ensures { IfOk result (λ _. GrownWhere ends.old.items ends.new.items (λ b. has_mark wanted.now b && (place == b)) value) }
{
    if place >= ends.len() {
        return Ok(());
    }
    if !is_marked(wanted, place) {
        return Ok(());
    }
    add_to(ends, place, value)
}
