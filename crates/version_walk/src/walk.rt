//! The blocks one after another, each below its only predecessor.

ghost use Rattle.std.specs.Prelude.{◌≡◌, ◌<◌, ◌+◌, ◌^◌, ◌++◌, ◌∷◌, [], length, map, replicate, slice_index_or, true, false, IfOk};
ghost use Rattle.version_walk.specs.Forest.{list_at, AreInside};
ghost use Rattle.version_walk.specs.Walks.{HasRoom, IsSized, KeepsWalk, AreAnswered, awaiting, AnswersRow, weight};

use crate::forest::Forest;
use crate::lists::at;
use crate::slots::Packed;
use crate::versions::Versions;
use sp_ids::Memory;
use std::alloc::Global;

/// A block whose slots are to be answered, and how many changes stand before it.
#[derive(Clone, Copy)]
pub(crate) struct Pending {
    block: usize,
    depth: usize,
}

#[derive(Drop)]
pub(crate) struct Walk {
    versions: Versions,
    rows: Vec<Vec<Packed>>,
    done: Vec<bool>,
    pending: Vec<Pending>,
}

/// The slots of all blocks, answered: a block without an only predecessor begins with the numbers `own`, another one with
/// those at the end of its only predecessor. The first definition of each block has the number that `starts` gives it.
/// There is room for so many changes from the start.
pub fn answer_blocks(
    alloc: Global,
    parents: &[Option<usize>],
    starts: &[u32],
    own: Vec<u32>,
    rows: Vec<Vec<Packed>>,
    room: usize,
) -> Result<Vec<Vec<Packed>>, Memory>
    requires inside { AreInside parents.now }
    requires whole { length rows.items ≡ length parents.now }
    requires room { HasRoom starts.now rows.items }
    ensures { IfOk result (λ answers. AreAnswered parents.now (record { starts = starts.now; own = own.items; rows = rows.items }) answers.items) }
{
    let forest = Forest::of(alloc, parents)?;
    let log = Vec::with_capacity(alloc, room)?;
    let mut walk = Walk {
        versions: Versions { current: own, log },
        rows,
        done: no_marks(alloc, parents.len())?,
        pending: Vec::new(alloc),
    };
    await_all(&mut walk.pending, forest.roots.as_slice(), 0)?;
    while !walk.pending.is_empty() {
        walk.turn(&forest, starts)?;
    }
    Ok(walk.rows)
}

fn no_marks(alloc: Global, count: usize) -> Result<Vec<bool>, Memory>
    ensures { IfOk result (λ marks. marks.items ≡ replicate count false) }
{
    Ok(vec![in alloc; false; count]?)
}

fn await_all(pending: &mut Vec<Pending>, blocks: &[usize], depth: usize) -> Result<(), Memory>
    ensures { IfOk result (λ _. pending.new.items ≡ pending.old.items ++ map (awaiting depth) blocks.now) }
{
    for block in blocks {
        pending.push(Pending {
            block: *block,
            depth,
        })?;
    }
    Ok(())
}

fn answer_row(
    versions: &mut Versions,
    rows: &mut Vec<Vec<Packed>>,
    block: usize,
    start: u32,
) -> Result<(), Memory>
    requires block { block < length rows.old.items }
    requires room { start + length (list_at rows.old.items block) < 2 ^ 32 }
    ensures { IfOk result (λ _. AnswersRow block start rows.old.items rows.new.items versions.old versions.new) }
{
    versions.answer_all(&mut rows[block], start)?;
    Ok(())
}

fn is_done(done: &[bool], block: usize) -> bool
    ensures { result ≡ slice_index_or done.now block true }
{
    done.get(block).copied().unwrap_or(true)
}

impl Walk {
    // Takes the last of the pending blocks.
    fn turn(&mut self, forest: &Forest, starts: &[u32]) -> Result<(), Memory>
        requires room { HasRoom starts.now self.old.rows.items }
        requires sized { IsSized forest.now.children.items self.old }
        ensures room { IfOk result (λ _. HasRoom starts.now self.new.rows.items) }
        ensures sized { IfOk result (λ _. IsSized forest.now.children.items self.new) }
        ensures walk { IfOk result (λ _. KeepsWalk starts.now forest.now.children.items self.old.pending.items self.old self.new) }
        ensures less { IfOk result (λ _. 0 < length self.old.pending.items → weight self.new.done.items forest.now.children.items + length self.new.pending.items
            < weight self.old.done.items forest.now.children.items + length self.old.pending.items) }
    {
        match self.pending.pop() {
            Some(next) => self.enter(next, forest, starts)?,
            None => {}
        }
        Ok(())
    }

    // Answers the slots of the next block, if they weren't before, and then awaits its children.
    fn enter(&mut self, next: Pending, forest: &Forest, starts: &[u32]) -> Result<(), Memory>
        requires room { HasRoom starts.now self.old.rows.items }
        requires sized { IsSized forest.now.children.items self.old }
        ensures room { IfOk result (λ _. HasRoom starts.now self.new.rows.items) }
        ensures sized { IfOk result (λ _. IsSized forest.now.children.items self.new) }
        ensures walk { IfOk result (λ _. KeepsWalk starts.now forest.now.children.items (self.old.pending.items ++ next ∷ []) self.old self.new) }
        ensures less { IfOk result (λ _. weight self.new.done.items forest.now.children.items + length self.new.pending.items
            < weight self.old.done.items forest.now.children.items + (length self.old.pending.items + 1)) }
    {
        let block = next.block;
        if is_done(self.done.as_slice(), block) {
            return Ok(());
        }
        self.versions.take_back(next.depth);
        let start = at(starts, block);
        answer_row(&mut self.versions, &mut self.rows, block, start)?;
        self.done[block] = true;
        let depth = self.versions.log.len();
        await_all(&mut self.pending, forest.children[block].as_slice(), depth)?;
        Ok(())
    }
}
