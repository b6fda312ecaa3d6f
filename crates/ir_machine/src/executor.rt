//! The state of a run.

use heap_hints::Hints;
use machine_frames::{Code, Move, Task};
use move_plan::Plan;
use moving_heap::Heap;
use stackmap_view::MapIndex;
use std::alloc::Global;

/// What is run: a module, a stack map and a plan, and the steps that it may take.
#[derive(Drop)]
pub struct Program<'m, 'r> {
    pub code: Code<'m>,
    pub map: MapIndex<'r>,
    pub plan: &'r Plan,
    pub bound: u64,
}

/// A run: the frames of its task, room for the moves of phis, the number of the task and the frames of the others by number, the
/// heap and where its objects were found last, what is left of the input, and the steps and events so far.
#[derive(Drop)]
pub struct Executor<'m, 'i> {
    pub run: Task<'m>,
    pub moves: Vec<Move>,
    pub alloc: Global,
    pub task: u64,
    pub tasks: Vec<Option<Task<'m>>>,
    pub heap: Heap,
    pub hints: Hints,
    pub input: &'i [i64],
    pub steps: u64,
    pub events: u64,
}
