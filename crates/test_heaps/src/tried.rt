//! What is tried: a heap, a stack, a group of move lines and a map.

use crate::maps::Listed;
use crate::words::Words;
use crate::{heaps, stacks};
use frame_walk::Stack;
use move_plan::Move;
use moving_heap::Heap;
use std::alloc::{AllocError, Global};

/// A heap and a stack, the move lines of the next group, and the records of a map.
#[derive(Drop)]
pub(crate) struct Tried {
    pub(crate) alloc: Global,
    pub(crate) heap: Heap,
    pub(crate) stack: Stack,
    pub(crate) group: Vec<Move>,
    pub(crate) map: Listed,
}

impl Tried {
    pub(crate) fn new(alloc: Global) -> Tried {
        Tried {
            alloc,
            heap: Heap::new(alloc),
            stack: Stack::new(alloc),
            group: Vec::new(alloc),
            map: Listed::new(alloc),
        }
    }

    // Does what a line asks, and says what was found.
    pub(crate) fn found(&mut self, mut words: Words<'_>) -> Result<String, AllocError> {
        let asked = words.word();
        if asked == b"anew".as_slice() {
            *self = Tried::new(self.alloc);
            return String::from_str(self.alloc, "done");
        }
        if asked == b"move".as_slice() {
            let obj = words.number();
            let to = words.number();
            self.group.push(Move { obj, to })?;
            return String::from_str(self.alloc, "done");
        }
        if let Some(found) = heaps::found(self, asked, words)? {
            return Ok(found);
        }
        if let Some(found) = stacks::found(self, asked, words)? {
            return Ok(found);
        }
        String::from_str(self.alloc, "not known")
    }
}
