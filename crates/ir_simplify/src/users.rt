//! Which results use a value, or one for which it stands: lists that are joined.

use sp_ids::Memory;
use std::alloc::Global;

// No node.
const NONE: u32 = u32::MAX;

/// Lists of users by values.
#[derive(Drop)]
pub(crate) struct Users {
    // By values: the first and the last node of the list, and how many there are.
    firsts: Vec<u32>,
    lasts: Vec<u32>,
    counts: Vec<u32>,
    // By nodes: the next one, and the value that the user gives.
    nexts: Vec<u32>,
    users: Vec<u32>,
}

impl Users {
    /// Empty lists for so many values.
    pub(crate) fn new(alloc: Global, count: usize) -> Result<Users, Memory> {
        Ok(Users {
            firsts: vec![in alloc; NONE; count]?,
            lasts: vec![in alloc; NONE; count]?,
            counts: vec![in alloc; 0; count]?,
            nexts: Vec::new(alloc),
            users: Vec::new(alloc),
        })
    }

    /// How many users a value has.
    pub(crate) fn count(&self, value: usize) -> u32 {
        at(self.counts.as_slice(), value, 0)
    }

    /// Adds a user of a value.
    pub(crate) fn add(&mut self, value: usize, user: u32) -> Result<(), Memory> {
        let node = self.users.len();
        if node >= NONE as usize {
            return Err(Memory);
        }
        let first = at(self.firsts.as_slice(), value, NONE);
        self.users.push(user)?;
        self.nexts.push(first)?;
        put(self.firsts.as_mut_slice(), value, node as u32);
        if first == NONE {
            put(self.lasts.as_mut_slice(), value, node as u32);
        }
        let count = at(self.counts.as_slice(), value, 0).saturating_add(1);
        put(self.counts.as_mut_slice(), value, count);
        Ok(())
    }

    /// Puts the users of a value up.
    pub(crate) fn put_up(&self, value: usize, work: &mut Vec<u32>) -> Result<(), Memory> {
        let mut node = at(self.firsts.as_slice(), value, NONE);
        for _ in 0..self.users.len() {
            if node == NONE {
                break;
            }
            work.push(at(self.users.as_slice(), node as usize, 0))?;
            node = at(self.nexts.as_slice(), node as usize, NONE);
        }
        Ok(())
    }

    /// Adds the users of a value to those of another.
    pub(crate) fn join(&mut self, from: usize, to: usize) {
        let first = at(self.firsts.as_slice(), from, NONE);
        if first == NONE {
            return;
        }
        let last = at(self.lasts.as_slice(), from, NONE);
        let behind = at(self.firsts.as_slice(), to, NONE);
        put(self.nexts.as_mut_slice(), last as usize, behind);
        put(self.firsts.as_mut_slice(), to, first);
        if behind == NONE {
            put(self.lasts.as_mut_slice(), to, last);
        }
        let count = self.count(from).saturating_add(self.count(to));
        put(self.counts.as_mut_slice(), to, count);
    }
}

/// The number at a place, or this one where there is none.
fn at(numbers: &[u32], place: usize, absent: u32) -> u32 {
    numbers.get(place).copied().unwrap_or(absent)
}

fn put(numbers: &mut [u32], place: usize, number: u32) {
    if place < numbers.len() {
        numbers[place] = number;
    }
}
