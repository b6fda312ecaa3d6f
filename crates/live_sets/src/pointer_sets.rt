//! Sets of pointers.

ghost use Rattle.std.specs.Prelude.{◌≡◌, [], true, false, if◌then◌else◌, IfOk, ℕ};
ghost use Rattle.live_sets.specs.Sets.{is_in, Puts, Takes};

use sp_ids::{Memory, ValueId};
use std::alloc::Global;
use std::collections::BTreeSet;
use std::marker::Model;

/// A set of pointers by their numbers. What was put in since the set was emptied bears its stamp, so that putting in what is in takes
/// one look. Contracts see the set.
#[derive(Drop)]
pub(crate) struct PointerSet {
    set: BTreeSet<u32>,
    stamps: Vec<u32>,
    stamp: u32,
}

impl Model for PointerSet {
    ghost use Rattle.std.specs.Prelude.{ℕ};
    ghost use Rattle.std.specs.BTreeSet.{BTreeSet};
    ghost use Rattle.live_sets.specs.Sets.{AreStamped};

    ghost Value = { BTreeSet ℕ };

    ghost view = { λ pointers. pointers.set };

    ghost invariant = { λ pointers. AreStamped pointers.set pointers.stamps.items pointers.stamp };
}

impl PointerSet {
    /// An empty set with a stamp for each of so many values.
    pub(crate) fn of(alloc: Global, count: usize) -> Result<PointerSet, Memory>
        ensures { IfOk result (λ pointers. pointers.keys ≡ []) }
    {
        Ok(PointerSet {
            set: BTreeSet::new(alloc),
            stamps: vec![in alloc; 0_u32; count]?,
            stamp: 1,
        })
    }

    /// The set.
    pub(crate) fn set(&self) -> &BTreeSet<u32>
        ensures { result.now ≡ self.now }
    {
        &self.set
    }

    /// Takes all out.
    pub(crate) fn empty(&mut self, alloc: Global) -> Result<(), Memory>
        ensures { IfOk result (λ _. self.new.keys ≡ []) }
    {
        if self.stamp == u32::MAX {
            return Err(Memory);
        }
        self.stamp += 1;
        self.set = BTreeSet::new(alloc);
        Ok(())
    }

    /// Puts a value in.
    #[inline(always)]
    pub(crate) fn put(&mut self, value: ValueId) -> Result<(), Memory>
        ensures { IfOk result (λ _. Puts value.0 self.old self.new) }
    {
        if self.is_stamped(value) {
            return Ok(());
        }
        self.put_in(value)
    }

    /// Whether a value bears the stamp, so that it is in.
    #[inline(always)]
    pub(crate) fn is_stamped(&self, value: ValueId) -> bool
        ensures { result ≡ true → is_in self.now value.0 ≡ true }
    {
        let place = value.0 as usize;
        place < self.stamps.len() && self.stamps[place] == self.stamp
    }

    /// Puts in a value without the stamp, the rarer part of `put`.
    #[inline(never)]
    pub(crate) fn put_in(&mut self, value: ValueId) -> Result<(), Memory>
        ensures { IfOk result (λ _. Puts value.0 self.old self.new) }
    {
        let place = value.0 as usize;
        self.set.insert(value.0)?;
        if place < self.stamps.len() {
            self.stamps[place] = self.stamp;
        }
        Ok(())
    }

    /// Takes a value out.
    #[inline(never)]
    pub(crate) fn take(&mut self, value: ValueId)
        ensures { Takes value.0 self.old self.new }
    {
        let place = value.0 as usize;
        if place < self.stamps.len() {
            self.stamps[place] = 0;
        }
        self.set.remove(&value.0);
    }
}
