//! The first places of names.

ghost use Rattle.std.specs.Prelude.{◌≡◌, [], None, is_none, OnErr, OnOk, IfOk};
ghost use Rattle.std.specs.BTreeMap.{btree_map_len};
ghost use Rattle.ir_lines.specs.Firsts.{first_at, Adds, Keeps, IsFirsts};

use crate::hashing::{Key, NameHashing};
use indexmap::IndexMap;
use std::alloc::{AllocError, Global};
use std::collections::BTreeMap;
use std::hash::BuildHasher;

/// The first places of names: in a table, and in a tree for names that find their part of the table full. So no choice of
/// names makes a search long.
#[derive(Drop)]
pub struct Firsts<'n> {
    alloc: Global,
    pub table: IndexMap<Key<'n>, usize, NameHashing>,
    pub tree: BTreeMap<&'n [u8], usize>,
    /// How many names begin their search in each part of the table, which is four of its groups.
    counts: Vec<u8>,
}

// The groups of a part.
const GROUPS: usize = 4;

// What the kit's table puts into a part before it grows.
const CAPACITY: usize = 9 * GROUPS;

// How many names to a part there are before the table grows, half of that.
const LOAD: usize = CAPACITY / 2;

// How many names a part takes: twice as many as there are to a part at most.
const MOST: u8 = 2 * LOAD as u8;

// The part of a table in which a search for a name begins.
fn part_of(name: &[u8], parts: usize) -> usize {
    // so few names fill no part, and none need be counted apart
    if parts <= 2 {
        return 0;
    }
    let hash = NameHashing.hash_one(Key { bytes: name });
    hash as usize / GROUPS & parts.wrapping_sub(1)
}

// Whether the part has room for one more name.
fn has_room(counts: &[u8], part: usize) -> bool {
    match counts.get(part) {
        Some(count) => *count < MOST,
        None => false,
    }
}

// Counts one more name in a part.
fn count_in(counts: &mut [u8], part: usize) {
    if let Some(count) = counts.get_mut(part) {
        *count = count.saturating_add(1);
    }
}

impl<'n> Firsts<'n> {
    pub fn new(alloc: Global) -> Firsts<'n>
        ensures { IsFirsts [] result }
    {
        Firsts {
            alloc,
            table: IndexMap::with_hasher(alloc, NameHashing),
            tree: BTreeMap::new(alloc),
            counts: Vec::new(alloc),
        }
    }

    /// The same, with room for so many names.
    pub fn with_room(alloc: Global, room: usize) -> Result<Firsts<'n>, AllocError>
        ensures { IfOk result (λ firsts. IsFirsts [] firsts) }
    {
        let mut firsts = Firsts::new(alloc);
        firsts.grow((room / LOAD + 1).next_power_of_two())?;
        Ok(firsts)
    }

    // Gives the table so many parts.
    #[tactic(auto, using(crate::proofs::FirstLemmas::same_keeps))]
    fn grow(&mut self, parts: usize) -> Result<(), AllocError>
        ensures { Keeps self.old self.new }
    {
        let mut counts = Vec::from_elem(self.alloc, 0, parts)?;
        for key in self.table.keys() {
            let part = part_of(key.bytes, parts);
            count_in(counts.as_mut_slice(), part);
        }
        let room = parts.saturating_mul(CAPACITY);
        self.table.reserve(room.saturating_sub(self.table.len()))?;
        self.counts = counts;
        Ok(())
    }

    fn make_room(&mut self) -> Result<(), AllocError>
        ensures { Keeps self.old self.new }
    {
        if self.table.len() / LOAD < self.counts.len() {
            return Ok(());
        }
        let parts = 2 * self.counts.len();
        self.grow(parts.max(1))
    }

    #[tactic(auto, unfolding(crate::specs::Firsts::first_at))]
    pub fn find(&self, name: &[u8]) -> Option<usize>
        ensures { result ≡ first_at self.now name.now }
    {
        match self.table.get(&Key { bytes: name }) {
            Some(place) => Some(*place),
            None => self.tree.get(name).copied(),
        }
    }

    /// Keeps a place for a name that has none, and answers whether it had none.
    #[tactic(auto, using(crate::proofs::FirstLemmas::adds_kept))]
    pub fn add(&mut self, name: &'n [u8], place: usize) -> Result<bool, AllocError>
        ensures is_new { IfOk result (λ is_new. is_new ≡ is_none (first_at self.old name.now)) }
        ensures added { OnOk result (Adds name.now place self.old self.new) }
        ensures err { OnErr result (Keeps self.old self.new) }
    {
        self.make_room()?;
        let part = part_of(name, self.counts.len());
        let has_room = has_room(self.counts.as_slice(), part);
        let is_new = self.keep(name, place, has_room)?;
        if is_new && has_room {
            self.count(part);
        }
        Ok(is_new)
    }

    // Counts one more name in a part.
    #[tactic(auto, using(crate::proofs::FirstLemmas::same_keeps))]
    fn count(&mut self, part: usize)
        ensures { Keeps self.old self.new }
    {
        count_in(self.counts.as_mut_slice(), part);
    }

    // Keeps a place for a name that has none, in the table where its part has room for it.
    fn keep(&mut self, name: &'n [u8], place: usize, has_room: bool) -> Result<bool, AllocError>
        ensures is_new { IfOk result (λ is_new. is_new ≡ is_none (first_at self.old name.now)) }
        ensures added { OnOk result (Adds name.now place self.old self.new) }
        ensures err { OnErr result (Keeps self.old self.new) }
    {
        if has_room && self.tree.is_empty() {
            self.add_to_table(name, place)
        } else {
            self.add_beside(name, place, has_room)
        }
    }

    // The same, where nothing stands in the tree.
    fn add_to_table(&mut self, name: &'n [u8], place: usize) -> Result<bool, AllocError>
        requires { btree_map_len self.old.tree ≡ 0 }
        ensures is_new { IfOk result (λ is_new. is_new ≡ is_none (first_at self.old name.now)) }
        ensures added { OnOk result (Adds name.now place self.old self.new) }
        ensures err { OnErr result (Keeps self.old self.new) }
    {
        match self.table.insert(Key { bytes: name }, place) {
            Ok(None) => Ok(true),
            Ok(Some(first)) => match self.table.insert(Key { bytes: name }, first) {
                Ok(_) => Ok(false),
                Err(_) => Err(AllocError),
            },
            Err(_) => Err(AllocError),
        }
    }

    // The same, where names stand in both, or its part has no room for the name.
    #[inline(never)]
    fn add_beside(
        &mut self,
        name: &'n [u8],
        place: usize,
        has_room: bool,
    ) -> Result<bool, AllocError>
        ensures is_new { IfOk result (λ is_new. is_new ≡ is_none (first_at self.old name.now)) }
        ensures added { OnOk result (Adds name.now place self.old self.new) }
        ensures err { OnErr result (Keeps self.old self.new) }
    {
        if self.find(name).is_some() {
            return Ok(false);
        }
        self.put(name, place, has_room)?;
        Ok(true)
    }

    // Keeps a place for a name that has none.
    fn put(&mut self, name: &'n [u8], place: usize, has_room: bool) -> Result<(), AllocError>
        requires { first_at self.old name.now ≡ None }
        ensures added { OnOk result (Adds name.now place self.old self.new) }
        ensures err { OnErr result (Keeps self.old self.new) }
    {
        if has_room {
            match self.table.insert(Key { bytes: name }, place) {
                Ok(_) => Ok(()),
                Err(_) => Err(AllocError),
            }
        } else {
            match self.tree.insert(name, place) {
                Ok(_) => Ok(()),
                Err(_) => Err(AllocError),
            }
        }
    }
}
