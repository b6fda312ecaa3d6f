//! A table of objects by addresses.

ghost use Rattle.std.specs.Prelude.{◌≡◌, ◌<◌, vec_len};
ghost use Rattle.moving_heap.specs.Places.{owner};
ghost use Rattle.moving_heap.specs.Heaps.{checked, loaded, stored_at, done};

use ir_ast::Cell;
use moving_heap::{Deny, Heap};
use sp_ids::Memory;
use std::alloc::Global;

/// Where objects were found last, one object, by its place from 0, for each of 1,024 kinds of addresses; and the address that
/// was checked last, with the object that was found, since an access mostly follows its check. Whatever it holds, the answers
/// are the heap's own: an object that stands elsewhere costs a search, and nothing else.
#[derive(Drop)]
pub struct Hints {
    objects: Vec<usize>,
    last: u64,
    last_object: usize,
    ghost size: { vec_len objects ≡ 1024 },
}

impl Hints {
    /// A table that knows nothing yet.
    pub fn new(alloc: Global) -> Result<Hints, Memory> {
        let objects = vec![in alloc; 0usize; 1024]?;
        Ok(Hints {
            objects,
            last: 0,
            last_object: 0,
        })
    }

    /// As `Heap::check`.
    #[inline(always)]
    pub fn check(&mut self, heap: &Heap, base: u64, p: u64, kind: Cell) -> Result<(), Deny>
        ensures { result ≡ checked heap.now base p kind }
    {
        let place = place_of(base);
        let (found, object) = heap.check_near(base, p, kind, self.objects[place]);
        self.objects[place] = object;
        self.last = p;
        self.last_object = object;
        found
    }

    /// As `Heap::load`.
    #[inline(always)]
    pub fn load(&mut self, heap: &Heap, p: u64) -> Result<u64, Deny>
        ensures { result ≡ loaded heap.now p }
    {
        let (found, object) = heap.load_near(p, self.near(p));
        self.keep(p, object);
        found
    }

    /// As `Heap::store`.
    #[inline(always)]
    pub fn store(&mut self, heap: &mut Heap, p: u64, word: u64) -> Result<(), Deny>
        ensures answer { result ≡ done (loaded heap.old p) }
        ensures changed { heap.new ≡ record heap.old { contents = stored_at heap.old.contents p word (owner heap.old.stands p) } }
    {
        let (found, object) = heap.store_near(p, word, self.near(p));
        self.keep(p, object);
        found
    }

    // The object to be tried first for an address.
    #[inline(always)]
    fn near(&self, p: u64) -> usize {
        if p == self.last {
            self.last_object
        } else {
            self.objects[place_of(p)]
        }
    }

    // The object that was found at an address, unless it is the one that was checked last.
    #[inline(always)]
    fn keep(&mut self, p: u64, object: usize) {
        if p != self.last {
            self.objects[place_of(p)] = object;
        }
    }
}

// Addresses that are 16 bytes apart have neighbouring places.
#[inline(always)]
fn place_of(address: u64) -> usize
    ensures { result < 1024 }
{
    (address / 16 % 1024) as usize
}
