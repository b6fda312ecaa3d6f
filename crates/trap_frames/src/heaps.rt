//! Objects by the addresses of a heap.

use crate::asked::Objects;
use moving_heap::Heap;
use sp_ids::ObjId;

impl Objects for Heap {
    ghost use Rattle.std.specs.Prelude.{List};
    ghost use Rattle.moving_heap.specs.declared.stands.Stand.{Stand};

    ghost stands = { λ heap. heap.stands };

    fn object_at(&self, address: u64) -> Option<ObjId> {
        Heap::object_at(self, address)
    }
}
