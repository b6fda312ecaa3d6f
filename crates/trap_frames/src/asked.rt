//! What is asked of objects and of functions.

ghost use Rattle.std.specs.Prelude.{◌≡◌, ℕ, List, Option, option_map};
ghost use Rattle.moving_heap.specs.declared.stands.Stand.{Stand};
ghost use Rattle.moving_heap.specs.Places.{stands_at};

use sp_ids::ObjId;

/// Objects by their addresses.
pub trait Objects {
    ghost stands: { Self → List Stand };

    /// The object that stands at an address, if there is one.
    fn object_at(&self, address: u64) -> Option<ObjId>
        ensures { option_map (λ object. object.0) result ≡ option_map (λ stand. stand.number) (stands_at (stands self.now) address) };
}

/// Functions by the code addresses of their instructions.
pub trait Functions {
    ghost names: { Self → ℕ → Option (List ℕ) };

    /// The name of the function that has an instruction at an address, if there is one.
    fn name_at(&self, address: u64) -> Option<&[u8]>
        ensures { option_map (λ name. name.now) result ≡ names self.now address };
}
