//! Copies that need memory.

ghost use Rattle.std.specs.Prelude.{◌≡◌, IfOk};

use sp_ids::Memory;
use std::alloc::Global;

/// A copy that needs memory.
pub(crate) trait TryClone: Drop + Sized {
    fn try_clone_in(&self, alloc: Global) -> Result<Self, Memory>
        ensures { IfOk result (λ copy. copy ≡ self.now) };
}

pub(crate) fn try_clone_all<T: TryClone>(alloc: Global, items: &[T]) -> Result<Vec<T>, Memory>
    ensures { IfOk result (λ copies. copies.items ≡ items.now) }
{
    let mut copies = Vec::new(alloc);
    for item in items {
        copies.push(item.try_clone_in(alloc)?)?;
    }
    Ok(copies)
}

impl<T: TryClone> TryClone for Option<T> {
    fn try_clone_in(&self, alloc: Global) -> Result<Option<T>, Memory> {
        match self {
            None => Ok(None),
            Some(item) => Ok(Some(item.try_clone_in(alloc)?)),
        }
    }
}
