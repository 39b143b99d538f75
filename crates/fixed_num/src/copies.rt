ghost use Rattle.std.specs.Prelude.{◌≡◌, IfOk};

use crate::items::Items;
use crate::memory::Memory;
use crate::name::Name;
use std::alloc::Global;

/// What can be had once more in memory of its own.
pub trait CopyIn: Drop {
    /// An equal value.
    fn copy_in(&self, alloc: Global) -> Result<Self, Memory>
        ensures { IfOk result (λ copy. copy ≡ self.now) };
}

impl CopyIn for Name {
    fn copy_in(&self, alloc: Global) -> Result<Name, Memory> {
        self.copy(alloc)
    }
}

impl<T: CopyIn> CopyIn for Items<T> {
    fn copy_in(&self, alloc: Global) -> Result<Items<T>, Memory> {
        Ok(Items::from_vec(copies_of(alloc, self.as_slice())?))
    }
}

/// Equal items in memory of their own.
pub fn copies_of<T: CopyIn>(alloc: Global, items: &[T]) -> Result<Vec<T>, Memory>
    ensures { IfOk result (λ copies. copies.items ≡ items.now) }
{
    let mut copies = Vec::with_capacity(alloc, items.len())?;
    for item in items {
        copies.push(item.copy_in(alloc)?)?;
    }
    Ok(copies)
}
