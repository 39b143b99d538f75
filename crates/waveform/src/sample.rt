ghost use Rattle.std.specs.Prelude.{◌≡◌, IfOk};

use crate::field::Field;
use fixed_num::{CopyIn, Memory};
use std::alloc::Global;

/// A field at a time. Contracts see a [`Wave`](crate::Wave) as the list of its samples.
#[derive(Debug, Drop)]
pub struct Sample {
    /// The time in ticks.
    pub time: u64,
    pub field: Field,
}

impl Sample {
    /// An equal sample in memory of its own.
    pub fn copy(&self, alloc: Global) -> Result<Sample, Memory>
        ensures { IfOk result (λ copy. copy ≡ self.now) }
    {
        Ok(Sample {
            time: self.time,
            field: self.field.copy(alloc)?,
        })
    }
}

impl CopyIn for Sample {
    fn copy_in(&self, alloc: Global) -> Result<Sample, Memory> {
        self.copy(alloc)
    }
}
