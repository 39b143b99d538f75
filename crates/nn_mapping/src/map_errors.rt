ghost use Rattle.std.specs.Prelude.{◌≡◌};
ghost use Rattle.nn_mapping.specs.declared.map_errors.MapErr.TheVariants.{Memory as NoTable};
ghost use Rattle.nn_mapping.specs.declared.map_errors.ApplyErr.TheVariants.{Memory as NoSums};

use fixed_num::Memory;
use std::alloc::AllocError;
use thiserror::Error;

/// Why there is no map between two meshes.
#[derive(Clone, Copy, Debug, PartialEq, Eq, Error)]
pub enum MapErr {
    /// A mesh has no vertex.
    #[error("a mesh has no vertex")]
    Empty,
    /// There was no memory for the table. This answer is free: no contract ties it to a cause.
    #[error("out of memory")]
    Memory,
}

impl From<Memory> for MapErr {
    ghost from_gives = { λ _ error. error ≡ NoTable };

    fn from(_error: Memory) -> MapErr {
        MapErr::Memory
    }
}

/// Why a field was not mapped.
#[derive(Clone, Copy, Debug, PartialEq, Eq, Error)]
pub enum ApplyErr {
    /// The whole sum of this component at this target vertex is out of range.
    #[error("component {component} of vertex {vertex} is out of range")]
    Overflow { vertex: u32, component: u32 },
    /// There was no memory for the sums. This answer is free: no contract ties it to a cause.
    #[error("out of memory")]
    Memory,
}

impl From<AllocError> for ApplyErr {
    ghost from_gives = { λ _ error. error ≡ NoSums };

    fn from(_error: AllocError) -> ApplyErr {
        ApplyErr::Memory
    }
}
