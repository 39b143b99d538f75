ghost use Rattle.std.specs.Prelude.{◌≡◌};
ghost use Rattle.edge_projection.specs.declared.edge_errors.EdgeErr.TheVariants.{Memory as NoTable};
ghost use Rattle.edge_projection.specs.declared.edge_errors.SumErr.TheVariants.{Memory as NoSums};

use fixed_num::Memory;
use std::alloc::AllocError;
use thiserror::Error;

/// Why there is no map between two meshes.
#[derive(Clone, Copy, Debug, PartialEq, Eq, Error)]
pub enum EdgeErr {
    /// A mesh has no vertex.
    #[error("a mesh has no vertex")]
    Empty,
    /// The edge at this place is the first of the list with an end that is no vertex.
    #[error("edge {at} ends at no vertex")]
    BadEdge { at: usize },
    /// There was no memory for the table. This answer is free: no contract ties it to a cause.
    #[error("out of memory")]
    Memory,
}

impl From<Memory> for EdgeErr {
    ghost from_gives = { λ _ error. error ≡ NoTable };

    fn from(_error: Memory) -> EdgeErr {
        EdgeErr::Memory
    }
}

/// Why a field was not mapped.
#[derive(Clone, Copy, Debug, PartialEq, Eq, Error)]
pub enum SumErr {
    /// The whole sum of this component at this target vertex is out of range.
    #[error("component {component} of vertex {vertex} is out of range")]
    Overflow { vertex: u32, component: u32 },
    /// There was no memory for the sums. This answer is free: no contract ties it to a cause.
    #[error("out of memory")]
    Memory,
}

impl From<AllocError> for SumErr {
    ghost from_gives = { λ _ error. error ≡ NoSums };

    fn from(_error: AllocError) -> SumErr {
        SumErr::Memory
    }
}
