ghost use Rattle.std.specs.Prelude.{◌≡◌};
ghost use Rattle.participant_words.specs.declared.api_err.ApiErr.TheVariants.{Memory as NoMemory};

use cpl_plan::{Fault, PartId};
use fixed_num::Memory;
use thiserror::Error;

/// Why a call of a participant was refused, or what has ended it.
#[derive(Clone, Copy, Debug, PartialEq, Eq, Error)]
pub enum ApiErr {
    #[error("call {call} is not allowed in phase {phase}")]
    WrongPhase { call: u32, phase: u32 },
    /// The participant does not provide a mesh of that name.
    #[error("the participant provides no such mesh")]
    UnknownMesh,
    /// The mesh does not carry the data.
    #[error("the mesh does not carry the data")]
    UnknownData,
    #[error("the participant does not write the data on the mesh")]
    NotWritable,
    #[error("the participant does not read the data on the mesh")]
    NotReadable,
    /// The first number of a vertex that is not below `size`.
    #[error("the mesh has no vertex {id}, but {size}")]
    BadVertex { id: u32, size: u32 },
    #[error("{got} numbers where {want} are wanted")]
    BadLength { want: usize, got: usize },
    #[error("a step of no time")]
    ZeroStep,
    #[error("a step over {most} ticks")]
    StepTooLong { most: u64 },
    /// This is the last step that a turn may have, and it does not end the window.
    #[error("too many steps in one window")]
    TooManySteps,
    #[error("a time to read over {most} ticks from now")]
    BadReadTime { most: u64 },
    /// A checkpoint question would be answered by true, and was not asked in this turn.
    #[error("a checkpoint question was not asked")]
    CheckpointOwed,
    #[error("whether initial data are required was not asked")]
    InitialDataOwed,
    #[error("a provided mesh has no vertex")]
    EmptyMesh,
    #[error("the mesh would have too many vertices")]
    TooManyVertices,
    /// The first number out of range.
    #[error("number {index} is out of range")]
    ValueRange { index: usize },
    /// A mapped or relaxed value is out of range, and the participant has ended.
    #[error("a value is out of range")]
    Overflow { fault: Fault },
    /// A strict measure does not hold, and the participant has ended.
    #[error("the window has not converged")]
    NotConverged { fault: Fault },
    /// The participant has ended, since `who` has ended before giving what it needs.
    #[error("participant {who} has ended")]
    PeerEnded { who: PartId },
    /// There was no memory. This answer is free: no contract ties it to a cause.
    #[error("out of memory")]
    Memory,
}

impl From<Memory> for ApiErr {
    ghost from_gives = { λ _ error. error ≡ NoMemory };

    fn from(_error: Memory) -> ApiErr {
        ApiErr::Memory
    }
}
