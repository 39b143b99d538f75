//! The events of a participant, their replies, and what a core tells of a participant.

use cpl_plan::{Fault, Verdict};
use fixed_num::{Items, Memory};
use mesh_data::AnyMesh;
use plan_order::{ExchangeId, PartId};
use thiserror::Error;
use waveform::Wave;

/// One event of a participant.
#[derive(Drop)]
pub enum Event {
    /// Gives the participant's meshes: one for each that it provides, in order.
    PostMesh(Items<AnyMesh>),
    /// Asks for the meshes that it receives.
    TakeMeshes,
    /// Gives a wave for each exchange that the participant sends, in order: the initial ones, and then
    /// those of each turn.
    Post(Items<Wave>),
    /// Asks for the verdict on its scheme's iteration.
    Judge,
    /// Asks for the inputs of its turn.
    Take,
    /// Ends the participant by a fault, or for want of memory.
    Stop(StopCause),
    /// Ends the participant, after the last window or early.
    End,
}

/// Why a participant stops.
#[derive(Clone, Copy, Debug, PartialEq, Eq)]
pub enum StopCause {
    Fault(Fault),
    NoMemory,
}

/// The reply to an event that was made.
#[derive(Drop)]
pub enum Reply {
    Posted,
    /// A mesh for each that the participant receives, in order.
    Meshes(Items<AnyMesh>),
    /// What the measures of the scheme say of the iteration.
    Judged(Verdict),
    /// The scheme faults, and the participant has ended by that.
    Faulted(Fault),
    /// An input for each exchange that the participant receives, in order.
    Inputs(Items<Input>),
    /// The event became a cut, since `who` has ended before giving what it needs.
    Cut { who: PartId },
    /// The participant has ended by its own Stop or End.
    Over,
}

/// The wave of an exchange for a turn, with the turn of the writer that its newest sample comes from;
/// (0, 0) where that is an initial value.
#[derive(Drop)]
pub struct Input {
    pub exchange: ExchangeId,
    pub source_window: u32,
    pub source_iteration: u32,
    pub wave: Wave,
}

/// Whether the next event of a participant is enabled.
#[derive(Clone, Copy, Debug, PartialEq, Eq)]
pub enum Enabled {
    Yes,
    /// The next event becomes a cut by `who`.
    CutBy {
        who: PartId,
    },
    /// The next event waits for `owner`, which stands at this turn.
    Missing {
        owner: PartId,
        window: u32,
        iteration: u32,
    },
    Ended,
}

/// The kind of a participant's next event.
#[derive(Clone, Copy, Debug, PartialEq, Eq)]
pub enum NextKind {
    PostMesh,
    TakeMeshes,
    Post,
    Judge,
    Take,
    End,
    /// The participant has ended.
    None,
}

/// How a participant ended.
#[derive(Clone, Copy, Debug, PartialEq, Eq)]
pub enum Ending {
    /// After its last window.
    Done,
    /// By an End before it was through.
    Early,
    /// By its own fault, or that of its scheme.
    Faulted(Fault),
    NoMemory,
    /// By one that it needs, which had ended before giving what is needed.
    Cut,
}

/// Why an event was refused.
#[derive(Clone, Copy, Debug, PartialEq, Eq, Error)]
pub enum CoreErr {
    /// The event waits for `owner`, which stands at this turn.
    #[error("what the event asks for is not given yet")]
    NotEnabled {
        owner: PartId,
        window: u32,
        iteration: u32,
    },
    /// There was no memory. This answer is free: no contract ties it to a cause.
    #[error("out of memory")]
    Memory,
}

impl From<Memory> for CoreErr {
    fn from(_error: Memory) -> CoreErr {
        CoreErr::Memory
    }
}
