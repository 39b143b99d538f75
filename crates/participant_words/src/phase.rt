ghost use Rattle.std.specs.Prelude.{◌≡◌, ◌<◌, Some, None, MatchResult};
ghost use Rattle.participant_words.specs.Phases.{phase_number, call_number, not_allowed};

use crate::api_err::ApiErr;
use call_table::api_table;

/// Where a participant is on its way.
#[derive(Clone, Copy, Debug, PartialEq, Eq)]
pub enum Phase {
    /// It sets vertices and writes initial data.
    Fresh,
    /// It has begun to initialize.
    Joining,
    /// It steps through a window.
    Running,
    /// Events wait to be made.
    Pending,
    /// The last window is completed.
    Done,
    /// It has finalized.
    Final,
    /// It has stopped by a fault, by a cut or by its own wish.
    Stopped,
}

impl Phase {
    /// The phase's number in the table of calls.
    pub fn number(self) -> u32
        ensures number { result ≡ phase_number self }
        ensures few { result < 7 }
    {
        match self {
            Phase::Fresh => 0,
            Phase::Joining => 1,
            Phase::Running => 2,
            Phase::Pending => 3,
            Phase::Done => 4,
            Phase::Final => 5,
            Phase::Stopped => 6,
        }
    }
}

/// The calls that the phases allow or refuse.
#[derive(Clone, Copy, Debug, PartialEq, Eq)]
pub enum Call {
    SetVertex,
    SetVertices,
    VertexCount,
    MeshDimensions,
    DataDimensions,
    RequiresInitialData,
    RequiresWritingCheckpoint,
    RequiresReadingCheckpoint,
    IsOngoing,
    IsWindowComplete,
    MaxStep,
    ReadData,
    WriteData,
    BeginInitialize,
    BeginAdvance,
    BeginFinalize,
    Stop,
}

impl Call {
    /// The call's number in the table of calls.
    pub fn number(self) -> u32
        ensures number { result ≡ call_number self }
        ensures few { result < 18 }
    {
        match self {
            Call::SetVertex => 0,
            Call::SetVertices => 1,
            Call::VertexCount => 2,
            Call::MeshDimensions => 3,
            Call::DataDimensions => 4,
            Call::RequiresInitialData => 5,
            Call::RequiresWritingCheckpoint => 6,
            Call::RequiresReadingCheckpoint => 7,
            Call::IsOngoing => 8,
            Call::IsWindowComplete => 9,
            Call::MaxStep => 10,
            Call::ReadData => 11,
            Call::WriteData => 12,
            Call::BeginInitialize => 13,
            Call::BeginAdvance => 14,
            Call::BeginFinalize => 15,
            Call::Stop => 16,
        }
    }
}

/// What kind of event one is.
#[derive(Clone, Copy, Debug, PartialEq, Eq)]
pub enum EventKind {
    PostMesh,
    TakeMeshes,
    Post,
    Judge,
    Take,
    Stop,
    End,
}

/// Whether the table of calls allows the call in the phase; `WrongPhase` exactly where it does not.
pub fn allow(call: Call, phase: Phase) -> Result<(), ApiErr>
    ensures refusal { MatchResult result (λ _. not_allowed call phase ≡ None)
        (λ error. not_allowed call phase ≡ Some error) }
{
    let (number, column) = (call.number(), phase.number());
    if api_table().verdict(number as usize, column as usize) {
        return Ok(());
    }
    Err(ApiErr::WrongPhase {
        call: number,
        phase: column,
    })
}
