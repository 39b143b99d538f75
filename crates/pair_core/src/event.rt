//! The events of a participant, their replies, and what a core tells of a participant.

use fixed_num::Value;
use thiserror::Error;

/// The number of a participant: 0 for the first of the scheme, 1 for the second.
pub type PartId = u32;

/// One event of a participant.
#[derive(Debug, Drop, PartialEq, Eq)]
pub enum Event {
    /// Gives the participant's value: the initial one, and then that of each window.
    Post(Value),
    /// Asks for the input of the window.
    Take,
    /// Ends the participant by a fault of its solver with this code.
    Stop { code: u32 },
    /// Ends the participant, after the last window or early.
    End,
}

/// The reply to an event that was made.
#[derive(Debug, Drop, PartialEq, Eq)]
pub enum Reply {
    Posted,
    /// The partner's value: of the window before for the first, of the same window for the second.
    Input(Value),
    /// The Take became a cut, since `who` has ended before giving what it needs.
    Cut { who: PartId },
    /// The participant has ended by its own Stop or End.
    Over,
}

/// Whether the next event of a participant is enabled.
#[derive(Clone, Copy, Debug, PartialEq, Eq)]
pub enum Enabled {
    Yes,
    /// The next Take becomes a cut by `who`.
    CutBy {
        who: PartId,
    },
    /// The next Take waits for `owner`, which stands at this turn.
    Missing {
        owner: PartId,
        window: u32,
        iteration: u32,
    },
    Ended,
}

/// The kind of a participant's next event.
#[derive(Clone, Copy, Debug, PartialEq, Eq)]
pub enum NextKind {
    Post,
    Take,
    End,
    /// The participant has ended.
    None,
}

/// How a participant ended.
#[derive(Clone, Copy, Debug, PartialEq, Eq)]
pub enum Ending {
    /// After its last window.
    Done,
    /// By an End before it was through.
    Early,
    /// By a Stop, with the window that it was in, which is 0 before the initial post.
    Faulted { window: u32, code: u32 },
    /// By the partner, which had ended before giving what a Take needed.
    Cut,
}

/// Why an event was refused.
#[derive(Clone, Copy, Debug, PartialEq, Eq, Error)]
pub enum CoreErr {
    /// The Take waits for `owner`, which stands at this turn.
    #[error("the input is not given yet")]
    NotEnabled {
        owner: PartId,
        window: u32,
        iteration: u32,
    },
    /// There was no memory. This answer is free: no contract ties it to a cause.
    #[error("out of memory")]
    Memory,
}
