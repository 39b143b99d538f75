ghost use Rattle.std.specs.Prelude.{◌≡◌, ◌≤◌, ◌<◌};
ghost use Rattle.pair_core.specs.KeptSide.{kept_side};
ghost use Rattle.pair_core.specs.CoreStep.{needed_window, take_enabled};
ghost use Rattle.pair_core.specs.TakeTurn.{kept_take};
ghost use Rattle.pair_core.specs.TurnStep.{step_of};

use crate::event::{Enabled, PartId};
use crate::side::Side;
use fixed_num::Value;

/// What becomes of a Take.
#[derive(Clone, Copy)]
pub enum TakeTurn {
    /// The partner has given what is needed, which is this value.
    Reads(Value),
    /// The partner has ended before giving it.
    CutBy {
        who: PartId,
    },
    /// The partner, which stands at this turn, has still to give it.
    Waits {
        owner: PartId,
        window: u32,
        iteration: u32,
    },
}

impl TakeTurn {
    /// Whether the Take is enabled.
    pub fn enabled(self) -> Enabled
        ensures { result ≡ take_enabled (step_of self) }
    {
        match self {
            TakeTurn::Reads(_) => Enabled::Yes,
            TakeTurn::CutBy { who } => Enabled::CutBy { who },
            TakeTurn::Waits {
                owner,
                window,
                iteration,
            } => Enabled::Missing {
                owner,
                window,
                iteration,
            },
        }
    }
}

/// What becomes of the Take of participant `p`, of whose partner the needed value is the last one.
pub fn take_turn(p: PartId, own: &Side, partner: &Side) -> TakeTurn
    requires participant { p < 2 }
    requires posted { 1 ≤ own.now.posts }
    ensures { step_of result ≡ kept_take p (kept_side own.now) (kept_side partner.now) }
{
    if window_needed(p, own.posts) < partner.posts {
        return TakeTurn::Reads(partner.last);
    }
    let owner = 1 - p;
    if partner.ending.is_some() {
        return TakeTurn::CutBy { who: owner };
    }
    let (window, iteration) = partner.position();
    TakeTurn::Waits {
        owner,
        window,
        iteration,
    }
}

/// The partner's window whose value participant `p` reads in its own: the first lags by one.
fn window_needed(p: PartId, window: u32) -> u32
    requires { 1 ≤ window }
    ensures { result ≡ needed_window p window }
{
    if p == 0 { window - 1 } else { window }
}
