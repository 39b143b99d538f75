//! What becomes of an event that asks for something.

ghost use Rattle.std.specs.Prelude.{◌≡◌, ◌<◌, length, slice_get, Some};
ghost use Rattle.core_sides.specs.declared.standing.Standing.{Standing};
ghost use Rattle.coupling_core.specs.Gated.{kept_gate};

use core_sides::{Ending, Place, Sides};
use cpl_plan::Plan;
use plan_order::PartId;

/// What becomes of an event that asks for something.
#[derive(Clone, Copy, Debug, PartialEq, Eq)]
pub enum Gate {
    /// All is given: the event is made.
    Open,
    /// `who` has ended before giving what is asked for: the event becomes a cut.
    Cut {
        who: PartId,
    },
    /// The event waits for `owner`, which stands at this turn.
    Waits {
        owner: PartId,
        window: u32,
        iteration: u32,
    },
}

/// What becomes of the next event of a participant, which asks for something.
pub(crate) fn gate_of(plan: &Plan, sides: &Sides, p: PartId) -> Gate
    requires standing { p < length sides.now.standings.items }
    requires participant { p < length plan.now.parts }
    ensures { (standing : Standing) → slice_get sides.now.standings.items p ≡ Some standing
        → result ≡ kept_gate plan.now sides.now p standing }
{
    let standing = &sides.standings[p as usize];
    let search = sides.search(plan, p, standing.place);
    match (search.cut, search.waits) {
        (Some(who), _) => Gate::Cut { who },
        (None, Some(owner)) => {
            let (window, iteration) = sides.turn(owner);
            Gate::Waits {
                owner,
                window,
                iteration,
            }
        }
        (None, None) => Gate::Open,
    }
}

/// Where a participant stands.
pub(crate) fn standing_place(sides: &Sides, p: PartId) -> Place
    requires { p < length sides.now.standings.items }
    ensures { (s : Standing) → slice_get sides.now.standings.items p ≡ Some s → result ≡ s.place }
{
    let standing = &sides.standings[p as usize];
    standing.place
}

/// How a participant ended.
pub(crate) fn standing_ending(sides: &Sides, p: PartId) -> Option<Ending>
    requires { p < length sides.now.standings.items }
    ensures { (s : Standing) → slice_get sides.now.standings.items p ≡ Some s → result ≡ s.ending }
{
    let standing = &sides.standings[p as usize];
    standing.ending
}
