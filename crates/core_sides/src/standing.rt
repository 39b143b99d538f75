//! Where a participant stands in its own order of events.

ghost use Rattle.std.specs.Prelude.{◌≡◌};
ghost use Rattle.core_sides.specs.KeptPlaces.{given_at, given_before, turn_of};

use crate::event::Ending;
use cpl_plan::Item;
use fixed_num::Items;
use mesh_data::AnyMesh;
use plan_order::SchemeId;

/// What a participant does next, and in which window and iteration.
#[derive(Clone, Copy, Debug, PartialEq, Eq)]
pub enum Place {
    /// It posts its meshes.
    Sending,
    /// It takes those that it receives.
    Collecting,
    /// It posts its initial data.
    Opening,
    /// It takes its inputs; after the last window it ends.
    Taking {
        window: u32,
        iteration: u32,
    },
    /// It solves, and posts.
    Within {
        window: u32,
        iteration: u32,
    },
    /// It judges with the other members of its scheme.
    Judging {
        scheme: SchemeId,
        window: u32,
        iteration: u32,
    },
}

/// One participant.
#[derive(Drop)]
pub struct Standing {
    pub place: Place,
    pub ending: Option<Ending>,
    /// The meshes that it has posted.
    pub sent: Option<Items<AnyMesh>>,
}

impl Place {
    /// The turn whose events come next.
    pub fn turn(self) -> (u32, u32)
        ensures { result ≡ turn_of self }
    {
        match self {
            Place::Sending | Place::Collecting | Place::Opening => (0, 0),
            Place::Taking { window, iteration }
            | Place::Within { window, iteration }
            | Place::Judging {
                window,
                iteration,
                ..
            } => (window, iteration),
        }
    }

    /// Whether who stands there has given an item.
    pub fn has_given(self, item: Item) -> bool
        ensures { result ≡ given_at self item }
    {
        match self {
            Place::Sending | Place::Collecting | Place::Opening => false,
            Place::Taking { window, iteration } | Place::Within { window, iteration } => {
                given_before(window, u64::from(iteration), item)
            }
            Place::Judging {
                window,
                iteration,
                ..
            } => given_before(window, u64::from(iteration) + 1, item),
        }
    }
}

/// Whether who stands before turn (w, k) has given an item.
fn given_before(w: u32, k: u64, item: Item) -> bool
    ensures { result ≡ given_before w k item }
{
    match item {
        Item::Completed { window } => window < w,
        Item::Posted { window, iteration } => {
            window < w || (window == w && u64::from(iteration) < k)
        }
    }
}
