//! Events.

ghost use Rattle.std.specs.Prelude.{◌<◌, IsTrue, length};
ghost use Rattle.core_sides.specs.Answers.{act_of};
ghost use Rattle.core_sides.specs.CoreWords.{WaveState};
ghost use Rattle.core_sides.specs.Fitting.{FitsAt, IsFitting};
ghost use Rattle.core_sides.specs.SidesStand.{AreStanding, place_of};

use crate::meshes::{are_provided, standing_of};
use crate::posts::{is_initial_post, is_window_post};
use core_sides::windows::is_there;
use core_sides::{Event, Place, Sides};
use cpl_plan::{PartId, Plan};

/// Whether participant `p` may ask for an event, by where all participants stand: it has not ended,
/// the event is of the kind that comes next or a Stop or an End, and what it gives fits.
pub fn fits(plan: &Plan, sides: &Sides, p: PartId, event: &Event) -> bool
    requires participant { p < length plan.now.parts }
    ensures { IsTrue result → (state : WaveState) → AreStanding plan.now sides.now state
        → IsFitting plan.now state p (act_of event.now) }
{
    match standing_of(sides, p) {
        Some(standing) => {
            if standing.ending.is_some() {
                return false;
            }
            fits_at(plan, sides, p, standing.place, event)
        }
        None => false,
    }
}

/// Whether an event fits at a place.
fn fits_at(plan: &Plan, sides: &Sides, p: PartId, place: Place, event: &Event) -> bool
    requires participant { p < length plan.now.parts }
    ensures { IsTrue result → (state : WaveState) → AreStanding plan.now sides.now state
        → FitsAt plan.now state p (place_of place) (act_of event.now) }
{
    match (place, event) {
        (_, Event::Stop(_) | Event::End) => true,
        (Place::Sending, Event::PostMesh(meshes)) => are_provided(plan, p, meshes.as_slice()),
        (Place::Collecting, Event::TakeMeshes) => true,
        (Place::Opening, Event::Post(waves)) => is_initial_post(plan, sides, p, waves.as_slice()),
        (Place::Taking { window, .. }, Event::Take) => {
            is_there(plan, sides.ends.as_slice(), window)
        }
        (Place::Within { window, .. }, Event::Post(waves)) => {
            is_window_post(plan, sides, p, window, waves.as_slice())
        }
        (Place::Judging { .. }, Event::Judge) => true,
        _ => false,
    }
}
