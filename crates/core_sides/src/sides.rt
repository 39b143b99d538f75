//! What is kept of all participants: where each stands, and the ends of the windows that were made.

ghost use Rattle.std.specs.Prelude.{◌≡◌, ◌<◌, length, slice_get, Some};
ghost use Rattle.core_sides.specs.KeptSides.{kept_ended, kept_sent, kept_given, kept_turn, kept_search_at, kept_next_kind, kept_enabled, kept_end_at};
ghost use Rattle.core_sides.specs.declared.standing.Standing.{Standing};

use crate::event::{Enabled, Ending, NextKind};
use crate::search::Search;
use crate::standing::{Place, Standing};
use crate::windows::is_there;
use cpl_plan::{Item, Plan};
use plan_order::PartId;

/// What is kept of all participants.
#[derive(Drop)]
pub struct Sides {
    /// By the participants' numbers.
    pub standings: Vec<Standing>,
    /// Where the first participant's steps make the windows, when they ended, in order.
    pub ends: Vec<u64>,
}

impl Sides {
    /// The kind of the next event of a participant.
    pub fn next_kind(&self, plan: &Plan, p: PartId) -> NextKind
        requires { p < length self.now.standings.items }
        ensures { (standing : Standing) → slice_get self.now.standings.items p ≡ Some standing
            → result ≡ kept_next_kind plan.now self.now p standing }
    {
        let standing = &self.standings[p as usize];
        if standing.ending.is_some() {
            return NextKind::None;
        }
        match standing.place {
            Place::Sending => NextKind::PostMesh,
            Place::Collecting => NextKind::TakeMeshes,
            Place::Opening | Place::Within { .. } => NextKind::Post,
            Place::Judging { .. } => NextKind::Judge,
            Place::Taking { window, .. } => {
                if is_there(plan, &self.ends, window) {
                    NextKind::Take
                } else {
                    NextKind::End
                }
            }
        }
    }

    /// Whether the next event of a participant is enabled.
    pub fn enabled(&self, plan: &Plan, p: PartId) -> Enabled
        requires standing { p < length self.now.standings.items }
        requires participant { p < length plan.now.parts }
        ensures { (standing : Standing) → slice_get self.now.standings.items p ≡ Some standing
            → result ≡ kept_enabled plan.now self.now p standing }
    {
        let standing = &self.standings[p as usize];
        if standing.ending.is_some() {
            return Enabled::Ended;
        }
        let search = self.search(plan, p, standing.place);
        match (search.cut, search.waits) {
            (Some(who), _) => Enabled::CutBy { who },
            (None, Some(owner)) => {
                let (window, iteration) = self.turn(owner);
                Enabled::Missing {
                    owner,
                    window,
                    iteration,
                }
            }
            (None, None) => Enabled::Yes,
        }
    }

    /// How a participant ends by itself at a place: after the last window, or early.
    pub fn own_ending(&self, plan: &Plan, place: Place) -> Ending
        ensures { result ≡ kept_end_at plan.now self.now place }
    {
        match place {
            Place::Taking { window, .. } => {
                if is_there(plan, &self.ends, window) {
                    Ending::Early
                } else {
                    Ending::Done
                }
            }
            _ => Ending::Early,
        }
    }

    /// The turn of a participant whose events come next.
    pub fn turn(&self, p: PartId) -> (u32, u32)
        ensures { result ≡ kept_turn self.now p }
    {
        match self.standings.get(p as usize) {
            Some(standing) => standing.place.turn(),
            None => (0, 0),
        }
    }

    /// Who of those that a participant asks at a place has not given what it asks for.
    pub fn search(&self, plan: &Plan, p: PartId, place: Place) -> Search
        requires { p < length plan.now.parts }
        ensures { result ≡ kept_search_at plan.now self.now p place }
    {
        match place {
            Place::Collecting => self.owners_asked(plan, p),
            Place::Taking { window, iteration } => {
                if is_there(plan, &self.ends, window) {
                    self.needs_asked(plan, p, window, iteration)
                } else {
                    Search::nobody()
                }
            }
            Place::Judging {
                scheme,
                window,
                iteration,
            } => self.members_asked(plan, scheme, window, iteration),
            _ => Search::nobody(),
        }
    }

    /// Whether a participant has ended.
    pub(crate) fn has_ended(&self, p: PartId) -> bool
        ensures { result ≡ kept_ended self.now p }
    {
        match self.standings.get(p as usize) {
            Some(standing) => standing.ending.is_some(),
            None => false,
        }
    }

    /// Whether a participant has posted its meshes.
    pub(crate) fn has_sent(&self, p: PartId) -> bool
        ensures { result ≡ kept_sent self.now p }
    {
        match self.standings.get(p as usize) {
            Some(standing) => standing.sent.is_some(),
            None => false,
        }
    }

    /// Whether a participant has given an item.
    pub(crate) fn has_given(&self, p: PartId, item: Item) -> bool
        ensures { result ≡ kept_given self.now p item }
    {
        match self.standings.get(p as usize) {
            Some(standing) => standing.place.has_given(item),
            None => false,
        }
    }
}
