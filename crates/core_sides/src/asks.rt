//! Loops over those that a participant asks.

ghost use Rattle.std.specs.Prelude.{◌≡◌, ◌<◌, ◌≤◌, length, map, filter_map, option_map, slice_get};
ghost use Rattle.cpl_plan.specs.Needs.{needs};
ghost use Rattle.cpl_plan.specs.declared.words.Item.TheVariants.{Posted};
ghost use Rattle.coupled_loop.specs.PlanFrames.{owners_of, members_of};
ghost use Rattle.std.specs.Option.{option_map_or};
ghost use Rattle.core_sides.specs.Searched.{searched, and_then};
ghost use Rattle.core_sides.specs.KeptSides.{kept_ended, kept_sent, kept_given};

use crate::search::Search;
use crate::sides::Sides;
use cpl_plan::{Item, Plan};
use plan_order::{MeshId, PartId, SchemeId};

impl Sides {
    /// The owners of the meshes that a participant receives.
    pub(crate) fn owners_asked(&self, plan: &Plan, p: PartId) -> Search
        requires { p < length plan.now.parts }
        ensures { result ≡ searched (kept_ended self.now)
            (map (λ owner. (owner, kept_sent self.now owner)) (owners_of plan.now p)) }
    {
        self.owners_among(plan, plan.part(p).receives.as_slice())
    }

    /// The owners of these meshes.
    fn owners_among(&self, plan: &Plan, meshes: &[MeshId]) -> Search
        ensures { result ≡ searched (kept_ended self.now)
            (map (λ owner. (owner, kept_sent self.now owner))
            (filter_map (λ mesh. option_map (λ m. m.owner) (slice_get plan.now.meshes mesh)) meshes.now)) }
    {
        let mut search = Search::nobody();
        for mesh in meshes {
            search = self.and_owner(plan, search, *mesh);
        }
        search
    }

    /// The owner of a mesh is asked too.
    fn and_owner(&self, plan: &Plan, search: Search, mesh: MeshId) -> Search
        ensures { result ≡ option_map_or
            (λ owner. and_then search owner (kept_sent self.now owner) (kept_ended self.now owner))
            (option_map (λ m. m.owner) (slice_get plan.now.meshes mesh)) search }
    {
        if (mesh as usize) < plan.parts().meshes.len() {
            let owner = plan.mesh_owner(mesh);
            search.and(owner, self.has_sent(owner), self.has_ended(owner))
        } else {
            search
        }
    }

    /// The owners of what a participant needs for turn (w, k).
    pub(crate) fn needs_asked(&self, plan: &Plan, p: PartId, w: u32, k: u32) -> Search
        requires window { 1 ≤ w }
        requires participant { p < length plan.now.parts }
        ensures { result ≡ searched (kept_ended self.now)
            (map (λ need. (need.owner, kept_given self.now need.owner need.item)) (needs plan.now p w k)) }
    {
        let _valid = plan.parts();
        let mut search = Search::nobody();
        for i in 0..u32::MAX {
            match plan.need(p, i, w, k) {
                Some(need) => {
                    let given = self.has_given(need.owner, need.item);
                    search = search.and(need.owner, given, self.has_ended(need.owner));
                }
                None => return search,
            }
        }
        search
    }

    /// The members of a scheme, whose posts of turn (w, k) are judged.
    pub(crate) fn members_asked(&self, plan: &Plan, s: SchemeId, w: u32, k: u32) -> Search
        ensures { result ≡ searched (kept_ended self.now)
            (map (λ member. (member, kept_given self.now member (Posted w k))) (members_of plan.now s)) }
    {
        if s < plan.scheme_count() {
            self.members_among(plan.scheme(s).members.as_slice(), w, k)
        } else {
            Search::nobody()
        }
    }

    /// These members.
    fn members_among(&self, members: &[PartId], w: u32, k: u32) -> Search
        ensures { result ≡ searched (kept_ended self.now)
            (map (λ member. (member, kept_given self.now member (Posted w k))) members.now) }
    {
        let mut search = Search::nobody();
        let item = Item::Posted {
            window: w,
            iteration: k,
        };
        for member in members {
            let given = self.has_given(*member, item);
            search = search.and(*member, given, self.has_ended(*member));
        }
        search
    }
}
