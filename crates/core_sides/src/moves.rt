//! How what is kept of a participant changes.

ghost use Rattle.std.specs.Prelude.{◌≡◌, ◌<◌, length, set, slice_get, Some};
ghost use Rattle.core_sides.specs.declared.standing.Standing.{Standing};
ghost use Rattle.core_sides.specs.declared.standing.Place.TheVariants.{Collecting};

use crate::event::Ending;
use crate::sides::Sides;
use crate::standing::Place;
use fixed_num::Items;
use mesh_data::AnyMesh;
use plan_order::PartId;

impl Sides {
    /// A participant goes on to another place.
    pub fn go_to(&mut self, p: PartId, place: Place)
        requires { p < length self.old.standings.items }
        ensures standings { (s : Standing) → slice_get self.old.standings.items p ≡ Some s
            → self.new.standings.items ≡ set self.old.standings.items p (record s { place = place }) }
        ensures ends { self.new.ends ≡ self.old.ends }
    {
        self.standings[p as usize].place = place;
    }

    /// A participant ends.
    pub fn end(&mut self, p: PartId, ending: Ending)
        requires { p < length self.old.standings.items }
        ensures standings { (s : Standing) → slice_get self.old.standings.items p ≡ Some s
            → self.new.standings.items ≡ set self.old.standings.items p (record s { ending = Some ending }) }
        ensures ends { self.new.ends ≡ self.old.ends }
    {
        self.standings[p as usize].ending = Some(ending);
    }

    /// A participant posts its meshes, and takes those that it receives next.
    pub fn send(&mut self, p: PartId, meshes: Items<AnyMesh>)
        requires { p < length self.old.standings.items }
        ensures standings { (s : Standing) → slice_get self.old.standings.items p ≡ Some s
            → self.new.standings.items
            ≡ set self.old.standings.items p (record { place = Collecting; ending = s.ending; sent = Some meshes }) }
        ensures ends { self.new.ends ≡ self.old.ends }
    {
        let standing = &mut self.standings[p as usize];
        standing.sent = Some(meshes);
        standing.place = Place::Collecting;
    }
}
