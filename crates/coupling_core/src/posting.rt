//! The posts of a participant: the initial one, and that of a turn.

ghost use Rattle.std.specs.Prelude.{◌≡◌, ◌<◌, ◌≤◌, ◌+◌, ◌^◌, ℕ, [], ◌∷◌, ◌++◌, if◌then◌else◌, length, set, slice_get, Some, Ok, IfErr, OnOk, OnErr};
ghost use Rattle.coupled_loop.specs.Given.{accepts};
ghost use Rattle.coupled_loop.specs.Numbered.{put};
ghost use Rattle.coupled_loop.specs.CoreStep.{posts, after_post};
ghost use Rattle.coupled_loop.specs.PlanFrames.{group_of};
ghost use Rattle.wave_coupling.specs.Coupling.{makes_windows};
ghost use Rattle.wave_coupling.specs.Posts.{sent, newest_time};
ghost use Rattle.core_sides.specs.CoreWords.{WaveState, WaveSide};
ghost use Rattle.core_sides.specs.declared.standing.Place.TheVariants.{Opening, Taking, Within};
ghost use Rattle.core_sides.specs.declared.standing.Standing.{Standing};
ghost use Rattle.core_stores.specs.StoresStand.{AreStores};
ghost use Rattle.core_stores.specs.StoreMoves.{AreNext, ArePosted, AreOpen};
ghost use Rattle.coupling_core.specs.OneMore.{MayMake, Answers, Makes};
ghost use Rattle.coupling_core.specs.Heard.{place_posted};

use crate::gate::standing_place;
use crate::machine::Core;
use core_sides::{Place, Reply, Sides};
use core_stores::{accept_all, install, makes_windows, newest_time, opened_stores, put_waves};
use cpl_plan::Plan;
use fixed_num::{Items, Memory};
use plan_order::PartId;
use sample_store::Store;
use waveform::Wave;

impl Core {
    /// The Post of `p`, which comes next: the waves are moved into the stores.
    pub(crate) fn post(&mut self, p: PartId, waves: Items<Wave>) -> Result<(), Items<Wave>>
        requires { MayMake self.old p (posts waves) }
        ensures reply { OnOk result (Answers self.old p (posts waves) (Ok Reply.Posted)) }
        ensures stands { OnOk result (Makes self.old self.new p (posts waves)) }
        ensures plan { self.new.plan ≡ self.old.plan }
        ensures unchanged { OnErr result (self.new ≡ self.old) }
        ensures returned { IfErr result (λ back. back ≡ waves) }
    {
        match standing_place(&self.sides, p) {
            Place::Within { window, iteration } => self.post_turn(p, window, iteration, waves),
            _ => self.post_initial(p, waves),
        }
    }

    /// The initial Post of `p`.
    fn post_initial(&mut self, p: PartId, waves: Items<Wave>) -> Result<(), Items<Wave>>
        requires fitting { MayMake self.old p (posts waves) }
        requires place { (s : Standing) → slice_get self.old.standings p ≡ Some s → s.place ≡ Opening }
        ensures reply { OnOk result (Answers self.old p (posts waves) (Ok Reply.Posted)) }
        ensures stands { OnOk result (Makes self.old self.new p (posts waves)) }
        ensures plan { self.new.plan ≡ self.old.plan }
        ensures unchanged { OnErr result (self.new ≡ self.old) }
        ensures returned { IfErr result (λ back. back ≡ waves) }
    {
        match opened_stores(self.alloc, waves.as_slice()) {
            Ok(opened) => {
                install(&self.plan, &mut self.stores, p, opened);
                self.sides.go_to(p, first_turn(1));
                Ok(())
            }
            Err(_) => Err(waves),
        }
    }

    /// The Post of `p` in turn (w, k). Where its step makes the window, the window ends with it.
    fn post_turn(
        &mut self,
        p: PartId,
        w: u32,
        k: u32,
        waves: Items<Wave>,
    ) -> Result<(), Items<Wave>>
        requires fitting { MayMake self.old p (posts waves) }
        requires place { (s : Standing) → slice_get self.old.standings p ≡ Some s → s.place ≡ Within w k }
        ensures reply { OnOk result (Answers self.old p (posts waves) (Ok Reply.Posted)) }
        ensures stands { OnOk result (Makes self.old self.new p (posts waves)) }
        ensures plan { self.new.plan ≡ self.old.plan }
        ensures unchanged { OnErr result (self.new ≡ self.old) }
        ensures returned { IfErr result (λ back. back ≡ waves) }
    {
        match add_end(&self.plan, &mut self.sides.ends, p, waves.as_slice()) {
            Ok(()) => {
                post_waves(
                    &self.plan,
                    &mut self.sides,
                    &mut self.stores,
                    p,
                    w,
                    k,
                    waves.into_vec(),
                );
                Ok(())
            }
            Err(_) => Err(waves),
        }
    }
}

/// Notes the end of the window that a post makes, where its participant's steps make the windows.
fn add_end(plan: &Plan, ends: &mut Vec<u64>, p: PartId, waves: &[Wave]) -> Result<(), Memory>
    ensures ends { OnOk result (ends.new.items
        ≡ (if makes_windows plan.now p then ends.old.items ++ newest_time waves.now ∷ [] else ends.old.items)) }
    ensures unchanged { OnErr result (ends.new.items ≡ ends.old.items) }
{
    if makes_windows(plan, p) {
        ends.push(newest_time(waves))?;
    }
    Ok(())
}

/// Moves the waves of turn (w, k) into the stores. A participant of no implicit scheme completes the
/// window with them, any other waits to be judged.
fn post_waves(
    plan: &Plan,
    sides: &mut Sides,
    stores: &mut [Option<Store>],
    p: PartId,
    w: u32,
    k: u32,
    waves: Vec<Wave>,
)
    requires participant { p < length plan.now.parts }
    requires standing { p < length sides.old.standings.items }
    requires count { length stores.old ≡ length plan.now.exchanges }
    requires sends { length waves.items ≡ length (sent plan.now p) }
    requires next { AreNext plan.now.exchanges stores.old p w k }
    requires window { w ≤ 10 ^ 6 }
    ensures standings { (s : Standing) → slice_get sides.old.standings.items p ≡ Some s
        → sides.new.standings.items
        ≡ set sides.old.standings.items p (record s { place = place_posted (group_of plan.now p) w k }) }
    ensures ends { sides.new.ends ≡ sides.old.ends }
    ensures stores { (state : WaveState) → AreStores plan.now stores.old state
        → AreStores plan.now stores.new (put state p (after_post (group_of plan.now p) w k waves.items (state p))) }
{
    put_waves(plan, stores, p, w, k, waves);
    match plan.part(p).group {
        None => complete(plan, sides, stores, p, w),
        Some(scheme) => sides.go_to(
            p,
            Place::Judging {
                scheme,
                window: w,
                iteration: k,
            },
        ),
    }
}

/// `p` completes window w with what it posted last, and goes on to the next.
pub(crate) fn complete(
    plan: &Plan,
    sides: &mut Sides,
    stores: &mut [Option<Store>],
    p: PartId,
    w: u32,
)
    requires standing { p < length sides.old.standings.items }
    requires count { length stores.old ≡ length plan.now.exchanges }
    requires open { AreOpen plan.now.exchanges stores.old p w }
    requires window { w ≤ 10 ^ 6 }
    ensures standings { (s : Standing) → slice_get sides.old.standings.items p ≡ Some s
        → sides.new.standings.items ≡ set sides.old.standings.items p (record s { place = Taking (w + 1) 1 }) }
    ensures ends { sides.new.ends ≡ sides.old.ends }
    ensures stores { (state : WaveState) (side : WaveSide) (k : ℕ) → AreStores plan.now stores.old state
        → ArePosted plan.now.exchanges stores.old p w k → side.given ≡ accepts w k (state p).given
        → AreStores plan.now stores.new (put state p side) }
{
    accept_all(plan, stores, p, w);
    sides.go_to(p, first_turn(w + 1));
}

/// Before the first iteration of a window.
fn first_turn(window: u32) -> Place
    ensures { result ≡ Taking window 1 }
{
    Place::Taking {
        window,
        iteration: 1,
    }
}
