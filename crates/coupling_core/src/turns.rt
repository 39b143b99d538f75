//! The events by which a participant gives no waves: it ends, posts its meshes, and takes those that it
//! receives and its inputs.

ghost use Rattle.std.specs.Prelude.{◌≡◌, ◌≤◌, [], ◌∷◌, ◌++◌, List, Some, Ok, Err, IfOk, IfErr, OnOk, OnErr};
ghost use Rattle.coupled_loop.specs.Endings.{cut};
ghost use Rattle.coupled_loop.specs.Numbered.{put};
ghost use Rattle.coupled_loop.specs.CoreStep.{takes_meshes, takes, ends, sends_meshes, is_cut, ends_with, cut_by};
ghost use Rattle.wave_coupling.specs.Coupling.{wave_frame, start_of};
ghost use Rattle.core_sides.specs.CoreWords.{WaveState, WaveEntry};
ghost use Rattle.coupled_loop.specs.CoreState.{look_in};
ghost use Rattle.core_sides.specs.Answers.{act_of};
ghost use Rattle.core_sides.specs.KeptSides.{kept_turn};
ghost use Rattle.core_sides.specs.SidesStand.{AreStanding};
ghost use Rattle.core_sides.specs.declared.event.Event.TheVariants.{Stop};
ghost use Rattle.coupling_core.specs.Gated.{gate_in};
ghost use Rattle.coupling_core.specs.OneMore.{MayMake, IsGranted, Answers, Makes};
ghost use Rattle.coupling_core.specs.Outcomes.{UnlessMemory};
ghost use Rattle.coupling_core.specs.StandsFor.{StandsFor};
ghost use Rattle.coupling_core.specs.Stopped.{stop_ending};

use crate::gate::{Gate, gate_of, standing_place};
use crate::machine::Core;
use crate::opening::started;
use core_sides::{CoreErr, Ending, Place, Reply, Sides, StopCause};
use core_takes::{TakeTurn, inputs, received_meshes};
use cpl_plan::Plan;
use fixed_num::Items;
use mesh_data::AnyMesh;
use plan_order::PartId;

impl Core {
    /// Ends `p` by a fault, or for want of memory.
    pub(crate) fn stop(&mut self, p: PartId, cause: StopCause)
        requires { MayMake self.old p (act_of (Stop cause)) }
        ensures reply { Answers self.old p (act_of (Stop cause)) (Ok Reply.Over) }
        ensures stands { Makes self.old self.new p (act_of (Stop cause)) }
        ensures plan { self.new.plan ≡ self.old.plan }
    {
        self.sides.end(p, ending_by(cause));
    }

    /// Ends `p` by itself.
    pub(crate) fn finish(&mut self, p: PartId)
        requires { MayMake self.old p ends }
        ensures reply { Answers self.old p ends (Ok Reply.Over) }
        ensures stands { Makes self.old self.new p ends }
        ensures plan { self.new.plan ≡ self.old.plan }
    {
        let place = standing_place(&self.sides, p);
        let ending = self.sides.own_ending(&self.plan, place);
        self.sides.end(p, ending);
    }

    /// Ends `p`, since `who` has ended before giving what it asks for.
    pub(crate) fn cut(&mut self, p: PartId, who: PartId) -> Reply
        requires running { MayMake self.old p is_cut }
        requires cut { (h : List WaveEntry) (sides : WaveState) → StandsFor self.old h sides
            → cut_by (wave_frame self.old.plan) sides p ≡ Some who }
        ensures reply { result ≡ Reply.Cut who }
        ensures stands { (h : List WaveEntry) (sides : WaveState) → StandsFor self.old h sides
            → StandsFor self.new (h ++ record { part = p; act = is_cut } ∷ []) (put sides p (ends_with cut (sides p))) }
        ensures plan { self.new.plan ≡ self.old.plan }
    {
        self.sides.end(p, Ending::Cut);
        Reply::Cut { who }
    }

    /// What becomes of the next event of `p`, which asks for something.
    pub(crate) fn gate(&self, p: PartId) -> Gate
        requires { MayMake self.now p is_cut }
        ensures { (h : List WaveEntry) (sides : WaveState) → StandsFor self.now h sides → result ≡ gate_in self.now.plan sides p }
    {
        gate_of(&self.plan, &self.sides, p)
    }

    /// Posts the meshes of `p`.
    pub(crate) fn send(&mut self, p: PartId, meshes: Items<AnyMesh>)
        requires { MayMake self.old p (sends_meshes meshes) }
        ensures reply { Answers self.old p (sends_meshes meshes) (Ok Reply.Posted) }
        ensures stands { Makes self.old self.new p (sends_meshes meshes) }
        ensures plan { self.new.plan ≡ self.old.plan }
    {
        self.sides.send(p, meshes);
    }

    /// The TakeMeshes of `p`, which comes next.
    pub(crate) fn take_meshes(&mut self, p: PartId) -> Result<Reply, CoreErr>
        requires { MayMake self.old p takes_meshes }
        ensures reply { IfOk result (λ reply. Answers self.old p takes_meshes (Ok reply)) }
        ensures not_enabled { IfErr result (λ error. UnlessMemory error (Answers self.old p takes_meshes (Err error))) }
        ensures stands { OnOk result (Makes self.old self.new p takes_meshes) }
        ensures plan { self.new.plan ≡ self.old.plan }
        ensures unchanged { OnErr result (self.new ≡ self.old) }
    {
        match self.gate(p) {
            Gate::Open => self.collect(p),
            Gate::Cut { who } => Ok(self.cut(p, who)),
            Gate::Waits {
                owner,
                window,
                iteration,
            } => Err(CoreErr::NotEnabled {
                owner,
                window,
                iteration,
            }),
        }
    }

    /// Takes the meshes that `p` receives, which are all there.
    fn collect(&mut self, p: PartId) -> Result<Reply, CoreErr>
        requires fitting { MayMake self.old p takes_meshes }
        requires granted { IsGranted self.old p }
        ensures reply { IfOk result (λ reply. Answers self.old p takes_meshes (Ok reply)) }
        ensures memory { IfErr result (λ error. error ≡ CoreErr.Memory) }
        ensures stands { OnOk result (Makes self.old self.new p takes_meshes) }
        ensures plan { self.new.plan ≡ self.old.plan }
        ensures unchanged { OnErr result (self.new ≡ self.old) }
    {
        match received_meshes(self.alloc, &self.plan, &self.sides, p) {
            Ok(meshes) => {
                self.sides.go_to(p, Place::Opening);
                Ok(Reply::Meshes(meshes))
            }
            Err(_) => Err(CoreErr::Memory),
        }
    }

    /// The Take of `p`, which comes next.
    pub(crate) fn take(&mut self, p: PartId) -> Result<Reply, CoreErr>
        requires { MayMake self.old p takes }
        ensures reply { IfOk result (λ reply. Answers self.old p takes (Ok reply)) }
        ensures not_enabled { IfErr result (λ error. UnlessMemory error (Answers self.old p takes (Err error))) }
        ensures stands { OnOk result (Makes self.old self.new p takes) }
        ensures plan { self.new.plan ≡ self.old.plan }
        ensures unchanged { OnErr result (self.new ≡ self.old) }
    {
        match self.gate(p) {
            Gate::Open => self.take_inputs(p),
            Gate::Cut { who } => Ok(self.cut(p, who)),
            Gate::Waits {
                owner,
                window,
                iteration,
            } => Err(CoreErr::NotEnabled {
                owner,
                window,
                iteration,
            }),
        }
    }

    /// Takes the inputs of `p` for its turn, which are all given.
    fn take_inputs(&mut self, p: PartId) -> Result<Reply, CoreErr>
        requires fitting { MayMake self.old p takes }
        requires granted { IsGranted self.old p }
        ensures reply { IfOk result (λ reply. Answers self.old p takes (Ok reply)) }
        ensures memory { IfErr result (λ error. error ≡ CoreErr.Memory) }
        ensures stands { OnOk result (Makes self.old self.new p takes) }
        ensures plan { self.new.plan ≡ self.old.plan }
        ensures unchanged { OnErr result (self.new ≡ self.old) }
    {
        let turn = turn_of(&self.plan, &self.sides, p);
        match inputs(self.alloc, &self.plan, &self.stores, &self.schemes, turn) {
            Ok(inputs) => {
                self.sides.go_to(
                    p,
                    Place::Within {
                        window: turn.window,
                        iteration: turn.iteration,
                    },
                );
                Ok(Reply::Inputs(inputs))
            }
            Err(_) => Err(CoreErr::Memory),
        }
    }
}

/// The turn at which a participant takes its inputs.
fn turn_of(plan: &Plan, sides: &Sides, p: PartId) -> TakeTurn
    requires { (kept_turn sides.now p).0 ≤ plan.now.most_windows }
    ensures part { result.part ≡ p }
    ensures window { result.window ≡ (kept_turn sides.now p).0 }
    ensures iteration { result.iteration ≡ (kept_turn sides.now p).1 }
    ensures start { (state : WaveState) → AreStanding plan.now sides.now state
        → result.start ≡ start_of plan.now (look_in state) result.window }
{
    let (window, iteration) = sides.turn(p);
    TakeTurn {
        part: p,
        window,
        iteration,
        start: started(plan, sides, window),
    }
}

/// How a participant ends that stops.
fn ending_by(cause: StopCause) -> Ending
    ensures { result ≡ stop_ending cause }
{
    match cause {
        StopCause::Fault(fault) => Ending::Faulted(fault),
        StopCause::NoMemory => Ending::NoMemory,
    }
}
