ghost use Rattle.std.specs.Prelude.{◌≡◌, ◌≤◌, ◌<◌, [], ◌∷◌, ◌++◌, List, length, Ok, Err, IsOk, IsTrue, IfOk, IfErr, OnOk, OnErr};
ghost use Rattle.coupled_loop.specs.LegalHistory.{opening_state};
ghost use Rattle.core_sides.specs.CoreWords.{WaveState, WaveEntry};
ghost use Rattle.core_sides.specs.Answers.{act_of, next_kind_in, enabled_in, ending_in, position_in, window_end_in, answer_in, entry_in, state_after};
ghost use Rattle.core_sides.specs.Fitting.{IsFitting};
ghost use Rattle.coupling_core.specs.JudgedLines.{lines_of};
ghost use Rattle.coupling_core.specs.Outcomes.{UnlessMemory, IsStopOrEnd};
ghost use Rattle.coupling_core.specs.StandsFor.{StandsFor};

use crate::gate::standing_ending;
use crate::opening::{no_stores, opening_schemes, opening_sides};
use core_schemes::SchemeState;
use core_sides::windows::end_of;
use core_sides::{CoreErr, Enabled, Ending, Event, NextKind, Reply, Sides};
use cpl_plan::{IterLine, Plan};
use event_fits::fits;
use fixed_num::Memory;
use plan_order::PartId;
use sample_store::Store;
use std::alloc::Global;
use std::marker::Model;

/// The events of a coupling, as far as they must be kept.
///
/// It stands for the list of events made so far: all that it answers is what the state after that
/// list says.
#[derive(Drop)]
pub struct Core {
    pub(crate) alloc: Global,
    pub(crate) plan: Plan,
    pub(crate) sides: Sides,
    /// By the exchanges' numbers; None before the sender's initial post.
    pub(crate) stores: Vec<Option<Store>>,
    /// By the schemes' numbers.
    pub(crate) schemes: Vec<SchemeState>,
    /// The lines on judged iterations, in the order of the first judging.
    pub(crate) lines: Vec<IterLine>,
}

impl Model for Core {
    ghost use Rattle.coupling_core.specs.CoreKept.{CoreKept};

    ghost Value = { CoreKept };

    ghost use Rattle.coupling_core.specs.KeptView.{kept_view};
    ghost use Rattle.coupling_core.specs.StandsFor.{IsKept};

    ghost view = { kept_view };

    ghost invariant = { λ c. IsKept (kept_view c) };
}

impl Core {
    /// The core of a coupling in which nothing has happened.
    pub fn new(alloc: Global, plan: Plan) -> Result<Core, Memory>
        ensures plan { IfOk result (λ core. core.plan ≡ plan) }
        ensures stands { IfOk result (λ core. StandsFor core [] opening_state) }
    {
        let _valid = plan.parts();
        let sides = opening_sides(alloc, &plan)?;
        let stores = no_stores(alloc, &plan)?;
        let schemes = opening_schemes(alloc, &plan)?;
        Ok(Core {
            alloc,
            plan,
            sides,
            stores,
            schemes,
            lines: Vec::new(alloc),
        })
    }

    /// The kind of the next event of `p`; None exactly where `p` has ended.
    pub fn next_kind(&self, p: PartId) -> NextKind
        requires participant { p < length self.now.plan.parts }
        ensures state { (h : List WaveEntry) (sides : WaveState) → StandsFor self.now h sides
            → result ≡ next_kind_in self.now.plan sides p }
    {
        self.sides.next_kind(&self.plan, p)
    }

    /// Whether `p` may ask for an event: the test of what `apply` wants of it. If it answers true, the
    /// event fits.
    pub fn fits(&self, p: PartId, event: &Event) -> bool
        requires participant { p < length self.now.plan.parts }
        ensures fitting { IsTrue result → (h : List WaveEntry) (sides : WaveState)
            → StandsFor self.now h sides → IsFitting self.now.plan sides p (act_of event.now) }
    {
        fits(&self.plan, &self.sides, p, event)
    }

    /// Whether the next event of `p` is enabled.
    pub fn enabled(&self, p: PartId) -> Enabled
        requires participant { p < length self.now.plan.parts }
        ensures state { (h : List WaveEntry) (sides : WaveState) → StandsFor self.now h sides
            → result ≡ enabled_in self.now.plan sides p }
    {
        self.sides.enabled(&self.plan, p)
    }

    /// How `p` ended; None exactly where it has not.
    pub fn ending(&self, p: PartId) -> Option<Ending>
        requires participant { p < length self.now.plan.parts }
        ensures state { (h : List WaveEntry) (sides : WaveState) → StandsFor self.now h sides
            → result ≡ ending_in self.now.plan sides p }
    {
        standing_ending(&self.sides, p)
    }

    /// The turn of `p`, as window and iteration: (0, 0) before its initial post, then the turn whose
    /// Take, Post or Judge comes next. Where `p` has ended it stays.
    pub fn position(&self, p: PartId) -> (u32, u32)
        requires participant { p < length self.now.plan.parts }
        ensures state { (h : List WaveEntry) (sides : WaveState) → StandsFor self.now h sides
            → result ≡ position_in self.now.plan sides p }
    {
        self.sides.turn(p)
    }

    /// One line for each scheme, window and iteration that a member has judged, in the order of the
    /// first judging.
    pub fn lines(&self) -> &[IterLine]
        ensures state { (h : List WaveEntry) (sides : WaveState) → StandsFor self.now h sides
            → result.now ≡ lines_of self.now.plan h }
    {
        self.lines.as_slice()
    }

    /// When window `w` ends; None exactly where the first participant's step makes the windows and it
    /// has not posted that of `w`.
    pub fn window_end(&self, w: u32) -> Option<u64>
        requires from { 1 ≤ w }
        requires to { w ≤ self.now.plan.most_windows }
        ensures state { (h : List WaveEntry) (sides : WaveState) → StandsFor self.now h sides
            → result ≡ window_end_in self.now.plan sides w }
    {
        end_of(&self.plan, self.sides.ends.as_slice(), w)
    }

    /// Makes one event of `p`: its next one, or a Stop or an End at any place.
    ///
    /// An event that asks for what somebody has ended before giving becomes a cut. A refused event
    /// comes back beside the error.
    ///
    /// # Errors
    ///
    /// `NotEnabled` exactly where what the event asks for is not given yet, and nobody who has not
    /// given it has ended; `Memory`.
    pub fn apply(&mut self, p: PartId, event: Event) -> Result<Reply, (CoreErr, Event)>
        requires fitting { (h : List WaveEntry) (sides : WaveState) → StandsFor self.old h sides
            → IsFitting self.old.plan sides p (act_of event) }

        // What it answers is the answer in the state after the events that it stands for.
        ensures reply { IfOk result (λ reply. (h : List WaveEntry) (sides : WaveState) → StandsFor self.old h sides
            → answer_in self.old.plan sides p (act_of event) ≡ Ok reply) }
        ensures not_enabled { IfErr result (λ refused. UnlessMemory refused.0 (
            (h : List WaveEntry) (sides : WaveState) → StandsFor self.old h sides
            → answer_in self.old.plan sides p (act_of event) ≡ Err refused.0)) }

        // It then stands for the events with this one, or its cut; after a refusal it is as before.
        ensures stands { OnOk result ((h : List WaveEntry) (sides : WaveState) → StandsFor self.old h sides
            → StandsFor self.new (h ++ entry_in self.old.plan sides p (act_of event) ∷ [])
            (state_after self.old.plan sides p (act_of event))) }
        ensures plan { self.new.plan ≡ self.old.plan }
        ensures unchanged { OnErr result (self.new ≡ self.old) }
        ensures returned { IfErr result (λ refused. refused.1 ≡ event) }
        ensures never_refused { IsStopOrEnd event → IsOk result }
    {
        match event {
            Event::PostMesh(meshes) => {
                self.send(p, meshes);
                Ok(Reply::Posted)
            }
            Event::TakeMeshes => match self.take_meshes(p) {
                Ok(reply) => Ok(reply),
                Err(error) => Err((error, Event::TakeMeshes)),
            },
            Event::Post(waves) => match self.post(p, waves) {
                Ok(()) => Ok(Reply::Posted),
                Err(waves) => Err((CoreErr::Memory, Event::Post(waves))),
            },
            Event::Judge => match self.judge(p) {
                Ok(reply) => Ok(reply),
                Err(error) => Err((error, Event::Judge)),
            },
            Event::Take => match self.take(p) {
                Ok(reply) => Ok(reply),
                Err(error) => Err((error, Event::Take)),
            },
            Event::Stop(cause) => {
                self.stop(p, cause);
                Ok(Reply::Over)
            }
            Event::End => {
                self.finish(p);
                Ok(Reply::Over)
            }
        }
    }
}
