//! How a participant steps.
ghost use Rattle.std.specs.Prelude.{◌≡◌, ◌+◌, ◌<◌, ◌≤◌, ◌++◌, ◌∷◌, [], ℕ, List, None, Some, Ok, Err, false, true, if◌then◌else◌, length, map, All, IfErr, IfOk, MatchResult, OnOk, OnErr};
ghost use Rattle.cpl_plan.specs.declared.parts.PlanParts.{PlanParts};
ghost use Rattle.wave_coupling.specs.Known.{Known};
ghost use Rattle.wave_coupling.specs.Noted.{Written};
ghost use Rattle.wave_coupling.specs.PostedWaves.{post_of};
ghost use Rattle.core_sides.specs.declared.event.Event.TheVariants.{Post as PostEvent, Judge as JudgeEvent, Stop as StopEvent};
ghost use Rattle.core_sides.specs.declared.event.StopCause.TheVariants.{Fault as ByFault};
ghost use Rattle.participant_tables.specs.WriteKept.{TakesSample, WriteKept};
ghost use Rattle.participant_tables.specs.WriteSteps.{sampled};
ghost use Rattle.participant_words.specs.AfterDeed.{stepped, window_ended};
ghost use Rattle.participant_words.specs.Begun.{ends_window};
ghost use Rattle.participant_words.specs.Deeds.{advances};
ghost use Rattle.participant_words.specs.Questions.{most_step};
ghost use Rattle.participant_words.specs.Refusals.{IsCause, is_one_too_many, refusal_of_begin_advance};
ghost use Rattle.participant_waves.specs.SendsStand.{AreSends, CanSend};
ghost use Rattle.participant_waves.specs.Written.{AreWritten};
ghost use Rattle.participant_state.specs.Member.{did};

use crate::local::Local;
use call_parts::{queue_post, take_samples, turn_post, untake_samples};
use core_sides::{Event, StopCause};
use cpl_plan::Fault;
use fixed_num::{Items, Memory};
use participant_tables::{Clock, Queue, WriteTable};
use participant_waves::{NoPost, Passages};
use participant_words::{ApiErr, Call, Phase, allow};
use std::alloc::Global;
use waveform::Wave;

/// The most steps of a turn.
const STEP_LIMIT: usize = 1024;

impl Local {
    /// Accepts a step of so many ticks, with what was written as its sample. A step that ends the window
    /// makes its samples wait to be posted, mapped where the exchange has a write mapping, or the Stop for
    /// the first place where that is out of range. The refusals come in the order of
    /// `refusal_of_begin_advance`, and `Memory` where none of them applies.
    pub fn begin_advance(&mut self, dt: u64) -> Result<(), ApiErr>
        ensures cause { IfErr result (IsCause (refusal_of_begin_advance self.old.plan self.old.part self.old.course dt)) }
        ensures granted { OnOk result (refusal_of_begin_advance self.old.plan self.old.part self.old.course dt ≡ None) }
        ensures done { OnOk result (self.new ≡ did self.old (advances dt)) }
        ensures unchanged { OnErr result (self.new ≡ self.old) }
    {
        self.may_advance(dt)?;
        if self.clock.ends_with(dt) {
            self.end_window(dt)?;
            return Ok(());
        }
        self.end_step(dt)?;
        Ok(())
    }

    /// Whether a step of so many ticks may be accepted, or the first cause by which it is refused.
    fn may_advance(&self, dt: u64) -> Result<(), ApiErr>
        ensures refused { IfErr result (λ error. refusal_of_begin_advance self.now.plan self.now.part self.now.course dt ≡ Some error) }
        ensures granted { OnOk result (refusal_of_begin_advance self.now.plan self.now.part self.now.course dt ≡ None) }
    {
        allow(Call::BeginAdvance, self.phase)?;
        if self.owes_checkpoint() {
            return Err(ApiErr::CheckpointOwed);
        }
        if dt == 0 {
            return Err(ApiErr::ZeroStep);
        }
        let most = self.most();
        if most < dt {
            return Err(ApiErr::StepTooLong { most });
        }
        if self.is_one_too_many(dt) {
            return Err(ApiErr::TooManySteps);
        }
        Ok(())
    }

    /// Whether the step would be the last one that a turn may have, and does not end the window.
    fn is_one_too_many(&self, dt: u64) -> bool
        requires { dt ≤ most_step self.now.course }
        ensures { result ≡ is_one_too_many self.now.plan self.now.part self.now.course dt }
    {
        self.times.len() + 1 == STEP_LIMIT && !self.clock.ends_with(dt)
    }

    /// Accepts a step within the window.
    fn end_step(&mut self, dt: u64) -> Result<(), Memory>
        requires granted { refusal_of_begin_advance self.old.plan self.old.part self.old.course dt ≡ None }
        requires within { ends_window self.old.plan self.old.part self.old.course.turn dt ≡ false }
        ensures done { OnOk result (self.new ≡ record self.old { course = stepped self.old.plan self.old.part dt self.old.course }) }
        ensures unchanged { OnErr result (self.new ≡ self.old) }
    {
        let time = self.clock.now + dt;
        take_samples(self.alloc, &mut self.writes, &mut self.times, time)?;
        self.writes.clear();
        self.clock = self.clock.stepped(dt);
        self.steps = self.steps.saturating_add(1);
        Ok(())
    }

    /// Accepts the last step of the window: its samples wait to be posted.
    fn end_window(&mut self, dt: u64) -> Result<(), Memory>
        requires granted { refusal_of_begin_advance self.old.plan self.old.part self.old.course dt ≡ None }
        requires ends { ends_window self.old.plan self.old.part self.old.course.turn dt ≡ true }
        ensures done { OnOk result (self.new ≡ record self.old { course = window_ended self.old.plan self.old.part (stepped self.old.plan self.old.part dt self.old.course) }) }
        ensures unchanged { OnErr result (self.new ≡ self.old) }
    {
        let judged = self.is_implicit();
        let time = self.clock.now + dt;
        take_samples(self.alloc, &mut self.writes, &mut self.times, time)?;
        // What the plan says of itself is valid, and the samples have one shape.
        let (_parts, _entries) = (self.plan.parts(), self.writes.len());
        let passages = self.passages.as_ref().unwrap();
        let post = match turn_post(self.alloc, passages, &self.writes, self.clock) {
            Ok(post) => post,
            Err(_) => {
                untake_samples(&mut self.writes, &mut self.times);
                return Err(Memory);
            }
        };
        queue_post(&mut self.queue, &mut self.overflow, post, judged);
        self.writes.clear();
        self.clock = self.clock.stepped(dt);
        self.steps = self.steps.saturating_add(1);
        self.phase = Phase::Pending;
        Ok(())
    }
}
