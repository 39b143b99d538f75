//! The events of a participant, and the calls that end it.
ghost use Rattle.std.specs.Prelude.{◌≡◌, ◌<◌, Some, None, length, slice_get, IfErr, OnOk, OnErr};
ghost use Rattle.participant_words.specs.Phases.{not_allowed};
ghost use Rattle.participant_words.specs.EventKinds.{kind_of};
ghost use Rattle.participant_words.specs.Deeds.{finalizes, hands_out, puts_back, stops};
ghost use Rattle.participant_words.specs.AfterDeed.{cause_of, has_stopped};
ghost use Rattle.participant_state.specs.Member.{did};

use crate::local::Local;
use core_sides::{Event, StopCause};
use cpl_plan::{Fault, StopWish};
use participant_words::{ApiErr, Call, Phase, allow};

impl Local {
    /// Hands out the first event that waits, which is out then; None where nothing waits. It takes no
    /// memory.
    pub fn next_event(&mut self) -> Option<Event>
        requires { self.old.course.out ≡ None }
        ensures first { result ≡ slice_get self.old.course.queue 0 }
        ensures done { self.new ≡ did self.old hands_out }
    {
        self.queue.next()
    }

    /// Takes back the event that is out: it is the first that waits again. It takes no memory.
    pub fn put_back(&mut self, event: Event)
        requires { self.old.course.out ≡ Some (kind_of event) }
        ensures done { self.new ≡ did self.old (puts_back event) }
    {
        self.queue.put_back(event);
    }

    /// Begins to finalize: an End waits in place of what waited. A participant that has stopped is
    /// through at once. It takes no memory.
    pub fn begin_finalize(&mut self) -> Result<(), ApiErr>
        ensures refused { IfErr result (λ error. not_allowed Call.BeginFinalize self.old.course.phase ≡ Some error) }
        ensures granted { OnOk result (not_allowed Call.BeginFinalize self.old.course.phase ≡ None) }
        ensures done { OnOk result (self.new ≡ did self.old finalizes) }
        ensures unchanged { OnErr result (self.new ≡ self.old) }
    {
        allow(Call::BeginFinalize, self.phase)?;
        if has_stopped(self.phase) {
            self.phase = Phase::Final;
            return Ok(());
        }
        self.queue.clear();
        self.queue.push(Event::End);
        self.phase = Phase::Pending;
        Ok(())
    }

    /// Wishes to stop: the Stop is queued in place of what was queued, and an event that is out is given
    /// up. A fault is of the turn in which the participant is, at the step after those that were accepted.
    /// It takes no memory.
    pub fn stop(&mut self, why: StopWish) -> Result<(), ApiErr>
        ensures refused { IfErr result (λ error. not_allowed Call.Stop self.old.course.phase ≡ Some error) }
        ensures granted { OnOk result (not_allowed Call.Stop self.old.course.phase ≡ None) }
        ensures done { OnOk result (self.new ≡ did self.old (stops why)) }
        ensures unchanged { OnErr result (self.new ≡ self.old) }
    {
        allow(Call::Stop, self.phase)?;
        let cause = self.cause_of(why);
        self.queue.clear();
        self.queue.push(Event::Stop(cause));
        self.overflow = None;
        self.phase = Phase::Pending;
        Ok(())
    }

    fn cause_of(&self, why: StopWish) -> StopCause
        ensures { result ≡ cause_of self.now.plan self.now.part self.now.course why }
    {
        let (part, window, iteration) = (self.part, self.clock.window, self.clock.iteration);
        match why {
            StopWish::Fault(code) => StopCause::Fault(Fault::Solver {
                part,
                window,
                iteration,
                step: self.clock.steps + 1,
                code,
            }),
            StopWish::Steps => StopCause::Fault(Fault::Steps {
                part,
                window,
                iteration,
            }),
            StopWish::NoMemory => StopCause::NoMemory,
        }
    }
}

fn has_stopped(phase: Phase) -> bool
    ensures { result ≡ has_stopped phase }
{
    match phase {
        Phase::Stopped => true,
        _ => false,
    }
}
