//! What a participant may ask.
ghost use Rattle.std.specs.List.{list_any};
ghost use Rattle.std.specs.Prelude.{◌&&◌, nat_eq, ◌≡◌, Some, None, IfOk, IfErr, OnOk, OnErr};
ghost use Rattle.participant_words.specs.Phases.{not_allowed};
ghost use Rattle.participant_words.specs.Deeds.{asks_initial, asks_reading, asks_writing};
ghost use Rattle.participant_words.specs.Questions.{is_at_start, is_running, most_step, owes_checkpoint, reads_checkpoint, sends_initial_data, writes_checkpoint};
ghost use Rattle.participant_state.specs.Member.{did};

use crate::local::Local;
use cpl_plan::{Exchange, PartId};
use participant_words::{ApiErr, Call, Phase, allow};

impl Local {
    /// Whether data have to be written before the participant initializes: an exchange of initial data
    /// comes from it. `WrongPhase` exactly where the table of calls refuses the call.
    pub fn requires_initial_data(&mut self) -> Result<bool, ApiErr>
        ensures refused { IfErr result (λ error. not_allowed Call.RequiresInitialData self.old.course.phase ≡ Some error) }
        ensures granted { OnOk result (not_allowed Call.RequiresInitialData self.old.course.phase ≡ None) }
        ensures answer { IfOk result (λ yes. yes ≡ sends_initial_data self.old.plan self.old.part) }
        ensures done { OnOk result (self.new ≡ did self.old asks_initial) }
        ensures unchanged { OnErr result (self.new ≡ self.old) }
    {
        allow(Call::RequiresInitialData, self.phase)?;
        self.asked.initial = true;
        Ok(self.sends_initial_data())
    }

    /// Whether the solver's state has to be saved: in the first iteration of a window that may be
    /// repeated, before the first step.
    pub fn requires_writing_checkpoint(&mut self) -> Result<bool, ApiErr>
        ensures refused { IfErr result (λ error. not_allowed Call.RequiresWritingCheckpoint self.old.course.phase ≡ Some error) }
        ensures granted { OnOk result (not_allowed Call.RequiresWritingCheckpoint self.old.course.phase ≡ None) }
        ensures answer { IfOk result (λ yes. yes ≡ writes_checkpoint self.old.plan self.old.part self.old.course) }
        ensures done { OnOk result (self.new ≡ did self.old asks_writing) }
        ensures unchanged { OnErr result (self.new ≡ self.old) }
    {
        allow(Call::RequiresWritingCheckpoint, self.phase)?;
        let saves = self.saves();
        self.asked.writing = true;
        Ok(saves)
    }

    /// Whether the state that was saved has to be restored: in a further iteration, before the first
    /// step.
    pub fn requires_reading_checkpoint(&mut self) -> Result<bool, ApiErr>
        ensures refused { IfErr result (λ error. not_allowed Call.RequiresReadingCheckpoint self.old.course.phase ≡ Some error) }
        ensures granted { OnOk result (not_allowed Call.RequiresReadingCheckpoint self.old.course.phase ≡ None) }
        ensures answer { IfOk result (λ yes. yes ≡ reads_checkpoint self.old.plan self.old.part self.old.course) }
        ensures done { OnOk result (self.new ≡ did self.old asks_reading) }
        ensures unchanged { OnErr result (self.new ≡ self.old) }
    {
        allow(Call::RequiresReadingCheckpoint, self.phase)?;
        let restores = self.restores();
        self.asked.reading = true;
        Ok(restores)
    }

    /// Whether there are windows to step through.
    pub fn is_ongoing(&self) -> Result<bool, ApiErr>
        ensures refused { IfErr result (λ error. not_allowed Call.IsOngoing self.now.course.phase ≡ Some error) }
        ensures granted { OnOk result (not_allowed Call.IsOngoing self.now.course.phase ≡ None) }
        ensures answer { IfOk result (λ yes. yes ≡ is_running self.now.course.phase) }
    {
        allow(Call::IsOngoing, self.phase)?;
        Ok(is_running(self.phase))
    }

    /// Whether the last advance has completed a window; false before the first.
    pub fn is_window_complete(&self) -> Result<bool, ApiErr>
        ensures refused { IfErr result (λ error. not_allowed Call.IsWindowComplete self.now.course.phase ≡ Some error) }
        ensures granted { OnOk result (not_allowed Call.IsWindowComplete self.now.course.phase ≡ None) }
        ensures answer { IfOk result (λ yes. yes ≡ self.now.course.complete) }
    {
        allow(Call::IsWindowComplete, self.phase)?;
        Ok(self.clock.complete)
    }

    /// The longest step that is allowed now, in ticks: what is left of the window.
    pub fn max_step(&self) -> Result<u64, ApiErr>
        ensures refused { IfErr result (λ error. not_allowed Call.MaxStep self.now.course.phase ≡ Some error) }
        ensures granted { OnOk result (not_allowed Call.MaxStep self.now.course.phase ≡ None) }
        ensures answer { IfOk result (λ most. most ≡ most_step self.now.course) }
    {
        allow(Call::MaxStep, self.phase)?;
        Ok(self.most())
    }

    /// The ticks that are left of the window; none once all windows are completed.
    pub(crate) fn most(&self) -> u64
        ensures { result ≡ most_step self.now.course }
    {
        self.clock.latest - self.clock.now
    }

    pub(crate) fn sends_initial_data(&self) -> bool
        ensures { result ≡ sends_initial_data self.now.plan self.now.part }
    {
        sends_initial_data(self.plan.parts().exchanges.as_slice(), self.part)
    }

    /// Whether a checkpoint question would be answered by true and was not asked in this turn.
    pub(crate) fn owes_checkpoint(&self) -> bool
        ensures { result ≡ owes_checkpoint self.now.plan self.now.part self.now.course }
    {
        self.saves() && !self.asked.writing || self.restores() && !self.asked.reading
    }

    fn saves(&self) -> bool
        ensures { result ≡ writes_checkpoint self.now.plan self.now.part self.now.course }
    {
        self.is_at_start() && self.clock.iteration == 1
    }

    fn restores(&self) -> bool
        ensures { result ≡ reads_checkpoint self.now.plan self.now.part self.now.course }
    {
        self.is_at_start() && 1 < self.clock.iteration
    }

    /// Whether a turn of a window that may be repeated is at its start.
    fn is_at_start(&self) -> bool
        ensures { result ≡ is_at_start self.now.plan self.now.part self.now.course }
    {
        is_running(self.phase) && self.is_implicit() && self.times.len() == 0
    }
}

fn is_running(phase: Phase) -> bool
    ensures { result ≡ is_running phase }
{
    match phase {
        Phase::Running => true,
        _ => false,
    }
}

/// Whether one of the exchanges is of initial data, and comes from the participant.
fn sends_initial_data(exchanges: &[Exchange], part: PartId) -> bool
    ensures { result ≡ list_any (λ e. nat_eq e.from part && e.initialize) exchanges.now }
{
    exchanges
        .iter()
        .any(|exchange| exchange.from == part && exchange.initialize)
}
