//! What becomes of a participant when its event is answered.
ghost use Rattle.std.specs.Prelude.{◌≡◌, ℕ, None, Some, IfErr, IfNone, IfSome, IsErr, IsOk, OnOk, OnErr};
ghost use Rattle.core_sides.specs.declared.event.Reply.TheVariants.{Posted, Judged, Faulted, Cut, Over};
ghost use Rattle.participant_words.specs.Deeds.{takes};
ghost use Rattle.participant_words.specs.Refusals.{IsCause};
ghost use Rattle.participant_words.specs.Replies.{IsReply, ending_by, ending_in};
ghost use Rattle.participant_words.specs.declared.api_err.ApiErr.TheVariants.{Memory as NoMemory, PeerEnded};
ghost use Rattle.participant_words.specs.declared.phase.EventKind.TheVariants.{Post, Stop};
ghost use Rattle.participant_state.specs.Member.{did};
ghost use Rattle.cpl_plan.specs.declared.parts.PlanParts.{PlanParts};
ghost use Rattle.participant_words.specs.Course.{Course};

use crate::local::Local;
use core_sides::Reply;
use cpl_plan::{Fault, PartId, Verdict};
use fixed_num::Memory;
use participant_tables::Out;
use participant_words::{ApiErr, Phase};

impl Local {
    /// Takes the reply to the event that is out. After `Memory` all is as before, and the reply comes back;
    /// after another error the reply was taken, the participant has stopped, and the reply comes back too.
    pub fn take_reply(&mut self, reply: Reply) -> Result<(), (ApiErr, Reply)>
        requires { IsReply self.old.plan self.old.part self.old.course reply }
        ensures given_back { IfErr result (λ error. error.1 ≡ reply) }
        ensures cause { IfErr result (λ error. IsCause (ending_in self.old.plan self.old.part self.old.course reply) error.0) }
        ensures no_ending { OnOk result (ending_in self.old.plan self.old.part self.old.course reply ≡ None) }
        ensures done { OnOk result (self.new ≡ did self.old (takes reply)) }
        ensures ended { OnErr result (IfSome (ending_in self.old.plan self.old.part self.old.course reply) (λ _. self.new ≡ did self.old (takes reply))) }
        ensures unchanged { OnErr result (IfNone (ending_in self.old.plan self.old.part self.old.course reply) (self.new ≡ self.old)) }
    {
        match self.answer_by(&reply) {
            Ok(()) => Ok(()),
            Err(error) => Err((error, reply)),
        }
    }

    /// Takes the reply by its kind.
    fn answer_by(&mut self, reply: &Reply) -> Result<(), ApiErr>
        requires { IsReply self.old.plan self.old.part self.old.course reply.now }
        ensures cause { IfErr result (IsCause (ending_in self.old.plan self.old.part self.old.course reply.now)) }
        ensures no_ending { OnOk result (ending_in self.old.plan self.old.part self.old.course reply.now ≡ None) }
        ensures done { OnOk result (self.new ≡ did self.old (takes reply.now)) }
        ensures ended { OnErr result (IfSome (ending_in self.old.plan self.old.part self.old.course reply.now) (λ _. self.new ≡ did self.old (takes reply.now))) }
        ensures unchanged { OnErr result (IfNone (ending_in self.old.plan self.old.part self.old.course reply.now) (self.new ≡ self.old)) }
    {
        match reply {
            Reply::Posted => told(self.take_posted()),
            Reply::Meshes(meshes) => told(self.take_meshes(meshes.as_slice())),
            Reply::Judged(verdict) => told(self.take_verdict(*verdict)),
            Reply::Inputs(inputs) => told(self.take_inputs(inputs.as_slice())),
            Reply::Faulted(fault) => Err(self.take_fault(*fault)),
            Reply::Cut { who } => Err(self.take_cut(*who)),
            Reply::Over => self.take_over(),
        }
    }

    /// A post is made, of the meshes or of data.
    fn take_posted(&mut self) -> Result<(), Memory>
        requires { IsReply self.old.plan self.old.part self.old.course Posted }
        ensures done { OnOk result (self.new ≡ did self.old (takes Posted)) }
        ensures unchanged { OnErr result (self.new ≡ self.old) }
    {
        match self.queue.out() {
            Some(Out::Post) => self.take_post(),
            _ => {
                self.go_on();
                Ok(())
            }
        }
    }

    /// A post of data is made: of the initial data, of a turn that is then judged, or of a window that is
    /// completed by it.
    fn take_post(&mut self) -> Result<(), Memory>
        requires { self.old.course.out ≡ Some Post }
        ensures done { OnOk result (self.new ≡ did self.old (takes Posted)) }
        ensures unchanged { OnErr result (self.new ≡ self.old) }
    {
        if self.clock.window == 0 {
            self.begin_windows();
            return Ok(());
        }
        if self.is_implicit() {
            self.go_on();
            return Ok(());
        }
        self.complete_window()
    }

    /// The window is judged: it is repeated or completed.
    fn take_verdict(&mut self, verdict: Verdict) -> Result<(), Memory>
        requires { IsReply self.old.plan self.old.part self.old.course (Judged verdict) }
        ensures done { OnOk result (self.new ≡ did self.old (takes (Judged verdict))) }
        ensures unchanged { OnErr result (self.new ≡ self.old) }
    {
        match verdict {
            Verdict::Again => {
                self.repeat_window();
                Ok(())
            }
            _ => self.complete_window(),
        }
    }

    /// A fault of its scheme ends the participant.
    fn take_fault(&mut self, fault: Fault) -> ApiErr
        requires { IsReply self.old.plan self.old.part self.old.course (Faulted fault) }
        ensures ending { result ≡ ending_by self.old.plan self.old.part self.old.course fault }
        ensures done { self.new ≡ did self.old (takes (Faulted fault)) }
    {
        self.end(Phase::Stopped);
        ending_by(fault)
    }

    /// Another has ended before giving what the participant needs, which ends with it.
    fn take_cut(&mut self, who: PartId) -> ApiErr
        requires { IsReply self.old.plan self.old.part self.old.course (Cut who) }
        ensures ending { result ≡ PeerEnded who }
        ensures done { self.new ≡ did self.old (takes (Cut who)) }
    {
        self.end(Phase::Stopped);
        ApiErr::PeerEnded { who }
    }

    /// A Stop or an End is made. The Stop for an overflow tells it.
    fn take_over(&mut self) -> Result<(), ApiErr>
        requires { IsReply self.old.plan self.old.part self.old.course Over }
        ensures ending { IfErr result (λ error. ending_in self.old.plan self.old.part self.old.course Over ≡ Some error) }
        ensures no_ending { OnOk result (ending_in self.old.plan self.old.part self.old.course Over ≡ None) }
        ensures done { self.new ≡ did self.old (takes Over) }
    {
        match self.queue.out() {
            Some(Out::End) => {
                self.end(Phase::Final);
                Ok(())
            }
            _ => self.stop_by_overflow(),
        }
    }

    /// A Stop is made.
    fn stop_by_overflow(&mut self) -> Result<(), ApiErr>
        requires { self.old.course.out ≡ Some Stop }
        ensures ending { IfErr result (λ error. ending_in self.old.plan self.old.part self.old.course Over ≡ Some error) }
        ensures no_ending { OnOk result (ending_in self.old.plan self.old.part self.old.course Over ≡ None) }
        ensures done { self.new ≡ did self.old (takes Over) }
    {
        let overflow = self.overflow;
        self.end(Phase::Stopped);
        match overflow {
            Some(fault) => Err(ApiErr::Overflow { fault }),
            None => Ok(()),
        }
    }
}

/// What a call tells whose reply needed memory.
fn told(taken: Result<(), Memory>) -> Result<(), ApiErr>
    ensures taken { OnOk result (IsOk taken) }
    ensures refused { OnErr result (IsErr taken) }
    ensures cause { IfErr result (λ error. error ≡ NoMemory) }
{
    match taken {
        Ok(()) => Ok(()),
        Err(_) => Err(ApiErr::Memory),
    }
}

/// The error by which a fault of a scheme ends a participant.
fn ending_by(fault: Fault) -> ApiErr
    ensures { (plan : PlanParts) (part : ℕ) (c : Course) → result ≡ ending_by plan part c fault }
{
    match fault {
        Fault::NotConverged { .. } => ApiErr::NotConverged { fault },
        _ => ApiErr::Overflow { fault },
    }
}
