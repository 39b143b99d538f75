//! What waits after the last step of a window, or after a mapping that is out of range.
ghost use Rattle.std.specs.Prelude.{◌≡◌, ◌∷◌, [], ℕ, List, None, Some, Ok, Err, if◌then◌else◌, All, IfOk, MatchResult};
ghost use Rattle.cpl_plan.specs.declared.parts.PlanParts.{PlanParts};
ghost use Rattle.wave_coupling.specs.Known.{Known};
ghost use Rattle.wave_coupling.specs.Noted.{Written};
ghost use Rattle.wave_coupling.specs.PostedWaves.{post_of};
ghost use Rattle.core_sides.specs.declared.event.Event.TheVariants.{Post as PostEvent, Judge as JudgeEvent, Stop as StopEvent};
ghost use Rattle.core_sides.specs.declared.event.StopCause.TheVariants.{Fault as ByFault};
ghost use Rattle.participant_waves.specs.SendsStand.{AreSends, CanSend};
ghost use Rattle.participant_waves.specs.Written.{AreWritten};

use core_sides::{Event, StopCause};
use cpl_plan::Fault;
use fixed_num::{Items, Memory};
use participant_tables::{Clock, Queue, WriteTable};
use participant_waves::{NoPost, Passages};
use std::alloc::Global;
use waveform::Wave;

/// What is posted of the samples of a turn, or the fault of the first place where a mapping is out of
/// range.
pub fn turn_post(
    alloc: Global,
    passages: &Passages,
    writes: &WriteTable,
    clock: Clock,
) -> Result<Result<Items<Wave>, Fault>, Memory>
    requires { All (CanSend writes.now) passages.now.sends.sendings }
    ensures { IfOk result (λ post. (plan : PlanParts) (part : ℕ) (known : Known) (written : List Written)
        → AreSends plan part known passages.now.sends → AreWritten plan part known written writes.now
        → MatchResult post (λ waves. post_of plan part known clock.window clock.iteration written ≡ Ok waves)
        (λ fault. post_of plan part known clock.window clock.iteration written ≡ Err (Some fault))) }
{
    match passages
        .sends
        .turn_post(alloc, writes, clock.window, clock.iteration)
    {
        Ok(waves) => Ok(Ok(waves)),
        Err(NoPost::Overflow(fault)) => Ok(Err(fault)),
        Err(NoPost::Memory) => Err(Memory),
    }
}

/// Lets a post wait, and then its judgement if there is one; or the Stop for the fault that stands in its
/// place.
pub fn queue_post(
    queue: &mut Queue,
    overflow: &mut Option<Fault>,
    post: Result<Items<Wave>, Fault>,
    judged: bool,
)
    requires { queue.old.waiting ≡ [] }
    ensures out { queue.new.out ≡ queue.old.out }
    ensures waiting { MatchResult post
        (λ waves. queue.new.waiting ≡ PostEvent waves ∷ (if judged then JudgeEvent ∷ [] else []))
        (λ fault. queue.new.waiting ≡ StopEvent (ByFault fault) ∷ []) }
    ensures overflow { MatchResult post (λ _. overflow.new ≡ overflow.old) (λ fault. overflow.new ≡ Some fault) }
{
    match post {
        Ok(waves) => {
            queue.push(Event::Post(waves));
            if judged {
                queue.push(Event::Judge);
            }
        }
        Err(fault) => {
            queue.push(Event::Stop(StopCause::Fault(fault)));
            *overflow = Some(fault);
        }
    }
}

/// Lets the Stop for a fault wait in place of all else, and no event be out.
pub fn wait_to_stop(queue: &mut Queue, fault: Fault)
    ensures { queue.new ≡ record { waiting = StopEvent (ByFault fault) ∷ []; out = None } }
{
    queue.clear();
    queue.push(Event::Stop(StopCause::Fault(fault)));
}
