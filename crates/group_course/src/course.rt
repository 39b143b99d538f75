ghost use Rattle.std.specs.Prelude.{◌≡◌, ◌≤◌, ◌<◌, ℕ, nat_eq, [], position, length, slice_get, Some, option_map, IfOk, OnErr};
ghost use Rattle.std.specs.Option.{option_and_then, option_map_or};
ghost use Rattle.cpl_plan.specs.declared.parts.PlanParts.{PlanParts};
ghost use Rattle.cpl_plan.specs.declared.parts.Exchange.{Exchange};
ghost use Rattle.cpl_plan.specs.declared.parts.Scheme.{Scheme};
ghost use Rattle.acceleration.specs.RelaxerState.{fresh, method_of};
ghost use Rattle.coupled_loop.specs.Given.{Look};
ghost use Rattle.coupled_loop.specs.Endings.{again};
ghost use Rattle.wave_coupling.specs.Posts.{Post};
ghost use Rattle.wave_coupling.specs.InputWave.{over, posted, iterated_samples};
ghost use Rattle.wave_coupling.specs.Judged.{verdict_in, judged_by};
ghost use Rattle.group_course.specs.CourseTells.{changes_in, CourseTells};
ghost use Rattle.group_course.specs.Ready.{Tells, IsReady};
ghost use Rattle.group_course.specs.JudgementOf.{judgement_of};

use crate::iteration::Iteration;
use crate::judged::Judged;
use crate::places::{over, place_of};
use acceleration::Relaxer;
use cpl_plan::{Accel, Plan};
use fixed_num::{Items, Memory};
use plan_order::ExchangeId;
use sample_store::Store;
use std::alloc::Global;
use std::marker::Model;
use waveform::Wave;

/// What a scheme keeps of a window from one iteration to the next.
#[derive(Debug, Drop)]
pub struct Course {
    pub(crate) relaxer: Relaxer,
    /// The relaxed waves of the accelerated exchanges, in order.
    pub(crate) waves: Vec<Wave>,
    /// The change of each measured exchange in the first iteration of the window.
    pub(crate) firsts: Vec<u64>,
}

impl Model for Course {
    ghost use Rattle.group_course.specs.CourseKept.{CourseKept, IsKept};

    ghost Value = { CourseKept };

    ghost view = { λ c. record { relaxer = c.relaxer; waves = c.waves.items; firsts = c.firsts.items } };

    ghost invariant = { λ c. IsKept (record { relaxer = c.relaxer; waves = c.waves.items; firsts = c.firsts.items }) };
}

impl Course {
    /// The course of a scheme, before its first window.
    pub fn new(alloc: Global, accel: &Accel) -> Result<Course, Memory>
        ensures { IfOk result (λ course.
            course ≡ record { relaxer = fresh (method_of accel.now); waves = []; firsts = [] }) }
    {
        Ok(Course {
            relaxer: Relaxer::new(alloc, accel)?,
            waves: Vec::new(alloc),
            firsts: Vec::new(alloc),
        })
    }

    /// Judges an iteration, which all members have posted.
    ///
    /// After the verdict Again without a fault the course keeps what the scheme's members read next.
    /// Otherwise, and after want of memory, it is as before. What it keeps of the window before is
    /// forgotten in a window's first iteration.
    pub fn judge(
        &mut self,
        alloc: Global,
        plan: &Plan,
        stores: &[Option<Store>],
        at: Iteration,
    ) -> Result<Judged, Memory>
        requires scheme { at.scheme < length plan.now.schemes }
        requires first { 1 ≤ at.number }
        requires ready { IsReady plan.now stores.now at self.old }
        ensures judged { IfOk result (λ judged. (look : Look Post) → Tells plan.now stores.now at self.old look
            → judgement_of judged
            ≡ judged_by plan.now look at.scheme at.window at.start at.number (slice_get plan.now.schemes at.scheme)) }
        ensures verdict { IfOk result (λ judged. (look : Look Post) (scheme : Scheme)
            → Tells plan.now stores.now at self.old look → slice_get plan.now.schemes at.scheme ≡ Some scheme
            → judged.verdict ≡ verdict_in plan.now look scheme at.window at.start at.number) }
        ensures norms { IfOk result (λ judged. (look : Look Post) (scheme : Scheme)
            → Tells plan.now stores.now at self.old look → slice_get plan.now.schemes at.scheme ≡ Some scheme
            → judged.norms ≡ changes_in plan.now look scheme at.window at.start at.number) }
        ensures repeats { IfOk result (λ judged. (look : Look Post) (scheme : Scheme)
            → Tells plan.now stores.now at self.old look → slice_get plan.now.schemes at.scheme ≡ Some scheme
            → judgement_of judged ≡ again
            → CourseTells plan.now look scheme at.window at.start at.number self.new) }
        ensures ends { IfOk result (λ judged. ¬ (judgement_of judged ≡ again) → self.new ≡ self.old) }
        ensures unchanged { OnErr result (self.new ≡ self.old) }
    {
        let norms = self.norms(alloc, plan, stores, at)?;
        let verdict = self.verdict(plan, stores, at, &norms);
        let fault = self.settle(alloc, plan, stores, at, verdict, norms.changes.as_slice())?;
        Ok(Judged {
            verdict,
            norms: Items::from_vec(norms.changes),
            fault,
        })
    }

    /// The relaxed samples of an exchange after an iteration that is to be repeated; None exactly where
    /// the exchange is not accelerated.
    pub fn relaxed(&self, accel: &Accel, x: ExchangeId) -> Option<&Wave>
        ensures wave { option_map (λ wave. wave.now) result
            ≡ option_and_then (λ place. slice_get self.now.waves place) (position (nat_eq x) (over accel.now)) }
        ensures told { (plan : PlanParts) (look : Look Post) (scheme : Scheme) (e : Exchange) (w start k : ℕ)
            → scheme.accel ≡ accel.now → CourseTells plan look scheme w start k self.now
            → iterated_samples plan look e x w start k (Some scheme)
            ≡ option_map_or (λ wave. wave.now) result (posted plan look e x w k).wave }
    {
        match place_of(over(accel), x) {
            Some(place) => self.waves.as_slice().get(place),
            None => None,
        }
    }
}
