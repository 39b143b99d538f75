ghost use Rattle.std.specs.Prelude.{◌≡◌, ◌-◌, ◌≤◌, ◌<◌, length, slice_get, Some, IfOk};
ghost use Rattle.cpl_plan.specs.ValidPlan.{IsValidPlan};
ghost use Rattle.cpl_plan.specs.declared.parts.Scheme.{Scheme};
ghost use Rattle.cpl_plan.specs.declared.parts.Exchange.{Exchange};
ghost use Rattle.coupled_loop.specs.Given.{Look};
ghost use Rattle.wave_coupling.specs.Posts.{Post, newest_values};
ghost use Rattle.wave_coupling.specs.InputWave.{iterated_samples};
ghost use Rattle.wave_coupling.specs.Judged.{old_values, change_in, size_in, verdict_in};
ghost use Rattle.group_course.specs.Ready.{Tells, IsReady};
ghost use Rattle.group_course.specs.Norms.{IsExchangeOf, AreNorms};
ghost use Rattle.group_course.specs.Outcome.{firsts_at};

use crate::course::Course;
use crate::iteration::Iteration;
use crate::values::{newest_values, post_of, scheme_of, store_of};
use convergence::{judge, norms_of};
use cpl_plan::{Kind, Plan, Verdict};
use fixed_num::{Memory, Value};
use plan_order::ExchangeId;
use sample_store::Store;
use std::alloc::Global;
use waveform::Wave;

/// What the measures of a scheme look at, in units.
#[derive(Debug, Drop)]
pub struct Norms {
    /// The norm of the change, for each measure.
    pub changes: Vec<u64>,
    /// The norm of the new values, for each measure.
    pub sizes: Vec<u64>,
}

impl Course {
    /// What the measures of the scheme look at in an iteration.
    pub(crate) fn norms(
        &self,
        alloc: Global,
        plan: &Plan,
        stores: &[Option<Store>],
        at: Iteration,
    ) -> Result<Norms, Memory>
        requires scheme { at.scheme < length plan.now.schemes }
        requires first { 1 ≤ at.number }
        requires ready { IsReady plan.now stores.now at self.now }
        ensures { IfOk result (λ norms. AreNorms plan.now stores.now at self.now norms.changes.items norms.sizes.items) }
    {
        let measures = scheme_of(plan, at.scheme).measures.as_slice();
        let mut changes = Vec::with_capacity(alloc, measures.len())?;
        let mut sizes = Vec::with_capacity(alloc, measures.len())?;
        for i in 0..measures.len() {
            let (change, size) = self.norms_at(plan, stores, at, measures[i].exchange);
            changes.push(change)?;
            sizes.push(size)?;
        }
        Ok(Norms { changes, sizes })
    }

    /// The norm of the change of one exchange, and that of its new values.
    fn norms_at(
        &self,
        plan: &Plan,
        stores: &[Option<Store>],
        at: Iteration,
        x: ExchangeId,
    ) -> (u64, u64)
        requires scheme { at.scheme < length plan.now.schemes }
        requires first { 1 ≤ at.number }
        requires ready { IsReady plan.now stores.now at self.now }
        requires valid { IsValidPlan plan.now }
        requires exchange { IsExchangeOf plan.now at.scheme x }
        ensures change { (look : Look Post) → Tells plan.now stores.now at self.now look
            → result.0 ≡ change_in plan.now look x at.window at.start at.number (slice_get plan.now.exchanges x) }
        ensures size { (look : Look Post) → Tells plan.now stores.now at self.now look
            → result.1 ≡ size_in plan.now look x at.window at.number (slice_get plan.now.exchanges x) }
    {
        let new = newest_values(post_of(store_of(stores, x, at), at.window, at.number));
        let old = self.old_values(plan, stores, at, x);
        norms_of(new, old)
    }

    /// The values that a measured exchange had before.
    fn old_values<'a>(
        &'a self,
        plan: &'a Plan,
        stores: &'a [Option<Store>],
        at: Iteration,
        x: ExchangeId,
    ) -> &'a [Value]
        requires scheme { at.scheme < length plan.now.schemes }
        requires first { 1 ≤ at.number }
        requires ready { IsReady plan.now stores.now at self.now }
        requires exchange { IsExchangeOf plan.now at.scheme x }
        ensures { (look : Look Post) (e : Exchange) → Tells plan.now stores.now at self.now look
            → slice_get plan.now.exchanges x ≡ Some e
            → result.now ≡ old_values plan.now look e.kind e x at.window at.start at.number }
    {
        if at.number == 1 {
            return store_of(stores, x, at)
                .end_before(at.window)
                .values
                .as_slice();
        }
        newest_values(self.samples_before(plan, stores, at, x))
    }

    /// The samples that follow the values at the window's start in what is compared with, after the
    /// first iteration: those that were read, or, where an exchange is not iterated, those that were
    /// posted before.
    fn samples_before<'a>(
        &'a self,
        plan: &'a Plan,
        stores: &'a [Option<Store>],
        at: Iteration,
        x: ExchangeId,
    ) -> &'a Wave
        requires scheme { at.scheme < length plan.now.schemes }
        requires later { 2 ≤ at.number }
        requires ready { IsReady plan.now stores.now at self.now }
        requires exchange { IsExchangeOf plan.now at.scheme x }
        ensures { (look : Look Post) (e : Exchange) → Tells plan.now stores.now at self.now look
            → slice_get plan.now.exchanges x ≡ Some e
            → 1 ≤ length result.now → newest_values result.now ≡ old_values plan.now look e.kind e x at.window at.start at.number }
    {
        match plan.exchange(x).kind {
            Kind::Iterated => self.iterated_before(plan, stores, at, x),
            _ => post_of(store_of(stores, x, at), at.window, at.number - 1),
        }
    }

    /// What members read of an iterated exchange after the values at the window's start, after the
    /// first iteration.
    fn iterated_before<'a>(
        &'a self,
        plan: &'a Plan,
        stores: &'a [Option<Store>],
        at: Iteration,
        x: ExchangeId,
    ) -> &'a Wave
        requires scheme { at.scheme < length plan.now.schemes }
        requires later { 2 ≤ at.number }
        requires ready { IsReady plan.now stores.now at self.now }
        requires exchange { IsExchangeOf plan.now at.scheme x }
        ensures { (look : Look Post) (e : Exchange) → Tells plan.now stores.now at self.now look
            → slice_get plan.now.exchanges x ≡ Some e
            → result.now ≡ iterated_samples plan.now look e x at.window at.start (at.number - 1)
            (slice_get plan.now.schemes e.scheme) }
    {
        match self.relaxed(&scheme_of(plan, at.scheme).accel, x) {
            Some(wave) => wave,
            None => post_of(store_of(stores, x, at), at.window, at.number - 1),
        }
    }

    /// The verdict of an iteration by what its measures look at.
    pub(crate) fn verdict(
        &self,
        plan: &Plan,
        stores: &[Option<Store>],
        at: Iteration,
        norms: &Norms,
    ) -> Verdict
        requires scheme { at.scheme < length plan.now.schemes }
        requires first { 1 ≤ at.number }
        requires ready { IsReady plan.now stores.now at self.now }
        requires norms { AreNorms plan.now stores.now at self.now norms.now.changes.items norms.now.sizes.items }
        ensures { (look : Look Post) (scheme : Scheme) → Tells plan.now stores.now at self.now look
            → slice_get plan.now.schemes at.scheme ≡ Some scheme
            → result ≡ verdict_in plan.now look scheme at.window at.start at.number }
    {
        let scheme = scheme_of(plan, at.scheme);
        let firsts = self.firsts(at.number, norms.changes.as_slice());
        let (changes, sizes) = (norms.changes.as_slice(), norms.sizes.as_slice());
        judge(
            scheme.measures.as_slice(),
            changes,
            sizes,
            firsts,
            at.number,
            scheme.min,
            scheme.max,
        )
    }

    /// The changes of the first iteration, of which these are those of iteration k.
    fn firsts<'a>(&'a self, k: u32, changes: &'a [u64]) -> &'a [u64]
        ensures { result.now ≡ firsts_at k changes.now self.now }
    {
        if k == 1 {
            changes
        } else {
            self.firsts.as_slice()
        }
    }
}
