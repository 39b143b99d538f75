ghost use Rattle.std.specs.Prelude.{◌≡◌, ◌≤◌, ◌<◌, ℕ, length, map, slice_get, slice_index, sum_by, None, Some, Ok, option_map, IfOk, IsErr, OnErr};
ghost use Rattle.cpl_plan.specs.declared.parts.Scheme.{Scheme};
ghost use Rattle.acceleration.specs.Exchanged.{exchanged};
ghost use Rattle.acceleration.specs.Residual.{width};
ghost use Rattle.acceleration.specs.RelaxerState.{RemembersAsMany, fresh, method_of};
ghost use Rattle.coupled_loop.specs.Given.{Look};
ghost use Rattle.coupled_loop.specs.Endings.{again};
ghost use Rattle.wave_coupling.specs.Posts.{Post};
ghost use Rattle.wave_coupling.specs.InputWave.{over, relaxed_after};
ghost use Rattle.wave_coupling.specs.Judged.{relax_fault, judgement_of as judgement_in};
ghost use Rattle.group_course.specs.CourseTells.{changes_in, posted_wave, CourseTells};
ghost use Rattle.group_course.specs.StoresTell.{StoresTell};
ghost use Rattle.group_course.specs.Held.{AreHeld};
ghost use Rattle.group_course.specs.Ready.{Tells, IsReady};
ghost use Rattle.cpl_plan.specs.declared.words.Fault.TheVariants.{Relax};
ghost use Rattle.group_course.specs.declared.relaxing.OutOfRange.{OutOfRange};
ghost use Rattle.group_course.specs.JudgementOf.{judgement_by};
ghost use Rattle.group_course.specs.Taken.{degree_in, read_in, waves_before, AreTaken, AreRelaxable};
ghost use Rattle.group_course.specs.Outcome.{location_of, relaxer_at, firsts_at, HasRelaxed};

use crate::course::Course;
use crate::iteration::Iteration;
use crate::leading::{constant_at, led_by};
use crate::places::{exchange_at, over};
use crate::values::{degree_in, post_of, scheme_of, store_of};
use acceleration::{AccErr, Relaxer};
use cpl_plan::{Accel, Fault, Plan, Verdict};
use fixed_num::Memory;
use plan_order::ExchangeId;
use sample_store::Store;
use std::alloc::Global;
use waveform::Wave;

/// Where a relaxed value is out of range.
#[derive(Clone, Copy, Debug, PartialEq, Eq)]
pub struct OutOfRange {
    /// The place of its exchange among the accelerated ones, from 0.
    pub place: u32,
    /// The time of its sample, in ticks.
    pub time: u64,
    /// Its place in the whole field, from 0.
    pub component: u32,
}

/// What is relaxed in an iteration, of each accelerated exchange.
#[derive(Debug, Drop)]
pub struct Taken {
    pub degrees: Vec<u32>,
    /// The waves that were read.
    pub read: Vec<Wave>,
    /// The waves that were posted.
    pub posted: Vec<Wave>,
}

impl Course {
    /// The fault of an iteration by its verdict: what is repeated is relaxed.
    pub(crate) fn settle(
        &mut self,
        alloc: Global,
        plan: &Plan,
        stores: &[Option<Store>],
        at: Iteration,
        verdict: Verdict,
        changes: &[u64],
    ) -> Result<Option<Fault>, Memory>
        requires scheme { at.scheme < length plan.now.schemes }
        requires first { 1 ≤ at.number }
        requires ready { IsReady plan.now stores.now at self.old }
        ensures judged { IfOk result (λ fault. (look : Look Post) (scheme : Scheme)
            → Tells plan.now stores.now at self.old look → slice_get plan.now.schemes at.scheme ≡ Some scheme
            → judgement_by fault verdict ≡ judgement_in plan.now look at.scheme at.window at.number scheme
            (relaxed_after plan.now look scheme at.window at.start at.number).outside verdict) }
        ensures repeats { IfOk result (λ fault. (look : Look Post) (scheme : Scheme)
            → Tells plan.now stores.now at self.old look → slice_get plan.now.schemes at.scheme ≡ Some scheme
            → changes.now ≡ changes_in plan.now look scheme at.window at.start at.number
            → judgement_by fault verdict ≡ again
            → CourseTells plan.now look scheme at.window at.start at.number self.new) }
        ensures ends { IfOk result (λ fault. ¬ (judgement_by fault verdict ≡ again) → self.new ≡ self.old) }
        ensures unchanged { OnErr result (self.new ≡ self.old) }
    {
        match verdict {
            Verdict::Again => self.repeat(alloc, plan, stores, at, changes),
            Verdict::NotConverged { measure } => Ok(Some(Fault::NotConverged {
                scheme: at.scheme,
                window: at.window,
                iteration: at.number,
                measure,
            })),
            Verdict::Converged | Verdict::AtLimit => Ok(None),
        }
    }

    /// Relaxes what is repeated. The fault of a relaxed value that is out of range.
    fn repeat(
        &mut self,
        alloc: Global,
        plan: &Plan,
        stores: &[Option<Store>],
        at: Iteration,
        changes: &[u64],
    ) -> Result<Option<Fault>, Memory>
        requires scheme { at.scheme < length plan.now.schemes }
        requires first { 1 ≤ at.number }
        requires ready { IsReady plan.now stores.now at self.old }
        ensures outside { IfOk result (λ fault. (look : Look Post) (scheme : Scheme)
            → Tells plan.now stores.now at self.old look → slice_get plan.now.schemes at.scheme ≡ Some scheme
            → fault ≡ option_map (relax_fault plan.now look at.scheme at.window at.number scheme)
            (relaxed_after plan.now look scheme at.window at.start at.number).outside) }
        ensures tells { IfOk result (λ fault. fault ≡ None → (look : Look Post) (scheme : Scheme)
            → Tells plan.now stores.now at self.old look → slice_get plan.now.schemes at.scheme ≡ Some scheme
            → changes.now ≡ changes_in plan.now look scheme at.window at.start at.number
            → CourseTells plan.now look scheme at.window at.start at.number self.new) }
        ensures kept { IfOk result (λ fault. ¬ (fault ≡ None) → self.new ≡ self.old) }
        ensures unchanged { OnErr result (self.new ≡ self.old) }
    {
        let accel = &scheme_of(plan, at.scheme).accel;
        let taken = self.taken(alloc, plan, stores, at)?;
        let outside = self.relax(alloc, accel, at.number, &taken, changes)?;
        Ok(fault_of(over(accel), at, outside))
    }

    /// What is relaxed in an iteration.
    fn taken(
        &self,
        alloc: Global,
        plan: &Plan,
        stores: &[Option<Store>],
        at: Iteration,
    ) -> Result<Taken, Memory>
        requires scheme { at.scheme < length plan.now.schemes }
        requires first { 1 ≤ at.number }
        requires ready { IsReady plan.now stores.now at self.now }
        ensures { IfOk result (λ taken. AreTaken plan.now stores.now at self.now taken.degrees.items taken.read.items taken.posted.items) }
    {
        let exchanges = over(&scheme_of(plan, at.scheme).accel);
        Ok(Taken {
            degrees: degrees(alloc, plan, exchanges)?,
            read: self.read(alloc, plan, stores, at)?,
            posted: posted(alloc, plan, stores, at)?,
        })
    }

    /// The waves that were read of the accelerated exchanges.
    fn read(
        &self,
        alloc: Global,
        plan: &Plan,
        stores: &[Option<Store>],
        at: Iteration,
    ) -> Result<Vec<Wave>, Memory>
        requires scheme { at.scheme < length plan.now.schemes }
        requires first { 1 ≤ at.number }
        requires ready { IsReady plan.now stores.now at self.now }
        ensures { IfOk result (λ waves. (look : Look Post) (scheme : Scheme)
            → Tells plan.now stores.now at self.now look → slice_get plan.now.schemes at.scheme ≡ Some scheme
            → waves.items ≡ map (read_in plan.now look scheme at.window at.start (waves_before at.number self.now.waves)) (over scheme.accel)) }
    {
        let exchanges = over(&scheme_of(plan, at.scheme).accel);
        let mut waves = Vec::with_capacity(alloc, exchanges.len())?;
        for place in 0..exchanges.len() {
            waves.push(self.read_at(alloc, plan, stores, at, place)?)?;
        }
        Ok(waves)
    }

    /// The wave that was read of the accelerated exchange at a place: the values at the window's start,
    /// and after the first iteration the relaxed samples of the one before.
    fn read_at(
        &self,
        alloc: Global,
        plan: &Plan,
        stores: &[Option<Store>],
        at: Iteration,
        place: usize,
    ) -> Result<Wave, Memory>
        requires scheme { at.scheme < length plan.now.schemes }
        requires first { 1 ≤ at.number }
        requires ready { IsReady plan.now stores.now at self.now }
        requires inside { (scheme : Scheme) → slice_get plan.now.schemes at.scheme ≡ Some scheme → place < length (over scheme.accel) }
        ensures { IfOk result (λ wave. (look : Look Post) (scheme : Scheme)
            → Tells plan.now stores.now at self.now look → slice_get plan.now.schemes at.scheme ≡ Some scheme
            → slice_get (map (read_in plan.now look scheme at.window at.start (waves_before at.number self.now.waves)) (over scheme.accel)) place ≡ Some wave) }
    {
        let x = over(&scheme_of(plan, at.scheme).accel)[place];
        let before = store_of(stores, x, at).end_before(at.window);
        if at.number == 1 {
            return constant_at(alloc, at.start, before);
        }
        led_by(alloc, at.start, before, &self.waves[place])
    }

    /// The relaxed waves of an iteration become those that are kept, with the changes of the first one.
    fn relax(
        &mut self,
        alloc: Global,
        accel: &Accel,
        k: u32,
        taken: &Taken,
        changes: &[u64],
    ) -> Result<Option<OutOfRange>, Memory>
        requires relaxable { AreRelaxable taken.now.degrees.items taken.now.read.items taken.now.posted.items }
        requires first { 1 ≤ k }
        requires as_many { 2 ≤ k → sum_by width taken.now.posted.items ≡ sum_by width self.old.waves }
        ensures relaxed { IfOk result (HasRelaxed (relaxer_at k accel.now self.old)
            (exchanged taken.now.degrees.items taken.now.read.items taken.now.posted.items) (firsts_at k changes.now self.old) self.old self.new) }
        ensures unchanged { OnErr result (self.new ≡ self.old) }
    {
        if k == 1 {
            self.begin(alloc, accel, taken, changes)
        } else {
            self.go_on(taken)
        }
    }

    /// The same in the first iteration of a window, by a new relaxer.
    fn begin(
        &mut self,
        alloc: Global,
        accel: &Accel,
        taken: &Taken,
        changes: &[u64],
    ) -> Result<Option<OutOfRange>, Memory>
        requires relaxable { AreRelaxable taken.now.degrees.items taken.now.read.items taken.now.posted.items }
        ensures relaxed { IfOk result (HasRelaxed (fresh (method_of accel.now))
            (exchanged taken.now.degrees.items taken.now.read.items taken.now.posted.items) changes.now self.old self.new) }
        ensures unchanged { OnErr result (self.new ≡ self.old) }
    {
        let firsts = Vec::from_slice(alloc, changes)?;
        let mut relaxer = Relaxer::new(alloc, accel)?;
        let (degrees, read, posted) = (
            taken.degrees.as_slice(),
            taken.read.as_slice(),
            taken.posted.as_slice(),
        );
        match relaxer.relax_waves(degrees, read, posted) {
            Ok(waves) => {
                *self = Course {
                    relaxer,
                    waves,
                    firsts,
                };
                Ok(None)
            }
            Err(error) => outside_of(error),
        }
    }

    /// The same in a later iteration.
    fn go_on(&mut self, taken: &Taken) -> Result<Option<OutOfRange>, Memory>
        requires relaxable { AreRelaxable taken.now.degrees.items taken.now.read.items taken.now.posted.items }
        requires as_many { sum_by width taken.now.posted.items ≡ sum_by width self.old.waves }
        ensures relaxed { IfOk result (HasRelaxed self.old.relaxer
            (exchanged taken.now.degrees.items taken.now.read.items taken.now.posted.items) self.old.firsts self.old self.new) }
        ensures unchanged { OnErr result (self.new ≡ self.old) }
    {
        let (degrees, read, posted) = (
            taken.degrees.as_slice(),
            taken.read.as_slice(),
            taken.posted.as_slice(),
        );
        match self.relaxer.relax_waves(degrees, read, posted) {
            Ok(waves) => {
                self.waves = waves;
                Ok(None)
            }
            Err(error) => outside_of(error),
        }
    }
}

/// The degrees of exchanges.
fn degrees(alloc: Global, plan: &Plan, exchanges: &[ExchangeId]) -> Result<Vec<u32>, Memory>
    ensures { IfOk result (λ degrees. degrees.items ≡ map (degree_in plan.now) exchanges.now) }
{
    let mut degrees = Vec::with_capacity(alloc, exchanges.len())?;
    for place in 0..exchanges.len() {
        degrees.push(degree_in(plan, exchanges[place]))?;
    }
    Ok(degrees)
}

/// Copies of the posts of the accelerated exchanges.
fn posted(
    alloc: Global,
    plan: &Plan,
    stores: &[Option<Store>],
    at: Iteration,
) -> Result<Vec<Wave>, Memory>
    requires scheme { at.scheme < length plan.now.schemes }
    requires held { AreHeld plan.now at.scheme at.window at.number stores.now }
    ensures { IfOk result (λ waves. (look : Look Post) (scheme : Scheme)
        → StoresTell plan.now look at.scheme stores.now → slice_get plan.now.schemes at.scheme ≡ Some scheme
        → waves.items ≡ map (posted_wave plan.now look at.window at.number) (over scheme.accel)) }
{
    let exchanges = over(&scheme_of(plan, at.scheme).accel);
    let mut waves = Vec::with_capacity(alloc, exchanges.len())?;
    for place in 0..exchanges.len() {
        let store = store_of(stores, exchanges[place], at);
        waves.push(post_of(store, at.window, at.number).copy(alloc)?)?;
    }
    Ok(waves)
}

/// A relaxation's error as the place of the value that is out of range.
fn outside_of(error: AccErr) -> Result<Option<OutOfRange>, Memory>
    ensures outside { (place time component : ℕ) → error ≡ AccErr.Overflow place time component
        → result ≡ Ok (Some (record { place = place; time = time; component = component })) }
    ensures memory { error ≡ AccErr.Memory → IsErr result }
{
    match error {
        AccErr::Overflow {
            place,
            time,
            component,
        } => Ok(Some(OutOfRange {
            place,
            time,
            component,
        })),
        AccErr::Memory => Err(Memory),
    }
}

/// The fault of a relaxed value that is out of range.
fn fault_of(exchanges: &[ExchangeId], at: Iteration, outside: Option<OutOfRange>) -> Option<Fault>
    ensures none { outside ≡ None → result ≡ None }
    ensures some { (out : OutOfRange) → outside ≡ Some out → result ≡ Some (Relax at.scheme at.window at.number
        (slice_index exchanges.now out.place) out.time out.component) }
{
    match outside {
        None => None,
        Some(out) => Some(Fault::Relax {
            scheme: at.scheme,
            window: at.window,
            iteration: at.number,
            exchange: exchange_at(exchanges, out.place),
            time: out.time,
            component: out.component,
        }),
    }
}
