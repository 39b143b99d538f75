//! The judgement of an iteration, which is made once and told to all members of its scheme.

ghost use Rattle.std.specs.Prelude.{◌≡◌, ◌<◌, ◌≤◌, ◌+◌, ◌^◌, ◌++◌, length, set, slice_get, Some, None, Ok, Err, IfOk, IfErr, OnOk, OnErr, vec_len, vec_capacity};
ghost use Rattle.cpl_plan.specs.declared.words.IterLine.{IterLine};
ghost use Rattle.coupled_loop.specs.Numbered.{put};
ghost use Rattle.coupled_loop.specs.CoreState.{judging, look_in};
ghost use Rattle.coupled_loop.specs.CoreStep.{judges};
ghost use Rattle.wave_coupling.specs.Coupling.{judge_of};
ghost use Rattle.group_course.specs.JudgementOf.{judgement_by};
ghost use Rattle.core_sides.specs.CoreWords.{WaveState};
ghost use Rattle.core_sides.specs.declared.standing.Place.TheVariants.{Judging};
ghost use Rattle.core_sides.specs.declared.standing.Standing.{Standing};
ghost use Rattle.core_stores.specs.StoresStand.{AreStores};
ghost use Rattle.core_stores.specs.StoreMoves.{ArePosted, AreOpen};
ghost use Rattle.core_schemes.specs.SchemesStand.{AreSchemes};
ghost use Rattle.core_schemes.specs.Judging.{HasJudged};
ghost use Rattle.coupling_core.specs.JudgedLines.{lines_at};
ghost use Rattle.coupling_core.specs.LinesStand.{AreLined};
ghost use Rattle.coupling_core.specs.Heard.{IsJudging, CanBeJudged, IsLastOf, IsStrict, line_told, IsStartIn, reply_heard, side_heard, standing_heard};
ghost use Rattle.coupling_core.specs.OneMore.{MayMake, IsGranted, Answers, Makes};
ghost use Rattle.coupling_core.specs.Outcomes.{UnlessMemory};

use crate::gate::{Gate, standing_place};
use crate::machine::Core;
use crate::opening::started;
use crate::posting::complete;
use core_schemes::{LastJudged, OnceJudged, SchemeState, judge_once};
use core_sides::{CoreErr, Ending, Place, Reply, Sides};
use cpl_plan::{IterLine, Plan, Verdict};
use fixed_num::Memory;
use group_course::Iteration;
use plan_order::PartId;
use sample_store::Store;
use std::alloc::Global;

impl Core {
    /// The Judge of `p`, which comes next.
    pub(crate) fn judge(&mut self, p: PartId) -> Result<Reply, CoreErr>
        requires { MayMake self.old p judges }
        ensures reply { IfOk result (λ reply. Answers self.old p judges (Ok reply)) }
        ensures not_enabled { IfErr result (λ error. UnlessMemory error (Answers self.old p judges (Err error))) }
        ensures stands { OnOk result (Makes self.old self.new p judges) }
        ensures plan { self.new.plan ≡ self.old.plan }
        ensures unchanged { OnErr result (self.new ≡ self.old) }
    {
        match self.gate(p) {
            Gate::Open => self.judge_here(p),
            Gate::Cut { who } => Ok(self.cut(p, who)),
            Gate::Waits {
                owner,
                window,
                iteration,
            } => Err(CoreErr::NotEnabled {
                owner,
                window,
                iteration,
            }),
        }
    }

    /// `p` is told the judgement on its iteration, which all members have posted.
    fn judge_here(&mut self, p: PartId) -> Result<Reply, CoreErr>
        requires fitting { MayMake self.old p judges }
        requires granted { IsGranted self.old p }
        ensures reply { IfOk result (λ reply. Answers self.old p judges (Ok reply)) }
        ensures memory { IfErr result (λ error. error ≡ CoreErr.Memory) }
        ensures stands { OnOk result (Makes self.old self.new p judges) }
        ensures plan { self.new.plan ≡ self.old.plan }
        ensures unchanged { OnErr result (self.new ≡ self.old) }
    {
        match standing_place(&self.sides, p) {
            Place::Judging {
                scheme,
                window,
                iteration,
            } => {
                let at = Iteration {
                    scheme,
                    window,
                    start: started(&self.plan, &self.sides, window),
                    number: iteration,
                };
                self.judge_at(p, at)
            }
            _ => unreachable!(),
        }
    }

    /// `p`, which stands at this iteration, is told the judgement on it.
    fn judge_at(&mut self, p: PartId, at: Iteration) -> Result<Reply, CoreErr>
        requires fitting { MayMake self.old p judges }
        requires granted { IsGranted self.old p }
        requires place { (s : Standing) → slice_get self.old.standings p ≡ Some s
            → s.place ≡ Judging at.scheme at.window at.number }
        requires start { IsStartIn self.old at.window at.start }
        ensures reply { IfOk result (λ reply. Answers self.old p judges (Ok reply)) }
        ensures memory { IfErr result (λ error. error ≡ CoreErr.Memory) }
        ensures stands { OnOk result (Makes self.old self.new p judges) }
        ensures plan { self.new.plan ≡ self.old.plan }
        ensures unchanged { OnErr result (self.new ≡ self.old) }
    {
        match judged(
            self.alloc,
            &self.plan,
            &self.stores,
            &mut self.schemes,
            &mut self.lines,
            at,
        ) {
            Ok(last) => Ok(hear(&self.plan, &mut self.sides, &mut self.stores, p, last)),
            Err(_) => Err(CoreErr::Memory),
        }
    }
}

/// The judgement on an iteration. Where it is made now, the iteration gets its line.
fn judged(
    alloc: Global,
    plan: &Plan,
    stores: &[Option<Store>],
    schemes: &mut [SchemeState],
    lines: &mut Vec<IterLine>,
    at: Iteration,
) -> Result<LastJudged, Memory>
    requires ready { CanBeJudged plan.now stores.now schemes.old at }
    ensures turn { IfOk result (λ last. HasJudged at (Some last)) }
    ensures last { IfOk result (λ last. IsLastOf schemes.new at.scheme last) }
    ensures judgement { IfOk result (λ last. (sides : WaveState) → IsJudging plan.now stores.now schemes.old at sides
        → judgement_by last.fault last.verdict ≡ judge_of plan.now (look_in sides) at.scheme at.window at.number) }
    ensures stands { OnOk result ((sides : WaveState) → IsJudging plan.now stores.now schemes.old at sides
        → AreSchemes plan.now schemes.old sides → AreSchemes plan.now schemes.new sides) }
    ensures strict { IfOk result (λ last. IsStrict last) }

    // One line for each iteration, in the order in which they are first judged.
    ensures lines { OnOk result ((sides : WaveState) → IsJudging plan.now stores.now schemes.old at sides
        → AreLined lines.old.items schemes.old
        → lines.new.items ≡ lines_at plan.now sides (judging at.scheme at.window at.number) judges lines.old.items) }
    ensures lined { OnOk result ((sides : WaveState) → IsJudging plan.now stores.now schemes.old at sides
        → AreLined lines.old.items schemes.old → AreLined lines.new.items schemes.new) }
    ensures schemes_unchanged { OnErr result (schemes.new ≡ schemes.old) }
    ensures lines_unchanged { OnErr result (lines.new.items ≡ lines.old.items) }
{
    let _valid = plan.parts();
    lines.reserve(1)?;
    let told = judge_once(&mut schemes[at.scheme as usize], alloc, plan, stores, at)?;
    Ok(noted(lines, at, told))
}

/// Notes the line of an iteration that is judged now.
fn noted(lines: &mut Vec<IterLine>, at: Iteration, told: OnceJudged) -> LastJudged
    requires { vec_len lines.old < vec_capacity lines.old }
    ensures last { result ≡ told.last }
    ensures lines { lines.new.items ≡ lines.old.items ++ line_told at told }
{
    let OnceJudged { last, norms } = told;
    if let Some(norms) = norms {
        let _ = lines.push(IterLine {
            scheme: at.scheme,
            window: at.window,
            iteration: at.number,
            verdict: last.verdict,
            norms,
        });
    }
    last
}

/// `p` is told the judgement on its iteration: it ends by the scheme's fault, repeats the window, or
/// completes it.
fn hear(
    plan: &Plan,
    sides: &mut Sides,
    stores: &mut [Option<Store>],
    p: PartId,
    last: LastJudged,
) -> Reply
    requires standing { p < length sides.old.standings.items }
    requires count { length stores.old ≡ length plan.now.exchanges }
    requires open { AreOpen plan.now.exchanges stores.old p last.window }
    requires window { last.window ≤ 10 ^ 6 }
    requires iteration { last.iteration ≤ 10 ^ 6 }
    ensures reply { result ≡ reply_heard last }
    ensures standings { (s : Standing) → slice_get sides.old.standings.items p ≡ Some s
        → sides.new.standings.items ≡ set sides.old.standings.items p (standing_heard last s) }
    ensures ends { sides.new.ends ≡ sides.old.ends }
    ensures stores { (state : WaveState) → AreStores plan.now stores.old state
        → ArePosted plan.now.exchanges stores.old p last.window last.iteration
        → AreStores plan.now stores.new (put state p (side_heard last (state p))) }
{
    match last.fault {
        Some(fault) => {
            sides.end(p, Ending::Faulted(fault));
            Reply::Faulted(fault)
        }
        None => go_on(plan, sides, stores, p, last),
    }
}

/// `p` repeats the window, or completes it. That a strict measure fails is always a fault.
fn go_on(
    plan: &Plan,
    sides: &mut Sides,
    stores: &mut [Option<Store>],
    p: PartId,
    last: LastJudged,
) -> Reply
    requires fault { last.fault ≡ None }
    requires standing { p < length sides.old.standings.items }
    requires count { length stores.old ≡ length plan.now.exchanges }
    requires open { AreOpen plan.now.exchanges stores.old p last.window }
    requires window { last.window ≤ 10 ^ 6 }
    requires iteration { last.iteration ≤ 10 ^ 6 }
    ensures reply { result ≡ reply_heard last }
    ensures standings { (s : Standing) → slice_get sides.old.standings.items p ≡ Some s
        → sides.new.standings.items ≡ set sides.old.standings.items p (standing_heard last s) }
    ensures ends { sides.new.ends ≡ sides.old.ends }
    ensures stores { (state : WaveState) → AreStores plan.now stores.old state
        → ArePosted plan.now.exchanges stores.old p last.window last.iteration
        → AreStores plan.now stores.new (put state p (side_heard last (state p))) }
{
    match last.verdict {
        Verdict::Converged => complete(plan, sides, stores, p, last.window),
        Verdict::AtLimit => complete(plan, sides, stores, p, last.window),
        Verdict::Again | Verdict::NotConverged { .. } => sides.go_to(
            p,
            Place::Taking {
                window: last.window,
                iteration: last.iteration + 1,
            },
        ),
    }
    Reply::Judged(last.verdict)
}
