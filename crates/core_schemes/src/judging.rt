//! The judgement on an iteration of a scheme.

ghost use Rattle.std.specs.Prelude.{◌≡◌, ◌↔◌, Some, None, slice_get, IfOk, OnErr};
ghost use Rattle.std.specs.Option.{IfSome};
ghost use Rattle.cpl_plan.specs.declared.parts.Scheme.{Scheme};
ghost use Rattle.coupled_loop.specs.CoreState.{look_in};
ghost use Rattle.wave_coupling.specs.Coupling.{judge_of};
ghost use Rattle.wave_coupling.specs.Judged.{verdict_in};
ghost use Rattle.group_course.specs.CourseTells.{changes_in};
ghost use Rattle.group_course.specs.JudgementOf.{judgement_by};
ghost use Rattle.core_sides.specs.CoreWords.{WaveState};
ghost use Rattle.core_schemes.specs.SchemesStand.{IsLastJudged};
ghost use Rattle.core_schemes.specs.Judging.{HasJudged, MayJudge, CanJudge};

use crate::schemes::{LastJudged, OnceJudged, SchemeState};
use cpl_plan::Plan;
use fixed_num::Memory;
use group_course::Iteration;
use sample_store::Store;
use std::alloc::Global;

/// The judgement on an iteration that all members of its scheme have posted.
///
/// It is made where the scheme's last judged iteration is another one, and told again otherwise. `stores`
/// has one for each exchange of the plan, by number.
///
/// # Errors
///
/// `Memory`: the scheme's state is then as before.
pub fn judge_once(
    state: &mut SchemeState,
    alloc: Global,
    plan: &Plan,
    stores: &[Option<Store>],
    at: Iteration,
) -> Result<OnceJudged, Memory>
    requires ready { CanJudge plan.now stores.now state.old at }

    // It is told of this iteration, and remembered.
    ensures turn { IfOk result (λ told. HasJudged at (Some told.last)) }
    ensures kept { IfOk result (λ told. state.new.last ≡ Some told.last) }
    // What is told is what all that was posted makes of it.
    ensures judgement { IfOk result (λ told. (sides : WaveState) → MayJudge plan.now stores.now state.old at sides
        → judgement_by told.last.fault told.last.verdict ≡ judge_of plan.now (look_in sides) at.scheme at.window at.number) }
    ensures stands { IfOk result (λ told. (sides : WaveState) (scheme : Scheme) → MayJudge plan.now stores.now state.old at sides
        → slice_get plan.now.schemes at.scheme ≡ Some scheme
        → IsLastJudged plan.now sides at.scheme scheme state.new told.last) }

    // It is judged once.
    ensures once { IfOk result (λ told. told.norms ≡ None ↔ HasJudged at state.old.last) }
    ensures known { IfOk result (λ told. told.norms ≡ None → state.new ≡ state.old) }
    // Where it is judged now, the verdict and the norms are those of its measures.
    ensures verdict { IfOk result (λ told. IfSome told.norms (λ norms. (sides : WaveState) (scheme : Scheme)
        → MayJudge plan.now stores.now state.old at sides → slice_get plan.now.schemes at.scheme ≡ Some scheme
        → told.last.verdict ≡ verdict_in plan.now (look_in sides) scheme at.window at.start at.number)) }
    ensures norms { IfOk result (λ told. IfSome told.norms (λ norms. (sides : WaveState) (scheme : Scheme)
        → MayJudge plan.now stores.now state.old at sides → slice_get plan.now.schemes at.scheme ≡ Some scheme
        → norms ≡ changes_in plan.now (look_in sides) scheme at.window at.start at.number)) }
    ensures unchanged { OnErr result (state.new ≡ state.old) }
{
    let _valid = plan.parts();
    match known(state.last, at) {
        Some(last) => Ok(OnceJudged { last, norms: None }),
        None => judge_now(state, alloc, plan, stores, at),
    }
}

/// The scheme's last judged iteration, where it is this one.
fn known(last: Option<LastJudged>, at: Iteration) -> Option<LastJudged>
    ensures this { IfSome result (λ told. HasJudged at (Some told)) }
    ensures same { IfSome result (λ told. last ≡ Some told) }
    ensures other { result ≡ None → HasJudged at last → ⊥ }
{
    match last {
        Some(judged) => {
            if judged.window == at.window && judged.iteration == at.number {
                Some(judged)
            } else {
                None
            }
        }
        None => None,
    }
}

/// Judges an iteration for the first time.
fn judge_now(
    state: &mut SchemeState,
    alloc: Global,
    plan: &Plan,
    stores: &[Option<Store>],
    at: Iteration,
) -> Result<OnceJudged, Memory>
    requires ready { CanJudge plan.now stores.now state.old at }
    requires new { HasJudged at state.old.last → ⊥ }
    ensures turn { IfOk result (λ told. HasJudged at (Some told.last)) }
    ensures kept { IfOk result (λ told. state.new.last ≡ Some told.last) }
    ensures judgement { IfOk result (λ told. (sides : WaveState) → MayJudge plan.now stores.now state.old at sides
        → judgement_by told.last.fault told.last.verdict ≡ judge_of plan.now (look_in sides) at.scheme at.window at.number) }
    ensures stands { IfOk result (λ told. (sides : WaveState) (scheme : Scheme) → MayJudge plan.now stores.now state.old at sides
        → slice_get plan.now.schemes at.scheme ≡ Some scheme
        → IsLastJudged plan.now sides at.scheme scheme state.new told.last) }
    ensures now { IfOk result (λ told. told.norms ≡ None → ⊥) }
    ensures verdict { IfOk result (λ told. (sides : WaveState) (scheme : Scheme)
        → MayJudge plan.now stores.now state.old at sides → slice_get plan.now.schemes at.scheme ≡ Some scheme
        → told.last.verdict ≡ verdict_in plan.now (look_in sides) scheme at.window at.start at.number) }
    ensures norms { IfOk result (λ told. IfSome told.norms (λ norms. (sides : WaveState) (scheme : Scheme)
        → MayJudge plan.now stores.now state.old at sides → slice_get plan.now.schemes at.scheme ≡ Some scheme
        → norms ≡ changes_in plan.now (look_in sides) scheme at.window at.start at.number)) }
    ensures unchanged { OnErr result (state.new ≡ state.old) }
{
    let _valid = plan.parts();
    let judged = state.course.judge(alloc, plan, stores, at)?;
    let last = LastJudged {
        window: at.window,
        iteration: at.number,
        verdict: judged.verdict,
        fault: judged.fault,
    };
    state.last = Some(last);
    Ok(OnceJudged {
        last,
        norms: Some(judged.norms),
    })
}
