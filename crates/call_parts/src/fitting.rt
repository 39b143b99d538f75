ghost use Rattle.std.specs.Prelude.{◌≡◌, ◌<◌, ℕ, IsTrue, length};
ghost use Rattle.cpl_plan.specs.declared.parts.PlanParts.{PlanParts};
ghost use Rattle.std.specs.Option.{option_map_or};
ghost use Rattle.coupled_loop.specs.PlanFrames.{group_of, iterations_of};
ghost use Rattle.core_sides.specs.PostedMeshes.{IsOfPlan};
ghost use Rattle.wave_coupling.specs.Coupling.{makes_windows};
ghost use Rattle.participant_words.specs.Course.{Course};
ghost use Rattle.participant_words.specs.Replies.{AreMeshes, IsOfTurn, MayAnswer, MayFault, MayJudge};
ghost use Rattle.participant_words.specs.declared.phase.EventKind.TheVariants.{Take};
ghost use Rattle.core_sides.specs.declared.event.Reply.TheVariants.{Cut, Faulted, Inputs, Judged, Meshes, Over, Posted};
ghost use Rattle.call_parts.specs.Listening.{IsAt, CanTakeInputs};

use crate::fitting_inputs::are_inputs;
use core_sides::{Input, Reply};
use cpl_plan::{Fault, MeshId, PartId, Plan, SchemeId, Verdict};
use mesh_data::AnyMesh;
use participant_tables::Clock;
use participant_words::EventKind;

/// Whether a reply may come to an event of this kind of a participant with these meshes in this turn. If
/// it answers true, the reply may come.
pub fn fits(
    plan: &Plan,
    part: PartId,
    own: &[AnyMesh],
    received: &[AnyMesh],
    clock: Clock,
    kind: EventKind,
    reply: &Reply,
) -> bool
    requires participant { part < length plan.now.parts }
    requires one_step { clock.one_step ≡ makes_windows plan.now part }
    requires taking { kind ≡ Take → CanTakeInputs plan.now part own.now received.now clock }
    ensures { IsTrue result → (c : Course) → IsAt own.now received.now clock c → MayAnswer plan.now part c kind reply.now }
{
    match reply {
        Reply::Posted => may_be_posted(kind),
        Reply::Meshes(meshes) => may_be_meshes(plan, part, kind, meshes.as_slice()),
        Reply::Judged(verdict) => may_be_judged(plan, part, clock, kind, *verdict),
        Reply::Faulted(fault) => may_be_faulted(plan, part, clock, kind, *fault),
        Reply::Inputs(inputs) => {
            may_be_inputs(plan, part, own, received, clock, kind, inputs.as_slice())
        }
        Reply::Cut { .. } => may_be_cut(kind),
        Reply::Over => may_be_over(kind),
    }
}

fn may_be_meshes(plan: &Plan, part: PartId, kind: EventKind, meshes: &[AnyMesh]) -> bool
    requires { part < length plan.now.parts }
    ensures { IsTrue result → (c : Course) → MayAnswer plan.now part c kind (Meshes meshes.now) }
{
    match kind {
        EventKind::TakeMeshes => are_meshes(plan, part, meshes),
        _ => false,
    }
}

fn may_be_judged(plan: &Plan, part: PartId, clock: Clock, kind: EventKind, verdict: Verdict) -> bool
    requires { part < length plan.now.parts }
    ensures { IsTrue result → (c : Course) → c.turn.iteration ≡ clock.iteration → MayAnswer plan.now part c kind (Judged verdict) }
{
    match kind {
        EventKind::Judge => may_judge(plan, part, clock, verdict),
        _ => false,
    }
}

fn may_be_faulted(plan: &Plan, part: PartId, clock: Clock, kind: EventKind, fault: Fault) -> bool
    requires { part < length plan.now.parts }
    ensures { IsTrue result → (c : Course) → c.turn.window ≡ clock.window → c.turn.iteration ≡ clock.iteration
        → MayAnswer plan.now part c kind (Faulted fault) }
{
    match kind {
        EventKind::Judge => may_fault(plan, part, clock, fault),
        _ => false,
    }
}

fn may_be_inputs(
    plan: &Plan,
    part: PartId,
    own: &[AnyMesh],
    received: &[AnyMesh],
    clock: Clock,
    kind: EventKind,
    inputs: &[Input],
) -> bool
    requires one_step { clock.one_step ≡ makes_windows plan.now part }
    requires taking { kind ≡ Take → CanTakeInputs plan.now part own.now received.now clock }
    ensures { IsTrue result → (c : Course) → IsAt own.now received.now clock c → MayAnswer plan.now part c kind (Inputs inputs.now) }
{
    match kind {
        EventKind::Take => are_inputs(plan, part, own, received, clock, inputs),
        _ => false,
    }
}

fn may_be_posted(kind: EventKind) -> bool
    ensures { IsTrue result → (plan : PlanParts) (part : ℕ) (c : Course) → MayAnswer plan part c kind Posted }
{
    match kind {
        EventKind::PostMesh | EventKind::Post => true,
        _ => false,
    }
}

fn may_be_over(kind: EventKind) -> bool
    ensures { IsTrue result → (plan : PlanParts) (part : ℕ) (c : Course) → MayAnswer plan part c kind Over }
{
    match kind {
        EventKind::Stop | EventKind::End => true,
        _ => false,
    }
}

/// Whether an event of this kind waits for others, so that they may cut it.
fn may_be_cut(kind: EventKind) -> bool
    ensures { IsTrue result → (plan : PlanParts) (part who : ℕ) (c : Course) → MayAnswer plan part c kind (Cut who) }
{
    match kind {
        EventKind::TakeMeshes | EventKind::Judge | EventKind::Take => true,
        _ => false,
    }
}

/// Whether there is one mesh for each that the participant receives, in order.
fn are_meshes(plan: &Plan, part: PartId, meshes: &[AnyMesh]) -> bool
    requires { part < length plan.now.parts }
    ensures { IsTrue result → (c : Course) → AreMeshes plan.now part c meshes.now }
{
    let numbers = plan.part(part).receives.as_slice();
    if meshes.len() != numbers.len() {
        return false;
    }
    for i in 0..numbers.len() {
        if !is_of_plan(plan, numbers[i], &meshes[i]) {
            return false;
        }
    }
    true
}

/// Whether a mesh has the plan's dimensions and is not empty.
fn is_of_plan(plan: &Plan, number: MeshId, mesh: &AnyMesh) -> bool
    ensures { IsTrue result → IsOfPlan plan.now number mesh.now }
{
    match plan.parts().meshes.as_slice().get(number as usize) {
        Some(wanted) => wanted.dimensions as usize == mesh.dimensions() && mesh.len() >= 1,
        None => false,
    }
}

/// Whether a window may be judged so: it is repeated only below the greatest number of iterations.
fn may_judge(plan: &Plan, part: PartId, clock: Clock, verdict: Verdict) -> bool
    requires { part < length plan.now.parts }
    ensures { IsTrue result → (c : Course) → c.turn.iteration ≡ clock.iteration → MayJudge plan.now part c verdict }
{
    match verdict {
        Verdict::Again => may_repeat(plan, part, clock),
        Verdict::Converged | Verdict::AtLimit => true,
        Verdict::NotConverged { .. } => false,
    }
}

/// Whether another iteration is allowed.
fn may_repeat(plan: &Plan, part: PartId, clock: Clock) -> bool
    requires { part < length plan.now.parts }
    ensures { IsTrue result → clock.iteration < option_map_or (iterations_of plan.now) (group_of plan.now part) 0 }
{
    let group = plan.part(part).group;
    match group {
        Some(scheme) => clock.iteration < most_iterations(plan, scheme),
        None => false,
    }
}

/// The greatest number of iterations of a scheme.
fn most_iterations(plan: &Plan, scheme: SchemeId) -> u32
    ensures { result ≡ iterations_of plan.now scheme }
{
    match plan.parts().schemes.as_slice().get(scheme as usize) {
        Some(scheme) => scheme.max,
        None => 0,
    }
}

/// Whether a fault is of the participant's scheme in this turn.
fn may_fault(plan: &Plan, part: PartId, clock: Clock, fault: Fault) -> bool
    requires { part < length plan.now.parts }
    ensures { IsTrue result → (c : Course) → c.turn.window ≡ clock.window → c.turn.iteration ≡ clock.iteration → MayFault plan.now part c fault }
{
    match fault {
        Fault::Relax {
            scheme,
            window,
            iteration,
            ..
        } => is_of_turn(plan, part, clock, scheme, window, iteration),
        Fault::NotConverged {
            scheme,
            window,
            iteration,
            ..
        } => is_of_turn(plan, part, clock, scheme, window, iteration),
        _ => false,
    }
}

fn is_of_turn(
    plan: &Plan,
    part: PartId,
    clock: Clock,
    scheme: SchemeId,
    window: u32,
    iteration: u32,
) -> bool
    requires { part < length plan.now.parts }
    ensures { IsTrue result → (c : Course) → c.turn.window ≡ clock.window → c.turn.iteration ≡ clock.iteration
        → IsOfTurn plan.now part c scheme window iteration }
{
    plan.part(part).group == Some(scheme) && window == clock.window && iteration == clock.iteration
}
