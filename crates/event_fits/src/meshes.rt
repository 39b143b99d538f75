//! The meshes of a coupling: those that a participant gives, and those that were posted.

ghost use Rattle.std.specs.Prelude.{◌≡◌, IsTrue, length, nat_eq, position, slice_get};
ghost use Rattle.std.specs.Option.{option_and_then, option_copied};
ghost use Rattle.cpl_plan.specs.declared.parts.PlanParts.{PlanParts};
ghost use Rattle.wave_coupling.specs.Known.{provided_by};
ghost use Rattle.core_sides.specs.CoreWords.{WaveState};
ghost use Rattle.core_sides.specs.PostedMeshes.{AreProvided, IsOfPlan, mesh_among, mesh_posted};
ghost use Rattle.core_sides.specs.SidesStand.{AreStanding};

use core_sides::{Sides, Standing};
use cpl_plan::{MeshId, PartId, Plan};
use fixed_num::Items;
use mesh_data::AnyMesh;

/// Whether these are the meshes that a participant provides, one for each, in order.
pub(crate) fn are_provided(plan: &Plan, p: PartId, meshes: &[AnyMesh]) -> bool
    ensures { IsTrue result → AreProvided plan.now p meshes.now }
{
    let numbers = provided_by(plan, p);
    if meshes.len() != numbers.len() {
        return false;
    }
    for i in 0..numbers.len() {
        if !is_of_plan(plan, numbers[i], &meshes[i]) {
            return false;
        }
    }
    true
}

/// Whether a mesh has the plan's dimensions and is not empty.
fn is_of_plan(plan: &Plan, number: MeshId, mesh: &AnyMesh) -> bool
    ensures { IsTrue result → IsOfPlan plan.now number mesh.now }
{
    match plan.parts().meshes.as_slice().get(number as usize) {
        Some(wanted) => wanted.dimensions as usize == mesh.dimensions() && mesh.len() >= 1,
        None => false,
    }
}

/// A mesh as its owner has posted it.
pub(crate) fn posted_mesh<'a>(plan: &Plan, sides: &'a Sides, number: MeshId) -> Option<&'a AnyMesh>
    ensures { (state : WaveState) → AreStanding plan.now sides.now state
        → option_copied result ≡ mesh_posted plan.now state number }
{
    match plan.parts().meshes.as_slice().get(number as usize) {
        Some(mesh) => mesh_of(plan, sides, mesh.owner, number),
        None => None,
    }
}

/// A mesh of an owner, once that has posted its own.
fn mesh_of<'a>(plan: &Plan, sides: &'a Sides, owner: PartId, number: MeshId) -> Option<&'a AnyMesh>
    ensures { (state : WaveState) → AreStanding plan.now sides.now state
        → option_copied result
        ≡ option_and_then (mesh_among plan.now owner number) (state owner).sent }
{
    match sent_by(sides, owner) {
        Some(sent) => mesh_among(plan, owner, number, sent.as_slice()),
        None => None,
    }
}

/// The meshes that a participant has posted.
fn sent_by<'a>(sides: &'a Sides, owner: PartId) -> Option<&'a Items<AnyMesh>>
    ensures { (plan : PlanParts) (state : WaveState) → AreStanding plan sides.now state
        → option_copied result ≡ (state owner).sent }
{
    match standing_of(sides, owner) {
        Some(standing) => standing.sent.as_ref(),
        None => None,
    }
}

/// Where a participant stands.
pub(crate) fn standing_of(sides: &Sides, owner: PartId) -> Option<&Standing>
    ensures { option_copied result ≡ slice_get sides.now.standings.items owner }
{
    sides.standings.get(owner as usize)
}

/// The mesh of a number among those that its owner provides.
fn mesh_among<'a>(
    plan: &Plan,
    owner: PartId,
    number: MeshId,
    sent: &'a [AnyMesh],
) -> Option<&'a AnyMesh>
    ensures { option_copied result ≡ mesh_among plan.now owner number sent.now }
{
    match place_of(provided_by(plan, owner), number) {
        Some(place) => sent.get(place),
        None => None,
    }
}

/// The meshes that a participant provides, by their numbers.
fn provided_by(plan: &Plan, owner: PartId) -> &[MeshId]
    ensures { result.now ≡ provided_by plan.now owner owner }
{
    match plan.parts().parts.as_slice().get(owner as usize) {
        Some(part) => part.provides.as_slice(),
        None => &[],
    }
}

/// The first place of a mesh.
fn place_of(numbers: &[MeshId], number: MeshId) -> Option<usize>
    ensures { result ≡ position (nat_eq number) numbers.now }
{
    for place in 0..numbers.len() {
        if number == numbers[place] {
            return Some(place);
        }
    }
    None
}
