//! The meshes that a participant receives, as their owners have posted them.

ghost use Rattle.std.specs.Prelude.{◌≡◌, ◌<◌, ◌++◌, length, nat_eq, position, slice_get, option_to_list, IfOk, OnOk};
ghost use Rattle.std.specs.Option.{option_and_then, option_copied};
ghost use Rattle.cpl_plan.specs.declared.parts.PlanParts.{PlanParts};
ghost use Rattle.wave_coupling.specs.Known.{provided_by};
ghost use Rattle.core_sides.specs.CoreWords.{WaveState};
ghost use Rattle.core_sides.specs.PostedMeshes.{mesh_among, mesh_posted};
ghost use Rattle.core_sides.specs.SidesStand.{AreStanding};
ghost use Rattle.core_takes.specs.Collected.{HaveSent, collected_meshes};

use core_sides::{Sides, Standing};
use cpl_plan::Plan;
use fixed_num::{Items, Memory};
use mesh_data::AnyMesh;
use plan_order::{MeshId, PartId};
use std::alloc::Global;

/// Copies of the meshes that a participant receives, in order.
///
/// # Errors
///
/// `Memory`.
pub fn received_meshes(
    alloc: Global,
    plan: &Plan,
    sides: &Sides,
    p: PartId,
) -> Result<Items<AnyMesh>, Memory>
    requires participant { p < length plan.now.parts }
    ensures collected { IfOk result (λ meshes. (state : WaveState)
        → AreStanding plan.now sides.now state → HaveSent plan.now state p
        → meshes ≡ collected_meshes plan.now state p) }
{
    let _valid = plan.parts();
    let numbers = plan.part(p).receives.as_slice();
    let mut meshes = Vec::new(alloc);
    for i in 0..numbers.len() {
        push_copy(alloc, &mut meshes, posted_mesh(plan, sides, numbers[i]))?;
    }
    Ok(Items::from_vec(meshes))
}

/// Adds a copy of a mesh, if there is one.
fn push_copy(alloc: Global, meshes: &mut Vec<AnyMesh>, mesh: Option<&AnyMesh>) -> Result<(), Memory>
    ensures { OnOk result (meshes.new.items ≡ meshes.old.items ++ option_to_list (option_copied mesh.entry)) }
{
    match mesh {
        Some(mesh) => {
            meshes.push(mesh.copy(alloc)?)?;
            Ok(())
        }
        None => Ok(()),
    }
}

/// A mesh as its owner has posted it.
fn posted_mesh<'a>(plan: &Plan, sides: &'a Sides, number: MeshId) -> Option<&'a AnyMesh>
    ensures { (state : WaveState) → AreStanding plan.now sides.now state
        → option_copied result ≡ mesh_posted plan.now state number }
{
    match plan.parts().meshes.as_slice().get(number as usize) {
        Some(mesh) => mesh_of(plan, sides, mesh.owner, number),
        None => None,
    }
}

/// A mesh of an owner, once that has posted its own.
fn mesh_of<'a>(plan: &Plan, sides: &'a Sides, owner: PartId, number: MeshId) -> Option<&'a AnyMesh>
    ensures { (state : WaveState) → AreStanding plan.now sides.now state
        → option_copied result
        ≡ option_and_then (mesh_among plan.now owner number) (state owner).sent }
{
    match sent_by(sides, owner) {
        Some(sent) => mesh_among(plan, owner, number, sent.as_slice()),
        None => None,
    }
}

/// The meshes that a participant has posted.
fn sent_by<'a>(sides: &'a Sides, owner: PartId) -> Option<&'a Items<AnyMesh>>
    ensures { (plan : PlanParts) (state : WaveState) → AreStanding plan sides.now state
        → option_copied result ≡ (state owner).sent }
{
    match standing_of(sides, owner) {
        Some(standing) => standing.sent.as_ref(),
        None => None,
    }
}

/// Where a participant stands.
fn standing_of(sides: &Sides, owner: PartId) -> Option<&Standing>
    ensures { option_copied result ≡ slice_get sides.now.standings.items owner }
{
    sides.standings.get(owner as usize)
}

/// The mesh of a number among those that its owner provides.
fn mesh_among<'a>(
    plan: &Plan,
    owner: PartId,
    number: MeshId,
    sent: &'a [AnyMesh],
) -> Option<&'a AnyMesh>
    ensures { option_copied result ≡ mesh_among plan.now owner number sent.now }
{
    match place_of(provided_by(plan, owner), number) {
        Some(place) => sent.get(place),
        None => None,
    }
}

/// The meshes that a participant provides, by their numbers.
fn provided_by(plan: &Plan, owner: PartId) -> &[MeshId]
    ensures { result.now ≡ provided_by plan.now owner owner }
{
    match plan.parts().parts.as_slice().get(owner as usize) {
        Some(part) => part.provides.as_slice(),
        None => &[],
    }
}

/// The first place of a mesh.
fn place_of(numbers: &[MeshId], number: MeshId) -> Option<usize>
    ensures { result ≡ position (nat_eq number) numbers.now }
{
    for place in 0..numbers.len() {
        if number == numbers[place] {
            return Some(place);
        }
    }
    None
}
