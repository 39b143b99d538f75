ghost use Rattle.std.specs.Prelude.{◌≡◌, ◌<◌, nat_eq, position, length};
ghost use Rattle.mesh_data.specs.AnyMeshes.{vertices_of};
ghost use Rattle.wave_coupling.specs.Known.{map_at, points_of, read_mesh, write_mesh};
ghost use Rattle.participant_words.specs.KnownByReply.{known_by};
ghost use Rattle.participant_waves.specs.KnownMeshes.{HasMeshes, IsKnownTo, IsMeshOf};

use cpl_plan::{Exchange, MapPlan, Plan};
use mesh_data::AnyMesh;
use plan_order::{MeshId, PartId};

/// The mesh of a number, of those that the participant provides and receives.
pub(crate) fn known_mesh<'a>(
    plan: &Plan,
    part: PartId,
    own: &'a [AnyMesh],
    received: &'a [AnyMesh],
    mesh: MeshId,
) -> &'a AnyMesh
    requires meshes { HasMeshes plan.now part own.now received.now }
    requires mesh { IsKnownTo plan.now part mesh }
    ensures points { points_of plan.now part (known_by plan.now part own.now received.now) mesh ≡ vertices_of result.now }
    ensures of_plan { IsMeshOf plan.now mesh result.now }
{
    // What the plan says of itself is valid.
    let _parts = plan.parts();
    let participant = plan.part(part);
    match place_in(participant.provides.as_slice(), mesh) {
        Some(place) => &own[place],
        None => {
            let place = place_in(participant.receives.as_slice(), mesh).unwrap();
            &received[place]
        }
    }
}

/// The place of a number in a list, if it is there.
pub(crate) fn place_in(list: &[u32], number: u32) -> Option<usize>
    ensures { result ≡ position (nat_eq number) list.now }
{
    list.iter().position(|other| number == *other)
}

/// The mapping at a place among the participant's.
pub(crate) fn map_at(plan: &Plan, part: PartId, place: Option<u32>) -> Option<MapPlan>
    requires { part < length plan.now.parts }
    ensures { result ≡ map_at plan.now part place }
{
    match place {
        Some(place) => plan.part(part).maps.as_slice().get(place as usize).copied(),
        None => None,
    }
}

/// The mesh on which an exchange's data are written.
pub(crate) fn write_mesh(plan: &Plan, part: PartId, exchange: &Exchange) -> MeshId
    requires { part < length plan.now.parts }
    ensures { result ≡ write_mesh plan.now part exchange.now }
{
    match map_at(plan, part, exchange.write_map) {
        Some(map) => map.from,
        None => exchange.mesh,
    }
}

/// The mesh on which an exchange's data are read.
pub(crate) fn read_mesh(plan: &Plan, part: PartId, exchange: &Exchange) -> MeshId
    requires { part < length plan.now.parts }
    ensures { result ≡ read_mesh plan.now part exchange.now }
{
    match map_at(plan, part, exchange.read_map) {
        Some(map) => map.to,
        None => exchange.mesh,
    }
}
