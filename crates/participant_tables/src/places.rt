//! Places in lists of numbers.
ghost use Rattle.std.specs.Prelude.{◌≡◌, ◌<◌, length, map, nat_eq, position, All, IsTrue};
ghost use Rattle.std.specs.Option.{option_map, option_map_or};
ghost use Rattle.std.specs.Str.{bytes_eq};
ghost use Rattle.cpl_plan.specs.PlanWords.{are_distinct, components};
ghost use Rattle.wave_coupling.specs.Known.{provided_by};
ghost use Rattle.participant_tables.specs.Named.{mesh_name};
ghost use Rattle.cpl_plan.specs.declared.parts.MeshPlan.{MeshPlan as MeshRecord};
ghost use Rattle.participant_tables.specs.WriteSteps.{entry_components, place_of};

use cpl_plan::{DataPlan, MeshId, MeshPlan, PartId, Plan, PlanEntry};

/// The place of a number in a list, if it is there.
pub(crate) fn place_in(list: &[u32], number: u32) -> Option<usize>
    ensures { result ≡ position (nat_eq number) list.now }
{
    list.iter().position(|other| number == *other)
}

/// The meshes that a participant provides: each is there, and no two have one name.
pub(crate) fn provided(plan: &Plan, part: PartId) -> &[MeshId]
    requires { part < length plan.now.parts }
    ensures meshes { result.now ≡ provided_by plan.now part part }
    ensures there { All (λ mesh. mesh < length plan.now.meshes) result.now }
    ensures apart { IsTrue (are_distinct bytes_eq (map (mesh_name plan.now) result.now)) }
{
    plan.parts().parts.as_slice()[part as usize]
        .provides
        .as_slice()
}

/// The place of a mesh among those that the participant provides.
pub(crate) fn place_of(plan: &Plan, part: PartId, mesh: MeshId) -> usize
    requires { part < length plan.now.parts }
    ensures { result ≡ place_of plan.now part mesh }
{
    match place_in(provided(plan, part), mesh) {
        Some(place) => place,
        None => 0,
    }
}

/// How many components an entry has at each vertex.
pub(crate) fn components_of(plan: &Plan, entry: PlanEntry) -> u32
    ensures { result ≡ entry_components plan.now entry }
{
    let parts = plan.parts();
    match parts.data_list.as_slice().get(entry.data_id as usize) {
        Some(item) => components_on(item, parts.meshes.as_slice().get(entry.mesh as usize)),
        None => 0,
    }
}

fn components_on(item: &DataPlan, mesh: Option<&MeshPlan>) -> u32
    ensures { result ≡ option_map_or (λ (m : MeshRecord). components item.now m) (option_map (λ m. m.now) mesh.entry) 0 }
{
    match mesh {
        Some(mesh) => { if item.vector { mesh.dimensions } else { 1 } }
        None => 0,
    }
}
