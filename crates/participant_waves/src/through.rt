ghost use Rattle.std.specs.Prelude.{◌≡◌, ◌≤◌, length, Ok, IfOk, IfErr};
ghost use Rattle.mesh_data.specs.AnyMeshes.{dimensions_of, vertices_of};
ghost use Rattle.wave_coupling.specs.Posts.{Wave as AWave};
ghost use Rattle.wave_coupling.specs.Mapped.{mapped_wave};
ghost use Rattle.participant_waves.specs.Passages.{CanPass, HasSources, HasTargets, IsPassCause, through};

use cpl_plan::MapPlan;
use fixed_num::Memory;
use mesh_data::AnyMesh;
use std::alloc::Global;
use std::marker::Model;
use wave_maps::{WaveMap, WaveRefusal};
use waveform::Wave;

/// What the waves of an exchange go through: a mapping that was made once, or nothing. Contracts see it as
/// the mapping.
#[derive(Drop)]
pub struct Through {
    map: Option<WaveMap>,
    /// How many vertices the mesh has that is mapped to.
    vertices: usize,
}

impl Model for Through {
    ghost use Rattle.std.specs.Prelude.{Option};
    ghost use Rattle.wave_maps.specs.declared.wave_map.WaveMap.{WaveMap};
    ghost use Rattle.participant_waves.specs.Passages.{HasTargets};

    ghost Value = { Option WaveMap };

    ghost view = { λ t. t.map };

    ghost invariant = { λ t. HasTargets t.vertices t.map };
}

impl Through {
    /// The mapping of a plan between two meshes, or none.
    pub fn build(
        alloc: Global,
        map: Option<MapPlan>,
        from: &AnyMesh,
        to: &AnyMesh,
    ) -> Result<Through, Memory>
        requires alike { dimensions_of from.now ≡ dimensions_of to.now }
        requires some_from { 1 ≤ length (vertices_of from.now) }
        requires some_to { 1 ≤ length (vertices_of to.now) }
        ensures mapped { IfOk result (λ t. (wave : AWave)
            → mapped_wave map (vertices_of from.now) (vertices_of to.now) wave ≡ through t wave) }
        ensures sources { IfOk result (HasSources (length (vertices_of from.now))) }
    {
        Ok(Through {
            map: build_map(alloc, map, from, to)?,
            vertices: to.len(),
        })
    }

    /// The wave mapped, or as it is.
    pub fn pass(&self, alloc: Global, wave: Wave) -> Result<Wave, WaveRefusal>
        requires fields { CanPass self.now wave }
        ensures passed { IfOk result (λ out. through self.now wave ≡ Ok out) }
        ensures refused { IfErr result (IsPassCause self.now wave) }
    {
        match &self.map {
            Some(map) => map.map_wave(alloc, &wave, self.vertices),
            None => Ok(wave),
        }
    }
}

/// The mapping of a plan between two meshes, or none.
pub(crate) fn build_map(
    alloc: Global,
    map: Option<MapPlan>,
    from: &AnyMesh,
    to: &AnyMesh,
) -> Result<Option<WaveMap>, Memory>
    requires alike { dimensions_of from.now ≡ dimensions_of to.now }
    requires some_from { 1 ≤ length (vertices_of from.now) }
    requires some_to { 1 ≤ length (vertices_of to.now) }
    ensures mapped { IfOk result (λ made. (wave : AWave)
        → mapped_wave map (vertices_of from.now) (vertices_of to.now) wave ≡ through made wave) }
    ensures sources { IfOk result (HasSources (length (vertices_of from.now))) }
    ensures targets { IfOk result (HasTargets (length (vertices_of to.now))) }
{
    match map {
        Some(map) => Ok(Some(WaveMap::build(alloc, &map, from, to)?)),
        None => Ok(None),
    }
}
