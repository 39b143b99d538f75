ghost use Rattle.std.specs.Prelude.{◌≡◌, ◌<◌, ◌≤◌, ◌^◌, [], ◌∷◌, ◌++◌, All, Ok, length, slice_index_or, IfOk, IfErr, OnOk};
ghost use Rattle.mesh_data.specs.AnyMeshes.{dimensions_of, vertices_of};
ghost use Rattle.waveform.specs.declared.field.Field.{Field as AField};
ghost use Rattle.waveform.proofs.Places.{no_sample};
ghost use Rattle.nn_mapping.specs.MappedField.{IsFieldOn};
ghost use Rattle.edge_projection.specs.EdgeMapping.{searched};
ghost use Rattle.wave_coupling.specs.Mapped.{mapped_by};
ghost use Rattle.wave_maps.specs.MappedThrough.{mapped_with, mapped_at, mapped_through, edges_between, sources_of, targets_of};
ghost use Rattle.wave_maps.specs.Refusals.{IsFieldCause, IsSampleCause, IsWaveCause};

use crate::edges::chain;
use crate::map_errors::{FieldRefusal, WaveRefusal};
use cpl_plan::MapPlan;
use edge_projection::{EdgeTable, SumErr};
use fixed_num::Memory;
use mesh_data::AnyMesh;
use nn_mapping::{ApplyErr, MapTable};
use std::alloc::Global;
use waveform::{Field, Wave};

/// A mapping between two meshes: onto nearest vertices, or onto edges.
#[derive(Drop)]
pub enum WaveMap {
    /// To or from the nearest vertex.
    Nearest(MapTable),
    /// To or from the nearest point on the edges between consecutive vertices.
    Edges(EdgeTable),
}

impl WaveMap {
    /// The mapping of a plan, from one mesh to another of as many dimensions, neither of them empty.
    pub fn build(
        alloc: Global,
        map: &MapPlan,
        from: &AnyMesh,
        to: &AnyMesh,
    ) -> Result<WaveMap, Memory>
        requires alike { dimensions_of from.now ≡ dimensions_of to.now }
        requires some_from { 1 ≤ length (vertices_of from.now) }
        requires some_to { 1 ≤ length (vertices_of to.now) }
        ensures mapped { IfOk result (λ m. (field : AField)
            → mapped_with m field ≡ mapped_by map.now (vertices_of from.now) (vertices_of to.now) field) }
        ensures sources { IfOk result (λ m. sources_of m ≡ length (vertices_of from.now)) }
        ensures targets { IfOk result (λ m. targets_of m ≡ length (vertices_of to.now)) }
    {
        if map.projection {
            return build_edges(alloc, from, to, map.conservative);
        }
        match MapTable::build(alloc, from, to, map.conservative) {
            Ok(table) => Ok(WaveMap::Nearest(table)),
            Err(_) => Err(Memory),
        }
    }

    /// The mapped field, on as many vertices as the second mesh has.
    pub fn map_field(
        &self,
        alloc: Global,
        field: &Field,
        vertices: usize,
    ) -> Result<Field, FieldRefusal>
        requires field { IsFieldOn field.now (sources_of self.now) }
        requires vertices { vertices ≡ targets_of self.now }
        ensures mapped { IfOk result (λ mapped. mapped_with self.now field.now ≡ Ok mapped) }
        ensures refused { IfErr result (IsFieldCause self.now field.now) }
    {
        let mut out = Field::zeros(alloc, vertices, field.components)?;
        match self {
            WaveMap::Nearest(table) => apply_nearest(table, field, &mut out)?,
            WaveMap::Edges(table) => apply_edges(table, field, &mut out)?,
        }
        Ok(out)
    }

    /// The mapped wave: each sample's field mapped, at its time. It is refused at the first sample that
    /// cannot be mapped.
    pub fn map_wave(&self, alloc: Global, wave: &Wave, vertices: usize) -> Result<Wave, WaveRefusal>
        requires fields { All (λ s. IsFieldOn s.field (sources_of self.now)) wave.now }
        requires vertices { vertices ≡ targets_of self.now }
        ensures mapped { IfOk result (λ mapped. mapped_through self.now wave.now ≡ Ok mapped) }
        ensures refused { IfErr result (IsWaveCause self.now wave.now) }
    {
        // Its length tells that a wave has a first sample.
        let _samples = wave.len();
        let first = self.map_sample(alloc, wave, 0, vertices)?;
        self.map_rest(alloc, first, wave, vertices)
    }

    /// The mapped wave, where the mapped field of its first sample is there already: so what is the
    /// same in several waves is mapped once.
    pub fn map_rest(
        &self,
        alloc: Global,
        first: Field,
        wave: &Wave,
        vertices: usize,
    ) -> Result<Wave, WaveRefusal>
        requires first { mapped_at self.now (slice_index_or wave.now 0 no_sample)
            ≡ Ok (record { time = (slice_index_or wave.now 0 no_sample).time; field = first }) }
        requires fields { All (λ s. IsFieldOn s.field (sources_of self.now)) wave.now }
        requires vertices { vertices ≡ targets_of self.now }
        ensures mapped { IfOk result (λ mapped. mapped_through self.now wave.now ≡ Ok mapped) }
        ensures refused { IfErr result (IsWaveCause self.now wave.now) }
    {
        let samples = wave.len();
        let mut mapped = match Wave::constant(alloc, wave.time(0), first) {
            Ok(mapped) => mapped,
            Err(_) => return Err(WaveRefusal::Memory),
        };
        for i in 1..samples {
            let field = self.map_sample(alloc, wave, i, vertices)?;
            push_sample(&mut mapped, wave.time(i), field)?;
        }
        Ok(mapped)
    }

    /// The mapped field of sample `i`.
    fn map_sample(
        &self,
        alloc: Global,
        wave: &Wave,
        i: usize,
        vertices: usize,
    ) -> Result<Field, WaveRefusal>
        requires fields { All (λ s. IsFieldOn s.field (sources_of self.now)) wave.now }
        requires vertices { vertices ≡ targets_of self.now }
        requires sample { i < length wave.now }
        ensures mapped { IfOk result (λ field. mapped_at self.now (slice_index_or wave.now i no_sample)
            ≡ Ok (record { time = (slice_index_or wave.now i no_sample).time; field = field })) }
        ensures refused { IfErr result (IsSampleCause self.now (slice_index_or wave.now i no_sample)) }
    {
        match self.map_field(alloc, wave.field(i), vertices) {
            Ok(field) => Ok(field),
            Err(refusal) => Err(refusal.at(wave.time(i))),
        }
    }
}

/// The mapping onto the edges between consecutive vertices of the mesh that is searched.
fn build_edges(
    alloc: Global,
    from: &AnyMesh,
    to: &AnyMesh,
    conservative: bool,
) -> Result<WaveMap, Memory>
    requires alike { dimensions_of from.now ≡ dimensions_of to.now }
    ensures { IfOk result (λ m. m ≡ WaveMap.Edges (edges_between (vertices_of from.now) (vertices_of to.now) conservative)) }
{
    let edges = chain(alloc, searched_len(from, to, conservative))?;
    match EdgeTable::build(alloc, from, to, edges.as_slice(), conservative) {
        Ok(table) => Ok(WaveMap::Edges(table)),
        Err(_) => Err(Memory),
    }
}

/// How many vertices the mesh has whose edges are searched.
fn searched_len(from: &AnyMesh, to: &AnyMesh, conservative: bool) -> usize
    ensures len { result ≡ length (searched conservative (vertices_of from.now) (vertices_of to.now)) }
    ensures few { result ≤ 10 ^ 4 }
{
    if conservative { to.len() } else { from.len() }
}

/// Adds a sample to a wave. The times of a mapped wave rise and its fields are alike, so that only
/// memory can be wanting.
fn push_sample(mapped: &mut Wave, time: u64, field: Field) -> Result<(), WaveRefusal>
    ensures pushed { OnOk result (mapped.new ≡ mapped.old ++ record { time = time; field = field } ∷ []) }
    ensures refused { IfErr result (λ error. error ≡ WaveRefusal.Memory) }
{
    match mapped.push(time, field) {
        Ok(()) => Ok(()),
        Err(_) => Err(WaveRefusal::Memory),
    }
}

fn apply_nearest(table: &MapTable, field: &Field, out: &mut Field) -> Result<(), FieldRefusal>
    requires field { IsFieldOn field.now table.now.sources }
    requires out { IsFieldOn out.old table.now.targets }
    requires components { field.now.components ≡ out.old.components }
    ensures mapped { OnOk result (mapped_with (WaveMap.Nearest table.now) field.now ≡ Ok out.new) }
    ensures refused { IfErr result (IsFieldCause (WaveMap.Nearest table.now) field.now) }
{
    match table.apply(field, out) {
        Ok(()) => Ok(()),
        Err(ApplyErr::Overflow { vertex, component }) => {
            Err(FieldRefusal::OutOfRange { vertex, component })
        }
        Err(ApplyErr::Memory) => Err(FieldRefusal::Memory),
    }
}

fn apply_edges(table: &EdgeTable, field: &Field, out: &mut Field) -> Result<(), FieldRefusal>
    requires field { IsFieldOn field.now table.now.sources }
    requires out { IsFieldOn out.old table.now.targets }
    requires components { field.now.components ≡ out.old.components }
    ensures mapped { OnOk result (mapped_with (WaveMap.Edges table.now) field.now ≡ Ok out.new) }
    ensures refused { IfErr result (IsFieldCause (WaveMap.Edges table.now) field.now) }
{
    match table.apply(field, out) {
        Ok(()) => Ok(()),
        Err(SumErr::Overflow { vertex, component }) => {
            Err(FieldRefusal::OutOfRange { vertex, component })
        }
        Err(SumErr::Memory) => Err(FieldRefusal::Memory),
    }
}
