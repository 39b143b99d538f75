ghost use Rattle.std.specs.Prelude.{◌≡◌, ◌<◌, ◌≤◌, ◌&&◌, [], ◌∷◌, nat_eq, length, position, slice_get, Some, Ok, IfOk, IfErr};
ghost use Rattle.std.specs.Option.{option_map};
ghost use Rattle.cpl_plan.specs.declared.parts.Exchange.{Exchange as AnExchange};
ghost use Rattle.cpl_plan.specs.declared.parts.PlanEntry.{PlanEntry as AnEntry};
ghost use Rattle.participant_words.specs.KnownByReply.{known_by};
ghost use Rattle.participant_waves.specs.KnownMeshes.{HasMeshes};
ghost use Rattle.participant_waves.specs.Passages.{CanPass, through};
ghost use Rattle.participant_waves.specs.SendsStand.{CanSend, CanSendInitial, IsSending};
ghost use Rattle.participant_waves.specs.SentWaves.{field_at, initial_wave_sent, samples_of, sent_or_fault, wave_sent};
ghost use Rattle.participant_waves.specs.Refusals.{IsNoPost};

use crate::copies::{chosen_wave, constant};
use crate::known_meshes::{known_mesh, map_at, write_mesh};
use crate::no_waves::NoPost;
use crate::through::Through;
use cpl_plan::{Exchange, Fault, Plan, PlanEntry};
use fixed_num::Memory;
use mesh_data::AnyMesh;
use participant_tables::WriteTable;
use plan_order::{DataId, ExchangeId, MeshId, PartId};
use std::alloc::Global;
use wave_maps::WaveRefusal;
use waveform::{Field, Sample, Wave};

/// An exchange that a participant sends, with all that its waves need.
#[derive(Drop)]
pub struct Sending {
    /// Its number.
    pub exchange: ExchangeId,
    /// What the plan says of it.
    pub sent: Exchange,
    /// The place, among the entries that are written, of the one that is sent.
    pub entry: usize,
    /// How many components its data have at each vertex.
    pub components: u32,
    /// How many vertices the mesh has on which the data go over.
    pub vertices: usize,
    /// The write mapping, or none.
    pub map: Through,
}

impl Sending {
    /// Exchange `x` of the plan, as its sender sends it between the meshes that it knows.
    pub(crate) fn make(
        alloc: Global,
        plan: &Plan,
        part: PartId,
        x: ExchangeId,
        own: &[AnyMesh],
        received: &[AnyMesh],
    ) -> Result<Sending, Memory>
        requires exchange { x < length plan.now.exchanges }
        requires sender { option_map (λ (e : AnExchange). e.from) (slice_get plan.now.exchanges x) ≡ Some part }
        requires meshes { HasMeshes plan.now part own.now received.now }
        ensures number { IfOk result (λ s. s.exchange ≡ x) }
        ensures sending { IfOk result (IsSending plan.now part (known_by plan.now part own.now received.now)) }
    {
        // What the plan says of itself is valid.
        let _parts = plan.parts();
        let exchange = *plan.exchange(x);
        let mesh = write_mesh(plan, part, &exchange);
        let from = known_mesh(plan, part, own, received, mesh);
        let to = known_mesh(plan, part, own, received, exchange.mesh);
        let entries = plan.part(part).writes.as_slice();
        let entry = place_of(entries, exchange.data_id, mesh).unwrap();
        Ok(Sending {
            exchange: x,
            sent: exchange,
            entry,
            components: plan.components(exchange.data_id, exchange.mesh),
            vertices: to.len(),
            map: Through::build(alloc, map_at(plan, part, exchange.write_map), from, to)?,
        })
    }

    /// The wave of a turn that is posted of the samples of its entry.
    pub(crate) fn turn_wave(
        &self,
        alloc: Global,
        part: PartId,
        window: u32,
        iteration: u32,
        writes: &WriteTable,
    ) -> Result<Wave, NoPost>
        requires { CanSend writes.now self.now }
        ensures posted { IfOk result (λ wave. wave_sent part window iteration self.now (samples_of writes.now self.now) ≡ Ok wave) }
        ensures refused { IfErr result (IsNoPost (wave_sent part window iteration self.now (samples_of writes.now self.now))) }
    {
        self.wave_of_samples(alloc, part, window, iteration, writes.samples(self.entry))
    }

    /// The initial wave that is posted of the values of its entry, as they stand.
    pub(crate) fn initial_wave(
        &self,
        alloc: Global,
        part: PartId,
        writes: &WriteTable,
    ) -> Result<Wave, NoPost>
        requires { CanSendInitial writes.now self.now }
        ensures posted { IfOk result (λ wave. initial_wave_sent part self.now (field_at writes.now self.now) ≡ Ok wave) }
        ensures refused { IfErr result (IsNoPost (initial_wave_sent part self.now (field_at writes.now self.now))) }
    {
        let field = writes.field(alloc, self.entry)?;
        self.wave_of_field(alloc, part, field)
    }

    /// The wave of a turn that is posted of these samples.
    fn wave_of_samples(
        &self,
        alloc: Global,
        part: PartId,
        window: u32,
        iteration: u32,
        samples: &[Sample],
    ) -> Result<Wave, NoPost>
        requires some { 1 ≤ length samples.now }
        requires fields { CanPass self.now.map samples.now }
        ensures posted { IfOk result (λ wave. wave_sent part window iteration self.now samples.now ≡ Ok wave) }
        ensures refused { IfErr result (IsNoPost (wave_sent part window iteration self.now samples.now)) }
    {
        let wave = chosen_wave(alloc, self.sent.substeps, samples)?;
        self.pass(alloc, part, window, iteration, wave)
    }

    /// The initial wave that is posted of this field.
    fn wave_of_field(&self, alloc: Global, part: PartId, field: Field) -> Result<Wave, NoPost>
        requires { CanPass self.now.map (record { time = 0; field = field } ∷ []) }
        ensures posted { IfOk result (λ wave. initial_wave_sent part self.now field ≡ Ok wave) }
        ensures refused { IfErr result (IsNoPost (initial_wave_sent part self.now field)) }
    {
        if !self.sent.initialize {
            let zeros = Field::zeros(alloc, self.vertices, self.components)?;
            return Ok(constant(alloc, 0, zeros)?);
        }
        let wave = constant(alloc, 0, field)?;
        self.pass(alloc, part, 0, 0, wave)
    }

    /// The wave as it goes over, or the fault of its mapping.
    fn pass(
        &self,
        alloc: Global,
        part: PartId,
        window: u32,
        iteration: u32,
        wave: Wave,
    ) -> Result<Wave, NoPost>
        requires { CanPass self.now.map wave }
        ensures posted { IfOk result (λ out. sent_or_fault part window iteration self.now.exchange (through self.now.map wave) ≡ Ok out) }
        ensures refused { IfErr result (IsNoPost (sent_or_fault part window iteration self.now.exchange (through self.now.map wave))) }
    {
        match self.map.pass(alloc, wave) {
            Ok(out) => Ok(out),
            Err(WaveRefusal::Memory) => Err(NoPost::Memory),
            Err(
                WaveRefusal::OutOfRange {
                    time,
                    vertex,
                    component,
                },
            ) => Err(NoPost::Overflow(Fault::WriteMap {
                part,
                window,
                iteration,
                exchange: self.exchange,
                time,
                vertex,
                component,
            })),
        }
    }
}

/// The place of the first entry of these data on this mesh, if it is there.
pub(crate) fn place_of(entries: &[PlanEntry], data_id: DataId, mesh: MeshId) -> Option<usize>
    ensures { result ≡ position (λ (entry : AnEntry). nat_eq entry.data_id data_id && nat_eq entry.mesh mesh) entries.now }
{
    entries
        .iter()
        .position(|entry| entry.data_id == data_id && entry.mesh == mesh)
}
