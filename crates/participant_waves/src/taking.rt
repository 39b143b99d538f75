ghost use Rattle.std.specs.Prelude.{◌≡◌, ◌<◌, length, slice_get, Some, Ok, IfOk, IfErr, IsTrue};
ghost use Rattle.std.specs.Option.{option_map};
ghost use Rattle.cpl_plan.specs.declared.parts.Exchange.{Exchange as AnExchange};
ghost use Rattle.participant_words.specs.KnownByReply.{known_by};
ghost use Rattle.participant_waves.specs.KnownMeshes.{HasMeshes};
ghost use Rattle.participant_waves.specs.Passages.{CanPass, IsPassCause, through};
ghost use Rattle.participant_waves.specs.TakesStand.{IsTaking};
ghost use Rattle.participant_waves.specs.TakenWaves.{wave_taken};
ghost use Rattle.participant_waves.specs.Refusals.{IsNoTake};

use crate::known_meshes::{known_mesh, map_at, read_mesh};
use crate::no_waves::NoTake;
use crate::through::build_map;
use core_sides::Input;
use cpl_plan::{Fault, Plan};
use fixed_num::{Memory, Value};
use mesh_data::AnyMesh;
use plan_order::{ExchangeId, PartId};
use std::alloc::Global;
use std::marker::Model;
use wave_maps::{WaveMap, WaveRefusal};
use waveform::{Field, Wave};

/// An exchange that a participant receives, with its read mapping. Contracts see its number and the
/// mapping; what is kept beside them saves work alone.
#[derive(Drop)]
pub struct Taking {
    exchange: ExchangeId,
    map: Option<WaveMap>,
    /// How many vertices the mesh has that is mapped to.
    vertices: usize,
    /// The first field that was mapped last. All inputs of a window begin with the same one, so that it is
    /// mapped once a window.
    first: Option<First>,
}

/// A field and what it is mapped to.
#[derive(Drop)]
pub(crate) struct First {
    given: Field,
    mapped: Field,
}

impl Model for Taking {
    ghost use Rattle.participant_waves.specs.Passages.{HasTargets};
    ghost use Rattle.participant_waves.specs.TakingKept.{TakingKept};
    ghost use Rattle.participant_waves.specs.FirstMapped.{IsFirstOf};

    ghost Value = { TakingKept };

    ghost view = { λ t. record { exchange = t.exchange; map = t.map } };

    ghost invariant = { λ t. HasTargets t.vertices t.map × IsFirstOf t.map t.first };
}

impl Taking {
    /// Exchange `x` of the plan, as its reader takes it between the meshes that it knows.
    pub(crate) fn make(
        alloc: Global,
        plan: &Plan,
        part: PartId,
        x: ExchangeId,
        own: &[AnyMesh],
        received: &[AnyMesh],
    ) -> Result<Taking, Memory>
        requires exchange { x < length plan.now.exchanges }
        requires reader { option_map (λ (e : AnExchange). e.to) (slice_get plan.now.exchanges x) ≡ Some part }
        requires meshes { HasMeshes plan.now part own.now received.now }
        ensures number { IfOk result (λ t. t.exchange ≡ x) }
        ensures taking { IfOk result (IsTaking plan.now part (known_by plan.now part own.now received.now)) }
    {
        // What the plan says of itself is valid.
        let _parts = plan.parts();
        let exchange = *plan.exchange(x);
        let mesh = read_mesh(plan, part, &exchange);
        let from = known_mesh(plan, part, own, received, exchange.mesh);
        let to = known_mesh(plan, part, own, received, mesh);
        Ok(Taking {
            exchange: x,
            map: build_map(alloc, map_at(plan, part, exchange.read_map), from, to)?,
            vertices: to.len(),
            first: None,
        })
    }

    /// The number of the exchange.
    pub fn exchange(&self) -> ExchangeId
        ensures { result ≡ self.now.exchange }
    {
        self.exchange
    }

    /// The wave of an input of a turn as it is read.
    pub(crate) fn take_input(
        &mut self,
        alloc: Global,
        part: PartId,
        window: u32,
        iteration: u32,
        input: &Input,
    ) -> Result<Wave, NoTake>
        requires { CanPass self.old.map input.now.wave }
        ensures unchanged { self.new ≡ self.old }
        ensures taken { IfOk result (λ wave. wave_taken part window iteration (self.old, input.now) ≡ Ok wave) }
        ensures refused { IfErr result (IsNoTake (wave_taken part window iteration (self.old, input.now))) }
    {
        let exchange = self.exchange();
        match self.take(alloc, &input.wave) {
            Ok(wave) => Ok(wave),
            Err(WaveRefusal::Memory) => Err(NoTake::Memory),
            Err(
                WaveRefusal::OutOfRange {
                    time,
                    vertex,
                    component,
                },
            ) => Err(NoTake::Overflow(Fault::ReadMap {
                part,
                window,
                iteration,
                exchange,
                time,
                vertex,
                component,
            })),
        }
    }

    /// The wave mapped, or a copy where there is no mapping.
    fn take(&mut self, alloc: Global, wave: &Wave) -> Result<Wave, WaveRefusal>
        requires { CanPass self.old.map wave.now }
        ensures unchanged { self.new ≡ self.old }
        ensures taken { IfOk result (λ out. through self.old.map wave.now ≡ Ok out) }
        ensures refused { IfErr result (IsPassCause self.old.map wave.now) }
    {
        // Its length tells that a wave has a first sample.
        let _samples = wave.len();
        let map = match &self.map {
            Some(map) => map,
            None => return Ok(wave.copy(alloc)?),
        };
        if let Some(first) = &self.first {
            if is_same(&first.given, wave.field(0)) {
                let mapped = first.mapped.copy(alloc)?;
                return map.map_rest(alloc, mapped, wave, self.vertices);
            }
        }
        let out = map.map_wave(alloc, wave, self.vertices)?;
        let first = First {
            given: wave.field(0).copy(alloc)?,
            mapped: out.field(0).copy(alloc)?,
        };
        self.first = Some(first);
        Ok(out)
    }
}

/// Whether two fields are equal.
fn is_same(one: &Field, other: &Field) -> bool
    ensures { IsTrue result → one.now ≡ other.now }
{
    if one.components != other.components {
        return false;
    }
    are_same(one.values.as_slice(), other.values.as_slice())
}

/// Whether values are equal, each to each.
fn are_same(one: &[Value], other: &[Value]) -> bool
    ensures { IsTrue result → one.now ≡ other.now }
{
    if one.len() != other.len() {
        return false;
    }
    for i in 0..one.len() {
        if one[i].get() != other[i].get() {
            return false;
        }
    }
    true
}
