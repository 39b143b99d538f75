//! One entry that a participant writes.
ghost use Rattle.std.specs.Prelude.{◌≡◌, ◌+◌, ◌*◌, ◌&&◌, ◌<◌, ◌≤◌, [], nat_eq, length, All, IfOk, OnOk, OnErr};
ghost use Rattle.fixed_num.specs.Numbers.{IsValue};
ghost use Rattle.field_buffers.specs.Rows.{HasRow};
ghost use Rattle.participant_tables.specs.WriteKept.{AreSamples, TakesSample, field_of};
ghost use Rattle.participant_tables.specs.WriteSteps.{cleared, forgotten, grown, opening_write, sampled, shrunk, unsampled, written};

use crate::places::{components_of, place_of};
use cpl_plan::{DataId, PartId, Plan, PlanEntry};
use field_buffers::WriteBuffer;
use fixed_num::Memory;
use std::alloc::Global;
use std::marker::Model;
use waveform::{Field, Sample};

/// What a participant writes of one of its data on one of its meshes.
#[derive(Drop)]
pub(crate) struct WriteEntry {
    data_id: DataId,
    /// The place of the mesh among the provided ones.
    mesh: usize,
    buffer: WriteBuffer,
    /// What was written at the end of each step of this turn.
    samples: Vec<Sample>,
}

impl Model for WriteEntry {
    ghost use Rattle.participant_tables.specs.WriteKept.{WriteKept, AreSamples, kept_of};

    ghost Value = { WriteKept };

    ghost view = { λ e. kept_of e.data_id e.mesh e.buffer e.samples.items };

    ghost invariant = { λ e. AreSamples (kept_of e.data_id e.mesh e.buffer e.samples.items) };
}

impl WriteEntry {
    /// The entry with no vertex yet.
    pub(crate) fn new(alloc: Global, plan: &Plan, part: PartId, entry: PlanEntry) -> WriteEntry
        requires { part < length plan.now.parts }
        ensures { result ≡ opening_write plan.now part entry }
    {
        WriteEntry {
            data_id: entry.data_id,
            mesh: place_of(plan, part, entry.mesh),
            buffer: WriteBuffer::new(alloc, components_of(plan, entry)),
            samples: Vec::new(alloc),
        }
    }

    /// Whether it is of these data on the mesh at a place.
    pub(crate) fn is_at(&self, place: usize, data_id: DataId) -> bool
        ensures { result ≡ (nat_eq self.now.mesh place && nat_eq self.now.data_id data_id) }
    {
        self.mesh == place && self.data_id == data_id
    }

    pub(crate) fn components(&self) -> u32
        ensures { result ≡ self.now.components }
    {
        self.buffer.components()
    }

    pub(crate) fn samples(&self) -> &[Sample]
        ensures samples { result.now ≡ self.now.samples }
        ensures shape { AreSamples self.now }
    {
        self.samples.as_slice()
    }

    pub(crate) fn field(&self, alloc: Global) -> Result<Field, Memory>
        ensures { IfOk result (λ field. field ≡ field_of self.now) }
    {
        self.buffer.field(alloc)
    }

    /// Adds zeros for more vertices where the entry is on the mesh at a place.
    pub(crate) fn grow_on(&mut self, place: usize, more: usize) -> Result<(), Memory>
        requires { self.old.samples ≡ [] }
        ensures grown { OnOk result (self.new ≡ grown place more self.old) }
        ensures unchanged { OnErr result (self.new ≡ self.old) }
    {
        if self.mesh != place {
            return Ok(());
        }
        self.buffer.grow(more)
    }

    /// Keeps the first `before` vertices where the entry is on the mesh at a place, which has `more`
    /// beyond.
    pub(crate) fn shrink_on(&mut self, place: usize, before: usize, more: usize)
        requires fresh { self.old.samples ≡ [] }
        requires vertices { self.old.mesh ≡ place → length self.old.values ≡ (before + more) * self.old.components }
        ensures { self.new ≡ shrunk place before self.old }
    {
        if self.mesh == place && more > 0 {
            self.buffer.cut(before);
        }
    }

    /// Writes a row at each vertex in turn.
    pub(crate) fn write(&mut self, vertices: &[u32], rows: &[i64])
        requires vertices { All (HasRow self.old.components self.old.values) vertices.now }
        requires len { length rows.now ≡ length vertices.now * self.old.components }
        requires in_range { All IsValue rows.now }
        ensures { self.new ≡ written vertices.now rows.now self.old }
    {
        self.buffer.write(vertices, rows);
    }

    /// Takes a sample of the values as they stand.
    pub(crate) fn push_sample(&mut self, alloc: Global, time: u64) -> Result<(), Memory>
        requires { TakesSample time self.old }
        ensures sampled { OnOk result (self.new ≡ sampled time self.old) }
        ensures unchanged { OnErr result (self.new ≡ self.old) }
    {
        let field = self.buffer.field(alloc)?;
        self.samples.push(Sample { time, field })?;
        Ok(())
    }

    /// Takes the last sample away.
    pub(crate) fn pop_sample(&mut self)
        ensures { self.new ≡ unsampled self.old }
    {
        let _last = self.samples.pop();
    }

    /// Sets all values to zero.
    pub(crate) fn clear(&mut self)
        ensures { self.new ≡ cleared self.old }
    {
        self.buffer.clear();
    }

    /// Forgets all samples.
    pub(crate) fn forget_samples(&mut self)
        ensures { self.new ≡ forgotten self.old }
    {
        self.samples.clear();
    }
}
