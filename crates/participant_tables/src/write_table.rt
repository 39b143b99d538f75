//! What a participant writes.
ghost use Rattle.std.specs.Prelude.{◌≡◌, ◌+◌, ◌*◌, ◌<◌, ◌≤◌, ◌++◌, length, map, take, drop, slice_get, Some, All, IfOk, IfSome, OnOk, OnErr};
ghost use Rattle.std.specs.Option.{option_map};
ghost use Rattle.fixed_num.specs.Numbers.{IsValue};
ghost use Rattle.field_buffers.specs.Rows.{HasRow};
ghost use Rattle.participant_tables.specs.AtPlace.{at_place};
ghost use Rattle.participant_tables.specs.WriteKept.{WriteKept, AreSamples, TakesSample, field_of};
ghost use Rattle.participant_tables.specs.WriteSteps.{HaveNoSamples, HaveVertices, cleared, forgotten, grown, opening_write, opening_writes, sampled, shrunk, unsampled, written, written_at};

use crate::write_entry::WriteEntry;
use cpl_plan::{DataId, PartId, Plan, PlanEntry};
use fixed_num::Memory;
use std::alloc::Global;
use std::marker::Model;
use waveform::{Field, Sample};

/// What a participant writes: for each write entry of the plan, in order, the values that are written
/// next and the samples of its turn. Entries and places of meshes are counted from 0.
#[derive(Drop)]
pub struct WriteTable {
    entries: Vec<WriteEntry>,
}

impl Model for WriteTable {
    ghost use Rattle.std.specs.Prelude.{List};
    ghost use Rattle.participant_tables.specs.WriteKept.{WriteKept};

    ghost Value = { List WriteKept };

    ghost view = { λ t. t.entries.items };
}

impl WriteTable {
    /// What the participant writes, with no vertex yet.
    pub fn new(alloc: Global, plan: &Plan, part: PartId) -> Result<WriteTable, Memory>
        requires { part < length plan.now.parts }
        ensures { IfOk result (λ table. table ≡ opening_writes plan.now part) }
    {
        Ok(WriteTable {
            entries: opening_entries(alloc, plan, part, plan.part(part).writes.as_slice())?,
        })
    }

    /// How many entries there are.
    pub fn len(&self) -> usize
        ensures count { result ≡ length self.now }
        ensures shapes { All AreSamples self.now }
    {
        // Each entry tells the shape of its samples.
        for i in 0..self.entries.len() {
            let _samples = self.entries[i].samples();
        }
        self.entries.len()
    }

    /// The first entry with these data on the mesh at a place.
    pub fn entry(&self, place: usize, data_id: DataId) -> Option<usize>
        ensures first { result ≡ written_at place data_id self.now }
        ensures within { IfSome result (λ entry. entry < length self.now) }
    {
        for i in 0..self.entries.len() {
            if self.entries[i].is_at(place, data_id) {
                return Some(i);
            }
        }
        None
    }

    /// How many components an entry has at each vertex.
    pub fn components(&self, entry: usize) -> u32
        requires { entry < length self.now }
        ensures { option_map (λ (e : WriteKept). e.components) (slice_get self.now entry) ≡ Some result }
    {
        self.entries[entry].components()
    }

    /// The samples of an entry in this turn.
    pub fn samples(&self, entry: usize) -> &[Sample]
        requires { entry < length self.now }
        ensures samples { option_map (λ (e : WriteKept). e.samples) (slice_get self.now entry) ≡ Some result.now }
        ensures shape { IfSome (slice_get self.now entry) AreSamples }
    {
        self.entries[entry].samples()
    }

    /// The values of an entry as they stand, in memory of their own.
    pub fn field(&self, alloc: Global, entry: usize) -> Result<Field, Memory>
        requires { entry < length self.now }
        ensures { IfOk result (λ field. option_map field_of (slice_get self.now entry) ≡ Some field) }
    {
        self.entries[entry].field(alloc)
    }

    /// Adds zeros for more vertices of the mesh at a place, which has `before` ones, to each entry on it;
    /// or to none.
    pub fn grow(&mut self, place: usize, before: usize, more: usize) -> Result<(), Memory>
        requires vertices { HaveVertices place before self.old }
        requires fresh { HaveNoSamples self.old }
        ensures grown { OnOk result (self.new ≡ map (grown place more) self.old) }
        ensures unchanged { OnErr result (self.new ≡ self.old) }
    {
        for i in 0..self.entries.len() {
            if self.entries[i].grow_on(place, more).is_err() {
                self.shrink_first(i, place, before, more);
                return Err(Memory);
            }
        }
        Ok(())
    }

    /// Keeps the first `before` vertices of the mesh at a place, which has `more` beyond, so that
    /// [`WriteTable::grow`] is undone. Takes no memory.
    pub fn shrink(&mut self, place: usize, before: usize, more: usize)
        requires vertices { HaveVertices place (before + more) self.old }
        requires fresh { HaveNoSamples self.old }
        ensures { self.new ≡ map (shrunk place before) self.old }
    {
        let count = self.entries.len();
        self.shrink_first(count, place, before, more);
    }

    /// Writes a row at each vertex in turn, so that the last row of a vertex that is named twice stands.
    /// Takes no memory.
    pub fn write(&mut self, entry: usize, vertices: &[u32], rows: &[i64])
        requires entry { entry < length self.old }
        requires vertices { IfSome (slice_get self.old entry) (λ (e : WriteKept). All (HasRow e.components e.values) vertices.now) }
        requires len { IfSome (slice_get self.old entry) (λ (e : WriteKept). length rows.now ≡ length vertices.now * e.components) }
        requires in_range { All IsValue rows.now }
        ensures { self.new ≡ at_place (written vertices.now rows.now) entry self.old }
    {
        self.entries[entry].write(vertices, rows);
    }

    /// Takes a sample at a time of each entry, or of none.
    pub fn push_samples(&mut self, alloc: Global, time: u64) -> Result<(), Memory>
        requires { All (TakesSample time) self.old }
        ensures sampled { OnOk result (self.new ≡ map (sampled time) self.old) }
        ensures unchanged { OnErr result (self.new ≡ self.old) }
    {
        for i in 0..self.entries.len() {
            if self.entries[i].push_sample(alloc, time).is_err() {
                self.pop_first(i);
                return Err(Memory);
            }
        }
        Ok(())
    }

    /// Takes the last sample of each entry away, so that [`WriteTable::push_samples`] is undone. Takes no
    /// memory.
    pub fn pop_samples(&mut self)
        ensures { self.new ≡ map unsampled self.old }
    {
        let count = self.entries.len();
        self.pop_first(count);
    }

    /// Sets all values to zero. Takes no memory.
    pub fn clear(&mut self)
        ensures { self.new ≡ map cleared self.old }
    {
        for i in 0..self.entries.len() {
            self.entries[i].clear();
        }
    }

    /// Forgets all samples, as a turn begins. Takes no memory.
    pub fn forget_samples(&mut self)
        ensures { self.new ≡ map forgotten self.old }
    {
        for i in 0..self.entries.len() {
            self.entries[i].forget_samples();
        }
    }

    /// Undoes the growth of the first entries, so many.
    fn shrink_first(&mut self, count: usize, place: usize, before: usize, more: usize)
        requires count { count ≤ length self.old }
        requires vertices { HaveVertices place (before + more) (take count self.old) }
        requires fresh { HaveNoSamples self.old }
        ensures { self.new ≡ map (shrunk place before) (take count self.old) ++ drop count self.old }
    {
        for i in 0..count {
            self.entries[i].shrink_on(place, before, more);
        }
    }

    /// Takes the last sample of the first entries, so many, away.
    fn pop_first(&mut self, count: usize)
        requires { count ≤ length self.old }
        ensures { self.new ≡ map unsampled (take count self.old) ++ drop count self.old }
    {
        for i in 0..count {
            self.entries[i].pop_sample();
        }
    }
}

fn opening_entries(
    alloc: Global,
    plan: &Plan,
    part: PartId,
    writes: &[PlanEntry],
) -> Result<Vec<WriteEntry>, Memory>
    requires { part < length plan.now.parts }
    ensures { IfOk result (λ entries. entries.items ≡ map (opening_write plan.now part) writes.now) }
{
    let mut entries = Vec::with_capacity(alloc, writes.len())?;
    'writes: for entry in writes {
        entries.push(WriteEntry::new(alloc, plan, part, *entry))?;
    }
    Ok(entries)
}
