//! What a participant reads.
ghost use Rattle.std.specs.Prelude.{◌≡◌, ℕ, ◌&&◌, ◌<◌, map, nat_eq, unwrap_or, length, slice_get, Some, IfOk, IfSome};
ghost use Rattle.participant_tables.specs.ReadKept.{opening_read, opening_reads, read_at, served_from};
ghost use Rattle.wave_coupling.specs.Known.{map_at, read_mesh, serves};
ghost use Rattle.wave_coupling.specs.MappedInputs.{degree_of};

use crate::places::{components_of, place_of};
use cpl_plan::{DataId, Exchange, MapPlan, MeshId, PartId, Plan, PlanEntry};
use fixed_num::Memory;
use std::alloc::Global;
use std::marker::Model;

/// An entry that a participant reads: one of the data on one of its meshes.
#[derive(Clone, Copy, Debug, PartialEq, Eq)]
pub struct ReadEntry {
    pub data_id: DataId,
    /// The place of the mesh among the provided ones.
    pub mesh: usize,
    /// How many components there are at each vertex.
    pub components: u32,
    /// The degree by which the wave is read.
    pub degree: u32,
    /// The place, among the exchanges that the participant receives, of the one that serves the entry.
    pub received: usize,
}

/// What a participant reads: its read entries, in the order of the plan.
#[derive(Drop)]
pub struct ReadTable {
    entries: Vec<ReadEntry>,
}

impl Model for ReadTable {
    ghost use Rattle.std.specs.Prelude.{List};
    ghost use Rattle.participant_tables.specs.declared.read_table.ReadEntry.{ReadEntry};

    ghost Value = { List ReadEntry };

    ghost view = { λ t. t.entries.items };
}

impl ReadTable {
    /// What the participant reads.
    pub fn new(alloc: Global, plan: &Plan, part: PartId) -> Result<ReadTable, Memory>
        requires { part < length plan.now.parts }
        ensures { IfOk result (λ table. table ≡ opening_reads plan.now part) }
    {
        Ok(ReadTable {
            entries: opening_entries(alloc, plan, part, plan.part(part).reads.as_slice())?,
        })
    }

    /// How many entries there are.
    pub fn len(&self) -> usize
        ensures { result ≡ length self.now }
    {
        self.entries.len()
    }

    /// The first entry with these data on the mesh at a place.
    pub fn entry(&self, place: usize, data_id: DataId) -> Option<usize>
        ensures first { result ≡ read_at place data_id self.now }
        ensures within { IfSome result (λ entry. entry < length self.now) }
    {
        for i in 0..self.entries.len() {
            if is_at(&self.entries[i], place, data_id) {
                return Some(i);
            }
        }
        None
    }

    /// An entry by its number, from 0.
    pub fn get(&self, entry: usize) -> ReadEntry
        requires { entry < length self.now }
        ensures { slice_get self.now entry ≡ Some result }
    {
        self.entries[entry]
    }
}

/// Whether an entry is of these data on the mesh at a place.
fn is_at(entry: &ReadEntry, place: usize, data_id: DataId) -> bool
    ensures { result ≡ (nat_eq entry.now.mesh place && nat_eq entry.now.data_id data_id) }
{
    entry.mesh == place && entry.data_id == data_id
}

fn opening_entries(
    alloc: Global,
    plan: &Plan,
    part: PartId,
    reads: &[PlanEntry],
) -> Result<Vec<ReadEntry>, Memory>
    requires { part < length plan.now.parts }
    ensures { IfOk result (λ entries. entries.items ≡ map (opening_read plan.now part) reads.now) }
{
    let mut entries = Vec::with_capacity(alloc, reads.len())?;
    'reads: for entry in reads {
        entries.push(opening_entry(plan, part, *entry))?;
    }
    Ok(entries)
}

fn opening_entry(plan: &Plan, part: PartId, entry: PlanEntry) -> ReadEntry
    requires { part < length plan.now.parts }
    ensures { result ≡ opening_read plan.now part entry }
{
    ReadEntry {
        data_id: entry.data_id,
        mesh: place_of(plan, part, entry.mesh),
        components: components_of(plan, entry),
        degree: degree_of(plan, entry),
        received: served_from(plan, part, entry),
    }
}

/// The degree by which the data of an entry are read.
fn degree_of(plan: &Plan, entry: PlanEntry) -> u32
    ensures { (part : ℕ) → result ≡ degree_of plan.now part entry }
{
    match plan
        .parts()
        .data_list
        .as_slice()
        .get(entry.data_id as usize)
    {
        Some(item) => item.degree,
        None => 0,
    }
}

/// The place, among the exchanges that the participant receives, of the one that serves an entry.
fn served_from(plan: &Plan, part: PartId, entry: PlanEntry) -> usize
    requires { part < length plan.now.parts }
    ensures { result ≡ unwrap_or (served_from plan.now part entry) 0 }
{
    let mut place = 0;
    for exchange in plan.parts().exchanges.as_slice() {
        if exchange.to == part {
            if is_served(plan, part, exchange, entry) {
                return place;
            }
            place += 1;
        }
    }
    0
}

/// Whether an exchange that the participant receives serves an entry.
fn is_served(plan: &Plan, part: PartId, exchange: &Exchange, entry: PlanEntry) -> bool
    requires { part < length plan.now.parts }
    ensures { result ≡ serves plan.now part exchange.now (read_mesh plan.now part exchange.now) entry }
{
    entry.data_id == exchange.data_id && entry.mesh == read_mesh(plan, part, exchange)
}

/// The mesh on which an exchange's data are read.
fn read_mesh(plan: &Plan, part: PartId, exchange: &Exchange) -> MeshId
    requires { part < length plan.now.parts }
    ensures { result ≡ read_mesh plan.now part exchange.now }
{
    match map_at(plan, part, exchange.read_map) {
        Some(map) => map.to,
        None => exchange.mesh,
    }
}

/// The mapping at a place among the participant's.
fn map_at(plan: &Plan, part: PartId, place: Option<u32>) -> Option<MapPlan>
    requires { part < length plan.now.parts }
    ensures { result ≡ map_at plan.now part place }
{
    let place = place?;
    plan.part(part).maps.as_slice().get(place as usize).copied()
}
