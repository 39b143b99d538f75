//! What is shown at a vertex.
ghost use Rattle.std.specs.Prelude.{◌≡◌, ◌*◌, ◌+◌, ◌<◌, ◌≤◌, ◌++◌, [], pos, replicate, length, map, take, drop, slice_get, All, IfSome, OnOk};
ghost use Rattle.std.specs.Option.{option_map_or};
ghost use Rattle.field_buffers.specs.Rows.{HasRow, row_of};
ghost use Rattle.wave_coupling.specs.Known.{read_entries, write_entries};
ghost use Rattle.participant_tables.specs.ReadKept.{opening_reads};
ghost use Rattle.participant_waves.specs.RowsKept.{HasInput, HasRead, HasWritten, HaveInputs, HaveWritten, all_read, all_written, entry_read, entry_written, row_read, row_written};

use crate::kept_input::KeptInput;
use crate::sending::place_of;
use cpl_plan::{Plan, PlanEntry};
use fixed_num::{Memory, Value};
use participant_tables::{ReadEntry, ReadTable, WriteTable};
use plan_order::{MeshId, PartId};
use wave_reading::read_rows;
use waveform::Wave;

/// Appends what was written last, at a vertex, of each entry on a mesh.
pub(crate) fn push_all_written(
    plan: &Plan,
    part: PartId,
    writes: &WriteTable,
    mesh: MeshId,
    vertex: u32,
    values: &mut Vec<i64>,
) -> Result<(), Memory>
    requires participant { part < length plan.now.parts }
    requires written { HaveWritten (write_entries plan.now part) writes.now mesh vertex }
    ensures { OnOk result (values.new.items ≡ values.old.items ++ all_written plan.now part writes.now mesh vertex (write_entries plan.now part)) }
{
    let entries = plan.part(part).writes.as_slice();
    for entry in entries {
        if entry.mesh == mesh {
            push_entry_written(entries, writes, *entry, vertex, values)?;
        }
    }
    Ok(())
}

/// Appends what was written last of an entry at a vertex.
fn push_entry_written(
    entries: &[PlanEntry],
    writes: &WriteTable,
    entry: PlanEntry,
    vertex: u32,
    values: &mut Vec<i64>,
) -> Result<(), Memory>
    requires { HaveWritten entries.now writes.now entry.mesh vertex }
    ensures { OnOk result (values.new.items ≡ values.old.items ++ entry_written entries.now writes.now vertex entry) }
{
    match place_of(entries, entry.data_id, entry.mesh) {
        Some(place) => push_written_at(writes, place, vertex, values),
        None => Ok(()),
    }
}

/// Appends what was written last, at a vertex, of the entry at a place.
fn push_written_at(
    writes: &WriteTable,
    place: usize,
    vertex: u32,
    values: &mut Vec<i64>,
) -> Result<(), Memory>
    requires there { place < length writes.now }
    requires written { IfSome (slice_get writes.now place) (HasWritten vertex) }
    ensures { OnOk result (values.new.items ≡ values.old.items ++ option_map_or (row_written vertex) (slice_get writes.now place) []) }
{
    let samples = writes.samples(place);
    let last = samples[samples.len() - 1].field.values.as_slice();
    push_row(last, writes.components(place), vertex, values)
}

/// Appends the row of a vertex.
fn push_row(
    from: &[Value],
    components: u32,
    vertex: u32,
    values: &mut Vec<i64>,
) -> Result<(), Memory>
    requires { HasRow components from.now vertex }
    ensures { OnOk result (values.new.items ≡ values.old.items ++ row_of components vertex from.now) }
{
    let count = components as usize;
    let start = vertex as usize * count;
    push_units(&from[start..start + count], values)
}

/// Appends values, in units.
fn push_units(from: &[Value], values: &mut Vec<i64>) -> Result<(), Memory>
    ensures { OnOk result (values.new.items ≡ values.old.items ++ from.now) }
{
    for value in from {
        values.push(value.get())?;
    }
    Ok(())
}

/// Appends what is read, at a vertex, of each entry on a mesh.
pub(crate) fn push_all_read(
    plan: &Plan,
    part: PartId,
    reads: &ReadTable,
    inputs: &[KeptInput],
    now: u64,
    mesh: MeshId,
    vertex: u32,
    values: &mut Vec<i64>,
) -> Result<(), Memory>
    requires participant { part < length plan.now.parts }
    requires opened { reads.now ≡ opening_reads plan.now part }
    requires inputs { HaveInputs plan.now part inputs.now now mesh vertex }
    ensures { OnOk result (values.new.items ≡ values.old.items ++ all_read plan.now part inputs.now now mesh vertex (read_entries plan.now part)) }
{
    let entries = plan.part(part).reads.as_slice();
    for i in 0..entries.len() {
        if entries[i].mesh == mesh {
            push_entry_read(reads.get(i), inputs, now, vertex, values)?;
        }
    }
    Ok(())
}

/// Appends what is read of an entry at a vertex.
fn push_entry_read(
    entry: ReadEntry,
    inputs: &[KeptInput],
    now: u64,
    vertex: u32,
    values: &mut Vec<i64>,
) -> Result<(), Memory>
    requires { HasInput inputs.now now vertex entry }
    ensures { OnOk result (values.new.items ≡ values.old.items ++ entry_read inputs.now now vertex entry) }
{
    push_row_read(entry, &inputs[entry.received].wave, now, vertex, values)
}

/// Appends what is read of a wave at a vertex.
fn push_row_read(
    entry: ReadEntry,
    wave: &Wave,
    now: u64,
    vertex: u32,
    values: &mut Vec<i64>,
) -> Result<(), Memory>
    requires { HasRead now vertex entry wave.now }
    ensures { OnOk result (values.new.items ≡ values.old.items ++ row_read now vertex entry wave.now) }
{
    let before = values.len();
    push_zeros(entry.components, values)?;
    read_rows(
        wave,
        entry.components,
        entry.degree,
        now,
        &[vertex],
        &mut values[before..],
    );
    Ok(())
}

/// Appends so many zeros.
fn push_zeros(count: u32, values: &mut Vec<i64>) -> Result<(), Memory>
    ensures { OnOk result (values.new.items ≡ values.old.items ++ replicate count (pos 0)) }
{
    for _ in 0..count {
        values.push(0)?;
    }
    Ok(())
}
