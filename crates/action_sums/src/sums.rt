ghost use Rattle.std.specs.Prelude.{◌≡◌, ◌≤◌, ◌<◌, ◌^◌, length, map, sum, slice_index, IfOk};
ghost use Rattle.data_actions.specs.EntrySums.{place_of, sum_of_entries};
ghost use Rattle.action_sums.specs.ActionSums.{is_of, entry_of, entry_sum, ActionSums};

use cpl_config::{ActionEntry, DataEntry, PartTable};
use data_actions::Sum;
use fixed_num::{Items, Memory, Name};
use std::alloc::Global;

/// The sums of a participant's actions, in their order, by the places of what it writes: its write
/// entries stand one after the other, each with so many values. Data that are not written have no
/// value, and stand behind all entries.
///
/// Takes time in proportion to the names in the actions, times the write entries, of which an
/// accepted configuration has at most 64.
pub fn sums_of(alloc: Global, part: &PartTable, lengths: &[u32]) -> Result<Vec<Sum>, Memory>
    requires one_each { length lengths.now ≡ length (part.now).write }
    requires few { sum lengths.now < 2 ^ 32 }
    ensures { IfOk result (λ made. made.items ≡ ActionSums part.now lengths.now) }
{
    let mut sums = Vec::new(alloc);
    'actions: for action in part.action.as_slice() {
        sums.push(sum_of(alloc, part.write.as_slice(), action, lengths)?)?;
    }
    Ok(sums)
}

/// The sum of an action.
fn sum_of(
    alloc: Global,
    entries: &[DataEntry],
    action: &ActionEntry,
    lengths: &[u32],
) -> Result<Sum, Memory>
    requires one_each { length lengths.now ≡ length entries.now }
    requires few { sum lengths.now < 2 ^ 32 }
    ensures { IfOk result (λ made. made ≡ sum_of_entries lengths.now (entry_sum entries.now action.now)) }
{
    let mesh = action.mesh.as_str();
    let target = entry_of(entries, mesh, action.target.as_str());
    let sources = places_of(alloc, entries, mesh, action.sources.as_slice(), lengths)?;
    Ok(Sum {
        target: place_of(lengths, target),
        sources: Items::from_vec(sources),
        length: length_at(lengths, target),
    })
}

/// The first places of the entries of these data on a mesh.
fn places_of(
    alloc: Global,
    entries: &[DataEntry],
    mesh: &str,
    names: &[Name],
    lengths: &[u32],
) -> Result<Vec<u32>, Memory>
    requires one_each { length lengths.now ≡ length entries.now }
    requires few { sum lengths.now < 2 ^ 32 }
    ensures { IfOk result (λ made. made.items ≡ map (place_of lengths.now) (map (entry_of entries.now mesh.now) names.now)) }
{
    let mut places = Vec::new(alloc);
    'names: for name in names {
        places.push(place_of(lengths, entry_of(entries, mesh, name.as_str())))?;
    }
    Ok(places)
}

/// The number of the entry of the data on the mesh, from 0, or how many entries there are.
fn entry_of(entries: &[DataEntry], mesh: &str, data_name: &str) -> usize
    ensures entry { result ≡ entry_of entries.now mesh.now data_name.now }
    ensures within { result ≤ length entries.now }
{
    'entries: for (index, entry) in entries.iter().enumerate() {
        if is_of(mesh, data_name, entry) {
            return index;
        }
    }
    entries.len()
}

fn is_of(mesh: &str, data_name: &str, entry: &DataEntry) -> bool
    ensures { result ≡ is_of mesh.now data_name.now entry.now }
{
    entry.data_name.as_str() == data_name && entry.mesh.as_str() == mesh
}

/// The first place of an entry: behind all those before it.
fn place_of(lengths: &[u32], entry: usize) -> u32
    requires within { entry ≤ length lengths.now }
    requires few { sum lengths.now < 2 ^ 32 }
    ensures { result ≡ place_of lengths.now entry }
{
    total(&lengths[..entry])
}

fn total(lengths: &[u32]) -> u32
    requires { sum lengths.now < 2 ^ 32 }
    ensures { result ≡ sum lengths.now }
{
    lengths.iter().sum()
}

/// How many values an entry has; none where there is no such entry.
fn length_at(lengths: &[u32], entry: usize) -> u32
    ensures { result ≡ slice_index lengths.now entry }
{
    match lengths.get(entry) {
        Some(length) => *length,
        None => 0,
    }
}
