//! The lines of watch-points.

ghost use Rattle.std.specs.Prelude.{◌≡◌, ◌<◌, ◌++◌, ◌∷◌, nat_eq, filter, take, drop, length, IfOk, OnOk};
ghost use Rattle.std.specs.List.{flat_map};
ghost use Rattle.line_text.specs.Printing.{value_text};
ghost use Rattle.watch_log.specs.ReportText.{joined, data_name, components_of_entry, entries_text, entries_on, watch_words, shown_text, watch_line};
ghost use Rattle.watch_log.specs.Told.{IsRowOf};

use crate::words::push_word;
use cpl_plan::{Plan, PlanEntry, Watch, WatchRow};
use fixed_num::Memory;
use line_text::print_value;
use plan_order::{MeshId, PartId};
use std::alloc::Global;

/// Appends the line of a row, whose window ended at one of these times.
#[tactic(auto, using(crate::proofs::Watched::line_of_watch))]
pub(crate) fn push_row(
    alloc: Global,
    plan: &Plan,
    ends: &[u64],
    row: &WatchRow,
    text: &mut Vec<u8>,
) -> Result<(), Memory>
    requires { IsRowOf plan.now (length ends.now) row.now }
    ensures { OnOk result (text.new.items ≡ text.old.items ++ watch_line plan.now ends.now row.now) }
{
    let watch = &plan.part(row.part).watches.as_slice()[row.watch as usize];
    let end = ends[row.window as usize - 1];
    push_shown(
        alloc,
        plan,
        row.part,
        watch,
        end,
        row.values.as_slice(),
        text,
    )?;
    Ok(())
}

/// Appends what a watch-point of a participant shows at the end of a window.
fn push_shown(
    alloc: Global,
    plan: &Plan,
    p: PartId,
    watch: &Watch,
    end: u64,
    values: &[i64],
    text: &mut Vec<u8>,
) -> Result<(), Memory>
    requires { p < length plan.now.parts }
    ensures { OnOk result (text.new.items
        ≡ text.old.items ++ shown_text plan.now p watch.now end values.now) }
{
    let entries = entries_on(alloc, plan, p, watch.mesh)?;
    push_watch(alloc, watch.name.as_str(), end, text)?;
    push_entries(alloc, plan, entries.as_slice(), values, text)?;
    text.push(b'\n')?;
    Ok(())
}

/// Appends a watch-point's name, and when the window ended.
fn push_watch(alloc: Global, name: &str, end: u64, text: &mut Vec<u8>) -> Result<(), Memory>
    ensures { OnOk result (text.new.items ≡ text.old.items ++ watch_words name.now end) }
{
    let words = format!(in alloc; "watch {name} {end}")?;
    push_word(words.as_str(), text)?;
    Ok(())
}

/// The entries of a participant on a mesh: those that it writes, and then those that it reads.
fn entries_on(alloc: Global, plan: &Plan, p: PartId, mesh: MeshId) -> Result<Vec<PlanEntry>, Memory>
    requires { p < length plan.now.parts }
    ensures { IfOk result (λ entries. entries.items ≡ entries_on plan.now p mesh) }
{
    let part = plan.part(p);
    let mut entries = Vec::new(alloc);
    push_entries_on(part.writes.as_slice(), mesh, &mut entries)?;
    push_entries_on(part.reads.as_slice(), mesh, &mut entries)?;
    Ok(entries)
}

/// Appends the entries of a list that are on a mesh.
fn push_entries_on(
    list: &[PlanEntry],
    mesh: MeshId,
    entries: &mut Vec<PlanEntry>,
) -> Result<(), Memory>
    ensures { OnOk result (entries.new.items ≡ entries.old.items ++ filter (λ entry. nat_eq entry.mesh mesh) list.now) }
{
    for entry in list {
        if entry.mesh == mesh {
            entries.push(*entry)?;
        }
    }
    Ok(())
}

/// Appends each entry's data with its components, of values that stand one after another.
fn push_entries(
    alloc: Global,
    plan: &Plan,
    entries: &[PlanEntry],
    values: &[i64],
    text: &mut Vec<u8>,
) -> Result<(), Memory>
    ensures { OnOk result (text.new.items ≡ text.old.items ++ entries_text plan.now entries.now values.now) }
{
    let mut rest = values;
    for entry in entries {
        let count = components_of(plan, *entry).min(rest.len());
        let (own, more) = rest.split_at(count);
        push_entry(alloc, plan, *entry, own, text)?;
        rest = more;
    }
    Ok(())
}

/// Appends one entry's data, and its components with commas between them.
fn push_entry(
    alloc: Global,
    plan: &Plan,
    entry: PlanEntry,
    components: &[i64],
    text: &mut Vec<u8>,
) -> Result<(), Memory>
    ensures { OnOk result (text.new.items
        ≡ text.old.items ++ ((32 ∷ data_name plan.now entry) ++ (32 ∷ joined components.now))) }
{
    text.push(b' ')?;
    push_data(plan, entry, text)?;
    text.push(b' ')?;
    push_joined(alloc, components, text)?;
    Ok(())
}

/// Appends the name of an entry's data.
fn push_data(plan: &Plan, entry: PlanEntry, text: &mut Vec<u8>) -> Result<(), Memory>
    ensures { OnOk result (text.new.items ≡ text.old.items ++ data_name plan.now entry) }
{
    match plan
        .parts()
        .data_list
        .as_slice()
        .get(entry.data_id as usize)
    {
        Some(data_plan) => push_word(data_plan.name.as_str(), text),
        None => Ok(()),
    }
}

/// How many components an entry has at a vertex.
fn components_of(plan: &Plan, entry: PlanEntry) -> usize
    ensures { result ≡ components_of_entry plan.now entry }
{
    let parts = plan.parts();
    if (entry.data_id as usize) < parts.data_list.len()
        && (entry.mesh as usize) < parts.meshes.len()
    {
        plan.components(entry.data_id, entry.mesh) as usize
    } else {
        0
    }
}

/// Appends components, with commas between them.
fn push_joined(alloc: Global, components: &[i64], text: &mut Vec<u8>) -> Result<(), Memory>
    ensures { OnOk result (text.new.items ≡ text.old.items ++ joined components.now) }
{
    match components.split_first() {
        Some((first, rest)) => {
            print_value(alloc, i128::from(*first), text)?;
            push_after_commas(alloc, rest, text)?;
            Ok(())
        }
        None => Ok(()),
    }
}

/// Appends each component, after a comma.
fn push_after_commas(alloc: Global, components: &[i64], text: &mut Vec<u8>) -> Result<(), Memory>
    ensures { OnOk result (text.new.items ≡ text.old.items ++ flat_map (λ next. 44 ∷ value_text next) components.now) }
{
    for component in components {
        text.push(b',')?;
        print_value(alloc, i128::from(*component), text)?;
    }
    Ok(())
}
