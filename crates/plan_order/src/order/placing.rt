//! Nodes that are named by their first members, placed one by one.

ghost use Rattle.std.specs.Prelude.{◌≡◌, ◌↔◌, ◌⊎◌, ℕ, ◌+◌, ◌<◌, ◌≤◌, ◌==◌, nat_lt, All, Contains, IfOk, OnOk, IsTrue, MatchBool, MatchOption, length, count_by, slice_index};
ghost use Rattle.std.specs.List.{list_any};
ghost use Rattle.std.specs.Ordering.{nat_cmp};
ghost use Rattle.std.specs.BTreeSet.{contains};
ghost use Rattle.plan_order.specs.Edges.{alone};
ghost use Rattle.plan_order.specs.Cycle.{HasCycle, ClosesCycle};
ghost use Rattle.plan_order.specs.NodeOrder.{IsNodeOrder};

use crate::order::edges::{counts_before, ends_after};
use std::alloc::{AllocError, Global};
use std::collections::BTreeSet;

/// The order of the numbers in `ids`; None where the edges have a cycle.
pub(crate) fn place(
    alloc: Global,
    ids: &[u32],
    edges: &[(u32, u32)],
) -> Result<Option<Vec<u32>>, AllocError>
    requires ids { All (λ id. id < length ids.now) ids.now }
    requires edges { All (λ edge. Contains ids.now edge.0 × Contains ids.now edge.1) edges.now }
    ensures { IfOk result (λ placed. MatchOption placed (HasCycle (alone ids.now) edges.now)
        (λ order. IsNodeOrder (alone ids.now) edges.now order.items)) }
{
    let after = ends_after(alloc, ids.len(), edges)?;
    let mut waits = counts_before(alloc, ids.len(), edges)?;
    let mut ready = ready_at_first(alloc, ids, &waits)?;
    let mut order = Vec::new(alloc);
    while let Some(id) = ready.pop_first() {
        order.push(id)?;
        release(&mut waits, &mut ready, &after[id as usize])?;
    }
    if has_waiting(ids, &waits) {
        Ok(None)
    } else {
        Ok(Some(order))
    }
}

/// Those that wait for none.
fn ready_at_first(alloc: Global, ids: &[u32], waits: &[usize]) -> Result<BTreeSet<u32>, AllocError>
    requires { All (λ id. id < length waits.now) ids.now }
    ensures { IfOk result (λ ready. (b : ℕ) → IsTrue (contains nat_cmp ready b)
        ↔ (Contains ids.now b × (slice_index waits.now b ≡ 0))) }
{
    let mut ready = BTreeSet::new(alloc);
    for id in ids {
        add_free(&mut ready, waits, *id)?;
    }
    Ok(ready)
}

/// Adds a number, if it waits for none.
fn add_free(ready: &mut BTreeSet<u32>, waits: &[usize], id: u32) -> Result<(), AllocError>
    requires { id < length waits.now }
    ensures { OnOk result ((b : ℕ) → IsTrue (contains nat_cmp ready.new b)
        ↔ (IsTrue (contains nat_cmp ready.old b) ⊎ ((id ≡ b) × (slice_index waits.now b ≡ 0)))) }
{
    if waits[id as usize] == 0 {
        ready.insert(id)?;
    }
    Ok(())
}

/// Each of `ends` waits for one less; those that then wait for none become ready.
fn release(waits: &mut [usize], ready: &mut BTreeSet<u32>, ends: &[u32]) -> Result<(), AllocError>
    requires in_range { All (λ end. end < length waits.old) ends.now }
    requires enough { (b : ℕ) → count_by (λ end. end == b) ends.now ≤ slice_index waits.old b }
    ensures waits { OnOk result ((b : ℕ) → slice_index waits.new b
        + count_by (λ end. end == b) ends.now ≡ slice_index waits.old b) }
    ensures ready { OnOk result ((b : ℕ) → IsTrue (contains nat_cmp ready.new b)
        ↔ (IsTrue (contains nat_cmp ready.old b)
        ⊎ (Contains ends.now b × (slice_index waits.new b ≡ 0)))) }
{
    for end in ends {
        waits[*end as usize] -= 1;
        add_free(ready, waits, *end)?;
    }
    Ok(())
}

/// Whether one of them still waits.
fn has_waiting(ids: &[u32], waits: &[usize]) -> bool
    requires { All (λ id. id < length waits.now) ids.now }
    ensures { result ≡ list_any (λ id. nat_lt 0 (slice_index waits.now id)) ids.now }
{
    ids.iter().any(|id| waits[*id as usize] > 0)
}

/// Whether the edges have a cycle.
fn has_cycle(alloc: Global, ids: &[u32], edges: &[(u32, u32)]) -> Result<bool, AllocError>
    requires ids { All (λ id. id < length ids.now) ids.now }
    requires edges { All (λ edge. Contains ids.now edge.0 × Contains ids.now edge.1) edges.now }
    ensures { IfOk result (λ found. MatchBool found
        (HasCycle (alone ids.now) edges.now) (¬ HasCycle (alone ids.now) edges.now)) }
{
    let placed = place(alloc, ids, edges)?;
    Ok(placed.is_none())
}

/// The place of the first edge with which the edges have a cycle.
pub(crate) fn closing_edge(
    alloc: Global,
    ids: &[u32],
    edges: &[(u32, u32)],
) -> Result<usize, AllocError>
    requires ids { All (λ id. id < length ids.now) ids.now }
    requires edges { All (λ edge. Contains ids.now edge.0 × Contains ids.now edge.1) edges.now }
    requires cycle { HasCycle (alone ids.now) edges.now }
    ensures { IfOk result (ClosesCycle (alone ids.now) edges.now) }
{
    let mut open = 0;
    let mut closed = edges.len();
    while open + 1 < closed {
        let middle = open + (closed - open) / 2;
        if has_cycle(alloc, ids, &edges[..middle])? {
            closed = middle;
        } else {
            open = middle;
        }
    }
    Ok(open)
}
