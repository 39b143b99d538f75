//! The pairs between the first members of their nodes.

ghost use Rattle.std.specs.Prelude.{◌≡◌, ℕ, ◌<◌, ◌==◌, All, IfOk, length, count_by, slice_index};
ghost use Rattle.std.specs.List.{HoldsAt};
ghost use Rattle.plan_order.specs.Edges.{edges_of, edges_to, edges_between};

use crate::ids::PartId;
use std::alloc::{AllocError, Global};

/// The pairs, with the first member of its node in place of each participant.
pub(crate) fn edges_of(
    alloc: Global,
    heads: &[PartId],
    pairs: &[(PartId, PartId)],
) -> Result<Vec<(PartId, PartId)>, AllocError>
    requires { All (λ pair. (pair.0 < length heads.now) × (pair.1 < length heads.now)) pairs.now }
    ensures { IfOk result (λ edges. edges.items ≡ edges_of heads.now pairs.now) }
{
    let mut edges = Vec::with_capacity(alloc, pairs.len())?;
    for pair in pairs {
        edges.push((heads[pair.0 as usize], heads[pair.1 as usize]))?;
    }
    Ok(edges)
}

/// For each number below `count` the ends of the edges that begin there.
pub(crate) fn ends_after(
    alloc: Global,
    count: usize,
    edges: &[(u32, u32)],
) -> Result<Vec<Vec<u32>>, AllocError>
    requires { All (λ edge. edge.0 < count) edges.now }
    ensures count { IfOk result (λ after. length after.items ≡ count) }
    ensures ends { IfOk result (λ after. (a b : ℕ) → a < count
        → HoldsAt (λ ends. count_by (λ end. end == b) ends.items ≡ edges_between edges.now a b)
        after.items a) }
{
    let mut after = no_ends(alloc, count)?;
    for edge in edges {
        after[edge.0 as usize].push(edge.1)?;
    }
    Ok(after)
}

/// As many empty lists.
fn no_ends(alloc: Global, count: usize) -> Result<Vec<Vec<u32>>, AllocError>
    ensures count { IfOk result (λ after. length after.items ≡ count) }
    ensures empty { IfOk result (λ after. (a b : ℕ) → a < count
        → HoldsAt (λ ends. count_by (λ end. end == b) ends.items ≡ 0) after.items a) }
{
    let mut after = Vec::with_capacity(alloc, count)?;
    for _ in 0..count {
        after.push(Vec::new(alloc))?;
    }
    Ok(after)
}

/// For each number below `count` how many edges end there.
pub(crate) fn counts_before(
    alloc: Global,
    count: usize,
    edges: &[(u32, u32)],
) -> Result<Vec<usize>, AllocError>
    requires { All (λ edge. edge.1 < count) edges.now }
    ensures count { IfOk result (λ counts. length counts.items ≡ count) }
    ensures counts { IfOk result (λ counts. (b : ℕ)
        → slice_index counts.items b ≡ edges_to edges.now b) }
{
    let mut counts = vec![in alloc; 0; count]?;
    for edge in edges {
        counts[edge.1 as usize] += 1;
    }
    Ok(counts)
}
