//! The order in which the nodes of a window are solved.

ghost use Rattle.std.specs.Prelude.{◌≡◌, ℕ, ◌<◌, All, IfOk, OnOk, length, map, slice_index_or};
ghost use Rattle.plan_order.specs.Cycle.{HasCycle, ClosesCycle};
ghost use Rattle.plan_order.specs.Groups.{AreGroups, members_of};
ghost use Rattle.plan_order.specs.NodeOrder.{IsNodeOrder};

use crate::ids::PartId;
use crate::node::Node;
use edges::edges_of;
use heads::{heads_of, nodes_of};
use placing::{closing_edge, place};
use std::alloc::{AllocError, Global};
use thiserror::Error;

mod edges;
mod heads;
mod placing;

/// Why nodes have no order.
#[derive(Clone, Copy, Debug, PartialEq, Eq, Error)]
pub enum OrderErr {
    /// The pairs up to the one at this place, counted from 0 and itself included, have a cycle, and
    /// those before it have none.
    #[error("the pairs have a cycle")]
    Cycle { at: usize },
    /// There is no memory.
    #[error("out of memory")]
    Memory,
}

impl From<AllocError> for OrderErr {
    ghost use Rattle.plan_order.specs.declared.order.OrderErr.TheVariants.{Memory};

    ghost from_gives = { λ _ error. error ≡ Memory };

    fn from(_error: AllocError) -> OrderErr {
        OrderErr::Memory
    }
}

/// The order in which the nodes of a window are solved.
///
/// The participants are the numbers below `parts`. Each group is a node, whose number is its place
/// in `groups`; each participant in no group is a node by itself. A node comes before another where
/// a pair of `befores` has its first in the one and its second in the other. Of the nodes that wait
/// for no other, that with the least first member is next; the first member of a group is the one
/// listed first. That a pair's first is solved before its second is the coupling documentation's
/// rule for serial-explicit schemes; which of several nodes is next is the project's own.
///
/// The error is `Cycle` exactly where the pairs have a cycle; a pair within one node is one. It
/// takes time n·log(n) in participants and pairs, and log(n) times as much to find `at`.
pub fn node_order(
    alloc: Global,
    parts: u32,
    groups: &[Vec<PartId>],
    befores: &[(PartId, PartId)],
) -> Result<Vec<Node>, OrderErr>
    requires groups { AreGroups parts (map (λ group. group.items) groups.now) }
    requires befores { All (λ pair. (pair.0 < parts) × (pair.1 < parts)) befores.now }
    ensures order { let members = members_of parts (map (λ group. group.items) groups.now) in
        IfOk result (λ order. IsNodeOrder members befores.now order.items) }
    ensures no_cycle { let members = members_of parts (map (λ group. group.items) groups.now) in
        OnOk result (¬ HasCycle members befores.now) }
    ensures cycle { let members = members_of parts (map (λ group. group.items) groups.now) in
        (at : ℕ) → result ≡ Err (OrderErr.Cycle at) → ClosesCycle members befores.now at }
{
    let nodes = nodes_of(alloc, parts, groups)?;
    let heads = heads_of(alloc, groups, &nodes)?;
    let edges = edges_of(alloc, &heads, befores)?;
    match place(alloc, &heads, &edges)? {
        Some(order) => Ok(nodes_at(alloc, &nodes, &order)?),
        None => Err(OrderErr::Cycle {
            at: closing_edge(alloc, &heads, &edges)?,
        }),
    }
}

/// The nodes at these places.
fn nodes_at(alloc: Global, nodes: &[Node], places: &[u32]) -> Result<Vec<Node>, AllocError>
    requires { All (λ place. place < length nodes.now) places.now }
    ensures { IfOk result (λ found. found.items
        ≡ map (λ place. slice_index_or nodes.now place (Node.Single 0)) places.now) }
{
    let mut found = Vec::with_capacity(alloc, places.len())?;
    for place in places {
        found.push(nodes[*place as usize])?;
    }
    Ok(found)
}
