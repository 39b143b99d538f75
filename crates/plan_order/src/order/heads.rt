//! The node of each participant, and the member that is listed first in it.

ghost use Rattle.std.specs.Prelude.{◌≡◌, ℕ, ◌<◌, List, [], All, Contains, IfOk, length, map, slice_index_or};
ghost use Rattle.std.specs.List.{HoldsAt};
ghost use Rattle.plan_order.specs.declared.node.Node.{Node};
ghost use Rattle.plan_order.specs.Groups.{AreGroups, members_of};
ghost use Rattle.plan_order.specs.Heads.{IsFilled, head_of};

use crate::ids::{PartId, SchemeId};
use crate::node::Node;
use std::alloc::{AllocError, Global};

/// The node of each participant.
pub(crate) fn nodes_of(
    alloc: Global,
    parts: u32,
    groups: &[Vec<PartId>],
) -> Result<Vec<Node>, AllocError>
    requires { AreGroups parts (map (λ group. group.items) groups.now) }
    ensures count { IfOk result (λ nodes. length nodes.items ≡ parts) }
    ensures members { let members = members_of parts (map (λ group. group.items) groups.now) in
        IfOk result (λ nodes. (part : ℕ) → part < parts
        → HoldsAt (λ node. Contains (members node) part) nodes.items part) }
{
    let mut nodes = singles(alloc, parts)?;
    for (number, group) in groups.iter().enumerate() {
        join(&mut nodes, group, number as SchemeId);
    }
    Ok(nodes)
}

/// Each participant as a node by itself.
fn singles(alloc: Global, parts: u32) -> Result<Vec<Node>, AllocError>
    ensures count { IfOk result (λ nodes. length nodes.items ≡ parts) }
    ensures single { IfOk result (λ nodes. (part : ℕ) → part < parts
        → HoldsAt (λ node. node ≡ Node.Single part) nodes.items part) }
{
    let mut nodes = Vec::with_capacity(alloc, parts as usize)?;
    for part in 0..parts {
        nodes.push(Node::Single(part))?;
    }
    Ok(nodes)
}

/// Makes the members of a group one node.
fn join(nodes: &mut [Node], group: &[PartId], number: SchemeId)
    requires { All (λ part. part < length nodes.old) group.now }
    ensures joined { (part : ℕ) → Contains group.now part
        → HoldsAt (λ node. node ≡ Node.Group number) nodes.new part }
    ensures others { (part : ℕ) (other : Node) → ¬ Contains group.now part
        → slice_index_or nodes.new part other ≡ slice_index_or nodes.old part other }
{
    for part in group {
        nodes[*part as usize] = Node::Group(number);
    }
}

/// The first member of the node of each participant.
pub(crate) fn heads_of(
    alloc: Global,
    groups: &[Vec<PartId>],
    nodes: &[Node],
) -> Result<Vec<PartId>, AllocError>
    requires { All (IsFilled (map (λ group. group.items) groups.now)) nodes.now }
    ensures { IfOk result (λ heads. heads.items
        ≡ map (head_of (map (λ group. group.items) groups.now)) nodes.now) }
{
    let mut heads = Vec::with_capacity(alloc, nodes.len())?;
    for node in nodes {
        heads.push(head_of(groups, *node))?;
    }
    Ok(heads)
}

/// The first member of a node.
fn head_of(groups: &[Vec<PartId>], node: Node) -> PartId
    requires { IsFilled (map (λ group. group.items) groups.now) node }
    ensures { result ≡ head_of (map (λ group. group.items) groups.now) node }
{
    match node {
        Node::Single(part) => part,
        Node::Group(group) => groups[group as usize][0],
    }
}
