ghost use Rattle.std.specs.Prelude.{◌≡◌, IfOk, IsTrue, map};
ghost use Rattle.plan_order.specs.GroupTests.{are_groups, are_pairs};

use crate::Node::{Group, Single};
use crate::{Node, OrderErr, node_order};
use std::alloc::{AllocError, Global};
use std::process::Abort;
use std::test::Fail;

fn lists(alloc: Global, groups: &[&[u32]]) -> Result<Vec<Vec<u32>>, AllocError>
    ensures { IfOk result (λ lists. map (λ list. list.items) lists.items
        ≡ map (λ group. group.now) groups.now) }
{
    let mut lists = Vec::new(alloc);
    for group in groups {
        lists.push(Vec::from_slice(alloc, group)?)?;
    }
    Ok(lists)
}

fn order_of(
    alloc: Global,
    parts: u32,
    groups: &[&[u32]],
    befores: &[(u32, u32)],
) -> Result<Vec<Node>, OrderErr>
    requires groups { IsTrue (are_groups parts (map (λ group. group.now) groups.now)) }
    requires pairs { IsTrue (are_pairs parts befores.now) }
{
    let lists = lists(alloc, groups)?;
    node_order(alloc, parts, &lists, befores)
}

fn is_order(
    rt: &impl Abort,
    alloc: Global,
    parts: u32,
    groups: &[&[u32]],
    befores: &[(u32, u32)],
    expected: &[Node],
) -> Result<(), Fail>
    requires groups { IsTrue (are_groups parts (map (λ group. group.now) groups.now)) }
    requires pairs { IsTrue (are_pairs parts befores.now) }
{
    let order = order_of(alloc, parts, groups, befores)?;
    assert!(rt; *order == *expected);
    Ok(())
}

fn is_cycle(
    rt: &impl Abort,
    alloc: Global,
    parts: u32,
    groups: &[&[u32]],
    befores: &[(u32, u32)],
    at: usize,
)
    requires groups { IsTrue (are_groups parts (map (λ group. group.now) groups.now)) }
    requires pairs { IsTrue (are_pairs parts befores.now) }
{
    assert!(rt; order_of(alloc, parts, groups, befores) == Err(OrderErr::Cycle { at }));
}

#[test]
fn the_least_first_member_that_waits_for_none_goes_first(rt: HostRuntime) -> Result<(), Fail> {
    let alloc = rt.alloc();
    is_order(
        &rt,
        alloc,
        5,
        &[&[0, 3], &[4, 1]],
        &[(1, 3)],
        &[Single(2), Group(1), Group(0)],
    )
}

#[test]
fn a_cycle_is_told_at_its_last_pair(rt: HostRuntime) {
    let alloc = rt.alloc();
    is_cycle(
        &rt,
        alloc,
        4,
        &[&[0, 1]],
        &[(0, 2), (3, 2), (2, 1), (1, 3)],
        2,
    );
}
