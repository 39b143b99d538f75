//! The nodes of a plan, in the order in which they are solved.
ghost use Rattle.std.specs.Prelude.{◌≡◌, ◌≢◌, ◌≤◌, ℕ, ◌++◌, IfOk, OnOk, length, map, filter, slice_index_or};
ghost use Rattle.plan_order.specs.NodeOrder.{IsNodeOrder};
ghost use Rattle.cpl_plan.specs.PlanNodes.{node_members, solved_before};
ghost use Rattle.cpl_config.specs.declared.config.SchemeTable.{SchemeTable as SchemeRecord};
ghost use Rattle.cpl_config.specs.SoundConfig.{IsSoundConfig};
ghost use Rattle.config_rules.specs.ConfigRules.{IsAccepted};
ghost use Rattle.config_rules.specs.Members.{is_implicit};
ghost use Rattle.config_laws.specs.Numbered.{numbers_in, first_and_second, befores_in, node_numbers};
ghost use Rattle.plan_build.specs.Nodes.{implicit_numbers, node_name};
ghost use Rattle.plan_build.specs.PlanOf.{plan_of};

use config_rules::groups::is_implicit;
use cpl_config::{Config, KindWord, SchemeTable};
use cpl_plan::{Node, OrderErr, PartId, SchemeId, node_order};
use fixed_num::Memory;
use scheme_parts::{NumberedConfig, members_of};
use std::alloc::Global;

/// The nodes of the plan of an accepted configuration, in order.
pub(crate) fn nodes_of(alloc: Global, config: &NumberedConfig) -> Result<Vec<Node>, Memory>
    requires { IsAccepted config.now }
    ensures { IfOk result (λ nodes. let plan = plan_of config.now nodes.items in IsNodeOrder (node_members plan) (solved_before plan) nodes.items) }
{
    let whole = config.config();
    let numbers = implicit_numbers(alloc, whole.scheme.as_slice())?;
    let order = order_of(alloc, config, whole)?;
    let nodes = named(alloc, order.as_slice(), numbers.as_slice())?;
    Ok(nodes)
}

/// The order of the nodes, where implicit schemes are numbered among themselves. It has no cycle.
fn order_of(alloc: Global, config: &NumberedConfig, whole: &Config) -> Result<Vec<Node>, Memory>
    requires same { whole.now ≡ config.now }
    requires sound { IsSoundConfig whole.now }
    requires accepted { IsAccepted whole.now }
    ensures { IfOk result (λ nodes. IsNodeOrder (node_numbers whole.now) (befores_in whole.now (whole.now).scheme) nodes.items) }
{
    let groups = groups_in(alloc, config, whole.scheme.as_slice())?;
    let befores = befores_in(alloc, config, whole.scheme.as_slice())?;
    let parts = whole.participant.len() as u32;
    match node_order(alloc, parts, groups.as_slice(), befores.as_slice()) {
        Ok(order) => Ok(order),
        Err(error) => Err(memory_of(error)),
    }
}

/// The error that is no cycle.
fn memory_of(error: OrderErr) -> Memory
    requires { (at : ℕ) → error ≢ OrderErr.Cycle at }
{
    match error {
        OrderErr::Memory => Memory,
        OrderErr::Cycle { at: _at } => unreachable!(),
    }
}

/// The members of each implicit scheme.
fn groups_in(
    alloc: Global,
    config: &NumberedConfig,
    tables: &[SchemeTable],
) -> Result<Vec<Vec<PartId>>, Memory>
    ensures { IfOk result (λ groups. map (λ group. group.items) groups.items ≡ map (numbers_in config.now) (filter is_implicit tables.now)) }
{
    let mut groups = Vec::new(alloc);
    'tables: for table in tables {
        if is_implicit(table) {
            groups.push(members_of(alloc, config, table)?)?;
        }
    }
    Ok(groups)
}

/// The first and the second of each serial-explicit scheme.
fn befores_in(
    alloc: Global,
    config: &NumberedConfig,
    tables: &[SchemeTable],
) -> Result<Vec<(PartId, PartId)>, Memory>
    ensures { IfOk result (λ befores. befores.items ≡ befores_in config.now tables.now) }
{
    let mut befores = Vec::new(alloc);
    'tables: for table in tables {
        push_before(config, table, &mut befores)?;
    }
    Ok(befores)
}

fn push_before(
    config: &NumberedConfig,
    table: &SchemeTable,
    to: &mut Vec<(PartId, PartId)>,
) -> Result<(), Memory>
    ensures { OnOk result (to.new.items ≡ to.old.items ++ first_and_second config.now (table.now).kind (table.now).first (table.now).second) }
{
    match (table.kind, &table.first, &table.second) {
        (KindWord::SerialExplicit, Some(first), Some(second)) => {
            to.push((config.part_number(first), config.part_number(second)))?;
            Ok(())
        }
        _ => Ok(()),
    }
}

/// The numbers of the implicit schemes.
fn implicit_numbers(alloc: Global, tables: &[SchemeTable]) -> Result<Vec<SchemeId>, Memory>
    requires { length tables.now ≤ 64 }
    ensures { IfOk result (λ numbers. numbers.items ≡ implicit_numbers tables.now) }
{
    let mut numbers = Vec::new(alloc);
    let mut number = 0;
    'tables: for table in tables {
        if is_implicit(table) {
            numbers.push(number)?;
        }
        number += 1;
    }
    Ok(numbers)
}

/// The nodes, with the numbers of schemes in place of those among the implicit ones.
fn named(alloc: Global, nodes: &[Node], numbers: &[SchemeId]) -> Result<Vec<Node>, Memory>
    ensures { IfOk result (λ named. named.items ≡ map (node_name numbers.now) nodes.now) }
{
    let mut named = Vec::with_capacity(alloc, nodes.len())?;
    'nodes: for node in nodes {
        named.push(node_name(*node, numbers))?;
    }
    Ok(named)
}

fn node_name(node: Node, numbers: &[SchemeId]) -> Node
    ensures { result ≡ node_name numbers.now node }
{
    match node {
        Node::Single(part) => Node::Single(part),
        Node::Group(place) => Node::Group(number_at(numbers, place)),
    }
}

/// The number at a place; 0 past the end.
fn number_at(numbers: &[SchemeId], place: u32) -> SchemeId
    ensures { result ≡ slice_index_or numbers.now place 0 }
{
    match numbers.get(place as usize) {
        Some(number) => *number,
        None => 0,
    }
}
