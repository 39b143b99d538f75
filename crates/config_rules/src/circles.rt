//! The rule that firsts before seconds do not go round in a circle.
ghost use Rattle.std.specs.Prelude.{◌≡◌, ◌++◌, ◌∷◌, [], ◌&&◌, option_map, find, IfOk, OnOk};
ghost use Rattle.std.specs.List.{list_any};
ghost use Rattle.mesh_rules.specs.Spots.{held_of};
ghost use Rattle.config_rules.specs.Members.{is_implicit, is_member};
ghost use Rattle.config_rules.specs.Circles.{number_of, node_of, step_of, steps_of, is_followed, followed, left_after, is_empty, has_circle};
ghost use Rattle.config_rules.specs.SchemeRules.{closes_circle};

use crate::groups::{first_member, is_implicit, is_member};
use cpl_config::{Config, KindWord, SchemeTable};
use fixed_num::Memory;
use mesh_rules::At;
use std::alloc::Global;

/// From one node to another, which has to wait for it. A node is named by the number of the
/// participant that stands for it, from 0.
#[derive(Clone, Copy, Debug, PartialEq, Eq)]
pub struct Step {
    pub from: usize,
    pub to: usize,
}

/// Whether the serial-explicit schemes up to this one go round in a circle, over the nodes: an
/// implicit scheme is one node.
pub fn closes_circle(alloc: Global, config: &Config, held: At) -> Result<bool, Memory>
    ensures { IfOk result (λ closes. closes ≡ closes_circle config.now (held_of held.entry)) }
{
    match held {
        At::Scheme(earlier, table) => {
            let steps = steps_up_to(alloc, config, earlier, table)?;
            has_circle(alloc, steps)
        }
        _ => Ok(false),
    }
}

/// The steps of some schemes, and of the one after them.
fn steps_up_to(
    alloc: Global,
    config: &Config,
    earlier: &[SchemeTable],
    table: &SchemeTable,
) -> Result<Vec<Step>, Memory>
    ensures { IfOk result (λ steps. steps.items ≡ steps_of config.now (earlier.now ++ table.now ∷ [])) }
{
    let mut steps = steps_of(alloc, config, earlier)?;
    push_step(config, table, &mut steps)?;
    Ok(steps)
}

fn steps_of(alloc: Global, config: &Config, tables: &[SchemeTable]) -> Result<Vec<Step>, Memory>
    ensures { IfOk result (λ steps. steps.items ≡ steps_of config.now tables.now) }
{
    let mut steps = Vec::new(alloc);
    'tables: for table in tables {
        push_step(config, table, &mut steps)?;
    }
    Ok(steps)
}

/// Adds the step of a serial-explicit scheme.
fn push_step(config: &Config, table: &SchemeTable, to: &mut Vec<Step>) -> Result<(), Memory>
    ensures { OnOk result (to.new.items ≡ to.old.items ++ step_of config.now (table.now).kind (table.now).first (table.now).second) }
{
    match (table.kind, &table.first, &table.second) {
        (KindWord::SerialExplicit, Some(first), Some(second)) => {
            to.push(Step {
                from: node_of(config, first.as_str()),
                to: node_of(config, second.as_str()),
            })?;
            Ok(())
        }
        _ => Ok(()),
    }
}

/// The node of a participant: that of the first member of its implicit scheme, or its own.
fn node_of(config: &Config, name: &str) -> usize
    ensures { result ≡ node_of config.now name.now }
{
    match implicit_of(config, name) {
        Some(table) => number_of(config, first_member(table)),
        None => number_of(config, name),
    }
}

/// The implicit scheme of a participant.
fn implicit_of<'a>(config: &'a Config, name: &str) -> Option<&'a SchemeTable>
    ensures { option_map (λ table. table.now) result ≡ find (λ table. is_implicit table && is_member name.now table) (config.now).scheme }
{
    'tables: for table in config.scheme.as_slice() {
        if is_implicit(table) && is_member(name, table) {
            return Some(table);
        }
    }
    None
}

/// The number of a participant, from 0.
fn number_of(config: &Config, name: &str) -> usize
    ensures { result ≡ number_of config.now name.now }
{
    let tables = config.participant.as_slice();
    'tables: for (index, table) in tables.iter().enumerate() {
        if table.name.as_str() == name {
            return index;
        }
    }
    0
}

/// Whether some steps lie in a circle. Those that no step leads to are taken away, again and again.
fn has_circle(alloc: Global, steps: Vec<Step>) -> Result<bool, Memory>
    ensures { IfOk result (λ circle. circle ≡ has_circle steps.items) }
{
    let times = steps.as_slice().len();
    let left = left_after(alloc, times, steps)?;
    Ok(!is_empty(left.as_slice()))
}

/// What is left when steps that no step leads to are taken away so many times.
fn left_after(alloc: Global, times: usize, steps: Vec<Step>) -> Result<Vec<Step>, Memory>
    ensures { IfOk result (λ left. left.items ≡ left_after times steps.items) }
{
    let mut left = steps;
    'times: for _time in 0..times {
        left = followed(alloc, left.as_slice())?;
    }
    Ok(left)
}

fn is_empty(steps: &[Step]) -> bool
    ensures { result ≡ is_empty steps.now }
{
    steps.len() == 0
}

/// The steps that begin where one of them ends.
fn followed(alloc: Global, steps: &[Step]) -> Result<Vec<Step>, Memory>
    ensures { IfOk result (λ left. left.items ≡ followed steps.now) }
{
    let mut left = Vec::new(alloc);
    'steps: for step in steps {
        if is_followed(steps, *step) {
            left.push(*step)?;
        }
    }
    Ok(left)
}

/// Whether a step begins where one of some steps ends.
fn is_followed(steps: &[Step], step: Step) -> bool
    ensures { result ≡ is_followed steps.now step }
{
    'steps: for other in steps {
        if other.to == step.from {
            return true;
        }
    }
    false
}
