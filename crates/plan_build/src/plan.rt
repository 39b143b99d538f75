//! The plan of an accepted configuration.
ghost use Rattle.std.specs.Prelude.{◌≡◌, IfOk};
ghost use Rattle.cpl_config.specs.SoundConfig.{IsSoundConfig};
ghost use Rattle.config_rules.specs.ConfigRules.{IsAccepted};
ghost use Rattle.config_laws.specs.FitNumbers.{HasTime};
ghost use Rattle.plan_build.specs.PlanOf.{plan_of, IsPlanOf};

use crate::data::data_list;
use crate::meshes::meshes;
use crate::nodes::nodes_of;
use crate::participants::participants;
use crate::schemes::{AllSchemes, all_schemes};
use crate::windows::{end_ticks, most_windows, window_method, window_size};
use cpl_config::Config;
use cpl_plan::{Node, Plan, PlanParts};
use fixed_num::{Items, Memory};
use scheme_parts::NumberedConfig;
use std::alloc::Global;

/// The plan of an accepted configuration: what it says, in numbers.
///
/// Data, meshes, participants, schemes and exchanges have the numbers of their places, from 0.
/// Takes near linear time. The only error is `Memory`.
pub fn build(alloc: Global, config: &Config) -> Result<Plan, Memory>
    requires sound { IsSoundConfig config.now }
    requires accepted { IsAccepted config.now }
    ensures { IfOk result (IsPlanOf config.now) }
{
    let parts = parts_of(alloc, config)?;
    Ok(Plan::from_parts(parts))
}

/// The parts of the plan, with the nodes in their order.
fn parts_of(alloc: Global, config: &Config) -> Result<PlanParts, Memory>
    requires sound { IsSoundConfig config.now }
    requires accepted { IsAccepted config.now }
    ensures { IfOk result (IsPlanOf config.now) }
{
    let numbered = NumberedConfig::new(alloc, config)?;
    let nodes = nodes_of(alloc, &numbered)?;
    let parts = parts_with(alloc, &numbered, nodes)?;
    Ok(parts)
}

/// The parts of the plan with these nodes.
fn parts_with(alloc: Global, config: &NumberedConfig, nodes: Vec<Node>) -> Result<PlanParts, Memory>
    requires { HasTime config.now }
    ensures { IfOk result (λ parts. parts ≡ plan_of config.now nodes.items) }
{
    let whole = config.config();
    let parts = participants(alloc, config, whole.participant.as_slice())?;
    let meshes = meshes(alloc, config, whole.mesh.as_slice())?;
    let data_list = data_list(alloc, whole.data_list.as_slice())?;
    let AllSchemes { schemes, exchanges } = all_schemes(alloc, config)?;
    Ok(PlanParts {
        method: window_method(whole.window_method),
        window: window_size(whole),
        end_time: end_ticks(whole),
        most_windows: most_windows(whole),
        parts: Items::from_vec(parts),
        meshes: Items::from_vec(meshes),
        data_list: Items::from_vec(data_list),
        schemes: Items::from_vec(schemes),
        exchanges: Items::from_vec(exchanges),
        nodes: Items::from_vec(nodes),
    })
}
