//! What is true of the plan of a configuration, by the definitions alone.
ghost use Rattle.std.specs.Prelude.{◌≡◌, List, map};
ghost use Rattle.plan_order.specs.NodeOrder.{IsNodeOrder};
ghost use Rattle.plan_order.specs.declared.node.Node.{Node};
ghost use Rattle.config_laws.specs.Numbered.{befores_in, node_numbers};
ghost use Rattle.plan_build.specs.Nodes.{implicit_numbers, node_name};
ghost use Rattle.cpl_plan.specs.ValidPlan.{IsValidPlan};
ghost use Rattle.cpl_plan.specs.declared.parts.PlanParts.{PlanParts};
ghost use Rattle.cpl_config.specs.SoundConfig.{IsSoundConfig};
ghost use Rattle.cpl_config.specs.declared.config.Config.{Config};
ghost use Rattle.config_rules.specs.ConfigRules.{IsAccepted};
ghost use Rattle.plan_build.specs.PlanOf.{plan_of, IsPlanOf};

/// The plan of an accepted configuration is valid.
pub fn the_plan_is_valid()
    ensures { (config : Config) (plan : PlanParts) → IsSoundConfig config → IsAccepted config → IsPlanOf config plan → IsValidPlan plan }
{}

/// A configuration has one plan at most.
pub fn there_is_one_plan()
    ensures { (config : Config) (plan other : PlanParts) → IsSoundConfig config → IsAccepted config → IsPlanOf config plan → IsPlanOf config other → plan ≡ other }
{}

/// The nodes of an accepted configuration stand in order in its plan where they do by the numbers that
/// implicit schemes have among themselves.
pub fn nodes_stand_in_order()
    ensures { (config : Config) (order : List Node) → IsSoundConfig config → IsAccepted config → IsNodeOrder (node_numbers config) (befores_in config config.scheme) order
        → IsPlanOf config (plan_of config (map (node_name (implicit_numbers config.scheme)) order)) }
{}
