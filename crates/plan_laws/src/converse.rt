//! From a plan back to a configuration.
ghost use Rattle.std.specs.Prelude.{◌≡◌};
ghost use Rattle.cpl_plan.specs.declared.parts.PlanParts.{PlanParts};
ghost use Rattle.cpl_plan.specs.ValidPlan.{IsValidPlan};
ghost use Rattle.cpl_config.specs.declared.config.Config.{Config};
ghost use Rattle.cpl_config.specs.SoundConfig.{IsSoundConfig};
ghost use Rattle.config_rules.specs.ConfigRules.{IsAccepted};
ghost use Rattle.plan_build.specs.PlanOf.{IsPlanOf};
ghost use Rattle.plan_laws.specs.ConfigOfPlan.{config_of_plan};

/// Every valid plan is the plan of an accepted configuration, that which has its names: the
/// configuration's texts, numbers and lists are within their limits, it breaks no rule, and the plan
/// says what it says.
pub fn every_valid_plan_is_of_an_accepted_configuration()
    ensures sound { (plan : PlanParts) → IsValidPlan plan → IsSoundConfig (config_of_plan plan) }
    ensures accepted { (plan : PlanParts) → IsValidPlan plan → IsAccepted (config_of_plan plan) }
    ensures plan { (plan : PlanParts) → IsValidPlan plan → IsPlanOf (config_of_plan plan) plan }
{}

/// A configuration that has a valid plan has no other plan.
pub fn a_configuration_has_one_plan()
    ensures { (config : Config) (plan other : PlanParts) → IsValidPlan plan → IsPlanOf config plan
        → IsPlanOf config other → other ≡ plan }
{}
