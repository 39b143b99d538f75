//! What names are to a plan: nothing but names.
ghost use Rattle.std.specs.Prelude.{◌≡◌};
ghost use Rattle.cpl_plan.specs.declared.parts.PlanParts.{PlanParts};
ghost use Rattle.cpl_config.specs.SoundConfig.{IsSoundConfig};
ghost use Rattle.config_rules.specs.ConfigRules.{IsAccepted};
ghost use Rattle.cpl_config.specs.declared.config.Config.{Config};
ghost use Rattle.plan_build.specs.PlanOf.{IsPlanOf};
ghost use Rattle.plan_laws.specs.Renaming.{Renaming, KeepsApart, renamed};
ghost use Rattle.plan_laws.specs.Unnamed.{unnamed};

/// An accepted configuration and one that differs from it in names alone, in all places alike, have
/// plans that differ in names alone: without their names they are one.
pub fn other_names_give_the_same_plan_but_for_names()
    ensures { (names : Renaming) (config : Config) (plan other : PlanParts) → KeepsApart names
        → IsSoundConfig config → IsAccepted config → IsPlanOf config plan → IsPlanOf (renamed names config) other
        → unnamed other ≡ unnamed plan }
{}
