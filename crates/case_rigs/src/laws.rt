//! What is true of the definitions alone, as laws, which the prover checks. The calls do nothing.
ghost use Rattle.std.specs.Prelude.{◌≡◌, ℕ, List, All, Some, length, slice_get};
ghost use Rattle.cpl_config.specs.declared.config.Config.{Config};
ghost use Rattle.cpl_config.specs.SoundConfig.{IsSoundConfig};
ghost use Rattle.case_files.specs.declared.case_file.CaseFile.{CaseFile};
ghost use Rattle.case_files.specs.SoundCase.{IsSoundCaseFile};
ghost use Rattle.config_rules.specs.ConfigRules.{IsAccepted};
ghost use Rattle.case_rules.specs.CaseRules.{AreAccepted};
ghost use Rattle.cpl_plan.specs.declared.parts.PlanParts.{PlanParts};
ghost use Rattle.plan_build.specs.PlanOf.{IsPlanOf};
ghost use Rattle.case_rigs.specs.CaseRigs.{RigParts, case_rigs};
ghost use Rattle.case_rigs.specs.FitRigs.{IsRigOf};

/// What the participants of an accepted case are run with fits the plan of its configuration: each has
/// a mesh for each that it provides, in order, which has a vertex and as many dimensions as the plan
/// says; and its solver reads and writes as many values as its read and its write entries have over
/// these meshes.
pub fn rigs_fit_the_plan()
    ensures { (config : Config) (cases : List CaseFile) (plan : PlanParts) (part : ℕ) (rig : RigParts)
        → IsSoundConfig config → IsAccepted config
        → length cases ≡ length config.participant → All IsSoundCaseFile cases → AreAccepted config cases
        → IsPlanOf config plan → slice_get (case_rigs config cases) part ≡ Some rig → IsRigOf plan part rig }
{}
