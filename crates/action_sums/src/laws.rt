//! What is true of the definitions alone. The calls do nothing.
ghost use Rattle.std.specs.Prelude.{◌≡◌, ◌≤◌, sum, All};
ghost use Rattle.cpl_config.specs.declared.config.Config.{Config};
ghost use Rattle.cpl_config.specs.declared.config.PartTable.{PartTable};
ghost use Rattle.cpl_config.specs.SoundConfig.{IsSoundConfig, IsSoundParticipant};
ghost use Rattle.case_files.specs.declared.case_file.CaseFile.{CaseFile};
ghost use Rattle.case_files.specs.SoundCase.{IsSoundCaseFile};
ghost use Rattle.config_rules.specs.ConfigRules.{IsAccepted};
ghost use Rattle.case_rules.specs.CaseRules.{written_values};
ghost use Rattle.data_actions.specs.SoundSums.{AreSums};
ghost use Rattle.action_sums.specs.ActionSums.{ActionSums, written_lengths};

/// What a solver with sums asks of them, of the actions of each participant of an accepted
/// configuration, whatever its case: they are sums of the values that it writes, no place is one of
/// two targets, and no place of a source one of a target.
pub fn accepted_actions_are_sums()
    ensures sums { (config : Config) (case_file : CaseFile) → IsSoundConfig config → IsAccepted config
        → All (λ (part : PartTable). AreSums (written_values config part case_file) (ActionSums part (written_lengths config part case_file))) config.participant }
    ensures few { (config : Config) (part : PartTable) (case_file : CaseFile)
        → IsSoundConfig config → IsSoundParticipant part → IsSoundCaseFile case_file
        → sum (written_lengths config part case_file) ≤ 1920000 }
{}
