//! What is true of the definitions alone, as laws, which the prover checks. The calls do nothing.
ghost use Rattle.std.specs.Prelude.{◌≡◌, List, [], ◌∷◌, All, length, map};
ghost use Rattle.cpl_config.specs.declared.config.Config.{Config};
ghost use Rattle.case_files.specs.declared.case_file.CaseFile.{CaseFile};
ghost use Rattle.case_files.specs.SoundCase.{IsSoundCaseFile};
ghost use Rattle.case_rules.specs.CaseRules.{case_rules, number_of_case_rule, AreAccepted};
ghost use Rattle.case_rules.specs.SuitedCases.{SuitParticipants, HaveFewVertices};

/// What cases that break no rule give, one for each participant. Each has one mesh for each mesh that
/// its participant provides, with 1 to 10,000 vertices in as many dimensions; a solver can be made
/// from it, which reads and writes as many values as its participant; and 1,024 of its steps reach the
/// end of a window, unless each of them makes one.
pub fn accepted_cases_suit_their_participants()
    ensures suited { (config : Config) (cases : List CaseFile) → length cases ≡ length config.participant → All IsSoundCaseFile cases
        → AreAccepted config cases → SuitParticipants config cases }
    ensures vertices { (config : Config) (cases : List CaseFile) → length cases ≡ length config.participant → All IsSoundCaseFile cases
        → AreAccepted config cases → HaveFewVertices cases }
{}

/// That is all that the rules ask: cases that suit their participants break none.
pub fn what_suits_its_participant_is_accepted()
    ensures { (config : Config) (cases : List CaseFile) → SuitParticipants config cases → AreAccepted config cases }
{}

/// The rules on cases are numbered 31 and 32, in the order in which they are tried.
pub fn case_rules_are_numbered_in_order()
    ensures { map number_of_case_rule case_rules ≡ 31 ∷ 32 ∷ [] }
{}
