ghost use Rattle.std.specs.Prelude.{◌≡◌};
ghost use Rattle.case_rules.specs.CaseRules.{number_of_case_rule};

/// The rules over the case files, in the order in which they are tried.
#[derive(Clone, Copy, Debug, PartialEq, Eq)]
pub enum CaseRule {
    /// A case file does not suit its participant: its meshes, its state, what is written, or what
    /// its kind of solver asks.
    Unsuited,
    /// A window takes more than 1,024 steps; not asked of a participant whose steps make the windows.
    TooManySteps,
}

impl CaseRule {
    /// The number by which a refusal names the rule.
    pub fn number(self) -> u8
        ensures { result ≡ number_of_case_rule self }
    {
        match self {
            CaseRule::Unsuited => 31,
            CaseRule::TooManySteps => 32,
        }
    }
}
