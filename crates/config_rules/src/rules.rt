ghost use Rattle.std.specs.Prelude.{◌≡◌};
ghost use Rattle.config_rules.specs.ConfigRules.{number_of_rule};

/// The rules over a whole configuration, in the order in which they are tried.
#[derive(Clone, Copy, Debug, PartialEq, Eq)]
pub enum ConfigRule {
    /// A name is not declared.
    Undeclared,
    /// The end of the simulation is not given as its windows ask, or is too far off.
    NoEnd,
    /// A mesh has not exactly one provider.
    NoProvider,
    /// A received mesh is not provided by the one it comes from, or received by its provider, or
    /// twice.
    WronglyReceived,
    /// Data are not on their mesh, or what is written or read is not on an own mesh.
    OffMesh,
    /// Data are written twice.
    WrittenTwice,
    /// A mapping or a watch-point does not fit its meshes.
    WronglyMapped,
    /// An exchange lacks a mapping.
    Unmapped,
    /// A scheme's participants are not told as its kind asks.
    WrongMembers,
    /// An exchange's ends are not two members of its scheme.
    WrongEnds,
    /// An exchange's mesh is not provided by one end and received by the other.
    UnsharedMesh,
    /// An exchange's data are not written at one end, or not read at the other.
    UnusedExchange,
    /// A read entry is not fed by exactly one exchange.
    Unfed,
    /// Two participants meet in two schemes.
    MetTwice,
    /// A participant is in two implicit schemes.
    TwoImplicit,
    /// Firsts before seconds go round in a circle.
    Cycle,
    /// A participant is in no scheme.
    NoScheme,
    /// An explicit scheme has a measure, or an implicit one has none.
    WrongMeasures,
    /// A measure's data are not exchanged by its scheme.
    UncarriedMeasure,
    /// A scheme's numbers of iterations do not suit it.
    WrongIterations,
    /// An acceleration does not suit its scheme.
    WrongAcceleration,
    /// An acceleration has more than 20 components a vertex.
    WideAcceleration,
    /// The first participant's steps are the windows, and the schemes are not one serial-explicit
    /// scheme with an exchange from its first to its second.
    WrongWindows,
    /// An action sums nothing, or what it may not.
    WrongAction,
}

impl ConfigRule {
    /// The number by which a refusal names the rule.
    pub fn number(self) -> u8
        ensures { result ≡ number_of_rule self }
    {
        match self {
            ConfigRule::Undeclared => 9,
            ConfigRule::NoEnd => 10,
            ConfigRule::NoProvider => 11,
            ConfigRule::WronglyReceived => 12,
            ConfigRule::OffMesh => 13,
            ConfigRule::WrittenTwice => 14,
            ConfigRule::WronglyMapped => 15,
            ConfigRule::Unmapped => 16,
            ConfigRule::WrongMembers => 17,
            ConfigRule::WrongEnds => 18,
            ConfigRule::UnsharedMesh => 19,
            ConfigRule::UnusedExchange => 20,
            ConfigRule::Unfed => 21,
            ConfigRule::MetTwice => 22,
            ConfigRule::TwoImplicit => 23,
            ConfigRule::Cycle => 24,
            ConfigRule::NoScheme => 25,
            ConfigRule::WrongMeasures => 26,
            ConfigRule::UncarriedMeasure => 27,
            ConfigRule::WrongIterations => 28,
            ConfigRule::WrongAcceleration => 29,
            ConfigRule::WideAcceleration => 30,
            ConfigRule::WrongWindows => 33,
            ConfigRule::WrongAction => 35,
        }
    }
}
