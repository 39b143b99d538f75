ghost use Rattle.std.specs.Prelude.{◌≡◌};
ghost use Rattle.cpl_rules.specs.Refused.{number_of_rule};

use cpl_tables::Place;

/// The rules on tables, in the order in which they are tried.
#[derive(Clone, Copy, Debug, PartialEq, Eq)]
pub enum Rule {
    /// A table has a key that is not listed for it.
    UnknownKey,
    /// A required key is missing.
    MissingKey,
    /// A value has another type, or is a word that is not listed.
    WrongType,
    /// A number, name or text is not spelled as it has to be, or is out of range.
    BadSpelling,
    /// A list is too short or too long, or the file has too many tables of a kind.
    BadLength,
    /// Two tables of a kind have one name, or a list of names has one twice.
    Repeated,
}

impl Rule {
    /// The number by which a refusal names the rule.
    pub fn number(self) -> u8
        ensures { result ≡ number_of_rule self }
    {
        match self {
            Rule::UnknownKey => 3,
            Rule::MissingKey => 4,
            Rule::WrongType => 5,
            Rule::BadSpelling => 6,
            Rule::BadLength => 7,
            Rule::Repeated => 8,
        }
    }
}

/// The first broken rule of a file, and its first place.
#[derive(Clone, Copy, Debug, PartialEq, Eq)]
pub struct Refusal {
    /// The rule's number.
    pub rule: u8,
    /// Where it is broken.
    pub place: Place,
}
