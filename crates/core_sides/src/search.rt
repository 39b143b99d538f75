//! Who of those that are asked has not given what is asked for.

ghost use Rattle.std.specs.Prelude.{◌≡◌, if◌then◌else◌, Some, None};
ghost use Rattle.std.specs.Option.{option_or};
ghost use Rattle.core_sides.specs.Searched.{and_then};

use plan_order::PartId;

/// What is found among those that are asked.
#[derive(Clone, Copy, Debug, PartialEq, Eq)]
pub struct Search {
    /// The first that has ended before giving it.
    pub cut: Option<PartId>,
    /// The first that has not given it.
    pub waits: Option<PartId>,
}

impl Search {
    /// Nobody is asked.
    pub fn nobody() -> Search
        ensures { result ≡ record { cut = None; waits = None } }
    {
        Search {
            cut: None,
            waits: None,
        }
    }

    /// One more is asked.
    pub fn and(self, owner: PartId, is_given: bool, has_ended: bool) -> Search
        ensures { result ≡ and_then self owner is_given has_ended }
    {
        Search {
            cut: first_of(self.cut, !is_given && has_ended, owner),
            waits: first_of(self.waits, !is_given, owner),
        }
    }
}

/// What was found, or else this one where it is meant.
fn first_of(found: Option<PartId>, is_meant: bool, owner: PartId) -> Option<PartId>
    ensures { result ≡ option_or found (if is_meant then Some owner else None) }
{
    match found {
        Some(part) => Some(part),
        None => { if is_meant { Some(owner) } else { None } }
    }
}
