ghost use Rattle.std.specs.Prelude.{◌≡◌, ◌^◌, IfSome, IsSome, ◌↔◌};
ghost use Rattle.fixed_num.specs.Numbers.{IsFactor};
ghost use Rattle.fixed_num.specs.Relaxation.{within};

use std::marker::Model;

/// The greatest absolute value of a [`Factor`], in units: one thousand.
pub const FACTOR_LIMIT: i64 = 1_000_000_000;

/// A coefficient or a relaxation factor, in units (millionths), within a thousand in absolute value.
#[derive(Clone, Copy, Debug, PartialEq, Eq, PartialOrd, Ord, Hash)]
pub struct Factor {
    units: i64,
}

impl Model for Factor {
    ghost use Rattle.std.specs.Prelude.{ℤ};
    ghost use Rattle.fixed_num.specs.Numbers.{IsFactor};

    ghost Value = { ℤ };

    ghost view = { λ f. f.units };

    ghost invariant = { λ f. IsFactor f.units };

    ghost inverse = { λ units. record { units = units } };
}

impl Factor {
    /// The factor in units.
    pub fn get(self) -> i64
        ensures units { result ≡ self }
        ensures range { IsFactor result }
    {
        self.units
    }
}

/// The factor of so many units, or None exactly where they are out of range.
pub fn factor_of(units: i128) -> Option<Factor>
    ensures in_range { IsSome result ↔ IsFactor units }
    ensures same { IfSome result (λ factor. factor ≡ units) }
{
    let limit = i128::from(FACTOR_LIMIT);
    if units < -limit || limit < units {
        return None;
    }
    Some(Factor {
        units: units as i64,
    })
}

/// The factor that is nearest to so many units.
pub(crate) fn nearest_factor(units: i128) -> Factor
    ensures { result ≡ within (10 ^ 9) units }
{
    let limit = i128::from(FACTOR_LIMIT);
    Factor {
        units: units.clamp(-limit, limit) as i64,
    }
}
