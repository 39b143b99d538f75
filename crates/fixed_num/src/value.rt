ghost use Rattle.std.specs.Prelude.{◌≡◌, pos, ◌≤ℤ◌, IfSome, IsSome, ◌↔◌};
ghost use Rattle.fixed_num.specs.Numbers.{IsValue};

use std::marker::Model;

/// The greatest absolute value of a [`Value`], in units: ten million.
pub const VALUE_LIMIT: i64 = 10_000_000_000_000;

/// A quantity of the simulation, in units (millionths), within ten million in absolute value.
#[derive(Clone, Copy, Debug, PartialEq, Eq, PartialOrd, Ord, Hash)]
pub struct Value {
    units: i64,
}

impl Model for Value {
    ghost use Rattle.std.specs.Prelude.{ℤ};
    ghost use Rattle.fixed_num.specs.Numbers.{IsValue};

    ghost Value = { ℤ };

    ghost view = { λ v. v.units };

    ghost invariant = { λ v. IsValue v.units };

    ghost inverse = { λ units. record { units = units } };
}

impl Value {
    /// The value in units.
    pub fn get(self) -> i64
        ensures units { result ≡ self }
        ensures range { IsValue result }
    {
        self.units
    }
}

impl Default for Value {
    ghost is_default = { λ v. v ≡ pos 0 };

    /// Zero, the value of a mesh on which nothing was written yet.
    fn default() -> Value {
        Value { units: 0 }
    }
}

/// The value of so many units, or None exactly where they are out of range.
pub fn value_of(units: i128) -> Option<Value>
    ensures in_range { IsSome result ↔ IsValue units }
    ensures same { IfSome result (λ value. value ≡ units) }
{
    let limit = i128::from(VALUE_LIMIT);
    if units < -limit || limit < units {
        return None;
    }
    Some(Value {
        units: units as i64,
    })
}
