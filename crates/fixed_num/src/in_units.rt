ghost use Rattle.std.specs.Prelude.{◌≡◌, ◌≤◌, ◌*◌, ◌^◌, ⊤, unsigned_abs};

use crate::value::Value;

/// A number of units whose square is small enough to be summed: within 4·10^13.
pub trait InUnits: Copy {
    ghost use Rattle.std.specs.Prelude.{ℤ};

    ghost units: { Self → ℤ };

    ghost is_small: { Self → Type 0 };

    /// The number in units.
    fn units(self) -> i64
        requires { is_small self }
        ensures value { result ≡ units self }
        ensures small { unsigned_abs result ≤ 4 * 10 ^ 13 };
}

impl InUnits for i64 {
    ghost units = { λ x. x };

    ghost is_small = { λ x. unsigned_abs x ≤ 4 * 10 ^ 13 };

    fn units(self) -> i64 {
        self
    }
}

impl InUnits for Value {
    ghost units = { λ v. v };

    // A Value is within 10^13.
    ghost is_small = { λ v. ⊤ };

    fn units(self) -> i64 {
        self.get()
    }
}
