ghost use Rattle.std.specs.Prelude.{◌≡◌, ◌≤◌, ◌^◌, ◌*ℤ◌, ◌↔◌, unsigned_abs, IfSome, IsSome};
ghost use Rattle.fixed_num.specs.Numbers.{IsValue, IsFactor};
ghost use Rattle.line_solvers.specs.Moved.{moved};

use fixed_num::{Value, quot_even, value_of};

/// The units of one whole.
pub(crate) const UNITS: i128 = 1_000_000;

/// A coefficient times a component or a difference of components.
pub(crate) fn weighed(factor: i64, by: i64) -> i128
    requires { IsFactor factor }
    ensures product { result ≡ factor *ℤ by }
    ensures bound { unsigned_abs result ≤ 10 ^ 28 }
{
    i128::from(factor) * i128::from(by)
}

/// The component after so many ticks of this slope, or None exactly where it is no Value.
///
/// The ticks times the slope can pass 128 bits. Then the change is so large that no Value comes out.
pub(crate) fn moved(from: i64, slope: i128, ticks: u64) -> Option<Value>
    requires { IsValue from }
    ensures in_range { IsSome result ↔ IsValue (moved from slope ticks) }
    ensures same { IfSome result (λ value. value ≡ moved from slope ticks) }
{
    match i128::from(ticks).checked_mul(slope) {
        Some(change) => value_of(i128::from(from) + quot_even(change, UNITS)),
        None => None,
    }
}
