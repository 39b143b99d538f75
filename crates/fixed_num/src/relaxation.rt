ghost use Rattle.std.specs.Prelude.{◌≡◌, ◌↔◌, ◌*◌, ◌^◌, ◌≤◌, ◌≤ℤ◌, ℤ, pos, neg_ℤ, ◌-ℤ◌, ◌*ℤ◌, unsigned_abs, IfSome, IsSome};
ghost use Rattle.fixed_num.specs.Numbers.{IsValue, IsFactor, quotient};
ghost use Rattle.fixed_num.specs.Relaxation.{relaxed, projection, aitken_factor};

use crate::factor::{Factor, nearest_factor};
use crate::quotient::quot_even;
use crate::value::{Value, value_of};

/// The greatest absolute value of the quotient in Aitken's factor, in units: a million.
const PROJECTION_LIMIT: i128 = 1_000_000_000_000;

/// A step from `x` towards `y`: `x + q(w·(y - x), 10^6)`, or None exactly where that is no Value.
pub fn relax(x: Value, y: Value, w: Factor) -> Option<Value>
    ensures in_range { IsSome result ↔ IsValue (relaxed x y w) }
    ensures same { IfSome result (λ value. value ≡ relaxed x y w) }
{
    let way = i128::from(y.get() - x.get());
    value_of(i128::from(x.get()) + scaled(w.get(), way))
}

/// `q(w·a, 10^6)`, of an `a` within 2·10^13.
fn scaled(w: i64, a: i128) -> i128
    requires factor { IsFactor w }
    requires small { unsigned_abs a ≤ 2 * 10 ^ 13 }
    ensures value { result ≡ quotient (w *ℤ a) (10 ^ 6) }
    ensures bound { unsigned_abs result ≤ 2 * 10 ^ 16 }
{
    quot_even(i128::from(w) * a, 1_000_000)
}

/// Aitken's next factor: `-q(w·Q, 10^6)` within the Factors, where Q is `q(10^6·dot, square)` within
/// 10^12.
///
/// `dot` is the sum of products of the last residual and the change of residuals, `square` the sum of
/// the squares of that change.
pub fn aitken(w: Factor, dot: i128, square: i128) -> Factor
    requires dot { unsigned_abs dot ≤ 16 * 10 ^ 31 }
    requires positive { pos 1 ≤ℤ square }
    requires square { square ≤ℤ pos (32 * 10 ^ 31) }
    ensures { result ≡ aitken_factor w dot (unsigned_abs square) }
{
    nearest_factor(-scaled(w.get(), projection(dot, square)))
}

/// `q(10^6·dot, square)` within 10^12.
fn projection(dot: i128, square: i128) -> i128
    requires dot { unsigned_abs dot ≤ 16 * 10 ^ 31 }
    requires positive { pos 1 ≤ℤ square }
    requires square { square ≤ℤ pos (32 * 10 ^ 31) }
    ensures value { result ≡ projection dot (unsigned_abs square) }
    ensures bound { unsigned_abs result ≤ 10 ^ 12 }
{
    quot_even(dot * 1_000_000, square).clamp(-PROJECTION_LIMIT, PROJECTION_LIMIT)
}
