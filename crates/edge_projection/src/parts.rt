ghost use Rattle.std.specs.Prelude.{◌≡◌, ◌*◌, ◌^◌, ◌≤◌, pos, ◌-ℤ◌, ◌*ℤ◌, unsigned_abs};
ghost use Rattle.fixed_num.specs.Numbers.{IsValue, quotient};
ghost use Rattle.edge_projection.specs.MappedField.{between, share_of, part_of};

use fixed_num::{Value, quot_even, value_of};

/// The value `weight` millionths of the way from one to another, rounded.
pub(crate) fn between(first: Value, last: Value, weight: u32) -> Value
    requires { weight ≤ 10 ^ 6 }
    ensures { result ≡ between weight first last }
{
    value_of(units_between(first.get(), last.get(), weight)).unwrap()
}

fn units_between(x: i64, y: i64, weight: u32) -> i128
    requires first { IsValue x }
    requires last { IsValue y }
    requires weight { weight ≤ 10 ^ 6 }
    ensures value { result ≡ between weight x y }
    ensures range { IsValue result }
{
    i128::from(x) + step(x, y, weight)
}

/// What of a value goes to an end of its foot: to `b` so many millionths, rounded, and to `a` the rest.
pub(crate) fn part_of(value: Value, weight: u32, rest: bool) -> i64
    requires { weight ≤ 10 ^ 6 }
    ensures value { result ≡ part_of rest weight value }
    ensures bound { unsigned_abs result ≤ 10 ^ 13 }
{
    if rest {
        rest_of(value.get(), weight)
    } else {
        share_of(value.get(), weight)
    }
}

fn rest_of(x: i64, weight: u32) -> i64
    requires value { IsValue x }
    requires weight { weight ≤ 10 ^ 6 }
    ensures value { result ≡ x -ℤ share_of weight x }
    ensures bound { unsigned_abs result ≤ 10 ^ 13 }
{
    x - share_of(x, weight)
}

fn share_of(x: i64, weight: u32) -> i64
    requires value { IsValue x }
    requires weight { weight ≤ 10 ^ 6 }
    ensures value { result ≡ share_of weight x }
    ensures bound { unsigned_abs result ≤ 10 ^ 13 }
    ensures rest { unsigned_abs (x -ℤ result) ≤ 10 ^ 13 }
{
    step(0, x, weight) as i64
}

/// `weight` millionths of the change from `x` to `y`, rounded.
fn step(x: i64, y: i64, weight: u32) -> i128
    requires first { IsValue x }
    requires last { IsValue y }
    requires weight { weight ≤ 10 ^ 6 }
    ensures value { result ≡ quotient ((y -ℤ x) *ℤ pos weight) (10 ^ 6) }
    ensures bound { unsigned_abs result ≤ 2 * 10 ^ 13 }
{
    quot_even(scaled(x, y, weight), 1_000_000)
}

/// The change from `x` to `y` times the weight: at most 2·10^19.
fn scaled(x: i64, y: i64, weight: u32) -> i128
    requires first { IsValue x }
    requires last { IsValue y }
    requires weight { weight ≤ 10 ^ 6 }
    ensures { result ≡ (y -ℤ x) *ℤ pos weight }
{
    i128::from(y - x) * i128::from(weight)
}
