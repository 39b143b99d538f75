ghost use Rattle.std.specs.Prelude.{◌≡◌, ◌≤◌, ◌*◌, ◌^◌, All, length, ◌-ℤ◌, ◌*ℤ◌, unsigned_abs, sum_by};
ghost use Rattle.std.specs.List.{zip};
ghost use Rattle.fixed_num.specs.Norm.{IsRoot, square, product_sum};

use crate::in_units::InUnits;

/// The greatest whole number whose square is at most `n`, which is at most 10^36.
pub fn root_floor(n: u128) -> u64
    requires { n ≤ 10 ^ 36 }
    ensures { IsRoot n result }
{
    n.isqrt() as u64
}

/// The norm: the greatest whole number whose square is at most the sum of the squares.
///
/// At most 30,000 numbers, each within 4·10^13: their squares sum to less than 10^36.
pub fn norm<T: InUnits>(d: &[T]) -> u64
    requires few { length d.now ≤ 30000 }
    requires small { All T.is_small d.now }
    ensures { IsRoot (sum_by (λ x. square (T.units x)) d.now) result }
{
    root_floor(sum_of_squares(d))
}

/// The norm of the differences, pair by pair, of at most 30,000 pairs of numbers within 4·10^13.
pub fn norm_of_difference<T: InUnits>(a: &[T], b: &[T]) -> u64
    requires few { length a.now ≤ 30000 }
    requires alike { length b.now ≡ length a.now }
    requires first { All T.is_small a.now }
    requires second { All T.is_small b.now }
    ensures { IsRoot (sum_by (λ p. square (T.units p.0 -ℤ T.units p.1)) (zip a.now b.now)) result }
{
    root_floor(square_distance(a, b))
}

/// The sum of the squares of at most 30,000 numbers within 4·10^13, in square units. It is exact.
pub fn sum_of_squares<T: InUnits>(d: &[T]) -> u128
    requires few { length d.now ≤ 30000 }
    requires small { All T.is_small d.now }
    ensures value { result ≡ sum_by (λ x. square (T.units x)) d.now }
    ensures bound { result ≤ 10 ^ 36 }
{
    let mut sum = 0;
    for x in d {
        sum += square(*x);
    }
    sum
}

/// The square of a number within 4·10^13.
fn square<T: InUnits>(x: T) -> u128
    requires { T.is_small x }
    ensures value { result ≡ square (T.units x) }
    ensures bound { result ≤ 16 * 10 ^ 26 }
{
    let size = u128::from(x.units().unsigned_abs());
    size * size
}

/// The square of the distance: the sum of the squares of the differences, pair by pair, of at most
/// 30,000 pairs of numbers within 4·10^13, in square units. It is exact.
pub fn square_distance<T: InUnits>(a: &[T], b: &[T]) -> u128
    requires few { length a.now ≤ 30000 }
    requires alike { length b.now ≡ length a.now }
    requires first { All T.is_small a.now }
    requires second { All T.is_small b.now }
    ensures value { result ≡ sum_by (λ p. square (T.units p.0 -ℤ T.units p.1)) (zip a.now b.now) }
    ensures bound { result ≤ 10 ^ 36 }
{
    let mut sum = 0;
    for (x, y) in a.iter().zip(b) {
        sum += square_of_difference(*x, *y);
    }
    sum
}

/// The square of the difference of two numbers within 4·10^13.
fn square_of_difference<T: InUnits>(x: T, y: T) -> u128
    requires first { T.is_small x }
    requires second { T.is_small y }
    ensures value { result ≡ square (T.units x -ℤ T.units y) }
    ensures bound { result ≤ 64 * 10 ^ 26 }
{
    let size = u128::from(x.units().abs_diff(y.units()));
    size * size
}

/// The sum of the products, pair by pair.
///
/// At most 200,000 pairs of numbers within 4·10^13: it is within 3.2·10^32.
pub fn dot(a: &[i64], b: &[i64]) -> i128
    requires few { length a.now ≤ 200000 }
    requires alike { length b.now ≡ length a.now }
    requires first { All (λ x. unsigned_abs x ≤ 4 * 10 ^ 13) a.now }
    requires second { All (λ x. unsigned_abs x ≤ 4 * 10 ^ 13) b.now }
    ensures { result ≡ product_sum a.now b.now }
{
    let mut sum = 0;
    for (x, y) in a.iter().zip(b) {
        sum += product(*x, *y);
    }
    sum
}

/// The product of two numbers within 4·10^13.
fn product(x: i64, y: i64) -> i128
    requires first { unsigned_abs x ≤ 4 * 10 ^ 13 }
    requires second { unsigned_abs y ≤ 4 * 10 ^ 13 }
    ensures value { result ≡ x *ℤ y }
    ensures bound { unsigned_abs result ≤ 16 * 10 ^ 26 }
{
    i128::from(x) * i128::from(y)
}
