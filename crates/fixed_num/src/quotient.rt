ghost use Rattle.std.specs.Prelude.{◌≡◌, ℤ, pos, neg_ℤ, ◌≤ℤ◌, ◌<◌, ◌≤◌, ◌^◌, unsigned_abs};
ghost use Rattle.fixed_num.specs.Numbers.{nearest_of, quotient, IsRoundedQuotient};

/// `q(a, b)`: the whole number nearest to a/b, and of two equally near ones the even one.
///
/// The divisor is at most 10^36, so that twice a remainder fits.
pub fn quot_even(a: i128, b: i128) -> i128
    requires positive { pos 1 ≤ℤ b }
    requires small { b ≤ℤ pos (10 ^ 36) }
    ensures nearest { IsRoundedQuotient a (unsigned_abs b) result }
    ensures only { (n : ℤ) → IsRoundedQuotient a (unsigned_abs b) n → n ≡ result }
    ensures value { result ≡ quotient a (unsigned_abs b) }
{
    let magnitude = nearest(a.unsigned_abs(), b.unsigned_abs());
    if a < 0 {
        negated(magnitude)
    } else {
        magnitude as i128
    }
}

/// The rounded quotient of magnitudes.
fn nearest(a: u128, b: u128) -> u128
    requires positive { 0 < b }
    requires small { b ≤ 10 ^ 36 }
    ensures value { result ≡ nearest_of a b }
    ensures bound { result ≤ a }
{
    let whole = a / b;
    let twice = 2 * (a % b);
    if twice < b {
        whole
    } else if b < twice {
        whole + 1
    } else {
        whole + whole % 2
    }
}

/// The number with this magnitude that is not positive. The least i128 has a magnitude that no
/// positive i128 has, so the last step down comes after the cast.
fn negated(magnitude: u128) -> i128
    requires { magnitude ≤ 2 ^ 127 }
    ensures { result ≡ neg_ℤ (pos magnitude) }
{
    if magnitude == 0 {
        0
    } else {
        -1 - (magnitude - 1) as i128
    }
}
