ghost use Rattle.std.specs.Prelude.{◌≡◌, ◌*◌, ◌^◌, ◌≤◌, pos, ◌-ℤ◌, ◌*ℤ◌, unsigned_abs, length, All};
ghost use Rattle.fixed_num.specs.Numbers.{IsCoordinate};
ghost use Rattle.fixed_num.specs.Norm.{square};
ghost use Rattle.edge_projection.specs.Offsets.{offset, square_off};

/// The greatest weight: a million millionths, the end `b` of an edge.
pub(crate) const WHOLE: u32 = 1_000_000;

/// The square of the distance from `p` to the point `weight` millionths of the way from `a` to `b`,
/// in square millionths of a unit. It is exact, and at most 4.8·10^37.
pub(crate) fn square_off(p: &[i64], a: &[i64], b: &[i64], weight: u32) -> u128
    requires few { length p.now ≤ 3 }
    requires start { length a.now ≡ length p.now }
    requires end { length b.now ≡ length p.now }
    requires point_range { All IsCoordinate p.now }
    requires start_range { All IsCoordinate a.now }
    requires end_range { All IsCoordinate b.now }
    requires weight { weight ≤ 10 ^ 6 }
    ensures value { result ≡ square_off weight p.now a.now b.now }
    ensures bound { result ≤ 48 * 10 ^ 36 }
{
    let mut sum = 0;
    for i in 0..p.len() {
        sum += square(offset(p[i], a[i], b[i], weight));
    }
    sum
}

/// How far one coordinate is from that on the edge, in millionths of a unit.
fn offset(p: i64, a: i64, b: i64, weight: u32) -> i64
    requires point { IsCoordinate p }
    requires start { IsCoordinate a }
    requires end { IsCoordinate b }
    requires weight { weight ≤ 10 ^ 6 }
    ensures value { result ≡ offset weight p a b }
    ensures bound { unsigned_abs result ≤ 4 * 10 ^ 18 }
{
    scaled(WHOLE, a, p) - scaled(weight, a, b)
}

/// The way from `x` to `y` times the weight.
fn scaled(weight: u32, x: i64, y: i64) -> i64
    requires start { IsCoordinate x }
    requires end { IsCoordinate y }
    requires weight { weight ≤ 10 ^ 6 }
    ensures value { result ≡ pos weight *ℤ (y -ℤ x) }
    ensures bound { unsigned_abs result ≤ 2 * 10 ^ 18 }
{
    i64::from(weight) * (y - x)
}

/// The square of a number within 4·10^18.
fn square(x: i64) -> u128
    requires { unsigned_abs x ≤ 4 * 10 ^ 18 }
    ensures value { result ≡ square x }
    ensures bound { result ≤ 16 * 10 ^ 36 }
{
    let size = u128::from(x.unsigned_abs());
    size * size
}
