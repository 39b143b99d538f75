ghost use Rattle.std.specs.Prelude.{◌≡◌, ◌+◌, ◌-◌, ◌^◌, ◌<◌, ◌≤◌, length, All};
ghost use Rattle.fixed_num.specs.Numbers.{IsCoordinate};
ghost use Rattle.edge_projection.specs.Offsets.{square_off};
ghost use Rattle.edge_projection.specs.NearestFoot.{IsLeastWeight};

use crate::offsets::{WHOLE, square_off};

/// The first weight whose point on the edge from `a` to `b` is nearest to `p`.
///
/// The square distance falls and then rises along an edge, so a weight whose neighbours are farther
/// is nearest. The quotient is it, or one of its neighbours is.
pub(crate) fn least_weight(p: &[i64], a: &[i64], b: &[i64]) -> u32
    requires few { length p.now ≤ 3 }
    requires start { length a.now ≡ length p.now }
    requires end { length b.now ≡ length p.now }
    requires point_range { All IsCoordinate p.now }
    requires start_range { All IsCoordinate a.now }
    requires end_range { All IsCoordinate b.now }
    ensures { IsLeastWeight p.now a.now b.now result }
{
    let near = quotient_weight(p, a, b);
    let high = step_up(p, a, b, near);
    step_down(p, a, b, high)
}

/// From a weight on, the first that the next one is no nearer than.
fn step_up(p: &[i64], a: &[i64], b: &[i64], near: u32) -> u32
    requires few { length p.now ≤ 3 }
    requires start { length a.now ≡ length p.now }
    requires end { length b.now ≡ length p.now }
    requires point_range { All IsCoordinate p.now }
    requires start_range { All IsCoordinate a.now }
    requires end_range { All IsCoordinate b.now }
    requires near { near ≤ 10 ^ 6 }
    ensures weight { result ≤ 10 ^ 6 }
    ensures no_nearer { result < 10 ^ 6 → square_off result p.now a.now b.now
        ≤ square_off (result + 1) p.now a.now b.now }
{
    let mut weight = near;
    while weight < WHOLE {
        if square_off(p, a, b, weight) <= square_off(p, a, b, weight + 1) {
            return weight;
        }
        weight += 1;
    }
    weight
}

/// From such a weight down, the first that the one before it is farther than.
fn step_down(p: &[i64], a: &[i64], b: &[i64], high: u32) -> u32
    requires few { length p.now ≤ 3 }
    requires start { length a.now ≡ length p.now }
    requires end { length b.now ≡ length p.now }
    requires point_range { All IsCoordinate p.now }
    requires start_range { All IsCoordinate a.now }
    requires end_range { All IsCoordinate b.now }
    requires high { high ≤ 10 ^ 6 }
    requires no_nearer { high < 10 ^ 6 → square_off high p.now a.now b.now
        ≤ square_off (high + 1) p.now a.now b.now }
    ensures { IsLeastWeight p.now a.now b.now result }
{
    let mut weight = high;
    while 0 < weight {
        if square_off(p, a, b, weight) < square_off(p, a, b, weight - 1) {
            return weight;
        }
        weight -= 1;
    }
    weight
}

/// The whole millionths of the way from `a` to `b` after which the line is nearest to `p`, within the
/// edge: `10^6·(p - a)·(b - a) / |b - a|^2`. It needs no contract but its range, since what is nearest
/// is looked for from it on.
fn quotient_weight(p: &[i64], a: &[i64], b: &[i64]) -> u32
    requires start { length a.now ≡ length p.now }
    requires end { length b.now ≡ length p.now }
    ensures { result ≤ 10 ^ 6 }
{
    let mut along: i128 = 0;
    let mut length: i128 = 0;
    for i in 0..p.len() {
        let way = i128::from(b[i]) - i128::from(a[i]);
        let gone = i128::from(p[i]) - i128::from(a[i]);
        along = along.saturating_add(way.saturating_mul(gone));
        length = length.saturating_add(way.saturating_mul(way));
    }
    part_of(along, length.unsigned_abs())
}

/// `10^6·along / length`, from 0 to 10^6.
fn part_of(along: i128, length: u128) -> u32
    ensures { result ≤ 10 ^ 6 }
{
    if along <= 0 {
        return 0;
    }
    let part = along
        .unsigned_abs()
        .saturating_mul(1_000_000)
        .checked_div(length);
    match part {
        Some(part) => part.min(u128::from(WHOLE)) as u32,
        None => 0,
    }
}
