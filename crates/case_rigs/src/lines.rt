//! The vertices of a line.
ghost use Rattle.std.specs.Prelude.{◌≡◌, ◌<◌, ◌≤◌, ◌^◌, ◌-ℤ◌, ◌*ℤ◌, pos, All, length};
ghost use Rattle.fixed_num.specs.Numbers.{IsCoordinate};
ghost use Rattle.case_rigs.specs.Lines.{coordinate_after, line_coordinate, line_point};

use fixed_num::quot_even;

/// Writes the point of a vertex of so many that stand evenly from one point to another.
pub(crate) fn write_point(count: u64, vertex: u64, from: &[i64], to: &[i64], at: &mut [i64])
    requires from_length { length from.now ≡ length at.old }
    requires to_length { length to.now ≡ length at.old }
    requires from_range { All IsCoordinate from.now }
    requires to_range { All IsCoordinate to.now }
    requires vertex { vertex < count }
    requires few { count ≤ 10 ^ 4 }
    ensures { at.new ≡ line_point count vertex from.now to.now }
{
    for axis in 0..at.len() {
        at[axis] = coordinate(count, vertex, from[axis], to[axis]);
    }
}

/// A coordinate of a vertex of so many.
fn coordinate(count: u64, vertex: u64, from: i64, to: i64) -> i64
    requires vertex { vertex < count }
    requires few { count ≤ 10 ^ 4 }
    requires from { IsCoordinate from }
    requires to { IsCoordinate to }
    ensures { result ≡ line_coordinate count vertex from to }
{
    if 1 < count {
        coordinate_after(vertex, count - 1, from, to)
    } else {
        from
    }
}

/// The coordinate after so many of equal spans from one coordinate to another, rounded.
fn coordinate_after(over: u64, spans: u64, from: i64, to: i64) -> i64
    requires some { 0 < spans }
    requires over { over ≤ spans }
    requires few { spans ≤ 10 ^ 4 }
    requires from { IsCoordinate from }
    requires to { IsCoordinate to }
    ensures { result ≡ coordinate_after over spans from to }
{
    from + quot_even(change(over, from, to), i128::from(spans)) as i64
}

/// The change from one coordinate to another, so many times: at most 2·10^16.
fn change(over: u64, from: i64, to: i64) -> i128
    requires over { over ≤ 10 ^ 4 }
    requires from { IsCoordinate from }
    requires to { IsCoordinate to }
    ensures { result ≡ (to -ℤ from) *ℤ pos over }
{
    i128::from(to - from) * i128::from(over)
}
