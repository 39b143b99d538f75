ghost use Rattle.std.specs.Prelude.{◌≡◌, All, IfSome, IsSome, IsTrue, ◌↔◌};
ghost use Rattle.fixed_num.specs.Numbers.{IsCoordinate};
ghost use Rattle.mesh_data.specs.Points.{IsDimension, IsPoint};

use std::marker::Model;

/// The greatest absolute value of a coordinate, in units: one million.
pub const COORDINATE_LIMIT: i64 = 1_000_000_000_000;

/// A point in `D` dimensions, whose coordinates are in units and within a million in absolute value.
///
/// Contracts see it as the list of its coordinates.
#[derive(Clone, Copy, Debug, PartialEq, Eq)]
pub struct Point<const D: usize> {
    at: [i64; D],
}

impl<const D: usize> Model for Point<D> {
    ghost use Rattle.std.specs.Prelude.{List, ℤ};
    ghost use Rattle.mesh_data.specs.Points.{IsPoint};

    ghost Value = { List ℤ };

    ghost view = { λ p. p.at };

    ghost invariant = { λ p. IsPoint D p.at };

    ghost inverse = { λ at. record { at = at } };
}

impl<const D: usize> Point<D> {
    /// The point with these coordinates, or None exactly where one is out of range.
    pub fn new(at: [i64; D]) -> Option<Point<D>>
        requires dimensions { IsDimension D }
        ensures in_range { IsSome result ↔ All IsCoordinate at.entry }
        ensures same { IfSome result (λ point. point ≡ at.entry) }
    {
        if are_coordinates(&at) {
            Some(Point { at })
        } else {
            None
        }
    }

    /// The point's coordinates, in order.
    pub fn at(&self) -> &[i64; D]
        requires dimensions { IsDimension D }
        ensures coordinates { result.now ≡ self.now }
        ensures point { IsPoint D self.now }
    {
        &self.at
    }
}

fn are_coordinates(numbers: &[i64]) -> bool
    ensures { IsTrue result ↔ All IsCoordinate numbers.now }
{
    numbers.iter().all(|number| is_coordinate(*number))
}

fn is_coordinate(number: i64) -> bool
    ensures { IsTrue result ↔ IsCoordinate number }
{
    number.unsigned_abs() <= COORDINATE_LIMIT.unsigned_abs()
}
