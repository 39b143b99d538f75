ghost use Rattle.std.specs.Prelude.{◌≡◌};
ghost use Rattle.fixed_num.specs.Norm.{square_distance};
ghost use Rattle.mesh_data.specs.Points.{IsDimension};

use crate::point::Point;

/// The square of the distance between two points, in square units. It is exact.
pub fn square_distance<const D: usize>(a: &Point<D>, b: &Point<D>) -> u128
    requires dimensions { IsDimension D }
    ensures { result ≡ square_distance a.now b.now }
{
    fixed_num::square_distance(a.at(), b.at())
}
