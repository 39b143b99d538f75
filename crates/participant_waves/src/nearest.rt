ghost use Rattle.std.specs.Prelude.{◌≡◌, ◌<◌, ◌≤◌, length};
ghost use Rattle.mesh_data.specs.AnyMeshes.{dimensions_of, vertices_of};
ghost use Rattle.mesh_data.specs.Nearest.{IsNearest, distance_to};
ghost use Rattle.mesh_data.specs.Points.{IsPoint};

use fixed_num::square_distance;
use mesh_data::AnyMesh;

/// The vertex of a mesh that is nearest to a point, and the first of equally near ones.
pub(crate) fn nearest_to(mesh: &AnyMesh, at: &[i64]) -> u32
    requires some { 1 ≤ length (vertices_of mesh.now) }
    requires at { IsPoint (dimensions_of mesh.now) at.now }
    ensures { IsNearest (vertices_of mesh.now) at.now result }
{
    let mut nearest = 0;
    for v in 1..mesh.len() as u32 {
        if distance_to(mesh, at, v) < distance_to(mesh, at, nearest) {
            nearest = v;
        }
    }
    nearest
}

/// The square of the distance from a point to a vertex.
fn distance_to(mesh: &AnyMesh, at: &[i64], v: u32) -> u128
    requires at { IsPoint (dimensions_of mesh.now) at.now }
    requires vertex { v < length (vertices_of mesh.now) }
    ensures { result ≡ distance_to (vertices_of mesh.now) at.now v }
{
    // Its length tells that its vertices are points.
    let _vertices = mesh.len();
    square_distance(at, mesh.at(v))
}
