ghost use Rattle.std.specs.Prelude.{◌≡◌, ◌<◌, length, IfOk};
ghost use Rattle.mesh_data.specs.AnyMeshes.{dimensions_of, vertices_of};
ghost use Rattle.mesh_data.specs.Nearest.{AreNearest};
ghost use Rattle.mesh_data.specs.Points.{IsDimension};

use fixed_num::Memory;
use grid_index::{Grid, Steps};
use mesh_data::{AnyMesh, Mesh};
use std::alloc::Global;

/// Of each vertex of `points`, the nearest one of `mesh`.
fn nearest_vertices<const D: usize>(
    alloc: Global,
    mesh: &Mesh<D>,
    points: &Mesh<D>,
) -> Result<Vec<u32>, Memory>
    requires dimensions { IsDimension D }
    requires some { 0 < length mesh.now }
    ensures { IfOk result (λ nearest. AreNearest mesh.now points.now nearest.items) }
{
    let grid = Grid::build(alloc, mesh)?;
    let mut nearest = Vec::with_capacity(alloc, points.len())?;
    for v in 0..points.len() as u32 {
        let mut steps = Steps::new();
        nearest.push(grid.nearest(points.point(v), &mut steps))?;
    }
    Ok(nearest)
}

/// The same for meshes of as many dimensions.
pub(crate) fn nearest_between(
    alloc: Global,
    mesh: &AnyMesh,
    points: &AnyMesh,
) -> Result<Vec<u32>, Memory>
    requires alike { dimensions_of mesh.now ≡ dimensions_of points.now }
    requires some { 0 < length (vertices_of mesh.now) }
    ensures { IfOk result
        (λ nearest. AreNearest (vertices_of mesh.now) (vertices_of points.now) nearest.items) }
{
    match (mesh, points) {
        (AnyMesh::Two(mesh), AnyMesh::Two(points)) => nearest_vertices(alloc, mesh, points),
        (AnyMesh::Three(mesh), AnyMesh::Three(points)) => nearest_vertices(alloc, mesh, points),
        _ => unreachable!(),
    }
}
