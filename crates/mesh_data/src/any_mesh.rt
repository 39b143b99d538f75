ghost use Rattle.std.specs.Prelude.{◌≡◌, ◌<◌, length, slice_get, Some, IfOk};
ghost use Rattle.mesh_data.specs.AnyMeshes.{dimensions_of, vertices_of};
ghost use Rattle.mesh_data.specs.Meshes.{IsMesh};

use crate::mesh::Mesh;
use fixed_num::Memory;
use std::alloc::Global;

/// A mesh of a coupling, which says itself how many dimensions it has.
///
/// What reads it here spares the layers above a `match`.
#[derive(Drop)]
pub enum AnyMesh {
    /// In two dimensions.
    Two(Mesh<2>),
    /// In three dimensions.
    Three(Mesh<3>),
}

impl AnyMesh {
    /// How many coordinates each vertex has.
    pub fn dimensions(&self) -> usize
        ensures { result ≡ dimensions_of self.now }
    {
        match self {
            AnyMesh::Two(_) => 2,
            AnyMesh::Three(_) => 3,
        }
    }

    /// How many vertices there are.
    pub fn len(&self) -> usize
        ensures count { result ≡ length (vertices_of self.now) }
        ensures mesh { IsMesh (dimensions_of self.now) (vertices_of self.now) }
    {
        match self {
            AnyMesh::Two(mesh) => mesh.len(),
            AnyMesh::Three(mesh) => mesh.len(),
        }
    }

    /// The coordinates of vertex `v`.
    pub fn at(&self, v: u32) -> &[i64]
        requires { v < length (vertices_of self.now) }
        ensures { slice_get (vertices_of self.now) v ≡ Some result.now }
    {
        match self {
            AnyMesh::Two(mesh) => mesh.point(v).at(),
            AnyMesh::Three(mesh) => mesh.point(v).at(),
        }
    }

    /// An equal mesh in memory of its own.
    pub fn copy(&self, alloc: Global) -> Result<AnyMesh, Memory>
        ensures { IfOk result (λ mesh. mesh ≡ self.now) }
    {
        match self {
            AnyMesh::Two(mesh) => Ok(AnyMesh::Two(mesh.copy(alloc)?)),
            AnyMesh::Three(mesh) => Ok(AnyMesh::Three(mesh.copy(alloc)?)),
        }
    }
}
