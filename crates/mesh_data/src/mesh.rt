ghost use Rattle.std.specs.Prelude.{◌≡◌, ◌<◌, ◌^◌, ◌↔◌, All, Err, List, ℤ, [], ◌∷◌, ◌++◌, length, slice_get, Some, IfOk, IfErr, OnOk, OnErr};
ghost use Rattle.fixed_num.specs.Numbers.{IsCoordinate};
ghost use Rattle.mesh_data.specs.Points.{IsDimension};
ghost use Rattle.mesh_data.specs.Meshes.{IsMesh, TakesVertex};
ghost use Rattle.mesh_data.specs.Refusals.{IsCauseOf};
ghost use Rattle.mesh_data.specs.declared.mesh.MeshErr.TheVariants.{Memory as NoMemory};

use crate::point::Point;
use fixed_num::Memory;
use std::alloc::{AllocFailed, Global};
use std::marker::Model;
use thiserror::Error;

/// The most vertices that a mesh has.
pub const VERTEX_LIMIT: usize = 10_000;

/// Why a vertex was not pushed.
#[derive(Clone, Copy, Debug, PartialEq, Eq, Error)]
pub enum MeshErr {
    /// A coordinate is out of range.
    #[error("a coordinate is out of range")]
    BadPoint,
    /// The mesh has 10,000 vertices already.
    #[error("the mesh is full")]
    TooMany,
    /// There was no memory for the vertex. This answer is free: no contract ties it to a cause.
    #[error("out of memory")]
    Memory,
}

impl<T: Drop> From<AllocFailed<T>> for MeshErr {
    ghost from_gives = { λ _ error. error ≡ NoMemory };

    fn from(_error: AllocFailed<T>) -> MeshErr {
        MeshErr::Memory
    }
}

/// The vertices of a mesh in `D` dimensions, at most 10,000.
///
/// Contracts see it as the list of its points, each the list of its coordinates.
#[derive(Drop)]
pub struct Mesh<const D: usize> {
    vertices: Vec<Point<D>>,
}

impl<const D: usize> Model for Mesh<D> {
    ghost use Rattle.std.specs.Prelude.{List, ℤ};
    ghost use Rattle.mesh_data.specs.Meshes.{IsMesh};

    ghost Value = { List (List ℤ) };

    ghost view = { λ m. m.vertices.items };

    ghost invariant = { λ m. IsMesh D m.vertices.items };
}

impl<const D: usize> Mesh<D> {
    /// A mesh with no vertex.
    pub fn new(alloc: Global) -> Mesh<D>
        requires dimensions { IsDimension D }
        ensures { result ≡ [] }
    {
        Mesh {
            vertices: Vec::new(alloc),
        }
    }

    /// Pushes a vertex at these coordinates and gives its number, from 0.
    ///
    /// After an error the mesh is as before. `BadPoint` comes before `TooMany`, and both before
    /// `Memory`.
    pub fn push_vertex(&mut self, at: [i64; D]) -> Result<u32, MeshErr>
        requires dimensions { IsDimension D }
        ensures number { IfOk result (λ v. v ≡ length self.old) }
        ensures pushed { OnOk result (self.new ≡ self.old ++ at.entry ∷ []) }
        ensures taken { OnOk result (TakesVertex self.old at.entry) }
        ensures bad_point { (result ≡ Err MeshErr.BadPoint) ↔ (¬ All IsCoordinate at.entry) }
        ensures too_many { (result ≡ Err MeshErr.TooMany)
            ↔ (All IsCoordinate at.entry × (length self.old ≡ 10 ^ 4)) }
        ensures cause { IfErr result (IsCauseOf self.old at.entry) }
        ensures unchanged { OnErr result (self.new ≡ self.old) }
    {
        let point = Point::new(at).ok_or(MeshErr::BadPoint)?;
        if self.vertices.len() == VERTEX_LIMIT {
            return Err(MeshErr::TooMany);
        }
        let number = self.vertices.len() as u32;
        self.vertices.push(point)?;
        Ok(number)
    }

    /// How many vertices there are.
    pub fn len(&self) -> usize
        requires dimensions { IsDimension D }
        ensures count { result ≡ length self.now }
        ensures mesh { IsMesh D self.now }
    {
        self.vertices.len()
    }

    /// The point of vertex `v`.
    pub fn point(&self, v: u32) -> &Point<D>
        requires dimensions { IsDimension D }
        requires vertex { v < length self.now }
        ensures { slice_get self.now v ≡ Some result.now }
    {
        &self.vertices[v as usize]
    }

    /// An equal mesh in memory of its own.
    pub fn copy(&self, alloc: Global) -> Result<Mesh<D>, Memory>
        requires dimensions { IsDimension D }
        ensures { IfOk result (λ mesh. mesh ≡ self.now) }
    {
        Ok(Mesh {
            vertices: Vec::from_slice(alloc, self.vertices.as_slice())?,
        })
    }
}
