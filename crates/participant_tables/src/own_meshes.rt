//! The meshes that a participant provides.
ghost use Rattle.std.specs.Prelude.{◌≡◌, ◌<◌, ◌++◌, length, map, slice_get, Some, All, IfOk, IfSome, OnOk, OnErr};
ghost use Rattle.std.specs.Option.{option_map};
ghost use Rattle.fixed_num.specs.Numbers.{IsCoordinate};
ghost use Rattle.mesh_data.specs.AnyMeshes.{dimensions_of, vertices_of};
ghost use Rattle.mesh_data.specs.Points.{IsDimension};
ghost use Rattle.participant_tables.specs.AtPlace.{at_place};
ghost use Rattle.participant_tables.specs.Vertices.{TakesPoints, no_vertices, opening_mesh, opening_meshes, with_points};

use crate::places::provided;
use cpl_plan::{MeshId, PartId, Plan};
use fixed_num::{Items, Memory};
use mesh_data::{AnyMesh, Mesh};
use std::alloc::Global;
use std::marker::Model;

/// The meshes that a participant provides, in order, as far as their vertices are set.
#[derive(Drop)]
pub struct OwnMeshes {
    meshes: Vec<AnyMesh>,
}

impl Model for OwnMeshes {
    ghost use Rattle.std.specs.Prelude.{List};
    ghost use Rattle.mesh_data.specs.declared.any_mesh.AnyMesh.{AnyMesh};

    ghost Value = { List AnyMesh };

    ghost view = { λ m. m.meshes.items };
}

impl OwnMeshes {
    /// The meshes with no vertex yet, of the dimensions that the plan says.
    pub fn new(alloc: Global, plan: &Plan, part: PartId) -> Result<OwnMeshes, Memory>
        requires { part < length plan.now.parts }
        ensures { IfOk result (λ own. own ≡ opening_meshes plan.now part) }
    {
        Ok(OwnMeshes {
            meshes: empty_meshes(alloc, plan, provided(plan, part))?,
        })
    }

    /// The meshes, in order.
    pub fn as_slice(&self) -> &[AnyMesh]
        ensures { result.now ≡ self.now }
    {
        self.meshes.as_slice()
    }

    /// Equal meshes in memory of their own.
    pub fn copies(&self, alloc: Global) -> Result<Items<AnyMesh>, Memory>
        ensures { IfOk result (λ copies. copies ≡ self.now) }
    {
        Ok(Items::from_vec(copies_of(alloc, self.meshes.as_slice())?))
    }

    /// How many vertices the mesh at a place has.
    pub fn vertex_count(&self, place: usize) -> usize
        requires { place < length self.now }
        ensures { option_map (λ mesh. length (vertices_of mesh)) (slice_get self.now place) ≡ Some result }
    {
        self.meshes[place].len()
    }

    /// How many coordinates its vertices have.
    pub fn dimensions(&self, place: usize) -> usize
        requires { place < length self.now }
        ensures { option_map dimensions_of (slice_get self.now place) ≡ Some result }
    {
        self.meshes[place].dimensions()
    }

    /// Adds the points of these coordinates at the end of the mesh at a place, or none of them.
    pub fn add_points(
        &mut self,
        alloc: Global,
        place: usize,
        coordinates: &[i64],
    ) -> Result<(), Memory>
        requires place { place < length self.old }
        requires coordinates { All IsCoordinate coordinates.now }
        requires points { IfSome (slice_get self.old place) (TakesPoints coordinates.now) }
        ensures added { OnOk result (self.new ≡ at_place (with_points coordinates.now) place self.old) }
        ensures unchanged { OnErr result (self.new ≡ self.old) }
    {
        extend(alloc, &mut self.meshes[place], coordinates)?;
        Ok(())
    }
}

/// Adds the points of these coordinates at the end of a mesh, or none of them. One is put in place, so that
/// vertices can be set one by one.
fn extend(alloc: Global, mesh: &mut AnyMesh, coordinates: &[i64]) -> Result<(), Memory>
    requires coordinates { All IsCoordinate coordinates.now }
    requires points { TakesPoints coordinates.now mesh.old }
    ensures added { OnOk result (mesh.new ≡ with_points coordinates.now mesh.old) }
    ensures unchanged { OnErr result (mesh.new ≡ mesh.old) }
{
    if coordinates.len() == mesh.dimensions() {
        return add_point(mesh, coordinates);
    }
    let longer = with_points(alloc, mesh, coordinates)?;
    *mesh = longer;
    Ok(())
}

/// Adds one vertex at the end of a mesh, in place.
fn add_point(mesh: &mut AnyMesh, point: &[i64]) -> Result<(), Memory>
    requires coordinates { All IsCoordinate point.now }
    requires one { length point.now ≡ dimensions_of mesh.old }
    requires room { TakesPoints point.now mesh.old }
    ensures added { OnOk result (mesh.new ≡ with_points point.now mesh.old) }
    ensures unchanged { OnErr result (mesh.new ≡ mesh.old) }
{
    match mesh {
        AnyMesh::Two(mesh) => add_first(mesh, point.as_chunks().0),
        AnyMesh::Three(mesh) => add_first(mesh, point.as_chunks().0),
    }
}

/// Adds the one point of a list at the end of a mesh. It is such as the mesh can take, so that nothing but
/// want of memory refuses it.
fn add_first<const D: usize>(mesh: &mut Mesh<D>, points: &[[i64; D]]) -> Result<(), Memory>
    requires dimensions { IsDimension D }
    requires one { length points.now ≡ 1 }
    ensures added { OnOk result (mesh.new ≡ mesh.old ++ points.now) }
    ensures unchanged { OnErr result (mesh.new ≡ mesh.old) }
{
    match mesh.push_vertex(points[0]) {
        Ok(_) => Ok(()),
        Err(_) => Err(Memory),
    }
}

/// The meshes with no vertex yet.
fn empty_meshes(alloc: Global, plan: &Plan, provides: &[MeshId]) -> Result<Vec<AnyMesh>, Memory>
    requires { All (λ mesh. mesh < length plan.now.meshes) provides.now }
    ensures { IfOk result (λ meshes. meshes.items ≡ map (opening_mesh plan.now) provides.now) }
{
    let mut meshes = Vec::with_capacity(alloc, provides.len())?;
    'provided: for mesh in provides {
        meshes.push(no_vertices(alloc, plan.mesh_dimensions(*mesh)))?;
    }
    Ok(meshes)
}

fn no_vertices(alloc: Global, dimensions: u32) -> AnyMesh
    ensures { result ≡ no_vertices dimensions }
{
    if dimensions == 2 {
        AnyMesh::Two(Mesh::new(alloc))
    } else {
        AnyMesh::Three(Mesh::new(alloc))
    }
}

fn copies_of(alloc: Global, meshes: &[AnyMesh]) -> Result<Vec<AnyMesh>, Memory>
    ensures { IfOk result (λ copies. copies.items ≡ meshes.now) }
{
    let mut copies = Vec::with_capacity(alloc, meshes.len())?;
    for mesh in meshes {
        copies.push(mesh.copy(alloc)?)?;
    }
    Ok(copies)
}

/// A mesh with more vertices at its end.
fn with_points(alloc: Global, mesh: &AnyMesh, coordinates: &[i64]) -> Result<AnyMesh, Memory>
    requires coordinates { All IsCoordinate coordinates.now }
    requires points { TakesPoints coordinates.now mesh.now }
    ensures { IfOk result (λ longer. longer ≡ with_points coordinates.now mesh.now) }
{
    match mesh {
        AnyMesh::Two(mesh) => Ok(AnyMesh::Two(with_more(alloc, mesh, coordinates.as_chunks().0)?)),
        AnyMesh::Three(mesh) => Ok(AnyMesh::Three(with_more(
            alloc,
            mesh,
            coordinates.as_chunks().0,
        )?)),
    }
}

/// A copy with these points at its end. They are such as the mesh can take, so that nothing but want of
/// memory refuses them.
fn with_more<const D: usize>(
    alloc: Global,
    mesh: &Mesh<D>,
    points: &[[i64; D]],
) -> Result<Mesh<D>, Memory>
    requires { IsDimension D }
    ensures { IfOk result (λ longer. longer ≡ mesh.now ++ points.now) }
{
    let mut longer = mesh.copy(alloc)?;
    for i in 0..points.len() {
        if longer.push_vertex(points[i]).is_err() {
            return Err(Memory);
        }
    }
    Ok(longer)
}
