ghost use Rattle.std.specs.Prelude.{◌≡◌, ◌^◌, ◌<◌, ◌≤◌, ℕ, length, map, All, IfOk, IfErr, IfSome, IfNone, OnOk, IsTrue, ◌↔◌};
ghost use Rattle.mesh_data.specs.AnyMeshes.{dimensions_of, vertices_of};
ghost use Rattle.mesh_data.specs.Points.{IsDimension};
ghost use Rattle.edge_projection.specs.NearestFoot.{IsEdgeOf, IsFootIn, nearest_foot};
ghost use Rattle.edge_projection.specs.Refusals.{IsFirstBadEdge, IsCauseAt};

use crate::edge::{Edge, Foot};
use crate::edge_errors::EdgeErr;
use crate::feet::foot_of;
use fixed_num::Memory;
use mesh_data::{AnyMesh, Mesh};
use std::alloc::Global;

/// The foot of each vertex of `points` on the edges of a mesh of as many dimensions.
pub(crate) fn feet_between(
    alloc: Global,
    mesh: &AnyMesh,
    edges: &[Edge],
    points: &AnyMesh,
) -> Result<Vec<Foot>, EdgeErr>
    requires alike { dimensions_of mesh.now ≡ dimensions_of points.now }
    requires some { 0 < length (vertices_of mesh.now) }
    requires few { length edges.now ≤ 10 ^ 5 }
    ensures feet { IfOk result (λ feet.
        feet.items ≡ map (nearest_foot (vertices_of mesh.now) edges.now) (vertices_of points.now)) }
    ensures inside { IfOk result (λ feet. All (IsFootIn (length (vertices_of mesh.now))) feet.items) }
    ensures edges { OnOk result (All (IsEdgeOf (length (vertices_of mesh.now))) edges.now) }
    ensures cause { IfErr result (IsCauseAt (length (vertices_of mesh.now)) edges.now) }
{
    if let Some(at) = first_bad_edge(edges, mesh.len()) {
        return Err(EdgeErr::BadEdge { at });
    }
    Ok(all_feet(alloc, mesh, edges, points)?)
}

/// The same where all edges are good.
fn all_feet(
    alloc: Global,
    mesh: &AnyMesh,
    edges: &[Edge],
    points: &AnyMesh,
) -> Result<Vec<Foot>, Memory>
    requires alike { dimensions_of mesh.now ≡ dimensions_of points.now }
    requires some { 0 < length (vertices_of mesh.now) }
    requires ends { All (IsEdgeOf (length (vertices_of mesh.now))) edges.now }
    requires few { length edges.now ≤ 10 ^ 5 }
    ensures feet { IfOk result (λ feet.
        feet.items ≡ map (nearest_foot (vertices_of mesh.now) edges.now) (vertices_of points.now)) }
    ensures inside { IfOk result (λ feet. All (IsFootIn (length (vertices_of mesh.now))) feet.items) }
{
    match (mesh, points) {
        (AnyMesh::Two(mesh), AnyMesh::Two(points)) => feet_of(alloc, mesh, edges, points),
        (AnyMesh::Three(mesh), AnyMesh::Three(points)) => feet_of(alloc, mesh, edges, points),
        _ => unreachable!(),
    }
}

/// The foot of each vertex of `points`.
fn feet_of<const D: usize>(
    alloc: Global,
    mesh: &Mesh<D>,
    edges: &[Edge],
    points: &Mesh<D>,
) -> Result<Vec<Foot>, Memory>
    requires dimensions { IsDimension D }
    requires some { 0 < length mesh.now }
    requires ends { All (IsEdgeOf (length mesh.now)) edges.now }
    requires few { length edges.now ≤ 10 ^ 5 }
    ensures feet { IfOk result (λ feet.
        feet.items ≡ map (nearest_foot mesh.now edges.now) points.now) }
    ensures inside { IfOk result (λ feet. All (IsFootIn (length mesh.now)) feet.items) }
{
    let mut feet = Vec::with_capacity(alloc, points.len())?;
    for v in 0..points.len() as u32 {
        feet.push(foot_of(mesh, edges, points.point(v)))?;
    }
    Ok(feet)
}

/// Where the first edge is that has an end past the vertices.
fn first_bad_edge(edges: &[Edge], vertices: usize) -> Option<usize>
    ensures bad { IfSome result (IsFirstBadEdge vertices edges.now) }
    ensures none { IfNone result (All (IsEdgeOf vertices) edges.now) }
{
    for i in 0..edges.len() {
        if !is_edge_of(edges[i], vertices) {
            return Some(i);
        }
    }
    None
}

pub(crate) fn is_edge_of(edge: Edge, vertices: usize) -> bool
    ensures { IsTrue result ↔ IsEdgeOf vertices edge }
{
    (edge.a as usize) < vertices && (edge.b as usize) < vertices
}
