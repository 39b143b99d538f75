ghost use Rattle.std.specs.Prelude.{◌≡◌, ◌↔◌, ◌+◌, ◌^◌, ◌<◌, ◌≤◌, IsTrue, All, length};
ghost use Rattle.mesh_data.specs.Points.{IsDimension};
ghost use Rattle.edge_projection.specs.NearestFoot.{IsEdgeOf, candidate_of, candidate_count, IsFootOn, IsFoot, IsFootIn, nearest_foot};

use crate::edge::{Edge, Foot};
use crate::offsets::square_off;
use crate::weights::least_weight;
use mesh_data::{Mesh, Point};

/// The most edges that a mesh is searched with.
pub const EDGE_LIMIT: usize = 100_000;

/// The foot of a point on the edges and the vertices of a mesh.
///
/// Of all weights in whole millionths on all edges, and of all vertices, it is the one with the least
/// square distance; among equally near ones the edge with the least number, then the least weight.
/// A vertex counts as an edge to itself, after the edges. It takes no memory.
pub fn foot_of<const D: usize>(mesh: &Mesh<D>, edges: &[Edge], p: &Point<D>) -> Foot
    requires dimensions { IsDimension D }
    requires some { 0 < length mesh.now }
    requires ends { All (IsEdgeOf (length mesh.now)) edges.now }
    requires few { length edges.now ≤ 10 ^ 5 }
    ensures foot { result ≡ nearest_foot mesh.now edges.now p.now }
    ensures nearest { IsFoot mesh.now edges.now p.now result }
    ensures inside { IsFootIn (length mesh.now) result }
{
    first_foot(mesh, edges, p)
}

/// Whether this is the point's foot, its square and all else included. It takes no memory.
pub fn confirms<const D: usize>(mesh: &Mesh<D>, edges: &[Edge], p: &Point<D>, foot: &Foot) -> bool
    requires dimensions { IsDimension D }
    requires some { 0 < length mesh.now }
    requires ends { All (IsEdgeOf (length mesh.now)) edges.now }
    requires few { length edges.now ≤ 10 ^ 5 }
    ensures { IsTrue result ↔ (foot.now ≡ nearest_foot mesh.now edges.now p.now) }
{
    *foot == foot_of(mesh, edges, p)
}

/// The first candidate with the least square distance.
fn first_foot<const D: usize>(mesh: &Mesh<D>, edges: &[Edge], p: &Point<D>) -> Foot
    requires dimensions { IsDimension D }
    requires some { 0 < length mesh.now }
    requires ends { All (IsEdgeOf (length mesh.now)) edges.now }
    requires few { length edges.now ≤ 10 ^ 5 }
    ensures nearest { IsFoot mesh.now edges.now p.now result }
    ensures inside { IsFootIn (length mesh.now) result }
{
    let mut best = foot_on(mesh, edges, p, 0);
    for number in 1..(edges.len() + mesh.len()) as u32 {
        let next = foot_on(mesh, edges, p, number);
        if next.square < best.square {
            best = next;
        }
    }
    best
}

/// The foot on one candidate.
fn foot_on<const D: usize>(mesh: &Mesh<D>, edges: &[Edge], p: &Point<D>, number: u32) -> Foot
    requires dimensions { IsDimension D }
    requires ends { All (IsEdgeOf (length mesh.now)) edges.now }
    requires number { number < candidate_count mesh.now edges.now }
    requires few { length edges.now ≤ 10 ^ 5 }
    ensures foot { IsFootOn mesh.now edges.now p.now number result }
    ensures inside { IsFootIn (length mesh.now) result }
{
    let edge = candidate(edges, number, mesh.len());
    let p = p.at();
    let a = mesh.point(edge.a).at();
    let b = mesh.point(edge.b).at();
    let weight = least_weight(p, a, b);
    Foot {
        number,
        a: edge.a,
        b: edge.b,
        weight,
        square: square_off(p, a, b, weight),
    }
}

/// The edge of this number, or past the edges the vertex, as an edge to itself.
fn candidate(edges: &[Edge], number: u32, vertices: usize) -> Edge
    requires few { length edges.now ≤ 10 ^ 5 }
    requires number { number < length edges.now + vertices }
    requires ends { All (IsEdgeOf vertices) edges.now }
    ensures edge { result ≡ candidate_of edges.now number }
    ensures ends { IsEdgeOf vertices result }
{
    if (number as usize) < edges.len() {
        return edges[number as usize];
    }
    let vertex = number - edges.len() as u32;
    Edge {
        a: vertex,
        b: vertex,
    }
}
