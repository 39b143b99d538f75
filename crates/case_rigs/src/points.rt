//! Meshes of listed points, and of the points of a line.
ghost use Rattle.std.specs.Prelude.{◌≡◌, ◌≢◌, ◌<◌, ◌≤◌, ◌^◌, ◌++◌, ◌∷◌, [], IfOk, OnOk, length};
ghost use Rattle.mesh_data.specs.Points.{IsDimension, IsPoint};
ghost use Rattle.mesh_data.specs.Meshes.{IsMesh, TakesVertex};
ghost use Rattle.case_rigs.specs.Lines.{line_point, line_points};

use crate::lines::write_point;
use fixed_num::{Items, Memory};
use mesh_data::{Mesh, MeshErr};
use std::alloc::Global;

/// The mesh of these points.
pub(crate) fn listed<const D: usize>(
    alloc: Global,
    points: &[Items<i64>],
) -> Result<Mesh<D>, Memory>
    requires dimension { IsDimension D }
    requires mesh { IsMesh D points.now }
    ensures { IfOk result (λ mesh. mesh ≡ points.now) }
{
    let mut mesh = Mesh::new(alloc);
    'points: for point in points {
        push_copy(point.as_slice(), &mut mesh)?;
    }
    Ok(mesh)
}

/// The mesh of so many points that stand evenly from one point to another.
pub(crate) fn drawn<const D: usize>(
    alloc: Global,
    count: u64,
    from: &[i64],
    to: &[i64],
) -> Result<Mesh<D>, Memory>
    requires dimension { IsDimension D }
    requires from { IsPoint D from.now }
    requires to { IsPoint D to.now }
    requires few { count ≤ 10 ^ 4 }
    ensures { IfOk result (λ mesh. mesh ≡ line_points count from.now to.now) }
{
    let mut mesh = Mesh::new(alloc);
    'vertices: for vertex in 0..count {
        push_between(count, vertex, from, to, &mut mesh)?;
    }
    Ok(mesh)
}

/// Adds a vertex of a line.
fn push_between<const D: usize>(
    count: u64,
    vertex: u64,
    from: &[i64],
    to: &[i64],
    mesh: &mut Mesh<D>,
) -> Result<(), Memory>
    requires dimension { IsDimension D }
    requires from { IsPoint D from.now }
    requires to { IsPoint D to.now }
    requires vertex { vertex < count }
    requires few { count ≤ 10 ^ 4 }
    requires room { length mesh.old < 10 ^ 4 }
    ensures { OnOk result (mesh.new ≡ mesh.old ++ line_point count vertex from.now to.now ∷ []) }
{
    let mut at = [0; D];
    write_point(count, vertex, from, to, &mut at);
    push(at, mesh)?;
    Ok(())
}

/// Adds a vertex at these coordinates.
fn push_copy<const D: usize>(coordinates: &[i64], mesh: &mut Mesh<D>) -> Result<(), Memory>
    requires dimension { IsDimension D }
    requires one_for_each { length coordinates.now ≡ D }
    requires taken { TakesVertex mesh.old coordinates.now }
    ensures { OnOk result (mesh.new ≡ mesh.old ++ coordinates.now ∷ []) }
{
    let mut at = [0; D];
    at.copy_from_slice(coordinates);
    push(at, mesh)?;
    Ok(())
}

/// Adds a vertex that the mesh takes, so that nothing but want of memory refuses it.
fn push<const D: usize>(at: [i64; D], mesh: &mut Mesh<D>) -> Result<(), Memory>
    requires dimension { IsDimension D }
    requires taken { TakesVertex mesh.old at }
    ensures { OnOk result (mesh.new ≡ mesh.old ++ at.entry ∷ []) }
{
    match mesh.push_vertex(at) {
        Ok(_) => Ok(()),
        Err(error) => Err(memory_of(error)),
    }
}

/// The error that is no refusal.
fn memory_of(error: MeshErr) -> Memory
    requires in_range { error ≢ MeshErr.BadPoint }
    requires room { error ≢ MeshErr.TooMany }
{
    match error {
        MeshErr::Memory => Memory,
        _ => unreachable!(),
    }
}
