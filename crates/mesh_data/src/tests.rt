ghost use Rattle.mesh_data.specs.Points.{IsDimension};

use crate::{AnyMesh, Mesh, MeshErr, Point, square_distance};
use fixed_num::Memory;
use std::alloc::Global;
use std::test::Fail;

#[test]
fn points_keep_their_range(rt: HostRuntime) {
    let limits = [
        (1_000_000_000_000, true),
        (-1_000_000_000_000, true),
        (1_000_000_000_001, false),
        (-1_000_000_000_001, false),
        (i64::MIN, false),
    ];
    for (units, in_range) in limits {
        assert!(rt;
            Point::new([0, 0, units]).is_some() == in_range,
            "at {units}"
        );
    }
}

fn between<const D: usize>(a: [i64; D], b: [i64; D]) -> Option<u128>
    requires { IsDimension D }
{
    Some(square_distance(&Point::new(a)?, &Point::new(b)?))
}

#[test]
fn distances_are_exact(rt: HostRuntime) {
    let far = 1_000_000_000_000;
    let cases = [
        ([7, 0, 0], [-5, 0, 0], 144),
        ([1, 2, 3], [-1, -2, -3], 56),
        ([far; 3], [-far; 3], 12_000_000_000_000_000_000_000_000),
    ];
    for (a, b, square) in cases {
        assert!(rt; between(a, b) == Some(square));
    }
}

/// A mesh of so many vertices, each at its own number, which is at most a million.
fn row_of(alloc: Global, count: u32) -> Result<Mesh<2>, MeshErr> {
    let mut mesh = Mesh::new(alloc);
    for v in 0..count {
        mesh.push_vertex([i64::from(v), -1])?;
    }
    Ok(mesh)
}

/// Why a mesh refuses a vertex.
fn refusal(mesh: &mut Mesh<2>, at: [i64; 2]) -> Option<MeshErr> {
    mesh.push_vertex(at).err()
}

#[test]
fn a_full_mesh_takes_no_vertex(rt: HostRuntime) -> Result<(), Fail> {
    let mut mesh = row_of(rt.alloc(), 9_999)?;
    let cases = [
        ([0, 1_000_000_000_001], Some(MeshErr::BadPoint)),
        ([9_999, -1], None),
        ([0, 0], Some(MeshErr::TooMany)),
        ([0, 1_000_000_000_001], Some(MeshErr::BadPoint)),
    ];
    for (at, cause) in cases {
        assert!(rt; refusal(&mut mesh, at) == cause);
    }
    assert!(rt; mesh.len() == 10_000);
    Ok(())
}

/// Whether a copy of a mesh has so many dimensions and this last vertex.
fn shows(alloc: Global, mesh: &AnyMesh, dimensions: usize, last: &[i64]) -> Result<bool, Memory> {
    let copy = mesh.copy(alloc)?;
    let count = copy.len();
    if count == 0 {
        return Ok(false);
    }
    Ok(copy.dimensions() == dimensions && *copy.at(count as u32 - 1) == *last)
}

#[test]
fn meshes_of_both_kinds_are_read_and_copied(rt: HostRuntime) -> Result<(), Fail> {
    let alloc = rt.alloc();
    let flat = AnyMesh::Two(row_of(alloc, 2)?);
    let mut points = Mesh::<3>::new(alloc);
    points.push_vertex([3, 4, 5])?;
    let solid = AnyMesh::Three(points);
    assert!(rt; shows(alloc, &flat, 2, &[1, -1])?);
    assert!(rt; shows(alloc, &solid, 3, &[3, 4, 5])?);
    Ok(())
}
