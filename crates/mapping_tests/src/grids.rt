ghost use Rattle.mesh_data.specs.Points.{IsDimension};

use fixed_num::Memory;
use grid_index::{Grid, Steps};
use mesh_data::{Mesh, MeshErr, Point};
use std::alloc::Global;
use std::test::Fail;

/// One whole, in units.
const WHOLE: i64 = 1_000_000;

/// The greatest coordinate, in units.
const FAR: i64 = 1_000_000_000_000;

/// Of 10,000 vertices the nearest to a point, and how many steps it took.
fn found<const D: usize>(
    alloc: Global,
    mesh: &Mesh<D>,
    at: [i64; D],
) -> Result<Option<(u32, u64)>, Memory>
    requires { IsDimension D }
{
    if mesh.len() == 0 {
        return Ok(None);
    }
    let grid = Grid::build(alloc, mesh)?;
    let Some(point) = Point::new(at) else {
        return Ok(None);
    };
    let mut steps = Steps::new();
    let vertex = grid.nearest(&point, &mut steps);
    Ok(Some((vertex, steps.count())))
}

/// How the vertices of a mesh lie.
#[derive(Clone, Copy)]
enum Shape {
    /// On a lattice of 100 by 100 whole coordinates.
    Lattice,
    /// All at one point.
    OnePoint,
    /// On a line, ten units from each to the next.
    Line,
    /// In two clusters as far from each other as may be, in turn in one and in the other.
    Clusters,
}

/// Where vertex `v` lies, of at most 10,000.
fn place(shape: Shape, v: i64) -> [i64; 2] {
    let v = v.clamp(0, 9_999);
    match shape {
        Shape::Lattice => [v % 100 * WHOLE, v / 100 * WHOLE],
        Shape::OnePoint => [7, 7],
        Shape::Line => [10 * v, 0],
        Shape::Clusters => {
            if v % 2 == 0 {
                [v - FAR, 0]
            } else {
                [FAR - v, 5]
            }
        }
    }
}

fn mesh_of(alloc: Global, shape: Shape) -> Result<Mesh<2>, MeshErr> {
    let mut mesh = Mesh::new(alloc);
    for v in 0..10_000 {
        mesh.push_vertex(place(shape, v))?;
    }
    Ok(mesh)
}

/// Whether a mesh of this shape has this vertex as the nearest to a point, within so many steps.
fn is_found(
    alloc: Global,
    shape: Shape,
    at: [i64; 2],
    vertex: u32,
    most: u64,
) -> Result<bool, Fail> {
    let mesh = mesh_of(alloc, shape)?;
    match found(alloc, &mesh, at)? {
        Some((nearest, steps)) => Ok(nearest == vertex && 0 < steps && steps <= most),
        None => Ok(false),
    }
}

#[test]
fn a_vertex_of_a_lattice_is_found_in_few_steps(rt: HostRuntime) -> Result<(), Fail> {
    let at = [50 * WHOLE, 50 * WHOLE];
    assert!(rt; is_found(rt.alloc(), Shape::Lattice, at, 5_050, 999)?);
    Ok(())
}

#[test]
fn of_many_vertices_at_one_point_the_first_is_found(rt: HostRuntime) -> Result<(), Fail> {
    assert!(rt; is_found(rt.alloc(), Shape::OnePoint, [7, 7], 0, 20_000)?);
    Ok(())
}

#[test]
fn nearest_vertices_by_hand(rt: HostRuntime) -> Result<(), Fail> {
    let half = WHOLE / 2;
    let cases = [
        // Between four vertices of four cells, and between two: the least number.
        (Shape::Lattice, [half, half], 0, 999),
        (Shape::Lattice, [50 * WHOLE + half, 50 * WHOLE], 5_050, 999),
        (Shape::Line, [255, 3], 25, 999),
        // Far outside the box.
        (Shape::Lattice, [FAR, FAR], 9_999, 20_000),
        (Shape::Lattice, [-FAR, -FAR], 0, 20_000),
        (Shape::Lattice, [FAR, -FAR], 99, 20_000),
        (Shape::OnePoint, [-FAR, FAR], 0, 20_000),
        (Shape::Line, [-FAR, 1], 0, 20_000),
        // The second cluster is nearer by one unit: vertex 9,999 lies at 10^12 - 9,999.
        (Shape::Clusters, [0, 0], 9_999, 20_000),
        (Shape::Clusters, [-FAR, 0], 0, 20_000),
        (Shape::Clusters, [FAR, 5], 1, 20_000),
    ];
    for (shape, at, vertex, most) in cases {
        assert!(rt; is_found(rt.alloc(), shape, at, vertex, most)?);
    }
    Ok(())
}

/// So many wholes, at most 99.
fn whole(count: u32) -> i64 {
    i64::from(count.min(99)) * WHOLE
}

#[test]
fn nearest_vertices_in_one_and_three_dimensions(rt: HostRuntime) -> Result<(), Fail> {
    let alloc = rt.alloc();
    let mut line = Mesh::<1>::new(alloc);
    let mut cube = Mesh::<3>::new(alloc);
    for v in 0..27u32 {
        line.push_vertex([whole(v)])?;
        cube.push_vertex([whole(v % 3), whole(v / 3 % 3), whole(v / 9)])?;
    }
    let on_line = found(alloc, &line, [13_000_001])?;
    let in_cube = found(alloc, &cube, [WHOLE, WHOLE, WHOLE])?;
    assert!(rt; on_line.is_some_and(|(vertex, steps)| vertex == 13 && steps <= 6));
    assert!(rt; in_cube.is_some_and(|(vertex, steps)| vertex == 13 && steps <= 54));
    Ok(())
}
