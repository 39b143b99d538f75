ghost use Rattle.std.specs.Prelude.{◌≡◌, ◌↔◌, All, IfOk, IsTrue};
ghost use Rattle.mesh_data.specs.Points.{IsDimension};
ghost use Rattle.edge_projection.specs.NearestFoot.{IsEdgeOf};

use edge_projection::feet::EDGE_LIMIT;
use edge_projection::{Edge, EdgeErr, EdgeTable, Foot, SumErr, confirms, foot_of};
use fixed_num::{Items, Memory, value_of};
use mesh_data::{AnyMesh, Mesh, MeshErr, Point};
use std::alloc::Global;
use std::test::Fail;
use waveform::Field;

fn mesh_of<const D: usize>(alloc: Global, points: &[[i64; D]]) -> Result<Mesh<D>, MeshErr>
    requires { IsDimension D }
{
    let mut mesh = Mesh::new(alloc);
    for at in points {
        mesh.push_vertex(*at)?;
    }
    Ok(mesh)
}

/// A field of one component, of these units. No test asks for one that is out of range.
fn field_of(alloc: Global, units: &[i128]) -> Result<Field, Memory>
    ensures { IfOk result (λ field. field.components ≡ 1) }
{
    let mut values = Vec::new(alloc);
    for unit in units {
        values.push(value_of(*unit).ok_or(Memory)?)?;
    }
    Ok(Field {
        components: 1,
        values: Items::from_vec(values),
    })
}

/// Whether the ends of each edge are among so many vertices.
fn are_edges(edges: &[Edge], vertices: usize) -> bool
    ensures { IsTrue result ↔ All (IsEdgeOf vertices) edges.now }
{
    edges.iter().all(|edge| is_edge_of(*edge, vertices))
}

fn is_edge_of(edge: Edge, vertices: usize) -> bool
    ensures { IsTrue result ↔ IsEdgeOf vertices edge }
{
    (edge.a as usize) < vertices && (edge.b as usize) < vertices
}

/// The foot of a point, where it is confirmed, and is not with another square.
fn foot_at<const D: usize>(mesh: &Mesh<D>, edges: &[Edge], at: [i64; D]) -> Option<Foot>
    requires { IsDimension D }
{
    let p = Point::new(at)?;
    if mesh.len() == 0 || edges.len() > EDGE_LIMIT || !are_edges(edges, mesh.len()) {
        return None;
    }
    let foot = foot_of(mesh, edges, &p);
    let mut other = foot;
    other.square ^= 1;
    if !confirms(mesh, edges, &p, &foot) || confirms(mesh, edges, &p, &other) {
        return None;
    }
    Some(foot)
}

fn edge(a: u32, b: u32) -> Edge {
    Edge { a, b }
}

fn foot(number: u32, ends: Edge, weight: u32, square: u128) -> Foot {
    Foot {
        number,
        a: ends.a,
        b: ends.b,
        weight,
        square,
    }
}

const CORNER: [[i64; 2]; 3] = [[0, 0], [2_000_000, 0], [2_000_000, 2_000_000]];

#[test]
fn feet_on_two_edges(rt: HostRuntime) -> Result<(), Fail> {
    let mesh = mesh_of(rt.alloc(), &CORNER)?;
    let edges = [edge(0, 1), edge(1, 2)];
    let cases = [
        (
            [1_000_000, 1_000_000],
            foot(0, edge(0, 1), 500_000, 10_u128.pow(24)),
        ),
        ([500_000, 0], foot(0, edge(0, 1), 250_000, 0)),
        (
            [3_000_000, 3_000_000],
            foot(1, edge(1, 2), 1_000_000, 2 * 10_u128.pow(24)),
        ),
        ([1, 0], foot(0, edge(0, 1), 0, 10_u128.pow(12))),
        ([3, 0], foot(0, edge(0, 1), 1, 10_u128.pow(12))),
    ];
    for (at, expected) in cases {
        assert!(rt; foot_at(&mesh, &edges, at) == Some(expected));
    }
    Ok(())
}

#[test]
fn feet_on_odd_edges(rt: HostRuntime) -> Result<(), Fail> {
    let far = 1_000_000_000_000;
    let mesh = mesh_of(
        rt.alloc(),
        &[[-far; 3], [far; 3], [4_000_000 - far, -far, -far]],
    )?;
    let third = 2_666_666_666_668 * 10_u128.pow(24);
    let cases = [
        // One edge over another, and an edge of length 0.
        (
            edge(0, 1),
            edge(0, 1),
            [0; 3],
            foot(0, edge(0, 1), 500_000, 0),
        ),
        (
            edge(0, 0),
            edge(1, 0),
            [0; 3],
            foot(1, edge(1, 0), 500_000, 0),
        ),
        (edge(0, 0), edge(0, 0), [far; 3], foot(3, edge(1, 1), 0, 0)),
        // As far as it goes.
        (
            edge(1, 0),
            edge(0, 0),
            [far, -far, far],
            foot(0, edge(1, 0), 333_333, third),
        ),
        (
            edge(0, 0),
            edge(0, 0),
            [far, -far, far],
            foot(3, edge(1, 1), 0, 4 * 10_u128.pow(36)),
        ),
        // A quarter of a millionth of the way, and three quarters.
        (
            edge(0, 2),
            edge(1, 1),
            [1 - far, -far, -far],
            foot(0, edge(0, 2), 0, 10_u128.pow(12)),
        ),
        (
            edge(0, 2),
            edge(1, 1),
            [3 - far, -far, -far],
            foot(0, edge(0, 2), 1, 10_u128.pow(12)),
        ),
    ];
    for (first, second, at, expected) in cases {
        assert!(rt; foot_at(&mesh, &[first, second], at) == Some(expected));
    }
    Ok(())
}

/// What comes of mapping a field of one component along two edges to one of zeros, and that field
/// then. The sizes are the right ones in each test, as are the dimensions.
fn mapped(
    alloc: Global,
    from: &AnyMesh,
    to: &AnyMesh,
    edges: &[Edge],
    conservative: bool,
    units: &[i128],
) -> Result<(Result<(), SumErr>, Field), EdgeErr> {
    let field = field_of(alloc, units)?;
    if from.dimensions() != to.dimensions()
        || edges.len() > EDGE_LIMIT
        || field.values.len() != from.len()
    {
        return Err(EdgeErr::Memory);
    }
    let table = EdgeTable::build(alloc, from, to, edges, conservative)?;
    let mut out = Field::zeros(alloc, to.len(), 1)?;
    let told = table.apply(&field, &mut out);
    Ok((told, out))
}

/// Whether a field of one component has these units.
fn has(alloc: Global, field: &Field, units: &[i128]) -> Result<bool, Memory> {
    let expected = field_of(alloc, units)?;
    Ok(field.values.as_slice() == expected.values.as_slice())
}

#[test]
fn fields_are_read_between_and_split(rt: HostRuntime) -> Result<(), Fail> {
    let alloc = rt.alloc();
    let corner = AnyMesh::Two(mesh_of(alloc, &CORNER)?);
    let queries = [
        [1_000_000, 1_000_000],
        [500_000, 0],
        [3_000_000, 3_000_000],
        [1, 0],
    ];
    let points = AnyMesh::Two(mesh_of(alloc, &queries)?);
    let edges = [edge(0, 1), edge(1, 2)];
    let read = mapped(
        alloc,
        &corner,
        &points,
        &edges,
        false,
        &[0, 2_000_000, 4_000_000],
    )?;
    assert!(rt; read.0 == Ok(()));
    assert!(rt; has(alloc, &read.1, &[1_000_000, 500_000, 4_000_000, 0])?);

    let most = 10_000_000_000_000;
    let middle = AnyMesh::Two(mesh_of(alloc, &[[1_000_000, 0], [0, 0], [2_000_000, 2_000_000]])?);
    let over = SumErr::Overflow {
        vertex: 0,
        component: 0,
    };
    let cases = [
        ([3, 0, 0], Ok(()), [1, 2, 0]),
        ([-3, 10, -7], Ok(()), [9, -2, -7]),
        ([-2, most, 0], Ok(()), [most - 1, -1, 0]),
        ([2, most, 0], Err(over), [0, 0, 0]),
    ];
    for (units, told, sums) in cases {
        let split = mapped(alloc, &middle, &corner, &edges, true, &units)?;
        assert!(rt; split.0 == told);
        assert!(rt; has(alloc, &split.1, &sums)?);
    }
    Ok(())
}

#[test]
fn bad_edges_and_empty_meshes(rt: HostRuntime) -> Result<(), Fail> {
    let alloc = rt.alloc();
    let some = AnyMesh::Two(mesh_of(alloc, &CORNER)?);
    let none = AnyMesh::Two(Mesh::new(alloc));
    let edges = [edge(0, 2), edge(1, 3), edge(4, 0)];
    for conservative in [false, true] {
        let bad = mapped(alloc, &some, &some, &edges, conservative, &[0; 3]).err();
        assert!(rt; bad == Some(EdgeErr::BadEdge { at: 1 }));
        let empty = mapped(alloc, &some, &none, &edges, conservative, &[0; 3]).err();
        assert!(rt; empty == Some(EdgeErr::Empty));
    }
    Ok(())
}
