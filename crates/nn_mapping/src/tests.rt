ghost use Rattle.std.specs.Prelude.{◌≡◌, IfOk};
ghost use Rattle.mesh_data.specs.Points.{IsDimension};

use crate::{ApplyErr, MapErr, MapTable};
use fixed_num::{Items, Memory, value_of};
use mesh_data::{AnyMesh, Mesh, MeshErr};
use std::alloc::Global;
use std::test::Fail;
use waveform::Field;

fn mesh_of<const D: usize>(alloc: Global, points: &[[i64; D]]) -> Result<Mesh<D>, MeshErr>
    requires { IsDimension D }
{
    let mut mesh = Mesh::new(alloc);
    for at in points {
        mesh.push_vertex(*at)?;
    }
    Ok(mesh)
}

/// A field of two components, of these units. No test asks for one that is out of range.
fn field_of(alloc: Global, units: &[i128]) -> Result<Field, Memory>
    ensures { IfOk result (λ field. field.components ≡ 2) }
{
    let mut values = Vec::new(alloc);
    for unit in units {
        values.push(value_of(*unit).ok_or(Memory)?)?;
    }
    Ok(Field {
        components: 2,
        values: Items::from_vec(values),
    })
}

/// What comes of mapping a field of two components to one of zeros, and that field then. The sizes are
/// the right ones in each test, as are the dimensions.
fn mapped(
    alloc: Global,
    from: &AnyMesh,
    to: &AnyMesh,
    conservative: bool,
    units: &[i128],
) -> Result<(Result<(), ApplyErr>, Field), MapErr> {
    let field = field_of(alloc, units)?;
    if from.dimensions() != to.dimensions() || field.values.len() != from.len() * 2 {
        return Err(MapErr::Memory);
    }
    let table = MapTable::build(alloc, from, to, conservative)?;
    let mut out = Field::zeros(alloc, to.len(), 2)?;
    let told = table.apply(&field, &mut out);
    Ok((told, out))
}

/// Whether a field of two components has these units.
fn has(alloc: Global, field: &Field, units: &[i128]) -> Result<bool, Memory> {
    let expected = field_of(alloc, units)?;
    Ok(field.values.as_slice() == expected.values.as_slice())
}

#[test]
fn the_first_of_equally_near_sources_is_taken(rt: HostRuntime) -> Result<(), Fail> {
    let alloc = rt.alloc();
    let lattice = [[2, 0, 0], [0, 2, 0], [0, 0, 0], [2, 2, 0], [1, 1, 2]];
    let from = AnyMesh::Three(mesh_of(alloc, &lattice)?);
    let to = AnyMesh::Three(mesh_of(alloc, &[[1, 1, 0], [0, 1, 0], [1, 1, 1]])?);
    let units = [1, -1, 2, -2, 3, -3, 4, -4, 5, -5];
    let (told, out) = mapped(alloc, &from, &to, false, &units)?;
    assert!(rt; told == Ok(()));
    assert!(rt; has(alloc, &out, &[1, -1, 2, -2, 5, -5])?);
    Ok(())
}

#[test]
fn only_a_whole_sum_can_overflow(rt: HostRuntime) -> Result<(), Fail> {
    let alloc = rt.alloc();
    let from = AnyMesh::Two(mesh_of(alloc, &[[4, 0], [4, 0], [4, 0], [0, 0], [0, 0]])?);
    let to = AnyMesh::Two(mesh_of(alloc, &[[0, 0], [4, 0]])?);
    let most = 10_000_000_000_000;
    let first = ApplyErr::Overflow {
        vertex: 0,
        component: 1,
    };
    let second = ApplyErr::Overflow {
        vertex: 1,
        component: 0,
    };
    // The partial sums of the second pass the edge; their whole is at it.
    let cases: [([i128; 10], Result<(), ApplyErr>, [i128; 4]); 4] = [
        ([1, 10, 2, 20, 4, 40, 5, 6, 7, 8], Ok(()), [12, 14, 7, 70]),
        (
            [most, 0, most, 0, -most, 0, 0, 0, 0, 0],
            Ok(()),
            [0, 0, most, 0],
        ),
        ([most, 0, 1, 0, 0, 0, 0, -most, 0, -1], Err(first), [0; 4]),
        ([0, -most, 1, -1, most, 0, 3, 3, 3, 3], Err(second), [0; 4]),
    ];
    for (units, expected, sums) in cases {
        let (told, out) = mapped(alloc, &from, &to, true, &units)?;
        assert!(rt; told == expected);
        assert!(rt; has(alloc, &out, &sums)?);
    }
    Ok(())
}

#[test]
fn a_mesh_without_vertices_has_no_map(rt: HostRuntime) -> Result<(), Fail> {
    let alloc = rt.alloc();
    let some = AnyMesh::Three(mesh_of(alloc, &[[0, 0, 0]])?);
    let none = AnyMesh::Three(Mesh::new(alloc));
    for conservative in [false, true] {
        assert!(rt;
            mapped(alloc, &some, &none, conservative, &[1, 2]).err() == Some(MapErr::Empty)
        );
        assert!(rt; mapped(alloc, &none, &some, conservative, &[]).err() == Some(MapErr::Empty));
    }
    Ok(())
}
