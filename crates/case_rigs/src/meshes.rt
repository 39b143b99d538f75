//! The meshes of a participant, by the points of its case file.
ghost use Rattle.std.specs.Prelude.{◌≡◌, [], All, IfOk, IfSome};
ghost use Rattle.std.specs.Option.{option_map_or};
ghost use Rattle.mesh_data.specs.Points.{IsDimension};
ghost use Rattle.case_rigs.specs.CasePoints.{points_of_line, case_points, IsLineIn, IsCaseMeshIn};
ghost use Rattle.case_rigs.specs.CaseMeshes.{mesh_with, own_mesh, own_meshes, IsFlatOrSolid, MakesMesh};

use crate::points::{drawn, listed};
use case_files::{CaseFile, CaseMesh, LinePoints};
use case_rules::case_meshes::case_mesh_called;
use cpl_config::{Config, PartTable};
use fixed_num::{Items, Memory};
use mesh_data::{AnyMesh, Mesh};
use mesh_rules::named::dimensions_of;
use std::alloc::Global;

/// The meshes that a participant provides, in its order.
pub(crate) fn own_meshes(
    alloc: Global,
    config: &Config,
    part: &PartTable,
    case_file: &CaseFile,
) -> Result<Items<AnyMesh>, Memory>
    requires { All (MakesMesh config.now case_file.now) (part.now).provides }
    ensures { IfOk result (λ meshes. meshes ≡ own_meshes config.now part.now case_file.now) }
{
    let mut meshes = Vec::with_capacity(alloc, part.provides.len())?;
    'names: for name in part.provides.as_slice() {
        meshes.push(own_mesh(alloc, config, case_file, name.as_str())?)?;
    }
    Ok(Items::from_vec(meshes))
}

/// The mesh of a name, by the case file.
fn own_mesh(
    alloc: Global,
    config: &Config,
    case_file: &CaseFile,
    name: &str,
) -> Result<AnyMesh, Memory>
    requires { MakesMesh config.now case_file.now name.now }
    ensures { IfOk result (λ mesh. mesh ≡ own_mesh config.now case_file.now name.now) }
{
    let dimensions = dimensions_of(config, name).unsigned_abs();
    match case_mesh_called(case_file, name) {
        Some(case_mesh) => mesh_of(alloc, dimensions, case_mesh),
        None => Ok(empty_mesh(alloc, dimensions)),
    }
}

fn empty_mesh(alloc: Global, dimensions: u64) -> AnyMesh
    ensures { result ≡ mesh_with dimensions [] }
{
    if dimensions == 2 {
        AnyMesh::Two(Mesh::new(alloc))
    } else {
        AnyMesh::Three(Mesh::new(alloc))
    }
}

/// The mesh that the case file tells of, in two or in three dimensions.
fn mesh_of(alloc: Global, dimensions: u64, case_mesh: &CaseMesh) -> Result<AnyMesh, Memory>
    requires dimensions { IsFlatOrSolid dimensions }
    requires told { IsCaseMeshIn dimensions case_mesh.now }
    ensures { IfOk result (λ mesh. mesh ≡ mesh_with dimensions (case_points case_mesh.now)) }
{
    if dimensions == 2 {
        Ok(AnyMesh::Two(mesh_in(alloc, case_mesh)?))
    } else {
        Ok(AnyMesh::Three(mesh_in(alloc, case_mesh)?))
    }
}

fn mesh_in<const D: usize>(alloc: Global, case_mesh: &CaseMesh) -> Result<Mesh<D>, Memory>
    requires dimension { IsDimension D }
    requires told { IsCaseMeshIn D case_mesh.now }
    ensures { IfOk result (λ mesh. mesh ≡ case_points case_mesh.now) }
{
    match &case_mesh.points {
        Some(points) => listed(alloc, points.as_slice()),
        None => drawn_if(alloc, &case_mesh.line),
    }
}

/// The mesh of a line; one without vertices where there is none.
fn drawn_if<const D: usize>(alloc: Global, line: &Option<LinePoints>) -> Result<Mesh<D>, Memory>
    requires dimension { IsDimension D }
    requires line { IfSome line.now (IsLineIn D) }
    ensures { IfOk result (λ mesh. mesh ≡ option_map_or points_of_line line.now []) }
{
    match line {
        Some(told) => drawn(
            alloc,
            told.count.unsigned_abs(),
            told.from.as_slice(),
            told.to.as_slice(),
        ),
        None => Ok(Mesh::new(alloc)),
    }
}
