//! What is asked of the meshes of a case file.
ghost use Rattle.std.specs.Prelude.{◌≡◌, ◌==◌, ◌&&◌, true, length, option_map, is_some, unsigned_abs};
ghost use Rattle.std.specs.List.{list_all};
ghost use Rattle.std.specs.Option.{option_map_or};
ghost use Rattle.mesh_rules.specs.Named.{is_among};
ghost use Rattle.case_rules.specs.CaseRules.{vertices_of, case_mesh_called, has_own_meshes, has_points, has_right_points, suits_meshes};

use case_files::{CaseFile, CaseMesh, LinePoints};
use cpl_config::{Config, PartTable};
use fixed_num::{Items, Name};
use mesh_rules::named::{dimensions_of, is_among};

/// Whether the meshes of a case file are those that its participant provides, each with its points.
pub fn suits_meshes(config: &Config, part: &PartTable, case_file: &CaseFile) -> bool
    ensures { result ≡ suits_meshes config.now part.now case_file.now }
{
    has_own_meshes(part, case_file) && have_points(config, case_file.mesh.as_slice())
}

/// Whether the meshes of a case file are those that its participant provides.
fn has_own_meshes(part: &PartTable, case_file: &CaseFile) -> bool
    ensures { result ≡ has_own_meshes part.now case_file.now }
{
    are_among(case_file.mesh.as_slice(), part.provides.as_slice())
        && are_there(case_file, part.provides.as_slice())
}

/// Whether the meshes have names that are among these.
fn are_among(meshes: &[CaseMesh], names: &[Name]) -> bool
    ensures { result ≡ list_all (λ mesh. is_among mesh.name names.now) meshes.now }
{
    'meshes: for mesh in meshes {
        if !is_among(mesh.name.as_str(), names) {
            return false;
        }
    }
    true
}

/// Whether the case file has a mesh of each of these names.
fn are_there(case_file: &CaseFile, names: &[Name]) -> bool
    ensures { result ≡ list_all (λ name. is_some (case_mesh_called case_file.now name)) names.now }
{
    'names: for name in names {
        if case_mesh_called(case_file, name.as_str()).is_none() {
            return false;
        }
    }
    true
}

/// The mesh of a name in a case file.
pub fn case_mesh_called<'a>(case_file: &'a CaseFile, name: &str) -> Option<&'a CaseMesh>
    ensures { option_map (λ mesh. mesh.now) result ≡ case_mesh_called case_file.now name.now }
{
    'meshes: for mesh in case_file.mesh.as_slice() {
        if mesh.name.as_str() == name {
            return Some(mesh);
        }
    }
    None
}

/// How many vertices a mesh has.
pub fn vertices_of(mesh: &CaseMesh) -> u64
    ensures { result ≡ vertices_of mesh.now }
{
    match &mesh.points {
        Some(points) => points.len() as u64,
        None => vertices_of_line(&mesh.line),
    }
}

fn vertices_of_line(line: &Option<LinePoints>) -> u64
    ensures { result ≡ option_map_or (λ line. unsigned_abs line.count) line.now 0 }
{
    match line {
        Some(told) => told.count.unsigned_abs(),
        None => 0,
    }
}

/// Whether each of the meshes has its points.
fn have_points(config: &Config, meshes: &[CaseMesh]) -> bool
    ensures { result ≡ list_all (has_right_points config.now) meshes.now }
{
    'meshes: for mesh in meshes {
        if !has_right_points(config, mesh) {
            return false;
        }
    }
    true
}

/// Whether a mesh has its points, in as many dimensions as the configuration's mesh of its name.
fn has_right_points(config: &Config, mesh: &CaseMesh) -> bool
    ensures { result ≡ has_right_points config.now mesh.now }
{
    has_points(
        dimensions_of(config, mesh.name.as_str()).unsigned_abs(),
        mesh,
    )
}

/// Whether a mesh has either points or a line, some vertex, and so many coordinates.
fn has_points(dimensions: u64, mesh: &CaseMesh) -> bool
    ensures { result ≡ has_points dimensions mesh.now }
{
    mesh.points.is_some() != mesh.line.is_some()
        && 0 < vertices_of(mesh)
        && (are_points_of(dimensions, &mesh.points) && is_line_of(dimensions, &mesh.line))
}

/// Whether the points that are there have so many coordinates each.
fn are_points_of(dimensions: u64, points: &Option<Items<Items<i64>>>) -> bool
    ensures { result ≡ option_map_or (list_all (λ point. length point == dimensions)) points.now true }
{
    match points {
        Some(listed) => have_length(dimensions, listed.as_slice()),
        None => true,
    }
}

fn have_length(dimensions: u64, points: &[Items<i64>]) -> bool
    ensures { result ≡ list_all (λ point. length point == dimensions) points.now }
{
    'points: for point in points {
        if point.len() as u64 != dimensions {
            return false;
        }
    }
    true
}

/// Whether the ends of the line that is there have so many coordinates.
fn is_line_of(dimensions: u64, line: &Option<LinePoints>) -> bool
    ensures { result ≡ option_map_or (λ line. (length line.from == dimensions) && (length line.to == dimensions)) line.now true }
{
    match line {
        Some(told) => { told.from.len() as u64 == dimensions && told.to.len() as u64 == dimensions }
        None => true,
    }
}
