//! What the participants of a case are run with, by hand: listed points and lines in two and in three
//! dimensions, and solvers with and without an action.
ghost use Rattle.std.specs.Prelude.{IfOk, All};
ghost use Rattle.cpl_config.specs.SoundConfig.{IsSoundConfig};
ghost use Rattle.case_files.specs.SoundCase.{IsSoundCaseFile};
ghost use Rattle.config_rules.specs.ConfigRules.{IsAccepted};

use crate::{CaseRig, rigs_of};
use case_files::{CaseFile, read_case};
use case_rules::check_cases;
use config_rules::check_config;
use cpl_config::{Config, read_config};
use mesh_data::AnyMesh;
use solver_trait::Solver;
use std::alloc::Global;
use std::test::Fail;

/// A writes U, and a sum of it, on the one of its meshes that carries data; B reads U.
const CONFIG: &str = r#"format = 2
window = 10
max-windows = 1
data = [{ name = "U", kind = "scalar" }, { name = "S", kind = "scalar" }]
mesh = [
  { name = "MA", dimensions = 2, data = ["U", "S"] },
  { name = "NA", dimensions = 3, data = [] },
  { name = "MB", dimensions = 2, data = ["U"] },
  { name = "NB", dimensions = 3, data = [] },
]
[[participant]]
name = "A"
case = "a.toml"
provides = ["NA", "MA"]
write = [{ data = "U", mesh = "MA" }, { data = "S", mesh = "MA" }]
action = [{ kind = "summation", mesh = "MA", sources = ["U"], target = "S" }]
[[participant]]
name = "B"
case = "b.toml"
provides = ["MB", "NB"]
receives = [{ mesh = "MA", from = "A" }]
read = [{ data = "U", mesh = "MB" }]
map = [{ direction = "read", from = "MA", to = "MB", constraint = "consistent" }]
[[scheme]]
kind = "parallel-explicit"
first = "A"
second = "B"
exchange = [{ data = "U", mesh = "MA", from = "A", to = "B" }]
"#;

/// Four vertices on a line in the plane, two that are listed in space.
const FIRST: &str = r#"solver = "rod"
step = 10
fill = 5
count = 8
mesh = [
  { name = "MA", line = { from = [0, "0.000001"], to = [1, "-0.000002"], count = 4 } },
  { name = "NA", points = [[1, 2, 3], [-4, 5, 6]] },
]
"#;

/// One vertex that a line would have two of, and three on a line in space.
const SECOND: &str = r#"solver = "rod"
step = 10
state = [7]
mesh = [
  { name = "NB", line = { from = [0, 0, 0], to = [1, "-0.000003", "0.000001"], count = 3 } },
  { name = "MB", line = { from = [7, 8], to = [9, 9], count = 1 } },
]
"#;

/// The coordinates, in units, of a vertex of a mesh of a participant.
type Row = (usize, usize, u32, &'static [i64]);

const POINTS: &[Row] = &[
    (0, 0, 0, &[1_000_000, 2_000_000, 3_000_000]),
    (0, 0, 1, &[-4_000_000, 5_000_000, 6_000_000]),
    (0, 1, 0, &[0, 1]),
    (0, 1, 1, &[333_333, 0]),
    (0, 1, 2, &[666_667, -1]),
    (0, 1, 3, &[1_000_000, -2]),
    (1, 0, 0, &[7_000_000, 8_000_000]),
    (1, 1, 0, &[0, 0, 0]),
    (1, 1, 1, &[500_000, -2, 0]),
    (1, 1, 2, &[1_000_000, -3, 1]),
];

fn config_of(alloc: Global) -> Result<Config, Fail>
    ensures sound { IfOk result IsSoundConfig }
    ensures kept { IfOk result IsAccepted }
{
    let config = read_config(alloc, CONFIG.as_bytes())?;
    match check_config(alloc, &config) {
        Ok(()) => Ok(config),
        Err(error) => Err(error.into()),
    }
}

fn cases_of(alloc: Global) -> Result<[CaseFile; 2], Fail>
    ensures { IfOk result (All IsSoundCaseFile) }
{
    let first = read_case(alloc, 0, FIRST.as_bytes())?;
    let second = read_case(alloc, 1, SECOND.as_bytes())?;
    Ok([first, second])
}

/// Whether a mesh has this vertex.
fn has_vertex(mesh: &AnyMesh, vertex: u32, at: &[i64]) -> bool {
    (vertex as usize) < mesh.len() && *mesh.at(vertex) == *at
}

/// Whether a mesh of a participant has this vertex.
fn is_there(rigs: &[CaseRig], row: Row) -> bool {
    let (part, place, vertex, at) = row;
    match rigs.get(part) {
        Some(rig) => match rig.meshes.as_slice().get(place) {
            Some(mesh) => has_vertex(mesh, vertex, at),
            None => false,
        },
        None => false,
    }
}

/// How many vertices the meshes of a participant have together.
fn vertices_in(meshes: &[AnyMesh]) -> u64 {
    let mut count: u64 = 0;
    for mesh in meshes {
        count = count.saturating_add(mesh.len() as u64);
    }
    count
}

/// How many meshes and vertices a participant has, and how many values its solver reads and writes.
fn counts_of(rig: &CaseRig) -> (usize, u64, usize, usize) {
    (
        rig.meshes.len(),
        vertices_in(rig.meshes.as_slice()),
        rig.solver.read_len(),
        rig.solver.write_len(),
    )
}

#[test]
fn meshes_and_solvers_of_a_case(rt: HostRuntime) -> Result<(), Fail> {
    let alloc = rt.alloc();
    let config = config_of(alloc)?;
    let cases = cases_of(alloc)?;
    if config.participant.len() != 2 {
        return Err("there are two participants".into());
    }
    check_cases(alloc, &config, &cases)?;
    let rigs = rigs_of(alloc, &config, &cases)?;
    for row in POINTS {
        assert!(rt;
            is_there(rigs.as_slice(), *row),
            "a vertex stands elsewhere"
        );
    }
    match rigs.as_slice() {
        [first, second] => {
            assert!(rt; counts_of(first) == (2, 6, 0, 8));
            assert!(rt; counts_of(second) == (2, 4, 1, 0));
            assert!(rt; first.solver.inner().state() == [5_000_000; 8].as_slice());
            assert!(rt; second.solver.inner().state() == [7_000_000].as_slice());
            Ok(())
        }
        _ => Err("there are two rigs".into()),
    }
}
