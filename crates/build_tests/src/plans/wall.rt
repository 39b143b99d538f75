//! The plan of the shipped wall.
use super::{plan_of, shown};
use std::test::Fail;

const WALL: &str = r#"# A fluid along a wall, the wall itself, and a probe that looks at the wall.
#
# Fluid and Wall repeat each window until the wall's heat has settled; Probe then follows.
# Wall maps in both directions: it reads the fluid's temperature on its own mesh, and writes its
# heat onto the fluid's.
format = 1
window = 100
max-time = 2000

[[data]]
name = "Temperature"
kind = "scalar"

[[data]]
name = "Heat"
kind = "scalar"

[[mesh]]
name = "Fluid-Mesh"
dimensions = 2
data = ["Temperature", "Heat"]

[[mesh]]
name = "Wall-Mesh"
dimensions = 2
data = ["Temperature", "Heat"]

[[mesh]]
name = "Probe-Mesh"
dimensions = 2
data = ["Heat"]

[[participant]]
name = "Fluid"
case = "fluid.toml"
provides = ["Fluid-Mesh"]
write = [{ data = "Temperature", mesh = "Fluid-Mesh" }]
read = [{ data = "Heat", mesh = "Fluid-Mesh" }]

[[participant]]
name = "Wall"
case = "wall-case.toml"
provides = ["Wall-Mesh"]
receives = [{ mesh = "Fluid-Mesh", from = "Fluid" }]
write = [{ data = "Heat", mesh = "Wall-Mesh" }]
read = [{ data = "Temperature", mesh = "Wall-Mesh" }]
map = [
  { direction = "read", from = "Fluid-Mesh", to = "Wall-Mesh", constraint = "consistent" },
  { direction = "write", from = "Wall-Mesh", to = "Fluid-Mesh", constraint = "conservative" },
]
watch = [{ name = "middle", mesh = "Wall-Mesh", at = ["0.5", "0"] }]

[[participant]]
name = "Probe"
case = "probe.toml"
provides = ["Probe-Mesh"]
receives = [{ mesh = "Wall-Mesh", from = "Wall" }]
read = [{ data = "Heat", mesh = "Probe-Mesh" }]
map = [{ direction = "read", from = "Wall-Mesh", to = "Probe-Mesh", constraint = "consistent" }]

[[scheme]]
kind = "serial-implicit"
first = "Fluid"
second = "Wall"
max-iterations = 50
measure = [{ kind = "relative", data = "Heat", limit = "0.001" }]
acceleration = { kind = "aitken", factor = "0.5", data = ["Heat"] }
exchange = [
  { data = "Temperature", mesh = "Fluid-Mesh", from = "Fluid", to = "Wall" },
  { data = "Heat", mesh = "Fluid-Mesh", from = "Wall", to = "Fluid", initialize = true },
]

[[scheme]]
kind = "serial-explicit"
first = "Wall"
second = "Probe"
exchange = [{ data = "Heat", mesh = "Wall-Mesh", from = "Wall", to = "Probe" }]
"#;

#[test]
fn windows_and_nodes(rt: HostRuntime) -> Result<(), Fail> {
    let alloc = rt.alloc();
    let plan = plan_of(alloc, WALL)?;
    let parts = plan.parts();
    let windows = (parts.window, parts.end_time, parts.most_windows);
    assert!(rt; windows == (100, 2000, 20));
    assert_eq!(rt; shown(alloc, &parts.method)?.as_str(), "Fixed");
    assert_eq!(rt;
        shown(alloc, &parts.nodes)?.as_str(),
        "[Group(0), Single(2)]"
    );
    Ok(())
}

const FLUID: &str =
    r#"Part { name: "Fluid", provides: [0], receives: [], writes: [PlanEntry { data_id: 0, mesh: 0 }], reads: [PlanEntry { data_id: 1, mesh: 0 }], maps: [], watches: [], group: Some(0) }"#;

const SOLID: &str =
    r#"Part { name: "Wall", provides: [1], receives: [0], writes: [PlanEntry { data_id: 1, mesh: 1 }], reads: [PlanEntry { data_id: 0, mesh: 1 }], maps: [MapPlan { reading: true, from: 0, to: 1, conservative: false, projection: false }, MapPlan { reading: false, from: 1, to: 0, conservative: true, projection: false }], watches: [Watch { name: "middle", mesh: 1, at: [500000, 0] }], group: Some(0) }"#;

const PROBE: &str =
    r#"Part { name: "Probe", provides: [2], receives: [1], writes: [], reads: [PlanEntry { data_id: 1, mesh: 2 }], maps: [MapPlan { reading: true, from: 1, to: 2, conservative: false, projection: false }], watches: [], group: None }"#;

#[test]
fn participants(rt: HostRuntime) -> Result<(), Fail> {
    let alloc = rt.alloc();
    let plan = plan_of(alloc, WALL)?;
    let wanted = format!(in alloc; "[{FLUID}, {SOLID}, {PROBE}]")?;
    assert_eq!(rt; shown(alloc, &plan.parts().parts)?, wanted);
    Ok(())
}

const MESHES: &str =
    r#"[MeshPlan { name: "Fluid-Mesh", dimensions: 2, owner: 0, data_list: [0, 1] }, MeshPlan { name: "Wall-Mesh", dimensions: 2, owner: 1, data_list: [0, 1] }, MeshPlan { name: "Probe-Mesh", dimensions: 2, owner: 2, data_list: [1] }]"#;

const DATA: &str =
    r#"[DataPlan { name: "Temperature", vector: false, degree: 1 }, DataPlan { name: "Heat", vector: false, degree: 1 }]"#;

#[test]
fn meshes_and_data(rt: HostRuntime) -> Result<(), Fail> {
    let alloc = rt.alloc();
    let plan = plan_of(alloc, WALL)?;
    assert_eq!(rt; shown(alloc, &plan.parts().meshes)?.as_str(), MESHES);
    assert_eq!(rt; shown(alloc, &plan.parts().data_list)?.as_str(), DATA);
    Ok(())
}

const SCHEMES: &str =
    r#"[Scheme { kind: SerialImplicit, members: [0, 1], min: 1, max: 50, measures: [Measure { kind: Relative, exchange: 1, limit: Value { units: 1000 }, suffices: false, strict: false }], accel: Aitken { first: Factor { units: 500000 }, over: [1] } }, Scheme { kind: SerialExplicit, members: [1, 2], min: 1, max: 1, measures: [], accel: None }]"#;

const EXCHANGES: &str =
    r#"[Exchange { data_id: 0, mesh: 0, from: 0, to: 1, scheme: 0, kind: FreshIter, initialize: false, substeps: true, write_map: None, read_map: Some(0) }, Exchange { data_id: 1, mesh: 0, from: 1, to: 0, scheme: 0, kind: Iterated, initialize: true, substeps: true, write_map: Some(1), read_map: None }, Exchange { data_id: 1, mesh: 1, from: 1, to: 2, scheme: 1, kind: Fresh, initialize: false, substeps: true, write_map: None, read_map: Some(0) }]"#;

#[test]
fn schemes_and_exchanges(rt: HostRuntime) -> Result<(), Fail> {
    let alloc = rt.alloc();
    let plan = plan_of(alloc, WALL)?;
    assert_eq!(rt; shown(alloc, &plan.parts().schemes)?.as_str(), SCHEMES);
    assert_eq!(rt; shown(alloc, &plan.parts().exchanges)?.as_str(), EXCHANGES);
    Ok(())
}
