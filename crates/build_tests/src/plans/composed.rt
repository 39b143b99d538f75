//! A group that is relaxed and maps by projection, after a participant that stands alone.
use super::{plan_of, shown};
use std::test::Fail;

const COMPOSED: &str = r#"format = 2
window = 250
max-windows = 7

[[data]]
name = "Load"
kind = "vector"

[[data]]
name = "Force"
kind = "vector"
degree = 0

[[data]]
name = "Move"
kind = "vector"

[[mesh]]
name = "Left-Mesh"
dimensions = 3
data = ["Move", "Force"]

[[mesh]]
name = "Right-Mesh"
dimensions = 3
data = ["Force", "Move", "Load"]

[[mesh]]
name = "Source-Mesh"
dimensions = 3
data = ["Load"]

[[participant]]
name = "Right"
case = "right.toml"
provides = ["Right-Mesh"]
receives = [{ mesh = "Source-Mesh", from = "Source" }]
write = [{ data = "Force", mesh = "Right-Mesh" }]
read = [{ data = "Move", mesh = "Right-Mesh" }, { data = "Load", mesh = "Right-Mesh" }]
map = [{ direction = "read", from = "Source-Mesh", to = "Right-Mesh", constraint = "consistent" }]

[[participant]]
name = "Left"
case = "left.toml"
provides = ["Left-Mesh"]
receives = [{ mesh = "Right-Mesh", from = "Right" }]
write = [{ data = "Move", mesh = "Left-Mesh" }]
read = [{ data = "Force", mesh = "Left-Mesh" }]
map = [
  { direction = "write", from = "Left-Mesh", to = "Right-Mesh", constraint = "consistent", method = "nearest-projection" },
  { direction = "read", from = "Right-Mesh", to = "Left-Mesh", constraint = "conservative", method = "nearest-projection" },
]

[[participant]]
name = "Source"
case = "source.toml"
provides = ["Source-Mesh"]
write = [{ data = "Load", mesh = "Source-Mesh" }]

[[scheme]]
kind = "serial-explicit"
first = "Source"
second = "Right"
exchange = [{ data = "Load", mesh = "Source-Mesh", from = "Source", to = "Right", substeps = false }]

[[scheme]]
kind = "parallel-implicit"
first = "Left"
second = "Right"
min-iterations = 3
max-iterations = 8
measure = [
  { kind = "absolute", data = "Move", limit = 2, strict = true },
  { kind = "residual-relative", data = "Force", limit = "0.01", suffices = true },
]
acceleration = { kind = "constant", factor = "0.25", data = ["Move", "Force"] }
exchange = [
  { data = "Force", mesh = "Right-Mesh", from = "Right", to = "Left" },
  { data = "Move", mesh = "Right-Mesh", from = "Left", to = "Right", initialize = true },
]
"#;

#[test]
fn windows_nodes_and_data(rt: HostRuntime) -> Result<(), Fail> {
    let alloc = rt.alloc();
    let plan = plan_of(alloc, COMPOSED)?;
    let parts = plan.parts();
    let windows = (parts.window, parts.end_time, parts.most_windows);
    assert!(rt; windows == (250, 1750, 7));
    assert_eq!(rt;
        shown(alloc, &parts.nodes)?.as_str(),
        "[Single(2), Group(1)]"
    );
    assert_eq!(rt; shown(alloc, &parts.data_list)?.as_str(), DATA);
    Ok(())
}

const DATA: &str =
    r#"[DataPlan { name: "Load", vector: true, degree: 1 }, DataPlan { name: "Force", vector: true, degree: 0 }, DataPlan { name: "Move", vector: true, degree: 1 }]"#;

const RIGHT: &str =
    r#"Part { name: "Right", provides: [1], receives: [2], writes: [PlanEntry { data_id: 1, mesh: 1 }], reads: [PlanEntry { data_id: 2, mesh: 1 }, PlanEntry { data_id: 0, mesh: 1 }], maps: [MapPlan { reading: true, from: 2, to: 1, conservative: false, projection: false }], watches: [], group: Some(1) }"#;

const LEFT: &str =
    r#"Part { name: "Left", provides: [0], receives: [1], writes: [PlanEntry { data_id: 2, mesh: 0 }], reads: [PlanEntry { data_id: 1, mesh: 0 }], maps: [MapPlan { reading: false, from: 0, to: 1, conservative: false, projection: true }, MapPlan { reading: true, from: 1, to: 0, conservative: true, projection: true }], watches: [], group: Some(1) }"#;

const SOURCE: &str =
    r#"Part { name: "Source", provides: [2], receives: [], writes: [PlanEntry { data_id: 0, mesh: 2 }], reads: [], maps: [], watches: [], group: None }"#;

#[test]
fn participants(rt: HostRuntime) -> Result<(), Fail> {
    let alloc = rt.alloc();
    let plan = plan_of(alloc, COMPOSED)?;
    let wanted = format!(in alloc; "[{RIGHT}, {LEFT}, {SOURCE}]")?;
    assert_eq!(rt; shown(alloc, &plan.parts().parts)?, wanted);
    Ok(())
}

const SCHEMES: &str =
    r#"[Scheme { kind: SerialExplicit, members: [2, 0], min: 1, max: 1, measures: [], accel: None }, Scheme { kind: ParallelImplicit, members: [1, 0], min: 3, max: 8, measures: [Measure { kind: Absolute, exchange: 2, limit: Value { units: 2000000 }, suffices: false, strict: true }, Measure { kind: ResidualRelative, exchange: 1, limit: Value { units: 10000 }, suffices: true, strict: false }], accel: Constant { factor: Factor { units: 250000 }, over: [1, 2] } }]"#;

const EXCHANGES: &str =
    r#"[Exchange { data_id: 0, mesh: 2, from: 2, to: 0, scheme: 0, kind: Fresh, initialize: false, substeps: false, write_map: None, read_map: Some(0) }, Exchange { data_id: 1, mesh: 1, from: 0, to: 1, scheme: 1, kind: Iterated, initialize: false, substeps: true, write_map: None, read_map: Some(1) }, Exchange { data_id: 2, mesh: 1, from: 1, to: 0, scheme: 1, kind: Iterated, initialize: true, substeps: true, write_map: Some(0), read_map: None }]"#;

#[test]
fn schemes_and_exchanges(rt: HostRuntime) -> Result<(), Fail> {
    let alloc = rt.alloc();
    let plan = plan_of(alloc, COMPOSED)?;
    assert_eq!(rt; shown(alloc, &plan.parts().schemes)?.as_str(), SCHEMES);
    assert_eq!(rt; shown(alloc, &plan.parts().exchanges)?.as_str(), EXCHANGES);
    Ok(())
}
