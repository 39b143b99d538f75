use super::BASE;
use cpl_config::{Config, KindWord, WindowWord, read_config};
use std::alloc::{AllocError, Global};
use std::fmt::Debug;
use std::test::Fail;

const WHOLE: &str = r#"format = 2
window-method = "first-participant"
window = 10
max-time = 25

[[data]]
name = "U"
kind = "scalar"
degree = 0

[[data]]
name = "F"
kind = "vector"

[[mesh]]
name = "MA"
dimensions = 3
data = ["U", "F"]

[[participant]]
name = "A"
case = "a.toml"
provides = ["MA"]
receives = [{ mesh = "MB", from = "B" }]
write = [{ data = "U", mesh = "MA" }]
read = [{ data = "F", mesh = "MA" }]
map = [
  { direction = "read", from = "MB", to = "MA", constraint = "consistent" },
  { direction = "write", from = "MA", to = "MC", constraint = "conservative", method = "nearest-projection" },
]
watch = [{ name = "P", mesh = "MA", at = ["-0.5", 2, "1.25"] }]
action = [{ kind = "summation", mesh = "MA", sources = ["U", "F"], target = "S" }]

[[participant]]
name = "B"
case = "cases/b.toml"
provides = []

[[scheme]]
kind = "parallel-implicit"
first = "A"
second = "B"
max-iterations = 100
min-iterations = 2
acceleration = { kind = "constant", factor = "0.5", data = ["F"] }
exchange = [
  { data = "U", mesh = "MA", from = "A", to = "B", initialize = true, substeps = false },
  { data = "F", mesh = "MB", from = "B", to = "A" },
]
measure = [
  { kind = "absolute", data = "F", limit = "0.1", suffices = true },
  { kind = "relative", data = "U", limit = "0.001", strict = true },
  { kind = "residual-relative", data = "U", limit = 2 },
]

[[scheme]]
kind = "multi"
control = "A"
members = ["A", "B"]
acceleration = { kind = "aitken", factor = 1, data = ["U"] }
"#;

/// How a value is shown, without the types that hold texts and lists.
fn shown<T: Debug>(alloc: Global, value: &T) -> Result<String, AllocError> {
    let text = format!(in alloc; "{value:?}")?;
    let text = text.replace(alloc, "Name { text: ", "")?;
    let text = text.replace(alloc, "\" }", "\"")?;
    let text = text.replace(alloc, "Items { items: ", "")?;
    text.replace(alloc, "] }", "]")
}

fn numbers(config: &Config) -> [Option<i64>; 4] {
    [
        Some(config.format),
        Some(config.window),
        config.max_time,
        config.max_windows,
    ]
}

const DATA: &str =
    r#"[DataTable { name: "U", kind: Scalar, degree: 0 }, DataTable { name: "F", kind: Vector, degree: 1 }]"#;

const MESHES: &str = r#"[MeshTable { name: "MA", dimensions: 3, data_list: ["U", "F"] }]"#;

#[test]
fn the_top_table_data_and_meshes(rt: HostRuntime) -> Result<(), Fail> {
    let alloc = rt.alloc();
    let whole = read_config(alloc, WHOLE.as_bytes())?;
    let base = read_config(alloc, BASE.as_bytes())?;
    assert!(rt; numbers(&whole) == [Some(2), Some(10), Some(25), None]);
    assert!(rt; whole.window_method == WindowWord::FirstParticipant);
    assert!(rt; base.window_method == WindowWord::Fixed);
    assert!(rt; numbers(&base) == [Some(1), Some(10), None, Some(3)]);
    assert_eq!(rt; shown(alloc, &whole.data_list)?.as_str(), DATA);
    assert_eq!(rt; shown(alloc, &whole.mesh)?.as_str(), MESHES);
    Ok(())
}

const FIRST_PARTICIPANT: &str =
    r#"PartTable { name: "A", case: "a.toml", provides: ["MA"], receives: [ReceivesEntry { mesh: "MB", from: "B" }], write: [DataEntry { data_name: "U", mesh: "MA" }], read: [DataEntry { data_name: "F", mesh: "MA" }], map: [MapEntry { direction: Read, from: "MB", to: "MA", constraint: Consistent, method: NearestNeighbor }, MapEntry { direction: Write, from: "MA", to: "MC", constraint: Conservative, method: NearestProjection }], watch: [WatchEntry { name: "P", mesh: "MA", at: [-500000, 2000000, 1250000] }], action: [ActionEntry { kind: Summation, mesh: "MA", sources: ["U", "F"], target: "S" }] }"#;

const SECOND_PARTICIPANT: &str =
    r#"PartTable { name: "B", case: "cases/b.toml", provides: [], receives: [], write: [], read: [], map: [], watch: [], action: [] }"#;

#[test]
fn participants(rt: HostRuntime) -> Result<(), Fail> {
    let alloc = rt.alloc();
    let whole = read_config(alloc, WHOLE.as_bytes())?;
    let wanted = format!(in alloc; "[{FIRST_PARTICIPANT}, {SECOND_PARTICIPANT}]")?;
    assert_eq!(rt; shown(alloc, &whole.participant)?, wanted);
    Ok(())
}

const FIRST_SCHEME: &str =
    r#"SchemeTable { kind: ParallelImplicit, first: Some("A"), second: Some("B"), control: None, members: None, exchange: [ExchangeEntry { data_name: "U", mesh: "MA", from: "A", to: "B", initialize: true, substeps: false }, ExchangeEntry { data_name: "F", mesh: "MB", from: "B", to: "A", initialize: false, substeps: true }], max_iterations: Some(100), min_iterations: Some(2), measure: [MeasureEntry { kind: Absolute, data_name: "F", limit: 100000, suffices: true, strict: false }, MeasureEntry { kind: Relative, data_name: "U", limit: 1000, suffices: false, strict: true }, MeasureEntry { kind: ResidualRelative, data_name: "U", limit: 2000000, suffices: false, strict: false }], acceleration: Some(AccelEntry { kind: Constant, factor: 500000, data_list: ["F"] }) }"#;

const SECOND_SCHEME: &str =
    r#"SchemeTable { kind: Multi, first: None, second: None, control: Some("A"), members: Some(["A", "B"]), exchange: [], max_iterations: None, min_iterations: None, measure: [], acceleration: Some(AccelEntry { kind: Aitken, factor: 1000000, data_list: ["U"] }) }"#;

#[test]
fn schemes(rt: HostRuntime) -> Result<(), Fail> {
    let alloc = rt.alloc();
    let whole = read_config(alloc, WHOLE.as_bytes())?;
    let wanted = format!(in alloc; "[{FIRST_SCHEME}, {SECOND_SCHEME}]")?;
    assert_eq!(rt; shown(alloc, &whole.scheme)?, wanted);
    Ok(())
}

#[test]
fn kinds_of_schemes(rt: HostRuntime) -> Result<(), Fail> {
    let alloc = rt.alloc();
    let cases = [
        ("serial-explicit", KindWord::SerialExplicit),
        ("parallel-explicit", KindWord::ParallelExplicit),
        ("serial-implicit", KindWord::SerialImplicit),
        ("parallel-implicit", KindWord::ParallelImplicit),
        ("multi", KindWord::Multi),
    ];
    for (word, kind) in cases {
        let text = BASE.replacen(alloc, "serial-explicit", word, 1)?;
        let config = read_config(alloc, text.as_bytes())?;
        for scheme in config.scheme.as_slice() {
            assert_eq!(rt; scheme.kind, kind, "of {word}");
        }
    }
    Ok(())
}
