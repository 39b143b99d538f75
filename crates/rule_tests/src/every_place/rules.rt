use super::{changed, told, try_changes};
use std::test::Fail;

const NAMES_OF_NOTHING: &str = r#" ->  => nothing
---
data = ["U", "V"] -> data = ["U", "V", "MA"] => C9 MeshTable(1);
---
provides = ["MA"] -> provides = ["MA", "U"] => C9 Participant(1);
---
from = "A" }] -> from = "C" }] => C9 Receives(2, 1);C12 Receives(2, 1);
---
[{ data = "U", mesh = "MB" }] -> [{ data = "U", mesh = "M" }] => C9 Read(2, 1);C13 Read(2, 1);C16 Exchange(1, 1);
---
first = "A" -> first = "MA" => C9 Scheme(1);
---
second = "B" -> second = "b" => C9 Scheme(1);
---
first = "A" -> first = "A"
control = "C" => C9 Scheme(1);
---
first = "A" -> first = "A"
members = ["A", "C"] => C9 Scheme(1);
---
data = "V", limit -> data = "W", limit => C9 Measure(1, 1);
---
data = ["V"] -> data = ["V", "W"] => C9 Acceleration(1);
---
to = "A" }, -> to = "AB" }, => C9 Exchange(1, 2);"#;

const ENDS: &str = r#"max-windows = 3 -> max-windows = 3
max-time = 25 => C10 Config;
---
max-windows = 3 ->  => C10 Config;
---
max-windows = 3 -> max-time = 10000000 => nothing
---
max-windows = 3 -> max-time = 10000001 => C10 Config;"#;

const MESHES_AND_DATA: &str =
    r#"provides = ["MB"] -> provides = ["MB", "MA"] => C11 MeshTable(1);C12 Receives(2, 1);
---
provides = ["MB"] -> provides = [] => C11 MeshTable(2);C12 Receives(1, 1);C13 Write(2, 1);C13 Read(2, 1);C15 Map(2, 1);C15 Watch(2, 1);
---
from = "B" }] -> from = "A" }] => C12 Receives(1, 1);
---
from = "B" }] -> from = "B" }, { mesh = "MB", from = "B" }] => C12 Receives(1, 2);
---
data = ["U", "V"] -> data = ["V"] => C13 Write(1, 1);C13 Exchange(1, 1);
---
[{ data = "V", mesh = "MA" }] -> [{ data = "V", mesh = "MB" }] => C13 Read(1, 1);
---
[{ data = "U", mesh = "MA" }] -> [{ data = "U", mesh = "MA" }, { data = "V", mesh = "MA" }] => C14 Write(2, 1);
---
[{ data = "U", mesh = "MA" }] -> [{ data = "U", mesh = "MA" }, { data = "U", mesh = "MA" }] => C14 Write(1, 2);"#;

const MAPPINGS_AND_WATCH_POINTS: &str =
    r#"from = "MB", to = "MA" -> from = "MA", to = "MB" => C15 Map(1, 1);C16 Exchange(1, 2);
---
direction = "read", from = "MB" -> direction = "write", from = "MB" => C15 Map(1, 1);C16 Exchange(1, 2);
---
dimensions = 2 -> dimensions = 3 => C15 Map(1, 1);C15 Map(2, 1);
---
map = [ -> map = [{ direction = "read", from = "MB", to = "MA", constraint = "conservative" },  => C15 Map(1, 2);
---
at = [0, 0] -> at = [0, 0, 0] => C15 Watch(2, 1);
---
mesh = "MB", at -> mesh = "MA", at => C15 Watch(2, 1);
---
mesh = "MB", from = "B", to -> mesh = "MA", from = "B", to => C16 Exchange(1, 2);
---
mesh = "MA", from = "A", to -> mesh = "MB", from = "A", to => C16 Exchange(1, 1);"#;

#[test]
fn every_place_of_every_broken_rule(rt: HostRuntime) -> Result<(), Fail> {
    let alloc = rt.alloc();
    try_changes(&rt, alloc, NAMES_OF_NOTHING)?;
    try_changes(&rt, alloc, ENDS)?;
    try_changes(&rt, alloc, MESHES_AND_DATA)?;
    try_changes(&rt, alloc, MAPPINGS_AND_WATCH_POINTS)
}

const WRITE_MAP: &str =
    r#"map = [{ direction = "write", from = "MA", to = "MB", constraint = "conservative" }, "#;

#[test]
fn a_write_mapping_serves_an_exchange(rt: HostRuntime) -> Result<(), Fail> {
    let alloc = rt.alloc();
    let mapped = changed(alloc, "map = [", WRITE_MAP)?;
    let from = "mesh = \"MA\", from = \"A\", to";
    let text = mapped
        .as_str()
        .replacen(alloc, from, "mesh = \"MB\", from = \"A\", to", 1)?;
    assert_eq!(rt; told(alloc, text.as_str())?.as_str(), "nothing");
    Ok(())
}
