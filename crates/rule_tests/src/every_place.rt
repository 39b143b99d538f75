//! Configurations with a few changes, and which rules each breaks, where.
mod order;
mod rules;

use cpl_config::{Config, read_config};
use mesh_rules::entries::{EntrySpot, entries};
use mesh_rules::{
    At, has_no_end, has_no_provider, is_off_mesh, is_unmapped, is_written_twice, is_wrongly_mapped,
    is_wrongly_received, names_nothing,
};
use std::alloc::{AllocError, Global};
use std::process::Abort;
use std::test::Fail;

const BASE: &str = r#"format = 1
window = 10
max-windows = 3

[[data]]
name = "U"
kind = "scalar"

[[data]]
name = "V"
kind = "scalar"

[[mesh]]
name = "MA"
dimensions = 2
data = ["U", "V"]

[[mesh]]
name = "MB"
dimensions = 2
data = ["U", "V"]

[[participant]]
name = "A"
case = "a.toml"
provides = ["MA"]
receives = [{ mesh = "MB", from = "B" }]
write = [{ data = "U", mesh = "MA" }]
read = [{ data = "V", mesh = "MA" }]
map = [{ direction = "read", from = "MB", to = "MA", constraint = "consistent" }]

[[participant]]
name = "B"
case = "b.toml"
provides = ["MB"]
receives = [{ mesh = "MA", from = "A" }]
write = [{ data = "V", mesh = "MB" }]
read = [{ data = "U", mesh = "MB" }]
map = [{ direction = "read", from = "MA", to = "MB", constraint = "consistent" }]
watch = [{ name = "P", mesh = "MB", at = [0, 0] }]

[[scheme]]
kind = "serial-implicit"
first = "A"
second = "B"
max-iterations = 5
measure = [{ kind = "absolute", data = "V", limit = "0.1" }]
acceleration = { kind = "constant", factor = "0.5", data = ["V"] }
exchange = [
  { data = "U", mesh = "MA", from = "A", to = "B" },
  { data = "V", mesh = "MB", from = "B", to = "A" },
]
"#;

/// The base configuration with one text in place of the first of another.
fn changed(alloc: Global, from: &str, to: &str) -> Result<String, AllocError> {
    BASE.replacen(alloc, from, to, 1)
}

/// Whether an entry breaks the rule of this number.
fn breaks(rule: u8, config: &Config, before: &[EntrySpot], held: At) -> bool {
    match rule {
        9 => names_nothing(config, held),
        10 => has_no_end(config, held),
        11 => has_no_provider(config, held),
        12 => is_wrongly_received(config, held),
        13 => is_off_mesh(config, held),
        14 => is_written_twice(before, held),
        15 => is_wrongly_mapped(config, held),
        _ => is_unmapped(config, held),
    }
}

/// The places at which a rule is broken.
fn broken(
    alloc: Global,
    rule: u8,
    config: &Config,
    spots: &[EntrySpot],
) -> Result<String, AllocError> {
    let mut text = String::new(alloc);
    for (index, spot) in spots.iter().enumerate() {
        if breaks(rule, config, &spots[..index], spot.at) {
            let place = spot.place;
            text.push_str(format!(in alloc; "C{rule} {place:?};")?.as_str())?;
        }
    }
    Ok(text)
}

/// The rules that a configuration breaks, each with all its places, or that it breaks none.
fn told(alloc: Global, text: &str) -> Result<String, Fail> {
    let config = read_config(alloc, text.as_bytes())?;
    let spots = entries(alloc, &config)?;
    let mut told = String::new(alloc);
    for rule in 9..17 {
        told.push_str(broken(alloc, rule, &config, &spots)?.as_str())?;
    }
    if told.as_str().is_empty() {
        told.push_str("nothing")?;
    }
    Ok(told)
}

/// Tries the changes of a table, `text -> text in its place => what is told`, with lines of dashes
/// between them.
fn try_changes(rt: &impl Abort, alloc: Global, changes: &str) -> Result<(), Fail> {
    for change in changes.split("\n---\n") {
        let (from, rest) = change
            .split_once(" -> ")
            .ok_or("a change without an arrow")?;
        let (to, wanted) = rest.split_once(" => ").ok_or("a change without an answer")?;
        let text = changed(alloc, from, to)?;
        assert_eq!(rt; told(alloc, text.as_str())?.as_str(), wanted, "of {to}");
    }
    Ok(())
}
