//! Configurations with one change or a few, and the first rule that each breaks, where.
mod accepted;
mod actions;
mod heat;
mod meshes;
mod order;
mod repeated;
mod schemes;
mod wide;
mod windows;

use config_rules::check_config;
use cpl_config::{ConfigErr, read_config};
use std::alloc::{AllocError, Global};
use std::process::Abort;
use std::test::Fail;

/// Two participants that read what the other writes. W is written by nobody.
const PARTICIPANTS: &str = r#"format = 1
window = 10
max-windows = 3

[[data]]
name = "U"
kind = "scalar"

[[data]]
name = "V"
kind = "scalar"

[[data]]
name = "W"
kind = "scalar"

[[mesh]]
name = "MA"
dimensions = 2
data = ["U", "V"]

[[mesh]]
name = "MB"
dimensions = 2
data = ["U", "V"]

[[participant]]
name = "A"
case = "a.toml"
provides = ["MA"]
receives = [{ mesh = "MB", from = "B" }]
write = [{ data = "U", mesh = "MA" }]
read = [{ data = "V", mesh = "MA" }]
map = [{ direction = "read", from = "MB", to = "MA", constraint = "consistent" }]

[[participant]]
name = "B"
case = "b.toml"
provides = ["MB"]
receives = [{ mesh = "MA", from = "A" }]
write = [{ data = "V", mesh = "MB" }]
read = [{ data = "U", mesh = "MB" }]
map = [{ direction = "read", from = "MA", to = "MB", constraint = "consistent" }]
watch = [{ name = "P", mesh = "MB", at = [0, 0] }]
"#;

const EXPLICIT: &str = r#"
[[scheme]]
kind = "serial-explicit"
first = "A"
second = "B"
"#;

const IMPLICIT: &str = r#"
[[scheme]]
kind = "serial-implicit"
first = "A"
second = "B"
max-iterations = 5
measure = [{ kind = "absolute", data = "V", limit = "0.1" }]
acceleration = { kind = "constant", factor = "0.5", data = ["V"] }
"#;

const MULTI: &str = r#"
[[scheme]]
kind = "multi"
control = "A"
members = ["A", "B"]
max-iterations = 5
measure = [{ kind = "absolute", data = "V", limit = "0.1" }]
acceleration = { kind = "constant", factor = "0.5", data = ["V"] }
"#;

const EXCHANGES: &str = r#"exchange = [
  { data = "U", mesh = "MA", from = "A", to = "B" },
  { data = "V", mesh = "MB", from = "B", to = "A" },
]
"#;

/// A third participant, which reads U of the first.
const THIRD: &str = r#"
[[mesh]]
name = "MC"
dimensions = 2
data = ["U"]

[[participant]]
name = "C"
case = "c.toml"
provides = ["MC"]
receives = [{ mesh = "MA", from = "A" }]
read = [{ data = "U", mesh = "MC" }]
map = [{ direction = "read", from = "MA", to = "MC", constraint = "consistent" }]

[[scheme]]
kind = "serial-explicit"
first = "A"
second = "C"
exchange = [{ data = "U", mesh = "MA", from = "A", to = "C" }]
"#;

/// The configurations that are changed: two participants in a scheme of some kind, or a third one
/// beside two in a serial scheme.
#[derive(Clone, Copy)]
enum Base {
    Explicit,
    Implicit,
    Multi,
    ExplicitThree,
    ImplicitThree,
}

impl Base {
    fn scheme(self) -> &'static str {
        match self {
            Base::Explicit | Base::ExplicitThree => EXPLICIT,
            Base::Implicit | Base::ImplicitThree => IMPLICIT,
            Base::Multi => MULTI,
        }
    }

    fn third(self) -> &'static str {
        match self {
            Base::ExplicitThree | Base::ImplicitThree => THIRD,
            _ => "",
        }
    }

    /// Its text.
    fn text(self, alloc: Global) -> Result<String, AllocError> {
        let mut text = String::from_str(alloc, PARTICIPANTS)?;
        text.push_str(self.scheme())?;
        text.push_str(EXCHANGES)?;
        text.push_str(self.third())?;
        Ok(text)
    }
}

fn read_and_check(alloc: Global, text: &str) -> Result<(), ConfigErr> {
    let config = read_config(alloc, text.as_bytes())?;
    check_config(alloc, &config)
}

/// What is told of a configuration: its first broken rule and place, or that it is accepted.
fn told(alloc: Global, text: &str) -> Result<String, Fail> {
    match read_and_check(alloc, text) {
        Ok(()) => Ok(String::from_str(alloc, "accepted")?),
        Err(ConfigErr::Refused(refusal)) => {
            let rule = refusal.rule;
            let place = refusal.place;
            Ok(format!(in alloc; "C{rule} {place:?}")?)
        }
        Err(ConfigErr::Memory) => Ok(String::from_str(alloc, "memory")?),
    }
}

/// Tries the changes of a table, `text -> text in its place => what is told`, with lines of dashes
/// between them, each in place of the first such text of a configuration.
fn try_changes(rt: &impl Abort, alloc: Global, base: &str, changes: &str) -> Result<(), Fail> {
    for change in changes.split("\n---\n") {
        let (from, rest) = change
            .split_once(" -> ")
            .ok_or("a change without an arrow")?;
        let (to, wanted) = rest.split_once(" => ").ok_or("a change without an answer")?;
        let changed = base.replacen(alloc, from, to, 1)?;
        assert_eq!(rt; told(alloc, changed.as_str())?.as_str(), wanted, "of {to}");
    }
    Ok(())
}

/// Tries the changes of one of these.
fn try_base(rt: &impl Abort, alloc: Global, base: Base, changes: &str) -> Result<(), Fail> {
    let text = base.text(alloc)?;
    try_changes(rt, alloc, text.as_str(), changes)
}
