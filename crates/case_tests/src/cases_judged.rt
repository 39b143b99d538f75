//! The case files of two participants with one change, and the first rule that they break, where.
//!
//! The first writes three values at a vertex of its mesh and reads none; the second reads these
//! three, and writes none.
ghost use Rattle.std.specs.Prelude.{All, IfOk};
ghost use Rattle.cpl_config.specs.SoundConfig.{IsSoundConfig};
ghost use Rattle.case_files.specs.SoundCase.{IsSoundCaseFile};

use case_files::{CaseFile, read_case};
use case_rules::check_cases;
use config_rules::check_config;
use cpl_config::{Config, ConfigErr, read_config};
use cpl_rules::Refusal;
use cpl_tables::Place;
use std::alloc::Global;
use std::test::Fail;

const CONFIG: &str = r#"format = 1
window = 10240
max-windows = 3
data = [{ name = "U", kind = "scalar" }, { name = "W", kind = "vector" }]
mesh = [
  { name = "MA", dimensions = 2, data = ["U", "W"] },
  { name = "MB", dimensions = 2, data = ["U", "W"] },
  { name = "MC", dimensions = 3, data = [] },
]
[[participant]]
name = "A"
case = "a.toml"
provides = ["MA", "MC"]
write = [{ data = "U", mesh = "MA" }, { data = "W", mesh = "MA" }]
[[participant]]
name = "B"
case = "b.toml"
provides = ["MB"]
receives = [{ mesh = "MA", from = "A" }]
read = [{ data = "U", mesh = "MB" }, { data = "W", mesh = "MB" }]
map = [{ direction = "read", from = "MA", to = "MB", constraint = "consistent" }]
[[scheme]]
kind = "serial-explicit"
first = "A"
second = "B"
exchange = [
  { data = "U", mesh = "MA", from = "A", to = "B" },
  { data = "W", mesh = "MA", from = "A", to = "B" },
]
"#;

const FIRST_ROWS: &str = r#"solver = "rows"
step = 10
state = [1, 2, 3]
row = [{}, { states = [[1, 1]] }, {}]
mesh = [
  { name = "MA", points = [[0, 0]] },
  { name = "MC", line = { from = [0, 0, 0], to = [1, 0, 0], count = 2 } },
]
"#;

const FIRST_SPRING: &str = r#"solver = "spring"
step = 10
fill = 1
count = 4
mesh = [
  { name = "MA", points = [[0, 0]] },
  { name = "MC", points = [[0, 0, 0]] },
]
"#;

const FIRST_RECORDED: &str = r#"solver = "recorded"
step = 10
state = [0, 1, 2, 3]
record = [{ dt = 5, writes = [1, 2, 3] }, { dt = 5, writes = [4, 5, 6] }]
mesh = [
  { name = "MA", points = [[0, 0]] },
  { name = "MC", points = [[0, 0, 0]] },
]
"#;

const SECOND_ROWS: &str = r#"solver = "rows"
step = 10
state = [1]
row = [{ reads = [[0, 1], [2, 1]] }]
mesh = [{ name = "MB", points = [[0, 0]] }]
"#;

const SECOND_ROD: &str = r#"solver = "rod"
step = 10
fill = 1
count = 3
mesh = [{ name = "MB", points = [[0, 0]] }]
"#;

const SECOND_SPRING: &str = r#"solver = "spring"
step = 10
fill = 1
count = 6
mesh = [{ name = "MB", points = [[0, 0]] }]
"#;

/// The case files that are changed.
#[derive(Clone, Copy)]
enum Base {
    FirstRows,
    FirstSpring,
    FirstRecorded,
    SecondRows,
    SecondRod,
    SecondSpring,
}

impl Base {
    fn text(self) -> &'static str {
        match self {
            Base::FirstRows => FIRST_ROWS,
            Base::FirstSpring => FIRST_SPRING,
            Base::FirstRecorded => FIRST_RECORDED,
            Base::SecondRows => SECOND_ROWS,
            Base::SecondRod => SECOND_ROD,
            Base::SecondSpring => SECOND_SPRING,
        }
    }

    fn is_first(self) -> bool {
        match self {
            Base::FirstRows | Base::FirstSpring | Base::FirstRecorded => true,
            _ => false,
        }
    }
}

/// An accepted configuration.
fn config_of(alloc: Global, text: &str) -> Result<Config, Fail>
    ensures { IfOk result IsSoundConfig }
{
    let config = read_config(alloc, text.as_bytes())?;
    check_config(alloc, &config)?;
    Ok(config)
}

/// The two case files.
fn cases_of(alloc: Global, first: &str, second: &str) -> Result<Vec<CaseFile>, Fail>
    ensures { IfOk result (λ cases. All IsSoundCaseFile cases.items) }
{
    let a = read_case(alloc, 0, first.as_bytes())?;
    let b = read_case(alloc, 1, second.as_bytes())?;
    Ok(Vec::from_array(alloc, [a, b])?)
}

/// The refusal of two case files, or None where they are accepted.
fn refusal_of(
    alloc: Global,
    config: &str,
    first: &str,
    second: &str,
) -> Result<Option<Refusal>, Fail> {
    let config = config_of(alloc, config)?;
    let cases = cases_of(alloc, first, second)?;
    if cases.len() != config.participant.len() {
        return Ok(None);
    }
    match check_cases(alloc, &config, cases.as_slice()) {
        Ok(()) => Ok(None),
        Err(ConfigErr::Refused(refusal)) => Ok(Some(refusal)),
        Err(ConfigErr::Memory) => Ok(None),
    }
}

/// The refusal where one text of a case file stands in place of the first of another.
fn refusal_with(alloc: Global, base: Base, from: &str, to: &str) -> Result<Option<Refusal>, Fail> {
    let changed = base.text().replacen(alloc, from, to, 1)?;
    if base.is_first() {
        refusal_of(alloc, CONFIG, changed.as_str(), SECOND_ROD)
    } else {
        refusal_of(alloc, CONFIG, FIRST_ROWS, changed.as_str())
    }
}

/// That the case of this number is refused.
fn refused(rule: u8, case_number: u32) -> Option<Refusal> {
    Some(Refusal {
        rule,
        place: Place::Case(case_number),
    })
}

/// That a changed case is accepted, or refused by rule 31.
fn unless_suited(base: Base, suited: bool) -> Option<Refusal> {
    if suited {
        return None;
    }
    refused(31, if base.is_first() { 1 } else { 2 })
}

/// The second participant reads nothing where its mesh has no vertex, and its rod asks for nothing
/// then; with two vertices it reads six values, of which its rod has three.
#[test]
fn meshes(rt: HostRuntime) -> Result<(), Fail> {
    let alloc = rt.alloc();
    let cases = [
        (Base::FirstRows, "\"MC\"", "\"MX\"", false),
        (
            Base::SecondRod,
            "[{ name = \"MB\", points = [[0, 0]] }]",
            "[]",
            false,
        ),
        (Base::SecondRod, "points = [[0, 0]]", "points = []", false),
        (Base::SecondRod, ", points = [[0, 0]]", "", false),
        (
            Base::SecondRod,
            "]] }",
            "]], line = { from = [0, 0], to = [1, 0], count = 1 } }",
            false,
        ),
        (
            Base::SecondRod,
            "points = [[0, 0]]",
            "line = { from = [0, 0], to = [1, 0], count = 1 }",
            true,
        ),
        (
            Base::SecondRod,
            "points = [[0, 0]]",
            "line = { from = [0, 0], to = [1, 0], count = 2 }",
            false,
        ),
        (Base::SecondRod, "[[0, 0]]", "[[0, 0, 0]]", false),
        (Base::FirstRows, "to = [1, 0, 0]", "to = [1, 0]", false),
    ];
    for (base, from, to, suited) in cases {
        assert_eq!(rt;
            refusal_with(alloc, base, from, to)?,
            unless_suited(base, suited),
            "of {to}"
        );
    }
    Ok(())
}

/// The first participant writes three values.
#[test]
fn states_and_outputs(rt: HostRuntime) -> Result<(), Fail> {
    let alloc = rt.alloc();
    let cases = [
        (Base::SecondRod, "fill = 1\ncount = 3\n", "", false),
        (Base::SecondRod, "fill = 1\n", "", false),
        (
            Base::SecondRod,
            "fill = 1\ncount = 3",
            "state = [1, 2, 3]",
            true,
        ),
        (Base::SecondRod, "fill = 1", "state = [1, 2, 3]", false),
        (Base::FirstRows, "row =", "out = [2, 2, 0]\nrow =", true),
        (Base::FirstRows, "row =", "out = [0, 1, 2, 0]\nrow =", false),
        (Base::FirstRows, "row =", "out = [0, -1, 2]\nrow =", false),
        (Base::FirstRows, ", 3]\nrow = [{}, ", "]\nrow = [", false),
        (
            Base::FirstRows,
            ", 3]\nrow = [{}, ",
            ", 3, 4]\nrow = [{}, {}, ",
            true,
        ),
    ];
    for (base, from, to, suited) in cases {
        assert_eq!(rt;
            refusal_with(alloc, base, from, to)?,
            unless_suited(base, suited),
            "of {to}"
        );
    }
    Ok(())
}

/// Three values are read; a spring that reads none has any even length.
#[test]
fn kinds_of_solver(rt: HostRuntime) -> Result<(), Fail> {
    let alloc = rt.alloc();
    let cases = [
        (Base::FirstRows, "row = [{}, ", "row = [", false),
        (Base::FirstRows, "[[1, 1]]", "[[1, 1], [3, 1]]", false),
        (Base::SecondRows, "[2, 1]", "[3, 1]", false),
        (Base::SecondRows, "[2, 1]", "[-1, 1]", false),
        (Base::SecondRod, "count = 3", "count = 6", false),
        (Base::SecondSpring, "count = 6", "count = 6", true),
        (Base::SecondSpring, "count = 6", "count = 7", false),
        (Base::SecondSpring, "count = 6", "count = 3", false),
        (Base::FirstSpring, "count = 4", "count = 5", false),
    ];
    for (base, from, to, suited) in cases {
        assert_eq!(rt;
            refusal_with(alloc, base, from, to)?,
            unless_suited(base, suited),
            "of {to}"
        );
    }
    Ok(())
}

/// Two records of three written values; component 0 of the state counts those that are used.
#[test]
fn records(rt: HostRuntime) -> Result<(), Fail> {
    let alloc = rt.alloc();
    let cases = [
        ("[0, 1", "[2, 1", true),
        ("[0, 1", "[3, 1", false),
        ("[0, 1", "[-1, 1", false),
        ("[0, 1", "[\"0.5\", 1", false),
        ("[0, 1, 2", "[0, 1", false),
        ("[4, 5, 6]", "[4, 5]", false),
        ("state = [0, 1, 2, 3]", "fill = 1\ncount = 4", true),
    ];
    for (from, to, suited) in cases {
        assert_eq!(rt;
            refusal_with(alloc, Base::FirstRecorded, from, to)?,
            unless_suited(Base::FirstRecorded, suited),
            "of {to}"
        );
    }
    Ok(())
}

/// 1,024 steps of 10 ticks are allowed; one tick more in the window takes one step more, but for the
/// first participant where its step makes the window.
#[test]
fn steps_of_a_window(rt: HostRuntime) -> Result<(), Fail> {
    let alloc = rt.alloc();
    let cases = [
        ("1\nwindow = 10240", None),
        ("1\nwindow = 10231", None),
        ("1\nwindow = 10241", refused(32, 1)),
        (
            "2\nwindow-method = \"fixed\"\nwindow = 10241",
            refused(32, 1),
        ),
        (
            "2\nwindow-method = \"first-participant\"\nwindow = 10241",
            refused(32, 2),
        ),
    ];
    for (window, wanted) in cases {
        let config = CONFIG.replacen(alloc, "1\nwindow = 10240", window, 1)?;
        assert_eq!(rt;
            refusal_of(alloc, config.as_str(), FIRST_ROWS, SECOND_ROD)?,
            wanted,
            "of {window}"
        );
    }
    Ok(())
}

/// The first of two cases is told, and rule 31 of the second before rule 32 of the first.
#[test]
fn the_first_of_two_faults(rt: HostRuntime) -> Result<(), Fail> {
    let alloc = rt.alloc();
    let cases = [
        (
            "step = 10",
            "step = 9",
            "step = 10",
            "step = 9",
            refused(32, 1),
        ),
        (
            "step = 10",
            "step = 10",
            "step = 10",
            "step = 9",
            refused(32, 2),
        ),
        ("step = 10", "step = 9", "\"MB\"", "\"MX\"", refused(31, 2)),
        ("\"MA\"", "\"MX\"", "\"MB\"", "\"MX\"", refused(31, 1)),
    ];
    for (from_a, to_a, from_b, to_b, wanted) in cases {
        let first = FIRST_ROWS.replacen(alloc, from_a, to_a, 1)?;
        let second = SECOND_ROD.replacen(alloc, from_b, to_b, 1)?;
        assert_eq!(rt;
            refusal_of(alloc, CONFIG, first.as_str(), second.as_str())?,
            wanted,
            "of {to_a}"
        );
    }
    Ok(())
}
