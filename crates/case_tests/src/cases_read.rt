//! Case files that are accepted or refused: each is one of four with one change.
mod lengths;
mod rules;
mod whole;

use case_files::read_case;
use cpl_config::ConfigErr;
use cpl_rules::Refusal;
use cpl_tables::Place;
use fixed_num::Memory;
use std::alloc::Global;

const ROWS: &str = r#"solver = "rows"
step = 10
state = ["0", 1]

[[mesh]]
name = "MA"
points = [["0", "0"], ["1", "-0.5"]]

[[row]]
add = "1.5"
reads = [[0, "1"]]

[[row]]
states = [[0, "-0.5"], [1, 2]]
"#;

const ROD: &str = r#"solver = "rod"
step = 1000000000
fill = "20"
count = 60000
alpha = "0.001"
beta = 1000

[[mesh]]
name = "Wall"
line = { from = ["0", "0"], to = ["1", 2], count = 10000 }
"#;

const SPRING: &str = r#"solver = "spring"
step = 1
read = "start"
state = ["10000000", "-10000000"]
out = [1, 0, -3]
forbid = "0.000001"
stiff = "1000"
damp = "-1000"
gain = 3
rate = "0.25"
mesh = [
  { name = "M1", points = [[1000000, "-1000000"]] },
  { name = "M2" },
  { name = "M3", points = [], line = { from = [], to = ["1"], count = 1 } },
]
"#;

const RECORDED: &str = r#"solver = "recorded"
step = 10
state = ["0", 0]
mesh = []

[[record]]
dt = 5
writes = ["2"]

[[record]]
dt = 1000000000
writes = [-10000000]
"#;

/// The case files that are changed.
#[derive(Clone, Copy)]
enum Base {
    Rows,
    Rod,
    Spring,
    Recorded,
}

impl Base {
    fn text(self) -> &'static str {
        match self {
            Base::Rows => ROWS,
            Base::Rod => ROD,
            Base::Spring => SPRING,
            Base::Recorded => RECORDED,
        }
    }
}

/// The refusal of the second participant's case file, or None where it is accepted.
fn refusal_of(alloc: Global, bytes: &[u8]) -> Result<Option<Refusal>, Memory> {
    match read_case(alloc, 1, bytes) {
        Ok(_) => Ok(None),
        Err(ConfigErr::Refused(refusal)) => Ok(Some(refusal)),
        Err(ConfigErr::Memory) => Err(Memory),
    }
}

/// The refusal of a case file with one text in place of the first of another.
fn refusal_with(
    alloc: Global,
    base: Base,
    text: &str,
    to: &str,
) -> Result<Option<Refusal>, Memory> {
    let changed = base.text().replacen(alloc, text, to, 1)?;
    refusal_of(alloc, changed.as_bytes())
}

/// A refusal of the second participant's case file.
fn refused(rule: u8) -> Option<Refusal> {
    Some(Refusal {
        rule,
        place: Place::Case(2),
    })
}
