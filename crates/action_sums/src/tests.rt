//! The sum of an action over entries of different lengths, by hand.
ghost use Rattle.std.specs.Prelude.{IfOk};
ghost use Rattle.cpl_config.specs.SoundConfig.{IsSoundConfig};
ghost use Rattle.case_files.specs.SoundCase.{IsSoundCaseFile};

use crate::{sums_of, written_lengths};
use case_files::{CaseFile, read_case};
use cpl_config::{Config, PartTable, read_config};
use std::alloc::Global;
use std::process::Abort;
use std::test::Fail;

/// Vectors U, R and S on a mesh of two dimensions, and between them a scalar P on another one.
const CONFIG: &str = r#"format = 2
window = 10
max-windows = 1
data = [
  { name = "U", kind = "vector" },
  { name = "P", kind = "scalar" },
  { name = "R", kind = "vector" },
  { name = "S", kind = "vector" },
]
mesh = [
  { name = "M", dimensions = 2, data = ["U", "R", "S"] },
  { name = "N", dimensions = 3, data = ["P"] },
]
[[participant]]
name = "A"
case = "a.toml"
provides = ["M", "N"]
write = [
  { data = "U", mesh = "M" },
  { data = "P", mesh = "N" },
  { data = "R", mesh = "M" },
  { data = "S", mesh = "M" },
]
action = [{ kind = "summation", mesh = "M", sources = ["U", "R"], target = "S" }]
[[scheme]]
kind = "parallel-explicit"
first = "A"
second = "B"
exchange = [{ data = "S", mesh = "M", from = "A", to = "B" }]
"#;

/// Three vertices on the one mesh, one on the other.
const CASE: &str = r#"solver = "rows"
step = 10
state = [0]
row = [{}]
mesh = [
  { name = "M", line = { from = [0, 0], to = [1, 0], count = 3 } },
  { name = "N", points = [[0, 0, 0]] },
]
"#;

fn config_of(alloc: Global) -> Result<Config, Fail>
    ensures { IfOk result IsSoundConfig }
{
    Ok(read_config(alloc, CONFIG.as_bytes())?)
}

fn case_of(alloc: Global) -> Result<CaseFile, Fail>
    ensures { IfOk result IsSoundCaseFile }
{
    Ok(read_case(alloc, 0, CASE.as_bytes())?)
}

/// The lengths are 6, 1, 6 and 6.
fn sums_from_seven(
    rt: &impl Abort,
    alloc: Global,
    part: &PartTable,
    lengths: &[u32],
) -> Result<(), Fail> {
    assert!(rt; lengths == [6, 1, 6, 6].as_slice() && lengths.len() == part.write.len());
    let sums = sums_of(alloc, part, lengths)?;
    match sums.as_slice() {
        [sum] => {
            assert!(rt; sum.target == 13 && sum.length == 6);
            assert!(rt; sum.sources.as_slice() == [0, 7].as_slice());
            Ok(())
        }
        _ => Err("there is one action".into()),
    }
}

#[test]
fn sums_over_entries_of_different_lengths(rt: HostRuntime) -> Result<(), Fail> {
    let alloc = rt.alloc();
    let config = config_of(alloc)?;
    let case_file = case_of(alloc)?;
    match config.participant.as_slice() {
        [part] => {
            let lengths = written_lengths(alloc, &config, part, &case_file)?;
            sums_from_seven(&rt, alloc, part, lengths.as_slice())
        }
        _ => Err("there is one participant".into()),
    }
}
