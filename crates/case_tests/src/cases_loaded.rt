use accepted_case::{AcceptedCase, CaseErr, load_case};
use cpl_rules::Refusal;
use cpl_tables::Place;
use io_edge::MemFiles;
use std::alloc::Global;
use std::test::Fail;

const CONFIG: &str = r#"format = 1
window = 10
max-windows = 3
data = [{ name = "U", kind = "scalar" }, { name = "V", kind = "scalar" }]
mesh = [
  { name = "MA", dimensions = 2, data = ["U", "V"] },
  { name = "MB", dimensions = 2, data = ["U", "V"] },
]

[[participant]]
name = "A"
case = "a.toml"
provides = ["MA"]
receives = [{ mesh = "MB", from = "B" }]
write = [{ data = "U", mesh = "MA" }]
read = [{ data = "V", mesh = "MA" }]
map = [{ direction = "read", from = "MB", to = "MA", constraint = "consistent" }]

[[participant]]
name = "B"
case = "b.toml"
provides = ["MB"]
receives = [{ mesh = "MA", from = "A" }]
write = [{ data = "V", mesh = "MB" }]
read = [{ data = "U", mesh = "MB" }]
map = [{ direction = "read", from = "MA", to = "MB", constraint = "consistent" }]

[[scheme]]
kind = "parallel-explicit"
first = "A"
second = "B"
exchange = [
  { data = "U", mesh = "MA", from = "A", to = "B" },
  { data = "V", mesh = "MB", from = "B", to = "A" },
]
"#;

const FIRST: &str = r#"solver = "rod"
step = 5
fill = 2
count = 3
mesh = [{ name = "MA", line = { from = [0, 0], to = [1, 0], count = 3 } }]
"#;

const SECOND: &str = r#"solver = "rows"
step = 10
state = [4]
mesh = [{ name = "MB", points = [[0, 0]] }]
row = [{ reads = [[0, 1]] }]
"#;

fn files_with(alloc: Global, file: &str, text: &str) -> Result<MemFiles, Fail> {
    let mut files = MemFiles::new(alloc);
    files.insert("ab.toml", CONFIG.as_bytes())?;
    files.insert("a.toml", FIRST.as_bytes())?;
    files.insert("b.toml", SECOND.as_bytes())?;
    files.insert(file, text.as_bytes())?;
    Ok(files)
}

/// What the files are, from the configuration of this name on.
fn loaded(alloc: Global, files: &mut MemFiles, name: &str) -> Result<AcceptedCase, CaseErr> {
    load_case(alloc, files, name)
}

#[test]
fn an_accepted_case(rt: HostRuntime) -> Result<(), Fail> {
    let alloc = rt.alloc();
    let mut files = files_with(alloc, "other.toml", "")?;
    let AcceptedCase { config, cases } = loaded(alloc, &mut files, "ab.toml")?;
    assert_eq!(rt; config.participant.len(), 2);
    assert_eq!(rt; config.max_windows, Some(3));
    match cases.as_slice() {
        [first, second] => {
            assert_eq!(rt;
                (first.step, first.fill, first.count),
                (5, Some(2_000_000), Some(3))
            );
            assert_eq!(rt; (second.step, second.fill), (10, None));
            Ok(())
        }
        _ => Err("two case files are read".into()),
    }
}

/// Refusals come with the name of the participant whose case file it is, and with none for the
/// configuration.
#[test]
fn refused_cases(rt: HostRuntime) -> Result<(), Fail> {
    let alloc = rt.alloc();
    let cases = [
        ("ab.toml", "x = 1", 3, Place::Config, ""),
        ("a.toml", "x = 1", 3, Place::Case(1), "A"),
        ("b.toml", FIRST, 31, Place::Case(2), "B"),
    ];
    for (file, text, rule, place, name) in cases {
        let mut files = files_with(alloc, file, text)?;
        match loaded(alloc, &mut files, "ab.toml") {
            Err(CaseErr::Refused(refused)) => {
                assert!(rt; refused.refusal == Refusal { rule, place }, "at {file}");
                assert_eq!(rt; refused.name.as_str(), name);
            }
            _ => return Err("the files are refused".into()),
        }
    }
    Ok(())
}

#[test]
fn a_failing_load(rt: HostRuntime) -> Result<(), Fail> {
    let alloc = rt.alloc();
    let mut files = files_with(alloc, "other.toml", "")?;
    match loaded(alloc, &mut files, "none.toml") {
        Err(CaseErr::ReadFault) => Ok(()),
        _ => Err("no file has the name".into()),
    }
}
