//! Changes of the case files, one a line: the file, what is replaced, and by what. A tilde stands
//! for the end of a line, and `nothing` for no text.
use super::{Base, refusal_of, refusal_with, refused};
use case_files::read_case;
use cpl_config::ConfigErr;
use cpl_rules::Refusal;
use cpl_tables::Place;
use std::alloc::Global;
use std::test::Fail;

/// The file of this name.
fn base_of(name: &str) -> Base {
    match name {
        "Rows" => Base::Rows,
        "Rod" => Base::Rod,
        "Spring" => Base::Spring,
        _ => Base::Recorded,
    }
}

/// The refusal of a file with the change that a line tells.
fn refusal_by(alloc: Global, line: &str) -> Result<Option<Refusal>, Fail> {
    let (name, change) = line.split_once(": ").ok_or("a line names its file")?;
    let (text, to) = change.split_once(" => ").ok_or("a line has two texts")?;
    let text = text.replace(alloc, "~", "\n")?;
    let to = match to {
        "nothing" => "",
        _ => to,
    };
    let to = to.replace(alloc, "~", "\n")?;
    let refusal = refusal_with(alloc, base_of(name), text.as_str(), to.as_str())?;
    Ok(refusal)
}

/// The first line whose change is not answered so.
fn other_answer<'a>(
    alloc: Global,
    lines: &'a str,
    wanted: Option<Refusal>,
) -> Result<Option<&'a str>, Fail> {
    for line in lines.lines() {
        if refusal_by(alloc, line)? != wanted {
            return Ok(Some(line));
        }
    }
    Ok(None)
}

/// What breaks no rule.
const ACCEPTED: &str = r#"Rows: step => step
Rod: step => step
Spring: step => step
Rows: state = ["0", 1]~ => nothing
Rows: points = [["0", "0"], ["1", "-0.5"]]~ => nothing
Rows: add = "1.5"~reads = [[0, "1"]] => nothing
Rows: [[0, "-0.5"], [1, 2]] => [[-7, "-0.5"], [-7, 2]]
Rod: fill = "20"~ => state = [1]~
Rod: alpha = "0.001"~beta = 1000~ => nothing
Rod: step = 1000000000 => step = 1~read = "end"
Spring: out = [1, 0, -3] => out = []
Recorded: step => step
Recorded: writes = ["2"] => writes = []
Recorded: state = ["0", 0] => fill = 0~count = 2
Recorded: step = 10 => step = 10~forbid = 1~read = "start""#;

/// What is no text of TOML.
const NO_TOML: &str = r#"Rows: step = 10 => step = 
Rows: step = 10 => step = 10~step = 10
Rod: count = 60000 => count = 9223372036854775808
Spring: { name = "M2" }, => { name = "M2", name = "M2" },"#;

/// A key that is not listed.
const UNKNOWN: &str = r#"Rows: step = 10 => step = 10~colour = 1
Rows: step = 10 => step = 10~alpha = "1"
Rows: step = 10 => step = 10~rate = "1"
Rod: step = 1000000000 => step = 1~row = []
Rod: step = 1000000000 => step = 1~gain = 1
Spring: step = 1 => step = 1~row = [{}]
Spring: step = 1 => step = 1~beta = 0
Rows: name = "MA" => name = "MA"~dimensions = 2
Rod: count = 10000 } => count = 10000, points = [] }
Rows: add = "1.5" => add = "1.5"~alpha = 1
Spring: { name = "M2" } => { name = "M2", solver = 1 }
Rows: solver = "rows" => Solver = "rows"
Rows: solver = "rows" => colour = 1
Rod: solver = "rod" => solver = "beam"~colour = 1
Rows: step = 10 => step = 10~record = []
Recorded: step = 10 => step = 10~out = [0]
Recorded: step = 10 => step = 10~row = []
Recorded: step = 10 => step = 10~alpha = 0
Recorded: dt = 5 => dt = 5~add = 1"#;

/// A required key that is missing.
const MISSING: &str = r#"Rows: solver = "rows"~ => nothing
Rows: solver = "rows"~ => alpha = 1~rate = 1~
Rod: solver = "rod"~ => row = []~
Spring: solver = "spring"~ => nothing
Rows: step = 10~ => nothing
Rod: step = 1000000000~ => nothing
Spring: step = 1~ => nothing
Rows: name = "MA"~ => nothing
Spring: { name = "M2" } => {}
Rod: from = ["0", "0"],  => nothing
Rod: to = ["1", 2],  => nothing
Rod: , count = 10000 } =>  }
Recorded: dt = 5~ => nothing
Recorded: writes = ["2"]~ => nothing
Recorded: step = 10~ => nothing"#;

/// A value of another type.
const MISTYPED: &str = r#"Rows: solver = "rows" => solver = "beam"~alpha = 1
Rod: solver = "rod" => solver = "Rod"~row = []
Spring: solver = "spring" => solver = 1
Rows: step = 10 => step = "10"
Rows: step = 10 => step = 10.0
Spring: read = "start" => read = "begin"
Spring: read = "start" => read = 0
Rows: state = ["0", 1] => state = ["0", 1.0]
Rows: state = ["0", 1] => state = "0"
Rows: state = ["0", 1] => state = [["0"]]
Rod: fill = "20" => fill = 20.0
Rod: fill = "20" => fill = ["20"]
Rod: count = 60000 => count = "60000"
Spring: out = [1, 0, -3] => out = [1, "0"]
Spring: out = [1, 0, -3] => out = 1
Spring: forbid = "0.000001" => forbid = 0.000001
Rows: [[mesh]] => [mesh]
Spring: { name = "M2" } => "M2"
Rows: name = "MA" => name = 1
Rows: ["1", "-0.5"] => "1"
Rows: ["1", "-0.5"] => ["1", 0.5]
Rod: line = => points =
Rod: from = ["0", "0"] => from = "0"
Rod: count = 10000 => count = "10000"
Rows: add = "1.5" => add = 1.5
Rows: reads = [[0, "1"]] => reads = [[0]]
Rows: reads = [[0, "1"]] => reads = [[0, "1", 2]]
Rows: reads = [[0, "1"]] => reads = [["0", "1"]]
Rows: [1, 2] => [1, 2.0]
Rows: [1, 2] => 1
Rows: [1, 2] => []
Rod: alpha = "0.001" => alpha = 0.001
Rod: beta = 1000 => beta = true
Spring: stiff = "1000" => stiff = [1000]
Spring: damp = "-1000" => damp = -1e3
Spring: gain = 3 => gain = { }
Spring: rate = "0.25" => rate = 0.25
Recorded: "recorded" => "record"
Recorded: dt = 5 => dt = "5"
Recorded: writes = ["2"] => writes = "2"
Recorded: writes = ["2"] => writes = [2.0]
Recorded: writes = ["2"] => writes = [["2"]]"#;

/// A number or a name out of range.
const MISSPELLED: &str = r#"Rows: step = 10 => step = 0
Rod: step = 1000000000 => step = 1000000001
Spring: "10000000" => "10000000.000001"
Spring: "10000000" => 10000001
Spring: "10000000" => "ten"
Rod: fill = "20" => fill = "1e3"
Rod: count = 60000 => count = 60001
Rod: count = 60000 => count = 0
Spring: forbid = "0.000001" => forbid = 0
Spring: forbid = "0.000001" => forbid = "-1"
Spring: forbid = "0.000001" => forbid = "0.0000001"
Rows: name = "MA" => name = ""
Rows: name = "MA" => name = "M A"
Spring: 1000000, "-1000000" => 1000001, "0"
Spring: "-1000000" => "-1000000.000001"
Rod: to = ["1", 2] => to = ["1000000.5", 2]
Rod: count = 10000 => count = 10001
Rod: count = 10000 => count = 0
Rows: add = "1.5" => add = "10000000.5"
Rows: "-0.5"], [1, 2] => "-0.5"], [1, 1001]
Rows: [0, "1"] => [0, "-1000.000001"]
Rod: alpha = "0.001" => alpha = "-1000.1"
Rod: beta = 1000 => beta = 1001
Spring: stiff = "1000" => stiff = "1000.000001"
Spring: damp = "-1000" => damp = -1001
Spring: gain = 3 => gain = ""
Spring: rate = "0.25" => rate = "2000"
Recorded: dt = 5 => dt = 0
Recorded: dt = 1000000000 => dt = 1000000001
Recorded: [-10000000] => [-10000001]
Recorded: ["2"] => ["two"]"#;

/// A list that is empty or too long.
const LENGTHS: &str = r#"Rows: state = ["0", 1] => state = []
Rod: fill = "20" => state = []
Recorded: ["0", 0] => []"#;

/// A name twice.
const REPEATED: &str = r#"Spring: name = "M2" => name = "M1"
Spring: name = "M3" => name = "M1"
Rows: [[row]] => [[mesh]]~name = "MA"~[[row]]"#;

#[test]
fn each_change_is_answered(rt: HostRuntime) -> Result<(), Fail> {
    let alloc = rt.alloc();
    let changes = [
        (None, ACCEPTED),
        (refused(2), NO_TOML),
        (refused(3), UNKNOWN),
        (refused(4), MISSING),
        (refused(5), MISTYPED),
        (refused(6), MISSPELLED),
        (refused(7), LENGTHS),
        (refused(8), REPEATED),
    ];
    for (wanted, lines) in changes {
        let other = other_answer(alloc, lines, wanted)?.unwrap_or("none");
        assert_eq!(rt; other, "none");
    }
    Ok(())
}

#[test]
fn files_of_a_few_lines(rt: HostRuntime) -> Result<(), Fail> {
    let alloc = rt.alloc();
    let cases = [
        ("solver = \"rows\"\nstep = 1\nmesh = []\n", 4),
        ("solver = \"rows\"\nstep = 1\nrow = []\n", 4),
        ("solver = \"rod\"\nstep = 1\n", 4),
        ("solver = \"spring\"\nstep = 1\n", 4),
        ("solver = \"recorded\"\nstep = 1\nmesh = []\n", 4),
        ("", 4),
        ("solver = \"rows\"\nstep = 1\nmesh = []\nrow = {}\n", 5),
        (
            "solver = \"recorded\"\nstep = 1\nmesh = []\nrecord = [1]\n",
            5,
        ),
    ];
    for (text, rule) in cases {
        let refusal = refusal_of(alloc, text.as_bytes())?;
        assert_eq!(rt; refusal, refused(rule), "of {text}");
    }
    assert_eq!(rt; refusal_of(alloc, &[35, 255])?, refused(2));
    Ok(())
}

#[test]
fn the_place_is_the_participants(rt: HostRuntime) -> Result<(), Fail> {
    let alloc = rt.alloc();
    let first = read_case(alloc, 0, "step = 1".as_bytes());
    assert!(rt; is_refused(&first, 4, 1));
    let last = read_case(alloc, 63, "colour = 1".as_bytes());
    assert!(rt; is_refused(&last, 3, 64));
    Ok(())
}

/// Whether an answer refuses a file for this rule at the case of this number.
fn is_refused<T>(answer: &Result<T, ConfigErr>, rule: u8, number: u32) -> bool {
    let place = Place::Case(number);
    matches!(answer, Err(ConfigErr::Refused(found)) if *found == Refusal { rule, place })
}
