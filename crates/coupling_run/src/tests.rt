mod check;

ghost use Rattle.std.specs.Prelude.{◌<◌};

use crate::solo::coupling_solo;
use crate::status::Status;
use io_edge::{MemFiles, MemSink};
use std::alloc::Global;
use std::process::ExitCode;
use std::test::Fail;

pub(crate) const CONFIG: &str = r#"format = 1
window = 10
max-windows = 3

[[data]]
name = "U"
kind = "scalar"

[[data]]
name = "V"
kind = "scalar"

[[mesh]]
name = "MA"
dimensions = 2
data = ["U", "V"]

[[mesh]]
name = "MB"
dimensions = 2
data = ["U", "V"]

[[participant]]
name = "A"
case = "a.toml"
provides = ["MA"]
receives = [{ mesh = "MB", from = "B" }]
write = [{ data = "U", mesh = "MA" }]
read = [{ data = "V", mesh = "MA" }]
map = [{ direction = "read", from = "MB", to = "MA", constraint = "consistent" }]

[[participant]]
name = "B"
case = "b.toml"
provides = ["MB"]
receives = [{ mesh = "MA", from = "A" }]
write = [{ data = "V", mesh = "MB" }]
read = [{ data = "U", mesh = "MB" }]
map = [{ direction = "read", from = "MA", to = "MB", constraint = "consistent" }]

[[scheme]]
kind = "serial-explicit"
first = "A"
second = "B"
exchange = [
  { data = "U", mesh = "MA", from = "A", to = "B" },
  { data = "V", mesh = "MB", from = "B", to = "A" },
]
"#;

pub(crate) const FIRST: &str = r#"solver = "rows"
step = 10
state = ["0"]
[[mesh]]
name = "MA"
points = [["0", "0"]]
[[row]]
add = "1"
reads = [[0, "1"]]
"#;

pub(crate) const SECOND: &str = r#"solver = "rows"
step = 10
state = ["0"]
[[mesh]]
name = "MB"
points = [["0", "0"]]
[[row]]
reads = [[0, "0.5"]]
"#;

const REPORT: &str =
    "coupled 3 windows to 30\nparticipant A steps 3 state 1.75\nparticipant B steps 3 state 0.875\n";

const USAGE: &str =
    "usage: coupling run <config> [--workers N] | solo <config> [--schedule S] | check <config> | mill <number>\n";

/// The files of the base case.
fn base_files(alloc: Global) -> Result<MemFiles, Fail> {
    let mut files = MemFiles::new(alloc);
    files.insert("ab.toml", CONFIG.as_bytes())?;
    files.insert("a.toml", FIRST.as_bytes())?;
    files.insert("b.toml", SECOND.as_bytes())?;
    Ok(files)
}

/// Puts one text in place of the first of another in one of the base files.
fn change(
    alloc: Global,
    file: &str,
    old: &str,
    new: &str,
    files: &mut MemFiles,
) -> Result<(), Fail> {
    let text = match file {
        "a.toml" => FIRST,
        "b.toml" => SECOND,
        _ => CONFIG,
    };
    let text = text.replacen(alloc, old, new, 1)?;
    files.insert(file, text.as_bytes())?;
    Ok(())
}

/// The files of the base case with that change.
fn changed_files(alloc: Global, file: &str, old: &str, new: &str) -> Result<MemFiles, Fail> {
    let mut files = base_files(alloc)?;
    change(alloc, file, old, new, &mut files)?;
    Ok(files)
}

/// The status of these words, which a blank separates.
fn status_of(
    alloc: Global,
    line: &str,
    files: &mut MemFiles,
    out: &mut MemSink,
) -> Result<Status, Fail> {
    let mut words = Vec::new(alloc);
    for word in line.split_whitespace() {
        words.push(String::from_str(alloc, word)?)?;
    }
    Ok(coupling_solo(alloc, words.as_slice(), files, out))
}

/// Whether these words are answered with this status and text.
fn answers(
    alloc: Global,
    line: &str,
    files: &mut MemFiles,
    status: Status,
    text: &str,
) -> Result<bool, Fail> {
    let mut out = MemSink::new(alloc, 1000)?;
    let told = status_of(alloc, line, files, &mut out)?;
    Ok(told == status && out.bytes() == text.as_bytes())
}

#[test]
fn answers_the_words(rt: HostRuntime) -> Result<(), Fail> {
    let alloc = rt.alloc();
    let mut files = base_files(alloc)?;
    assert!(rt; answers(alloc, "solo ab.toml", &mut files, Status::Ok, REPORT)?);
    assert!(rt; answers(alloc, "solo none.toml", &mut files, Status::ReadFault, "")?);
    let refused = "refused C0 at config\n";
    assert!(rt; answers(alloc, "solo b.toml", &mut files, Status::Refused, refused)?);
    files.insert("ab.toml", "".as_bytes())?;
    assert!(rt; answers(alloc, "solo ab.toml", &mut files, Status::Refused, refused)?);
    Ok(())
}

#[test]
fn tells_how_it_is_used(rt: HostRuntime) -> Result<(), Fail> {
    let alloc = rt.alloc();
    let mut files = base_files(alloc)?;
    let lines = [
        "",
        "solo",
        "walk ab.toml",
        "solo -ab.toml",
        "check",
        "check -ab.toml",
        "ab.toml check",
        "solo ab.toml ab.toml",
    ];
    for line in lines {
        assert!(rt;
            answers(alloc, line, &mut files, Status::Usage, USAGE)?,
            "at {line}"
        );
    }
    Ok(())
}

/// A sum that is no Value is a fault of the run; all else that is changed is refused.
#[test]
fn answers_changed_files(rt: HostRuntime) -> Result<(), Fail> {
    let alloc = rt.alloc();
    let mut files = changed_files(alloc, "a.toml", "add = \"1\"", "add = \"10000000\"")?;
    let fault = "fault participant A window 2 iteration 1 step 1 code 1\n";
    assert!(rt; answers(alloc, "solo ab.toml", &mut files, Status::RunFault, fault)?);
    let cases = [
        (
            "a.toml",
            "\"1\"\n",
            "\"10000000.000001\"\n",
            "refused C0 at case A\n",
        ),
        ("a.toml", "step = 10", "step = 5", "refused C0 at case A\n"),
        ("b.toml", "0.5", "0.25", "refused C0 at case B\n"),
        ("ab.toml", "serial", "parallel", "refused C0 at config\n"),
        ("ab.toml", "format", "#", "refused C0 at config\n"),
        ("ab.toml", "format", "=", "refused C0 at config\n"),
    ];
    for (file, old, new, told) in cases {
        let mut files = changed_files(alloc, file, old, new)?;
        assert!(rt;
            answers(alloc, "solo ab.toml", &mut files, Status::Refused, told)?,
            "at {new}"
        );
    }
    Ok(())
}

/// Whether a run of the base case is answered so where this load, then this put fails, and a put
/// takes so many bytes.
fn fails_with(
    alloc: Global,
    load: u64,
    put: u64,
    most: usize,
    status: Status,
    text: &str,
) -> Result<bool, Fail>
    requires { 0 < most }
{
    let mut files = base_files(alloc)?;
    files.fail_at(load)?;
    let mut out = MemSink::new(alloc, 1000)?;
    out.fail_at(put)?;
    out.most_per_put(most);
    let told = status_of(alloc, "solo ab.toml", &mut files, &mut out)?;
    Ok(told == status && out.bytes() == text.as_bytes())
}

#[test]
fn fails_with_its_files_and_its_sink(rt: HostRuntime) -> Result<(), Fail> {
    let alloc = rt.alloc();
    let no_call = u64::MAX;
    assert!(rt; fails_with(alloc, 1, no_call, 1000, Status::ReadFault, "")?);
    assert!(rt; fails_with(alloc, no_call, 0, 1000, Status::WriteFault, "")?);
    assert!(rt; fails_with(alloc, no_call, 1, 7, Status::WriteFault, "coupled")?);
    assert!(rt; fails_with(alloc, no_call, no_call, 7, Status::Ok, REPORT)?);
    Ok(())
}

/// Each status ends the program with its number.
#[test]
fn ends_with_the_number_of_its_status(rt: HostRuntime) {
    let cases = [
        (Status::Ok, 0),
        (Status::Usage, 2),
        (Status::ReadFault, 3),
        (Status::Refused, 4),
        (Status::RunFault, 5),
        (Status::WriteFault, 6),
        (Status::Memory, 7),
    ];
    for (status, number) in cases {
        assert!(rt; status.exit_code() == ExitCode::from(number), "at {number}");
    }
}
