//! `check` over changed files: what it writes, and how it fails.
use super::{answers, base_files, change, changed_files, status_of};
use crate::status::Status;
use io_edge::MemSink;
use std::alloc::Global;
use std::test::Fail;

const ACCEPTED: &str = "accepted 2 participants 1 schemes\n";

/// Whether `check` refuses the base files by this rule at this place, with one text of one of them
/// in place of the first of another.
fn refuses(alloc: Global, file: &str, old: &str, new: &str, told: &str) -> Result<bool, Fail> {
    let mut files = changed_files(alloc, file, old, new)?;
    let line = format!(in alloc; "refused {told}\n")?;
    answers(
        alloc,
        "check ab.toml",
        &mut files,
        Status::Refused,
        line.as_str(),
    )
}

/// Every kind of place is printed, by a key that is not listed for its table.
#[test]
fn prints_places(rt: HostRuntime) -> Result<(), Fail> {
    let alloc = rt.alloc();
    let cases = [
        ("format = 1", "format = 1\nx = 1", "C3 at config"),
        ("name = \"V\"", "name = \"V\"\nx = 1", "C3 at data 2"),
        ("name = \"MA\"", "name = \"MA\"\nx = 1", "C3 at mesh 1"),
        (
            "case = \"b.toml\"",
            "case = \"b.toml\"\nx = 1",
            "C3 at participant 2",
        ),
        (
            "from = \"B\" }]",
            "from = \"B\", x = 1 }]",
            "C3 at participant 1 receives 1",
        ),
        (
            "mesh = \"MA\" }]\nread",
            "mesh = \"MA\", x = 1 }]\nread",
            "C3 at participant 1 write 1",
        ),
        (
            "mesh = \"MA\" }]\nmap",
            "mesh = \"MA\", x = 1 }]\nmap",
            "C3 at participant 1 read 1",
        ),
        (
            "\"consistent\" }]",
            "\"consistent\", x = 1 }]",
            "C3 at participant 1 map 1",
        ),
        (
            "case = \"b.toml\"",
            "case = \"b.toml\"\nwatch = [{ x = 1 }]",
            "C3 at participant 2 watch 1",
        ),
        ("first = \"A\"", "first = \"A\"\nx = 1", "C3 at scheme 1"),
        (
            "to = \"A\" }",
            "to = \"A\", x = 1 }",
            "C3 at scheme 1 exchange 2",
        ),
        (
            "first = \"A\"",
            "first = \"A\"\nmeasure = [{ x = 1 }]",
            "C3 at scheme 1 measure 1",
        ),
        (
            "first = \"A\"",
            "first = \"A\"\nacceleration = { x = 1 }",
            "C3 at scheme 1 acceleration",
        ),
    ];
    for (old, new, told) in cases {
        assert!(rt; refuses(alloc, "ab.toml", old, new, told)?, "{told}");
    }
    Ok(())
}

/// The first broken rule of one changed file is told.
#[test]
fn refuses_by_rule(rt: HostRuntime) -> Result<(), Fail> {
    let alloc = rt.alloc();
    let cases = [
        ("ab.toml", "window = 10", "window = 10.0", "C5 at config"),
        ("ab.toml", "window = 10", "window = 0", "C6 at config"),
        ("ab.toml", "window = 10", "colour = 1", "C3 at config"),
        (
            "ab.toml",
            "window = 10",
            "window = 10\nwindow-method = \"fixed\"",
            "C3 at config",
        ),
        ("ab.toml", "format = 1", "format = 3", "C6 at config"),
        (
            "ab.toml",
            "max-windows = 3",
            "max-windows = 3\nmax-time = 30",
            "C10 at config",
        ),
        (
            "ab.toml",
            "to = \"A\" }",
            "to = \"B\" }",
            "C18 at scheme 1 exchange 2",
        ),
        (
            "ab.toml",
            "serial-explicit",
            "serial-implicit",
            "C26 at scheme 1",
        ),
        ("ab.toml", "format = 1", "", "C4 at config"),
        ("ab.toml", "format = 1", "format = ", "C2 at config"),
        ("a.toml", "\"rows\"", "\"rods\"", "C5 at case A"),
        ("a.toml", "\"MA\"", "\"MX\"", "C31 at case A"),
        ("b.toml", "\"rows\"", "", "C2 at case B"),
        ("b.toml", "state = [\"0\"]", "state = []", "C7 at case B"),
    ];
    for (file, old, new, told) in cases {
        assert!(rt; refuses(alloc, file, old, new, told)?, "{told}");
    }
    Ok(())
}

/// Whether `check` tells this of the base files with this window and a change of each case file.
fn tells(
    alloc: Global,
    window: &str,
    first: (&str, &str),
    second: (&str, &str),
    status: Status,
    told: &str,
) -> Result<bool, Fail> {
    let mut files = changed_files(alloc, "ab.toml", "window = 10", window)?;
    change(alloc, "a.toml", first.0, first.1, &mut files)?;
    change(alloc, "b.toml", second.0, second.1, &mut files)?;
    answers(alloc, "check ab.toml", &mut files, status, told)
}

/// Of two broken rules the earlier one is told: those of all case files before those of a case with
/// its configuration, and rule 31 over all cases before rule 32.
#[test]
fn keeps_the_order(rt: HostRuntime) -> Result<(), Fail> {
    let alloc = rt.alloc();
    let long = ("step = 10", "step = 1");
    let misnamed = ("\"MA\"", "\"MX\"");
    let unknown = ("step = 10", "step = 10\nx = 1");
    let pointless = ("points = [[\"0\", \"0\"]]", "points = []");
    let refused = Status::Refused;
    let cases = [
        (
            "window = 10",
            misnamed,
            unknown,
            refused,
            "refused C3 at case B\n",
        ),
        (
            "window = 1025",
            long,
            pointless,
            refused,
            "refused C31 at case B\n",
        ),
        (
            "window = 1025",
            long,
            long,
            refused,
            "refused C32 at case A\n",
        ),
        ("window = 1024", long, long, Status::Ok, ACCEPTED),
    ];
    for (window, first, second, status, told) in cases {
        assert!(rt;
            tells(alloc, window, first, second, status, told)?,
            "at {told}"
        );
    }
    Ok(())
}

/// Whether `check` ends so where this load fails and a file holds this text.
fn loads(
    alloc: Global,
    load: u64,
    file: &str,
    text: &str,
    status: Status,
    told: &str,
) -> Result<bool, Fail> {
    let mut files = base_files(alloc)?;
    files.insert(file, text.as_bytes())?;
    files.fail_at(load)?;
    answers(alloc, "check ab.toml", &mut files, status, told)
}

/// All case files are loaded before one is read, and none for a refused configuration.
#[test]
fn loads_in_order(rt: HostRuntime) -> Result<(), Fail> {
    let alloc = rt.alloc();
    let never = u64::MAX;
    let unread = Status::ReadFault;
    let refused = Status::Refused;
    let cases = [
        (0, "ab.toml", "x = 1", unread, ""),
        (1, "ab.toml", "x = 1", refused, "refused C3 at config\n"),
        (1, "a.toml", "step = ten", unread, ""),
        (2, "a.toml", "step = ten", unread, ""),
        (
            never,
            "a.toml",
            "step = ten",
            refused,
            "refused C2 at case A\n",
        ),
        (never, "ab.toml", "", refused, "refused C4 at config\n"),
        (never, "c.toml", "step = ten", Status::Ok, ACCEPTED),
    ];
    for (load, file, text, status, told) in cases {
        assert!(rt;
            loads(alloc, load, file, text, status, told)?,
            "at {load} {file}"
        );
    }
    Ok(())
}

/// A file of a mebibyte is read, and one byte more is refused.
#[test]
fn refuses_long_files(rt: HostRuntime) -> Result<(), Fail> {
    let alloc = rt.alloc();
    let cases = [
        (1_048_576, "refused C4 at config\n"),
        (1_048_577, "refused C1 at config\n"),
    ];
    for (length, told) in cases {
        let mut files = base_files(alloc)?;
        files.insert("ab.toml", "#".repeat(alloc, length)?.as_bytes())?;
        assert!(rt;
            answers(alloc, "check ab.toml", &mut files, Status::Refused, told)?,
            "at {length}"
        );
    }
    Ok(())
}

/// A put that fails leaves a prefix of the line.
#[test]
fn fails_with_its_sink(rt: HostRuntime) -> Result<(), Fail> {
    let alloc = rt.alloc();
    let mut files = base_files(alloc)?;
    let mut out = MemSink::new(alloc, 100)?;
    out.most_per_put(8);
    out.fail_at(1)?;
    let status = status_of(alloc, "check ab.toml", &mut files, &mut out)?;
    assert!(rt; status == Status::WriteFault);
    assert!(rt; out.bytes() == "accepted".as_bytes());
    Ok(())
}
