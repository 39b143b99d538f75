use super::{refusal_of, refused};
use std::alloc::{AllocError, Global};
use std::test::Fail;

/// One text, then an item so many times, then another text.
fn text_with(
    alloc: Global,
    before: &str,
    item: &str,
    count: u32,
    after: &str,
) -> Result<String, AllocError> {
    let mut text = String::from_str(alloc, before)?;
    for _ in 0..count {
        text.push_str(item)?;
    }
    text.push_str(after)?;
    Ok(text)
}

#[test]
fn lists(rt: HostRuntime) -> Result<(), Fail> {
    let alloc = rt.alloc();
    let state = "solver = \"rod\"\nstep = 1\nmesh = []\nstate = [";
    let points = "solver = \"rod\"\nstep = 1\nmesh = [{ name = \"M\", points = [";
    let states = "solver = \"rows\"\nstep = 1\nmesh = []\nrow = [{ states = [";
    let reads = "solver = \"rows\"\nstep = 1\nmesh = []\nrow = [{}, { reads = [";
    let out = "solver = \"rod\"\nstep = 1\nmesh = []\nout = [";
    let cases = [
        (state, "0,", 60_000, "]\n", None),
        (state, "0,", 60_001, "]\n", refused(7)),
        (points, "[],", 10_000, "] }]\n", None),
        (points, "[],", 10_001, "] }]\n", refused(7)),
        (states, "[0, 1],", 64, "] }]\n", None),
        (states, "[0, 1],", 65, "] }]\n", refused(7)),
        (reads, "[0, 1],", 64, "] }]\n", None),
        (reads, "[0, 1],", 65, "] }]\n", refused(7)),
        (out, "0,", 60_001, "]\n", None),
    ];
    for (before, item, count, after, wanted) in cases {
        let text = text_with(alloc, before, item, count, after)?;
        assert_eq!(rt; refusal_of(alloc, text.as_bytes())?, wanted, "of {count}");
    }
    Ok(())
}

#[test]
fn records(rt: HostRuntime) -> Result<(), Fail> {
    let alloc = rt.alloc();
    let before = "solver = \"recorded\"\nstep = 1\nmesh = []\nrecord = [";
    let cases = [(10_000, None), (10_001, refused(7))];
    for (count, wanted) in cases {
        let text = text_with(alloc, before, "{dt=1,writes=[]},", count, "]\n")?;
        assert_eq!(rt; refusal_of(alloc, text.as_bytes())?, wanted, "of {count}");
    }
    Ok(())
}

/// The size limit, less what stands before the comment and its last line end.
const FILL: u32 = 1_048_576 - 38;

#[test]
fn the_whole_file(rt: HostRuntime) -> Result<(), Fail> {
    let alloc = rt.alloc();
    let before = "solver = \"rod\"\nstep = 10\nmesh = []\n# ";
    let cases = [(FILL, None), (FILL + 1, refused(1))];
    for (count, wanted) in cases {
        let text = text_with(alloc, before, "x", count, "\n")?;
        assert_eq!(rt; refusal_of(alloc, text.as_bytes())?, wanted, "of {count}");
    }
    Ok(())
}
