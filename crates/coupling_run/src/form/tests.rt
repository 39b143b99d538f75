use super::{accepted_first, accepted_windows, accepts_second};
use crate::tests::{CONFIG, FIRST, SECOND};
use std::alloc::Global;
use std::test::Fail;

/// Whether the configuration gives so many windows with one text in place of the first of another.
fn gives(alloc: Global, old: &str, new: &str, windows: Option<u32>) -> Result<bool, Fail> {
    let text = CONFIG.replacen(alloc, old, new, 1)?;
    Ok(accepted_windows(alloc, text.as_bytes())? == windows)
}

/// Whether the first case adds so many units with such a change.
fn adds(alloc: Global, old: &str, new: &str, units: Option<i64>) -> Result<bool, Fail> {
    let text = FIRST.replacen(alloc, old, new, 1)?;
    Ok(accepted_first(alloc, text.as_bytes())? == units)
}

/// Whether the second case is accepted with such a change.
fn is_known(alloc: Global, old: &str, new: &str) -> Result<bool, Fail> {
    let text = SECOND.replacen(alloc, old, new, 1)?;
    Ok(accepts_second(alloc, text.as_bytes())?)
}

#[test]
fn a_configuration_gives_its_windows(rt: HostRuntime) -> Result<(), Fail> {
    let alloc = rt.alloc();
    let cases = [
        ("format = 1", "format = 1", Some(3)),
        ("max-windows = 3", "max-windows = 1", Some(1)),
        (
            "max-windows = 3",
            "max-windows = 1_000_000",
            Some(1_000_000),
        ),
        ("max-windows = 3", "max-windows = 0", None),
        ("max-windows = 3", "max-windows = -3", None),
        ("max-windows = 3", "max-windows = 1000001", None),
        ("max-windows = 3", "max-windows = 4294967299", None),
        ("max-windows = 3", "max-windows = \"3\"", None),
        ("max-windows = 3", "", None),
        (
            "window = 10\nmax-windows = 3",
            "max-windows = 3 # few\nwindow = 10",
            Some(3),
        ),
        ("format = 1", "format = 1\ncolour = 1", None),
        ("format = 1", "format = ", None),
        ("format = 1", "format = 1.0", None),
        ("serial-explicit", "parallel-explicit", None),
        ("data = [\"U\", \"V\"]", "data = [\"U\"]", None),
        (
            "data = [\"U\", \"V\"]",
            "data = [\"U\", \"V\", \"W\"]",
            None,
        ),
    ];
    for (line, to, windows) in cases {
        assert!(rt; gives(alloc, line, to, windows)?, "with {to}");
    }
    for bytes in [
        b"".as_slice(),
        b"\xFF".as_slice(),
        b"max-windows = 3".as_slice(),
    ] {
        assert_eq!(rt; accepted_windows(alloc, bytes)?, None);
    }
    Ok(())
}

#[test]
fn the_first_case_gives_its_add(rt: HostRuntime) -> Result<(), Fail> {
    let alloc = rt.alloc();
    let cases = [
        ("add = \"1\"", "add = \"1\"", Some(1_000_000)),
        ("add = \"1\"", "add = \"-0.5\"", Some(-500_000)),
        ("add = \"1\"", "add = 2", Some(2_000_000)),
        ("add = \"1\"", "add = -10000000", Some(-10_000_000_000_000)),
        (
            "add = \"1\"",
            "add = \"10000000\"",
            Some(10_000_000_000_000),
        ),
        ("add = \"1\"", "add = \"10000000.000001\"", None),
        ("add = \"1\"", "add = 10000001", None),
        ("add = \"1\"", "add = -10000001", None),
        ("add = \"1\"", "add = 1.0", None),
        ("add = \"1\"", "add = \"one\"", None),
        ("add = \"1\"", "", None),
        ("step = 10", "step = 5", None),
        (
            "[[row]]",
            "[[row]]\nadd = \"1\"\nreads = [[0, \"1\"]]\n[[row]]",
            None,
        ),
        ("[[row]]", "[row]", None),
    ];
    for (line, to, units) in cases {
        assert!(rt; adds(alloc, line, to, units)?, "with {to}");
    }
    for text in ["", "step = ", SECOND] {
        assert_eq!(rt; accepted_first(alloc, text.as_bytes())?, None);
    }
    Ok(())
}

#[test]
fn the_second_case_is_known(rt: HostRuntime) -> Result<(), Fail> {
    let alloc = rt.alloc();
    let cases = [
        ("step = 10", "step = 10 # as A's", true),
        ("step = 10", "step = 5", false),
        ("[[row]]", "[[row]]\nadd = \"0\"", false),
        ("\"0.5\"", "0.5", false),
    ];
    for (line, to, accepted) in cases {
        assert!(rt; is_known(alloc, line, to)? == accepted, "with {to}");
    }
    for text in ["", "step = ", FIRST] {
        assert!(rt; !accepts_second(alloc, text.as_bytes())?);
    }
    Ok(())
}
