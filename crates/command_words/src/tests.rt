use crate::{Asked, asked_in};
use std::alloc::Global;
use std::test::Fail;

/// The request that the words ask for, as text: the command, the name and the schedule.
fn told(alloc: Global, line: &[&str]) -> Result<String, Fail> {
    let mut words = Vec::new(alloc);
    for word in line {
        words.push(String::from_str(alloc, word)?)?;
    }
    let text = match asked_in(alloc, words.as_slice())? {
        Some(Asked::Solo { config, schedule }) => { format!(in alloc; "solo {config} {schedule}")? }
        Some(Asked::Check { config }) => format!(in alloc; "check {config}")?,
        None => String::from_str(alloc, "nothing")?,
    };
    Ok(text)
}

/// Words that ask for something, with what they ask for.
static ASKING: [(&[&str], &str); 14] = [
    (&["solo", "ab.toml"], "solo ab.toml 0"),
    (&["check", "ab.toml"], "check ab.toml"),
    (&["solo", "ab.toml", "--schedule", "7"], "solo ab.toml 7"),
    (&["solo", "--schedule", "7", "ab.toml"], "solo ab.toml 7"),
    (&["solo", "ab.toml", "--schedule=7"], "solo ab.toml 7"),
    (&["solo", "--schedule=7", "ab.toml"], "solo ab.toml 7"),
    (&["solo", "7", "--schedule", "0"], "solo 7 0"),
    (
        &["solo", "a", "--schedule=18446744073709551615"],
        "solo a 18446744073709551615",
    ),
    (
        &["solo", "a", "--schedule", "00000000000000000012"],
        "solo a 12",
    ),
    (&["solo", "a=b", "--schedule", "1"], "solo a=b 1"),
    (&["solo", "solo"], "solo solo 0"),
    (&["check", "help"], "check help"),
    (&["check", "a b"], "check a b"),
    (&["solo", "schedule"], "solo schedule 0"),
];

/// Words that ask for nothing.
static FAULTY: [&[&str]; 44] = [
    &[],
    &[""],
    &["solo"],
    &["check"],
    &["ab.toml"],
    &["run", "ab.toml"],
    &["mill", "7"],
    &["help"],
    &["help", "solo"],
    &["--help"],
    &["-h"],
    &["-V"],
    &["Solo", "ab.toml"],
    &["sol", "ab.toml"],
    &["", "ab.toml"],
    &["ab.toml", "solo"],
    &["solo", ""],
    &["check", ""],
    &["solo", "-"],
    &["check", "-"],
    &["solo", "--"],
    &["solo", "--", "ab.toml"],
    &["check", "ab.toml", "--"],
    &["solo", "-a"],
    &["solo", "--help"],
    &["check", "-h"],
    &["solo", "a", "b"],
    &["check", "a", "b"],
    &["check", "a", "--schedule", "7"],
    &["check", "a", "--schedule=7"],
    &["solo", "--schedule", "7"],
    &["solo", "--schedule=7"],
    &["solo", "a", "--schedule"],
    &["solo", "a", "--schedule="],
    &["solo", "a", "--schedule", ""],
    &["solo", "a", "--schedule", "-1"],
    &["solo", "a", "--schedule", "+1"],
    &["solo", "a", "--schedule", "1x"],
    &["solo", "a", "--schedule", "18446744073709551616"],
    &["solo", "a", "--schedule", "000000000000000000012"],
    &["solo", "a", "--schedule=1", "--schedule=1"],
    &["solo", "a", "--schedule", "1", "--schedule", "1"],
    &["solo", "a", "--schedul", "1"],
    &["solo", "a", "--schedule", "=1"],
];

#[test]
fn words_that_ask(rt: HostRuntime) -> Result<(), Fail> {
    for (line, wanted) in ASKING.as_slice() {
        let text = told(rt.alloc(), line)?;
        assert_eq!(rt; text.as_str(), *wanted);
    }
    Ok(())
}

#[test]
fn words_that_ask_for_nothing(rt: HostRuntime) -> Result<(), Fail> {
    for line in FAULTY.as_slice() {
        let text = told(rt.alloc(), line)?;
        assert_eq!(rt; text.as_str(), "nothing");
    }
    Ok(())
}
