use super::told;
use std::alloc::{AllocError, Global};
use std::test::Fail;

/// Two participants, of which the second sends data to the first, all accelerated.
const WIDE: &str = r#"format = 1
window = 1
max-time = 1000000
data = [<declared>]
mesh = [
  { name = "M", dimensions = <dimensions>, data = [<names>] },
  { name = "N", dimensions = <dimensions>, data = [<names>] },
]
[[participant]]
name = "A"
case = "a.toml"
provides = ["N"]
receives = [{ mesh = "M", from = "B" }]
read = [<read>]
map = [{ direction = "read", from = "M", to = "N", constraint = "consistent" }]
[[participant]]
name = "B"
case = "b.toml"
provides = ["M"]
write = [<written>]
[[scheme]]
kind = "parallel-implicit"
first = "A"
second = "B"
max-iterations = 1
measure = [{ kind = "relative", data = "D0", limit = 0 }]
acceleration = { kind = "aitken", factor = 1, data = [<names>] }
exchange = [<sent>]
"#;

const DECLARED: &str = "{ name = \"D<n>\", kind = \"<kind>\" }, ";

const READ: &str = "{ data = \"D<n>\", mesh = \"N\" }, ";

const WRITTEN: &str = "{ data = \"D<n>\", mesh = \"M\" }, ";

const SENT: &str = "{ data = \"D<n>\", mesh = \"M\", from = \"B\", to = \"A\" }, ";

/// A text with so many items, numbered from 0, in place of a mark.
fn filled(
    alloc: Global,
    text: &str,
    mark: &str,
    item: &str,
    count: u32,
) -> Result<String, AllocError> {
    let mut items = String::new(alloc);
    for index in 0..count {
        let number = format!(in alloc; "{index}")?;
        items.push_str(item.replace(alloc, "<n>", number.as_str())?.as_str())?;
    }
    text.replace(alloc, mark, items.as_str())
}

/// The configuration with so many data.
fn with_data(alloc: Global, count: u32) -> Result<String, AllocError> {
    let text = filled(alloc, WIDE, "<declared>", DECLARED, count)?;
    let text = filled(alloc, text.as_str(), "<names>", "\"D<n>\", ", count)?;
    let text = filled(alloc, text.as_str(), "<read>", READ, count)?;
    let text = filled(alloc, text.as_str(), "<written>", WRITTEN, count)?;
    filled(alloc, text.as_str(), "<sent>", SENT, count)
}

/// The same with data of a kind, and meshes of so many dimensions.
fn wide(alloc: Global, kind: &str, dimensions: &str, count: u32) -> Result<String, AllocError> {
    let text = with_data(alloc, count)?;
    let text = text.as_str().replace(alloc, "<kind>", kind)?;
    text.as_str().replace(alloc, "<dimensions>", dimensions)
}

#[test]
fn twenty_components(rt: HostRuntime) -> Result<(), Fail> {
    let alloc = rt.alloc();
    let cases = [
        ("scalar", "2", 20, "accepted"),
        ("scalar", "3", 21, "C30 Acceleration(1)"),
        ("vector", "2", 10, "accepted"),
        ("vector", "2", 11, "C30 Acceleration(1)"),
        ("vector", "3", 6, "accepted"),
        ("vector", "3", 7, "C30 Acceleration(1)"),
    ];
    for (kind, dimensions, count, wanted) in cases {
        let text = wide(alloc, kind, dimensions, count)?;
        assert_eq!(rt;
            told(alloc, text.as_str())?.as_str(),
            wanted,
            "of {count} {kind}"
        );
    }
    Ok(())
}

const FIRST_PARTICIPANT: &str =
    "format = 2\nwindow-method = \"first-participant\"\nmax-windows = 5\n";

/// Windows that the scheme's kind cannot have are told after too many components, at whatever place.
#[test]
fn components_before_windows(rt: HostRuntime) -> Result<(), Fail> {
    let alloc = rt.alloc();
    for (count, wanted) in [(20, "C33 Scheme(1)"), (21, "C30 Acceleration(1)")] {
        let text = wide(alloc, "scalar", "2", count)?;
        let text = text
            .as_str()
            .replacen(alloc, "format = 1\n", FIRST_PARTICIPANT, 1)?;
        assert_eq!(rt; told(alloc, text.as_str())?.as_str(), wanted, "of {count}");
    }
    Ok(())
}
