use super::told;
use std::alloc::{AllocError, Global};
use std::test::Fail;

/// The first participant of a chain.
const FIRST: &str = r#"format = 1
window = 10
max-windows = 1000000
[[data]]
name = "D0"
kind = "scalar"
[[mesh]]
name = "M0"
dimensions = 2
data = ["D0"]
[[participant]]
name = "P0"
case = "p.toml"
provides = ["M0"]
write = [{ data = "D0", mesh = "M0" }]
"#;

/// The participant of number n, which reads what m writes, the one before it; and what their
/// scheme exchanges.
const NEXT: &str = r#"[[data]]
name = "D<n>"
kind = "scalar"
[[mesh]]
name = "M<n>"
dimensions = 2
data = ["D<n>", "D<m>"]
[[participant]]
name = "P<n>"
case = "p.toml"
provides = ["M<n>"]
receives = [{ mesh = "M<m>", from = "P<m>" }]
write = [{ data = "D<n>", mesh = "M<n>" }]
read = [{ data = "D<m>", mesh = "M<n>" }]
map = [{ direction = "read", from = "M<m>", to = "M<n>", constraint = "consistent" }]
[[scheme]]
exchange = [{ data = "D<m>", mesh = "M<m>", from = "P<m>", to = "P<n>" }]
"#;

const TWO: &str = "first = \"P<m>\"\nsecond = \"P<n>\"\n";

const MULTI: &str = "kind = \"multi\"\ncontrol = \"P<n>\"\nmembers = [\"P<m>\", \"P<n>\"]\n";

const REPEATED: &str =
    "max-iterations = 3\nmeasure = [{ kind = \"absolute\", data = \"D<m>\", limit = 1 }]\n";

const CLOSING: &str = "[[scheme]]\nkind = \"serial-explicit\"\nfirst = \"P63\"\nsecond = \"P0\"\n";

/// A text with the number of a participant in it, and that of the one before.
fn numbered(alloc: Global, text: &str, number: u32) -> Result<String, AllocError> {
    let own = format!(in alloc; "{number}")?;
    let less = number.saturating_sub(1);
    let before = format!(in alloc; "{less}")?;
    let text = text.replace(alloc, "<n>", own.as_str())?;
    text.as_str().replace(alloc, "<m>", before.as_str())
}

/// As many participants as there may be, one after the other.
#[test]
fn a_long_chain(rt: HostRuntime) -> Result<(), Fail> {
    let alloc = rt.alloc();
    let mut text = String::from_str(alloc, FIRST)?;
    for number in 1..64 {
        text.push_str(numbered(alloc, NEXT, number)?.as_str())?;
        text.push_str("kind = \"serial-explicit\"\n")?;
        text.push_str(numbered(alloc, TWO, number)?.as_str())?;
    }
    assert_eq!(rt; told(alloc, text.as_str())?.as_str(), "accepted");
    text.push_str(CLOSING)?;
    assert_eq!(rt; told(alloc, text.as_str())?.as_str(), "C24 Scheme(64)");
    Ok(())
}

/// A scheme of each kind, one after the other.
#[test]
fn a_chain_of_all_kinds(rt: HostRuntime) -> Result<(), Fail> {
    let alloc = rt.alloc();
    let cases = [
        (1, "kind = \"serial-explicit\"\n", TWO, ""),
        (2, "kind = \"serial-implicit\"\n", TWO, REPEATED),
        (3, "kind = \"parallel-explicit\"\n", TWO, ""),
        (4, "kind = \"parallel-implicit\"\n", TWO, REPEATED),
        (5, "kind = \"serial-explicit\"\n", TWO, ""),
        (6, "", MULTI, REPEATED),
    ];
    let mut text = String::from_str(alloc, FIRST)?;
    for (number, kind, members, measures) in cases {
        text.push_str(numbered(alloc, NEXT, number)?.as_str())?;
        text.push_str(kind)?;
        text.push_str(numbered(alloc, members, number)?.as_str())?;
        text.push_str(numbered(alloc, measures, number)?.as_str())?;
    }
    assert_eq!(rt; told(alloc, text.as_str())?.as_str(), "accepted");
    Ok(())
}
