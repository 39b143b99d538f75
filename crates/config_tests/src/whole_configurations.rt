//! Configurations that are accepted or refused: each is a small one with one or two changes.
mod lengths;
mod rules;
mod whole;

use cpl_config::{ConfigErr, read_config};
use cpl_tables::print_place;
use std::alloc::Global;
use std::test::Fail;

const BASE: &str = r#"format = 1
window = 10
max-windows = 3

[[data]]
name = "U"
kind = "scalar"

[[data]]
name = "V"
kind = "scalar"

[[mesh]]
name = "MA"
dimensions = 2
data = ["U", "V"]

[[mesh]]
name = "MB"
dimensions = 2
data = ["U", "V"]

[[participant]]
name = "A"
case = "a.toml"
provides = ["MA"]
receives = [{ mesh = "MB", from = "B" }]
write = [{ data = "U", mesh = "MA" }]
read = [{ data = "V", mesh = "MA" }]
map = [{ direction = "read", from = "MB", to = "MA", constraint = "consistent" }]

[[participant]]
name = "B"
case = "b.toml"
provides = ["MB"]
receives = [{ mesh = "MA", from = "A" }]
write = [{ data = "V", mesh = "MB" }]
read = [{ data = "U", mesh = "MB" }]
map = [{ direction = "read", from = "MA", to = "MB", constraint = "consistent" }]

[[scheme]]
kind = "serial-explicit"
first = "A"
second = "B"
exchange = [
  { data = "U", mesh = "MA", from = "A", to = "B" },
  { data = "V", mesh = "MB", from = "B", to = "A" },
]
"#;

/// What is told of a file: `accepted`, or the number of the broken rule and its place.
fn told(alloc: Global, bytes: &[u8]) -> Result<Vec<u8>, Fail> {
    let mut text = Vec::new(alloc);
    match read_config(alloc, bytes) {
        Ok(_) => text.extend_from_slice(b"accepted")?,
        Err(ConfigErr::Refused(refusal)) => {
            let number = format!(in alloc; "{} ", refusal.rule)?;
            text.extend_from_slice(number.as_bytes())?;
            print_place(alloc, refusal.place, "", &mut text)?;
        }
        Err(ConfigErr::Memory) => text.extend_from_slice(b"out of memory")?,
    }
    Ok(text)
}
