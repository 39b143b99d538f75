//! The texts that the accepted files have the trees of, less what may differ.

/// The case file of participant A, as the configuration names it.
pub const FIRST_NAME: &str = "a.toml";

/// The case file of participant B.
pub const SECOND_NAME: &str = "b.toml";

/// The configuration, less its `max-windows`.
pub const CONFIGURATION: &str = r#"format = 1
window = 10

[[data]]
name = "U"
kind = "scalar"

[[data]]
name = "V"
kind = "scalar"

[[mesh]]
name = "MA"
dimensions = 2
data = ["U", "V"]

[[mesh]]
name = "MB"
dimensions = 2
data = ["U", "V"]

[[participant]]
name = "A"
case = "a.toml"
provides = ["MA"]
receives = [{ mesh = "MB", from = "B" }]
write = [{ data = "U", mesh = "MA" }]
read = [{ data = "V", mesh = "MA" }]
map = [{ direction = "read", from = "MB", to = "MA", constraint = "consistent" }]

[[participant]]
name = "B"
case = "b.toml"
provides = ["MB"]
receives = [{ mesh = "MA", from = "A" }]
write = [{ data = "V", mesh = "MB" }]
read = [{ data = "U", mesh = "MB" }]
map = [{ direction = "read", from = "MA", to = "MB", constraint = "consistent" }]

[[scheme]]
kind = "serial-explicit"
first = "A"
second = "B"
exchange = [
  { data = "U", mesh = "MA", from = "A", to = "B" },
  { data = "V", mesh = "MB", from = "B", to = "A" },
]
"#;

/// The case of participant A, less its one `[[row]]`.
pub const FIRST_CASE: &str = r#"solver = "rows"
step = 10
state = ["0"]
[[mesh]]
name = "MA"
points = [["0", "0"]]
"#;

/// The row of participant A, less its `add`.
pub const FIRST_ROW: &str = r#"reads = [[0, "1"]]
"#;

/// The case of participant B.
pub const SECOND_CASE: &str = r#"solver = "rows"
step = 10
state = ["0"]
[[mesh]]
name = "MB"
points = [["0", "0"]]
[[row]]
reads = [[0, "0.5"]]
"#;
