use super::try_changes;
use std::test::Fail;

/// A participant that writes five data, of which it sums two into a third, which another one reads.
pub const ACTING: &str = r#"format = 2
window = 10
max-windows = 3
data = [
  { name = "U", kind = "scalar" },
  { name = "W", kind = "scalar" },
  { name = "X", kind = "scalar" },
  { name = "Y", kind = "scalar" },
  { name = "Z", kind = "vector" },
]
mesh = [
  { name = "MA", dimensions = 2, data = ["U", "W", "X", "Z"] },
  { name = "MO", dimensions = 2, data = ["Y"] },
  { name = "MB", dimensions = 2, data = ["U"] },
]
[[participant]]
name = "A"
case = "a.toml"
provides = ["MA", "MO"]
write = [
  { data = "U", mesh = "MA" },
  { data = "W", mesh = "MA" },
  { data = "X", mesh = "MA" },
  { data = "Y", mesh = "MO" },
  { data = "Z", mesh = "MA" },
]
action = [{ kind = "summation", mesh = "MA", sources = ["W", "X"], target = "U" }]
[[participant]]
name = "B"
case = "b.toml"
provides = ["MB"]
receives = [{ mesh = "MA", from = "A" }]
read = [{ data = "U", mesh = "MB" }]
map = [{ direction = "read", from = "MA", to = "MB", constraint = "consistent" }]
[[scheme]]
kind = "serial-explicit"
first = "A"
second = "B"
exchange = [{ data = "U", mesh = "MA", from = "A", to = "B" }]
"#;

/// No source; a source, and a target, on another mesh; a target among its own sources; two actions of
/// one target; a target that another action sums; a vector among scalars; and what is no fault.
const ACTIONS: &str = r#" ->  => accepted
---
["W", "X"], target -> [], target => C35 Action(1, 1)
---
["W", "X"], target -> ["W", "Y"], target => C35 Action(1, 1)
---
target = "U" -> target = "Y" => C35 Action(1, 1)
---
["W", "X"], target -> ["W", "U"], target => C35 Action(1, 1)
---
action = [ -> action = [{ kind = "summation", mesh = "MA", sources = ["W"], target = "U" },  => C35 Action(1, 2)
---
action = [ -> action = [{ kind = "summation", mesh = "MA", sources = ["Z"], target = "W" },  => C35 Action(1, 1)
---
["W", "X"], target = "U" -> ["W"], target = "U" }, { kind = "summation", mesh = "MA", sources = ["U"], target = "X" => C35 Action(1, 1)
---
["W", "X"], target -> ["W", "Z"], target => C35 Action(1, 1)
---
["W", "X"], target = "U" -> ["W"], target = "U" }, { kind = "summation", mesh = "MA", sources = ["W"], target = "X" => accepted"#;

/// Names that are not declared, at an action and at a watch-point that stands after it in the file.
const NAMES: &str = r#"["W", "X"], target -> ["W", "N"], target => C9 Action(1, 1)
---
target = "U" -> target = "N" => C9 Action(1, 1)
---
mesh = "MA", sources -> mesh = "N", sources => C9 Action(1, 1)
---
mesh = "MA", sources = ["W", "X"], target = "U" }] -> mesh = "N", sources = ["W", "X"], target = "U" }]
watch = [{ name = "P", mesh = "N", at = [0, 0] }] => C9 Watch(1, 1)
---
format = 2 -> format = 1 => C3 Participant(1)"#;

#[test]
fn actions(rt: HostRuntime) -> Result<(), Fail> {
    let alloc = rt.alloc();
    try_changes(&rt, alloc, ACTING, ACTIONS)?;
    try_changes(&rt, alloc, ACTING, NAMES)
}
