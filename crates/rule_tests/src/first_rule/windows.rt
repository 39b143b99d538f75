use super::actions::ACTING;
use super::try_changes;
use std::test::Fail;

const FIXED: &str = r#"max-windows = 3 -> max-windows = 3
window-method = "fixed" => accepted
---
max-windows = 3
 ->  => C10 Config
---
max-windows = 3 -> max-windows = 3
max-time = 25 => C10 Config
---
max-windows = 3 -> max-time = 10000000 => accepted
---
max-windows = 3 -> max-time = 10000001 => C10 Config
---
max-windows = 3 -> max-windows = 1000001 => C6 Config"#;

const FIRST: &str = "max-windows = 3\nwindow-method = \"first-participant\"";

/// The end, in each way; and each wrong list of schemes: of another kind, with nothing sent from the
/// first to the second, or with more than one scheme.
const FIRST_PARTICIPANT: &str = r#" ->  => accepted
---
max-windows = 3
 ->  => C10 Config
---
max-windows = 3 -> max-time = 25 => C10 Config
---
max-windows = 3 -> max-windows = 1000000
max-time = 1000000000000000 => accepted
---
max-windows = 3 -> max-windows = 1000001 => C6 Config
---
format = 2 -> format = 1 => C3 Config
---
serial-explicit -> parallel-explicit => C33 Scheme(1)
---
serial-explicit" -> serial-implicit"
max-iterations = 2
measure = [{ kind = "absolute", data = "U", limit = 1 }] => C33 Scheme(1)
---
first = "A"
second = "B" -> first = "B"
second = "A" => C33 Scheme(1)
---
[[scheme]]
 -> [[participant]]
name = "C"
case = "c.toml"
provides = []
[[scheme]]
kind = "parallel-explicit"
first = "A"
second = "C"
[[scheme]]
 => C33 Scheme(1)
---
first = "A"
second = "B"
exchange = [{ data = "U", mesh = "MA", from = "A", to = "B" }] -> first = "B"
second = "A"
exchange = [{ data = "U", mesh = "MA", from = "A", to = "B" }]
[[participant]]
name = "C"
case = "c.toml"
provides = []
[[scheme]]
kind = "serial-explicit"
first = "A"
second = "C" => C33 Scheme(2)"#;

/// An action that sums nothing, which stands before the scheme.
const WITH_NO_SOURCE: &str = r#" ->  => C35 Action(1, 1)
---
serial-explicit -> parallel-explicit => C33 Scheme(1)"#;

#[test]
fn windows(rt: HostRuntime) -> Result<(), Fail> {
    let alloc = rt.alloc();
    let first = ACTING.replacen(alloc, "max-windows = 3", FIRST, 1)?;
    let wrong = first
        .as_str()
        .replacen(alloc, "[\"W\", \"X\"], target", "[], target", 1)?;
    try_changes(&rt, alloc, ACTING, FIXED)?;
    try_changes(&rt, alloc, first.as_str(), FIRST_PARTICIPANT)?;
    try_changes(&rt, alloc, wrong.as_str(), WITH_NO_SOURCE)
}
