use super::Base::{Explicit, ExplicitThree, Implicit, Multi};
use super::try_base;
use std::test::Fail;

const EXPLICIT: &str = r#"serial-ex -> serial-im => C26 Scheme(1)
---
first -> min-iterations = 1
first => C28 Scheme(1)
---
first -> max-iterations = 1
first => C28 Scheme(1)
---
first -> acceleration = { kind = "aitken", factor = 1, data = ["V"] }
first => C29 Acceleration(1)"#;

const IMPLICIT: &str = r#"serial-im -> serial-ex => C26 Scheme(1)
---
"V", limit -> "W", limit => C27 Measure(1, 1)
---
max-iterations = 5
 ->  => C28 Scheme(1)
---
["V"] } -> [] } => C29 Acceleration(1)
---
["V"] } -> ["W"] } => C29 Acceleration(1)
---
["V"] } -> ["V", "U"] } => C29 Acceleration(1)
---
serial -> parallel => accepted"#;

const MULTI: &str = r#"= 5
 -> = 5
min-iterations = 6
 => C28 Scheme(1)
---
= 5
 -> = 5
min-iterations = 5
 => accepted
---
["V"] } -> ["V", "U"] } => accepted"#;

/// The second scheme, with a measure on data that the first one exchanges.
const EXPLICIT_THREE: &str = r#"serial-explicit"
first = "A"
second = "C" -> serial-implicit"
max-iterations = 2
measure = [{ kind = "absolute", data = "V", limit = 1 }]
first = "A"
second = "C" => C27 Measure(2, 1)"#;

#[test]
fn measures_iterations_and_accelerations(rt: HostRuntime) -> Result<(), Fail> {
    let alloc = rt.alloc();
    try_base(&rt, alloc, Explicit, EXPLICIT)?;
    try_base(&rt, alloc, Implicit, IMPLICIT)?;
    try_base(&rt, alloc, Multi, MULTI)?;
    try_base(&rt, alloc, ExplicitThree, EXPLICIT_THREE)
}
