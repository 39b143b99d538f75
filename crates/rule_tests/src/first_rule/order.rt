use super::Base::{Explicit, Implicit, ImplicitThree};
use super::try_base;
use std::test::Fail;

/// A scheme's kind and its iterations; an end, and a name at two places; a name in the second of
/// two measures, where the scheme is explicit.
const EXPLICIT: &str = r#""B"
ex -> "A"
max-iterations = 1
ex => C17 Scheme(1)
---
max-windows = 3

[[data]]
name = "U" -> [[data]]
name = "X" => C9 MeshTable(1)
---
first = "A" -> measure = [
  { kind = "relative", data = "V", limit = 0 },
  { kind = "relative", data = "X", limit = 0 },
] => C9 Measure(1, 2)"#;

/// What is read and not fed, and two schemes of the same two; a measure on what is not exchanged,
/// and no greatest number of iterations, at a place before it; the measures of an explicit scheme,
/// its iterations and its acceleration. One rule at two entries, of which the file has the later one
/// first: what is written and read, read and mapped, mapped and watched.
const IMPLICIT: &str = r#"  { data = "V", mesh = "MB", from = "B", to = "A" },
] -> ]
[[scheme]]
kind = "parallel-explicit"
first = "A"
second = "B" => C21 Read(1, 1)
---
max-iterations = 5
measure = [{ kind = "absolute", data = "V" -> measure = [{ kind = "absolute", data = "W" => C27 Measure(1, 1)
---
serial-implicit -> serial-explicit => C26 Scheme(1)
---
write = [{ data = "U", mesh = "MA" }]
read = [{ data = "V", mesh = "MA" }] -> read = [{ data = "V", mesh = "MB" }]
write = [{ data = "U", mesh = "MB" }] => C13 Write(1, 1)
---
read = [{ data = "V", mesh = "MA" }]
map = [{ direction = "read", from = "MB", to = "MA", constraint = "consistent" }] -> map = [{ direction = "read", from = "MX", to = "MA", constraint = "consistent" }]
read = [{ data = "V", mesh = "MX" }] => C9 Read(1, 1)
---
map = [{ direction = "read", from = "MA", to = "MB", constraint = "consistent" }]
watch = [{ name = "P", mesh = "MB", at = [0, 0] }] -> watch = [{ name = "P", mesh = "MA", at = [0, 0] }]
map = [{ direction = "read", from = "MB", to = "MB", constraint = "consistent" }] => C15 Map(2, 1)"#;

/// Two participants in two schemes, of which the first is the second implicit one of one of them; a
/// circle, and a participant without a scheme, at a place before it.
const IMPLICIT_THREE: &str = r#"serial-explicit"
first = "A" -> serial-implicit"
max-iterations = 2
measure = [{ kind = "absolute", data = "U", limit = 1 }]
first = "A"
second = "C"
[[scheme]]
kind = "parallel-explicit"
first = "A" => C22 Scheme(3)
---
[[scheme]]
kind = "serial-explicit -> [[participant]]
name = "D"
case = "d"
provides = []
[[scheme]]
kind = "serial-explicit"
first = "C"
second = "B"
[[scheme]]
kind = "serial-explicit => C24 Scheme(3)"#;

/// Each change breaks two rules, or one rule at two places: the first is told.
#[test]
fn the_first_rule_at_its_first_place(rt: HostRuntime) -> Result<(), Fail> {
    let alloc = rt.alloc();
    try_base(&rt, alloc, Explicit, EXPLICIT)?;
    try_base(&rt, alloc, Implicit, IMPLICIT)?;
    try_base(&rt, alloc, ImplicitThree, IMPLICIT_THREE)
}
