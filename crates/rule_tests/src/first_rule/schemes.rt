use super::Base::{Explicit, ExplicitThree, Implicit, ImplicitThree, Multi};
use super::try_base;
use std::test::Fail;

const EXPLICIT_MEMBERS: &str = r#"second = "B"
 ->  => C17 Scheme(1)
---
second -> control = "B"
second => C17 Scheme(1)"#;

const IMPLICIT_MEMBERS: &str = r#"first = "A"
 ->  => C17 Scheme(1)
---
second = "B" -> second = "A" => C17 Scheme(1)
---
second -> members = []
second => C17 Scheme(1)
---
serial-implicit -> multi => C17 Scheme(1)"#;

const MULTI_MEMBERS: &str = r#"multi -> serial-implicit => C17 Scheme(1)
---
control = "A"
 ->  => C17 Scheme(1)
---
members = ["A", "B"]
 ->  => C17 Scheme(1)
---
members = ["A", "B"] -> members = ["A"] => C17 Scheme(1)
---
control -> first = "A"
control => C17 Scheme(1)
---
control -> second = "B"
control => C17 Scheme(1)
---
[[scheme]]
kind = "multi"
control = "A" -> [[participant]]
name = "C"
case = "c"
provides = []
[[scheme]]
kind = "multi"
control = "C" => C17 Scheme(1)"#;

#[test]
fn members(rt: HostRuntime) -> Result<(), Fail> {
    let alloc = rt.alloc();
    try_base(&rt, alloc, Explicit, EXPLICIT_MEMBERS)?;
    try_base(&rt, alloc, Implicit, IMPLICIT_MEMBERS)?;
    try_base(&rt, alloc, Multi, MULTI_MEMBERS)
}

const EXCHANGES: &str = r#"from = "A", to -> from = "B", to => C18 Exchange(1, 1)
---
to = "A" },
 -> to = "B" },
 => C18 Exchange(1, 2)
---
"U", mesh = "MA", from -> "V", mesh = "MA", from => C20 Exchange(1, 1)
---
read = [{ data = "U", mesh = "MB" }] ->  => C20 Exchange(1, 1)
---
read = [ -> read = [{ data = "V", mesh = "MA" },  => C21 Read(1, 2)
---
  { data = "V", mesh = "MB", from = "B", to = "A" },
 ->  => C21 Read(1, 1)
---
  { data = "V", mesh ->   { data = "U", mesh = "MA", from = "A", to = "B" },
  { data = "V", mesh => C21 Read(2, 1)"#;

const EXCHANGES_OF_A_THIRD: &str =
    r#""U", mesh = "MA", from = "A", to = "C" -> "U", mesh = "MA", from = "A", to = "B" => C18 Exchange(2, 1)
---
"U", mesh = "MA", from = "A", to = "C" -> "U", mesh = "MA", from = "B", to = "C" => C18 Exchange(2, 1)
---
"U", mesh = "MA", from = "A", to = "C" -> "V", mesh = "MB", from = "A", to = "C" => C19 Exchange(2, 1)
---
"U", mesh = "MA", from = "A", to = "C" -> "U", mesh = "MC", from = "C", to = "A" => C19 Exchange(2, 1)"#;

#[test]
fn exchanges(rt: HostRuntime) -> Result<(), Fail> {
    let alloc = rt.alloc();
    try_base(&rt, alloc, Implicit, EXCHANGES)?;
    try_base(&rt, alloc, ImplicitThree, EXCHANGES_OF_A_THIRD)
}

const SCHEMES: &str = r#" ->  => accepted
---
serial-explicit -> parallel-explicit"
first = "A"
second = "B"
[[scheme]]
kind = "serial-explicit => C22 Scheme(2)
---
serial-explicit"
first = "A -> serial-implicit"
max-iterations = 2
measure = [{ kind = "absolute", data = "U", limit = 1 }]
first = "A => C23 Scheme(2)
---
serial-explicit -> serial-explicit"
first = "C"
second = "B"
[[scheme]]
kind = "serial-explicit => C24 Scheme(3)
---
serial-explicit -> parallel-explicit"
first = "C"
second = "B"
[[scheme]]
kind = "serial-explicit => accepted
---
[[mesh]]
name = "MC" -> [[participant]]
name = "D"
case = "d"
provides = []
[[mesh]]
name = "MC" => C25 Participant(3)"#;

/// A before B, B before C, and C before A: the scheme that closes the circle is told, not one after
/// it.
const CIRCLE_OF_THREE: &str = r#"first = "A"
second = "C" -> first = "B"
second = "C"
[[scheme]]
kind = "serial-explicit"
first = "C"
second = "A" => C24 Scheme(3)
---
[[scheme]]
kind = "serial-explicit"
first = "A"
second = "C"
exchange = [{ data = "U", mesh = "MA", from = "A", to = "C" }]
 -> [[participant]]
name = "D"
case = "d"
provides = []
[[scheme]]
kind = "serial-explicit"
first = "B"
second = "C"
[[scheme]]
kind = "serial-explicit"
first = "C"
second = "A"
exchange = [{ data = "U", mesh = "MA", from = "A", to = "C" }]
[[scheme]]
kind = "serial-explicit"
first = "C"
second = "D"
 => C24 Scheme(3)"#;

#[test]
fn schemes_of_three(rt: HostRuntime) -> Result<(), Fail> {
    let alloc = rt.alloc();
    try_base(&rt, alloc, ImplicitThree, SCHEMES)?;
    try_base(&rt, alloc, ExplicitThree, CIRCLE_OF_THREE)
}
