use super::Base::Implicit;
use super::try_base;
use std::test::Fail;

const MESHES: &str = r#" ->  => accepted
---
"V", limit -> "X", limit => C9 Measure(1, 1)
---
first = "A" -> first = "MA" => C9 Scheme(1)
---
max-windows = 3
 ->  => C10 Config
---
window = 10 -> window = 10
max-time = 5 => C10 Config
---
= ["MB"] -> = ["MB", "MA"] => C11 MeshTable(1)
---
= ["MB"] -> = [] => C11 MeshTable(2)
---
from = "B" }] -> from = "A" }] => C12 Receives(1, 1)
---
data = ["U", "V"] -> data = ["V"] => C13 Write(1, 1)
---
write = [ -> write = [{ data = "U", mesh = "MA" },  => C14 Write(1, 2)
---
from = "MB" -> from = "MA" => C15 Map(1, 1)
---
"read" -> "write" => C15 Map(1, 1)
---
dimensions = 2 -> dimensions = 3 => C15 Map(1, 1)
---
map = [ -> map = [{ direction = "read", from = "MB", to = "MA", constraint = "conservative" },  => C15 Map(1, 2)
---
at = [0, 0] -> at = [0, 0, 0] => C15 Watch(2, 1)
---
mesh = "MB", at -> mesh = "MA", at => C15 Watch(2, 1)
---
map = [{ direction = "read", from = "MB", to = "MA", constraint = "consistent" }] ->  => C16 Exchange(1, 2)
---
map = [{ direction = "read", from = "MA", to = "MB", constraint = "consistent" }] ->  => C16 Exchange(1, 1)
---
"MA", from = "A", -> "MB", from = "A", => C16 Exchange(1, 1)"#;

#[test]
fn names_ends_meshes_and_mappings(rt: HostRuntime) -> Result<(), Fail> {
    try_base(&rt, rt.alloc(), Implicit, MESHES)
}
