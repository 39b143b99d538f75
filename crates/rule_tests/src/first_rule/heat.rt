use super::told;
use std::test::Fail;

/// Heat that goes round between three participants, and a fourth one that looks on.
const HEAT: &str = r#"format = 1
window = 100
max-windows = 20

[[data]]
name = "Wall-Temperature"
kind = "scalar"
degree = 1

[[data]]
name = "Solid-Temperature"
kind = "scalar"
degree = 1

[[data]]
name = "Heater-Temperature"
kind = "scalar"
degree = 1

[[mesh]]
name = "Fluid-Mesh"
dimensions = 2
data = ["Wall-Temperature", "Heater-Temperature"]

[[mesh]]
name = "Solid-Mesh"
dimensions = 2
data = ["Solid-Temperature", "Wall-Temperature"]

[[mesh]]
name = "Heat-Mesh"
dimensions = 2
data = ["Heater-Temperature", "Solid-Temperature"]

[[mesh]]
name = "Logger-Mesh"
dimensions = 2
data = ["Solid-Temperature"]

[[participant]]
name = "Fluid"
case = "fluid.toml"
provides = ["Fluid-Mesh"]
receives = [{ mesh = "Heat-Mesh", from = "Heat" }]
write = [{ data = "Wall-Temperature", mesh = "Fluid-Mesh" }]
read = [{ data = "Heater-Temperature", mesh = "Fluid-Mesh" }]
map = [{ direction = "read", from = "Heat-Mesh", to = "Fluid-Mesh", constraint = "consistent" }]

[[participant]]
name = "Solid"
case = "solid.toml"
provides = ["Solid-Mesh"]
receives = [{ mesh = "Fluid-Mesh", from = "Fluid" }]
write = [{ data = "Solid-Temperature", mesh = "Solid-Mesh" }]
read = [{ data = "Wall-Temperature", mesh = "Solid-Mesh" }]
map = [{ direction = "read", from = "Fluid-Mesh", to = "Solid-Mesh", constraint = "consistent" }]
watch = [{ name = "middle", mesh = "Solid-Mesh", at = ["0.5", 0] }]

[[participant]]
name = "Heat"
case = "heat.toml"
provides = ["Heat-Mesh"]
receives = [{ mesh = "Solid-Mesh", from = "Solid" }]
write = [{ data = "Heater-Temperature", mesh = "Heat-Mesh" }]
read = [{ data = "Solid-Temperature", mesh = "Heat-Mesh" }]
map = [{ direction = "read", from = "Solid-Mesh", to = "Heat-Mesh", constraint = "consistent" }]

[[participant]]
name = "Logger"
case = "logger.toml"
provides = ["Logger-Mesh"]
receives = [{ mesh = "Solid-Mesh", from = "Solid" }]
read = [{ data = "Solid-Temperature", mesh = "Logger-Mesh" }]
map = [{ direction = "read", from = "Solid-Mesh", to = "Logger-Mesh", constraint = "consistent" }]

[[scheme]]
kind = "multi"
members = ["Fluid", "Solid", "Heat"]
control = "Solid"
max-iterations = 50

[[scheme.exchange]]
data = "Wall-Temperature"
mesh = "Fluid-Mesh"
from = "Fluid"
to = "Solid"
initialize = true

[[scheme.exchange]]
data = "Solid-Temperature"
mesh = "Solid-Mesh"
from = "Solid"
to = "Heat"
initialize = true

[[scheme.exchange]]
data = "Heater-Temperature"
mesh = "Heat-Mesh"
from = "Heat"
to = "Fluid"
initialize = true

[[scheme.measure]]
kind = "relative"
data = "Wall-Temperature"
limit = "0.001"

[[scheme.measure]]
kind = "relative"
data = "Solid-Temperature"
limit = "0.001"

[[scheme.measure]]
kind = "relative"
data = "Heater-Temperature"
limit = "0.001"

[scheme.acceleration]
kind = "aitken"
factor = "0.5"
data = ["Wall-Temperature", "Solid-Temperature", "Heater-Temperature"]

[[scheme]]
kind = "serial-explicit"
first = "Solid"
second = "Logger"

[[scheme.exchange]]
data = "Solid-Temperature"
mesh = "Solid-Mesh"
from = "Solid"
to = "Logger"
"#;

#[test]
fn heat_that_goes_round_is_accepted(rt: HostRuntime) -> Result<(), Fail> {
    assert_eq!(rt; told(rt.alloc(), HEAT)?.as_str(), "accepted");
    Ok(())
}
