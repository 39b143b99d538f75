use super::{BASE, told};
use std::alloc::{AllocError, Global};
use std::test::Fail;

/// What is told of the base configuration with a change or two: a part of it and what stands in its
/// place, where `^` ends a line and `~` is nothing. The last lines break two rules, or one rule at
/// two places.
const CHANGES: &str = r#"2 config | format = 1 | format = 
2 config | max-windows = 3 | window = 3
2 config | format = 1 | format = 9223372036854775808
2 config | [[mesh]] | [mesh]
3 config | window = 10 | window = 10^colour = 1
3 config | window = 10 | colour = 1
3 data 1 | name = "U" | name = "U"^colour = 1
3 data 2 | name = "V" | name = "V"^Degree = 1
3 mesh 2 | name = "MB" | name = "MB"^x = 1
3 participant 1 | name = "A" | name = "A"^mesh = "MA"
3 participant 2 receives 1 | from = "A" } | from = "A", to = "B" }
3 participant 2 write 2 | { data = "V", mesh = "MB" } | 1, { data = "V", mesh = "MB", from = "B" }
3 participant 1 read 1 | "V", mesh = "MA" } | "V", mesh = "MA", substeps = true }
3 participant 2 map 1 | to = "MB",  | to = "MB", degree = 1, 
3 participant 2 watch 1 | [[scheme]] | [[participant.watch]]^name = "P"^mesh = "MB"^at = [0, 0]^size = 1^[[scheme]]
3 scheme 1 | first = "A" | first = "A"^degree = 1
3 scheme 1 exchange 2 | to = "A" } | to = "A", limit = "1" }
3 scheme 1 measure 1 | second = "B" | measure = [{ kind = "absolute", data = "V", limit = "1", factor = 1 }]
3 scheme 1 acceleration | second = "B" | acceleration = { kind = "aitken", factor = "0.5", data = ["V"], limit = 1 }
3 config | window = 10 | window = 10^window-method = "fixed"
4 config | format = 1^ | ~
4 config | window = 10^ | ~
4 data 1 | kind = "scalar"^ | ~
4 data 2 | name = "V"^ | ~
4 mesh 1 | dimensions = 2^ | ~
4 participant 1 | provides = ["MA"]^ | ~
4 participant 2 | case = "b.toml"^ | ~
4 participant 1 receives 1 | , from = "B" } |  }
4 participant 1 write 1 | { data = "U", mesh = "MA" } | { mesh = "MA" }
4 participant 2 read 1 | { data = "U", mesh = "MB" } | { data = "U" }
4 participant 1 map 1 | , constraint = "consistent" | ~
4 participant 2 watch 1 | case = "b.toml" | case = "b.toml"^watch = [{ name = "P", mesh = "MB" }]
4 scheme 1 | kind = "serial-explicit"^ | ~
4 scheme 1 exchange 1 | from = "A", to = "B" } | to = "B" }
4 scheme 1 measure 1 | second = "B" | measure = [{ kind = "absolute", data = "V" }]
4 scheme 1 acceleration | second = "B" | acceleration = { kind = "aitken", data = ["V"] }
5 config | window = 10 | window = 10.0
5 config | format = 1 | format = "1"
5 config | [[scheme]] | [scheme]
5 data 1 | kind = "scalar" | kind = "tensor"
5 mesh 1 | data = ["U", "V"] | data = "U"
5 mesh 1 | data = ["U", "V"] | data = ["U", 5]
5 participant 1 | receives = [{ mesh = "MB", from = "B" }] | receives = { mesh = "MB", from = "B" }
5 participant 2 | write = [{ data = "V" | write = [1, { data = "V"
5 participant 1 receives 1 | from = "B" } | from = 2 }
5 participant 1 map 1 | direction = "read" | direction = "both"
5 participant 1 watch 1 | case = "a.toml" | case = "a.toml"^watch = [{ name = "P", mesh = "MA", at = [0.5, 0] }]
5 scheme 1 | kind = "serial-explicit" | kind = "serial"
5 scheme 1 exchange 1 | to = "B" } | to = "B", initialize = 1 }
5 scheme 1 measure 1 | second = "B" | measure = [{ kind = "absolute", data = "V", limit = 0.1 }]
5 scheme 1 | second = "B" | acceleration = [{ kind = "aitken", factor = "0.5", data = ["V"] }]
5 scheme 1 acceleration | second = "B" | acceleration = { kind = "newton", factor = "0.5", data = ["V"] }
6 config | window = 10 | window = 0
6 config | window = 10 | window = 1000000001
6 config | max-windows = 3 | max-windows = 1000001
6 config | max-windows = 3 | max-time = 1000000000000001
6 data 1 | name = "U" | name = ""
6 data 2 | name = "V" | name = "V W"
6 data 2 | name = "V" | name = "0123456789012345678901234567890123456789012345678901234567890123x"
6 data 1 | kind = "scalar" | kind = "scalar"^degree = 2
6 mesh 1 | dimensions = 2 | dimensions = 4
6 mesh 1 | data = ["U", "V"] | data = ["U", "V\t"]
6 participant 2 | case = "b.toml" | case = ""
6 participant 1 receives 1 | from = "B" } | from = "é" }
6 participant 1 write 1 | { data = "U", mesh = "MA" } | { data = "U", mesh = "" }
6 participant 2 map 1 | to = "MB",  | to = "", 
6 participant 1 watch 1 | case = "a.toml" | case = "a"^watch = [{ name = "P", mesh = "MA", at = ["1000000.000001"] }]
6 scheme 1 | second = "B" | second = "B"^max-iterations = 1001
6 scheme 1 exchange 1 | from = "A",  | from = "", 
6 scheme 1 measure 1 | second = "B" | measure = [{ kind = "absolute", data = "V", limit = -1 }]
6 scheme 1 acceleration | second = "B" | acceleration = { kind = "aitken", factor = "1.000001", data = ["V"] }
6 config | format = 1 | format = 3
6 data 2 | name = "V" | name = "V\u007F"
8 data 2 | name = "V" | name = "U"
8 mesh 2 | name = "MB" | name = "MA"
8 participant 2 | name = "B" | name = "A"
8 participant 2 watch 1 | [[participant]]^name = "B" | watch = [{ name = "P", mesh = "MA", at = [] }]^[[participant]]^name = "B"^watch = [{ name = "P", mesh = "MB", at = [] }]
8 mesh 1 | data = ["U", "V"] | data = ["U", "V", "U"]
8 participant 2 | provides = ["MB"] | provides = ["MB", "MB"]
8 scheme 1 | second = "B" | members = ["A", "B", "A"]
8 scheme 1 acceleration | second = "B" | acceleration = { kind = "aitken", factor = 1, data = ["V", "V"] }
accepted | format = 1 | format = 1
accepted | max-windows = 3 | max-windows = 3^max-time = 25
accepted | max-windows = 3^ | ~
accepted | name = "MA" | name = "U"
accepted | to = "B" } | to = "A" }
accepted | data = ["U", "V"] | data = []
accepted | exchange = [ | measure = []^exchange = [
accepted | format = 1 | format = 2
accepted | format = 1 | format = 2^window-method = "first-participant"
5 scheme 1 | window = 10 | window = 0 | kind = "serial-explicit" | kind = "serial"
4 participant 2 | name = "V" | name = "U" | case = "b.toml"^ | ~
3 scheme 1 exchange 2 | format = 1^ | ~ | to = "A" } | to = "A", size = 1 }
6 mesh 1 | name = "V" | name = "U" | dimensions = 2 | dimensions = 1
2 config | format = 1 | format = "1" | second = "B" | second =
3 config | window = 10 | window = 10^x = 1 | name = "U" | name = "U"^x = 1
3 data 2 | name = "MA" | name = "MA"^x = 1 | name = "V" | name = "V"^x = 1
3 participant 1 map 1 | name = "B" | name = "B"^x = 1 | to = "MA",  | to = "MA", x = 1, 
3 participant 1 receives 1 | { data = "U", mesh = "MA" } | { data = "U", mesh = "MA", x = 1 } | from = "B" } | from = "B", x = 1 }
3 scheme 1 exchange 2 | second = "B" | acceleration = { kind = "aitken", factor = 1, data = [], x = 1 } | to = "A" } | to = "A", x = 1 }
3 scheme 1 measure 1 | first = "A" | acceleration = { kind = "aitken", factor = 1, data = [], x = 1 } | second = "B" | measure = [{ kind = "absolute", data = "V", limit = 1, x = 1 }]"#;

/// The text with one part changed, as the parts of a line say.
fn changed(
    alloc: Global,
    text: &str,
    part: Option<&str>,
    to: Option<&str>,
) -> Result<String, AllocError> {
    match (part, to) {
        (Some(part), Some(to)) => {
            let part = part.replace(alloc, "^", "\n")?;
            let to = to
                .replace(alloc, "^", "\n")?
                .as_str()
                .replace(alloc, "~", "")?;
            text.replacen(alloc, part.as_str(), to.as_str(), 1)
        }
        _ => String::from_str(alloc, text),
    }
}

#[test]
fn changes_of_a_configuration(rt: HostRuntime) -> Result<(), Fail> {
    let alloc = rt.alloc();
    for line in CHANGES.lines() {
        let mut parts = line.split(" | ");
        let wanted = parts.next().ok_or("no line")?;
        let once = changed(alloc, BASE, parts.next(), parts.next())?;
        let twice = changed(alloc, once.as_str(), parts.next(), parts.next())?;
        let answer = told(alloc, twice.as_bytes())?;
        assert!(rt; answer.as_slice() == wanted.as_bytes(), "{line}");
    }
    Ok(())
}
