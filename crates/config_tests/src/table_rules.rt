use cpl_rules::{TableSpot, first_refusal};
use cpl_tables::print_place;
use std::alloc::{AllocError, Global};
use std::test::Fail;
use toml::Table;

/// A configuration in which no rule is broken.
const CONFIG: &str = r#"format = 1
window = 10
max-windows = 3

[[data]]
name = "U"
kind = "scalar"

[[data]]
name = "V"
kind = "vector"

[[mesh]]
name = "M"
dimensions = 2
data = ["U", "V"]

[[participant]]
name = "A"
case = "a.toml"
provides = ["M"]
receives = []
write = [{ data = "U", mesh = "M" }]
watch = [{ name = "W", mesh = "M", at = ["0", 1] }]

[[participant]]
name = "B"
case = "b.toml"
provides = []
map = [{ direction = "read", from = "M", to = "M", constraint = "consistent" }]

[[scheme]]
kind = "serial-implicit"
first = "A"
measure = [{ kind = "absolute", data = "U", limit = "0.1" }]
exchange = [
  { data = "U", mesh = "M", from = "A", to = "B" },
  { data = "V", mesh = "M", from = "A", to = "B", initialize = true },
]
acceleration = { kind = "constant", factor = "0.5", data = ["U"] }
"#;

/// A case file in which no rule is broken.
const CASE: &str = r#"solver = "rows"
step = 10
state = ["0"]
[[mesh]]
name = "M"
points = [["0", "0"]]
[[mesh]]
name = "N"
line = { from = [0, 0], to = ["1", 0], count = 3 }
[[row]]
add = "1"
reads = [[0, "1"]]
"#;

/// What is told of a file: `in order`, or the number of the broken rule and its place.
fn told(alloc: Global, top: TableSpot) -> Result<Vec<u8>, Fail> {
    let mut text = Vec::new(alloc);
    match first_refusal(alloc, top)? {
        Some(refusal) => {
            let number = format!(in alloc; "{} ", refusal.rule)?;
            text.extend_from_slice(number.as_bytes())?;
            print_place(alloc, refusal.place, "C", &mut text)?;
        }
        None => text.extend_from_slice("in order".as_bytes())?,
    }
    Ok(text)
}

/// The text with one part changed, as the parts of a line say: `^` ends a line, `~` is nothing.
fn changed(
    alloc: Global,
    text: &str,
    part: Option<&str>,
    to: Option<&str>,
) -> Result<String, AllocError> {
    match (part, to) {
        (Some(part), Some(to)) => {
            let part = part.replace(alloc, "^", "\n")?;
            let lines = to.replace(alloc, "^", "\n")?;
            let to = lines.as_str().replace(alloc, "~", "")?;
            text.replacen(alloc, part.as_str(), to.as_str(), 1)
        }
        _ => String::from_str(alloc, text),
    }
}

/// What is told of the configuration: then its format, a part of it, and what stands in its place.
const CONFIGS: &str = r#"3 config | 1 | format = 1 | x = 1^format = 1
3 data 2 | 1 | name = "V" | name = "V"^x = 1
3 mesh 1 | 1 | dimensions = 2 | dimension = 2
3 participant 2 | 1 | name = "B" | name = "B"^watches = []
3 participant 1 watch 1 | 1 | mesh = "M", at | x = 1, mesh = "M", at
3 scheme 1 acceleration | 1 | factor | damping
4 config | 1 | format = 1^ | ~
4 participant 2 | 1 | case = "b.toml"^ | ~
4 participant 1 write 1 | 1 | , mesh = "M" }]^watch | }]^watch
4 participant 2 map 1 | 1 | from = "M",  | ~
4 scheme 1 measure 1 | 1 | limit = "0.1" | strict = true
4 scheme 1 exchange 2 | 1 | from = "A", to = "B", init | from = "A", init
4 scheme 1 | 1 | kind = "serial-implicit"^ | ~
5 config | 1 | window = 10 | window = "10"
5 config | 1 | window = 10 | window = 10.0
5 data 2 | 1 | kind = "vector" | kind = "tensor"
5 participant 1 receives 1 | 1 | receives = [] | receives = [{ mesh = 1, from = "B" }]
5 participant 1 | 1 | receives = [] | receives = { mesh = "M", from = "B" }
5 participant 1 watch 1 | 1 | ["0", 1] | ["0", 1.5]
5 scheme 1 exchange 2 | 1 | initialize = true | initialize = 1
5 participant 2 | 1 | provides = [] | provides = []^read = [7, { data = "U", mesh = 1 }]
4 participant 2 read 2 | 1 | provides = [] | provides = []^read = [7, { data = "U" }]
6 config | 1 | format = 1 | format = 3
6 mesh 1 | 1 | dimensions = 2 | dimensions = 4
6 participant 1 | 1 | name = "A" | name = "A A"
6 participant 1 watch 1 | 1 | ["0", 1] | ["0", 1000001]
6 scheme 1 acceleration | 1 | "0.5" | "1.5"
6 scheme 1 measure 1 | 1 | "0.1" | "-0.1"
8 data 2 | 1 | name = "V" | name = "U"
8 participant 2 | 1 | name = "B" | name = "A"
8 mesh 1 | 1 | ["U", "V"] | ["U", "U"]
8 scheme 1 acceleration | 1 | data = ["U"] } | data = ["U", "U"] }
8 participant 2 watch 1 | 1 | provides = [] | provides = []^watch = [{ name = "W", mesh = "M", at = [] }]
3 config | 1 | format = 1^window = 10 | format = 3^window = "10"^x = 1
5 config | 1 | format = 1^window = 10 | format = 3^window = "10"
in order | 1 | format | format
3 config | 1 | window = 10 | window = 10^window-method = "fixed"
3 config | 3 | window = 10 | window = 10^window-method = "fixed"
3 config | "2" | window = 10 | window = 10^window-method = "fixed"
in order | 2 | window = 10 | window = 10^window-method = "fixed"
3 participant 2 map 1 | 1 | constraint | method = "nearest-projection", constraint
3 participant 2 map 1 | 3 | constraint | method = "nearest-projection", constraint
3 participant 2 map 1 | "2" | constraint | method = "nearest-projection", constraint
in order | 2 | constraint | method = "nearest-projection", constraint
3 participant 2 | 1 | provides = [] | provides = []^action = [{ kind = "summation", mesh = "M", sources = ["U"], target = "V" }]
3 participant 2 | 3 | provides = [] | provides = []^action = [{ kind = "summation", mesh = "M", sources = ["U"], target = "V" }]
3 participant 2 | "2" | provides = [] | provides = []^action = [{ kind = "summation", mesh = "M", sources = ["U"], target = "V" }]
in order | 2 | provides = [] | provides = []^action = [{ kind = "summation", mesh = "M", sources = ["U"], target = "V" }]
3 participant 2 action 1 | 2 | provides = [] | provides = []^action = [{ kind = "summation", mesh = "M", sources = [], target = "V", x = 1 }]
4 participant 2 action 1 | 2 | provides = [] | provides = []^action = [{ kind = "summation", mesh = "M", sources = [] }]
5 participant 2 action 1 | 2 | provides = [] | provides = []^action = [{ kind = "sum", mesh = "M", sources = [], target = "V" }]
6 participant 2 action 1 | 2 | provides = [] | provides = []^action = [{ kind = "summation", mesh = "M", sources = [""], target = "V" }]
8 participant 2 action 1 | 2 | provides = [] | provides = []^action = [{ kind = "summation", mesh = "M", sources = ["U", "U"], target = "V" }]"#;

#[test]
fn judges_configurations(rt: HostRuntime) -> Result<(), Fail> {
    let alloc = rt.alloc();
    for line in CONFIGS.lines() {
        let mut parts = line.split(" | ");
        let wanted = parts.next().ok_or("no line")?;
        let number = parts.next().ok_or("no format")?;
        let format = format!(in alloc; "format = {number}")?;
        let base = CONFIG.replacen(alloc, "format = 1", format.as_str(), 1)?;
        let text = changed(alloc, base.as_str(), parts.next(), parts.next())?;
        let table: Table = toml::table_from_str(alloc, text.as_str())?;
        let answer = told(alloc, TableSpot::of_config(&table))?;
        assert!(rt; answer.as_slice() == wanted.as_bytes(), "{line}");
    }
    Ok(())
}

/// What is told of the case file: then a part of it, and what stands in its place, once or twice.
const CASES: &str = r#"3 case C | step = 10 | step = 10^alpha = 1
3 case C | solver = "rows" | solver = "rod"
3 case C | count = 3 | count = 3, x = 1
4 case C | solver = "rows"^ | ~
4 case C | [[row]]^add = "1"^reads = [[0, "1"]]^ | ~
4 case C | , count = 3 | ~
3 case C | solver = "rows" | solver = "recorded"
5 case C | solver = "rows" | solver = "beam"^alpha = 1
5 case C | reads = [[0, "1"]] | reads = [[0]]
6 case C | step = 10 | step = 0
6 case C | count = 3 | count = 10001
7 case C | state = ["0"] | state = []
8 case C | name = "N" | name = "M"
in order | step | step
4 case C | [[row]]^add = "1"^reads = [[0, "1"]]^ | ~ | solver = "rows"^ | solver = "recorded"^^
3 case C | [[row]]^add = "1"^reads = [[0, "1"]]^ | ~ | solver = "rows"^ | solver = "recorded"^record = []^out = [0]^
4 case C | [[row]]^add = "1"^reads = [[0, "1"]]^ | ~ | solver = "rows"^ | solver = "recorded"^record = [{ dt = 5 }]^
5 case C | [[row]]^add = "1"^reads = [[0, "1"]]^ | ~ | solver = "rows"^ | solver = "recorded"^record = [{ dt = 5, writes = [0.5] }]^
6 case C | [[row]]^add = "1"^reads = [[0, "1"]]^ | ~ | solver = "rows"^ | solver = "recorded"^record = [{ dt = 0, writes = ["1"] }]^
in order | [[row]]^add = "1"^reads = [[0, "1"]]^ | ~ | solver = "rows"^ | solver = "recorded"^record = [{ dt = 5, writes = ["1"] }]^"#;

#[test]
fn judges_case_files(rt: HostRuntime) -> Result<(), Fail> {
    let alloc = rt.alloc();
    for line in CASES.lines() {
        let mut parts = line.split(" | ");
        let wanted = parts.next().ok_or("no line")?;
        let once = changed(alloc, CASE, parts.next(), parts.next())?;
        let text = changed(alloc, once.as_str(), parts.next(), parts.next())?;
        let table: Table = toml::table_from_str(alloc, text.as_str())?;
        let answer = told(alloc, TableSpot::of_case(2, &table))?;
        assert!(rt; answer.as_slice() == wanted.as_bytes(), "{line}");
    }
    Ok(())
}

/// What is told of a configuration with so many exchanges in each of two schemes.
fn with_exchanges(alloc: Global, first: usize, second: usize) -> Result<Vec<u8>, Fail> {
    let exchange = "{ data = \"U\", mesh = \"M\", from = \"A\", to = \"B\" },";
    let one = exchange.repeat(alloc, first)?;
    let two = exchange.repeat(alloc, second)?;
    let text = format!(in alloc;
        "format = 1\nwindow = 1\ndata = []\nmesh = []\nparticipant = [{{ name = \"A\", case = \"a\", provides = [] }}]\nscheme = [{{ kind = \"multi\", exchange = [{one}] }}, {{ kind = \"multi\", exchange = [{two}] }}]\n"
    )?;
    let table = toml::table_from_str(alloc, text.as_str())?;
    told(alloc, TableSpot::of_config(&table))
}

#[test]
fn counts_over_the_whole_file(rt: HostRuntime) -> Result<(), Fail> {
    let alloc = rt.alloc();
    let enough = with_exchanges(alloc, 200, 56)?;
    assert!(rt; enough.as_slice() == "in order".as_bytes());
    let over = with_exchanges(alloc, 200, 58)?;
    assert!(rt; over.as_slice() == "7 scheme 2 exchange 57".as_bytes());
    Ok(())
}
