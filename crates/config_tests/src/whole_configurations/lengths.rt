use super::{BASE, told};
use std::alloc::{AllocError, Global};
use std::test::Fail;

/// What is told of a text of format 2 with so many times one item, and so many more of it further
/// on; then the item, and what stands before, between and after. `^` ends a line, `~` is nothing.
const LENGTHS: &str =
    r#"accepted | 0 | 0 | { name = "U", kind = "scalar" }, | data = [ | ]^scheme = [{ kind = "multi" }]^participant = [{ name = "A", case = "a", provides = [] }]^ | ~
8 data 2 | 64 | 0 | { name = "U", kind = "scalar" }, | data = [ | ]^scheme = [{ kind = "multi" }]^participant = [{ name = "A", case = "a", provides = [] }]^ | ~
7 config | 65 | 0 | { name = "U", kind = "scalar" }, | data = [ | ]^scheme = [{ kind = "multi" }]^participant = [{ name = "A", case = "a", provides = [] }]^ | ~
7 config | 0 | 0 | { name = "A", case = "a", provides = [] }, | data = []^participant = [ | ]^scheme = [{ kind = "multi" }]^ | ~
8 participant 2 | 64 | 0 | { name = "A", case = "a", provides = [] }, | data = []^participant = [ | ]^scheme = [{ kind = "multi" }]^ | ~
7 config | 65 | 0 | { name = "A", case = "a", provides = [] }, | data = []^participant = [ | ]^scheme = [{ kind = "multi" }]^ | ~
7 config | 0 | 0 | { kind = "multi" }, | data = []^scheme = [ | ]^participant = [{ name = "A", case = "a", provides = [] }]^ | ~
accepted | 64 | 0 | { kind = "multi" }, | data = []^scheme = [ | ]^participant = [{ name = "A", case = "a", provides = [] }]^ | ~
7 config | 65 | 0 | { kind = "multi" }, | data = []^scheme = [ | ]^participant = [{ name = "A", case = "a", provides = [] }]^ | ~
accepted | 64 | 0 | { mesh = "M", from = "B" }, | data = []^scheme = [{ kind = "multi" }]^participant = [{ name = "A", case = "a", provides = [], receives = [ | ] }]^ | ~
7 participant 1 | 65 | 0 | { mesh = "M", from = "B" }, | data = []^scheme = [{ kind = "multi" }]^participant = [{ name = "A", case = "a", provides = [], receives = [ | ] }]^ | ~
accepted | 16 | 0 | { kind = "absolute", data = "U", limit = 1 }, | data = []^scheme = [{ kind = "multi", measure = [ | ] }]^participant = [{ name = "A", case = "a", provides = [] }]^ | ~
7 scheme 1 | 17 | 0 | { kind = "absolute", data = "U", limit = 1 }, | data = []^scheme = [{ kind = "multi", measure = [ | ] }]^participant = [{ name = "A", case = "a", provides = [] }]^ | ~
6 participant 1 | 17 | 0 | { kind = "absolute", data = "U", limit = 1 }, | data = []^scheme = [{ kind = "multi", measure = [ | ] }]^participant = [{ name = "A B", case = "a", provides = [] }]^ | ~
accepted | 64 | 0 | { kind = "summation", mesh = "M", sources = [], target = "U" }, | data = []^scheme = [{ kind = "multi" }]^participant = [{ name = "A", case = "a", provides = [], action = [ | ] }]^ | ~
7 participant 1 | 65 | 0 | { kind = "summation", mesh = "M", sources = [], target = "U" }, | data = []^scheme = [{ kind = "multi" }]^participant = [{ name = "A", case = "a", provides = [], action = [ | ] }]^ | ~
accepted | 1 | 0 | "U", | data = []^scheme = [{ kind = "multi" }]^participant = [{ name = "A", case = "a", provides = [], action = [{ kind = "summation", mesh = "M", target = "V", sources = [ | ] }] }]^ | ~
8 participant 1 action 1 | 64 | 0 | "U", | data = []^scheme = [{ kind = "multi" }]^participant = [{ name = "A", case = "a", provides = [], action = [{ kind = "summation", mesh = "M", target = "V", sources = [ | ] }] }]^ | ~
7 participant 1 action 1 | 65 | 0 | "U", | data = []^scheme = [{ kind = "multi" }]^participant = [{ name = "A", case = "a", provides = [], action = [{ kind = "summation", mesh = "M", target = "V", sources = [ | ] }] }]^ | ~
6 participant 1 action 1 | 65 | 0 | "U", | data = []^scheme = [{ kind = "multi" }]^participant = [{ name = "A", case = "a", provides = [], action = [{ kind = "summation", mesh = "M", target = "V", sources = ["", | ] }] }]^ | ~
accepted | 200 | 56 | { data = "U", mesh = "M", from = "A", to = "B" }, | data = []^participant = [{ name = "A", case = "a", provides = [] }]^scheme = [{ kind = "multi", exchange = [ | ] }, { kind = "multi", exchange = [ | ] }]^
7 scheme 2 exchange 57 | 200 | 57 | { data = "U", mesh = "M", from = "A", to = "B" }, | data = []^participant = [{ name = "A", case = "a", provides = [] }]^scheme = [{ kind = "multi", exchange = [ | ] }, { kind = "multi", exchange = [ | ] }]^
7 scheme 1 exchange 257 | 258 | 1 | { data = "U", mesh = "M", from = "A", to = "B" }, | data = []^participant = [{ name = "A", case = "a", provides = [] }]^scheme = [{ kind = "multi", exchange = [ | ] }, { kind = "multi", exchange = [ | ] }]^
accepted | 1 | 0 | { name = "P", mesh = "M", at = [0, 0] }, | data = []^scheme = [{ kind = "multi" }]^participant = [{ name = "A", case = "a", provides = [], watch = [ | ] }, { name = "B", case = "b", provides = [], watch = [ | ] }]^
8 participant 1 watch 2 | 40 | 24 | { name = "P", mesh = "M", at = [0, 0] }, | data = []^scheme = [{ kind = "multi" }]^participant = [{ name = "A", case = "a", provides = [], watch = [ | ] }, { name = "B", case = "b", provides = [], watch = [ | ] }]^
7 participant 2 watch 25 | 40 | 25 | { name = "P", mesh = "M", at = [0, 0] }, | data = []^scheme = [{ kind = "multi" }]^participant = [{ name = "A", case = "a", provides = [], watch = [ | ] }, { name = "B", case = "b", provides = [], watch = [ | ] }]^
8 participant 2 watch 1 | 1 | 1 | { name = "P", mesh = "M", at = [0, 0] }, | data = []^scheme = [{ kind = "multi" }]^participant = [{ name = "A", case = "a", provides = [], watch = [ | ] }, { name = "B", case = "b", provides = [], watch = [ | ] }]^"#;

/// A part of a line as text.
fn text_of(alloc: Global, part: Option<&str>) -> Result<String, Fail> {
    let part = part.ok_or("a part is missing")?;
    let lines = part.replace(alloc, "^", "\n")?;
    Ok(lines.as_str().replace(alloc, "~", "")?)
}

/// The item so many times.
fn times(alloc: Global, item: &str, count: Option<&str>) -> Result<String, Fail> {
    let count: u16 = count.ok_or("a count is missing")?.parse()?;
    Ok(item.repeat(alloc, usize::from(count))?)
}

#[test]
fn lengths_of_lists(rt: HostRuntime) -> Result<(), Fail> {
    let alloc = rt.alloc();
    for line in LENGTHS.lines() {
        let mut parts = line.split(" | ");
        let wanted = parts.next().ok_or("no line")?;
        let (first, second) = (parts.next(), parts.next());
        let item = text_of(alloc, parts.next())?;
        let before = text_of(alloc, parts.next())?;
        let between = text_of(alloc, parts.next())?;
        let after = text_of(alloc, parts.next())?;
        let one = times(alloc, item.as_str(), first)?;
        let other = times(alloc, item.as_str(), second)?;
        let text = format!(in alloc;
            "format = 2\nwindow = 1\nmesh = []\n{before}{one}{between}{other}{after}"
        )?;
        let answer = told(alloc, text.as_bytes())?;
        assert!(rt; answer.as_slice() == wanted.as_bytes(), "{line}");
    }
    Ok(())
}

/// The base configuration, and as many bytes more as make so many.
fn padded(alloc: Global, size: usize) -> Result<String, AllocError> {
    let mut text = String::from_str(alloc, BASE)?;
    for _ in text.len()..size {
        text.push_str("#")?;
    }
    Ok(text)
}

#[test]
fn a_file_of_a_mebibyte(rt: HostRuntime) -> Result<(), Fail> {
    let alloc = rt.alloc();
    let full = padded(alloc, 1_048_576)?;
    assert!(rt; told(alloc, full.as_bytes())?.as_slice() == "accepted".as_bytes());
    let long = padded(alloc, 1_048_577)?;
    assert!(rt; told(alloc, long.as_bytes())?.as_slice() == "1 config".as_bytes());
    let bytes = vec![in alloc; 255; 1_048_577]?;
    assert!(rt; told(alloc, &bytes)?.as_slice() == "1 config".as_bytes());
    assert!(rt; told(alloc, &bytes[1..])?.as_slice() == "2 config".as_bytes());
    Ok(())
}
