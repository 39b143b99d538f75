use super::{RECORDED, ROD, ROWS, SPRING};
use case_files::read_case;
use std::alloc::{AllocError, Global};
use std::fmt::Debug;
use std::test::Fail;

/// How a value is shown, without the types that hold texts and lists.
fn shown<T: Debug>(alloc: Global, value: &T) -> Result<String, AllocError> {
    let text = format!(in alloc; "{value:?}")?;
    let text = text.replace(alloc, "Name { text: ", "")?;
    let text = text.replace(alloc, "\" }", "\"")?;
    let text = text.replace(alloc, "Items { items: ", "")?;
    text.replace(alloc, "] }", "]")
}

const ROWS_SHOWN: &str =
    r#"CaseFile { solver: Rows, step: 10, read: End, state: Some([0, 1000000]), fill: None, count: None, out: None, forbid: None, mesh: [CaseMesh { name: "MA", points: Some([[0, 0], [1000000, -500000]]), line: None }], row: Some([RowParts { add: 1500000, states: [], reads: [Pair { index: 0, number: 1000000 }] }, RowParts { add: 0, states: [Pair { index: 0, number: -500000 }, Pair { index: 1, number: 2000000 }], reads: [] }]), records: None, alpha: 0, beta: 0, stiff: 0, damp: 0, gain: 0, rate: 0 }"#;

const ROD_SHOWN: &str =
    r#"CaseFile { solver: Rod, step: 1000000000, read: End, state: None, fill: Some(20000000), count: Some(60000), out: None, forbid: None, mesh: [CaseMesh { name: "Wall", points: None, line: Some(LinePoints { from: [0, 0], to: [1000000, 2000000], count: 10000 }) }], row: None, records: None, alpha: 1000, beta: 1000000000, stiff: 0, damp: 0, gain: 0, rate: 0 }"#;

const SPRING_SHOWN: &str =
    r#"CaseFile { solver: Spring, step: 1, read: Start, state: Some([10000000000000, -10000000000000]), fill: None, count: None, out: Some([1, 0, -3]), forbid: Some(1), mesh: [CaseMesh { name: "M1", points: Some([[1000000000000, -1000000000000]]), line: None }, CaseMesh { name: "M2", points: None, line: None }, CaseMesh { name: "M3", points: Some([]), line: Some(LinePoints { from: [], to: [1000000], count: 1 }) }], row: None, records: None, alpha: 0, beta: 0, stiff: 1000000000, damp: -1000000000, gain: 3000000, rate: 250000 }"#;

const RECORDED_SHOWN: &str =
    r#"CaseFile { solver: Recorded, step: 10, read: End, state: Some([0, 0]), fill: None, count: None, out: None, forbid: None, mesh: [], row: None, records: Some([RecordEntry { dt: 5, writes: [2000000] }, RecordEntry { dt: 1000000000, writes: [-10000000000000] }]), alpha: 0, beta: 0, stiff: 0, damp: 0, gain: 0, rate: 0 }"#;

#[test]
fn each_key_of_each_kind(rt: HostRuntime) -> Result<(), Fail> {
    let alloc = rt.alloc();
    let cases = [
        (ROWS, ROWS_SHOWN),
        (ROD, ROD_SHOWN),
        (SPRING, SPRING_SHOWN),
        (RECORDED, RECORDED_SHOWN),
    ];
    for (text, wanted) in cases {
        let case_file = read_case(alloc, 0, text.as_bytes())?;
        assert_eq!(rt; shown(alloc, &case_file)?.as_str(), wanted);
    }
    Ok(())
}

/// The same as the case file of rows, with its lists written inline.
const INLINE: &str =
    r#"row = [{ add = "1.5", reads = [[0, 1]] }, { states = [[0, "-0.5"], [1, "2.0"]] }]
mesh = [{ name = "MA", points = [[0, 0], [1, "-0.50"]] }]
state = ["0.000000", "1"]
read = "end"
step = 10
solver = "rows"
"#;

#[test]
fn lists_of_tables_written_inline(rt: HostRuntime) -> Result<(), Fail> {
    let alloc = rt.alloc();
    let case_file = read_case(alloc, 0, INLINE.as_bytes())?;
    assert_eq!(rt; shown(alloc, &case_file)?.as_str(), ROWS_SHOWN);
    Ok(())
}
