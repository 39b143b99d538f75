use cpl_tables::{
    Format, Limit, Place, Range, Shape, TableKind, WordList, has_length, has_no_repeat, has_type,
    is_spelled, keys, number_at, number_of, print_place, word_at, words,
};
use std::alloc::Global;
use std::test::Fail;
use toml::Value;

const NAME: Shape = Shape::Name;

const FACTOR: Shape = Shape::Number(Range::Between(1, 1_000_000));

const NUMBERS: Shape = Shape::Numbers(Limit::Items(1, 2), Range::Within(2_000_000));

const PAIRS: Shape = Shape::Pairs(Limit::Items(0, 1), Range::Within(2_000_000));

const POINTS: Shape = Shape::Points(Limit::Any, Range::Within(2_000_000));

/// Whether a value passes each of the four tests of a shape, one after the other, up to the first
/// that it does not pass.
fn passed(alloc: Global, shape: Shape, text: &str) -> Result<usize, Fail> {
    let value = Value::from_str(alloc, text)?;
    if !has_type(shape, &value) {
        return Ok(0);
    }
    if !is_spelled(shape, &value) {
        return Ok(1);
    }
    if !has_length(shape, &value) {
        return Ok(2);
    }
    if !has_no_repeat(alloc, shape, &value)? {
        return Ok(3);
    }
    Ok(4)
}

/// A shape, a value, and how many of the four tests it passes.
static VALUES: [(Shape, &str, usize); 51] = [
    (NAME, r#""A!~z""#, 4),
    (NAME, r#""""#, 1),
    (NAME, r#""a b""#, 1),
    (NAME, r#""a\u007F""#, 1),
    (NAME, r#""é""#, 1),
    (NAME, "7", 0),
    (Shape::Text, r#""a b.toml""#, 4),
    (Shape::Text, r#""""#, 1),
    (Shape::Word(WordList::SchemeKind), r#""multi""#, 4),
    (Shape::Word(WordList::SchemeKind), r#""Multi""#, 0),
    (Shape::Word(WordList::Direction), "true", 0),
    (Shape::Boolean, "true", 4),
    (Shape::Boolean, "1", 0),
    (Shape::Integer(Range::Between(1, 9)), "9", 4),
    (Shape::Integer(Range::Between(1, 9)), "10", 1),
    (Shape::Integer(Range::Between(0, 9)), "-1", 1),
    (Shape::Integer(Range::Between(1, 9)), "1.0", 0),
    (FACTOR, "1", 4),
    (FACTOR, r#""0.000001""#, 4),
    (FACTOR, r#""1.000001""#, 1),
    (FACTOR, "0", 1),
    (FACTOR, r#""one""#, 1),
    (FACTOR, "0.5", 0),
    (Shape::Names(Limit::Any), r#"["A", "B"]"#, 4),
    (Shape::Names(Limit::Any), "[]", 4),
    (Shape::Names(Limit::Any), r#"["A", "B", "A"]"#, 3),
    (Shape::Names(Limit::Any), r#"["A", ""]"#, 1),
    (Shape::Names(Limit::Any), r#"["A", 1]"#, 0),
    (Shape::Names(Limit::Any), r#""A""#, 0),
    (Shape::Integers, "[0, -3]", 4),
    (Shape::Integers, r#"["0"]"#, 0),
    (NUMBERS, r#"["-2", 2]"#, 4),
    (NUMBERS, r#"["2.000001"]"#, 1),
    (NUMBERS, "[]", 2),
    (NUMBERS, "[1, 1, 1]", 2),
    (NUMBERS, "[1.5]", 0),
    (POINTS, r#"[["1", 2], []]"#, 4),
    (POINTS, r#"[["1"], 2]"#, 0),
    (POINTS, "[[3]]", 1),
    (PAIRS, r#"[[-1, "2"]]"#, 4),
    (PAIRS, r#"[[0, "1"], [1, "1"]]"#, 2),
    (PAIRS, "[[0, 3]]", 1),
    (PAIRS, r#"[["0", "1"]]"#, 0),
    (PAIRS, "[[0, 1, 2]]", 0),
    (PAIRS, "[[0]]", 0),
    (
        Shape::Tables(TableKind::Mesh, Limit::Items(1, 2)),
        "[{}, {}]",
        4,
    ),
    (Shape::Tables(TableKind::Mesh, Limit::Items(1, 2)), "[]", 2),
    (
        Shape::Tables(TableKind::Mesh, Limit::Items(1, 2)),
        "[{}, 0]",
        0,
    ),
    (Shape::Tables(TableKind::Mesh, Limit::Items(1, 2)), "{}", 0),
    (Shape::Table(TableKind::Line), "{}", 4),
    (Shape::Table(TableKind::Line), "[{}]", 0),
];

#[test]
fn judges_values(rt: HostRuntime) -> Result<(), Fail> {
    let alloc = rt.alloc();
    for (shape, text, want) in &VALUES {
        assert!(rt; passed(alloc, *shape, text)? == *want, "at {text}");
    }
    Ok(())
}

#[test]
fn measures_names(rt: HostRuntime) -> Result<(), Fail> {
    let alloc = rt.alloc();
    for (length, want) in [(64, 4), (65, 1)] {
        let text = format!(in alloc; "\"{}\"", "n".repeat(alloc, length)?)?;
        assert_eq!(rt; passed(alloc, NAME, text.as_str())?, want);
    }
    for (length, want) in [(256, 4), (257, 1)] {
        let text = format!(in alloc; "\"{}\"", "t".repeat(alloc, length)?)?;
        assert_eq!(rt; passed(alloc, Shape::Text, text.as_str())?, want);
    }
    Ok(())
}

#[test]
fn reads_numbers(rt: HostRuntime) -> Result<(), Fail> {
    let cases = [
        ("10000000", Some(10_000_000_000_000)),
        ("10000001", None),
        ("-10000000", Some(-10_000_000_000_000)),
        (r#""-0.5""#, Some(-500_000)),
        (r#""0.1234567""#, None),
        ("0.5", None),
    ];
    for (text, want) in cases {
        let value = Value::from_str(rt.alloc(), text)?;
        assert!(rt; number_of(&value) == want, "at {text}");
    }
    Ok(())
}

#[test]
fn lists_words_and_keys(rt: HostRuntime) {
    assert!(rt; word_at(WordList::Solver, "spring") == Some(2));
    assert!(rt; word_at(WordList::Solver, "springs").is_none());
    assert!(rt; words(WordList::ReadWhen).len() == 2);
    let counts = [
        (TableKind::Config(Format::One), 8),
        (TableKind::Scheme, 10),
        (TableKind::RowsCase, 10),
        (TableKind::RodCase, 11),
        (TableKind::SpringCase, 13),
        (TableKind::AnyCase, 17),
    ];
    for (kind, want) in counts {
        assert!(rt; keys(kind).len() == want);
    }
}

#[test]
fn prints_places(rt: HostRuntime) -> Result<(), Fail> {
    let alloc = rt.alloc();
    let scheme = Place::Config.place_in(TableKind::Scheme, number_at(1));
    let part = Place::Config.place_in(TableKind::Participant(Format::One), 10);
    let cases = [
        (Place::Config, "config"),
        (
            Place::Config.place_in(TableKind::Data, number_at(0)),
            "data 1",
        ),
        (Place::MeshTable(2), "mesh 2"),
        (part, "participant 10"),
        (
            part.place_in(TableKind::Receives, 1),
            "participant 10 receives 1",
        ),
        (part.place_in(TableKind::Write, 2), "participant 10 write 2"),
        (part.place_in(TableKind::Read, 3), "participant 10 read 3"),
        (
            part.place_in(TableKind::Map(Format::Two), 4),
            "participant 10 map 4",
        ),
        (part.place_in(TableKind::Watch, 5), "participant 10 watch 5"),
        (
            part.place_in(TableKind::Action, 6),
            "participant 10 action 6",
        ),
        (scheme, "scheme 2"),
        (
            scheme.place_in(TableKind::Exchange, 1),
            "scheme 2 exchange 1",
        ),
        (scheme.place_in(TableKind::Measure, 2), "scheme 2 measure 2"),
        (
            scheme.place_in(TableKind::Acceleration, 1),
            "scheme 2 acceleration",
        ),
        (
            Place::Case(3).place_in(TableKind::CaseMesh, 7),
            "case Fluid",
        ),
    ];
    for (place, want) in cases {
        let mut text = Vec::new(alloc);
        print_place(alloc, place, "Fluid", &mut text)?;
        assert!(rt; text.as_slice() == want.as_bytes(), "at {want}");
    }
    Ok(())
}
