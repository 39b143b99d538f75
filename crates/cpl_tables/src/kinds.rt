/// The formats of a configuration, by the number under its key `format`.
#[derive(Clone, Copy, Debug, PartialEq, Eq)]
pub enum Format {
    One,
    /// It has further keys, listed nowhere else.
    Two,
}

/// The kinds of tables.
///
/// A configuration's own table is `Config`; a case file's own is one of the five `..Case` kinds,
/// by the solver that it names. The others stand in lists or under a key of another table. A kind
/// that has further keys in format 2 holds the format.
#[derive(Clone, Copy, Debug, PartialEq, Eq)]
pub enum TableKind {
    Config(Format),
    Data,
    Mesh,
    Participant(Format),
    Receives,
    Write,
    Read,
    Map(Format),
    Watch,
    Action,
    Scheme,
    Exchange,
    Measure,
    Acceleration,
    RowsCase,
    RodCase,
    SpringCase,
    RecordedCase,
    /// A case file that names no listed solver: the keys of every kind of solver are listed for it.
    AnyCase,
    CaseMesh,
    Line,
    Row,
    Record,
}
