ghost use Rattle.std.specs.Prelude.{◌≡◌, map};
ghost use Rattle.cpl_tables.specs.KeyRule.{rule_of_key};
ghost use Rattle.cpl_tables.specs.Keys.{keys_of};

use crate::kinds::{Format, TableKind};
use crate::shapes::{Key, Limit, Presence, Range, Shape};
use crate::word_lists::WordList;

macro_rules! required {
    ($name:literal, $shape:expr) => {
        Key {
            name: $name,
            presence: Presence::Required,
            shape: $shape,
        }
    };
}

macro_rules! optional {
    ($name:literal, $shape:expr) => {
        Key {
            name: $name,
            presence: Presence::Optional,
            shape: $shape,
        }
    };
}

/// A number of at most a thousand in absolute value.
macro_rules! coefficient {
    ($name:literal) => {
        optional!($name, Shape::Number(Range::Within(1_000_000_000)))
    };
}

/// The keys of a configuration in a format, and those that are listed there alone.
macro_rules! config_keys {
    ($format:expr; $($further:expr),*) => {
        [
            required!("format", Shape::Integer(Range::Between(1, 2))),
            required!("window", Shape::Integer(Range::Between(1, 1_000_000_000))),
            optional!(
                "max-time",
                Shape::Integer(Range::Between(1, 1_000_000_000_000_000))
            ),
            optional!("max-windows", Shape::Integer(Range::Between(1, 1_000_000))),
            required!("data", Shape::Tables(TableKind::Data, Limit::Items(0, 64))),
            required!("mesh", Shape::Tables(TableKind::Mesh, Limit::Items(0, 64))),
            required!(
                "participant",
                Shape::Tables(TableKind::Participant($format), Limit::Items(1, 64))
            ),
            required!(
                "scheme",
                Shape::Tables(TableKind::Scheme, Limit::Items(1, 64))
            ),
            $($further),*
        ]
    };
}

static CONFIG: [Key; 8] = config_keys!(Format::One;);

static CONFIG_TWO: [Key; 9] = config_keys!(
    Format::Two;
    optional!("window-method", Shape::Word(WordList::WindowMethod))
);

static DATA: [Key; 3] = [
    required!("name", Shape::Name),
    required!("kind", Shape::Word(WordList::DataKind)),
    optional!("degree", Shape::Integer(Range::Between(0, 1))),
];

static MESH: [Key; 3] = [
    required!("name", Shape::Name),
    required!("dimensions", Shape::Integer(Range::Between(2, 3))),
    required!("data", Shape::Names(Limit::Any)),
];

/// The keys of a participant in a format, and those that are listed there alone.
macro_rules! participant_keys {
    ($format:expr; $($further:expr),*) => {
        [
            required!("name", Shape::Name),
            required!("case", Shape::Text),
            required!("provides", Shape::Names(Limit::Any)),
            optional!(
                "receives",
                Shape::Tables(TableKind::Receives, Limit::Items(0, 64))
            ),
            optional!(
                "write",
                Shape::Tables(TableKind::Write, Limit::Items(0, 64))
            ),
            optional!("read", Shape::Tables(TableKind::Read, Limit::Items(0, 64))),
            optional!(
                "map",
                Shape::Tables(TableKind::Map($format), Limit::Items(0, 64))
            ),
            optional!("watch", Shape::Tables(TableKind::Watch, Limit::Any)),
            $($further),*
        ]
    };
}

static PARTICIPANT: [Key; 8] = participant_keys!(Format::One;);

static PARTICIPANT_TWO: [Key; 9] = participant_keys!(
    Format::Two;
    optional!(
        "action",
        Shape::Tables(TableKind::Action, Limit::Items(0, 64))
    )
);

static RECEIVES: [Key; 2] = [
    required!("mesh", Shape::Name),
    required!("from", Shape::Name),
];

static WRITE: [Key; 2] = [
    required!("data", Shape::Name),
    required!("mesh", Shape::Name),
];

static READ: [Key; 2] = [
    required!("data", Shape::Name),
    required!("mesh", Shape::Name),
];

/// The keys of a mapping, and those that are listed in a format alone.
macro_rules! map_keys {
    ($($further:expr),*) => {
        [
            required!("direction", Shape::Word(WordList::Direction)),
            required!("from", Shape::Name),
            required!("to", Shape::Name),
            required!("constraint", Shape::Word(WordList::Constraint)),
            $($further),*
        ]
    };
}

static MAP: [Key; 4] = map_keys!();

static MAP_TWO: [Key; 5] = map_keys!(optional!("method", Shape::Word(WordList::MapMethod)));

static WATCH: [Key; 3] = [
    required!("name", Shape::Name),
    required!("mesh", Shape::Name),
    required!(
        "at",
        Shape::Numbers(Limit::Any, Range::Within(1_000_000_000_000))
    ),
];

static ACTION: [Key; 4] = [
    required!("kind", Shape::Word(WordList::ActionKind)),
    required!("mesh", Shape::Name),
    required!("sources", Shape::Names(Limit::Items(0, 64))),
    required!("target", Shape::Name),
];

static SCHEME: [Key; 10] = [
    required!("kind", Shape::Word(WordList::SchemeKind)),
    optional!("first", Shape::Name),
    optional!("second", Shape::Name),
    optional!("control", Shape::Name),
    optional!("members", Shape::Names(Limit::Any)),
    optional!("exchange", Shape::Tables(TableKind::Exchange, Limit::Any)),
    optional!("max-iterations", Shape::Integer(Range::Between(1, 1_000))),
    optional!("min-iterations", Shape::Integer(Range::Between(1, 1_000))),
    optional!(
        "measure",
        Shape::Tables(TableKind::Measure, Limit::Items(0, 16))
    ),
    optional!("acceleration", Shape::Table(TableKind::Acceleration)),
];

static EXCHANGE: [Key; 6] = [
    required!("data", Shape::Name),
    required!("mesh", Shape::Name),
    required!("from", Shape::Name),
    required!("to", Shape::Name),
    optional!("initialize", Shape::Boolean),
    optional!("substeps", Shape::Boolean),
];

static MEASURE: [Key; 5] = [
    required!("kind", Shape::Word(WordList::MeasureKind)),
    required!("data", Shape::Name),
    required!(
        "limit",
        Shape::Number(Range::Between(0, 10_000_000_000_000))
    ),
    optional!("suffices", Shape::Boolean),
    optional!("strict", Shape::Boolean),
];

static ACCELERATION: [Key; 3] = [
    required!("kind", Shape::Word(WordList::AccelerationKind)),
    required!("factor", Shape::Number(Range::Between(1, 1_000_000))),
    required!("data", Shape::Names(Limit::Any)),
];

/// The keys of every case file, and those of some kinds of solvers.
macro_rules! case_keys {
    ($($own:expr),*) => {
        [
            required!("solver", Shape::Word(WordList::Solver)),
            required!("step", Shape::Integer(Range::Between(1, 1_000_000_000))),
            optional!("read", Shape::Word(WordList::ReadWhen)),
            optional!(
                "state",
                Shape::Numbers(Limit::Items(1, 60_000), Range::Within(10_000_000_000_000))
            ),
            optional!("fill", Shape::Number(Range::Within(10_000_000_000_000))),
            optional!("count", Shape::Integer(Range::Between(1, 60_000))),
            optional!(
                "forbid",
                Shape::Number(Range::Between(1, 10_000_000_000_000))
            ),
            required!("mesh", Shape::Tables(TableKind::CaseMesh, Limit::Any)),
            $($own),*
        ]
    };
}

static ROWS_CASE: [Key; 10] = case_keys!(
    optional!("out", Shape::Integers),
    required!("row", Shape::Tables(TableKind::Row, Limit::Any))
);

static ROD_CASE: [Key; 11] = case_keys!(
    optional!("out", Shape::Integers),
    coefficient!("alpha"),
    coefficient!("beta")
);

static SPRING_CASE: [Key; 13] = case_keys!(
    optional!("out", Shape::Integers),
    coefficient!("stiff"),
    coefficient!("damp"),
    coefficient!("gain"),
    coefficient!("rate")
);

static RECORDED_CASE: [Key; 9] = case_keys!(required!(
    "record",
    Shape::Tables(TableKind::Record, Limit::Items(0, 10_000))
));

static ANY_CASE: [Key; 17] = case_keys!(
    optional!("out", Shape::Integers),
    optional!("row", Shape::Tables(TableKind::Row, Limit::Any)),
    coefficient!("alpha"),
    coefficient!("beta"),
    coefficient!("stiff"),
    coefficient!("damp"),
    coefficient!("gain"),
    coefficient!("rate"),
    optional!(
        "record",
        Shape::Tables(TableKind::Record, Limit::Items(0, 10_000))
    )
);

static CASE_MESH: [Key; 3] = [
    required!("name", Shape::Name),
    optional!(
        "points",
        Shape::Points(Limit::Items(0, 10_000), Range::Within(1_000_000_000_000))
    ),
    optional!("line", Shape::Table(TableKind::Line)),
];

static LINE: [Key; 3] = [
    required!(
        "from",
        Shape::Numbers(Limit::Any, Range::Within(1_000_000_000_000))
    ),
    required!(
        "to",
        Shape::Numbers(Limit::Any, Range::Within(1_000_000_000_000))
    ),
    required!("count", Shape::Integer(Range::Between(1, 10_000))),
];

static ROW: [Key; 3] = [
    optional!("add", Shape::Number(Range::Within(10_000_000_000_000))),
    optional!(
        "states",
        Shape::Pairs(Limit::Items(0, 64), Range::Within(1_000_000_000))
    ),
    optional!(
        "reads",
        Shape::Pairs(Limit::Items(0, 64), Range::Within(1_000_000_000))
    ),
];

static RECORD: [Key; 2] = [
    required!("dt", Shape::Integer(Range::Between(1, 1_000_000_000))),
    required!(
        "writes",
        Shape::Numbers(Limit::Any, Range::Within(10_000_000_000_000))
    ),
];

/// The keys that are listed for a kind of table, in the order in which the tables under them are
/// looked at.
pub fn keys(kind: TableKind) -> &'static [Key]
    ensures { map rule_of_key result.now ≡ keys_of kind }
{
    match kind {
        TableKind::Config(Format::One) => &CONFIG,
        TableKind::Config(Format::Two) => &CONFIG_TWO,
        TableKind::Data => &DATA,
        TableKind::Mesh => &MESH,
        TableKind::Participant(Format::One) => &PARTICIPANT,
        TableKind::Participant(Format::Two) => &PARTICIPANT_TWO,
        TableKind::Receives => &RECEIVES,
        TableKind::Write => &WRITE,
        TableKind::Read => &READ,
        TableKind::Map(Format::One) => &MAP,
        TableKind::Map(Format::Two) => &MAP_TWO,
        TableKind::Watch => &WATCH,
        TableKind::Action => &ACTION,
        TableKind::Scheme => &SCHEME,
        TableKind::Exchange => &EXCHANGE,
        TableKind::Measure => &MEASURE,
        TableKind::Acceleration => &ACCELERATION,
        TableKind::RowsCase => &ROWS_CASE,
        TableKind::RodCase => &ROD_CASE,
        TableKind::SpringCase => &SPRING_CASE,
        TableKind::RecordedCase => &RECORDED_CASE,
        TableKind::AnyCase => &ANY_CASE,
        TableKind::CaseMesh => &CASE_MESH,
        TableKind::Line => &LINE,
        TableKind::Row => &ROW,
        TableKind::Record => &RECORD,
    }
}
