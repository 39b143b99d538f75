ghost use Rattle.std.specs.Prelude.{◌≡◌, map, position, is_some};
ghost use Rattle.std.specs.Str.{bytes_eq};
ghost use Rattle.cpl_tables.specs.Values.{is_word};
ghost use Rattle.cpl_tables.specs.Words.{words_of};

/// The keys whose value is one of a few words.
#[derive(Clone, Copy, Debug, PartialEq, Eq)]
pub enum WordList {
    WindowMethod,
    DataKind,
    Direction,
    Constraint,
    MapMethod,
    ActionKind,
    SchemeKind,
    MeasureKind,
    AccelerationKind,
    Solver,
    ReadWhen,
}

static WINDOW_METHODS: [&str; 2] = ["fixed", "first-participant"];

static DATA_KINDS: [&str; 2] = ["scalar", "vector"];

static DIRECTIONS: [&str; 2] = ["read", "write"];

static CONSTRAINTS: [&str; 2] = ["consistent", "conservative"];

static MAP_METHODS: [&str; 2] = ["nearest-neighbor", "nearest-projection"];

static ACTION_KINDS: [&str; 1] = ["summation"];

static SCHEME_KINDS: [&str; 5] = [
    "serial-explicit",
    "parallel-explicit",
    "serial-implicit",
    "parallel-implicit",
    "multi",
];

static MEASURE_KINDS: [&str; 3] = ["absolute", "relative", "residual-relative"];

static ACCELERATION_KINDS: [&str; 2] = ["constant", "aitken"];

static SOLVERS: [&str; 4] = ["rows", "rod", "spring", "recorded"];

static READ_TIMES: [&str; 2] = ["end", "start"];

/// The words that are listed.
pub fn words(list: WordList) -> &'static [&'static str]
    ensures { map (λ w. w.now) result.now ≡ words_of list }
{
    match list {
        WordList::WindowMethod => &WINDOW_METHODS,
        WordList::DataKind => &DATA_KINDS,
        WordList::Direction => &DIRECTIONS,
        WordList::Constraint => &CONSTRAINTS,
        WordList::MapMethod => &MAP_METHODS,
        WordList::ActionKind => &ACTION_KINDS,
        WordList::SchemeKind => &SCHEME_KINDS,
        WordList::MeasureKind => &MEASURE_KINDS,
        WordList::AccelerationKind => &ACCELERATION_KINDS,
        WordList::Solver => &SOLVERS,
        WordList::ReadWhen => &READ_TIMES,
    }
}

/// The place of a text in a list of words, from 0; none where it is no word of the list.
pub fn word_at(list: WordList, text: &str) -> Option<usize>
    ensures place { result ≡ position (bytes_eq text.now) (words_of list) }
    ensures known { is_some result ≡ is_word list text.now }
{
    words(list).iter().position(|word| text == *word)
}

/// Whether a text is a word of the list.
pub fn is_word(list: WordList, text: &str) -> bool
    ensures { result ≡ is_word list text.now }
{
    words(list).iter().any(|word| text == *word)
}
