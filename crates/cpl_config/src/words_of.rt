//! What the words of a configuration mean. A word that is not listed means what the last one of
//! the match means: the default of a key that may be left out, and else whatever, since no accepted
//! file has one.
ghost use Rattle.std.specs.Prelude.{◌≡◌};
ghost use Rattle.cpl_config.specs.ConfigOf.{window_method_of, data_kind_of, direction_of, constraint_of, map_method_of, action_kind_of, scheme_kind_of, measure_kind_of, acceleration_kind_of};

use crate::kind_words::{
    AccelWord, ActionWord, Constraint, DataKind, Direction, KindWord, MapWord, MeasureWord,
    WindowWord,
};

pub(crate) fn window_method_of(word: &str) -> WindowWord
    ensures { result ≡ window_method_of word.now }
{
    match word {
        "first-participant" => WindowWord::FirstParticipant,
        _ => WindowWord::Fixed,
    }
}

pub(crate) fn data_kind_of(word: &str) -> DataKind
    ensures { result ≡ data_kind_of word.now }
{
    match word {
        "scalar" => DataKind::Scalar,
        _ => DataKind::Vector,
    }
}

pub(crate) fn direction_of(word: &str) -> Direction
    ensures { result ≡ direction_of word.now }
{
    match word {
        "read" => Direction::Read,
        _ => Direction::Write,
    }
}

pub(crate) fn constraint_of(word: &str) -> Constraint
    ensures { result ≡ constraint_of word.now }
{
    match word {
        "consistent" => Constraint::Consistent,
        _ => Constraint::Conservative,
    }
}

pub(crate) fn map_method_of(word: &str) -> MapWord
    ensures { result ≡ map_method_of word.now }
{
    match word {
        "nearest-projection" => MapWord::NearestProjection,
        _ => MapWord::NearestNeighbor,
    }
}

pub(crate) fn action_kind_of(_word: &str) -> ActionWord
    ensures { result ≡ action_kind_of _word.now }
{
    ActionWord::Summation
}

pub(crate) fn scheme_kind_of(word: &str) -> KindWord
    ensures { result ≡ scheme_kind_of word.now }
{
    match word {
        "serial-explicit" => KindWord::SerialExplicit,
        "parallel-explicit" => KindWord::ParallelExplicit,
        "serial-implicit" => KindWord::SerialImplicit,
        "parallel-implicit" => KindWord::ParallelImplicit,
        _ => KindWord::Multi,
    }
}

pub(crate) fn measure_kind_of(word: &str) -> MeasureWord
    ensures { result ≡ measure_kind_of word.now }
{
    match word {
        "absolute" => MeasureWord::Absolute,
        "relative" => MeasureWord::Relative,
        _ => MeasureWord::ResidualRelative,
    }
}

pub(crate) fn acceleration_kind_of(word: &str) -> AccelWord
    ensures { result ≡ acceleration_kind_of word.now }
{
    match word {
        "constant" => AccelWord::Constant,
        _ => AccelWord::Aitken,
    }
}
