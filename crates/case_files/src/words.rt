//! What the words of a case file mean. A word that is not listed means what the last one here
//! means, since no accepted file has one.
ghost use Rattle.std.specs.Prelude.{◌≡◌};
ghost use Rattle.case_files.specs.CaseOf.{solver_of, read_when_of};

use line_solvers::{ReadWhen, SolverKind};

pub(crate) fn solver_of(word: &str) -> SolverKind
    ensures { result ≡ solver_of word.now }
{
    match word {
        "rows" => SolverKind::Rows,
        "rod" => SolverKind::Rod,
        "spring" => SolverKind::Spring,
        _ => SolverKind::Recorded,
    }
}

pub(crate) fn read_when_of(word: &str) -> ReadWhen
    ensures { result ≡ read_when_of word.now }
{
    match word {
        "start" => ReadWhen::Start,
        _ => ReadWhen::End,
    }
}
