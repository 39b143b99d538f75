use fixed_num::{Items, Name};
use line_solvers::{ReadWhen, RecordEntry, RowParts, SolverKind};

/// A participant's case file, as it means it.
///
/// A key that may be left out and has a constant default holds it; one whose absence matters, or
/// that one kind of solver alone has to have, is None where it is absent. Numbers are in units
/// (millionths), times in ticks.
#[derive(Debug, Drop)]
pub struct CaseFile {
    pub solver: SolverKind,
    /// The longest step, in ticks, from 1 to 10^9.
    pub step: i64,
    /// Whether a step reads its inputs at its end or at its start; at its end where it is left out.
    pub read: ReadWhen,
    /// The first state, 1 to 60,000 values in units.
    pub state: Option<Items<i64>>,
    /// In place of `state`: the value of each component, in units,
    pub fill: Option<i64>,
    /// and how many components there are, from 1 to 60,000.
    pub count: Option<i64>,
    /// Which components of the state are written, by index from 0; None for a recorded participant.
    pub out: Option<Items<i64>>,
    /// The absolute value from which on a component faults its step, in units.
    pub forbid: Option<i64>,
    pub mesh: Items<CaseMesh>,
    /// A row for each component; of the rows solver alone.
    pub row: Option<Items<RowParts>>,
    /// At most 10,000 records, in the order of the steps; of a recorded participant alone.
    pub records: Option<Items<RecordEntry>>,
    /// The coefficients of a rod, in units; zero where they are left out.
    pub alpha: i64,
    pub beta: i64,
    /// The coefficients of a spring, in units; zero where they are left out.
    pub stiff: i64,
    pub damp: i64,
    pub gain: i64,
    pub rate: i64,
}

/// The points of a mesh that the participant provides: a list, or a line.
#[derive(Debug, Drop)]
pub struct CaseMesh {
    pub name: Name,
    /// The coordinates of each vertex, in units; at most 10,000 vertices.
    pub points: Option<Items<Items<i64>>>,
    pub line: Option<LinePoints>,
}

/// So many vertices, evenly on a line from one point to another, both included.
#[derive(Debug, Drop)]
pub struct LinePoints {
    /// Coordinates, in units.
    pub from: Items<i64>,
    /// Coordinates, in units.
    pub to: Items<i64>,
    /// From 1 to 10,000.
    pub count: i64,
}
