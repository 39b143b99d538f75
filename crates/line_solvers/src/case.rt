ghost use Rattle.std.specs.Prelude.{◌≡◌, [], unwrap_or};

use fixed_num::{CopyIn, Items, Memory};
use std::alloc::Global;

/// The kinds of solvers.
#[derive(Clone, Copy, Debug, PartialEq, Eq)]
pub enum SolverKind {
    /// Each new component is a rounded sum of weighted components and inputs.
    Rows,
    /// Each component is drawn to its two neighbours, and to what it reads.
    Rod,
    /// Positions and velocities: each velocity is drawn by the position's neighbours, damped, and
    /// pushed by what it reads.
    Spring,
    /// Each step uses the next record of a list; component 0 counts them.
    Recorded,
}

/// When a step reads its inputs.
#[derive(Clone, Copy, Debug, PartialEq, Eq)]
pub enum ReadWhen {
    End,
    Start,
}

/// One term of a row: which component or input, from 0, and its coefficient in units.
#[derive(Clone, Copy, Debug, PartialEq, Eq)]
pub struct Pair {
    pub index: i64,
    pub number: i64,
}

/// How a component comes from the state before the step and from the inputs: `add`, in units, and
/// the weighted sums over `states` and `reads`, each of at most 64 pairs.
#[derive(Debug, Drop)]
pub struct RowParts {
    pub add: i64,
    pub states: Items<Pair>,
    pub reads: Items<Pair>,
}

/// The coefficients of a rod, in units a tick: of the neighbours, and of the inputs.
#[derive(Clone, Copy, Debug, PartialEq, Eq)]
pub struct RodNumbers {
    pub alpha: i64,
    pub beta: i64,
}

/// The coefficients of a spring, in units a tick: of the neighbours, the velocity and the inputs in
/// a new velocity, and of the new velocity in a new position.
#[derive(Clone, Copy, Debug, PartialEq, Eq)]
pub struct SpringNumbers {
    pub stiff: i64,
    pub damp: i64,
    pub gain: i64,
    pub rate: i64,
}

/// A step of a recorded participant: its ticks, 1 to 10^9, and what is written after it, in units.
#[derive(Debug, Drop)]
pub struct RecordEntry {
    pub dt: i64,
    pub writes: Items<i64>,
}

/// What a case file says of a solver. A key that is for another kind of solver plays no part.
#[derive(Debug, Drop)]
pub struct CaseParts {
    pub solver: SolverKind,
    /// The longest step, in ticks: 1 to 10^9.
    pub step: i64,
    pub read: ReadWhen,
    /// The first state, in units: 1 to 60,000 components.
    pub state: Option<Items<i64>>,
    /// In place of `state`: what each component is, in units,
    pub fill: Option<i64>,
    /// and how many components there are, 1 to 60,000.
    pub count: Option<i64>,
    /// The indexes of the components that are written, in this order. Where it is absent they are
    /// the first ones, or those behind component 0 of a recorded participant, which lists none.
    pub out: Option<Items<i64>>,
    /// The least absolute value that faults a step, in units, over 0.
    pub forbid: Option<i64>,
    /// A row for each component of the state.
    pub row: Option<Items<RowParts>>,
    /// At most 10,000 records; of a recorded participant.
    pub records: Option<Items<RecordEntry>>,
    /// How fast a rod's component is drawn to its neighbours, in units a tick.
    pub alpha: i64,
    /// How fast a rod's component is drawn to what it reads, in units a tick.
    pub beta: i64,
    /// How fast a spring's velocity is drawn by the neighbours, in units a tick.
    pub stiff: i64,
    /// How fast a spring's velocity goes down, in units a tick.
    pub damp: i64,
    /// How fast a spring's velocity follows what it reads, in units a tick.
    pub gain: i64,
    /// How fast a spring's position follows its velocity, in units a tick.
    pub rate: i64,
    /// How many values a step reads.
    pub reads: u32,
    /// How many values a step writes.
    pub writes: u32,
}

impl CopyIn for RowParts {
    fn copy_in(&self, alloc: Global) -> Result<RowParts, Memory> {
        Ok(RowParts {
            add: self.add,
            states: Items::from_vec(Vec::from_slice(alloc, self.states.as_slice())?),
            reads: Items::from_vec(Vec::from_slice(alloc, self.reads.as_slice())?),
        })
    }
}

impl CopyIn for RecordEntry {
    fn copy_in(&self, alloc: Global) -> Result<RecordEntry, Memory> {
        Ok(RecordEntry {
            dt: self.dt,
            writes: Items::from_vec(Vec::from_slice(alloc, self.writes.as_slice())?),
        })
    }
}

/// The rows, or none where there is no list.
pub(crate) fn rows_of(list: &Option<Items<RowParts>>) -> &[RowParts]
    ensures { result.now ≡ unwrap_or list.now [] }
{
    match list {
        Some(items) => items.as_slice(),
        None => &[],
    }
}

/// The records, or none where there is no list.
pub(crate) fn records_of(list: &Option<Items<RecordEntry>>) -> &[RecordEntry]
    ensures { result.now ≡ unwrap_or list.now [] }
{
    match list {
        Some(items) => items.as_slice(),
        None => &[],
    }
}
