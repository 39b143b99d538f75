use fixed_num::Items;
use plan_order::{ExchangeId, PartId, SchemeId};

/// What a participant must wait for before it takes its inputs.
#[derive(Clone, Copy, Debug, PartialEq, Eq)]
pub struct Need {
    /// The participant that gives the item.
    pub owner: PartId,
    pub item: Item,
}

/// What a participant gives.
#[derive(Clone, Copy, Debug, PartialEq, Eq)]
pub enum Item {
    /// It has completed the window: its values there are accepted.
    Completed { window: u32 },
    /// It has posted its values of the window's iteration.
    Posted { window: u32, iteration: u32 },
}

/// What the measures of a scheme say of an iteration.
#[derive(Clone, Copy, Debug, PartialEq, Eq)]
pub enum Verdict {
    /// The window is repeated.
    Again,
    /// The window has converged.
    Converged,
    /// The window is accepted after the greatest number of iterations.
    AtLimit,
    /// A strict measure does not hold after the greatest number of iterations; its place from 0.
    NotConverged { measure: u32 },
}

/// One line on an iteration.
#[derive(Debug, Drop)]
pub struct IterLine {
    pub scheme: SchemeId,
    pub window: u32,
    pub iteration: u32,
    pub verdict: Verdict,
    /// The norm of the change for each measure, in units.
    pub norms: Items<u64>,
}

/// What a watch-point shows at the end of a window.
#[derive(Debug, Drop)]
pub struct WatchRow {
    pub part: PartId,
    /// The place of the watch-point among the participant's.
    pub watch: u32,
    pub window: u32,
    /// The values at the watched vertex, in units.
    pub values: Items<i64>,
}

/// Why a participant wants to stop.
#[derive(Clone, Copy, Debug, PartialEq, Eq)]
pub enum StopWish {
    /// Its solver faults with this code.
    Fault(u32),
    /// Its turn has as many steps as it may have.
    Steps,
    /// It found no memory.
    NoMemory,
}

/// Why a run has failed. Windows and iterations count from 1, and are 0 for initial data.
#[derive(Clone, Copy, Debug, PartialEq, Eq)]
pub enum Fault {
    /// A solver refused a step.
    Solver {
        part: PartId,
        window: u32,
        iteration: u32,
        step: u32,
        code: u32,
    },
    /// A turn has as many steps as it may have, and its window is not at its end.
    Steps {
        part: PartId,
        window: u32,
        iteration: u32,
    },
    /// A sum of mapped written values is out of range.
    WriteMap {
        part: PartId,
        window: u32,
        iteration: u32,
        exchange: ExchangeId,
        time: u64,
        vertex: u32,
        component: u32,
    },
    /// A sum of mapped read values is out of range.
    ReadMap {
        part: PartId,
        window: u32,
        iteration: u32,
        exchange: ExchangeId,
        time: u64,
        vertex: u32,
        component: u32,
    },
    /// A relaxed value is out of range; the component counts over all vertices.
    Relax {
        scheme: SchemeId,
        window: u32,
        iteration: u32,
        exchange: ExchangeId,
        time: u64,
        component: u32,
    },
    /// A strict measure does not hold after the greatest number of iterations.
    NotConverged {
        scheme: SchemeId,
        window: u32,
        iteration: u32,
        measure: u32,
    },
}
