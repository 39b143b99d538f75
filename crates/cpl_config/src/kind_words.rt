/// What makes a window of the coupling.
#[derive(Clone, Copy, Debug, PartialEq, Eq)]
pub enum WindowWord {
    /// A fixed number of ticks.
    Fixed,
    /// One step of the scheme's first participant.
    FirstParticipant,
}

/// What data have at each vertex: one component, or one for each dimension of the mesh.
#[derive(Clone, Copy, Debug, PartialEq, Eq)]
pub enum DataKind {
    Scalar,
    Vector,
}

/// Whether a mapping is for what its participant reads or for what it writes.
#[derive(Clone, Copy, Debug, PartialEq, Eq)]
pub enum Direction {
    Read,
    Write,
}

/// Whether a mapping copies values to the vertices of its target, or adds each value up at one.
#[derive(Clone, Copy, Debug, PartialEq, Eq)]
pub enum Constraint {
    Consistent,
    Conservative,
}

/// What of the mesh that is searched a mapping takes: its nearest vertex, or the nearest point on
/// its edges.
#[derive(Clone, Copy, Debug, PartialEq, Eq)]
pub enum MapWord {
    NearestNeighbor,
    NearestProjection,
}

/// What an action does with the values that a participant writes.
#[derive(Clone, Copy, Debug, PartialEq, Eq)]
pub enum ActionWord {
    /// The target has the sums of the sources.
    Summation,
}

/// The kinds of coupling schemes.
#[derive(Clone, Copy, Debug, PartialEq, Eq)]
pub enum KindWord {
    SerialExplicit,
    ParallelExplicit,
    SerialImplicit,
    ParallelImplicit,
    Multi,
}

/// What the change of an iteration is compared with.
#[derive(Clone, Copy, Debug, PartialEq, Eq)]
pub enum MeasureWord {
    Absolute,
    Relative,
    ResidualRelative,
}

/// The methods of relaxation.
#[derive(Clone, Copy, Debug, PartialEq, Eq)]
pub enum AccelWord {
    Constant,
    Aitken,
}
