use fixed_num::{Factor, Items, Name, Value};
use plan_order::{DataId, ExchangeId, MeshId, Node, PartId, SchemeId};

/// All that a plan has: an accepted configuration in numbers.
#[derive(Debug, Drop)]
pub struct PlanParts {
    /// How windows are made.
    pub method: WindowMethod,
    /// The size of a window, in ticks: the greatest one where the first participant makes them.
    pub window: u64,
    /// When the simulation ends at the latest, in ticks.
    pub end_time: u64,
    /// How many windows there are, where the first participant makes them at most.
    pub most_windows: u32,
    /// The participants.
    pub parts: Items<Part>,
    /// The meshes.
    pub meshes: Items<MeshPlan>,
    /// The data items.
    pub data_list: Items<DataPlan>,
    /// The coupling schemes.
    pub schemes: Items<Scheme>,
    /// The exchanges of all schemes, those of the first scheme first.
    pub exchanges: Items<Exchange>,
    /// The nodes of a window, in the order in which they are solved.
    pub nodes: Items<Node>,
}

/// How windows are made.
#[derive(Clone, Copy, Debug, PartialEq, Eq)]
pub enum WindowMethod {
    /// All have one size, but the last, which ends with the simulation.
    Fixed,
    /// The first participant of the one scheme makes a step, and that step is the window.
    FirstParticipant,
}

/// A participant.
#[derive(Debug, Drop)]
pub struct Part {
    pub name: Name,
    /// The meshes that it defines itself.
    pub provides: Items<MeshId>,
    /// The meshes that it gets from their providers.
    pub receives: Items<MeshId>,
    /// What it writes.
    pub writes: Items<PlanEntry>,
    /// What it reads.
    pub reads: Items<PlanEntry>,
    /// Its mappings.
    pub maps: Items<MapPlan>,
    /// Its watch-points.
    pub watches: Items<Watch>,
    /// The implicit scheme of which it is a member.
    pub group: Option<SchemeId>,
}

/// Data that a participant writes to a mesh, or reads from one.
#[derive(Clone, Copy, Debug, PartialEq, Eq)]
pub struct PlanEntry {
    pub data_id: DataId,
    pub mesh: MeshId,
}

/// A mapping of a participant, of all data that want it.
#[derive(Clone, Copy, Debug, PartialEq, Eq)]
pub struct MapPlan {
    /// Whether it maps what is read; it maps what is written otherwise.
    pub reading: bool,
    /// The mesh of the values.
    pub from: MeshId,
    /// The mesh that they are mapped to.
    pub to: MeshId,
    /// Whether sums are kept; values are kept otherwise.
    pub conservative: bool,
    /// Whether it looks for the nearest point on the edges between vertices; for the nearest vertex
    /// otherwise.
    pub projection: bool,
}

/// A place at which a participant's data are reported at the end of each window.
#[derive(Debug, Drop)]
pub struct Watch {
    pub name: Name,
    /// The mesh whose nearest vertex is followed.
    pub mesh: MeshId,
    /// The place, in units, one number for each dimension of the mesh.
    pub at: Items<i64>,
}

/// A mesh.
#[derive(Debug, Drop)]
pub struct MeshPlan {
    pub name: Name,
    /// How many dimensions its points have.
    pub dimensions: u32,
    /// The participant that provides it.
    pub owner: PartId,
    /// The data that it carries, in the order of its list.
    pub data_list: Items<DataId>,
}

/// A data item.
#[derive(Debug, Drop)]
pub struct DataPlan {
    pub name: Name,
    /// Whether it has one component for each dimension of a mesh; it has one component otherwise.
    pub vector: bool,
    /// The degree by which its waves are read.
    pub degree: u32,
}

/// Data that go from one member of a scheme to another.
#[derive(Clone, Copy, Debug, PartialEq, Eq)]
pub struct Exchange {
    pub data_id: DataId,
    /// The mesh on which the data go over.
    pub mesh: MeshId,
    /// The participant that writes the data.
    pub from: PartId,
    /// The participant that reads them.
    pub to: PartId,
    pub scheme: SchemeId,
    pub kind: Kind,
    /// Whether the writer's first writes are the initial data; they are zeros otherwise.
    pub initialize: bool,
    /// Whether all samples of a window go over; the one at its end goes alone otherwise.
    pub substeps: bool,
    /// The place, from 0, of its mapping among the writer's, where the writer writes on another mesh.
    pub write_map: Option<u32>,
    /// The place, from 0, of its mapping among the reader's, where the reader reads on another mesh.
    pub read_map: Option<u32>,
}

/// Of which window and iteration the values are that an exchange's reader gets.
#[derive(Clone, Copy, Debug, PartialEq, Eq)]
pub enum Kind {
    /// The writer's accepted value at the end of the window before.
    Lag,
    /// The writer's accepted samples of the same window.
    Fresh,
    /// The writer's samples of the same window and iteration.
    FreshIter,
    /// The writer's relaxed samples of the iteration before.
    Iterated,
}

/// A coupling scheme.
#[derive(Debug, Drop)]
pub struct Scheme {
    pub kind: SchemeKind,
    /// The members: of a scheme of two the first and the second.
    pub members: Items<PartId>,
    /// The least number of iterations of a window.
    pub min: u32,
    /// The greatest number of iterations of a window.
    pub max: u32,
    /// The convergence measures.
    pub measures: Items<Measure>,
    pub accel: Accel,
}

/// How the members of a scheme take turns.
#[derive(Clone, Copy, Debug, PartialEq, Eq)]
pub enum SchemeKind {
    /// The second reads what the first has written in the same window; windows are not repeated.
    SerialExplicit,
    /// Both read what was written in the window before; windows are not repeated.
    ParallelExplicit,
    /// As serial-explicit, with windows repeated until the measures hold.
    SerialImplicit,
    /// Both read the iteration before; windows are repeated until the measures hold.
    ParallelImplicit,
    /// As parallel-implicit, of two members or more.
    Multi,
}

/// A convergence measure, over one exchange.
#[derive(Clone, Copy, Debug, PartialEq, Eq)]
pub struct Measure {
    pub kind: MeasureKind,
    /// The first exchange of the scheme that carries the measure's data.
    pub exchange: ExchangeId,
    /// The limit: units where the measure is absolute, millionths of the compared norm otherwise.
    pub limit: Value,
    /// Whether the scheme has converged as soon as this measure holds.
    pub suffices: bool,
    /// Whether the run fails where the measure does not hold after the last iteration.
    pub strict: bool,
}

/// What the norm of a change is compared with.
#[derive(Clone, Copy, Debug, PartialEq, Eq)]
pub enum MeasureKind {
    /// The limit itself.
    Absolute,
    /// The norm of the new values.
    Relative,
    /// The norm of the change in the first iteration of the window.
    ResidualRelative,
}

/// How a scheme accelerates its iterations.
#[derive(Debug, Drop)]
pub enum Accel {
    /// Not at all: the next iteration reads what was posted.
    None,
    /// Relaxation by a constant factor of these exchanges, by rising number.
    Constant {
        factor: Factor,
        over: Items<ExchangeId>,
    },
    /// Aitken's relaxation of these exchanges, by rising number; `first` is the factor of the first
    /// iteration of each window.
    Aitken {
        first: Factor,
        over: Items<ExchangeId>,
    },
}
