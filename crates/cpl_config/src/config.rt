use crate::kind_words::{
    AccelWord, ActionWord, Constraint, DataKind, Direction, KindWord, MapWord, MeasureWord,
    WindowWord,
};
use fixed_num::{Items, Name};

/// A configuration, as its file means it.
///
/// A key that may be left out and has a constant default holds it; one whose absence matters is
/// None. Numbers are in units (millionths), times in ticks.
#[derive(Debug, Drop)]
pub struct Config {
    /// The format's number, 1 or 2.
    pub format: i64,
    /// What makes a window; `Fixed` where it is left out, and in format 1.
    pub window_method: WindowWord,
    /// The length of a window, in ticks, from 1 to 10^9. Where the first participant's step makes
    /// the window, the greatest length.
    pub window: i64,
    /// The end of the simulation, in ticks, from 1 to 10^15.
    pub max_time: Option<i64>,
    /// How many windows there are, from 1 to 10^6.
    pub max_windows: Option<i64>,
    pub data_list: Items<DataTable>,
    pub mesh: Items<MeshTable>,
    pub participant: Items<PartTable>,
    pub scheme: Items<SchemeTable>,
}

/// Data that are exchanged.
#[derive(Debug, Drop)]
pub struct DataTable {
    pub name: Name,
    pub kind: DataKind,
    /// How a wave of the data is read between its samples: 0 or 1; 1 where it is left out.
    pub degree: i64,
}

/// A mesh, and the data on it.
#[derive(Debug, Drop)]
pub struct MeshTable {
    pub name: Name,
    /// 2 or 3.
    pub dimensions: i64,
    /// The names of the data on the mesh.
    pub data_list: Items<Name>,
}

/// A participant: one solver of the coupling.
#[derive(Debug, Drop)]
pub struct PartTable {
    pub name: Name,
    /// The name of its case file.
    pub case: Name,
    /// The names of the meshes that it provides.
    pub provides: Items<Name>,
    pub receives: Items<ReceivesEntry>,
    pub write: Items<DataEntry>,
    pub read: Items<DataEntry>,
    pub map: Items<MapEntry>,
    pub watch: Items<WatchEntry>,
    /// None in format 1.
    pub action: Items<ActionEntry>,
}

/// A mesh that a participant receives, and from whom.
#[derive(Debug, Drop)]
pub struct ReceivesEntry {
    pub mesh: Name,
    pub from: Name,
}

/// Data that a participant reads or writes on a mesh.
#[derive(Debug, Drop)]
pub struct DataEntry {
    pub data_name: Name,
    pub mesh: Name,
}

/// A mapping between two meshes of a participant.
#[derive(Debug, Drop)]
pub struct MapEntry {
    pub direction: Direction,
    pub from: Name,
    pub to: Name,
    pub constraint: Constraint,
    /// `NearestNeighbor` where it is left out, and in format 1.
    pub method: MapWord,
}

/// A point whose nearest vertex is reported.
#[derive(Debug, Drop)]
pub struct WatchEntry {
    pub name: Name,
    pub mesh: Name,
    /// Its coordinates, in units.
    pub at: Items<i64>,
}

/// What is done with the values that a participant writes.
#[derive(Debug, Drop)]
pub struct ActionEntry {
    pub kind: ActionWord,
    pub mesh: Name,
    /// The names of the data that are summed, at most 64.
    pub sources: Items<Name>,
    /// The name of the data that take the sums.
    pub target: Name,
}

/// A coupling scheme.
#[derive(Debug, Drop)]
pub struct SchemeTable {
    pub kind: KindWord,
    pub first: Option<Name>,
    pub second: Option<Name>,
    pub control: Option<Name>,
    pub members: Option<Items<Name>>,
    pub exchange: Items<ExchangeEntry>,
    pub max_iterations: Option<i64>,
    pub min_iterations: Option<i64>,
    pub measure: Items<MeasureEntry>,
    pub acceleration: Option<AccelEntry>,
}

/// Data that go from one participant to another.
#[derive(Debug, Drop)]
pub struct ExchangeEntry {
    pub data_name: Name,
    pub mesh: Name,
    pub from: Name,
    pub to: Name,
    /// Whether values are given before the first window; not where it is left out.
    pub initialize: bool,
    /// Whether the values of all steps are given, and not those at a window's end alone; they are
    /// where it is left out.
    pub substeps: bool,
}

/// A measure of convergence.
#[derive(Debug, Drop)]
pub struct MeasureEntry {
    pub kind: MeasureWord,
    pub data_name: Name,
    /// In units, from 0.
    pub limit: i64,
    /// Whether this measure alone is enough; not where it is left out.
    pub suffices: bool,
    /// Whether the run ends with a fault where it doesn't hold in the last iteration; not where it
    /// is left out.
    pub strict: bool,
}

/// A relaxation between the iterations of a window.
#[derive(Debug, Drop)]
pub struct AccelEntry {
    pub kind: AccelWord,
    /// In units, over 0 and at most one whole.
    pub factor: i64,
    /// The names of the data that are relaxed.
    pub data_list: Items<Name>,
}
