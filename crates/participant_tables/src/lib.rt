//! What a participant keeps between its calls: the names by which it is called, its meshes, what it
//! writes and has written, what it reads, the events that wait, and how far it has stepped.
#![tactic(auto)]

pub mod clock;
pub mod laws;
mod name_table;
pub mod names;
pub mod own_meshes;
mod places;
pub mod queue;
pub mod read_table;
mod write_entry;
pub mod write_table;

pub use clock::Clock;
pub use laws::{entries_read_their_exchanges, growth_and_samples_are_undone};
pub use names::Names;
pub use own_meshes::OwnMeshes;
pub use queue::{Out, Queue};
pub use read_table::{ReadEntry, ReadTable};
pub use write_table::WriteTable;
