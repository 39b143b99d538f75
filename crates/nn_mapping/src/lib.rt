//! Nearest-neighbour mappings of fields from one mesh to another.
//!
//! A consistent map gives each target vertex the value of its nearest source; a conservative one
//! adds each source's value to its nearest target. Nearest is least square distance, then least
//! number.
#![tactic(auto)]

pub mod laws;
pub mod map_errors;
pub mod map_table;
mod nearest;
mod rows;
mod sums;
#[cfg(test)]
mod tests;

pub use map_errors::{ApplyErr, MapErr};
pub use map_table::MapTable;
