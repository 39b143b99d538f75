//! What a participant writes of the data on its meshes, between two events of a coupling.
//!
//! A `WriteBuffer` has the values that are written next, a row of components for each vertex.
#![tactic(auto)]

pub mod buffer;
pub mod refusals;
mod rows;

pub use buffer::WriteBuffer;
pub use refusals::{first_bad_value, first_bad_vertex};
