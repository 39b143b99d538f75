//! Reading waves at vertices: the rows of some vertices at a time, without memory.
#![tactic(auto)]

pub mod place;
pub mod reading;

pub use place::{Place, place_of};
pub use reading::read_rows;
