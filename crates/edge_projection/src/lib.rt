//! Nearest-projection mappings of fields from one mesh to another, onto edges.
//!
//! A point's foot is the nearest point with a weight in whole millionths on any edge of a mesh, or on
//! a vertex. A consistent map reads between the ends of each target's foot; a conservative one splits
//! each source's value between the ends of its foot.
#![tactic(auto)]

pub mod edge;
pub mod edge_errors;
pub mod edge_table;
pub mod feet;
mod feet_between;
pub mod laws;
mod offsets;
mod parts;
mod rows;
mod sums;
mod weights;

pub use edge::{Edge, Foot};
pub use edge_errors::{EdgeErr, SumErr};
pub use edge_table::EdgeTable;
pub use feet::{confirms, foot_of};
