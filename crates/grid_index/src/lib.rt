//! The nearest vertex of a mesh, by a grid of cells in place of a scan.
//!
//! A mesh's box is cut into at most as many cells as there are vertices. [`Grid::nearest`] looks only
//! at cells that may have a vertex as near as the best so far, and counts what it looks at.
#![tactic(auto)]

mod axis;
mod candidate;
mod chains;
pub mod grid;
pub mod laws;
mod looking;
mod spans;
pub mod steps;

pub use grid::Grid;
pub use steps::Steps;
