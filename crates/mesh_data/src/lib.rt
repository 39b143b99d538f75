//! The points and the meshes of a coupling, in as many dimensions as it has: from one to three.
//!
//! Coordinates are in units (millionths). Vertices are numbered from 0, in the order in which they
//! were pushed. Only [`Mesh::push_vertex`] and the copies of meshes take memory.
#![tactic(auto)]

pub mod any_mesh;
pub mod distance;
pub mod laws;
pub mod mesh;
pub mod point;
#[cfg(test)]
mod tests;

pub use any_mesh::AnyMesh;
pub use distance::square_distance;
pub use mesh::{Mesh, MeshErr};
pub use point::Point;
