//! What the participants of an accepted case are run with: their own meshes, and their solvers.
#![tactic(auto)]

pub mod laws;
mod lines;
mod meshes;
mod points;
pub mod rigs;
mod solvers;

pub use laws::rigs_fit_the_plan;
pub use rigs::{CaseRig, rigs_of};

#[cfg(test)]
mod tests;
