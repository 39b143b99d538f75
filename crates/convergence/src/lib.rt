//! Convergence: the norms of a change, and the verdict of an iteration by its measures.
//!
//! A *unit* is one millionth. Nothing here takes memory.
#![tactic(auto)]

pub mod judging;
pub mod laws;
mod measured;
mod measures;
pub mod norms;
#[cfg(test)]
mod tests;

pub use judging::judge;
pub use norms::norms_of;
