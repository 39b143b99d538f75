//! What a participant takes from a coupling's core: the meshes that it receives, and at each turn a
//! wave for each exchange that it receives.
//!
//! Times are in ticks.
#![tactic(auto)]

mod kinds;
pub mod laws;
pub mod meshes;
pub mod takes;
#[cfg(test)]
mod tests;

pub use laws::taking_turns_are_ready;
pub use meshes::received_meshes;
pub use takes::{TakeTurn, inputs};
