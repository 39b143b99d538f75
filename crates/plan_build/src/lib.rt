//! From an accepted configuration to its plan.
#![tactic(auto)]

mod data;
pub mod laws;
mod meshes;
mod nodes;
mod participants;
mod plan;
mod schemes;
mod windows;
pub mod worked;

pub use laws::the_plan_is_valid;
pub use plan::build;
