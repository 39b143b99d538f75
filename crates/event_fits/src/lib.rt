//! Whether a participant may ask for an event: the test of what a core's `apply` wants.
//!
//! The core itself does not look at what it is given. Who makes events and knows the plan needs no
//! test; who passes on events of others asks here first. Nothing here takes memory.
#![tactic(auto)]

pub mod events;
mod meshes;
mod posts;
mod waves;

pub use events::fits;
