//! A participant's calls on one thread: phases, buffers, checkpoint questions, readings, and the events
//! that they make.
#![tactic(auto)]

pub mod advance;
mod asked;
pub mod beginnings;
pub mod data_access;
pub mod events;
pub mod fitting;
mod granted;
mod inputs;
mod joining;
pub mod local;
pub mod questions;
pub mod readings;
pub mod replies;
pub mod vertices;
mod windows;

pub use core_sides::{Event, Input, Reply, StopCause};
pub use local::Local;
pub use participant_words::{ApiErr, Call, Phase};
