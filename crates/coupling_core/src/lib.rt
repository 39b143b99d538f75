//! The event machine of a coupling of any accepted configuration.
//!
//! A [`Core`] says which event of a participant comes next, whether it is enabled, and makes it. It
//! keeps two windows of what was posted: what it says is what the list of all events so far says.
#![tactic(auto)]

mod gate;
mod judging;
pub mod laws;
pub mod machine;
mod opening;
mod posting;
mod turns;

pub use laws::law_stands;
pub use machine::Core;
