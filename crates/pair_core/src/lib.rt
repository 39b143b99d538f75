//! The event machine of a coupling of two participants under a serial-explicit scheme.
//!
//! A [`Core`] says which event of a participant comes next, whether it is enabled, and makes it. It
//! keeps a few values only, however many windows the coupling has: what it says is what the list of
//! events so far says. Participant 0 is the first of the scheme, participant 1 the second.
#![tactic(auto)]

pub mod event;
pub mod laws;
pub mod machine;
mod side;
mod turn;

pub use event::{CoreErr, Enabled, Ending, Event, NextKind, PartId, Reply};
pub use laws::law_stands;
pub use machine::Core;

#[cfg(test)]
mod tests;
