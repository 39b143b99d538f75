//! The rules on the tables of a configuration or a case file: which keys are there, what their
//! values have to be, and which rule is the first broken one.
//!
//! A rule is tried over all tables of a file, in the order of their places, before the next rule.
#![tactic(auto)]

mod breaks;
mod keys_judged;
pub mod laws;
mod names;
pub mod over_spots;
pub mod refusal;
pub mod rules;
pub mod spots;

pub use over_spots::{SpotRules, first_broken};
pub use refusal::first_refusal;
pub use rules::{Refusal, Rule};
pub use spots::{TableSpot, value_at};
