//! The actions of an accepted configuration as sums of what a participant writes.
#![tactic(auto)]

pub mod laws;
pub mod lengths;
pub mod sums;

pub use laws::accepted_actions_are_sums;
pub use lengths::written_lengths;
pub use sums::sums_of;

#[cfg(test)]
mod tests;
