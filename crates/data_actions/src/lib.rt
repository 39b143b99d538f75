//! Actions on the data that a solver writes: sums of its values, which it writes too.
#![tactic(auto)]

pub mod laws;
pub mod summed;
pub mod sums;

pub use summed::Summed;
pub use sums::Sum;

#[cfg(test)]
mod tests;
