//! The shipped solvers, a few steps of each by hand.
#![tactic(auto)]

#[cfg(test)]
mod steps_by_hand;
