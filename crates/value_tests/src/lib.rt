//! Relaxed iterations, by hand.
#![tactic(auto)]

#[cfg(test)]
mod relaxation;
