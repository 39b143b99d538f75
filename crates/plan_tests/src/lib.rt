//! A plan that is made, copied and read.
#![tactic(auto)]

#[cfg(test)]
mod plans;
