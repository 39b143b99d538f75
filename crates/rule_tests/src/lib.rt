//! What is told of whole configurations, each a small one with a change or two.
#![tactic(auto)]

#[cfg(test)]
mod every_place;
#[cfg(test)]
mod first_rule;
