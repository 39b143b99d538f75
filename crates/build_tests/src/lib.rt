//! Plans of whole configurations, from their texts.
#![tactic(auto)]

#[cfg(test)]
mod plans;
