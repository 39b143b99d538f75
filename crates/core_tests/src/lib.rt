//! The core of a coupling of any plan, by hand: events, replies and endings.
#![tactic(auto)]

#[cfg(test)]
mod answer;
#[cfg(test)]
mod ends;
#[cfg(test)]
mod judging;
pub mod laws;
#[cfg(test)]
mod plans;
#[cfg(test)]
mod play;
#[cfg(test)]
mod turns;
