//! What the words of a command line ask for, where one of the commands that run on one thread is
//! asked for.
//!
//! `clap` reads the words, and what it takes beyond the forms that are served is refused here.
#![tactic(auto)]

mod forms;
pub mod meaning;
mod parsed;
mod schedule;
#[cfg(test)]
mod tests;

pub use meaning::{Asked, asked_in};
