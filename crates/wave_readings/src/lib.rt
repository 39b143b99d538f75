//! What is read and posted in a coupling of waves fits, along every schedule and in the loop.
#![tactic(auto)]

pub mod readings;

pub use readings::{posted_waves_end_with_the_window, what_is_read_are_values};
