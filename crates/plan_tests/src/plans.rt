//! A plan is made, copied and read.

pub mod example_plan;
pub mod readers;
