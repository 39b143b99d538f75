//! Which calls a participant may make in which phase. Nothing here takes memory.
#![tactic(auto)]

pub mod table;
#[cfg(test)]
mod tests;

pub use table::{CallTable, api_table};
