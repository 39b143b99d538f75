//! Fields, which are values at the vertices of a mesh, and waves, which are fields over time.
//!
//! Values are in units (millionths) and times in ticks. Reading a wave takes no memory.
#![tactic(auto)]

pub mod field;
mod line;
mod reading;
pub mod sample;
#[cfg(test)]
mod tests;
pub mod wave;

pub use field::Field;
pub use sample::Sample;
pub use wave::{MOST_SAMPLES, Wave, WaveErr};
