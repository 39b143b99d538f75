//! What an implicit scheme makes of an iteration: its verdict, and what its members read next.
//!
//! Values are in units (millionths) and times in ticks.
#![tactic(auto)]

pub mod course;
pub mod iteration;
pub mod judged;
pub mod leading;
mod norms;
mod places;
mod relaxing;
mod values;

pub use course::Course;
pub use iteration::Iteration;
pub use judged::Judged;
pub use leading::{constant_at, led_by};
