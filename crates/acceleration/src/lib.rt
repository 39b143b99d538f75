//! Relaxation of the iterations of an implicit scheme: by a constant factor, or by Aitken's.
//!
//! Values and factors are in units (millionths) and times in ticks.
#![tactic(auto)]

pub mod error;
mod factor;
pub mod laws;
pub mod method;
pub mod relaxer;
pub mod residual;
mod values;
mod waves;

pub use error::AccErr;
pub use method::Method;
pub use relaxer::Relaxer;
pub use residual::{Remembered, Residual};
