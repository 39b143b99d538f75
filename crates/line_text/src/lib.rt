//! Numbers of the coupling library as text, and back.
//!
//! A *unit* is one millionth. A number's text is an optional minus, whole digits, and an optional
//! point with one to six decimals.
#![tactic(auto)]

pub mod error;
pub mod laws;
pub mod print;
pub mod read;

pub use error::NumErr;
pub use print::print_value;
pub use read::read_value;
