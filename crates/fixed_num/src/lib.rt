//! Whole numbers of millionths: their ranges, the rounded quotient, and the small types that every
//! crate of the workspace shares.
//!
//! A *unit* is one millionth. Nothing here takes memory but the copies: [`Name::copy`],
//! [`Items::copy`], [`copies_of`] and [`CopyIn`].
#![tactic(auto)]

pub mod copies;
pub mod factor;
pub mod in_units;
pub mod items;
pub mod laws;
pub mod memory;
pub mod name;
pub mod norms;
pub mod quotient;
pub mod relaxation;
#[cfg(test)]
mod tests;
pub mod value;

pub use copies::{CopyIn, copies_of};
pub use factor::{Factor, factor_of};
pub use in_units::InUnits;
pub use items::Items;
pub use memory::Memory;
pub use name::Name;
pub use norms::{dot, norm, norm_of_difference, root_floor, square_distance, sum_of_squares};
pub use quotient::quot_even;
pub use relaxation::{aitken, relax};
pub use value::{Value, value_of};
