//! From an accepted configuration's schemes to those of its plan.
#![tactic(auto)]

mod acceleration;
mod exchanges;
mod map_places;
mod measures;
pub mod members;
mod name_table;
pub mod numbered;
pub mod part;

pub use members::members_of;
pub use numbered::NumberedConfig;
pub use part::{SchemePart, numbered_part, part_of_plan};
