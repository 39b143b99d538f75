//! The rules over whole configurations: exactly the first broken one, at its first place.
#![tactic(auto)]

mod breaks;
mod check;
mod circles;
mod exchanges;
pub mod groups;
pub mod laws;
pub mod relaxed;
mod rules;
mod schemes;
mod windows;

pub use check::check_config;
pub use laws::rules_are_numbered_in_order;
pub use relaxed::components;
pub use rules::ConfigRule;
