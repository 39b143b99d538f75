//! The law of every interleaving: whatever the order in which participants act, each reads what the
//! plain loop gives it.
#![tactic(auto)]

pub mod laws;
pub mod plans;

pub use laws::{law_enabled, law_prefix, law_same_end, law_step, schedules_are_short};
pub use plans::{a_need_is_of_what_came_before, the_next_window_is_told};
