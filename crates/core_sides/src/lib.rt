//! Where the participants of a coupling stand: what each may do next, whom it asks for what it needs,
//! and what was given so far, which each place tells.
//!
//! This is the part of a coupling's core that looks at no values.
#![tactic(auto)]

mod asks;
pub mod event;
pub mod laws;
mod moves;
pub mod search;
pub mod sides;
pub mod standing;
pub mod windows;

pub use event::{CoreErr, Enabled, Ending, Event, Input, NextKind, Reply, StopCause};
pub use laws::{
    places_tell_what_was_given, what_fits_in_one_fits_in_all, what_is_kept_answers_as_the_state,
};
pub use search::Search;
pub use sides::Sides;
pub use standing::{Place, Standing};
