//! What a participant's calls mean: its phases, what its calls do and refuse, which replies its events
//! may get, and how it goes on after each.
#![tactic(auto)]

pub mod api_err;
pub mod laws;
pub mod phase;
pub mod worked;

pub use api_err::ApiErr;
pub use phase::{Call, EventKind, Phase, allow};
