//! What the core of a coupling keeps of its implicit schemes: the iteration that each has judged last,
//! and what its members read next.
//!
//! An iteration is judged once, when its first member asks, and told to all of them.
#![tactic(auto)]

pub mod judging;
pub mod laws;
pub mod schemes;

pub use judging::judge_once;
pub use schemes::{LastJudged, OnceJudged, SchemeState};
