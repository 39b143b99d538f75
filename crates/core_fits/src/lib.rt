//! All that is given in a coupling's core fits, in every state that fitting events come to; and what
//! is given where a participant takes its inputs or judges.
#![tactic(auto)]

pub mod laws;

pub use laws::{
    fresh_inputs_are_the_newest, judging_members_have_posted, meshes_have_few_vertices,
    taking_turns_may_begin, turns_follow_relaxed_ones, what_is_given_fits,
};
