//! What solvers write keeps what is given fitting: one solve, and the initial post.
#![tactic(auto)]

pub mod solves;

pub use solves::{a_post_fits_later, a_solve_fits, a_turn_fits, an_initial_post_fits};
