//! What a coupled simulation means, whatever is exchanged and whoever solves: the loop, the core's
//! state and its step, and all orders in which participants may act. Definitions, and worked
//! computations of them.
#![tactic(auto)]

pub mod worked;
