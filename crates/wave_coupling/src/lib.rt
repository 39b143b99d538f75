//! What couples in truth: waves on meshes, which participants post and read.
#![tactic(auto)]

pub mod worked;
pub mod worked_implicit;
pub mod worked_more;
