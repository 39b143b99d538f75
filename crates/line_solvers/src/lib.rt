//! The shipped solvers: small systems of whole numbers of units (millionths) on which couplings
//! are tried.
#![tactic(auto)]

pub mod case;
pub mod change_rule;
pub mod checkpoint;
pub mod laws;
mod line;
pub mod line_solver;
mod number;
pub mod recorded;
pub mod rod;
pub mod rows;
pub mod ruled;
pub mod spring;

pub use case::{
    CaseParts, Pair, ReadWhen, RecordEntry, RodNumbers, RowParts, SolverKind, SpringNumbers,
};
pub use change_rule::ChangeRule;
pub use checkpoint::LineCheckpoint;
pub use line_solver::LineSolver;
pub use recorded::Recorded;
pub use rod::Rod;
pub use rows::Rows;
pub use ruled::Ruled;
pub use spring::Spring;
