//! The texts of a run: its report, or the line of a fault.
//!
//! Values are printed in whole numbers with up to six decimals; times are ticks. Windows, iterations,
//! steps, schemes, exchanges and measures count from 1, vertices and components from 0.
#![tactic(auto)]

pub mod faults;
pub mod report;
mod watches;
mod words;

pub use faults::fault_line;
pub use report::report_of;
