//! The files of a coupling: loaded, read whole, and accepted, or refused exactly.
#![tactic(auto)]

pub mod case_err;
mod cases;
pub mod laws;
pub mod load;
pub mod parts;
mod push;
mod refused;

pub use case_err::CaseErr;
pub use laws::an_accepted_case_suits_its_participants;
pub use load::{load_bytes, load_case};
pub use parts::{AcceptedCase, RefusedCase};
