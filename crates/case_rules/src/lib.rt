//! The rules over the case files of an accepted configuration: exactly the first broken one, at its
//! first case.
#![tactic(auto)]

pub mod case_check;
pub mod case_meshes;
pub mod cases;
pub mod laws;
pub mod rules;
pub mod solvers;

pub use case_check::check_cases;
pub use cases::values_of;
pub use laws::{
    accepted_cases_suit_their_participants, case_rules_are_numbered_in_order,
    what_suits_its_participant_is_accepted,
};
pub use rules::CaseRule;
