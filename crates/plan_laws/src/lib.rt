//! Plans and accepted configurations, as laws.
#![tactic(auto)]

pub mod converse;
pub mod names;

pub use converse::{
    a_configuration_has_one_plan, every_valid_plan_is_of_an_accepted_configuration,
};
pub use names::other_names_give_the_same_plan_but_for_names;
