//! What an accepted configuration gives, as laws.
#![tactic(auto)]

pub mod accepted;
pub mod rounds;
pub mod worked;

pub use accepted::{
    a_declared_name_stands_for_one_table, an_accepted_configuration_fits_together,
    an_accepted_configuration_has_an_end, nothing_is_told_twice, what_fits_together_is_accepted,
};
pub use rounds::{
    a_circle_comes_back_to_its_start, a_circle_is_refused_and_nothing_else,
    an_accepted_configuration_has_no_cycle, circles_are_cycles_of_the_nodes,
};
pub use worked::worked_configurations;
