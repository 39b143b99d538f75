//! The laws of every interleaving for the coupling of meshes and waves.
#![tactic(auto)]

pub mod fits;
pub mod laws;

pub use fits::{
    a_mapped_field_fits, a_mapped_wave_fits, inputs_fit, relaxed_waves_fit, what_is_read_fits,
    what_is_repeated_was_relaxed, what_is_written_fits,
};
pub use laws::{
    all_schedules_end_alike, no_schedule_is_longer, readings_are_a_prefix, replies_are_the_loops,
    someone_can_go_on, the_norm_is_the_norm, what_is_exchanged_is_settled,
};
