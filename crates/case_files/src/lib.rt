//! The case file of a participant: its meshes and its solver, read whole and refused exactly.
#![tactic(auto)]

pub mod case_file;
mod keys;
pub mod laws;
mod lists;
mod parts;
pub mod read;
mod tables;
mod words;

pub use case_file::{CaseFile, CaseMesh, LinePoints};
pub use laws::{case_tree_without_fault_is_sound, listed_words_have_their_meanings};
pub use read::read_case;
