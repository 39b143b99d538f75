//! The posts of a coupling's participants, in the stores of the exchanges that they send.
#![tactic(auto)]

pub mod laws;
pub mod posts;

pub use laws::some_stores_stand;
pub use posts::{accept_all, install, makes_windows, newest_time, opened_stores, put_waves};
