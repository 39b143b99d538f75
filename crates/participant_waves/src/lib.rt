//! What a participant's exchanges carry: its mappings, made once, what it posts, what it reads from, and
//! what its watch-points show.
//!
//! [`Sends`] has what is sent and [`Takes`] what is received; both are made from the plan and the meshes
//! that the participant knows. [`Watches`] gives the rows of watch-points. [`Passages`]
//! has all that is made once.
#![tactic(auto)]

mod arrivals;
mod copies;
pub mod kept_input;
mod known_meshes;
pub mod laws;
mod nearest;
pub mod no_waves;
pub mod passages;
pub mod sending;
pub mod sends;
mod shown;
pub mod takes;
pub mod taking;
mod through;
pub mod watches;

pub use arrivals::vertices_of_exchange;
pub use kept_input::KeptInput;
pub use laws::what_is_written_can_be_sent;
pub use no_waves::{NoPost, NoTake};
pub use passages::Passages;
pub use sending::Sending;
pub use sends::Sends;
pub use takes::Takes;
pub use taking::Taking;
pub use through::Through;
pub use watches::Watches;
