//! Parts of a participant's calls that need not all of its state: whether a reply may come to an event, the
//! samples of a step, what waits after it, inputs as they are kept, rows of watch-points in their order.
#![tactic(auto)]

pub mod coordinates;
pub mod fitting;
mod fitting_inputs;
pub mod kept_rows;
pub mod meshes;
pub mod posts;
pub mod samples;
pub mod taken;
mod waves;

pub use coordinates::first_bad_coordinate;
pub use fitting::fits;
pub use kept_rows::put_rows;
pub use meshes::copies_of;
pub use posts::{queue_post, turn_post, wait_to_stop};
pub use samples::{take_samples, untake_samples};
pub use taken::{kept_inputs, newest_time, sources_of};
