//! Plans by code, each proved to be a valid one.

mod lists;
pub mod serial;
pub mod trio;

pub use serial::serial_iterated;
pub use trio::{accelerated_trio, plain_trio, strict_trio};
