//! What a core keeps of the posts of one exchange: the accepted ends of two windows, and the newest
//! window's last two iterates.
//!
//! All that a store answers is what a look-up in the list of all that was given tells. The list is
//! nowhere in memory: contracts tie what is kept to it.
#![tactic(auto)]

pub mod progress;
pub mod store;
#[cfg(test)]
mod tests;

pub use progress::Progress;
pub use store::Store;
