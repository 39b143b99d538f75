//! The order in which the nodes of a window are solved, and the numbers that name things of a plan.
#![tactic(auto)]

pub mod ids;
pub mod node;
pub mod order;
pub mod order_laws;
#[cfg(test)]
mod order_tests;

pub use ids::{DataId, ExchangeId, MeshId, PartId, SchemeId};
pub use node::Node;
pub use order::{OrderErr, node_order};
