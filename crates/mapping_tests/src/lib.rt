//! Nearest vertices and nearest points on edges, by hand.
#![tactic(auto)]

#[cfg(test)]
mod edges;
#[cfg(test)]
mod grids;
