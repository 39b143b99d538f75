//! Fields and waves that are mapped from one mesh to another, by a mapping of a plan.
//!
//! A `WaveMap` is made once for two meshes, and maps waves sample by sample.
#![tactic(auto)]

mod edges;
pub mod map_errors;
pub mod wave_map;

pub use map_errors::{FieldRefusal, WaveRefusal};
pub use wave_map::WaveMap;
