ghost use Rattle.std.specs.Prelude.{◌≡◌, ◌<◌, ◌≤◌, ◌^◌, length, All, IfOk};
ghost use Rattle.grid_index.specs.Chains.{AreChainsOf};

use fixed_num::Memory;
use std::alloc::Global;

/// The vertices of each cell as a chain, from the last to the first.
#[derive(Drop)]
pub(crate) struct Chains {
    /// Of each cell one more than its last vertex, or 0.
    pub(crate) ends: Vec<u32>,
    /// Of each vertex one more than the last vertex before it in its cell, or 0.
    pub(crate) before: Vec<u32>,
}

/// The chains of vertices of which each one's cell is given.
pub(crate) fn chains_of(alloc: Global, places: &[u32], cells: usize) -> Result<Chains, Memory>
    requires few { length places.now < 2 ^ 32 }
    requires cells { All (λ place. place < cells) places.now }
    ensures { IfOk result
        (λ chains. AreChainsOf places.now cells chains.ends.items chains.before.items) }
{
    let mut ends = vec![in alloc; 0; cells]?;
    let mut before = Vec::with_capacity(alloc, places.len())?;
    for v in 0..places.len() {
        let cell = places[v] as usize;
        before.push(ends[cell])?;
        ends[cell] = v as u32 + 1;
    }
    Ok(Chains { ends, before })
}
