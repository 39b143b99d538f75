ghost use Rattle.std.specs.Prelude.{◌≡◌, ◌+◌, ◌-◌, ◌^◌, ◌≤◌, length, map, IfOk};
ghost use Rattle.std.specs.List.{range_with_len};

use edge_projection::Edge;
use fixed_num::Memory;
use std::alloc::Global;

/// The edges between each vertex and the next, of so many vertices in a line.
pub(crate) fn chain(alloc: Global, vertices: usize) -> Result<Vec<Edge>, Memory>
    requires { vertices ≤ 10 ^ 4 }
    ensures len { IfOk result (λ edges. length edges.items ≤ vertices) }
    ensures edges { IfOk result (λ edges.
        edges.items ≡ map (λ v. record { a = v; b = v + 1 }) (range_with_len 0 (vertices - 1))) }
{
    let count = vertices.saturating_sub(1);
    let mut edges = Vec::with_capacity(alloc, count)?;
    for v in 0..count {
        edges.push(Edge {
            a: v as u32,
            b: v as u32 + 1,
        })?;
    }
    Ok(edges)
}
