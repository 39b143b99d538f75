ghost use Rattle.std.specs.Prelude.{◌≡◌, IfOk};

use fixed_num::Memory;
use mesh_data::AnyMesh;
use std::alloc::Global;

/// Equal meshes in memory of their own.
pub fn copies_of(alloc: Global, meshes: &[AnyMesh]) -> Result<Vec<AnyMesh>, Memory>
    ensures { IfOk result (λ copies. copies.items ≡ meshes.now) }
{
    let mut copies = Vec::with_capacity(alloc, meshes.len())?;
    for mesh in meshes {
        copies.push(mesh.copy(alloc)?)?;
    }
    Ok(copies)
}
