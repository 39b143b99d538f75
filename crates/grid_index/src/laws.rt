//! What is true of the definitions alone. The call does nothing.

ghost use Rattle.std.specs.Prelude.{◌≡◌, ◌*◌, ◌<◌, ℕ, ℤ, List, [], false, length, slice_index_or};
ghost use Rattle.mesh_data.specs.Nearest.{distance_to};
ghost use Rattle.mesh_data.specs.Points.{IsDimension, IsPoint};
ghost use Rattle.grid_index.specs.Block.{is_in_block, least_width};
ghost use Rattle.grid_index.specs.GriddedMesh.{GriddedMesh, IsGridded};

/// Every vertex outside the block of a point is further away than the least width of a cell.
pub fn outside_the_block_is_further()
    ensures { (dimensions : ℕ) (g : GriddedMesh) (point : List ℤ) (v : ℕ)
        → IsDimension dimensions → IsGridded dimensions g → IsPoint dimensions point
        → v < length g.mesh
        → is_in_block g.cells.axes point (slice_index_or g.mesh v []) ≡ false
        → least_width g.cells.axes * least_width g.cells.axes < distance_to g.mesh point v }
{}
