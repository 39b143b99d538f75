ghost use Rattle.std.specs.Prelude.{◌≡◌, ◌+◌, ◌*◌, ◌^◌, ◌<◌, ◌≤◌, All, length, map};
ghost use Rattle.std.specs.List.{range_with_len};
ghost use Rattle.fixed_num.specs.Numbers.{IsCoordinate};
ghost use Rattle.mesh_data.specs.Points.{IsDimension};
ghost use Rattle.grid_index.specs.Block.{least_width};
ghost use Rattle.grid_index.specs.Cells.{axis_on};
ghost use Rattle.grid_index.specs.Places.{place_from, digit, HasDigits};

use mesh_data::Mesh;

/// Where the cells of an axis begin, and how wide each is, in units.
#[derive(Clone, Copy)]
pub(crate) struct Axis {
    pub(crate) least: i64,
    pub(crate) width: u64,
}

/// The greatest number of cells along each axis with which there are at most `count` in all.
pub(crate) fn cells_per_axis(count: usize, dimensions: u32) -> usize
    requires some { 0 < count }
    requires few { count ≤ 10 ^ 4 }
    requires dimensions { IsDimension dimensions }
    ensures few { result ^ dimensions ≤ count }
    ensures most { count < (result + 1) ^ dimensions }
    ensures some { 0 < result }
{
    let mut per_axis = 1;
    while (per_axis + 1usize).pow(dimensions) <= count {
        per_axis += 1;
    }
    per_axis
}

/// Where the cells of axis `i` lie.
fn axis_on<const D: usize>(mesh: &Mesh<D>, per_axis: usize, i: usize) -> Axis
    requires dimensions { IsDimension D }
    requires axis { i < D }
    requires some { 0 < length mesh.now }
    requires cells { 0 < per_axis }
    ensures { result ≡ axis_on mesh.now per_axis i }
{
    let mut least = mesh.point(0).at()[i];
    let mut greatest = least;
    for v in 0..mesh.len() as u32 {
        let x = mesh.point(v).at()[i];
        least = least.min(x);
        greatest = greatest.max(x);
    }
    Axis {
        least,
        width: greatest.abs_diff(least) / per_axis as u64 + 1,
    }
}

/// Where the cells of every axis lie.
pub(crate) fn axes_on<const D: usize>(mesh: &Mesh<D>, per_axis: usize) -> [Axis; D]
    requires dimensions { IsDimension D }
    requires some { 0 < length mesh.now }
    requires cells { 0 < per_axis }
    ensures { result ≡ map (axis_on mesh.now per_axis) (range_with_len 0 D) }
{
    let mut axes = [Axis { least: 0, width: 1 }; D];
    for i in 0..D {
        axes[i] = axis_on(mesh, per_axis, i);
    }
    axes
}

/// The least width of a cell.
pub(crate) fn least_width(axes: &[Axis]) -> u64
    requires some { 0 < length axes.now }
    ensures { result ≡ least_width axes.now }
{
    let mut least = axes[0].width;
    for axis in &axes[1..] {
        least = least.min(axis.width);
    }
    least
}

/// The number of the cell of a coordinate on an axis.
fn digit(axis: Axis, x: i64) -> u64
    requires width { 0 < axis.width }
    ensures { result ≡ digit axis x }
{
    x.abs_diff(axis.least) / axis.width
}

/// The place of a vertex's cell, whose digits so far are those of a number: in the end below 10^4.
pub(crate) fn place_from(per_axis: usize, axes: &[Axis], vertex: &[i64], so_far: usize) -> usize
    requires digits { HasDigits per_axis axes.now vertex.now }
    requires coordinates { All IsCoordinate vertex.now }
    requires room { (so_far + 1) * per_axis ^ length axes.now ≤ 10 ^ 4 }
    ensures { result ≡ place_from per_axis axes.now vertex.now so_far }
{
    if axes.len() == 0 {
        return so_far;
    }
    let place = so_far * per_axis + digit(axes[0], vertex[0]) as usize;
    place_from(per_axis, &axes[1..], &vertex[1..], place)
}
