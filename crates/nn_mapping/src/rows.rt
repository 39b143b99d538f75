ghost use Rattle.std.specs.Prelude.{◌≡◌, ℕ, ◌+◌, ◌*◌, ◌<◌, ◌≤◌, length, All, slice_index, slice_index_or, pos};

use fixed_num::Value;

/// Copies to each row of `out` the row of `values` that the list names. A row has so many values.
pub(crate) fn copy_rows(nearest: &[u32], row: usize, values: &[Value], out: &mut [Value])
    requires out { length out.old ≡ length nearest.now * row }
    requires rows { All (λ s. s * row + row ≤ length values.now) nearest.now }
    ensures { (v c : ℕ) → v < length nearest.now → c < row
        → slice_index_or out.new (v * row + c) (pos 0)
        ≡ slice_index_or values.now (slice_index nearest.now v * row + c) (pos 0) }
{
    for v in 0..nearest.len() {
        let from = nearest[v] as usize * row;
        let to = v * row;
        out[to..to + row].copy_from_slice(&values[from..from + row]);
    }
}
