ghost use Rattle.std.specs.Prelude.{◌≡◌, ℕ, ◌+◌, ◌*◌, ◌^◌, ◌<◌, ◌≤◌, length, All, slice_index_or, pos};
ghost use Rattle.edge_projection.specs.MappedField.{between, foot_number};
ghost use Rattle.edge_projection.specs.NearestFoot.{HasRows};

use crate::edge::Foot;
use crate::parts::between;
use fixed_num::Value;

/// Writes to each row of `out` the values between the rows at the ends of its foot. A row has so many
/// values.
pub(crate) fn write_rows(feet: &[Foot], row: usize, values: &[Value], out: &mut [Value])
    requires out { length out.old ≡ length feet.now * row }
    requires rows { All (HasRows row (length values.now)) feet.now }
    ensures { (v c : ℕ) → v < length feet.now → c < row
        → slice_index_or out.new (v * row + c) (pos 0)
        ≡ between (foot_number feet.now v).weight
        (slice_index_or values.now ((foot_number feet.now v).a * row + c) (pos 0))
        (slice_index_or values.now ((foot_number feet.now v).b * row + c) (pos 0)) }
{
    for v in 0..feet.len() {
        let foot = feet[v];
        let a = foot.a as usize * row;
        let b = foot.b as usize * row;
        let to = v * row;
        write_row(
            &values[a..a + row],
            &values[b..b + row],
            foot.weight,
            &mut out[to..to + row],
        );
    }
}

/// Writes the values between two rows.
fn write_row(first: &[Value], last: &[Value], weight: u32, out: &mut [Value])
    requires first { length first.now ≡ length out.old }
    requires last { length last.now ≡ length out.old }
    requires weight { weight ≤ 10 ^ 6 }
    ensures { (c : ℕ) → c < length out.new → slice_index_or out.new c (pos 0)
        ≡ between weight (slice_index_or first.now c (pos 0)) (slice_index_or last.now c (pos 0)) }
{
    for c in 0..out.len() {
        out[c] = between(first[c], last[c], weight);
    }
}
