ghost use Rattle.std.specs.Prelude.{◌≡◌, ◌*◌, ◌++◌, pos, replicate, length, All, OnOk, OnErr};
ghost use Rattle.fixed_num.specs.Numbers.{IsValue};
ghost use Rattle.field_buffers.specs.Rows.{HasRow, with_rows};

use crate::refusals::value_at;
use fixed_num::{Memory, Value};

/// Adds so many zeros at the end, or none.
pub(crate) fn push_zeros(values: &mut Vec<Value>, count: usize) -> Result<(), Memory>
    ensures pushed { OnOk result (values.new.items ≡ values.old.items ++ replicate count (pos 0)) }
    ensures unchanged { OnErr result (values.new.items ≡ values.old.items) }
{
    let before = values.len();
    for _ in 0..count {
        if values.push(Value::default()).is_err() {
            values.truncate(before);
            return Err(Memory);
        }
    }
    Ok(())
}

/// Sets all values to zero.
pub(crate) fn set_zeros(values: &mut [Value])
    ensures { values.new ≡ replicate (length values.old) (pos 0) }
{
    for i in 0..values.len() {
        values[i] = Value::default();
    }
}

/// Writes a row of so many components at each vertex in turn.
pub(crate) fn write_rows(components: usize, vertices: &[u32], rows: &[i64], values: &mut [Value])
    requires vertices { All (HasRow components values.old) vertices.now }
    requires len { length rows.now ≡ length vertices.now * components }
    requires in_range { All IsValue rows.now }
    ensures { values.new ≡ with_rows components vertices.now rows.now values.old }
{
    for i in 0..vertices.len() {
        let to = vertices[i] as usize * components;
        let from = i * components;
        write_row(
            &rows[from..from + components],
            &mut values[to..to + components],
        );
    }
}

/// Writes numbers that are Values.
fn write_row(row: &[i64], out: &mut [Value])
    requires alike { length row.now ≡ length out.old }
    requires in_range { All IsValue row.now }
    ensures { out.new ≡ row.now }
{
    for i in 0..out.len() {
        out[i] = value_at(row[i]).unwrap();
    }
}
