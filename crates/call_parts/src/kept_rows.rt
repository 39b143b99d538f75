//! The rows of a participant's watch-points, kept by watch-point.
ghost use Rattle.std.specs.Prelude.{◌≡◌, ◌+◌, ◌<◌, ◌≤◌, ◌++◌, ◌∷◌, ℕ, [], All, length, take, drop, List, OnOk, OnErr};
ghost use Rattle.std.specs.List.{insert};
ghost use Rattle.std.specs.Vec.{vec_len, vec_capacity};
ghost use Rattle.call_parts.specs.RowsKept.{AreOf, Rising, rows_at};

use cpl_plan::WatchRow;
use fixed_num::Memory;

/// Puts rows among others, each behind those of its watch-point; or none of them.
pub fn put_rows(rows: &mut Vec<WatchRow>, new: Vec<WatchRow>) -> Result<(), Memory>
    requires { Rising rows.old.items }
    ensures order { OnOk result (Rising rows.new.items) }
    ensures put { OnOk result ((watch : ℕ) → rows_at watch rows.new.items ≡ rows_at watch (rows.old.items ++ new.items)) }
    ensures there { (count : ℕ) → AreOf count rows.old.items → AreOf count new.items → AreOf count rows.new.items }
    ensures unchanged { OnErr result (rows.new.items ≡ rows.old.items) }
{
    let count = new.len();
    rows.reserve(count)?;
    let mut rest = new.into_iter();
    for _done in 0..count {
        if let Some(row) = rest.next() {
            put_row(rows, row);
        }
    }
    Ok(())
}

/// Puts a row behind those of its watch-point. There is room for it, so that it takes no memory.
fn put_row(rows: &mut Vec<WatchRow>, row: WatchRow)
    requires room { vec_len rows.old < vec_capacity rows.old }
    requires order { Rising rows.old.items }
    ensures order { Rising rows.new.items }
    ensures put { (watch : ℕ) → rows_at watch rows.new.items ≡ rows_at watch (rows.old.items ++ row ∷ []) }
    ensures there { (count : ℕ) → AreOf count rows.old.items → row.watch < count → AreOf count rows.new.items }
    ensures len { vec_len rows.new ≡ vec_len rows.old + 1 }
    ensures capacity { vec_capacity rows.new ≡ vec_capacity rows.old }
{
    let place = place_behind(rows.as_slice(), row.watch);
    let _put = rows.insert(place, row);
}

/// The place behind the rows of a watch-point and of those before it.
fn place_behind(rows: &[WatchRow], watch: u32) -> usize
    requires { Rising rows.now }
    ensures within { result ≤ length rows.now }
    ensures before { All (λ row. row.watch ≤ watch) (take result rows.now) }
    ensures behind { All (λ row. watch < row.watch) (drop result rows.now) }
{
    for i in 0..rows.len() {
        let place = rows.len() - i;
        if rows[place - 1].watch <= watch {
            return place;
        }
    }
    0
}
