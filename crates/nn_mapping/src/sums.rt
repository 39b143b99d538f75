ghost use Rattle.std.specs.Prelude.{◌≡◌, ◌↔◌, ℕ, ◌+◌, ◌*◌, ◌^◌, ◌<◌, ◌≤◌, pos, ◌+ℤ◌, unsigned_abs, length, All, slice_index_or, IfOk, IfSome, IfNone, IsSome};
ghost use Rattle.std.specs.List.{AllWithin};
ghost use Rattle.fixed_num.specs.Numbers.{IsValue};
ghost use Rattle.nn_mapping.specs.MappedField.{IsFieldOn, sum_over, sources_of};

use fixed_num::{Value, value_of};
use std::alloc::{AllocError, Global};
use waveform::Field;

/// The sum of each component at each target, over the sources whose nearest target it is.
///
/// At most 10,000 Values sum to at most 10^17 in absolute value.
pub(crate) fn whole_sums(
    alloc: Global,
    nearest: &[u32],
    field: &Field,
    targets: usize,
) -> Result<Vec<i64>, AllocError>
    requires few { length nearest.now ≤ 10 ^ 4 }
    requires few_targets { targets ≤ 10 ^ 4 }
    requires fits { IsFieldOn field.now (length nearest.now) }
    requires vertices { All (λ v. v < targets) nearest.now }
    ensures len { IfOk result (λ sums. length sums.items ≡ targets * field.now.components) }
    ensures sums { IfOk result (λ sums. (v c : ℕ) → v < targets → c < field.now.components
        → slice_index_or sums.items (v * field.now.components + c) (pos 0)
        ≡ sum_over field.now c (sources_of nearest.now v)) }
{
    let mut sums = vec![in alloc; 0; targets * field.components as usize]?;
    add_rows(nearest, field, &mut sums);
    Ok(sums)
}

/// Adds each source's components to the sums of its nearest target, which are zeros at first.
fn add_rows(nearest: &[u32], field: &Field, sums: &mut [i64])
    requires few { length nearest.now ≤ 10 ^ 4 }
    requires fits { IsFieldOn field.now (length nearest.now) }
    requires vertices { let row = field.now.components in
        All (λ v. v * row + row ≤ length sums.old) nearest.now }
    requires zeros { All (λ sum. sum ≡ pos 0) sums.old }
    ensures { let row = field.now.components in
        (v c : ℕ) → v * row + row ≤ length sums.new → c < row
        → slice_index_or sums.new (v * row + c) (pos 0)
        ≡ sum_over field.now c (sources_of nearest.now v) }
{
    let row = field.components as usize;
    let values = field.values.as_slice();
    for s in 0..nearest.len() {
        let to = nearest[s] as usize * row;
        let from = s * row;
        add_row(&mut sums[to..to + row], &values[from..from + row]);
    }
}

/// Adds to each sum the value at its place.
fn add_row(sums: &mut [i64], values: &[Value])
    requires alike { length values.now ≡ length sums.old }
    requires small { All (λ x. unsigned_abs x ≤ 10 ^ 17) sums.old }
    ensures added { (c : ℕ) → c < length sums.new → slice_index_or sums.new c (pos 0)
        ≡ slice_index_or sums.old c (pos 0) +ℤ slice_index_or values.now c (pos 0) }
    ensures bound { (c : ℕ) → c < length sums.new
        → unsigned_abs (slice_index_or sums.new c (pos 0))
        ≤ unsigned_abs (slice_index_or sums.old c (pos 0)) + 10 ^ 13 }
{
    for c in 0..sums.len() {
        sums[c] = added(sums[c], values[c].get());
    }
}

fn added(sum: i64, value: i64) -> i64
    requires sum { unsigned_abs sum ≤ 10 ^ 17 }
    requires value { IsValue value }
    ensures { result ≡ sum +ℤ value }
{
    sum + value
}

/// Where the first sum is that is no Value.
pub(crate) fn first_overflow(sums: &[i64]) -> Option<usize>
    ensures found { IfSome result (λ i. i < length sums.now) }
    ensures no_value { IfSome result (λ i. ¬ IsValue (slice_index_or sums.now i (pos 0))) }
    ensures first { IfSome result (λ i. AllWithin IsValue sums.now 0 i) }
    ensures none { IfNone result (All IsValue sums.now) }
{
    for i in 0..sums.len() {
        if value_at(sums[i]).is_none() {
            return Some(i);
        }
    }
    None
}

/// The Value of a sum, or None exactly where it is out of range.
fn value_at(sum: i64) -> Option<Value>
    ensures in_range { IsSome result ↔ IsValue sum }
    ensures same { IfSome result (λ value. value ≡ sum) }
{
    value_of(i128::from(sum))
}

/// Writes the sums, which are Values.
pub(crate) fn write_sums(sums: &[i64], out: &mut [Value])
    requires alike { length sums.now ≡ length out.old }
    requires in_range { All IsValue sums.now }
    ensures { out.new ≡ sums.now }
{
    for i in 0..out.len() {
        out[i] = value_at(sums[i]).unwrap();
    }
}
