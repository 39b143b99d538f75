ghost use Rattle.std.specs.Prelude.{◌≡◌, ◌↔◌, ℕ, ◌+◌, ◌*◌, ◌^◌, ◌<◌, ◌≤◌, pos, ◌+ℤ◌, unsigned_abs, length, All, slice_index_or, IfOk, IfSome, IfNone, IsSome};
ghost use Rattle.std.specs.List.{AllWithin};
ghost use Rattle.fixed_num.specs.Numbers.{IsValue};
ghost use Rattle.edge_projection.specs.NearestFoot.{IsFootIn, HasRows};
ghost use Rattle.edge_projection.specs.MappedField.{IsFieldOn, component_of, part_of, given_at, given_by, total};

use crate::edge::Foot;
use crate::parts::part_of;
use fixed_num::{Value, value_of};
use std::alloc::{AllocError, Global};
use waveform::Field;

/// The sum of each component at each target, of what all sources give to it.
///
/// At most 10,000 sources give at most 2·10^17 in absolute value.
pub(crate) fn whole_sums(
    alloc: Global,
    feet: &[Foot],
    field: &Field,
    targets: usize,
) -> Result<Vec<i64>, AllocError>
    requires few { length feet.now ≤ 10 ^ 4 }
    requires few_targets { targets ≤ 10 ^ 4 }
    requires fits { IsFieldOn field.now (length feet.now) }
    requires inside { All (IsFootIn targets) feet.now }
    ensures len { IfOk result (λ sums. length sums.items ≡ targets * field.now.components) }
    ensures sums { IfOk result (λ sums. (v c : ℕ) → v < targets → c < field.now.components
        → slice_index_or sums.items (v * field.now.components + c) (pos 0)
        ≡ total (given_by feet.now field.now c v) (length feet.now)) }
{
    let mut sums = vec![in alloc; 0; targets * field.components as usize]?;
    add_feet(feet, field, &mut sums);
    Ok(sums)
}

/// Adds what each source gives to the ends of its foot, to sums that are zeros at first.
fn add_feet(feet: &[Foot], field: &Field, sums: &mut [i64])
    requires few { length feet.now ≤ 10 ^ 4 }
    requires fits { IsFieldOn field.now (length feet.now) }
    requires rows { All (HasRows field.now.components (length sums.old)) feet.now }
    requires zeros { All (λ sum. sum ≡ pos 0) sums.old }
    ensures { let row = field.now.components in
        (v c : ℕ) → v * row + row ≤ length sums.new → c < row
        → slice_index_or sums.new (v * row + c) (pos 0)
        ≡ total (given_by feet.now field.now c v) (length feet.now) }
{
    for u in 0..feet.len() {
        let foot = feet[u];
        add_part(field, u, foot.weight, true, foot.a as usize, sums);
        add_part(field, u, foot.weight, false, foot.b as usize, sums);
    }
}

/// Adds to the row of vertex `w` what of the values of source `u` goes to it.
fn add_part(field: &Field, u: usize, weight: u32, rest: bool, w: usize, sums: &mut [i64])
    requires weight { weight ≤ 10 ^ 6 }
    requires source { u * field.now.components + field.now.components ≤ length field.now.values }
    requires target { w * field.now.components + field.now.components ≤ length sums.old }
    requires small { All (λ sum. unsigned_abs sum ≤ 10 ^ 18) sums.old }
    ensures added { let row = field.now.components in
        (v c : ℕ) → v * row + row ≤ length sums.new → c < row
        → slice_index_or sums.new (v * row + c) (pos 0)
        ≡ slice_index_or sums.old (v * row + c) (pos 0)
        +ℤ given_at w v (part_of rest weight (component_of field.now u c)) }
    ensures bound { (most : ℕ) → All (λ sum. unsigned_abs sum ≤ most) sums.old
        → All (λ sum. unsigned_abs sum ≤ most + 10 ^ 13) sums.new }
{
    let row = field.components as usize;
    let values = field.values.as_slice();
    let to = w * row;
    let from = u * row;
    add_row(
        &mut sums[to..to + row],
        &values[from..from + row],
        weight,
        rest,
    );
}

/// Adds to each sum its part of the value at its place.
fn add_row(sums: &mut [i64], values: &[Value], weight: u32, rest: bool)
    requires alike { length values.now ≡ length sums.old }
    requires weight { weight ≤ 10 ^ 6 }
    requires small { All (λ x. unsigned_abs x ≤ 10 ^ 18) sums.old }
    ensures added { (c : ℕ) → c < length sums.new → slice_index_or sums.new c (pos 0)
        ≡ slice_index_or sums.old c (pos 0)
        +ℤ part_of rest weight (slice_index_or values.now c (pos 0)) }
    ensures bound { (c : ℕ) → c < length sums.new
        → unsigned_abs (slice_index_or sums.new c (pos 0))
        ≤ unsigned_abs (slice_index_or sums.old c (pos 0)) + 10 ^ 13 }
{
    for c in 0..sums.len() {
        sums[c] = added(sums[c], part_of(values[c], weight, rest));
    }
}

fn added(sum: i64, part: i64) -> i64
    requires sum { unsigned_abs sum ≤ 10 ^ 18 }
    requires part { unsigned_abs part ≤ 10 ^ 13 }
    ensures { result ≡ sum +ℤ part }
{
    sum + part
}

/// Where the first sum is that is no Value.
pub(crate) fn first_overflow(sums: &[i64]) -> Option<usize>
    ensures found { IfSome result (λ i. i < length sums.now) }
    ensures no_value { IfSome result (λ i. ¬ IsValue (slice_index_or sums.now i (pos 0))) }
    ensures first { IfSome result (λ i. AllWithin IsValue sums.now 0 i) }
    ensures none { IfNone result (All IsValue sums.now) }
{
    for i in 0..sums.len() {
        if value_at(sums[i]).is_none() {
            return Some(i);
        }
    }
    None
}

/// The Value of a sum, or None exactly where it is out of range.
fn value_at(sum: i64) -> Option<Value>
    ensures in_range { IsSome result ↔ IsValue sum }
    ensures same { IfSome result (λ value. value ≡ sum) }
{
    value_of(i128::from(sum))
}

/// Writes the sums, which are Values.
pub(crate) fn write_sums(sums: &[i64], out: &mut [Value])
    requires alike { length sums.now ≡ length out.old }
    requires in_range { All IsValue sums.now }
    ensures { out.new ≡ sums.now }
{
    for i in 0..out.len() {
        out[i] = value_at(sums[i]).unwrap();
    }
}
