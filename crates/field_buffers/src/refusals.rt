ghost use Rattle.std.specs.Prelude.{◌≡◌, ◌↔◌, ◌<◌, not, find, position, nat_le, pos, length, slice_index_or, All, IfSome, IfNone, IsSome};
ghost use Rattle.std.specs.List.{AllWithin};
ghost use Rattle.fixed_num.specs.Numbers.{IsValue, is_value};

use fixed_num::{Value, value_of};

/// The first number of a vertex that is not below `size`.
pub fn first_bad_vertex(vertices: &[u32], size: usize) -> Option<u32>
    ensures first { result ≡ find (λ v. nat_le size v) vertices.now }
    ensures none { IfNone result (All (λ v. v < size) vertices.now) }
{
    for i in 0..vertices.len() {
        if size <= vertices[i] as usize {
            return Some(vertices[i]);
        }
    }
    None
}

/// Where the first number stands that is no Value.
pub fn first_bad_value(numbers: &[i64]) -> Option<usize>
    ensures first { result ≡ position (λ x. not (is_value x)) numbers.now }
    ensures none { IfNone result (All IsValue numbers.now) }
{
    first_outside(numbers)
}

/// The same place, told by what stands there and before it.
fn first_outside(numbers: &[i64]) -> Option<usize>
    ensures found { IfSome result (λ i. i < length numbers.now) }
    ensures no_value { IfSome result (λ i. ¬ IsValue (slice_index_or numbers.now i (pos 0))) }
    ensures first { IfSome result (λ i. AllWithin IsValue numbers.now 0 i) }
    ensures none { IfNone result (All IsValue numbers.now) }
{
    for i in 0..numbers.len() {
        if value_at(numbers[i]).is_none() {
            return Some(i);
        }
    }
    None
}

/// The Value of so many units, or None exactly where they are out of range.
pub(crate) fn value_at(units: i64) -> Option<Value>
    ensures in_range { IsSome result ↔ IsValue units }
    ensures same { IfSome result (λ value. value ≡ units) }
{
    value_of(i128::from(units))
}
