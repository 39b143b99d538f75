//! Coordinates, in units.
ghost use Rattle.std.specs.Prelude.{◌≡◌, ◌<◌, All, not, position, length, slice_index_or, pos, IfSome, IfNone};
ghost use Rattle.std.specs.List.{AllWithin};
ghost use Rattle.fixed_num.specs.Numbers.{IsCoordinate};
ghost use Rattle.participant_words.specs.Refusals.{is_coordinate};

/// The greatest absolute value of a coordinate, in units.
const COORDINATE_LIMIT: u64 = 1_000_000_000_000;

/// Where the first number stands that is no coordinate.
pub fn first_bad_coordinate(numbers: &[i64]) -> Option<usize>
    ensures first { result ≡ position (λ number. not (is_coordinate number)) numbers.now }
    ensures none { IfNone result (All IsCoordinate numbers.now) }
{
    first_outside(numbers)
}

/// The same place, told by what stands there and before it.
fn first_outside(numbers: &[i64]) -> Option<usize>
    ensures found { IfSome result (λ i. i < length numbers.now) }
    ensures no_coordinate { IfSome result (λ i. ¬ IsCoordinate (slice_index_or numbers.now i (pos 0))) }
    ensures first { IfSome result (λ i. AllWithin IsCoordinate numbers.now 0 i) }
    ensures none { IfNone result (All IsCoordinate numbers.now) }
{
    for i in 0..numbers.len() {
        if COORDINATE_LIMIT < numbers[i].unsigned_abs() {
            return Some(i);
        }
    }
    None
}
