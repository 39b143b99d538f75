ghost use Rattle.std.specs.Prelude.{◌≤◌, ◌*◌, ◌^◌, ◌≤ℤ◌, pos, unsigned_abs};

use crate::{
    CopyIn, Items, Name, Value, aitken, copies_of, dot, factor_of, norm, norm_of_difference,
    quot_even, relax, root_floor, square_distance, sum_of_squares, value_of,
};
use std::test::Fail;

#[test]
fn rounds_to_the_nearest_and_ties_to_even(rt: HostRuntime) {
    let cases = [
        (5, 2, 2),
        (7, 2, 4),
        (-5, 2, -2),
        (1, 3, 0),
        (-7, 2, -4),
        (2, 3, 1),
        (-2, 3, -1),
        (i128::MIN, 1, i128::MIN),
        (i128::MAX, 1, i128::MAX),
    ];
    for (a, b, quotient) in cases {
        assert_eq!(rt; quot_even(a, b), quotient, "at {a} / {b}");
    }
}

#[test]
fn numbers_keep_their_ranges(rt: HostRuntime) {
    let limits = [
        (10_000_000_000_000, true),
        (-10_000_000_000_000, true),
        (10_000_000_000_001, false),
        (-10_000_000_000_001, false),
        (i128::MIN, false),
    ];
    for (units, in_range) in limits {
        assert_eq!(rt; value_of(units).is_some(), in_range, "at {units}");
    }
    for (units, in_range) in [(1_000_000_000, true), (-1_000_000_001, false)] {
        assert_eq!(rt; factor_of(units).is_some(), in_range, "at {units}");
    }
}

#[test]
fn names_and_items_give_back_what_they_hold(rt: HostRuntime) -> Result<(), Fail> {
    let alloc = rt.alloc();
    let name = Name::from_string(String::from_str(alloc, "Fluid")?);
    assert_eq!(rt; name.copy(alloc)?.as_str(), "Fluid");
    let items = Items::from_vec(vec![in alloc; 1, 2, 3]?);
    assert_eq!(rt; items.as_slice(), [1, 2, 3].as_slice());
    assert_eq!(rt; items.len(), 3);
    assert_eq!(rt; items.copy(alloc)?.as_slice(), [1, 2, 3].as_slice());
    let names = Items::from_vec(copies_of(alloc, &[name])?);
    assert_eq!(rt; names.copy_in(alloc)?.as_slice()[0].as_str(), "Fluid");
    assert_eq!(rt; items.into_vec().as_slice(), [1, 2, 3].as_slice());
    Ok(())
}

#[test]
fn roots_are_rounded_down(rt: HostRuntime) {
    let cases = [
        (0, 0),
        (3, 1),
        (4, 2),
        (15, 3),
        (16, 4),
        (
            999_999_999_999_999_999_999_999_999_999_999_999,
            999_999_999_999_999_999,
        ),
        (
            1_000_000_000_000_000_000_000_000_000_000_000_000,
            1_000_000_000_000_000_000,
        ),
    ];
    for (n, root) in cases {
        assert_eq!(rt; root_floor(n), root, "of {n}");
    }
}

#[test]
fn norms_and_products(rt: HostRuntime) {
    let far = 40_000_000_000_000;
    let cases = [
        ([0, 0, 0], 0),
        ([3, -4, 0], 5),
        ([1, 1, 1], 1),
        ([far, far, 0], 56_568_542_494_923),
    ];
    for (numbers, root) in cases {
        assert_eq!(rt; norm(&numbers), root);
        assert_eq!(rt; norm_of_difference(&numbers, &[0, 0, 0]), root);
    }
    assert_eq!(rt; norm_of_difference(&[far], &[-far]), 80_000_000_000_000);
    assert_eq!(rt; norm(&[Value::default(); 2]), 0);
    assert_eq!(rt; sum_of_squares(&[1, 1, 1]), 3);
    assert_eq!(rt; square_distance(&[1, -2], &[4, 2]), 25);
    assert_eq!(rt; dot(&[], &[]), 0);
    assert_eq!(rt; dot(&[-1, 2, 3], &[4, -5, 6]), 4);
}

/// The relaxed units, or None where a number is out of range.
fn relaxed(x: i128, y: i128, w: i128) -> Option<i64> {
    match (value_of(x), value_of(y), factor_of(w)) {
        (Some(x), Some(y), Some(w)) => relax(x, y, w).map(|value| value.get()),
        _ => None,
    }
}

#[test]
fn relaxes_by_a_rounded_part_of_the_way(rt: HostRuntime) {
    let most = 10_000_000_000_000;
    let cases = [
        (1_000_000, 3_000_000, 500_000, Some(2_000_000)),
        (250_000, 625_000, 2_000_000, Some(1_000_000)),
        (0, 1, 500_000, Some(0)),
        (0, 1, 500_001, Some(1)),
        (0, 3, 500_000, Some(2)),
        (0, -1, 500_000, Some(0)),
        (0, -3, 500_000, Some(-2)),
        (1, 4, 500_000, Some(3)),
        (7, 9, -1_000_000, Some(5)),
        (-most, most, 1_000_000, Some(10_000_000_000_000)),
        (most, -most, 1_000_000, Some(-10_000_000_000_000)),
        (10_000_000_000, 29_990_000_000, 1_000_000_000, None),
        (most, most - 1, -1_000_000, None),
        (-most, 1 - most, -1_000_000, None),
        (-most, most, 1_000_000_000, None),
    ];
    for (x, y, w, value) in cases {
        assert!(rt; relaxed(x, y, w) == value, "from {x} to {y} by {w}");
    }
}

/// Aitken's next factor in units, or None where the last one is out of range.
fn next_factor(last: i128, dot: i128, square: i128) -> Option<i64>
    requires dot { unsigned_abs dot ≤ 16 * 10 ^ 31 }
    requires positive { pos 1 ≤ℤ square }
    requires square { square ≤ℤ pos (32 * 10 ^ 31) }
{
    factor_of(last).map(|last| aitken(last, dot, square).get())
}

#[test]
fn aitken_factors_have_their_sign_and_are_rounded(rt: HostRuntime) {
    let cases = [
        (500_000, 1, 2, -250_000),
        (500_000, -1, 2, 250_000),
        (-500_000, 1, 2, 250_000),
        (500_000, -62_500_000_000, 15_625_000_000, 2_000_000),
        (1_000_000, 1, 2_000_000, 0),
        (1_000_000, 3, 2_000_000, -2),
        (1, 1, 2, 0),
        (3, 1, 2, -2),
    ];
    for (last, dot, square, factor) in cases {
        assert!(rt;
            next_factor(last, dot, square) == Some(factor),
            "after {last}, of {dot}"
        );
    }
}

#[test]
fn aitken_factors_keep_their_limits(rt: HostRuntime) {
    let cases = [
        (
            500_000,
            -200_000_000_000_000_000,
            100_000_000_000_000,
            1_000_000_000,
        ),
        (1_000_000_000, 1, 1, -1_000_000_000),
        (1_000_000_000, 2, 1, -1_000_000_000),
        (1_000_000_000, -2, 1, 1_000_000_000),
        (
            1,
            160_000_000_000_000_000_000_000_000_000_000,
            1,
            -1_000_000,
        ),
        (
            1,
            -160_000_000_000_000_000_000_000_000_000_000,
            1,
            1_000_000,
        ),
        (
            1_000_000_000,
            160_000_000_000_000_000_000_000_000_000_000,
            1,
            -1_000_000_000,
        ),
        (
            1_000_000,
            160_000_000_000_000_000_000_000_000_000_000,
            320_000_000_000_000_000_000_000_000_000_000,
            -500_000,
        ),
    ];
    for (last, dot, square, factor) in cases {
        assert!(rt;
            next_factor(last, dot, square) == Some(factor),
            "after {last}, of {dot}"
        );
    }
}
