use crate::{judge, norms_of};
use cpl_plan::{Measure, MeasureKind, Verdict};
use fixed_num::{Value, value_of};

fn pair(units: (i128, i128)) -> Option<[Value; 2]> {
    Some([value_of(units.0)?, value_of(units.1)?])
}

fn norms(new: (i128, i128), old: (i128, i128)) -> Option<(u64, u64)> {
    let new = pair(new)?;
    let old = pair(old)?;
    Some(norms_of(&new, &old))
}

#[test]
fn norms_of_changes_and_of_new_values(rt: HostRuntime) {
    let million = 1_000_000;
    let most = 10_000_000_000_000;
    let cases = [
        // Rounded down, and each change with its own sign.
        ((3, 4), (0, 0), (5, 5)),
        ((1, -1), (0, 0), (1, 1)),
        ((7, -5), (4, -1), (5, 8)),
        ((3, -4), (3, -4), (0, 5)),
        // Residuals of 20000 and 19990 whole.
        (
            (20_000 * million, 0),
            (0, 0),
            (20_000_000_000, 20_000_000_000),
        ),
        (
            (29_990 * million, 0),
            (10_000 * million, 0),
            (19_990_000_000, 29_990_000_000),
        ),
        (
            (most, 0),
            (-most, 0),
            (20_000_000_000_000, 10_000_000_000_000),
        ),
    ];
    for (new, old, expected) in cases {
        assert!(rt; norms(new, old) == Some(expected));
    }
    assert!(rt; norms_of(&[], &[]) == (0, 0));
}

fn measure(kind: MeasureKind, limit: i128, suffices: bool, strict: bool) -> Measure {
    Measure {
        kind,
        exchange: 1,
        limit: value_of(limit).unwrap_or_default(),
        suffices,
        strict,
    }
}

/// Whether a measure lets a window end, at the norms of the change, of the new values and of the
/// first change.
fn ends_window(kind: MeasureKind, limit: i128, norms: (u64, u64, u64)) -> bool {
    let measures = [measure(kind, limit, false, false)];
    let verdict = judge(&measures, &[norms.0], &[norms.1], &[norms.2], 2, 1, 100);
    verdict == Verdict::Converged
}

#[test]
fn measures_compare_by_their_kind(rt: HostRuntime) {
    let half = (500_000, 500_000, 500_000);
    let quarter = (250_000, 750_000, 500_000);
    let eighth = (125_000, 875_000, 500_000);
    let sixteenth = (62_500, 937_500, 500_000);
    let cases = [
        (MeasureKind::Absolute, 124_999, eighth, false),
        (MeasureKind::Absolute, 125_000, eighth, true),
        (MeasureKind::Absolute, 0, (0, 1, 1), true),
        (MeasureKind::Absolute, -1, (0, 1, 1), false),
        (MeasureKind::Relative, 100_000, eighth, false),
        (MeasureKind::Relative, 100_000, sixteenth, true),
        (MeasureKind::ResidualRelative, 250_000, half, false),
        (MeasureKind::ResidualRelative, 250_000, quarter, false),
        (MeasureKind::ResidualRelative, 250_000, eighth, true),
    ];
    for (kind, limit, norms, holds) in cases {
        assert!(rt; ends_window(kind, limit, norms) == holds, "at {limit}");
    }
}

/// The verdict by an absolute measure, of two to three iterations.
fn judged(limit: i128, strict: bool, k: u32, change: u64) -> Verdict {
    let measures = [measure(MeasureKind::Absolute, limit, false, strict)];
    judge(&measures, &[change], &[change], &[change], k, 2, 3)
}

#[test]
fn iterations_have_a_least_and_a_greatest_number(rt: HostRuntime) {
    let failed = Verdict::NotConverged { measure: 0 };
    let cases = [
        (10_000_000, false, 1, 500_000, Verdict::Again),
        (10_000_000, false, 2, 250_000, Verdict::Converged),
        (100_000, true, 2, 250_000, Verdict::Again),
        (100_000, false, 3, 125_000, Verdict::AtLimit),
        (100_000, true, 3, 125_000, failed),
        (100_000, true, 3, 62_500, Verdict::Converged),
        (100_000, true, 4, 125_000, Verdict::Again),
    ];
    for (limit, strict, k, change, verdict) in cases {
        assert!(rt;
            judged(limit, strict, k, change) == verdict,
            "in iteration {k}"
        );
    }
}

/// The verdict of the third of three iterations by two measures, each a limit, whether it
/// suffices, and whether it is strict.
fn last_judged(
    first: (i128, bool, bool),
    second: (i128, bool, bool),
    changes: (u64, u64),
) -> Verdict {
    let measures = [
        measure(MeasureKind::Absolute, first.0, first.1, first.2),
        measure(MeasureKind::Absolute, second.0, second.1, second.2),
    ];
    let norms = [changes.0, changes.1];
    judge(&measures, &norms, &[1, 1], &[9, 9], 3, 1, 3)
}

#[test]
fn measures_suffice_or_are_strict(rt: HostRuntime) {
    let none = (0, false, false);
    let loose = (300_000, false, false);
    let enough = (300_000, true, false);
    let strict = (100_000, false, true);
    let first_failed = Verdict::NotConverged { measure: 0 };
    let second_failed = Verdict::NotConverged { measure: 1 };
    let cases = [
        (none, enough, (125_000, 250_000), Verdict::Converged),
        (none, enough, (125_000, 500_000), Verdict::AtLimit),
        (none, loose, (125_000, 250_000), Verdict::AtLimit),
        (none, loose, (0, 250_000), Verdict::Converged),
        (strict, enough, (125_000, 250_000), Verdict::Converged),
        (strict, strict, (125_000, 0), first_failed),
        (strict, strict, (125_000, 125_000), first_failed),
        (strict, strict, (0, 125_000), second_failed),
        (none, strict, (125_000, 125_000), second_failed),
        (none, strict, (125_000, 0), Verdict::AtLimit),
    ];
    for (first, second, changes, verdict) in cases {
        assert!(rt; last_judged(first, second, changes) == verdict);
    }
    assert!(rt; judge(&[], &[], &[], &[], 1, 2, 3) == Verdict::Again);
    assert!(rt; judge(&[], &[], &[], &[], 2, 2, 3) == Verdict::Converged);
}
