ghost use Rattle.std.specs.Prelude.{◌≡◌, IfOk};
ghost use Rattle.cpl_plan.specs.ExamplePlan.{two_participants};

use super::example_plan::two_participants;
use cpl_plan::{Accel, Kind, Plan, SchemeKind, exchange_kind, is_implicit};
use fixed_num::{CopyIn, Items, Memory, factor_of};
use std::alloc::Global;
use std::test::Fail;

/// A copy of the plan of two participants.
fn copied_plan(alloc: Global) -> Result<Plan, Memory>
    ensures { IfOk result (λ plan. plan ≡ two_participants) }
{
    let plan = two_participants(alloc)?;
    plan.copy(alloc)
}

#[test]
fn a_copied_plan_has_the_windows(rt: HostRuntime) -> Result<(), Fail> {
    let plan = copied_plan(rt.alloc())?;
    for (w, from, to) in [(1, 0, 10), (2, 10, 20), (3, 20, 25)] {
        assert!(rt; plan.window_span(w) == (from, to), "window {w}");
    }
    Ok(())
}

/// Whether it is Aitken's, from this factor on, over these exchanges.
fn is_aitken(accel: &Accel, units: i64, exchanges: &[u32]) -> bool {
    match accel {
        Accel::Aitken { first, over } => first.get() == units && over.as_slice() == exchanges,
        _ => false,
    }
}

#[test]
fn accelerations_are_copied(rt: HostRuntime) -> Result<(), Fail> {
    let first = factor_of(500_000).ok_or(Memory)?;
    let over = Items::from_vec(Vec::from_slice(rt.alloc(), &[3, 7])?);
    let copy = Accel::Aitken { first, over }.copy_in(rt.alloc())?;
    assert!(rt; is_aitken(&copy, 500_000, &[3, 7]));
    Ok(())
}

/// Whether exchanges to the first and to the second of such a scheme are of these kinds.
fn has_kinds(scheme: SchemeKind, to_first: Kind, to_second: Kind) -> bool {
    exchange_kind(scheme, false) == to_first && exchange_kind(scheme, true) == to_second
}

#[test]
fn kinds_by_the_table(rt: HostRuntime) {
    let kinds = [
        (SchemeKind::SerialExplicit, Kind::Lag, Kind::Fresh, false),
        (SchemeKind::ParallelExplicit, Kind::Lag, Kind::Lag, false),
        (
            SchemeKind::SerialImplicit,
            Kind::Iterated,
            Kind::FreshIter,
            true,
        ),
        (
            SchemeKind::ParallelImplicit,
            Kind::Iterated,
            Kind::Iterated,
            true,
        ),
        (SchemeKind::Multi, Kind::Iterated, Kind::Iterated, true),
    ];
    for (scheme, to_first, to_second, repeats) in kinds {
        assert!(rt; has_kinds(scheme, to_first, to_second) && is_implicit(scheme) == repeats);
    }
}
