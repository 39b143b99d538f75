//! Three participants: two iterate, and a third waits for what the first completes.

ghost use Rattle.std.specs.Prelude.{◌≡◌, IfOk, Some, slice_get, true, false};
ghost use Rattle.cpl_plan.specs.declared.parts.Accel.TheVariants.{None as NoAccel};
ghost use Rattle.core_tests.specs.Trios.{trio, trio_parts, trio_schemes, halved};

use crate::laws::trios_are_valid;
use crate::plans::lists::{both, entry, list, map, measure, mesh, name, part, three};
use cpl_plan::{
    Accel, DataPlan, Exchange, Kind, MeshPlan, Node, Part, Plan, PlanParts, Scheme, SchemeKind,
    WindowMethod,
};
use fixed_num::{Items, Memory, factor_of};
use std::alloc::Global;

/// Without acceleration, and with a measure that is not strict.
pub fn plain_trio(alloc: Global) -> Result<Plan, Memory> {
    trios_are_valid();
    Ok(Plan::from_parts(parts_of_trio(alloc, false, Accel::None)?))
}

/// With a strict measure.
pub fn strict_trio(alloc: Global) -> Result<Plan, Memory> {
    trios_are_valid();
    Ok(Plan::from_parts(parts_of_trio(alloc, true, Accel::None)?))
}

/// With Aitken's acceleration of what the second sends, from a half on.
pub fn accelerated_trio(alloc: Global) -> Result<Plan, Memory> {
    trios_are_valid();
    Ok(Plan::from_parts(parts_of_trio(alloc, false, halved_from(alloc)?)?))
}

fn halved_from(alloc: Global) -> Result<Accel, Memory>
    ensures { IfOk result (λ accel. accel ≡ halved) }
{
    match factor_of(500_000) {
        Some(first) => Ok(Accel::Aitken {
            first,
            over: list(alloc, &[1])?,
        }),
        None => Err(Memory),
    }
}

fn parts_of_trio(alloc: Global, strict: bool, accel: Accel) -> Result<PlanParts, Memory>
    ensures { IfOk result (λ parts. parts ≡ trio strict accel) }
{
    Ok(PlanParts {
        method: WindowMethod::Fixed,
        window: 10,
        end_time: 25,
        most_windows: 3,
        nodes: list(alloc, &[Node::Group(0), Node::Single(2)])?,
        exchanges: list(alloc, &[forth(), back(), on()])?,
        data_list: both(alloc, scalar(alloc, "d0")?, scalar(alloc, "d1")?)?,
        meshes: meshes(alloc)?,
        schemes: schemes(alloc, strict, accel)?,
        parts: parts(alloc)?,
    })
}

fn meshes(alloc: Global) -> Result<Items<MeshPlan>, Memory>
    ensures { IfOk result (λ meshes. meshes ≡ (trio false NoAccel).meshes) }
{
    three(
        alloc,
        mesh(alloc, "MA", 0, &[0, 1])?,
        mesh(alloc, "MB", 1, &[0, 1])?,
        mesh(alloc, "MC", 2, &[0])?,
    )
}

fn parts(alloc: Global) -> Result<Items<Part>, Memory>
    ensures { IfOk result (λ parts. parts ≡ trio_parts) }
{
    three(alloc, first(alloc)?, second(alloc)?, third(alloc)?)
}

fn first(alloc: Global) -> Result<Part, Memory>
    ensures { IfOk result (λ part. Some part ≡ slice_get trio_parts 0) }
{
    let written = [entry(0, 0)];
    let read = [entry(1, 0)];
    part(alloc, "A", 0, &[], &written, &read, &[], Some(0))
}

/// It maps what it reads and what it writes.
fn second(alloc: Global) -> Result<Part, Memory>
    ensures { IfOk result (λ part. Some part ≡ slice_get trio_parts 1) }
{
    let written = [entry(1, 1)];
    let read = [entry(0, 1)];
    let maps = [map(true, 0, 1), map(false, 1, 0)];
    part(alloc, "B", 1, &[0], &written, &read, &maps, Some(0))
}

fn third(alloc: Global) -> Result<Part, Memory>
    ensures { IfOk result (λ part. Some part ≡ slice_get trio_parts 2) }
{
    let read = [entry(0, 2)];
    let maps = [map(true, 0, 2)];
    part(alloc, "C", 2, &[0], &[], &read, &maps, None)
}

fn scalar(alloc: Global, text: &str) -> Result<DataPlan, Memory>
    ensures { IfOk result (λ made. made ≡ record { name = text.now; vector = false; degree = 1 }) }
{
    Ok(DataPlan {
        name: name(alloc, text)?,
        vector: false,
        degree: 1,
    })
}

fn schemes(alloc: Global, strict: bool, accel: Accel) -> Result<Items<Scheme>, Memory>
    ensures { IfOk result (λ schemes. schemes ≡ trio_schemes strict accel) }
{
    let implicit = Scheme {
        kind: SchemeKind::SerialImplicit,
        members: list(alloc, &[0, 1])?,
        min: 1,
        max: 3,
        measures: list(alloc, &[measure(1, strict)])?,
        accel,
    };
    let explicit = Scheme {
        kind: SchemeKind::SerialExplicit,
        members: list(alloc, &[0, 2])?,
        min: 1,
        max: 1,
        measures: list(alloc, &[])?,
        accel: Accel::None,
    };
    both(alloc, implicit, explicit)
}

/// From the first to the second, in the same iteration.
fn forth() -> Exchange
    ensures { Some result ≡ slice_get (trio false NoAccel).exchanges 0 }
{
    Exchange {
        data_id: 0,
        mesh: 0,
        from: 0,
        to: 1,
        scheme: 0,
        kind: Kind::FreshIter,
        initialize: false,
        substeps: true,
        write_map: None,
        read_map: Some(0),
    }
}

/// From the second to the first, for the next iteration.
fn back() -> Exchange
    ensures { Some result ≡ slice_get (trio false NoAccel).exchanges 1 }
{
    Exchange {
        data_id: 1,
        mesh: 0,
        from: 1,
        to: 0,
        scheme: 0,
        kind: Kind::Iterated,
        initialize: false,
        substeps: true,
        write_map: Some(1),
        read_map: None,
    }
}

/// From the first to the third, once it is accepted.
fn on() -> Exchange
    ensures { Some result ≡ slice_get (trio false NoAccel).exchanges 2 }
{
    Exchange {
        data_id: 0,
        mesh: 0,
        from: 0,
        to: 2,
        scheme: 1,
        kind: Kind::Fresh,
        initialize: false,
        substeps: true,
        write_map: None,
        read_map: Some(0),
    }
}
