//! Two participants under a serial-implicit scheme: the first sends a vector, which the second reads
//! in the same iteration. Three windows, at most three iterations.

ghost use Rattle.std.specs.Prelude.{◌≡◌, IfOk, Some, slice_get};
ghost use Rattle.cpl_plan.specs.SmallPlans.{serial_iterated_plan};

use crate::plans::lists::{both, entry, list, map, measure, mesh, name, only, part};
use cpl_plan::example::examples_are_valid;
use cpl_plan::{
    Accel, DataPlan, Exchange, Kind, MeshPlan, Node, Part, Plan, PlanParts, Scheme, SchemeKind,
    Watch, WindowMethod,
};
use fixed_num::{Items, Memory};
use std::alloc::Global;

/// The plan.
pub fn serial_iterated(alloc: Global) -> Result<Plan, Memory> {
    examples_are_valid();
    Ok(Plan::from_parts(parts_of_two(alloc)?))
}

fn parts_of_two(alloc: Global) -> Result<PlanParts, Memory>
    ensures { IfOk result (λ parts. parts ≡ serial_iterated_plan) }
{
    Ok(PlanParts {
        method: WindowMethod::Fixed,
        window: 10,
        end_time: 25,
        most_windows: 3,
        nodes: list(alloc, &[Node::Group(0)])?,
        exchanges: list(alloc, &[exchange()])?,
        data_list: data_list(alloc)?,
        meshes: meshes(alloc)?,
        schemes: schemes(alloc)?,
        parts: parts(alloc)?,
    })
}

fn meshes(alloc: Global) -> Result<Items<MeshPlan>, Memory>
    ensures { IfOk result (λ meshes. meshes ≡ serial_iterated_plan.meshes) }
{
    both(
        alloc,
        mesh(alloc, "MA", 0, &[0])?,
        mesh(alloc, "MB", 1, &[0])?,
    )
}

fn parts(alloc: Global) -> Result<Items<Part>, Memory>
    ensures { IfOk result (λ parts. parts ≡ serial_iterated_plan.parts) }
{
    both(alloc, writer(alloc)?, reader(alloc)?)
}

/// The first participant, with a watch-point.
fn writer(alloc: Global) -> Result<Part, Memory>
    ensures { IfOk result (λ part. Some part ≡ slice_get serial_iterated_plan.parts 0) }
{
    let watch = Watch {
        name: name(alloc, "tip")?,
        mesh: 0,
        at: list(alloc, &[0, 0])?,
    };
    Ok(Part {
        name: name(alloc, "A")?,
        provides: list(alloc, &[0])?,
        receives: list(alloc, &[])?,
        writes: list(alloc, &[entry(0, 0)])?,
        reads: list(alloc, &[])?,
        maps: list(alloc, &[])?,
        watches: only(alloc, watch)?,
        group: Some(0),
    })
}

/// The second participant, which maps what it reads.
fn reader(alloc: Global) -> Result<Part, Memory>
    ensures { IfOk result (λ part. Some part ≡ slice_get serial_iterated_plan.parts 1) }
{
    let read = [entry(0, 1)];
    let maps = [map(true, 0, 1)];
    part(alloc, "B", 1, &[0], &[], &read, &maps, Some(0))
}

fn data_list(alloc: Global) -> Result<Items<DataPlan>, Memory>
    ensures { IfOk result (λ items. items ≡ serial_iterated_plan.data_list) }
{
    let vector = DataPlan {
        name: name(alloc, "d0")?,
        vector: true,
        degree: 1,
    };
    only(alloc, vector)
}

fn schemes(alloc: Global) -> Result<Items<Scheme>, Memory>
    ensures { IfOk result (λ schemes. schemes ≡ serial_iterated_plan.schemes) }
{
    let scheme = Scheme {
        kind: SchemeKind::SerialImplicit,
        members: list(alloc, &[0, 1])?,
        min: 1,
        max: 3,
        measures: list(alloc, &[measure(0, false)])?,
        accel: Accel::None,
    };
    only(alloc, scheme)
}

fn exchange() -> Exchange
    ensures { Some result ≡ slice_get serial_iterated_plan.exchanges 0 }
{
    Exchange {
        data_id: 0,
        mesh: 0,
        from: 0,
        to: 1,
        scheme: 0,
        kind: Kind::FreshIter,
        initialize: false,
        substeps: true,
        write_map: None,
        read_map: Some(0),
    }
}
