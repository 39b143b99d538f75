ghost use Rattle.std.specs.Prelude.{◌≡◌, Some, [], ◌∷◌, IfOk, slice_get};
ghost use Rattle.cpl_plan.specs.ExamplePlan.{two_participants};

use cpl_plan::example::two_participants_are_valid;
use cpl_plan::{
    Accel, DataPlan, Exchange, Kind, MapPlan, MeshPlan, Node, Part, PartId, Plan, PlanEntry,
    PlanParts, Scheme, SchemeKind, Watch, WindowMethod,
};
use fixed_num::{Items, Memory, Name};
use std::alloc::Global;

/// The plan of two participants.
pub fn two_participants(alloc: Global) -> Result<Plan, Memory>
    ensures { IfOk result (λ plan. plan ≡ two_participants) }
{
    two_participants_are_valid();
    Ok(Plan::from_parts(parts_of_two(alloc)?))
}

fn parts_of_two(alloc: Global) -> Result<PlanParts, Memory>
    ensures { IfOk result (λ parts. parts ≡ two_participants) }
{
    Ok(PlanParts {
        method: WindowMethod::Fixed,
        window: 10,
        end_time: 25,
        most_windows: 3,
        parts: participants(alloc)?,
        meshes: meshes(alloc)?,
        data_list: data_list(alloc)?,
        schemes: schemes(alloc)?,
        exchanges: exchanges(alloc)?,
        nodes: list(alloc, &[Node::Single(0), Node::Single(1)])?,
    })
}

/// Plain items as a list.
fn list<T: Copy>(alloc: Global, items: &[T]) -> Result<Items<T>, Memory>
    ensures { IfOk result (λ list. list ≡ items.now) }
{
    Ok(Items::from_vec(Vec::from_slice(alloc, items)?))
}

/// One item as a list.
fn only<T: Drop>(alloc: Global, item: T) -> Result<Items<T>, Memory>
    ensures { IfOk result (λ list. list ≡ item ∷ []) }
{
    let mut items = Vec::new(alloc);
    items.push(item)?;
    Ok(Items::from_vec(items))
}

/// Two items as a list.
fn both<T: Drop>(alloc: Global, first: T, second: T) -> Result<Items<T>, Memory>
    ensures { IfOk result (λ list. list ≡ first ∷ second ∷ []) }
{
    let mut items = Vec::new(alloc);
    items.push(first)?;
    items.push(second)?;
    Ok(Items::from_vec(items))
}

fn name(alloc: Global, text: &str) -> Result<Name, Memory>
    ensures { IfOk result (λ name. name ≡ text.now) }
{
    Ok(Name::from_string(String::from_str(alloc, text)?))
}

fn participants(alloc: Global) -> Result<Items<Part>, Memory>
    ensures { IfOk result (λ parts. parts ≡ two_participants.parts) }
{
    both(alloc, writer(alloc)?, reader(alloc)?)
}

/// The first participant, with the watch-point.
fn writer(alloc: Global) -> Result<Part, Memory>
    ensures { IfOk result (λ part. Some part ≡ slice_get two_participants.parts 0) }
{
    let watch = Watch {
        name: name(alloc, "tip")?,
        mesh: 0,
        at: list(alloc, &[0, 0])?,
    };
    let entry = PlanEntry {
        data_id: 0,
        mesh: 0,
    };
    Ok(Part {
        name: name(alloc, "A")?,
        provides: list(alloc, &[0])?,
        receives: list(alloc, &[])?,
        writes: list(alloc, &[entry])?,
        reads: list(alloc, &[])?,
        maps: list(alloc, &[])?,
        watches: only(alloc, watch)?,
        group: None,
    })
}

/// The second participant, which maps what it reads.
fn reader(alloc: Global) -> Result<Part, Memory>
    ensures { IfOk result (λ part. Some part ≡ slice_get two_participants.parts 1) }
{
    let entry = PlanEntry {
        data_id: 0,
        mesh: 1,
    };
    let map = MapPlan {
        reading: true,
        from: 0,
        to: 1,
        conservative: false,
        projection: false,
    };
    Ok(Part {
        name: name(alloc, "B")?,
        provides: list(alloc, &[1])?,
        receives: list(alloc, &[0])?,
        writes: list(alloc, &[])?,
        reads: list(alloc, &[entry])?,
        maps: list(alloc, &[map])?,
        watches: Items::from_vec(Vec::new(alloc)),
        group: None,
    })
}

fn meshes(alloc: Global) -> Result<Items<MeshPlan>, Memory>
    ensures { IfOk result (λ meshes. meshes ≡ two_participants.meshes) }
{
    both(alloc, mesh(alloc, "MA", 0)?, mesh(alloc, "MB", 1)?)
}

/// A mesh of two dimensions that carries the data.
fn mesh(alloc: Global, text: &str, owner: PartId) -> Result<MeshPlan, Memory>
    ensures { IfOk result (λ mesh. mesh ≡ record { name = text.now; dimensions = 2; owner = owner; data_list = 0 ∷ [] }) }
{
    Ok(MeshPlan {
        name: name(alloc, text)?,
        dimensions: 2,
        owner,
        data_list: list(alloc, &[0])?,
    })
}

fn data_list(alloc: Global) -> Result<Items<DataPlan>, Memory>
    ensures { IfOk result (λ items. items ≡ two_participants.data_list) }
{
    let vector = DataPlan {
        name: name(alloc, "d0")?,
        vector: true,
        degree: 1,
    };
    only(alloc, vector)
}

fn schemes(alloc: Global) -> Result<Items<Scheme>, Memory>
    ensures { IfOk result (λ schemes. schemes ≡ two_participants.schemes) }
{
    let serial = Scheme {
        kind: SchemeKind::SerialExplicit,
        members: list(alloc, &[0, 1])?,
        min: 1,
        max: 1,
        measures: list(alloc, &[])?,
        accel: Accel::None,
    };
    only(alloc, serial)
}

fn exchanges(alloc: Global) -> Result<Items<Exchange>, Memory>
    ensures { IfOk result (λ exchanges. exchanges ≡ two_participants.exchanges) }
{
    let exchange = Exchange {
        data_id: 0,
        mesh: 0,
        from: 0,
        to: 1,
        scheme: 0,
        kind: Kind::Fresh,
        initialize: false,
        substeps: true,
        write_map: None,
        read_map: Some(0),
    };
    list(alloc, &[exchange])
}
