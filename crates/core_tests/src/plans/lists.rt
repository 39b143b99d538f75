//! Short lists, names, and the parts that the plans have in common.

ghost use Rattle.std.specs.Prelude.{◌≡◌, [], ◌∷◌, IfOk, false, not};
ghost use Rattle.cpl_plan.specs.ExamplePlan.{entry as entry_of, example_measure};
ghost use Rattle.cpl_plan.specs.declared.parts.MeasureKind.TheVariants.{Absolute};

use cpl_plan::{
    DataId, ExchangeId, MapPlan, Measure, MeasureKind, MeshId, MeshPlan, Part, PartId, PlanEntry,
    SchemeId,
};
use fixed_num::{Items, Memory, Name, Value};
use std::alloc::Global;

/// Plain items as a list.
pub fn list<T: Copy>(alloc: Global, items: &[T]) -> Result<Items<T>, Memory>
    ensures { IfOk result (λ list. list ≡ items.now) }
{
    Ok(Items::from_vec(Vec::from_slice(alloc, items)?))
}

/// One item as a list.
pub fn only<T: Drop>(alloc: Global, item: T) -> Result<Items<T>, Memory>
    ensures { IfOk result (λ list. list ≡ item ∷ []) }
{
    let mut items = Vec::new(alloc);
    items.push(item)?;
    Ok(Items::from_vec(items))
}

/// Two items as a list.
pub fn both<T: Drop>(alloc: Global, first: T, second: T) -> Result<Items<T>, Memory>
    ensures { IfOk result (λ list. list ≡ first ∷ second ∷ []) }
{
    let mut items = Vec::new(alloc);
    items.push(first)?;
    items.push(second)?;
    Ok(Items::from_vec(items))
}

/// Three items as a list.
pub fn three<T: Drop>(alloc: Global, first: T, second: T, third: T) -> Result<Items<T>, Memory>
    ensures { IfOk result (λ list. list ≡ first ∷ second ∷ third ∷ []) }
{
    let mut items = Vec::new(alloc);
    items.push(first)?;
    items.push(second)?;
    items.push(third)?;
    Ok(Items::from_vec(items))
}

/// A name.
pub fn name(alloc: Global, text: &str) -> Result<Name, Memory>
    ensures { IfOk result (λ name. name ≡ text.now) }
{
    Ok(Name::from_string(String::from_str(alloc, text)?))
}

/// A mesh of two dimensions that carries some data.
pub fn mesh(
    alloc: Global,
    text: &str,
    owner: PartId,
    carried: &[DataId],
) -> Result<MeshPlan, Memory>
    ensures { IfOk result (λ mesh. mesh
        ≡ record { name = text.now; dimensions = 2; owner = owner; data_list = carried.now }) }
{
    Ok(MeshPlan {
        name: name(alloc, text)?,
        dimensions: 2,
        owner,
        data_list: list(alloc, carried)?,
    })
}

/// A participant that provides one mesh and has no watch-points.
pub fn part(
    alloc: Global,
    text: &str,
    provided: MeshId,
    received: &[MeshId],
    written: &[PlanEntry],
    read: &[PlanEntry],
    maps: &[MapPlan],
    group: Option<SchemeId>,
) -> Result<Part, Memory>
    ensures { IfOk result (λ part. part
        ≡ record {
          name = text.now;
          provides = provided ∷ [];
          receives = received.now;
          writes = written.now;
          reads = read.now;
          maps = maps.now;
          watches = [];
          group = group;
        }) }
{
    Ok(Part {
        name: name(alloc, text)?,
        provides: list(alloc, &[provided])?,
        receives: list(alloc, received)?,
        writes: list(alloc, written)?,
        reads: list(alloc, read)?,
        maps: list(alloc, maps)?,
        watches: Items::from_vec(Vec::new(alloc)),
        group,
    })
}

/// Data that are written or read on a mesh.
pub fn entry(data_id: DataId, mesh: MeshId) -> PlanEntry
    ensures { result ≡ entry_of data_id mesh }
{
    PlanEntry { data_id, mesh }
}

/// A consistent reading map, or a conservative writing one.
pub fn map(reading: bool, from: MeshId, to: MeshId) -> MapPlan
    ensures { result ≡ record { reading = reading; from = from; to = to; conservative = not reading; projection = false } }
{
    MapPlan {
        reading,
        from,
        to,
        conservative: !reading,
        projection: false,
    }
}

/// A measure that holds where nothing changes.
pub fn measure(exchange: ExchangeId, strict: bool) -> Measure
    ensures { result ≡ example_measure Absolute exchange false strict }
{
    Measure {
        kind: MeasureKind::Absolute,
        exchange,
        limit: Value::default(),
        suffices: false,
        strict,
    }
}
