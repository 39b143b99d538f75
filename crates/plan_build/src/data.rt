//! The data items of a plan.
ghost use Rattle.std.specs.Prelude.{◌≡◌, All, IfOk, map};
ghost use Rattle.cpl_config.specs.SoundConfig.{IsSoundData};
ghost use Rattle.plan_build.specs.DataOf.{data_of, is_vector};

use cpl_config::{DataKind, DataTable};
use cpl_plan::DataPlan;
use fixed_num::Memory;
use std::alloc::Global;

pub(crate) fn data_list(alloc: Global, tables: &[DataTable]) -> Result<Vec<DataPlan>, Memory>
    requires { All IsSoundData tables.now }
    ensures { IfOk result (λ data_list. data_list.items ≡ map data_of tables.now) }
{
    let mut data_list = Vec::with_capacity(alloc, tables.len())?;
    'tables: for table in tables {
        data_list.push(data_of(alloc, table)?)?;
    }
    Ok(data_list)
}

fn data_of(alloc: Global, table: &DataTable) -> Result<DataPlan, Memory>
    requires { IsSoundData table.now }
    ensures { IfOk result (λ item. item ≡ data_of table.now) }
{
    Ok(DataPlan {
        name: table.name.copy(alloc)?,
        vector: is_vector(table.kind),
        degree: table.degree.unsigned_abs() as u32,
    })
}

fn is_vector(kind: DataKind) -> bool
    ensures { result ≡ is_vector kind }
{
    match kind {
        DataKind::Scalar => false,
        DataKind::Vector => true,
    }
}
