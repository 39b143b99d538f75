//! The members of a scheme in numbers.
ghost use Rattle.std.specs.Prelude.{◌≡◌, ◌++◌, [], IfOk, OnOk, map, unwrap_or};
ghost use Rattle.config_rules.specs.Circles.{number_of};
ghost use Rattle.config_rules.specs.Members.{name_there};
ghost use Rattle.config_laws.specs.Numbered.{numbers_in};

use crate::numbered::NumberedConfig;
use cpl_config::SchemeTable;
use cpl_plan::PartId;
use fixed_num::{Items, Memory, Name};
use std::alloc::Global;

/// The members of a scheme: its first and its second, or those of its list.
pub fn members_of(
    alloc: Global,
    config: &NumberedConfig,
    table: &SchemeTable,
) -> Result<Vec<PartId>, Memory>
    ensures { IfOk result (λ members. members.items ≡ numbers_in config.now table.now) }
{
    let mut members = Vec::new(alloc);
    push_there(config, &table.first, &mut members)?;
    push_there(config, &table.second, &mut members)?;
    push_listed(config, &table.members, &mut members)?;
    Ok(members)
}

fn push_there(
    config: &NumberedConfig,
    name: &Option<Name>,
    to: &mut Vec<PartId>,
) -> Result<(), Memory>
    ensures { OnOk result (to.new.items ≡ to.old.items ++ map (number_of config.now) (name_there name.now)) }
{
    if let Some(name) = name {
        to.push(config.part_number(name))?;
    }
    Ok(())
}

fn push_listed(
    config: &NumberedConfig,
    names: &Option<Items<Name>>,
    to: &mut Vec<PartId>,
) -> Result<(), Memory>
    ensures { OnOk result (to.new.items ≡ to.old.items ++ map (number_of config.now) (unwrap_or names.now [])) }
{
    match names {
        Some(names) => push_each(config, names.as_slice(), to),
        None => Ok(()),
    }
}

fn push_each(config: &NumberedConfig, names: &[Name], to: &mut Vec<PartId>) -> Result<(), Memory>
    ensures { OnOk result (to.new.items ≡ to.old.items ++ map (number_of config.now) names.now) }
{
    'names: for name in names {
        to.push(config.part_number(name))?;
    }
    Ok(())
}
