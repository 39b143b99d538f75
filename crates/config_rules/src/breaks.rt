//! Whether an entry breaks a rule, after the entries before it.
ghost use Rattle.std.specs.Prelude.{◌≡◌, map, IfOk};
ghost use Rattle.mesh_rules.specs.Spots.{entry_of};
ghost use Rattle.config_rules.specs.ConfigRules.{breaks};

use crate::circles::closes_circle;
use crate::exchanges::{has_wrong_ends, is_unfed, is_unshared, is_unused};
use crate::relaxed::{is_uncarried, is_wide, is_wrongly_accelerated};
use crate::rules::ConfigRule;
use crate::schemes::{
    has_wrong_iterations, has_wrong_measures, has_wrong_members, is_alone, meets_twice,
    shares_implicit,
};
use crate::windows::has_wrong_windows;
use cpl_config::Config;
use fixed_num::Memory;
use mesh_rules::{
    EntrySpot, has_no_end, has_no_provider, is_off_mesh, is_unmapped, is_written_twice,
    is_wrong_action, is_wrongly_mapped, is_wrongly_received, names_nothing,
};
use std::alloc::Global;

/// Whether an entry breaks a rule, after the entries before it.
pub fn breaks(
    alloc: Global,
    config: &Config,
    rule: ConfigRule,
    before: &[EntrySpot],
    spot: EntrySpot,
) -> Result<bool, Memory>
    ensures { IfOk result (λ broken. broken ≡ breaks config.now rule (map entry_of before.now) (entry_of spot.entry)) }
{
    let held = spot.at;
    match rule {
        ConfigRule::Undeclared => Ok(names_nothing(config, held)),
        ConfigRule::NoEnd => Ok(has_no_end(config, held)),
        ConfigRule::NoProvider => Ok(has_no_provider(config, held)),
        ConfigRule::WronglyReceived => Ok(is_wrongly_received(config, held)),
        ConfigRule::OffMesh => Ok(is_off_mesh(config, held)),
        ConfigRule::WrittenTwice => Ok(is_written_twice(before, held)),
        ConfigRule::WronglyMapped => Ok(is_wrongly_mapped(config, held)),
        ConfigRule::Unmapped => Ok(is_unmapped(config, held)),
        ConfigRule::WrongMembers => Ok(has_wrong_members(held)),
        ConfigRule::WrongEnds => Ok(has_wrong_ends(held)),
        ConfigRule::UnsharedMesh => Ok(is_unshared(config, held)),
        ConfigRule::UnusedExchange => Ok(is_unused(config, held)),
        ConfigRule::Unfed => Ok(is_unfed(config, held)),
        ConfigRule::MetTwice => Ok(meets_twice(held)),
        ConfigRule::TwoImplicit => Ok(shares_implicit(held)),
        ConfigRule::Cycle => closes_circle(alloc, config, held),
        ConfigRule::NoScheme => Ok(is_alone(config, held)),
        ConfigRule::WrongMeasures => Ok(has_wrong_measures(held)),
        ConfigRule::UncarriedMeasure => Ok(is_uncarried(held)),
        ConfigRule::WrongIterations => Ok(has_wrong_iterations(held)),
        ConfigRule::WrongAcceleration => Ok(is_wrongly_accelerated(held)),
        ConfigRule::WideAcceleration => Ok(is_wide(config, held)),
        ConfigRule::WrongWindows => Ok(has_wrong_windows(config, held)),
        ConfigRule::WrongAction => Ok(is_wrong_action(config, held)),
    }
}
