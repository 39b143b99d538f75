//! The first broken rule of a configuration.
ghost use Rattle.std.specs.Prelude.{◌≡◌, map, IfOk, OnOk};
ghost use Rattle.cpl_rules.specs.declared.rules.Refusal.{Refusal};
ghost use Rattle.cpl_config.specs.Acceptance.{unless_refused};
ghost use Rattle.cpl_config.specs.SoundConfig.{IsSoundConfig};
ghost use Rattle.cpl_config.specs.Answers.{Answers};
ghost use Rattle.config_rules.specs.ConfigRules.{config_refusal, IsConfigRefused, IsAccepted};

use crate::breaks::breaks;
use crate::rules::ConfigRule;
use cpl_config::{Config, ConfigErr};
use cpl_rules::{Refusal, SpotRules, first_broken};
use fixed_num::Memory;
use mesh_rules::EntrySpot;
use mesh_rules::entries::entries;
use std::alloc::Global;

static RULES: [ConfigRule; 24] = [
    ConfigRule::Undeclared,
    ConfigRule::NoEnd,
    ConfigRule::NoProvider,
    ConfigRule::WronglyReceived,
    ConfigRule::OffMesh,
    ConfigRule::WrittenTwice,
    ConfigRule::WronglyMapped,
    ConfigRule::Unmapped,
    ConfigRule::WrongMembers,
    ConfigRule::WrongEnds,
    ConfigRule::UnsharedMesh,
    ConfigRule::UnusedExchange,
    ConfigRule::Unfed,
    ConfigRule::MetTwice,
    ConfigRule::TwoImplicit,
    ConfigRule::Cycle,
    ConfigRule::NoScheme,
    ConfigRule::WrongMeasures,
    ConfigRule::UncarriedMeasure,
    ConfigRule::WrongIterations,
    ConfigRule::WrongAcceleration,
    ConfigRule::WideAcceleration,
    ConfigRule::WrongWindows,
    ConfigRule::WrongAction,
];

/// Checks a configuration as a whole: its names, its end, its meshes and mappings, its schemes and
/// exchanges, and its actions.
///
/// The answer is the first broken rule of 9 to 30, 33 and 35, at its first place, and nothing where none is
/// broken. A rule is tried over all entries before the next rule. Takes near linear time for what
/// the limits on lists allow. `Memory` says nothing of the configuration.
pub fn check_config(alloc: Global, config: &Config) -> Result<(), ConfigErr>
    requires { IsSoundConfig config.now }
    ensures answer { Answers (unless_refused (config_refusal config.now) tt) result }
    ensures accepted { OnOk result (IsAccepted config.now) }
    ensures first { (refusal : Refusal) → result ≡ Err (ConfigErr.Refused refusal) → IsConfigRefused config.now refusal }
{
    answer_of(alloc, config)
}

/// The same, by its definition alone.
fn answer_of(alloc: Global, config: &Config) -> Result<(), ConfigErr>
    ensures { Answers (unless_refused (config_refusal config.now) tt) result }
{
    match refusal_of(alloc, config)? {
        Some(refusal) => Err(ConfigErr::Refused(refusal)),
        None => Ok(()),
    }
}

fn refusal_of(alloc: Global, config: &Config) -> Result<Option<Refusal>, Memory>
    ensures { IfOk result (λ refusal. refusal ≡ config_refusal config.now) }
{
    let spots = entries(alloc, config)?;
    let refusal = first_broken(alloc, &WholeRules { config }, &RULES, &spots)?;
    Ok(refusal)
}

/// The rules over a configuration, tried at its entries.
#[derive(Clone, Copy)]
struct WholeRules<'a> {
    config: &'a Config,
}

impl<'a> SpotRules<ConfigRule, EntrySpot<'a>> for WholeRules<'a> {
    ghost use Rattle.mesh_rules.specs.Entries.{Entry as ConfigEntry};
    ghost use Rattle.mesh_rules.specs.Spots.{entry_of};
    ghost use Rattle.config_rules.specs.ConfigRules.{breaks, refused_for};

    type Known = ();

    ghost Entry = { ConfigEntry };

    ghost entry = { entry_of };

    ghost broken_at = { λ rules. breaks rules.config.now };

    ghost told = { λ rule held. refused_for (rule, held) };

    ghost knows = { λ _ _ _. Unit {0} };

    ghost is_fit = { λ _ _. Unit {0} };

    fn nothing_known(&self, _alloc: Global, _rule: ConfigRule) {}

    fn is_broken(
        &self,
        alloc: Global,
        rule: ConfigRule,
        before: &[EntrySpot<'a>],
        _known: &mut (),
        spot: EntrySpot<'a>,
    ) -> Result<bool, Memory>
        ensures broken { IfOk result (λ broken. broken ≡ breaks self.now.config.now rule (map entry_of before.now) (entry_of spot.entry)) }
        ensures known { OnOk result (Unit {0}) }
    {
        breaks(alloc, self.config, rule, before, spot)
    }

    fn refusal_at(&self, rule: ConfigRule, spot: EntrySpot<'a>) -> Refusal
        ensures { result ≡ refused_for (rule, entry_of spot.entry) }
    {
        Refusal {
            rule: rule.number(),
            place: spot.place,
        }
    }
}
