//! The first broken rule of the case files of an accepted configuration.
ghost use Rattle.std.specs.Prelude.{◌≡◌, ◌++◌, ◌∷◌, [], All, length, map, Err, IfOk, OnOk};
ghost use Rattle.cpl_rules.specs.declared.rules.Refusal.{Refusal};
ghost use Rattle.cpl_config.specs.Acceptance.{unless_refused};
ghost use Rattle.cpl_config.specs.SoundConfig.{IsSoundConfig, IsSoundParticipant};
ghost use Rattle.cpl_config.specs.Answers.{Answers};
ghost use Rattle.case_files.specs.SoundCase.{IsSoundCaseFile};
ghost use Rattle.case_rules.specs.CaseRules.{entry_of_case, IsSoundEntry, case_at, case_entries, breaks_alone, refused_for_case, case_refusal, IsCaseRefused, AreAccepted};

use crate::cases::{is_unsuited, takes_too_many_steps};
use crate::rules::CaseRule;
use case_files::CaseFile;
use cpl_config::{Config, ConfigErr, PartTable};
use cpl_rules::{Refusal, SpotRules, first_broken};
use cpl_tables::{Place, number_at};
use fixed_num::Memory;
use std::alloc::Global;

/// The case of a participant, with its place.
#[derive(Clone, Copy)]
pub struct CaseSpot<'a> {
    pub place: Place,
    pub part: &'a PartTable,
    pub case_file: &'a CaseFile,
}

static RULES: [CaseRule; 2] = [CaseRule::Unsuited, CaseRule::TooManySteps];

/// Checks the case files of a configuration, which are given in the order of its
/// participants.
///
/// The answer is the first broken rule of 31 and 32, at its first place, and nothing where none is
/// broken. Rule 31 is tried over all cases before rule 32. `Memory` says nothing of the cases.
pub fn check_cases(alloc: Global, config: &Config, cases: &[CaseFile]) -> Result<(), ConfigErr>
    requires sound { IsSoundConfig config.now }
    requires one_each { length cases.now ≡ length (config.now).participant }
    requires sound_cases { All IsSoundCaseFile cases.now }
    ensures answer { Answers (unless_refused (case_refusal config.now cases.now) tt) result }
    ensures accepted { OnOk result (AreAccepted config.now cases.now) }
    ensures first { (refusal : Refusal) → result ≡ Err (ConfigErr.Refused refusal) → IsCaseRefused config.now cases.now refusal }
{
    answer_of(alloc, config, cases)
}

/// The same, by its definition alone.
fn answer_of(alloc: Global, config: &Config, cases: &[CaseFile]) -> Result<(), ConfigErr>
    requires one_each { length cases.now ≡ length (config.now).participant }
    requires sound { IsSoundConfig config.now }
    requires sound_cases { All IsSoundCaseFile cases.now }
    ensures { Answers (unless_refused (case_refusal config.now cases.now) tt) result }
{
    match refusal_of(alloc, config, cases)? {
        Some(refusal) => Err(ConfigErr::Refused(refusal)),
        None => Ok(()),
    }
}

fn refusal_of(alloc: Global, config: &Config, cases: &[CaseFile]) -> Result<Option<Refusal>, Memory>
    requires one_each { length cases.now ≡ length (config.now).participant }
    requires sound { IsSoundConfig config.now }
    requires sound_cases { All IsSoundCaseFile cases.now }
    ensures { IfOk result (λ refusal. refusal ≡ case_refusal config.now cases.now) }
{
    let spots = case_spots(alloc, config, cases)?;
    let refusal = first_broken(alloc, &RulesOnCases { config }, &RULES, &spots)?;
    Ok(refusal)
}

/// The cases with their participants.
fn case_spots<'a>(
    alloc: Global,
    config: &'a Config,
    cases: &'a [CaseFile],
) -> Result<Vec<CaseSpot<'a>>, Memory>
    requires one_each { length cases.now ≡ length (config.now).participant }
    requires sound { All IsSoundParticipant (config.now).participant }
    requires sound_cases { All IsSoundCaseFile cases.now }
    ensures entries { IfOk result (λ spots. map entry_of_case spots.items ≡ case_entries config.now cases.now) }
    ensures sound { IfOk result (λ spots. All (λ spot. IsSoundEntry (entry_of_case spot)) spots.items) }
{
    let parts = config.participant.as_slice();
    let mut spots = Vec::new(alloc);
    'parts: for (index, part) in parts.iter().enumerate() {
        push_case(index, part, &cases[index], &mut spots)?;
    }
    Ok(spots)
}

/// Adds the case of a participant.
fn push_case<'a>(
    index: usize,
    part: &'a PartTable,
    case_file: &'a CaseFile,
    to: &mut Vec<CaseSpot<'a>>,
) -> Result<(), Memory>
    requires part { IsSoundParticipant part.now }
    requires case_file { IsSoundCaseFile case_file.now }
    requires sound { All (λ spot. IsSoundEntry (entry_of_case spot)) to.old.items }
    ensures entries { OnOk result (map entry_of_case to.new.items ≡ map entry_of_case to.old.items ++ case_at index part.now case_file.now ∷ []) }
    ensures sound { OnOk result (All (λ spot. IsSoundEntry (entry_of_case spot)) to.new.items) }
{
    let place = Place::Case(number_at(index));
    to.push(CaseSpot {
        place,
        part,
        case_file,
    })?;
    Ok(())
}

/// The rules over the case files beside a configuration, tried at each of them.
#[derive(Clone, Copy)]
struct RulesOnCases<'a> {
    config: &'a Config,
}

impl<'a> SpotRules<CaseRule, CaseSpot<'a>> for RulesOnCases<'a> {
    ghost use Rattle.case_rules.specs.CaseRules.{CaseEntry, breaks_case};

    type Known = ();

    ghost Entry = { CaseEntry };

    ghost entry = { entry_of_case };

    ghost broken_at = { λ rules. breaks_case rules.config.now };

    ghost told = { λ rule entry. refused_for_case (rule, entry) };

    ghost knows = { λ _ _ _. Unit {0} };

    ghost is_fit = { λ rules spot. IsSoundConfig rules.config.now × IsSoundEntry (entry_of_case spot) };

    fn nothing_known(&self, _alloc: Global, _rule: CaseRule) {}

    fn is_broken(
        &self,
        _alloc: Global,
        rule: CaseRule,
        _before: &[CaseSpot<'a>],
        _known: &mut (),
        spot: CaseSpot<'a>,
    ) -> Result<bool, Memory>
        requires { IsSoundConfig self.now.config.now × IsSoundEntry (entry_of_case spot) }
        ensures broken { IfOk result (λ broken. broken ≡ breaks_alone self.now.config.now rule (entry_of_case spot.entry)) }
        ensures known { OnOk result (Unit {0}) }
    {
        Ok(breaks(self.config, rule, spot))
    }

    fn refusal_at(&self, rule: CaseRule, spot: CaseSpot<'a>) -> Refusal
        ensures { result ≡ refused_for_case (rule, entry_of_case spot.entry) }
    {
        Refusal {
            rule: rule.number(),
            place: spot.place,
        }
    }
}

fn breaks(config: &Config, rule: CaseRule, spot: CaseSpot) -> bool
    requires sound { IsSoundConfig config.now }
    requires sound_spot { IsSoundEntry (entry_of_case spot) }
    ensures { result ≡ breaks_alone config.now rule (entry_of_case spot.entry) }
{
    match rule {
        CaseRule::Unsuited => is_unsuited(config, spot.part, spot.case_file),
        CaseRule::TooManySteps => takes_too_many_steps(config, spot.part, spot.case_file),
    }
}
