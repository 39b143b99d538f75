//! The first broken one of some rules over the entries of a file, whatever the rules are.
ghost use Rattle.std.specs.Prelude.{◌≡◌, ◌++◌, ◌∷◌, [], All, Bool, List, map, option_map, IfOk, OnOk};
ghost use Rattle.cpl_rules.specs.declared.rules.Refusal.{Refusal};
ghost use Rattle.cpl_rules.specs.FirstBroken.{first_place, first_broken};

use crate::rules::Refusal;
use fixed_num::Memory;
use std::alloc::Global;

/// Rules that are tried at the entries of a file: what breaks each of them, and how it is told.
///
/// `R` is one of the rules, and `S` is where the code holds an entry; contracts see a spot as the
/// `entry` that it holds.
pub trait SpotRules<R, S> {
    /// What is kept of the spots at which a rule was tried.
    type Known: Drop;

    ghost Entry: { Type 0 };

    ghost entry: { S → Entry };

    /// Whether an entry breaks a rule, after the entries before it.
    ghost broken_at: { Self → R → List Entry → Entry → Bool };

    /// How it is told that a rule is broken at an entry.
    ghost told: { R → Entry → Refusal };

    /// What is known of the entries before.
    ghost knows: { R → List Entry → Self.Known → Type 0 };

    /// At which spots the rules may be tried.
    ghost is_fit: { Self → S → Type 0 };

    /// What is known before the first spot.
    fn nothing_known(&self, alloc: Global, rule: R) -> Self::Known
        ensures { knows rule [] result };

    /// Whether a spot breaks a rule, after the spots before it.
    fn is_broken(
        &self,
        alloc: Global,
        rule: R,
        before: &[S],
        known: &mut Self::Known,
        spot: S,
    ) -> Result<bool, Memory>
        requires fit { is_fit self.now spot }
        requires known { knows rule (map entry before.now) known.old }
        ensures broken { IfOk result (λ broken. broken ≡ broken_at self.now rule (map entry before.now) (entry spot)) }
        ensures known { OnOk result (knows rule (map entry before.now ++ entry spot ∷ []) known.new) };

    /// What is told where a spot breaks a rule.
    fn refusal_at(&self, rule: R, spot: S) -> Refusal
        ensures { result ≡ told rule (entry spot) };
}

/// The first broken one of some rules, at the first spot that breaks it; none where no spot breaks
/// any.
///
/// A rule is tried at all spots before the next rule.
pub fn first_broken<R: Copy, S: Copy, J: SpotRules<R, S>>(
    alloc: Global,
    judge: &J,
    rules: &[R],
    spots: &[S],
) -> Result<Option<Refusal>, Memory>
    requires { All (J.is_fit judge.now) spots.now }
    ensures { IfOk result (λ refusal. refusal
        ≡ option_map (λ found. J.told found.0 found.1) (first_broken (J.broken_at judge.now) rules.now (map J.entry spots.now))) }
{
    'rules: for rule in rules {
        if let Some(refusal) = first_refused(alloc, judge, *rule, spots)? {
            return Ok(Some(refusal));
        }
    }
    Ok(None)
}

/// What is told of the first spot that breaks a rule.
fn first_refused<R: Copy, S: Copy, J: SpotRules<R, S>>(
    alloc: Global,
    judge: &J,
    rule: R,
    spots: &[S],
) -> Result<Option<Refusal>, Memory>
    requires { All (J.is_fit judge.now) spots.now }
    ensures { IfOk result (λ refusal. refusal ≡ option_map (J.told rule) (first_place (J.broken_at judge.now rule) (map J.entry spots.now))) }
{
    let mut known = judge.nothing_known(alloc, rule);
    'spots: for (index, spot) in spots.iter().enumerate() {
        if judge.is_broken(alloc, rule, &spots[..index], &mut known, *spot)? {
            return Ok(Some(judge.refusal_at(rule, *spot)));
        }
    }
    Ok(None)
}
