//! What is true of the definitions alone.

ghost use Rattle.std.specs.Prelude.{◌≡◌, ℕ, ◌≤◌, ◌^◌};
ghost use Rattle.pair_core.specs.Kept.{Kept};
ghost use Rattle.pair_core.specs.InStep.{IsKept};
ghost use Rattle.pair_core.specs.CoreState.{History};
ghost use Rattle.pair_core.specs.LegalHistory.{IsLegal};
ghost use Rattle.pair_core.specs.StandsFor.{StandsFor};

/// A core can stand for every legal list of events: some record with the invariant of a core does.
pub fn law_stands()
    ensures { (windows : ℕ) (h : History) → 1 ≤ windows → windows ≤ 10 ^ 6 → IsLegal windows h →
        (kept : Kept) × IsKept kept × StandsFor windows kept h }
{}
