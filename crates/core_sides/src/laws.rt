//! What is true of the definitions alone, as contracts of functions that do nothing.

ghost use Rattle.std.specs.Prelude.{◌≡◌, ◌<◌, ◌≤◌, ℕ, List, length, slice_get, Some};
ghost use Rattle.cpl_plan.specs.ValidPlan.{IsValidPlan};
ghost use Rattle.cpl_plan.specs.Windows.{window_end};
ghost use Rattle.cpl_plan.specs.declared.parts.PlanParts.{PlanParts};
ghost use Rattle.coupled_loop.specs.Settled.{IsSettled};
ghost use Rattle.coupled_loop.specs.CoreStep.{cut_by, waits_for};
ghost use Rattle.wave_coupling.specs.Coupling.{wave_frame};
ghost use Rattle.core_sides.specs.CoreWords.{WaveState, WaveEntry, WaveAct};
ghost use Rattle.core_sides.specs.Fitting.{IsFitting};
ghost use Rattle.core_sides.specs.Answers.{next_kind_in, ending_in, position_in, enabled_in, window_end_in};
ghost use Rattle.core_sides.specs.KeptSides.{kept_next_kind, kept_enabled, kept_turn, kept_search_at};
ghost use Rattle.core_sides.specs.Reached.{IsReached};
ghost use Rattle.core_sides.specs.SidesStand.{AreStanding};
ghost use Rattle.core_sides.specs.declared.sides.Sides.{Sides};
ghost use Rattle.core_sides.specs.declared.standing.Standing.{Standing};

/// What is kept of the participants answers as the state for which it stands.
pub fn what_is_kept_answers_as_the_state()
    ensures next_kind { (plan : PlanParts) (kept : Sides) (sides : WaveState) (p : ℕ) (standing : Standing)
        → AreStanding plan kept sides → slice_get kept.standings.items p ≡ Some standing
        → kept_next_kind plan kept p standing ≡ next_kind_in plan sides p }
    ensures ending { (plan : PlanParts) (kept : Sides) (sides : WaveState) (p : ℕ) (standing : Standing)
        → AreStanding plan kept sides → slice_get kept.standings.items p ≡ Some standing
        → standing.ending ≡ ending_in plan sides p }
    ensures position { (plan : PlanParts) (kept : Sides) (sides : WaveState) (p : ℕ)
        → AreStanding plan kept sides → kept_turn kept p ≡ position_in plan sides p }
    ensures window_end { (plan : PlanParts) (kept : Sides) (sides : WaveState) (w : ℕ)
        → AreStanding plan kept sides → 1 ≤ w → window_end plan kept.ends.items w ≡ window_end_in plan sides w }
{}

/// In every state that fitting events come to, each place tells what its participant has given: whom a
/// participant asks, who of them has not given what it asks for, and so whether its event is enabled,
/// is told by the places alone.
pub fn places_tell_what_was_given()
    ensures search { (plan : PlanParts) (kept : Sides) (history : List WaveEntry) (sides : WaveState) (p : ℕ) (standing : Standing)
        → IsValidPlan plan → IsSettled (wave_frame plan) → IsReached plan history sides → AreStanding plan kept sides
        → p < length plan.parts → slice_get kept.standings.items p ≡ Some standing
        → kept_search_at plan kept p standing.place
        ≡ record { cut = cut_by (wave_frame plan) sides p; waits = waits_for (wave_frame plan) sides p } }
    ensures enabled { (plan : PlanParts) (kept : Sides) (history : List WaveEntry) (sides : WaveState) (p : ℕ) (standing : Standing)
        → IsValidPlan plan → IsSettled (wave_frame plan) → IsReached plan history sides → AreStanding plan kept sides
        → p < length plan.parts → slice_get kept.standings.items p ≡ Some standing
        → kept_enabled plan kept p standing ≡ enabled_in plan sides p }
{}

/// What fits in a state is told by what is kept: it fits in each state for which that stands.
pub fn what_fits_in_one_fits_in_all()
    ensures { (plan : PlanParts) (kept : Sides) (sides other : WaveState) (p : ℕ) (act : WaveAct)
        → AreStanding plan kept sides → AreStanding plan kept other
        → IsFitting plan sides p act → IsFitting plan other p act }
{}
