//! What is true of the definitions alone, as contracts of functions that do nothing.

ghost use Rattle.std.specs.Prelude.{◌≡◌, ◌<◌, ℕ, List, Option, None, IsTrue, length};
ghost use Rattle.cpl_plan.specs.ValidPlan.{IsValidPlan};
ghost use Rattle.cpl_plan.specs.declared.parts.PlanParts.{PlanParts};
ghost use Rattle.coupled_loop.specs.CoreState.{look_in, taking};
ghost use Rattle.coupled_loop.specs.CoreStep.{waits_for};
ghost use Rattle.sample_store.specs.Kept.{Kept};
ghost use Rattle.wave_coupling.specs.Coupling.{start_of, wave_frame};
ghost use Rattle.core_sides.specs.CoreWords.{WaveEntry, WaveState};
ghost use Rattle.core_sides.specs.Reached.{IsReached};
ghost use Rattle.core_stores.specs.StoresStand.{AreStores};
ghost use Rattle.core_schemes.specs.SchemesStand.{AreSchemes};
ghost use Rattle.core_schemes.specs.declared.schemes.SchemeState.{SchemeState};
ghost use Rattle.core_takes.specs.Ready.{IsReady, Tells};

/// In every state that fitting events come to, what is kept is ready for the turn of who takes its
/// inputs and waits for nobody, and tells of it what that state says.
pub fn taking_turns_are_ready()
    ensures ready { (plan : PlanParts) (history : List WaveEntry) (sides : WaveState) (stores : List (Option Kept)) (schemes : List SchemeState) (part w k : ℕ)
        → IsValidPlan plan → IsReached plan history sides → AreStores plan stores sides → AreSchemes plan schemes sides
        → part < length plan.parts → (sides part).place ≡ taking w k
        → IsTrue ((wave_frame plan).is_there (look_in sides) w) → waits_for (wave_frame plan) sides part ≡ None
        → IsReady plan stores schemes (record { part = part; window = w; iteration = k; start = start_of plan (look_in sides) w }) }
    ensures tells { (plan : PlanParts) (history : List WaveEntry) (sides : WaveState) (stores : List (Option Kept)) (schemes : List SchemeState) (part w k : ℕ)
        → IsValidPlan plan → IsReached plan history sides → AreStores plan stores sides → AreSchemes plan schemes sides
        → part < length plan.parts → (sides part).place ≡ taking w k
        → IsTrue ((wave_frame plan).is_there (look_in sides) w) → waits_for (wave_frame plan) sides part ≡ None
        → Tells plan stores schemes (record { part = part; window = w; iteration = k; start = start_of plan (look_in sides) w })
        (look_in sides) }
{}
