//! What holds of every state that fitting events come to, as contracts of functions that do nothing.

ghost use Rattle.std.specs.Prelude.{◌≡◌, ◌≤◌, ◌<◌, ◌+◌, ◌^◌, ℕ, List, length, slice_get, Some, None, IsTrue};
ghost use Rattle.cpl_plan.specs.ValidPlan.{IsValidPlan};
ghost use Rattle.cpl_plan.specs.declared.parts.Exchange.{Exchange};
ghost use Rattle.cpl_plan.specs.declared.parts.Kind.TheVariants.{Fresh};
ghost use Rattle.cpl_plan.specs.declared.parts.PlanParts.{PlanParts};
ghost use Rattle.coupled_loop.specs.CoreState.{judging, look_in, taking, turn_at};
ghost use Rattle.coupled_loop.specs.CoreStep.{waits_for};
ghost use Rattle.coupled_loop.specs.Settled.{HavePostedBelow, IsInOrder, IsProvided};
ghost use Rattle.wave_coupling.specs.Coupling.{wave_frame};
ghost use Rattle.wave_laws.specs.Fitting.{IsFittingLook};
ghost use Rattle.wave_values.specs.Turns.{IsRelaxedBy};
ghost use Rattle.core_sides.specs.CoreWords.{WaveEntry, WaveState};
ghost use Rattle.core_sides.specs.Reached.{IsReached};
ghost use Rattle.core_fits.specs.Newest.{IsNewestAccepted};
ghost use Rattle.core_fits.specs.VerticesIn.{vertices_in};

/// All that participants have given fits: of each exchange as many samples, at such times, and of as
/// many Values as its mesh, as that was posted, wants. And each gives in order: windows one after
/// another, in each the iterations.
pub fn what_is_given_fits()
    ensures fits { (plan : PlanParts) (history : List WaveEntry) (sides : WaveState)
        → IsValidPlan plan → IsReached plan history sides → IsFittingLook plan (vertices_in plan sides) (look_in sides) }
    ensures in_order { (plan : PlanParts) (history : List WaveEntry) (sides : WaveState)
        → IsValidPlan plan → IsReached plan history sides → IsInOrder (look_in sides) }
{}

/// A mesh that was posted has at most 10,000 vertices.
pub fn meshes_have_few_vertices()
    ensures { (plan : PlanParts) (history : List WaveEntry) (sides : WaveState) (mesh : ℕ)
        → IsValidPlan plan → IsReached plan history sides → vertices_in plan sides mesh ≤ 10 ^ 4 }
{}

/// Who takes its inputs and waits for nobody may begin its turn: what it needs is given, and its
/// scheme has posted the iterations before.
pub fn taking_turns_may_begin()
    ensures { (plan : PlanParts) (history : List WaveEntry) (sides : WaveState) (part w k : ℕ)
        → IsValidPlan plan → IsReached plan history sides → (sides part).place ≡ taking w k
        → IsTrue ((wave_frame plan).is_there (look_in sides) w) → waits_for (wave_frame plan) sides part ≡ None
        → IsProvided (wave_frame plan) (look_in sides) part w k }
{}

/// Where who judges waits for nobody, all members have posted the iteration and those before it.
pub fn judging_members_have_posted()
    ensures { (plan : PlanParts) (history : List WaveEntry) (sides : WaveState) (part scheme w k : ℕ)
        → IsValidPlan plan → IsReached plan history sides → (sides part).place ≡ judging scheme w k
        → waits_for (wave_frame plan) sides part ≡ None
        → HavePostedBelow (wave_frame plan) (look_in sides) scheme w (k + 1) }
{}

/// The iterations before the turn of a scheme's member were relaxed, with no value out of range.
pub fn turns_follow_relaxed_ones()
    ensures { (plan : PlanParts) (history : List WaveEntry) (sides : WaveState) (part w k : ℕ)
        → IsValidPlan plan → IsReached plan history sides → part < length plan.parts
        → turn_at (sides part).place ≡ (w, k) → IsRelaxedBy plan (look_in sides) part w k }
{}

/// When the second of a serial-explicit scheme takes its inputs, the window that it reads is the
/// newest that the first has given.
pub fn fresh_inputs_are_the_newest()
    ensures { (plan : PlanParts) (history : List WaveEntry) (sides : WaveState) (x w k : ℕ) (e : Exchange)
        → IsValidPlan plan → IsReached plan history sides → slice_get plan.exchanges x ≡ Some e → e.kind ≡ Fresh
        → (sides e.to).place ≡ taking w k → IsTrue ((wave_frame plan).is_there (look_in sides) w)
        → waits_for (wave_frame plan) sides e.to ≡ None → IsNewestAccepted (look_in sides) e.from w }
{}
