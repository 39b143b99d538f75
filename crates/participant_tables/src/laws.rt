//! What is true of the definitions alone.
ghost use Rattle.std.specs.Prelude.{◌≡◌, ◌≤◌, ◌<◌, ℕ, List, Contains, Some, slice_get, unwrap_or, length, map};
ghost use Rattle.cpl_plan.specs.ValidPlan.{IsValidPlan};
ghost use Rattle.cpl_plan.specs.declared.parts.PlanParts.{PlanParts};
ghost use Rattle.cpl_plan.specs.declared.parts.PlanEntry.{PlanEntry};
ghost use Rattle.wave_coupling.specs.Posts.{received};
ghost use Rattle.wave_coupling.specs.InputWave.{InputWave};
ghost use Rattle.wave_coupling.specs.Known.{read_entries};
ghost use Rattle.wave_coupling.specs.MappedInputs.{input_for};
ghost use Rattle.participant_tables.specs.ReadKept.{opening_read};
ghost use Rattle.participant_tables.specs.WriteKept.{WriteKept};
ghost use Rattle.participant_tables.specs.WriteSteps.{HaveVertices, grown, sampled, shrunk, unsampled};

/// Each read entry of a valid plan is served by one of the exchanges that the participant receives: the
/// input that it reads is the one at the place that is kept, and its degree is 0 or 1.
pub fn entries_read_their_exchanges()
    ensures within { (plan : PlanParts) (part : ℕ) (entry : PlanEntry) → IsValidPlan plan
        → Contains (read_entries plan part) entry
        → (opening_read plan part entry).received < length (received plan part) }
    ensures input { (plan : PlanParts) (part : ℕ) (entry : PlanEntry) (inputs : List InputWave)
        → IsValidPlan plan → Contains (read_entries plan part) entry
        → length inputs ≡ length (received plan part)
        → slice_get inputs (opening_read plan part entry).received ≡ Some (input_for plan part inputs entry) }
    ensures degree { (plan : PlanParts) (part : ℕ) (entry : PlanEntry) → IsValidPlan plan
        → (opening_read plan part entry).degree ≤ 1 }
{}

/// What was grown is as before once it is shrunk, and what was sampled once its last sample is taken off.
pub fn growth_and_samples_are_undone()
    ensures growth { (place before more : ℕ) (entries : List WriteKept) → HaveVertices place before entries
        → map (shrunk place before) (map (grown place more) entries) ≡ entries }
    ensures samples { (time : ℕ) (entries : List WriteKept) → map unsampled (map (sampled time) entries) ≡ entries }
{}
