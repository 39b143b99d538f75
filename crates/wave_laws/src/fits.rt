//! What fits, as contracts of functions that do nothing: what participants are given fits their
//! exchanges, as long as all that was posted does.
ghost use Rattle.std.specs.Prelude.{◌≡◌, ◌≤◌, ◌*◌, ◌+◌, ℕ, ℤ, List, [], All, Contains, Some, None, Ok, length, sum_by, slice_get, slice_index_or};
ghost use Rattle.fixed_num.specs.Numbers.{IsValue};
ghost use Rattle.waveform.specs.WaveValue.{read};
ghost use Rattle.waveform.specs.declared.field.Field.{Field};
ghost use Rattle.cpl_plan.specs.PlanWords.{components_of};
ghost use Rattle.cpl_plan.specs.ValidPlan.{IsValidPlan};
ghost use Rattle.cpl_plan.specs.declared.parts.Exchange.{Exchange};
ghost use Rattle.cpl_plan.specs.declared.parts.MapPlan.{MapPlan};
ghost use Rattle.cpl_plan.specs.declared.parts.PlanEntry.{PlanEntry};
ghost use Rattle.cpl_plan.specs.declared.parts.PlanParts.{PlanParts};
ghost use Rattle.cpl_plan.specs.declared.parts.Scheme.{Scheme};
ghost use Rattle.coupled_loop.specs.Given.{Look};
ghost use Rattle.coupled_loop.specs.Endings.{again};
ghost use Rattle.coupled_loop.specs.PlanFrames.{group_of};
ghost use Rattle.coupled_loop.specs.Settled.{HavePostedBelow, IsInOrder, IsProvided};
ghost use Rattle.wave_coupling.specs.Posts.{Post, Wave};
ghost use Rattle.wave_coupling.specs.InputWave.{input_wave, over, relaxed_after};
ghost use Rattle.wave_coupling.specs.Mapped.{Points, mapped_by, mapped_wave};
ghost use Rattle.wave_coupling.specs.Known.{Known, width_of};
ghost use Rattle.wave_coupling.specs.PostedWaves.{values_at};
ghost use Rattle.wave_coupling.specs.Coupling.{judge_of, start_of, wave_frame};
ghost use Rattle.wave_laws.specs.Fitting.{AreValues, IsFieldOf, IsFittingLook, IsInitialWave, IsInputWave, IsPostedWave, IsRelaxedBelow, count_of, end_told};

/// What is read of an input at a time from its window's start to its end has as many values as the
/// exchange, and each of them is a Value.
pub fn what_is_read_fits()
    ensures { (start end components count : ℕ) (wave : Wave) (degree t : ℕ)
        → IsInputWave start end components count wave → start ≤ t → t ≤ end → AreValues count (read wave degree t) }
{}

/// The input of an exchange at its reader's turn fits, where all that was given fits and no relaxed
/// value of the iterations before was out of range.
pub fn inputs_fit()
    ensures { (plan : PlanParts) (vertices : ℕ → ℕ) (look : Look Post) (part w k x : ℕ) (e : Exchange)
        → IsValidPlan plan → IsFittingLook plan vertices look → IsInOrder look
        → IsProvided (wave_frame plan) look part w k
        → ((number : ℕ) (scheme : Scheme) → group_of plan part ≡ Some number → slice_get plan.schemes number ≡ Some scheme
        → IsRelaxedBelow plan look scheme w k)
        → slice_get plan.exchanges x ≡ Some e → e.to ≡ part
        → IsInputWave (start_of plan look w) (end_told plan look w) (components_of plan e) (count_of plan vertices e)
        (input_wave plan look x w (start_of plan look w) k).wave }
{}

/// The relaxed waves of an iteration that all members have posted fit as what they posted does, where
/// no relaxed value of it and of the iterations before is out of range.
pub fn relaxed_waves_fit()
    ensures { (plan : PlanParts) (vertices : ℕ → ℕ) (look : Look Post) (number : ℕ) (scheme : Scheme) (w k place x : ℕ) (e : Exchange)
        → IsValidPlan plan → IsFittingLook plan vertices look → IsInOrder look
        → slice_get plan.schemes number ≡ Some scheme → 1 ≤ k → HavePostedBelow (wave_frame plan) look number w (k + 1)
        → IsRelaxedBelow plan look scheme w (k + 1)
        → slice_get (over scheme.accel) place ≡ Some x → slice_get plan.exchanges x ≡ Some e
        → IsPostedWave (start_of plan look w) (end_told plan look w) (components_of plan e) (count_of plan vertices e)
        (slice_index_or (relaxed_after plan look scheme w (start_of plan look w) k).waves place []) }
{}

/// An iteration that is followed by another one could be relaxed: no value was out of range.
pub fn what_is_repeated_was_relaxed()
    ensures { (plan : PlanParts) (look : Look Post) (number : ℕ) (scheme : Scheme) (w k : ℕ)
        → slice_get plan.schemes number ≡ Some scheme → judge_of plan look number w k ≡ again
        → (relaxed_after plan look scheme w (start_of plan look w) k).outside ≡ None }
{}

/// A mapped field has as many values as the mesh that it is mapped to, and each of them is a Value.
pub fn a_mapped_field_fits()
    ensures { (m : MapPlan) (from to : Points) (components count : ℕ) (field out : Field)
        → IsFieldOf components count field → mapped_by m from to field ≡ Ok out
        → IsFieldOf components (components * length to) out }
{}

/// A wave that is mapped sample by sample fits as it did before, with as many values as the mesh that
/// it is mapped to.
pub fn a_mapped_wave_fits()
    ensures posted { (m : MapPlan) (from to : Points) (start end components count : ℕ) (wave out : Wave)
        → IsPostedWave start end components count wave → mapped_wave (Some m) from to wave ≡ Ok out
        → IsPostedWave start end components (components * length to) out }
    ensures input { (m : MapPlan) (from to : Points) (start end components count : ℕ) (wave out : Wave)
        → IsInputWave start end components count wave → mapped_wave (Some m) from to wave ≡ Ok out
        → IsInputWave start end components (components * length to) out }
    ensures initial { (m : MapPlan) (from to : Points) (components count : ℕ) (wave out : Wave)
        → IsInitialWave components count wave → mapped_wave (Some m) from to wave ≡ Ok out
        → IsInitialWave components (components * length to) out }
{}

/// Where a step writes as many Values as its write entries have in all, what it writes for one of them
/// is as many Values as that entry has.
pub fn what_is_written_fits()
    ensures { (plan : PlanParts) (part : ℕ) (known : Known) (entries : List PlanEntry) (entry : PlanEntry) (values : List ℤ)
        → Contains entries entry → sum_by (width_of plan part known) entries ≡ length values → All IsValue values
        → AreValues (width_of plan part known entry) (values_at plan part known entries entry values) }
{}
