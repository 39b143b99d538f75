//! What is true of the definitions alone, as contracts of functions that do nothing.

ghost use Rattle.std.specs.Prelude.{◌≡◌, ◌<◌, ℕ, List, All, length, set, slice_get, Some};
ghost use Rattle.cpl_plan.specs.ValidPlan.{IsValidPlan};
ghost use Rattle.cpl_plan.specs.declared.parts.PlanParts.{PlanParts};
ghost use Rattle.cpl_plan.specs.declared.parts.Scheme.{Scheme};
ghost use Rattle.coupled_loop.specs.Numbered.{put};
ghost use Rattle.group_course.specs.CourseKept.{IsKept};
ghost use Rattle.core_sides.specs.CoreWords.{WaveState, WaveSide, WaveAct, WaveReply, WaveEntry, wave_step};
ghost use Rattle.core_sides.specs.Reached.{IsReached};
ghost use Rattle.core_schemes.specs.declared.schemes.SchemeState.{SchemeState};
ghost use Rattle.core_schemes.specs.SchemesStand.{AreSchemes, IsSchemeOf};
ghost use Rattle.core_schemes.specs.Judging.{IsHeard};

/// What is kept of the schemes stays true at every event, where a judgement that is told is that of
/// its scheme's last judged iteration.
pub fn schemes_go_on()
    ensures { (plan : PlanParts) (schemes : List SchemeState) (history : List WaveEntry) (sides : WaveState) (part : ℕ) (act : WaveAct) (reply : WaveReply) (side : WaveSide)
        → IsValidPlan plan → IsReached plan history sides → part < length plan.parts
        → wave_step plan sides part act ≡ Some (reply, side) → IsHeard schemes (sides part).place act
        → AreSchemes plan schemes sides → AreSchemes plan schemes (put sides part side) }
{}

/// One scheme's state may be replaced by one that stands.
pub fn one_scheme_is_judged()
    ensures { (plan : PlanParts) (schemes : List SchemeState) (sides : WaveState) (number : ℕ) (state : SchemeState)
        → AreSchemes plan schemes sides
        → ((scheme : Scheme) → slice_get plan.schemes number ≡ Some scheme → IsSchemeOf plan sides number scheme state state.last)
        → AreSchemes plan (set schemes number state) sides }
{}

/// For each state that fitting events come to some states of the schemes stand, and what each course
/// remembers is what a course can keep.
pub fn some_schemes_stand()
    ensures { (plan : PlanParts) (history : List WaveEntry) (sides : WaveState)
        → IsValidPlan plan → IsReached plan history sides
        → (schemes : List SchemeState) × AreSchemes plan schemes sides × All (λ (state : SchemeState). IsKept state.course) schemes }
{}
