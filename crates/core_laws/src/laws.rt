//! The laws, as contracts of functions that do nothing.
ghost use Rattle.std.specs.Prelude.{◌≡◌, ◌<◌, ◌≤◌, ◌⊎◌, ℕ, List, Some, None, IsSome, IsTrue};
ghost use Rattle.cpl_plan.specs.ValidPlan.{IsValidPlan};
ghost use Rattle.cpl_plan.specs.declared.parts.PlanParts.{PlanParts};
ghost use Rattle.coupled_loop.specs.CoreState.{CoreState, has_ended, look_in};
ghost use Rattle.coupled_loop.specs.LegalHistory.{Entry as CoreEntry, IsLegal, opening_state, told};
ghost use Rattle.coupled_loop.specs.Solving.{Solvers};
ghost use Rattle.coupled_loop.specs.CoupledLoop.{coupled, ending_in};
ghost use Rattle.coupled_loop.specs.Schedules.{Actors, Entry, IsSchedule, next};
ghost use Rattle.coupled_loop.specs.FedLoop.{fed_told};
ghost use Rattle.coupled_loop.specs.PlanFrames.{Exchanged, frame_of, iterations_of};
ghost use Rattle.coupled_loop.specs.Settled.{IsSettled};
ghost use Rattle.core_laws.specs.Laws.{HasNoQuits, IsPrefix, goes, most_goes};

/// What a participant has been told in a legal list of core events, its inputs and the judgements of
/// its scheme, is what the loop over the posts of that list tells it, as far as the list goes.
pub fn law_step<Mesh, Post, Inputs, Fault>()
    ensures { (plan : PlanParts) (exchanged : Exchanged Post Inputs Fault)
        (history : List (CoreEntry Mesh Post Fault)) (sides : CoreState Mesh Post Fault) (part : ℕ)
        → IsValidPlan plan → IsSettled (frame_of plan exchanged)
        → IsLegal (frame_of plan exchanged) history sides → part < (frame_of plan exchanged).parts
        → IsPrefix (told (frame_of plan exchanged) part history opening_state)
        (fed_told (frame_of plan exchanged) (look_in sides) part) }
{}

/// After every schedule, with participants that end before their time too, what each has noted is
/// the beginning of what it notes in the loop.
pub fn law_prefix<Mesh, Post, Inputs, Fault, State, Run, Note>()
    ensures { (plan : PlanParts) (exchanged : Exchanged Post Inputs Fault)
        (solvers : Solvers Mesh Post Inputs Fault State Run Note)
        (schedule : List Entry) (actors : Actors Mesh Post Fault State Run Note) (part : ℕ)
        → IsValidPlan plan → IsSettled (frame_of plan exchanged)
        → IsSchedule (frame_of plan exchanged) solvers schedule actors → part < (frame_of plan exchanged).parts
        → IsPrefix (actors part).held.notes (coupled (frame_of plan exchanged) solvers part).held.notes }
{}

/// After every schedule all participants have ended, or one of them can go on.
pub fn law_enabled<Mesh, Post, Inputs, Fault, State, Run, Note>()
    ensures { (plan : PlanParts) (exchanged : Exchanged Post Inputs Fault)
        (solvers : Solvers Mesh Post Inputs Fault State Run Note)
        (schedule : List Entry) (actors : Actors Mesh Post Fault State Run Note)
        → IsValidPlan plan → IsSettled (frame_of plan exchanged)
        → IsSchedule (frame_of plan exchanged) solvers schedule actors
        → ((part : ℕ) → part < (frame_of plan exchanged).parts → IsTrue (has_ended (actors part).side))
        ⊎ ((part : ℕ) × (part < (frame_of plan exchanged).parts) × IsSome (next (frame_of plan exchanged) solvers actors part)) }
{}

/// A schedule in which nobody ends before its time, and after which nobody can go on, leaves what the
/// loop leaves: what each participant holds, what it has given, and its ending with its fault.
pub fn law_same_end<Mesh, Post, Inputs, Fault, State, Run, Note>()
    ensures { (plan : PlanParts) (exchanged : Exchanged Post Inputs Fault)
        (solvers : Solvers Mesh Post Inputs Fault State Run Note)
        (schedule : List Entry) (actors : Actors Mesh Post Fault State Run Note) (part : ℕ)
        → IsValidPlan plan → IsSettled (frame_of plan exchanged)
        → IsSchedule (frame_of plan exchanged) solvers schedule actors → HasNoQuits schedule
        → ((other : ℕ) → other < (frame_of plan exchanged).parts → next (frame_of plan exchanged) solvers actors other ≡ None)
        → part < (frame_of plan exchanged).parts
        → ((actors part).held ≡ (coupled (frame_of plan exchanged) solvers part).held)
        × ((actors part).side.given ≡ (coupled (frame_of plan exchanged) solvers part).given)
        × ((actors part).side.ending ≡ Some (ending_in (coupled (frame_of plan exchanged) solvers part))) }
{}

/// No schedule lets participants go on more often than this: four times each, and in each iteration of
/// each window once for each step that a solve may have and four times more.
pub fn schedules_are_short<Mesh, Post, Inputs, Fault, State, Run, Note>()
    ensures { (plan : PlanParts) (exchanged : Exchanged Post Inputs Fault)
        (solvers : Solvers Mesh Post Inputs Fault State Run Note)
        (schedule : List Entry) (actors : Actors Mesh Post Fault State Run Note) (iterations : ℕ)
        → IsValidPlan plan → IsSettled (frame_of plan exchanged)
        → IsSchedule (frame_of plan exchanged) solvers schedule actors
        → 1 ≤ iterations → ((scheme : ℕ) → iterations_of plan scheme ≤ iterations)
        → goes schedule ≤ most_goes (frame_of plan exchanged).parts plan.most_windows iterations solvers.most_steps }
{}
