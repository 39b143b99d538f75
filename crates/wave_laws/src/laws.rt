//! The laws, as contracts of functions that do nothing.
ghost use Rattle.std.specs.Prelude.{◌≡◌, ◌<◌, ◌≤◌, ◌⊎◌, ℕ, List, Some, None, IsSome, IsTrue, length, ℤ};
ghost use Rattle.fixed_num.specs.Norm.{IsNorm};
ghost use Rattle.mesh_data.specs.declared.any_mesh.AnyMesh.{AnyMesh};
ghost use Rattle.cpl_plan.specs.ValidPlan.{IsValidPlan};
ghost use Rattle.cpl_plan.specs.declared.parts.PlanParts.{PlanParts};
ghost use Rattle.cpl_plan.specs.declared.words.Fault.{Fault};
ghost use Rattle.solver_trait.specs.Behaviour.{Behaviour};
ghost use Rattle.coupled_loop.specs.CoreState.{CoreState, has_ended, look_in};
ghost use Rattle.coupled_loop.specs.LegalHistory.{Entry as CoreEntry, IsLegal, opening_state, told};
ghost use Rattle.coupled_loop.specs.CoupledLoop.{ending_in};
ghost use Rattle.coupled_loop.specs.Schedules.{Entry, next};
ghost use Rattle.coupled_loop.specs.FedLoop.{fed_told};
ghost use Rattle.coupled_loop.specs.PlanFrames.{iterations_of};
ghost use Rattle.coupled_loop.specs.Settled.{IsSettled};
ghost use Rattle.core_laws.specs.Laws.{HasNoQuits, IsPrefix, goes, most_goes};
ghost use Rattle.wave_coupling.specs.Posts.{Post};
ghost use Rattle.wave_coupling.specs.Root.{norm};
ghost use Rattle.wave_coupling.specs.Coupling.{wave_frame, wave_solvers};
ghost use Rattle.wave_coupling.specs.LoopResults.{loop_results, readings_in};
ghost use Rattle.wave_laws.specs.Left.{IsWaveSchedule, WaveActors, readings_left, results_left, wave_loop};

/// The inputs of a participant's turn and the judgements of a scheme look only at what was given
/// before, so that nothing that is given later changes them; and the last iteration is not repeated.
pub fn what_is_exchanged_is_settled()
    ensures { (plan : PlanParts) → IsValidPlan plan → IsSettled (wave_frame plan) }
{}

/// After every schedule, with participants that end before their time too, what each has read is the
/// beginning of what it reads in the loop.
pub fn readings_are_a_prefix<State>()
    ensures { (plan : PlanParts) (meshes : ℕ → List AnyMesh) (solvers : ℕ → Behaviour State) (states : ℕ → State)
        (schedule : List Entry) (actors : WaveActors State) (part : ℕ)
        → IsValidPlan plan → IsWaveSchedule plan meshes solvers states schedule actors → part < length plan.parts
        → IsPrefix (readings_left plan meshes actors part) (readings_in plan meshes (wave_loop plan meshes solvers states) part) }
{}

/// After every schedule all participants have ended, or one of them can go on.
pub fn someone_can_go_on<State>()
    ensures { (plan : PlanParts) (meshes : ℕ → List AnyMesh) (solvers : ℕ → Behaviour State) (states : ℕ → State)
        (schedule : List Entry) (actors : WaveActors State)
        → IsValidPlan plan → IsWaveSchedule plan meshes solvers states schedule actors
        → ((part : ℕ) → part < length plan.parts → IsTrue (has_ended (actors part).side))
        ⊎ ((part : ℕ) × (part < length plan.parts)
        × IsSome (next (wave_frame plan) (wave_solvers plan meshes solvers states) actors part)) }
{}

/// A schedule in which nobody ends before its time, and after which nobody can go on, leaves what the
/// loop leaves: the readings, last states, steps, lines on iterations, rows of watch-points, ends of
/// windows and faults. Each participant has the loop's ending.
pub fn all_schedules_end_alike<State>()
    ensures results { (plan : PlanParts) (meshes : ℕ → List AnyMesh) (solvers : ℕ → Behaviour State) (states : ℕ → State)
        (schedule : List Entry) (actors : WaveActors State)
        → IsValidPlan plan → IsWaveSchedule plan meshes solvers states schedule actors → HasNoQuits schedule
        → ((other : ℕ) → other < length plan.parts → next (wave_frame plan) (wave_solvers plan meshes solvers states) actors other ≡ None)
        → results_left plan meshes actors ≡ loop_results plan meshes solvers states }
    ensures endings { (plan : PlanParts) (meshes : ℕ → List AnyMesh) (solvers : ℕ → Behaviour State) (states : ℕ → State)
        (schedule : List Entry) (actors : WaveActors State) (part : ℕ)
        → IsValidPlan plan → IsWaveSchedule plan meshes solvers states schedule actors → HasNoQuits schedule
        → ((other : ℕ) → other < length plan.parts → next (wave_frame plan) (wave_solvers plan meshes solvers states) actors other ≡ None)
        → part < length plan.parts
        → (actors part).side.ending ≡ Some (ending_in (wave_loop plan meshes solvers states part)) }
{}

/// What a participant is told in a legal list of core events, its inputs and the judgements of its
/// scheme, is what the loop over the posts of that list tells it, as far as the list goes.
pub fn replies_are_the_loops()
    ensures { (plan : PlanParts) (history : List (CoreEntry (List AnyMesh) Post Fault))
        (sides : CoreState (List AnyMesh) Post Fault) (part : ℕ)
        → IsValidPlan plan → IsLegal (wave_frame plan) history sides → part < length plan.parts
        → IsPrefix (told (wave_frame plan) part history opening_state) (fed_told (wave_frame plan) (look_in sides) part) }
{}

/// No schedule lets participants go on more often than this: four times each, and in each iteration of
/// each window once for each of 1,024 steps and four times more. There are never more than 1,000
/// iterations of a window.
pub fn no_schedule_is_longer<State>()
    ensures by_iterations { (plan : PlanParts) (meshes : ℕ → List AnyMesh) (solvers : ℕ → Behaviour State) (states : ℕ → State)
        (schedule : List Entry) (actors : WaveActors State) (iterations : ℕ)
        → IsValidPlan plan → IsWaveSchedule plan meshes solvers states schedule actors
        → 1 ≤ iterations → ((scheme : ℕ) → iterations_of plan scheme ≤ iterations)
        → goes schedule ≤ most_goes (length plan.parts) plan.most_windows iterations 1024 }
    ensures iterations { (plan : PlanParts) (scheme : ℕ) → IsValidPlan plan → iterations_of plan scheme ≤ 1000 }
{}

/// The norm that computes is the norm: the greatest number whose square is at most the sum of the
/// squares. There is no other.
pub fn the_norm_is_the_norm()
    ensures is { (list : List ℤ) → IsNorm list (norm list) }
    ensures only { (list : List ℤ) (r : ℕ) → IsNorm list r → r ≡ norm list }
{}
