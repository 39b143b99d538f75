//! What one solve makes of fitting inputs, as contracts of functions that do nothing.
ghost use Rattle.std.specs.Prelude.{◌≡◌, ◌<◌, ℕ, Bool, true, List, length, slice_get, option_map, Some, Ok, IsTrue};
ghost use Rattle.mesh_data.specs.declared.any_mesh.AnyMesh.{AnyMesh};
ghost use Rattle.cpl_plan.specs.PlanWords.{components_of};
ghost use Rattle.cpl_plan.specs.ValidPlan.{IsValidPlan};
ghost use Rattle.cpl_plan.specs.declared.parts.Exchange.{Exchange};
ghost use Rattle.cpl_plan.specs.declared.parts.PlanParts.{PlanParts};
ghost use Rattle.cpl_plan.specs.declared.words.Item.TheVariants.{Completed};
ghost use Rattle.solver_trait.specs.Behaviour.{Behaviour};
ghost use Rattle.coupled_loop.specs.Given.{Look};
ghost use Rattle.coupled_loop.specs.Settled.{Extends, IsInOrder, IsProvided};
ghost use Rattle.coupled_loop.specs.Solving.{Held, solves};
ghost use Rattle.wave_coupling.specs.Coupling.{inputs_of, latest_of, makes_windows, start_of, wave_frame, wave_solvers};
ghost use Rattle.wave_coupling.specs.Known.{Known};
ghost use Rattle.wave_coupling.specs.Noted.{Note};
ghost use Rattle.wave_coupling.specs.Posts.{Post, wave_of};
ghost use Rattle.wave_coupling.specs.Solve.{Inputs, first_post};
ghost use Rattle.wave_laws.specs.Fitting.{IsFittingLook, IsPostedWave, count_of, end_told};
ghost use Rattle.wave_values.specs.Fits.{AreInputs, EndsInTime, IsFittingSolve, IsFittingStart, KnowsMeshes, known_by};
ghost use Rattle.wave_values.specs.Trait.{FitsEntries, MeetsTrait};
ghost use Rattle.wave_values.specs.Turns.{IsRelaxedBy};

/// A solve from inputs that fit: each of its readings has as many Values as its entry, and what it
/// posts fits, from its window's start to its end. So it is wherever the solver meets its trait.
pub fn a_solve_fits<State>()
    ensures { (plan : PlanParts) (vertices : ℕ → ℕ) (meshes : ℕ → List AnyMesh) (solvers : ℕ → Behaviour State) (states : ℕ → State)
        (sound : State → Bool) (part w k : ℕ) (inputs : Inputs) (held : Held (List AnyMesh) State Note)
        → IsValidPlan plan → MeetsTrait sound (solvers part) → FitsEntries plan part (known_by meshes part held) (solvers part)
        → KnowsMeshes plan vertices part (known_by meshes part held) → AreInputs plan vertices part inputs
        → IsTrue (sound held.state) → IsTrue (sound held.kept)
        → IsFittingSolve plan vertices part sound (known_by meshes part held) inputs.start inputs.latest inputs.one_step held.notes
        (solves (wave_solvers plan meshes solvers states) part w k inputs held) }
{}

/// A turn that may begin, from all that was given fitting and the iterations before relaxed: its
/// inputs fit, each of its readings has as many Values as its entry, and what it posts fits, from its
/// window's start to the window's end, or to where its one step makes the window.
pub fn a_turn_fits<State>()
    ensures { (plan : PlanParts) (vertices : ℕ → ℕ) (meshes : ℕ → List AnyMesh) (solvers : ℕ → Behaviour State) (states : ℕ → State)
        (sound : State → Bool) (look : Look Post) (part w k : ℕ) (held : Held (List AnyMesh) State Note)
        → IsValidPlan plan → MeetsTrait sound (solvers part) → FitsEntries plan part (known_by meshes part held) (solvers part)
        → KnowsMeshes plan vertices part (known_by meshes part held) → IsTrue (sound held.state) → IsTrue (sound held.kept)
        → IsFittingLook plan vertices look → IsInOrder look → part < length plan.parts → IsProvided (wave_frame plan) look part w k
        → IsRelaxedBy plan look part w k
        → IsFittingSolve plan vertices part sound (known_by meshes part held) (start_of plan look w) (latest_of plan look part w)
        (makes_windows plan part) held.notes
        (solves (wave_solvers plan meshes solvers states) part w k (inputs_of plan look part w k) held) }
{}

/// What is posted at the end of such a turn fits in each later look, where the window's start and end
/// are those of the post; who makes the window has then completed it with that post.
pub fn a_post_fits_later()
    ensures { (plan : PlanParts) (vertices : ℕ → ℕ) (look later : Look Post) (part w k : ℕ) (post : Post)
        → IsValidPlan plan → IsFittingLook plan vertices look → IsInOrder look → part < length plan.parts → IsProvided (wave_frame plan) look part w k
        → EndsInTime plan vertices part (start_of plan look w) (latest_of plan look part w) (makes_windows plan part) post
        → Extends look later → IsInOrder later
        → (makes_windows plan part ≡ true → option_map (λ gift. gift.post) (later part (Completed w)) ≡ Some post)
        → (x : ℕ) (e : Exchange) → slice_get plan.exchanges x ≡ Some e → e.from ≡ part
        → IsPostedWave (start_of plan later w) (end_told plan later w) (components_of plan e) (count_of plan vertices e) (wave_of plan e x post) }
{}

/// An initial post has one sample for each exchange that is sent, at time 0, with as many Values.
pub fn an_initial_post_fits<State>()
    ensures { (plan : PlanParts) (vertices : ℕ → ℕ) (solver : Behaviour State) (sound : State → Bool) (part : ℕ) (known : Known) (state : State) (post : Post)
        → IsValidPlan plan → MeetsTrait sound solver → FitsEntries plan part known solver → KnowsMeshes plan vertices part known
        → IsTrue (sound state) → first_post plan part solver known state ≡ Ok post
        → IsFittingStart plan vertices part post }
{}
