//! What is read and what is posted, as contracts of functions that do nothing.
ghost use Rattle.std.specs.Prelude.{◌<◌, ℕ, Bool, List, All, length};
ghost use Rattle.mesh_data.specs.declared.any_mesh.AnyMesh.{AnyMesh};
ghost use Rattle.cpl_plan.specs.declared.parts.PlanParts.{PlanParts};
ghost use Rattle.solver_trait.specs.Behaviour.{Behaviour};
ghost use Rattle.coupled_loop.specs.CoupledLoop.{look_at};
ghost use Rattle.coupled_loop.specs.Schedules.{Entry};
ghost use Rattle.wave_coupling.specs.LoopResults.{readings_in};
ghost use Rattle.wave_laws.specs.Left.{IsWaveSchedule, WaveActors, parts_left, readings_left, wave_loop};
ghost use Rattle.wave_values.specs.Fits.{IsReadingOf};
ghost use Rattle.wave_readings.specs.Posted.{ArePostsFitting};
ghost use Rattle.wave_readings.specs.Setting.{IsSetting, known_of, vertices_at};

/// Each reading of each participant has as many Values as its entry has: after every schedule, with
/// participants that end before their time too, and in the loop.
pub fn what_is_read_are_values<State>()
    ensures in_schedules { (plan : PlanParts) (meshes : ℕ → List AnyMesh) (solvers : ℕ → Behaviour State) (states : ℕ → State)
        (sound : ℕ → State → Bool) (schedule : List Entry) (actors : WaveActors State) (part : ℕ)
        → IsSetting plan meshes solvers states sound → IsWaveSchedule plan meshes solvers states schedule actors → part < length plan.parts
        → All (IsReadingOf plan part (known_of plan meshes part)) (readings_left plan meshes actors part) }
    ensures in_loop { (plan : PlanParts) (meshes : ℕ → List AnyMesh) (solvers : ℕ → Behaviour State) (states : ℕ → State)
        (sound : ℕ → State → Bool) (part : ℕ)
        → IsSetting plan meshes solvers states sound → part < length plan.parts
        → All (IsReadingOf plan part (known_of plan meshes part)) (readings_in plan meshes (wave_loop plan meshes solvers states) part) }
{}

/// What each participant has given has a fitting wave for each exchange that it sends: in its initial
/// post one sample at time 0; in what it posts for a window 1 to 1,024 samples at rising times after
/// the window's start, the last at its end; each of components times vertices Values. So it is after
/// every schedule and in the loop.
pub fn posted_waves_end_with_the_window<State>()
    ensures in_schedules { (plan : PlanParts) (meshes : ℕ → List AnyMesh) (solvers : ℕ → Behaviour State) (states : ℕ → State)
        (sound : ℕ → State → Bool) (schedule : List Entry) (actors : WaveActors State) (part : ℕ)
        → IsSetting plan meshes solvers states sound → IsWaveSchedule plan meshes solvers states schedule actors → part < length plan.parts
        → ArePostsFitting plan (vertices_at plan meshes) (look_at (parts_left actors)) part }
    ensures in_loop { (plan : PlanParts) (meshes : ℕ → List AnyMesh) (solvers : ℕ → Behaviour State) (states : ℕ → State)
        (sound : ℕ → State → Bool) (part : ℕ)
        → IsSetting plan meshes solvers states sound → part < length plan.parts
        → ArePostsFitting plan (vertices_at plan meshes) (look_at (wave_loop plan meshes solvers states)) part }
{}
