//! Couplings of two participants under explicit schemes, computed. Numbers are in units: 1000000 is
//! one.
ghost use Rattle.std.specs.Prelude.{◌≡◌, [], ◌∷◌, pos};
ghost use Rattle.cpl_plan.specs.declared.words.Fault.TheVariants.{Solver, Steps};
ghost use Rattle.coupled_loop.specs.Endings.{faulted, cut};
ghost use Rattle.wave_coupling.specs.WorkedCases.{results, shown, reading, endings};
ghost use Rattle.wave_coupling.specs.WorkedFiles.{base, parallel, initial_data, watched, substeps, substeps_by_steps, last_alone, both_fault, value_overflow, first_step, first_step_capped, first_step_count, small_steps};

/// A is 1, 1.5 and 1.75, and B half of it: the second reads the window's own value, the first that
/// of the window before.
pub fn a_serial_coupling()
    ensures outcome { shown base ≡ record {
      states = (pos 1750000 ∷ []) ∷ (pos 875000 ∷ []) ∷ [];
      steps = 3 ∷ 3 ∷ [];
      lines = [];
      watches = [];
      ends = 10 ∷ 20 ∷ 30 ∷ [];
      faults = [];
    } }
    ensures readings { (results base).readings ≡
        (reading 1 1 10 0 0 (pos 0 ∷ []) ∷ reading 2 1 20 1 1 (pos 500000 ∷ []) ∷ reading 3 1 30 2 1 (pos 750000 ∷ []) ∷ [])
        ∷ (reading 1 1 10 1 1 (pos 1000000 ∷ []) ∷ reading 2 1 20 2 1 (pos 1500000 ∷ []) ∷ reading 3 1 30 3 1 (pos 1750000 ∷ []) ∷ []) ∷ [] }
{}

/// A is 1, 1 and 1.5, and B 0, 0.5 and 0.5: both read the window before.
pub fn a_parallel_coupling()
    ensures outcome { shown parallel ≡ record {
      states = (pos 1500000 ∷ []) ∷ (pos 500000 ∷ []) ∷ [];
      steps = 3 ∷ 3 ∷ [];
      lines = [];
      watches = [];
      ends = 10 ∷ 20 ∷ 30 ∷ [];
      faults = [];
    } }
    ensures readings { (results parallel).readings ≡
        (reading 1 1 10 0 0 (pos 0 ∷ []) ∷ reading 2 1 20 1 1 (pos 0 ∷ []) ∷ reading 3 1 30 2 1 (pos 500000 ∷ []) ∷ [])
        ∷ (reading 1 1 10 0 0 (pos 0 ∷ []) ∷ reading 2 1 20 1 1 (pos 1000000 ∷ []) ∷ reading 3 1 30 2 1 (pos 1000000 ∷ []) ∷ []) ∷ [] }
{}

/// B's first writes are initial data: A reads 4, and is 5.
pub fn initial_data_are_read()
    ensures outcome { shown initial_data ≡ record {
      states = (pos 5000000 ∷ []) ∷ (pos 2500000 ∷ []) ∷ [];
      steps = 1 ∷ 1 ∷ [];
      lines = [];
      watches = [];
      ends = 10 ∷ [];
      faults = [];
    } }
    ensures readings { (results initial_data).readings ≡
        (reading 1 1 10 0 0 (pos 4000000 ∷ []) ∷ []) ∷ (reading 1 1 10 1 1 (pos 5000000 ∷ []) ∷ []) ∷ [] }
{}

/// What A writes and what it reads at the ends of three windows, of which the last is shorter.
pub fn a_watch_point()
    ensures { shown watched ≡ record {
      states = (pos 1750000 ∷ []) ∷ (pos 875000 ∷ []) ∷ [];
      steps = 3 ∷ 3 ∷ [];
      lines = [];
      watches =
          record { part = 0; watch = 0; window = 1; values = pos 1000000 ∷ pos 0 ∷ [] }
          ∷ record { part = 0; watch = 0; window = 2; values = pos 1500000 ∷ pos 500000 ∷ [] }
          ∷ record { part = 0; watch = 0; window = 3; values = pos 1750000 ∷ pos 750000 ∷ [] } ∷ [];
      ends = 10 ∷ 20 ∷ 25 ∷ [];
      faults = [];
    } }
{}

/// A is 2 after two steps; B's three steps read 0.8, 1.6 and 2 on the line from 0 through 1 to 2.
pub fn steps_within_a_window()
    ensures { shown substeps ≡ record {
      states = (pos 2000000 ∷ []) ∷ (pos 4400000 ∷ []) ∷ [];
      steps = 2 ∷ 3 ∷ [];
      lines = [];
      watches = [];
      ends = 10 ∷ [];
      faults = [];
    } }
{}

/// By degree 0 B reads 1, 2 and 2, the first value at or after each time.
pub fn steps_of_degree_zero()
    ensures { shown substeps_by_steps ≡ record {
      states = (pos 2000000 ∷ []) ∷ (pos 5000000 ∷ []) ∷ [];
      steps = 2 ∷ 3 ∷ [];
      lines = [];
      watches = [];
      ends = 10 ∷ [];
      faults = [];
    } }
{}

/// Where the last sample goes alone B reads 2 three times.
pub fn the_last_sample_alone()
    ensures { shown last_alone ≡ record {
      states = (pos 2000000 ∷ []) ∷ (pos 6000000 ∷ []) ∷ [];
      steps = 2 ∷ 3 ∷ [];
      lines = [];
      watches = [];
      ends = 10 ∷ [];
      faults = [];
    } }
{}

/// Both fault in the first window, A first in the order of the loop; nothing is written.
pub fn both_participants_fault()
    ensures { shown both_fault ≡ record {
      states = (pos 0 ∷ []) ∷ (pos 0 ∷ []) ∷ [];
      steps = 0 ∷ 0 ∷ [];
      lines = [];
      watches = [];
      ends = [];
      faults = Solver 0 1 1 1 2 ∷ Solver 1 1 1 1 2 ∷ [];
    } }
{}

/// A is the greatest number in window 1 and faults in window 2, where B is cut.
pub fn a_state_out_of_range()
    ensures outcome { shown value_overflow ≡ record {
      states = (pos 10000000000000 ∷ []) ∷ (pos 5000000000000 ∷ []) ∷ [];
      steps = 1 ∷ 1 ∷ [];
      lines = [];
      watches = [];
      ends = 10 ∷ [];
      faults = Solver 0 2 1 1 1 ∷ [];
    } }
    ensures endings { endings value_overflow ≡ faulted (Solver 0 2 1 1 1) ∷ cut ∷ [] }
{}

/// A's steps make windows that end at 4, 8 and 10; B goes through each in steps of three ticks.
pub fn windows_by_steps()
    ensures { shown first_step ≡ record {
      states = (pos 1750000 ∷ []) ∷ (pos 875000 ∷ []) ∷ [];
      steps = 3 ∷ 5 ∷ [];
      lines = [];
      watches = [];
      ends = 4 ∷ 8 ∷ 10 ∷ [];
      faults = [];
    } }
{}

/// Where a window has at most three ticks they end at 3, 6, 9 and 10.
pub fn windows_by_capped_steps()
    ensures { shown first_step_capped ≡ record {
      states = (pos 1875000 ∷ []) ∷ (pos 937500 ∷ []) ∷ [];
      steps = 4 ∷ 4 ∷ [];
      lines = [];
      watches = [];
      ends = 3 ∷ 6 ∷ 9 ∷ 10 ∷ [];
      faults = [];
    } }
{}

/// Where there are two windows they end at 4 and 8.
pub fn two_windows_by_steps()
    ensures { shown first_step_count ≡ record {
      states = (pos 1500000 ∷ []) ∷ (pos 750000 ∷ []) ∷ [];
      steps = 2 ∷ 4 ∷ [];
      lines = [];
      watches = [];
      ends = 4 ∷ 8 ∷ [];
      faults = [];
    } }
{}

/// A's step 1024 is one too many: it is not counted, and B is cut.
pub fn too_many_steps()
    ensures steps { (results small_steps).steps ≡ 1023 ∷ 0 ∷ [] }
    ensures faults { (results small_steps).faults ≡ Steps 0 1 1 ∷ [] }
{}
