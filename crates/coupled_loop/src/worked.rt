//! Small couplings, computed: loops, and schedules that lead where they lead.
ghost use Rattle.std.specs.Prelude.{◌≡◌, [], ◌∷◌, Some, None, false};
ghost use Rattle.cpl_plan.specs.ExamplePlan.{two_participants};
ghost use Rattle.coupled_loop.specs.Endings.{cut, done, early, faulted};
ghost use Rattle.coupled_loop.specs.Schedules.{go, quit};
ghost use Rattle.coupled_loop.specs.WorkedLoops.{iterated_window, iterated_windows, loop_shows, parallel_plan, schedule_asks, schedule_cuts, schedule_shows};

/// Two participants under a serial-explicit scheme, over three windows: each is given the other's
/// number, the first that of the window before, the second that of the same window.
pub fn a_serial_loop()
    ensures { loop_shows two_participants 0 ≡ record {
      state = 62;
      notes = (10 ∷ []) ∷ (10 ∷ []) ∷ (11 ∷ []) ∷ (12 ∷ []) ∷ (23 ∷ []) ∷ (24 ∷ []) ∷ (37 ∷ []) ∷ (61 ∷ []) ∷ (62 ∷ []) ∷ [];
      ending = Some done;
    } ∷ record {
      state = 100;
      notes = (11 ∷ []) ∷ (11 ∷ []) ∷ (12 ∷ []) ∷ (24 ∷ []) ∷ (36 ∷ []) ∷ (37 ∷ []) ∷ (62 ∷ []) ∷ (99 ∷ []) ∷ (100 ∷ []) ∷ [];
      ending = Some done;
    } ∷ [] }
{}

/// One window under a parallel-implicit scheme, which is repeated twice and then has converged: each
/// iteration starts from the state at the window's start, and the last one stands.
pub fn an_implicit_loop()
    ensures { loop_shows iterated_window 0 ≡ record {
      state = 13;
      notes = (10 ∷ []) ∷ (10 ∷ []) ∷ (11 ∷ []) ∷ (100 ∷ []) ∷ (1 ∷ []) ∷ (1 ∷ []) ∷ (2 ∷ []) ∷ (100 ∷ [])
          ∷ (12 ∷ []) ∷ (12 ∷ []) ∷ (13 ∷ []) ∷ (101 ∷ []) ∷ [];
      ending = Some done;
    } ∷ record {
      state = 3;
      notes = (0 ∷ []) ∷ (0 ∷ []) ∷ (1 ∷ []) ∷ (100 ∷ []) ∷ (11 ∷ []) ∷ (11 ∷ []) ∷ (12 ∷ []) ∷ (100 ∷ [])
          ∷ (2 ∷ []) ∷ (2 ∷ []) ∷ (3 ∷ []) ∷ (101 ∷ []) ∷ [];
      ending = Some done;
    } ∷ [] }
{}

/// Two such windows: the second starts from what the last iteration of the first has left, and has
/// converged at once.
pub fn two_implicit_windows()
    ensures { loop_shows iterated_windows 0 ≡ record {
      state = 17;
      notes = (10 ∷ []) ∷ (10 ∷ []) ∷ (11 ∷ []) ∷ (100 ∷ []) ∷ (1 ∷ []) ∷ (1 ∷ []) ∷ (2 ∷ []) ∷ (100 ∷ [])
          ∷ (12 ∷ []) ∷ (12 ∷ []) ∷ (13 ∷ []) ∷ (101 ∷ []) ∷ (3 ∷ []) ∷ (16 ∷ []) ∷ (17 ∷ []) ∷ (101 ∷ []) ∷ [];
      ending = Some done;
    } ∷ record {
      state = 17;
      notes = (0 ∷ []) ∷ (0 ∷ []) ∷ (1 ∷ []) ∷ (100 ∷ []) ∷ (11 ∷ []) ∷ (11 ∷ []) ∷ (12 ∷ []) ∷ (100 ∷ [])
          ∷ (2 ∷ []) ∷ (2 ∷ []) ∷ (3 ∷ []) ∷ (101 ∷ []) ∷ (13 ∷ []) ∷ (16 ∷ []) ∷ (17 ∷ []) ∷ (101 ∷ []) ∷ [];
      ending = Some done;
    } ∷ [] }
{}

/// Two participants under a parallel-explicit scheme: the first faults in window 2, and the second is
/// cut in window 3. Two schedules, one with the first ahead and one with the second, end alike.
pub fn a_fault_and_a_cut()
    ensures in_the_loop { loop_shows parallel_plan 2 ≡ record {
      state = 13;
      notes = (10 ∷ []) ∷ (10 ∷ []) ∷ (11 ∷ []) ∷ (1 ∷ []) ∷ (12 ∷ []) ∷ (13 ∷ []) ∷ [];
      ending = Some (faulted 7);
    } ∷ record {
      state = 13;
      notes = (0 ∷ []) ∷ (0 ∷ []) ∷ (1 ∷ []) ∷ (11 ∷ []) ∷ (12 ∷ []) ∷ (13 ∷ []) ∷ [];
      ending = Some cut;
    } ∷ [] }
    ensures first_ahead { schedule_shows parallel_plan 2
        (go 0 ∷ go 1 ∷ go 0 ∷ go 1 ∷ go 0 ∷ go 1
        ∷ go 0 ∷ go 0 ∷ go 0 ∷ go 0 ∷ go 1 ∷ go 1 ∷ go 1 ∷ go 1
        ∷ go 0 ∷ go 0 ∷ go 0 ∷ go 0 ∷ go 1 ∷ go 1 ∷ go 1 ∷ go 1 ∷ go 1 ∷ [])
        ≡ Some (loop_shows parallel_plan 2) }
    ensures second_ahead { schedule_shows parallel_plan 2
        (go 0 ∷ go 1 ∷ go 1 ∷ go 1 ∷ go 0 ∷ go 0
        ∷ go 1 ∷ go 0 ∷ go 1 ∷ go 1 ∷ go 1 ∷ go 0 ∷ go 0 ∷ go 0
        ∷ go 1 ∷ go 1 ∷ go 1 ∷ go 1 ∷ go 0 ∷ go 0 ∷ go 0 ∷ go 0 ∷ go 1 ∷ [])
        ≡ Some (loop_shows parallel_plan 2) }
{}

/// A participant that ends before its time leaves the beginning of what it would have noted, and who
/// needs it is cut; who takes a mesh before it is sent has to wait.
pub fn an_early_end()
    ensures quits { schedule_shows two_participants 0
        (go 0 ∷ go 1 ∷ go 0 ∷ go 1 ∷ go 0 ∷ go 1 ∷ go 0 ∷ quit 0 ∷ go 1 ∷ [])
        ≡ Some (record { state = 0; notes = (10 ∷ []) ∷ []; ending = Some early }
        ∷ record { state = 0; notes = []; ending = Some cut } ∷ []) }
    ensures waits { schedule_shows two_participants 0 (go 1 ∷ go 1 ∷ []) ≡ None }
    ensures waits_for_the_owner { schedule_asks two_participants (go 1 ∷ []) 1 ≡ Some (None, Some 0) }
    ensures cut_by_the_owner { schedule_asks two_participants (go 1 ∷ quit 0 ∷ []) 1 ≡ Some (Some 0, Some 0) }
    ensures not_cut_by_who_has_given { schedule_cuts two_participants
        (go 0 ∷ go 1 ∷ go 0 ∷ go 1 ∷ go 0 ∷ go 1 ∷ go 0 ∷ go 0 ∷ go 0 ∷ go 0 ∷ quit 0 ∷ []) 1 ≡ Some false }
    ensures leaves_who_has_ended { schedule_shows two_participants 0 (go 0 ∷ quit 0 ∷ go 0 ∷ []) ≡ None }
{}

/// The same window under schedules: with the second member ahead it ends as the loop does, and a
/// member that would judge before all have posted has to wait.
pub fn an_implicit_schedule()
    ensures second_ahead { schedule_shows iterated_window 0
        (go 0 ∷ go 1 ∷ go 0 ∷ go 1 ∷ go 0 ∷ go 1
        ∷ go 1 ∷ go 1 ∷ go 1 ∷ go 1 ∷ go 0 ∷ go 0 ∷ go 0 ∷ go 0 ∷ go 1 ∷ go 0
        ∷ go 1 ∷ go 1 ∷ go 1 ∷ go 1 ∷ go 0 ∷ go 0 ∷ go 0 ∷ go 0 ∷ go 1 ∷ go 0
        ∷ go 1 ∷ go 1 ∷ go 1 ∷ go 1 ∷ go 0 ∷ go 0 ∷ go 0 ∷ go 0 ∷ go 1 ∷ go 0 ∷ go 1 ∷ go 0 ∷ [])
        ≡ Some (loop_shows iterated_window 0) }
    ensures waits { schedule_shows iterated_window 0
        (go 0 ∷ go 1 ∷ go 0 ∷ go 1 ∷ go 0 ∷ go 1 ∷ go 0 ∷ go 0 ∷ go 0 ∷ go 0 ∷ go 0 ∷ []) ≡ None }
{}

/// A member of a scheme faults, and the other is cut in the same iteration.
pub fn an_implicit_fault()
    ensures { loop_shows iterated_window 1 ≡ record {
      state = 11;
      notes = (10 ∷ []) ∷ (10 ∷ []) ∷ (11 ∷ []) ∷ [];
      ending = Some (faulted 7);
    } ∷ record {
      state = 1;
      notes = (0 ∷ []) ∷ (0 ∷ []) ∷ (1 ∷ []) ∷ [];
      ending = Some cut;
    } ∷ [] }
{}
