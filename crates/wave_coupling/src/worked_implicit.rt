//! Couplings of two participants under implicit schemes, computed. Numbers are in units: 1000000 is
//! one.
ghost use Rattle.std.specs.Prelude.{◌≡◌, [], ◌∷◌, slice_get, Some, pos};
ghost use Rattle.cpl_plan.specs.declared.words.Fault.TheVariants.{Solver, Relax, NotConverged as Unconverged};
ghost use Rattle.cpl_plan.specs.declared.words.Verdict.TheVariants.{Again, Converged, AtLimit, NotConverged};
ghost use Rattle.coupled_loop.specs.Endings.{faulted, cut};
ghost use Rattle.wave_coupling.specs.WorkedCases.{results, shown, line, reading, endings};
ghost use Rattle.wave_coupling.specs.WorkedImplicit.{implicit, iteration_limit, strict_measure, unit_relaxation, aitken, aitken_restart, relaxed_windows, one_relaxed, relax_overflow, relative, residual_relative, sufficient, twice_at_least, parallel_implicit, multi_of_two, cut_in_judge};

/// Each iteration halves the change of V, until it is at most 0.1.
pub fn an_implicit_coupling()
    ensures outcome { shown implicit ≡ record {
      states = (pos 1875000 ∷ []) ∷ (pos 937500 ∷ []) ∷ [];
      steps = 4 ∷ 4 ∷ [];
      lines =
          line 1 1 Again (500000 ∷ []) ∷ line 1 2 Again (250000 ∷ []) ∷ line 1 3 Again (125000 ∷ [])
          ∷ line 1 4 Converged (62500 ∷ []) ∷ [];
      watches = [];
      ends = 10 ∷ [];
      faults = [];
    } }
    ensures readings { (results implicit).readings ≡
        (reading 1 1 10 0 0 (pos 0 ∷ []) ∷ reading 1 2 10 1 1 (pos 500000 ∷ []) ∷ reading 1 3 10 1 2 (pos 750000 ∷ []) ∷ reading 1 4 10 1 3 (pos 875000 ∷ []) ∷ [])
        ∷ (reading 1 1 10 1 1 (pos 1000000 ∷ []) ∷ reading 1 2 10 1 2 (pos 1500000 ∷ []) ∷ reading 1 3 10 1 3 (pos 1750000 ∷ []) ∷ reading 1 4 10 1 4 (pos 1875000 ∷ []) ∷ []) ∷ [] }
{}

/// The third iteration is accepted as the last one.
pub fn at_the_iteration_limit()
    ensures { shown iteration_limit ≡ record {
      states = (pos 1750000 ∷ []) ∷ (pos 875000 ∷ []) ∷ [];
      steps = 3 ∷ 3 ∷ [];
      lines =
          line 1 1 Again (500000 ∷ []) ∷ line 1 2 Again (250000 ∷ []) ∷ line 1 3 AtLimit (125000 ∷ []) ∷ [];
      watches = [];
      ends = 10 ∷ [];
      faults = [];
    } }
{}

/// A strict measure that does not hold in the last iteration is a fault, and no window is completed.
pub fn a_strict_measure()
    ensures { shown strict_measure ≡ record {
      states = (pos 1750000 ∷ []) ∷ (pos 875000 ∷ []) ∷ [];
      steps = 3 ∷ 3 ∷ [];
      lines =
          line 1 1 Again (500000 ∷ []) ∷ line 1 2 Again (250000 ∷ []) ∷ line 1 3 (NotConverged 0) (125000 ∷ []) ∷ [];
      watches = [];
      ends = [];
      faults = Unconverged 0 1 3 0 ∷ [];
    } }
{}

/// Relaxation by one changes nothing.
pub fn relaxation_by_one()
    ensures outcome { shown unit_relaxation ≡ shown implicit }
    ensures readings { (results unit_relaxation).readings ≡ (results implicit).readings }
{}

/// Aitken's iterates are 0.25 and 1.
pub fn aitken_relaxation()
    ensures outcome { shown aitken ≡ record {
      states = (pos 2000000 ∷ []) ∷ (pos 1000000 ∷ []) ∷ [];
      steps = 3 ∷ 3 ∷ [];
      lines =
          line 1 1 Again (500000 ∷ []) ∷ line 1 2 Again (375000 ∷ []) ∷ line 1 3 Converged (0 ∷ []) ∷ [];
      watches = [];
      ends = 10 ∷ [];
      faults = [];
    } }
    ensures readings { (results aitken).readings ≡
        (reading 1 1 10 0 0 (pos 0 ∷ []) ∷ reading 1 2 10 1 1 (pos 250000 ∷ []) ∷ reading 1 3 10 1 2 (pos 1000000 ∷ []) ∷ [])
        ∷ (reading 1 1 10 1 1 (pos 1000000 ∷ []) ∷ reading 1 2 10 1 2 (pos 1250000 ∷ []) ∷ reading 1 3 10 1 3 (pos 2000000 ∷ []) ∷ []) ∷ [] }
{}

/// Aitken's factor starts anew in the second window.
pub fn aitken_starts_anew()
    ensures { shown aitken_restart ≡ record {
      states = (pos 4000000 ∷ []) ∷ (pos 2000000 ∷ []) ∷ [];
      steps = 6 ∷ 6 ∷ [];
      lines =
          line 1 1 Again (500000 ∷ []) ∷ line 1 2 Again (375000 ∷ []) ∷ line 1 3 Converged (0 ∷ [])
          ∷ line 2 1 Again (500000 ∷ []) ∷ line 2 2 Again (375000 ∷ []) ∷ line 2 3 Converged (0 ∷ []) ∷ [];
      watches = [];
      ends = 10 ∷ 20 ∷ [];
      faults = [];
    } }
{}

/// What is accepted is passed on as it is: the second window starts from V of the last iteration,
/// 0.71875, and not from what it would be relaxed to.
pub fn the_accepted_iterate_is_not_relaxed()
    ensures outcome { shown relaxed_windows ≡ record {
      states = (pos 1718750 ∷ []) ∷ (pos 859375 ∷ []) ∷ [];
      steps = 4 ∷ 4 ∷ [];
      lines =
          line 1 1 Again (500000 ∷ []) ∷ line 1 2 Again (375000 ∷ []) ∷ line 1 3 Converged (281250 ∷ [])
          ∷ line 2 1 Converged (140625 ∷ []) ∷ [];
      watches = [];
      ends = 10 ∷ 20 ∷ [];
      faults = [];
    } }
    ensures readings { slice_get (results relaxed_windows).readings 0 ≡ Some
        (reading 1 1 10 0 0 (pos 0 ∷ []) ∷ reading 1 2 10 1 1 (pos 250000 ∷ []) ∷ reading 1 3 10 1 2 (pos 437500 ∷ []) ∷ reading 2 1 20 1 3 (pos 718750 ∷ []) ∷ []) }
{}

/// U is passed on as it was posted, while V is relaxed.
pub fn an_exchange_that_is_not_relaxed()
    ensures { shown one_relaxed ≡ record {
      states = (pos 1250000 ∷ []) ∷ (pos 500000 ∷ []) ∷ [];
      steps = 3 ∷ 3 ∷ [];
      lines =
          line 1 1 Again (1000000 ∷ 0 ∷ []) ∷ line 1 2 Again (0 ∷ 500000 ∷ []) ∷ line 1 3 Converged (250000 ∷ 250000 ∷ []) ∷ [];
      watches = [];
      ends = 10 ∷ [];
      faults = [];
    } }
{}

/// The residuals are 20000 and 19990 and the second factor 1000, which relaxes V to 20000000.
pub fn a_relaxed_value_out_of_range()
    ensures faults { (results relax_overflow).faults ≡ Relax 0 1 2 1 10 0 ∷ [] }
    ensures lines { (results relax_overflow).lines ≡
        line 1 1 Again (20000000000 ∷ []) ∷ line 1 2 Again (19990000000 ∷ []) ∷ [] }
    ensures ends { (results relax_overflow).ends ≡ [] }
{}

/// The change is at most a tenth of the new value in the fourth iteration.
pub fn a_relative_measure()
    ensures { shown relative ≡ shown implicit }
{}

/// The change is a quarter of the first one in the third iteration.
pub fn a_residual_relative_measure()
    ensures { shown residual_relative ≡ record {
      states = (pos 1750000 ∷ []) ∷ (pos 875000 ∷ []) ∷ [];
      steps = 3 ∷ 3 ∷ [];
      lines =
          line 1 1 Again (500000 ∷ []) ∷ line 1 2 Again (250000 ∷ []) ∷ line 1 3 Converged (125000 ∷ []) ∷ [];
      watches = [];
      ends = 10 ∷ [];
      faults = [];
    } }
{}

/// It suffices that U changes by at most 0.3, which is measured from what it was before.
pub fn a_measure_that_suffices()
    ensures { shown sufficient ≡ record {
      states = (pos 1750000 ∷ []) ∷ (pos 875000 ∷ []) ∷ [];
      steps = 3 ∷ 3 ∷ [];
      lines =
          line 1 1 Again (500000 ∷ 1000000 ∷ []) ∷ line 1 2 Again (250000 ∷ 500000 ∷ [])
          ∷ line 1 3 Converged (125000 ∷ 250000 ∷ []) ∷ [];
      watches = [];
      ends = 10 ∷ [];
      faults = [];
    } }
{}

/// There are as many iterations as the least number.
pub fn the_least_number_of_iterations()
    ensures { shown twice_at_least ≡ record {
      states = (pos 1500000 ∷ []) ∷ (pos 750000 ∷ []) ∷ [];
      steps = 2 ∷ 2 ∷ [];
      lines = line 1 1 Again (500000 ∷ []) ∷ line 1 2 Converged (250000 ∷ []) ∷ [];
      watches = [];
      ends = 10 ∷ [];
      faults = [];
    } }
{}

/// Both read the iteration before, so U and V change in turn.
pub fn a_parallel_implicit_coupling()
    ensures { shown parallel_implicit ≡ record {
      states = (pos 1875000 ∷ []) ∷ (pos 937500 ∷ []) ∷ [];
      steps = 8 ∷ 8 ∷ [];
      lines =
          line 1 1 Again (1000000 ∷ 0 ∷ []) ∷ line 1 2 Again (0 ∷ 500000 ∷ []) ∷ line 1 3 Again (500000 ∷ 0 ∷ [])
          ∷ line 1 4 Again (0 ∷ 250000 ∷ []) ∷ line 1 5 Again (250000 ∷ 0 ∷ []) ∷ line 1 6 Again (0 ∷ 125000 ∷ [])
          ∷ line 1 7 Again (125000 ∷ 0 ∷ []) ∷ line 1 8 Converged (0 ∷ 62500 ∷ []) ∷ [];
      watches = [];
      ends = 10 ∷ [];
      faults = [];
    } }
{}

/// A multi scheme of two is parallel-implicit.
pub fn a_multi_scheme_of_two()
    ensures { shown multi_of_two ≡ shown parallel_implicit }
{}

/// B faults in the third iteration, which A has posted: A is cut, and two iterations were judged.
pub fn a_member_is_cut()
    ensures faults { (results cut_in_judge).faults ≡ Solver 1 1 3 1 2 ∷ [] }
    ensures endings { endings cut_in_judge ≡ cut ∷ faulted (Solver 1 1 3 1 2) ∷ [] }
    ensures lines { (results cut_in_judge).lines ≡ line 1 1 Again (500000 ∷ []) ∷ line 1 2 Again (250000 ∷ []) ∷ [] }
    ensures steps { (results cut_in_judge).steps ≡ 3 ∷ 2 ∷ [] }
{}
