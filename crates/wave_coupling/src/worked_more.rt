//! Couplings of three participants, and of meshes of two points, computed. Numbers are in units:
//! 1000000 is one.
ghost use Rattle.std.specs.Prelude.{◌≡◌, [], ◌∷◌, pos};
ghost use Rattle.cpl_plan.specs.declared.words.Fault.TheVariants.{Solver, WriteMap};
ghost use Rattle.coupled_loop.specs.Endings.{faulted, cut};
ghost use Rattle.wave_coupling.specs.WorkedCases.{results, shown, reading, endings};
ghost use Rattle.wave_coupling.specs.WorkedImplicit.{implicit};
ghost use Rattle.wave_coupling.specs.WorkedMore.{third_participant, third_in_parallel, cut_chain, serial_chain, mapped_sum};

/// A third participant reads what the iteration that was accepted has posted.
pub fn a_second_after_iterations()
    ensures states { (results third_participant).states ≡ (pos 1875000 ∷ []) ∷ (pos 937500 ∷ []) ∷ (pos 1875000 ∷ []) ∷ [] }
    ensures steps { (results third_participant).steps ≡ 4 ∷ 4 ∷ 1 ∷ [] }
    ensures lines { (results third_participant).lines ≡ (results implicit).lines }
    ensures ends { (results third_participant).ends ≡ 10 ∷ [] }
{}

/// Parallel to them it reads the initial data.
pub fn beside_iterations()
    ensures states { (results third_in_parallel).states ≡ (pos 1875000 ∷ []) ∷ (pos 937500 ∷ []) ∷ (pos 0 ∷ []) ∷ [] }
    ensures lines { (results third_in_parallel).lines ≡ (results implicit).lines }
{}

/// A faults at once, and the two others are cut.
pub fn a_chain_is_cut()
    ensures faults { (results cut_chain).faults ≡ Solver 0 1 1 1 2 ∷ [] }
    ensures endings { endings cut_chain ≡ faulted (Solver 0 1 1 1 2) ∷ cut ∷ cut ∷ [] }
{}

/// Three participants in a row: the third reads what the second has written in the same window.
pub fn a_serial_chain()
    ensures { shown serial_chain ≡ record {
      states = (pos 1750000 ∷ []) ∷ (pos 875000 ∷ []) ∷ (pos 875000 ∷ []) ∷ [];
      steps = 3 ∷ 3 ∷ 3 ∷ [];
      lines = [];
      watches = [];
      ends = 10 ∷ 20 ∷ 30 ∷ [];
      faults = [];
    } }
{}

/// The sum of what A writes at two points is out of range; half of it is not.
pub fn a_mapped_sum()
    ensures faults { (results (mapped_sum (pos 10000000000000))).faults ≡ WriteMap 0 1 1 0 10 0 0 ∷ [] }
    ensures ends { (results (mapped_sum (pos 10000000000000))).ends ≡ [] }
    ensures accepted { shown (mapped_sum (pos 5000000000000)) ≡ record {
      states = (pos 5000000000000 ∷ pos 5000000000000 ∷ []) ∷ (pos 5000000000000 ∷ []) ∷ [];
      steps = 3 ∷ 3 ∷ [];
      lines = [];
      watches = [];
      ends = 10 ∷ 20 ∷ 30 ∷ [];
      faults = [];
    } }
{}
