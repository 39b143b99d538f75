//! What is true of the definitions alone. The calls do nothing.

ghost use Rattle.std.specs.Prelude.{◌≡◌, ◌+◌, ◌^◌, ◌<◌, ℕ, ℤ, List, [], Some, true, false, length, map, slice_get, sum};
ghost use Rattle.fixed_num.specs.Relaxation.{within};
ghost use Rattle.solver_trait.specs.Behaviour.{Behaviour};
ghost use Rattle.data_actions.specs.declared.sums.Sum.{Sum};
ghost use Rattle.data_actions.specs.Totals.{value_at, total};
ghost use Rattle.data_actions.specs.Fit.{fit};
ghost use Rattle.data_actions.specs.SummedValues.{is_made, summed};
ghost use Rattle.data_actions.specs.SoundSums.{AreSums};
ghost use Rattle.data_actions.specs.EntrySums.{EntrySum, sum_of_entries, AreEntrySums};
ghost use Rattle.data_actions.specs.SummedSolver.{SummedSolver};

use solver_trait::Solver;

/// Without sums a solver is as it is.
pub fn no_sums_change_nothing<S: Solver>()
    ensures { (solver : Behaviour S.State) → SummedSolver solver [] ≡ solver }
{}

/// Each value at a target is the Value that is nearest to the total of the sources, as they are
/// written, and the total itself where the sums fit. All other values stay.
pub fn each_target_is_its_total()
    ensures nearest { (sums : List Sum) (values : List ℤ) (k offset : ℕ) (sum : Sum)
        → AreSums (length values) sums → slice_get sums k ≡ Some sum → offset < sum.length
        → value_at (summed sums values) (sum.target + offset)
        ≡ within (10 ^ 13) (total sum (summed sums values) offset) }
    ensures exact { (sums : List Sum) (values : List ℤ) (k offset : ℕ) (sum : Sum)
        → AreSums (length values) sums → fit sums values ≡ true
        → slice_get sums k ≡ Some sum → offset < sum.length
        → value_at (summed sums values) (sum.target + offset)
        ≡ total sum (summed sums values) offset }
    ensures others { (sums : List Sum) (values : List ℤ) (place : ℕ) → is_made sums place ≡ false
        → value_at (summed sums values) place ≡ value_at values place }
{}

/// Sums of whole entries, which stand one after the other, are sums of the entries' values: it is
/// enough that their sources are as long as their targets, that no entry is the target of two, and
/// that no target is a source.
pub fn sums_of_whole_entries_are_sums()
    ensures { (lengths : List ℕ) (sums : List EntrySum) → AreEntrySums lengths sums
        → AreSums (sum lengths) (map (sum_of_entries lengths) sums) }
{}
