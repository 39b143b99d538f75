//! Laws of what is accepted, which the prover checks. The calls do nothing.
ghost use Rattle.std.specs.Prelude.{◌≡◌, ◌↔◌, true, List, ℕ, ℤ, pos, Some};
ghost use Rattle.toml.specs.Data.{Members};
ghost use Rattle.coupling_run.specs.SameTree.{same_members, members_are_plain};
ghost use Rattle.coupling_run.specs.Form.{windows_of, add_of, is_second_case};
ghost use Rattle.coupling_run.specs.Outcome.{run_outcome};
ghost use Rattle.coupling_run.specs.WorkedRuns.{base_outcome, faulting_outcome};
ghost use Rattle.coupling_run.specs.Accepted.{IsConfiguration, IsFirstCase, IsSecondCase};

/// Trees that compare as the same are equal, and a tree without fractions and dates is the same as
/// itself.
pub fn same_tree_is_equality()
    ensures equal { (ms ns : Members) → same_members ms ns ≡ true → ms ≡ ns }
    ensures itself { (ms : Members) → members_are_plain ms ≡ true → same_members ms ms ≡ true }
{}

/// A file is accepted exactly where its tree is that of the text of `base`, with the number that is
/// the answer.
pub fn accepted_files()
    ensures windows { (bytes : List ℕ) (count : ℕ) → (windows_of bytes ≡ Some count) ↔ IsConfiguration bytes count }
    ensures first { (bytes : List ℕ) (units : ℤ) → (add_of bytes ≡ Some units) ↔ IsFirstCase bytes units }
    ensures second { (bytes : List ℕ) → (is_second_case bytes ≡ true) ↔ IsSecondCase bytes }
{}

/// Two runs worked by hand, computed by the definition of a run. A law, which the prover checks; the
/// call does nothing.
pub fn worked_runs()
    ensures base { run_outcome 3 (pos 1000000) ≡ base_outcome }
    ensures faulting { run_outcome 3 (pos 10000000000000) ≡ faulting_outcome }
{}
