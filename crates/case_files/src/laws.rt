//! What is true of the definitions alone.

ghost use Rattle.std.specs.Prelude.{◌≡◌, ℕ, [], ◌∷◌, map};
ghost use Rattle.toml.specs.Data.{Members};
ghost use Rattle.cpl_rules.specs.SeenTables.{case_top};
ghost use Rattle.cpl_rules.specs.Refused.{IsInOrder};
ghost use Rattle.case_files.specs.CaseOf.{case_of, solver_of, read_when_of};
ghost use Rattle.cpl_tables.specs.declared.kinds.TableKind.TheVariants.{RowsCase, RodCase, SpringCase, RecordedCase};
ghost use Rattle.cpl_tables.specs.declared.word_lists.WordList.TheVariants.{Solver, ReadWhen};
ghost use Rattle.cpl_tables.specs.Words.{words_of};
ghost use Rattle.cpl_rules.specs.SeenTables.{kind_of_word};
ghost use Rattle.line_solvers.specs.declared.case.ReadWhen.TheVariants.{End, Start};
ghost use Rattle.line_solvers.specs.declared.case.SolverKind.TheVariants.{Rows, Rod, Spring, Recorded};
ghost use Rattle.case_files.specs.SoundCase.{IsSoundCaseFile};

/// A case file whose tables break no rule means a sound case, whichever participant's it is: all its
/// names, numbers and lists are within their ranges and limits. A law, which the prover checks; the
/// call does nothing.
pub fn case_tree_without_fault_is_sound()
    ensures { (number : ℕ) (tree : Members) → IsInOrder (case_top number tree) → IsSoundCaseFile (case_of tree) }
{}

/// The words that the rules list are those by which a case file means a kind of solver and a time of
/// reading, and by which the kind of its table is told: each means one, in the listed order.
pub fn listed_words_have_their_meanings()
    ensures solvers { map solver_of (words_of Solver) ≡ Rows ∷ Rod ∷ Spring ∷ Recorded ∷ [] }
    ensures tables { map kind_of_word (words_of Solver) ≡ RowsCase ∷ RodCase ∷ SpringCase ∷ RecordedCase ∷ [] }
    ensures reading { map read_when_of (words_of ReadWhen) ≡ End ∷ Start ∷ [] }
{}
