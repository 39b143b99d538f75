//! Laws of refusals, which the prover checks. The calls do nothing.
ghost use Rattle.std.specs.Prelude.{◌≡◌, [], ◌∷◌, map};
ghost use Rattle.std.specs.List.{AllByRecursion};
ghost use Rattle.toml.specs.Data.{Members};
ghost use Rattle.cpl_tables.specs.declared.kinds.TableKind.TheVariants.{RowsCase, RodCase, SpringCase, RecordedCase};
ghost use Rattle.cpl_tables.specs.declared.word_lists.WordList.TheVariants.{Solver};
ghost use Rattle.cpl_tables.specs.Words.{words_of};
ghost use Rattle.cpl_tables.specs.PlaceOrder.{AreRising};
ghost use Rattle.cpl_rules.specs.declared.rules.Refusal.{Refusal};
ghost use Rattle.cpl_rules.specs.Seen.{Seen};
ghost use Rattle.cpl_rules.specs.SeenTables.{all_tables, config_top, kind_of_word};
ghost use Rattle.cpl_rules.specs.FewItems.{HasFewItems};
ghost use Rattle.cpl_rules.specs.Refused.{number_of_rule, table_rules, IsRefused, IsInOrder};

/// At most one refusal is right for a file, and none where its tables are in order.
pub fn one_refusal()
    ensures only { (top : Seen) (one other : Refusal) → IsRefused top one → IsRefused top other → one ≡ other }
    ensures exclusive { (top : Seen) (refusal : Refusal) → IsRefused top refusal → ¬ (IsInOrder top) }
{}

/// The rules on tables are those with the numbers 3 to 8, in this order.
pub fn rules_are_numbered()
    ensures { map number_of_rule table_rules ≡ 3 ∷ 4 ∷ 5 ∷ 6 ∷ 7 ∷ 8 ∷ [] }
{}

/// Each word that is listed for a solver has a kind of case files of its own.
pub fn solvers_have_kinds()
    ensures { map kind_of_word (words_of Solver) ≡ RowsCase ∷ RodCase ∷ SpringCase ∷ RecordedCase ∷ [] }
{}

/// The tables of a configuration are looked at in the order of their places, each of which comes
/// before all later ones, if no list has more items than a number of 32 bits counts.
pub fn places_rise()
    ensures { (tree : Members) → AllByRecursion HasFewItems (all_tables (config_top tree)) → AreRising (map (λ seen. seen.place) (all_tables (config_top tree))) }
{}
