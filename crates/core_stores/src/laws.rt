//! What is true of the definitions alone, as contracts of functions that do nothing.

ghost use Rattle.std.specs.Prelude.{List, Option};
ghost use Rattle.cpl_plan.specs.ValidPlan.{IsValidPlan};
ghost use Rattle.cpl_plan.specs.declared.parts.PlanParts.{PlanParts};
ghost use Rattle.sample_store.specs.Kept.{Kept as StoreKept};
ghost use Rattle.core_sides.specs.CoreWords.{WaveState, WaveEntry};
ghost use Rattle.core_sides.specs.Reached.{IsReached};
ghost use Rattle.core_stores.specs.StoresStand.{AreStores, AreKept};

/// For each state that fitting events come to, some stores stand, and each of them has what a store
/// has to have.
pub fn some_stores_stand()
    ensures { (plan : PlanParts) (history : List WaveEntry) (sides : WaveState) → IsValidPlan plan
        → IsReached plan history sides
        → (stores : List (Option StoreKept)) × AreStores plan stores sides × AreKept stores }
{}
