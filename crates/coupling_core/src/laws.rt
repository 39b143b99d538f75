//! What is true of the definitions alone, as the contract of a function that does nothing.

ghost use Rattle.std.specs.Prelude.{◌≡◌, List, All};
ghost use Rattle.cpl_plan.specs.ValidPlan.{IsValidPlan};
ghost use Rattle.cpl_plan.specs.declared.parts.PlanParts.{PlanParts};
ghost use Rattle.group_course.specs.CourseKept.{IsKept as IsCourseKept};
ghost use Rattle.core_sides.specs.CoreWords.{WaveState, WaveEntry};
ghost use Rattle.core_sides.specs.Reached.{IsReached};
ghost use Rattle.core_stores.specs.StoresStand.{AreKept as AreStoresKept};
ghost use Rattle.coupling_core.specs.CoreKept.{CoreKept};
ghost use Rattle.coupling_core.specs.StandsFor.{StandsFor, IsKept};

/// A core can stand for every legal list of fitting events: some record of what a core keeps does, which
/// has what a core has to have, as have the stores and the courses in it.
pub fn law_stands()
    ensures { (plan : PlanParts) (h : List WaveEntry) (sides : WaveState) → IsValidPlan plan → IsReached plan h sides
        → (core : CoreKept) × (core.plan ≡ plan) × IsKept core × AreStoresKept core.stores
        × All (λ state. IsCourseKept state.course) core.schemes × StandsFor core h sides }
{}
