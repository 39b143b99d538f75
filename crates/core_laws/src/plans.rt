//! What the laws use of a valid plan, as contracts of functions that do nothing.
ghost use Rattle.std.specs.Prelude.{◌≡◌, ◌<◌, ◌≤◌, ◌+◌, ◌-◌, ◌⊎◌, ℕ, Contains, IsSome, IsTrue, length};
ghost use Rattle.cpl_plan.specs.Needs.{needs};
ghost use Rattle.cpl_plan.specs.ValidPlan.{IsValidPlan};
ghost use Rattle.cpl_plan.specs.declared.parts.PlanParts.{PlanParts};
ghost use Rattle.cpl_plan.specs.declared.words.Item.TheVariants.{Completed, Posted};
ghost use Rattle.cpl_plan.specs.declared.words.Need.{Need};
ghost use Rattle.coupled_loop.specs.Given.{Look};
ghost use Rattle.coupled_loop.specs.PlanFrames.{Exchanged, frame_of, is_told};
ghost use Rattle.coupled_loop.specs.Settled.{AreNeedsGiven, Extends, IsInOrder};
ghost use Rattle.core_laws.specs.Before.{IsEarlierMember, IsInEarlierNode};

/// In a valid plan a participant needs only what is given before its turn where nodes, and the members
/// of a scheme, take their turns in order: of the window before, of the window from an earlier node, or
/// of the iteration from an earlier member; and it needs it of another participant.
pub fn a_need_is_of_what_came_before()
    ensures item { (plan : PlanParts) (part w k : ℕ) (need : Need) → IsValidPlan plan
        → part < length plan.parts → Contains (needs plan part w k) need
        → (need.item ≡ Completed (w - 1))
        ⊎ ((need.item ≡ Completed w) × IsInEarlierNode plan need.owner part)
        ⊎ ((need.item ≡ Posted w k) × IsEarlierMember plan need.owner part) }
    ensures owner { (plan : PlanParts) (part w k : ℕ) (need : Need)
        → Contains (needs plan part w k) need
        → (need.owner < length plan.parts) × ¬ (need.owner ≡ part) }
{}

/// Who has been given what it needs for a window, and has completed it, knows whether there is a next
/// one: nothing that is given later changes that. Of the first window it is known from the start, and
/// windows have the numbers from one to the greatest of the plan.
pub fn the_next_window_is_told<Post, Inputs, Fault>()
    ensures first { (plan : PlanParts) (newest : Post → ℕ) (f g : Look Post)
        → is_told plan newest f 1 ≡ is_told plan newest g 1 }
    ensures next { (plan : PlanParts) (exchanged : Exchanged Post Inputs Fault) (f g : Look Post) (part w k : ℕ)
        → IsValidPlan plan → part < length plan.parts → Extends f g → IsInOrder f
        → AreNeedsGiven (frame_of plan exchanged) f part w k → IsSome (f part (Completed w))
        → is_told plan exchanged.newest f (w + 1) ≡ is_told plan exchanged.newest g (w + 1) }
    ensures numbered { (plan : PlanParts) (newest : Post → ℕ) (f : Look Post) (w : ℕ)
        → IsTrue (is_told plan newest f w) → (1 ≤ w) × (w ≤ plan.most_windows) }
{}
