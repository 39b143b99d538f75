ghost use Rattle.std.specs.Prelude.{◌≡◌, ◌<◌, false, [], ◌∷◌, Some, None, All, IsTrue, Contains, length, map};
ghost use Rattle.plan_order.specs.declared.node.Node.TheVariants.{Single, Group};
ghost use Rattle.cpl_plan.specs.ValidPlan.{IsValidPlan};
ghost use Rattle.cpl_plan.specs.PlanFacts.{Fact, broken_facts};
ghost use Rattle.cpl_plan.specs.BrokenPlans.{plans_without, broken_with, nodes_out_of_order, greater_first};
ghost use Rattle.cpl_plan.specs.SmallPlans.{first_step_plan, iterated_plan, serial_iterated_plan, fan, wide};
ghost use Rattle.plan_order.specs.NodeOrder.{IsNodeOrder};
ghost use Rattle.cpl_plan.specs.Needs.{needs};
ghost use Rattle.cpl_plan.specs.Windows.{is_last_window, is_window, latest_end, window_end, window_start, windows_to_reach};
ghost use Rattle.cpl_plan.specs.PlanWords.{components_on};
ghost use Rattle.cpl_plan.specs.PlanNodes.{node_members, solved_before};
ghost use Rattle.cpl_plan.specs.ExamplePlan.{example_plan, two_participants, completed, posted};

/// A plan with each kind of scheme is valid, and so are small ones: of two participants under either
/// implicit scheme, of data that go to two readers, of nearly as many accelerated components as there
/// may be, and of windows that the first participant makes. "For every valid plan" speaks of something.
pub fn examples_are_valid()
    ensures each_kind { IsValidPlan example_plan }
    ensures iterated { IsValidPlan iterated_plan }
    ensures serial_iterated { IsValidPlan serial_iterated_plan }
    ensures fan { IsValidPlan fan }
    ensures wide { IsValidPlan (wide 6) }
    ensures first_step { IsValidPlan first_step_plan }
{}

/// The plan of two participants is valid.
pub fn two_participants_are_valid()
    ensures { IsValidPlan two_participants }
{}

/// The needs of the example's participants for the take of window 2 and iteration 3, as worked out
/// by hand.
pub fn worked_needs()
    // In a serial-implicit scheme with 1, which it waits for one window behind; it is the second of
    // 7 in a serial-explicit scheme.
    ensures first_of_a_group { needs example_plan 0 2 3 ≡ completed 1 1 ∷ completed 7 2 ∷ [] }
    // The second of the serial-implicit scheme; in a parallel-explicit scheme with 2.
    ensures second_of_a_group { needs example_plan 1 2 3 ≡ posted 0 2 3 ∷ completed 2 1 ∷ [] }
    // In a parallel-implicit scheme with 3, and with 1 as above.
    ensures parallel { needs example_plan 2 2 3 ≡ completed 3 1 ∷ completed 1 1 ∷ [] }
    ensures parallel_alone { needs example_plan 3 2 3 ≡ completed 2 1 ∷ [] }
    // In a multi scheme of 4, 5 and 6, whose partners stand by number.
    ensures multi_first { needs example_plan 4 2 3 ≡ completed 5 1 ∷ completed 6 1 ∷ [] }
    ensures multi_second { needs example_plan 5 2 3 ≡ completed 4 1 ∷ completed 6 1 ∷ [] }
    ensures multi_third { needs example_plan 6 2 3 ≡ completed 4 1 ∷ completed 5 1 ∷ [] }
    // The first of 0 in a serial-explicit scheme.
    ensures serial_first { needs example_plan 7 2 3 ≡ completed 0 1 ∷ [] }
{}

/// What the readers say of the example, as worked out by hand: 25 ticks in windows of 10, the
/// components of a scalar and of a vector in two and in three dimensions, and the nodes.
pub fn worked_readings()
    ensures windows { windows_to_reach 10 25 ≡ 3 }
    ensures first_span { (window_start example_plan [] 1 ≡ Some 0)
        × (window_end example_plan [] 1 ≡ Some 10) }
    ensures second_span { (window_start example_plan [] 2 ≡ Some 10)
        × (window_end example_plan [] 2 ≡ Some 20) }
    ensures last_span { (window_start example_plan [] 3 ≡ Some 20)
        × (window_end example_plan [] 3 ≡ Some 25) }
    ensures last { IsTrue (is_last_window example_plan [] 3) }
    ensures no_window { is_window example_plan [] 4 ≡ false }
    ensures scalar { components_on example_plan 0 0 ≡ Some 1 }
    ensures scalar_in_space { components_on example_plan 4 6 ≡ Some 1 }
    ensures vector_in_a_plane { components_on example_plan 2 3 ≡ Some 2 }
    ensures vector_in_space { components_on example_plan 3 6 ≡ Some 3 }
    ensures group { node_members example_plan (Group 1) ≡ 3 ∷ 2 ∷ [] }
    ensures single { node_members example_plan (Single 7) ≡ 7 ∷ [] }
    ensures no_node { node_members example_plan (Group 3) ≡ [] }
    ensures before { solved_before example_plan ≡ (7, 0) ∷ [] }
{}

/// What is told of windows that the first participant makes, of at most 4 ticks until time 10, as
/// worked out by hand: it has ended two at 4 and 8, and then a third at 10.
pub fn worked_first_steps()
    ensures first { (window_start first_step_plan (4 ∷ 8 ∷ []) 1 ≡ Some 0)
        × (window_end first_step_plan (4 ∷ 8 ∷ []) 1 ≡ Some 4) }
    ensures second { (window_start first_step_plan (4 ∷ 8 ∷ []) 2 ≡ Some 4)
        × (window_end first_step_plan (4 ∷ 8 ∷ []) 2 ≡ Some 8) }
    ensures third { (window_start first_step_plan (4 ∷ 8 ∷ []) 3 ≡ Some 8)
        × (window_end first_step_plan (4 ∷ 8 ∷ []) 3 ≡ None) }
    ensures more { (IsTrue (is_window first_step_plan (4 ∷ 8 ∷ []) 3))
        × (is_last_window first_step_plan (4 ∷ 8 ∷ []) 3 ≡ false)
        × (latest_end first_step_plan 8 ≡ 10) }
    ensures last { IsTrue (is_last_window first_step_plan (4 ∷ 8 ∷ 10 ∷ []) 3) }
    ensures no_more { is_window first_step_plan (4 ∷ 8 ∷ 10 ∷ []) 4 ≡ false }
    ensures untold { is_window first_step_plan (4 ∷ []) 3 ≡ false }
{}

/// For each fact of a valid plan that a test tells there are plans that differ from a valid one in one
/// place, in which it does not hold, and no other fact fails but where it cannot fail alone; they are
/// not valid. Nodes in another order are none that a valid plan has.
pub fn broken_plans_are_not_valid()
    ensures broken { (fact : Fact) → map broken_facts (plans_without fact)
        ≡ map (λ _. broken_with fact) (plans_without fact) }
    ensures some { (fact : Fact) → 0 < length (plans_without fact) }
    ensures this { (fact : Fact) → Contains (broken_with fact) fact }
    ensures invalid { (fact : Fact) → All (λ plan. ¬ IsValidPlan plan) (plans_without fact) }
    ensures orders { All (λ nodes. ¬ IsNodeOrder (node_members two_participants)
        (solved_before two_participants) nodes) nodes_out_of_order }
    ensures least_first { ¬ IsNodeOrder (node_members example_plan)
        (solved_before example_plan) greater_first }
{}
