//! What the definitions say of plans and windows, in other words.

ghost use Rattle.std.specs.Prelude.{◌≡◌, ◌↔◌, ◌<◌, ◌≤◌, ◌+◌, ◌-◌, ◌++◌, ◌∷◌, ℕ, Bool, nat_eq, [], List, Contains, IsTrue, length, slice_get, slice_index, Some};
ghost use Rattle.plan_order.specs.declared.node.Node.{Node};
ghost use Rattle.plan_order.specs.NodeOrder.{first_member, IsNodeOrder};
ghost use Rattle.cpl_plan.specs.declared.parts.PlanParts.{PlanParts};
ghost use Rattle.cpl_plan.specs.declared.parts.MeshPlan.{MeshPlan};
ghost use Rattle.cpl_plan.specs.declared.parts.Exchange.{Exchange};
ghost use Rattle.cpl_plan.specs.declared.parts.Scheme.{Scheme};
ghost use Rattle.cpl_plan.specs.declared.parts.SchemeKind.TheVariants.{SerialExplicit};
ghost use Rattle.cpl_plan.specs.PlanTests.{goes_to_second};
ghost use Rattle.cpl_plan.specs.PlanFacts.{broken_facts};
ghost use Rattle.cpl_plan.specs.PlanNodes.{node_members, solved_before};
ghost use Rattle.cpl_plan.specs.PlanWords.{each, passes, is_among, are_distinct, provides};
ghost use Rattle.cpl_plan.specs.ValidPlan.{IsValidPlan};
ghost use Rattle.cpl_plan.specs.Windows.{AreMade, MayEnd, is_last_window, is_window, latest_end, window_end, window_start};
ghost use Rattle.cpl_plan.specs.declared.parts.WindowMethod.TheVariants.{FirstParticipant, Fixed};

/// The windows of one size of a valid plan follow one another without a gap, from time 0 to the end
/// time; there are as many as the plan says, none is empty, and each ends as late as it may.
pub fn windows_fill_the_time()
    ensures there { (plan : PlanParts) (ends : List ℕ) (w : ℕ) → IsValidPlan plan → plan.method ≡ Fixed
        → IsTrue (is_window plan ends w) ↔ ((1 ≤ w) × (w ≤ plan.most_windows)) }
    ensures first { (plan : PlanParts) (ends : List ℕ) → window_start plan ends 1 ≡ Some 0 }
    ensures joined { (plan : PlanParts) (ends : List ℕ) (w : ℕ) → IsValidPlan plan → plan.method ≡ Fixed
        → 1 ≤ w → w < plan.most_windows → window_start plan ends (w + 1) ≡ window_end plan ends w }
    ensures ended { (plan : PlanParts) (ends : List ℕ) → IsValidPlan plan → plan.method ≡ Fixed
        → window_end plan ends plan.most_windows ≡ Some plan.end_time }
    ensures some_time { (plan : PlanParts) (ends : List ℕ) (w start end : ℕ) → IsValidPlan plan
        → plan.method ≡ Fixed → IsTrue (is_window plan ends w) → window_start plan ends w ≡ Some start
        → window_end plan ends w ≡ Some end → (start < end) × (end ≡ latest_end plan start) }
    ensures last { (plan : PlanParts) (ends : List ℕ) (w : ℕ) → IsValidPlan plan → plan.method ≡ Fixed
        → IsTrue (is_last_window plan ends w) ↔ (w ≡ plan.most_windows) }
{}

/// The windows that the first participant makes, one after another: each is there, starts where the one
/// before it ended, takes some time and at most that of a window's size, and ends at the end time at
/// the latest; starts and ends rise.
pub fn first_steps_make_windows()
    ensures there { (plan : PlanParts) (ends : List ℕ) (w : ℕ) → plan.method ≡ FirstParticipant
        → AreMade plan ends → 1 ≤ w → w ≤ length ends → IsTrue (is_window plan ends w) }
    ensures ended { (plan : PlanParts) (ends : List ℕ) (w : ℕ) → plan.method ≡ FirstParticipant
        → AreMade plan ends → 1 ≤ w → w ≤ length ends
        → window_end plan ends w ≡ slice_get ends (w - 1) }
    ensures joined { (plan : PlanParts) (ends : List ℕ) (w end : ℕ) → plan.method ≡ FirstParticipant
        → window_end plan ends w ≡ Some end → window_start plan ends (w + 1) ≡ Some end }
    ensures some_time { (plan : PlanParts) (ends : List ℕ) (w start end : ℕ)
        → plan.method ≡ FirstParticipant → AreMade plan ends → window_start plan ends w ≡ Some start
        → window_end plan ends w ≡ Some end → start < end }
    ensures short { (plan : PlanParts) (ends : List ℕ) (w start end : ℕ)
        → plan.method ≡ FirstParticipant → AreMade plan ends → window_start plan ends w ≡ Some start
        → window_end plan ends w ≡ Some end → end ≤ start + plan.window }
    ensures in_time { (plan : PlanParts) (ends : List ℕ) (w end : ℕ) → plan.method ≡ FirstParticipant
        → AreMade plan ends → window_end plan ends w ≡ Some end → end ≤ plan.end_time }
    ensures ends_rise { (plan : PlanParts) (ends : List ℕ) (v w one other : ℕ)
        → plan.method ≡ FirstParticipant → AreMade plan ends → v < w
        → window_end plan ends v ≡ Some one → window_end plan ends w ≡ Some other → one < other }
    ensures starts_rise { (plan : PlanParts) (ends : List ℕ) (v w one other : ℕ)
        → plan.method ≡ FirstParticipant → AreMade plan ends → v < w
        → window_start plan ends v ≡ Some one → window_start plan ends w ≡ Some other → one < other }
{}

/// In a valid plan whose windows the first participant makes there is one scheme, a serial-explicit
/// one, and an exchange from its first to its second.
pub fn first_steps_have_one_scheme()
    ensures scheme { (plan : PlanParts) → IsValidPlan plan → plan.method ≡ FirstParticipant
        → (scheme : Scheme) × (plan.schemes ≡ scheme ∷ []) × (scheme.kind ≡ SerialExplicit) }
    ensures to_second { (plan : PlanParts) → IsValidPlan plan → plan.method ≡ FirstParticipant
        → (x : ℕ) × (e : Exchange) × (slice_get plan.exchanges x ≡ Some e)
        × IsTrue (goes_to_second plan e) }
{}

/// Ends are made one after another, and what is told of a window stays as it is when further ones are
/// made.
pub fn windows_stay()
    ensures none { (plan : PlanParts) → AreMade plan [] }
    ensures more { (plan : PlanParts) (ends : List ℕ) (end : ℕ) → AreMade plan ends
        → MayEnd plan ends end → AreMade plan (ends ++ end ∷ []) }
    ensures starts { (plan : PlanParts) (ends more : List ℕ) (w : ℕ) → w ≤ length ends + 1
        → window_start plan (ends ++ more) w ≡ window_start plan ends w }
    ensures there { (plan : PlanParts) (ends more : List ℕ) (w : ℕ) → w ≤ length ends + 1
        → is_window plan (ends ++ more) w ≡ is_window plan ends w }
    ensures ends { (plan : PlanParts) (ends more : List ℕ) (w : ℕ) → 1 ≤ w → w ≤ length ends
        → window_end plan (ends ++ more) w ≡ window_end plan ends w }
{}

/// A plan is valid exactly where no test of a fact fails and its nodes stand in order.
pub fn validity_is_tested()
    ensures told { (plan : PlanParts) → IsValidPlan plan → broken_facts plan ≡ [] }
    ensures enough { (plan : PlanParts) → broken_facts plan ≡ []
        → IsNodeOrder (node_members plan) (solved_before plan) plan.nodes → IsValidPlan plan }
{}

/// What each item of a list passes this one does, and where each one does they all do; what an item
/// of a number passes is passed by one that is there.
pub fn each_item_passes<T>()
    ensures this { (items : List T) (test : ℕ → T → Bool) (n : ℕ) (item : T)
        → IsTrue (each items test) → slice_get items n ≡ Some item → IsTrue (test n item) }
    ensures all { (items : List T) (test : ℕ → T → Bool)
        → ((n : ℕ) (item : T) → slice_get items n ≡ Some item → IsTrue (test n item))
        → IsTrue (each items test) }
    ensures one { (items : List T) (test : T → Bool) (n : ℕ) → IsTrue (passes items n test)
        ↔ ((item : T) × (slice_get items n ≡ Some item) × IsTrue (test item)) }
{}

/// A number is among others where they contain it, and numbers are distinct where no two places have
/// the same.
pub fn numbers_are_told_apart()
    ensures among { (n : ℕ) (ns : List ℕ) → IsTrue (is_among n ns) ↔ Contains ns n }
    ensures distinct { (ns : List ℕ) → IsTrue (are_distinct nat_eq ns)
        ↔ ((i j : ℕ) → i < j → j < length ns → ¬ (slice_index ns i ≡ slice_index ns j)) }
{}

/// In a valid plan a participant provides a mesh exactly where it is the mesh's owner.
pub fn owner_provides_alone()
    ensures { (plan : PlanParts) (mesh : ℕ) (of_mesh : MeshPlan) (part : ℕ) → IsValidPlan plan
        → slice_get plan.meshes mesh ≡ Some of_mesh
        → IsTrue (provides plan part mesh) ↔ (part ≡ of_mesh.owner) }
{}

/// In a valid plan each participant is in exactly one node, and so first members tell nodes apart and
/// the nodes have no other order.
pub fn each_participant_is_in_one_node()
    ensures some { (plan : PlanParts) (part : ℕ) → IsValidPlan plan → part < length plan.parts
        → (node : Node) × Contains (node_members plan node) part }
    ensures one { (plan : PlanParts) (node other : Node) (part : ℕ) → IsValidPlan plan
        → Contains (node_members plan node) part → Contains (node_members plan other) part
        → node ≡ other }
    ensures only { (plan : PlanParts) (node : Node) (part : ℕ) → IsValidPlan plan
        → Contains (node_members plan node) part → part < length plan.parts }
    ensures first_members { (plan : PlanParts) (node other : Node) → IsValidPlan plan
        → 0 < length (node_members plan node) → 0 < length (node_members plan other)
        → first_member (node_members plan node) ≡ first_member (node_members plan other)
        → node ≡ other }
    ensures order { (plan : PlanParts) (nodes : List Node) → IsValidPlan plan
        → IsNodeOrder (node_members plan) (solved_before plan) nodes → nodes ≡ plan.nodes }
{}
