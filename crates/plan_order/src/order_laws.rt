//! What is true of the order of nodes, by the definitions alone.

ghost use Rattle.std.specs.Prelude.{◌≡◌, ℕ, ◌<◌, List, ◌∷◌, ◌++◌, length, map, Contains};
ghost use Rattle.plan_order.specs.Cycle.{HasCycle};
ghost use Rattle.plan_order.specs.NodeOrder.{first_member, StandsBefore, IsNodeOrder};
ghost use Rattle.plan_order.specs.Renaming.{IsRenaming, IsRenumbering, renumbered};
ghost use Rattle.plan_order.specs.declared.node.Node.{Node};

/// In an order stand the nodes and nothing else, each once, after all nodes that stand before it.
pub fn nodes_stand_once_and_in_turn()
    ensures only { (members : Node → List ℕ) (pairs : List (ℕ × ℕ)) (order : List Node)
        → IsNodeOrder members pairs order → (node : Node) → Contains order node
        → 0 < length (members node) }
    ensures all { (members : Node → List ℕ) (pairs : List (ℕ × ℕ)) (order : List Node)
        → IsNodeOrder members pairs order → (node : Node) → 0 < length (members node)
        → Contains order node }
    ensures once { (members : Node → List ℕ) (pairs : List (ℕ × ℕ)) (order before after : List Node)
        (node : Node) → IsNodeOrder members pairs order → order ≡ before ++ node ∷ after
        → ¬ Contains before node }
    ensures in_turn { (members : Node → List ℕ) (pairs : List (ℕ × ℕ))
        (order before after : List Node) (node other : Node) → IsNodeOrder members pairs order → order ≡ before ++ node ∷ after
        → StandsBefore members pairs other node → Contains before other }
{}

/// There is one order at most, where no two nodes have the same first member.
pub fn order_is_the_only_one()
    ensures { (members : Node → List ℕ) (pairs : List (ℕ × ℕ)) (order other : List Node)
        → ((x y : Node) → 0 < length (members x) → 0 < length (members y)
        → first_member (members x) ≡ first_member (members y) → x ≡ y)
        → IsNodeOrder members pairs order → IsNodeOrder members pairs other → order ≡ other }
{}

/// Where the pairs have a cycle there is no order.
pub fn cycle_has_no_order()
    ensures { (members : Node → List ℕ) (pairs : List (ℕ × ℕ)) (order : List Node)
        → HasCycle members pairs → ¬ IsNodeOrder members pairs order }
{}

/// Nodes of which there is a list have an order where the pairs have no cycle.
pub fn no_cycle_has_an_order()
    ensures { (members : Node → List ℕ) (pairs : List (ℕ × ℕ)) (nodes : List Node)
        → ((node : Node) → 0 < length (members node) → Contains nodes node)
        → ¬ HasCycle members pairs → (order : List Node) × IsNodeOrder members pairs order }
{}

/// An order stays one where nodes have other names, or participants other numbers in the same order.
pub fn names_do_not_matter()
    ensures renamed { (members members' : Node → List ℕ) (pairs pairs' : List (ℕ × ℕ))
        (name : Node → Node) (order : List Node) → IsRenaming members pairs members' pairs' name
        → IsNodeOrder members pairs order → IsNodeOrder members' pairs' (map name order) }
    ensures renumbered { (members members' : Node → List ℕ) (pairs : List (ℕ × ℕ)) (number : ℕ → ℕ)
        (name : Node → Node) (order : List Node) → IsRenumbering members members' number name
        → IsNodeOrder members pairs order
        → IsNodeOrder members' (renumbered number pairs) (map name order) }
{}
