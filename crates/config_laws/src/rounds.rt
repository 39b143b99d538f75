//! What the rule on circles says.
ghost use Rattle.std.specs.Prelude.{ℕ, ◌<◌, List, [], ◌∷◌, ◌++◌, length, All, IsTrue};
ghost use Rattle.plan_order.specs.Cycle.{HasCycle};
ghost use Rattle.plan_order.specs.Groups.{AreGroups};
ghost use Rattle.cpl_tables.specs.declared.places.Place.{Place};
ghost use Rattle.cpl_config.specs.declared.config.Config.{Config};
ghost use Rattle.cpl_config.specs.declared.config.SchemeTable.{SchemeTable};
ghost use Rattle.mesh_rules.specs.Entries.{Entry, scheme};
ghost use Rattle.config_rules.specs.Circles.{steps_of, has_circle};
ghost use Rattle.config_rules.specs.ConfigRules.{breaks, IsAccepted};
ghost use Rattle.config_rules.specs.declared.circles.Step.{Step};
ghost use Rattle.config_rules.specs.declared.rules.ConfigRule.TheVariants.{Cycle};
ghost use Rattle.config_laws.specs.Circling.{GoesRound, IsAcceptedButForCircles};
ghost use Rattle.config_laws.specs.Numbered.{groups_in, befores_in, node_numbers};

/// Steps have a circle where a chain of them, each from the node to which the one before it leads,
/// comes back to its start, and nowhere else.
pub fn a_circle_comes_back_to_its_start()
    ensures circle_found { (steps : List Step) → GoesRound steps → IsTrue (has_circle steps) }
    ensures circle_meant { (steps : List Step) → IsTrue (has_circle steps) → GoesRound steps }
{}

/// A scheme breaks the rule on circles where the steps of the serial-explicit schemes up to it, itself
/// included, go round, and nowhere else.
pub fn a_circle_is_refused_and_nothing_else()
    ensures circle_found { (config : Config) (place : Place) (entries : List Entry) (earlier : List SchemeTable) (table : SchemeTable)
        → GoesRound (steps_of config (earlier ++ table ∷ []))
        → IsTrue (breaks config Cycle entries (record { place = place; held = scheme earlier table })) }
    ensures circle_meant { (config : Config) (place : Place) (entries : List Entry) (earlier : List SchemeTable) (table : SchemeTable)
        → IsTrue (breaks config Cycle entries (record { place = place; held = scheme earlier table }))
        → GoesRound (steps_of config (earlier ++ table ∷ [])) }
{}

/// What `node_order` asks of the participants of an accepted configuration, by their numbers, and that
/// it finds no cycle among their nodes.
pub fn an_accepted_configuration_has_no_cycle()
    ensures groups { (config : Config) → IsAccepted config → AreGroups (length config.participant) (groups_in config) }
    ensures befores { (config : Config) → IsAccepted config
        → All (λ before. (before.0 < length config.participant) × (before.1 < length config.participant)) (befores_in config config.scheme) }
    ensures no_cycle { (config : Config) → IsAccepted config → ¬ HasCycle (node_numbers config) (befores_in config config.scheme) }
{}

/// The circles that are refused are the cycles of the nodes, which have no order: where no other rule
/// is broken, the steps go round where the nodes have a cycle, and a configuration without a cycle is
/// accepted.
pub fn circles_are_cycles_of_the_nodes()
    ensures cycle { (config : Config) → IsAcceptedButForCircles config → GoesRound (steps_of config config.scheme)
        → HasCycle (node_numbers config) (befores_in config config.scheme) }
    ensures circle { (config : Config) → IsAcceptedButForCircles config → HasCycle (node_numbers config) (befores_in config config.scheme)
        → GoesRound (steps_of config config.scheme) }
    ensures accepted { (config : Config) → IsAcceptedButForCircles config → ¬ HasCycle (node_numbers config) (befores_in config config.scheme)
        → IsAccepted config }
{}
