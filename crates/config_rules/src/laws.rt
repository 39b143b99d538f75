//! What is true of the definitions alone.
ghost use Rattle.std.specs.Prelude.{◌≡◌, ◌++◌, ◌∷◌, [], map};
ghost use Rattle.std.specs.List.{range_with_len};
ghost use Rattle.config_rules.specs.ConfigRules.{config_rules, number_of_rule};

/// The rules are tried in the order of their numbers, each once: 9 to 30, 33 and 35.
pub fn rules_are_numbered_in_order()
    ensures { map number_of_rule config_rules ≡ range_with_len 9 22 ++ 33 ∷ 35 ∷ [] }
{}
