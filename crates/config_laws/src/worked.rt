//! That the laws speak of something: configurations worked by hand.
ghost use Rattle.std.specs.Prelude.{◌≡◌, Some};
ghost use Rattle.cpl_tables.specs.declared.places.Place.TheVariants as P;
ghost use Rattle.config_rules.specs.ConfigRules.{config_refusal, IsAccepted};
ghost use Rattle.config_laws.specs.WorkedConfigs.{a_heats_b, three_in_a_circle};

/// One that heats another is accepted; three that wait for one another are refused for their circle, at
/// the scheme that closes it.
pub fn worked_configurations()
    ensures accepted { IsAccepted a_heats_b }
    ensures refused { config_refusal three_in_a_circle ≡ Some (record { rule = 24; place = P.Scheme 3 }) }
{}
