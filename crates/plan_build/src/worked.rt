//! The plan of a configuration, computed.
ghost use Rattle.std.specs.Prelude.{◌≡◌, Some, pos};
ghost use Rattle.cpl_config.specs.declared.kind_words.WindowWord.TheVariants.{FirstParticipant};
ghost use Rattle.config_laws.specs.FitNumbers.{end_ticks};
ghost use Rattle.cpl_plan.specs.ExamplePlan.{example_plan};
ghost use Rattle.plan_build.specs.ExampleConfig.{example_config, seven_windows};
ghost use Rattle.plan_build.specs.PlanOf.{IsPlanOf};
ghost use Rattle.plan_build.specs.WindowsOf.{most_windows};

/// The example plan, which has each kind of scheme and exchange, is that of a configuration.
pub fn the_example_plan_is_of_a_configuration()
    ensures { IsPlanOf example_config example_plan }
{}

/// How many windows there are, and when they end: an end that is told, 25 in windows of 10, or seven
/// windows; where the first participant makes them, as many as are told.
pub fn worked_windows()
    ensures told_end { most_windows example_config ≡ 3 }
    ensures counted { most_windows seven_windows ≡ 7 }
    ensures counted_end { end_ticks seven_windows ≡ 70 }
    ensures first_steps { most_windows (record example_config { window_method = FirstParticipant; max_windows = Some (pos 7) }) ≡ 7 }
{}
