//! What is true of the plans of these tests, as contracts of functions that do nothing.

ghost use Rattle.std.specs.Prelude.{true, false};
ghost use Rattle.cpl_plan.specs.ValidPlan.{IsValidPlan};
ghost use Rattle.cpl_plan.specs.declared.parts.Accel.TheVariants.{None as NoAccel};
ghost use Rattle.core_tests.specs.Trios.{trio, halved};

/// The plans of three participants are valid: without acceleration, with a strict measure, and with
/// Aitken's.
pub fn trios_are_valid()
    ensures plain { IsValidPlan (trio false NoAccel) }
    ensures strict { IsValidPlan (trio true NoAccel) }
    ensures accelerated { IsValidPlan (trio false halved) }
{}
