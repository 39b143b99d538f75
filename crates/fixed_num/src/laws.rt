//! What is true of the definitions alone. The calls do nothing.

ghost use Rattle.std.specs.Prelude.{◌↔◌, ℤ, IsTrue};
ghost use Rattle.fixed_num.specs.Numbers.{IsValue, is_value};

/// The test of a number of units is the range of the Values.
pub fn values_are_tested()
    ensures { (units : ℤ) → IsTrue (is_value units) ↔ IsValue units }
{}
