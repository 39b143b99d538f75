//! What is true of the definitions alone.

ghost use Rattle.std.specs.Prelude.{◌≡◌, ◌≤◌, ◌↔◌, ℕ, ℤ, List, [], pos, ◌*◌, ◌^◌, ◌*ℤ◌, ◌≤ℤ◌, IsTrue};
ghost use Rattle.fixed_num.specs.Norm.{IsNorm};
ghost use Rattle.cpl_plan.specs.declared.parts.MeasureKind.{MeasureKind};
ghost use Rattle.cpl_plan.specs.declared.parts.MeasureKind.TheVariants.{Absolute, Relative, ResidualRelative};
ghost use Rattle.cpl_plan.specs.declared.words.Verdict.TheVariants.{Converged};
ghost use Rattle.convergence.specs.declared.measured.Measured.{Measured};
ghost use Rattle.convergence.specs.Change.{change_of};
ghost use Rattle.convergence.specs.Holds.{holds};
ghost use Rattle.convergence.specs.Verdict.{verdict};

/// A measure holds exactly where the change is at most the limit, or at most so many millionths
/// of the norm that its kind names.
pub fn measures_have_limits()
    ensures absolute { (at : Measured) → at.measure.kind ≡ Absolute
        → (IsTrue (holds at) ↔ (pos at.change ≤ℤ at.measure.limit)) }
    ensures relative { (at : Measured) → at.measure.kind ≡ Relative
        → (IsTrue (holds at) ↔ (pos (at.change * 10 ^ 6) ≤ℤ (at.measure.limit *ℤ pos at.size))) }
    ensures residual_relative { (at : Measured) → at.measure.kind ≡ ResidualRelative
        → (IsTrue (holds at) ↔ (pos (at.change * 10 ^ 6) ≤ℤ (at.measure.limit *ℤ pos at.first))) }
{}

/// Where nothing changes the norm of the change is zero, and each measure holds whose limit is
/// not negative.
pub fn no_change_is_accepted()
    ensures norm { (values : List ℤ) → IsNorm (change_of values values) 0 }
    ensures holds { (at : Measured) → at.change ≡ 0 → pos 0 ≤ℤ at.measure.limit → IsTrue (holds at) }
{}

/// Without measures a window ends after the least number of iterations.
pub fn no_measure_repeats_no_window()
    ensures { (k min max : ℕ) → min ≤ k → verdict [] k min max ≡ Converged }
{}
