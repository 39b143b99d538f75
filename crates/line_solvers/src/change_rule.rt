ghost use Rattle.std.specs.Prelude.{◌≡◌, ◌≤◌, ℕ, Option, List, Some, length, All, IfOk, IfErr};
ghost use Rattle.fixed_num.specs.Numbers.{IsValue};
ghost use Rattle.solver_trait.specs.Step.{IsCauseOf};
ghost use Rattle.line_solvers.specs.LineMeaning.{Rule, new_components, longest_step};
ghost use Rattle.line_solvers.specs.Checked.{led_to};

use solver_trait::StepErr;
use std::alloc::Global;

/// How the components of one kind of solver change in a step.
///
/// Contracts see it as a `rule`, which `suits` so many components and so many inputs.
pub trait ChangeRule: Drop {
    ghost rule: { Self → Rule };

    ghost suits: { Self → (components inputs : ℕ) → Type 0 };

    /// The components after so many ticks, in units, where there are new ones and each is a Value.
    fn next_values(
        &self,
        alloc: Global,
        ticks: u64,
        state: &[i64],
        inputs: &[i64],
    ) -> Result<Vec<i64>, StepErr>
        requires suits { suits self.now (length state.now) (length inputs.now) }
        requires state { All IsValue state.now }
        requires inputs { All IsValue inputs.now }
        ensures components { IfOk result
            (λ next. new_components (rule self.now) ticks state.now inputs.now ≡ Some next.items) }
        ensures size { IfOk result (λ next. length next.items ≡ length state.now) }
        ensures values { IfOk result (λ next. All IsValue next.items) }
        ensures cause { (forbid : Option ℕ) (out : List ℕ) → IfErr result
            (IsCauseOf (led_to forbid out (new_components (rule self.now) ticks state.now inputs.now))) };

    /// The longest step from this state, where `step` is the case's; both in ticks.
    fn longest(&self, step: u64, state: &[i64]) -> u64
        requires suits { (inputs : ℕ) × suits self.now (length state.now) inputs }
        requires a_tick { 1 ≤ step }
        ensures longest { result ≡ longest_step (rule self.now) step state.now }
        ensures a_tick { 1 ≤ result };
}
