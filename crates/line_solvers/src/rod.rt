ghost use Rattle.std.specs.Prelude.{◌≡◌, ◌<◌, ℕ, Option, List, length, All, OnOk, OnErr, IfOk, IfErr, IsTrue};
ghost use Rattle.fixed_num.specs.Numbers.{IsValue};
ghost use Rattle.solver_trait.specs.Behaviour.{goes_on};
ghost use Rattle.solver_trait.specs.Step.{IsCauseOf};
ghost use Rattle.line_solvers.specs.Checked.{checked};
ghost use Rattle.line_solvers.specs.RodStep.{bend, pull, rod_slope, rod_components};
ghost use Rattle.line_solvers.specs.Sound.{AreRodNumbers, none_or_each, IsSoundRod};

use crate::case::{CaseParts, RodNumbers};
use crate::change_rule::ChangeRule;
use crate::line::OUT_OF_RANGE;
use crate::number::{moved, weighed};
use crate::ruled::Ruled;
use solver_trait::StepErr;
use std::alloc::Global;

/// A solver each of whose components is drawn to its two neighbours, and to what it reads.
pub type Rod = Ruled<RodNumbers>;

impl RodNumbers {
    ghost use Rattle.line_solvers.specs.CaseMeaning.{rod_of_case};

    pub(crate) fn of_case(case: &CaseParts) -> RodNumbers
        ensures { result ≡ rod_of_case case.now }
    {
        RodNumbers {
            alpha: case.alpha,
            beta: case.beta,
        }
    }
}

impl ChangeRule for RodNumbers {
    ghost use Rattle.line_solvers.specs.LineMeaning.{of_rod};
    ghost use Rattle.line_solvers.specs.Sound.{IsSoundRod};

    ghost rule = { of_rod };

    ghost suits = { IsSoundRod };

    fn next_values(
        &self,
        alloc: Global,
        ticks: u64,
        state: &[i64],
        inputs: &[i64],
    ) -> Result<Vec<i64>, StepErr> {
        next_values(alloc, self, ticks, state, inputs)
    }

    fn longest(&self, step: u64, _state: &[i64]) -> u64 {
        step
    }
}

/// The components after so many ticks, where each is a Value.
fn next_values(
    alloc: Global,
    rod: &RodNumbers,
    ticks: u64,
    state: &[i64],
    inputs: &[i64],
) -> Result<Vec<i64>, StepErr>
    requires rod { IsSoundRod rod.now (length state.now) (length inputs.now) }
    requires state { All IsValue state.now }
    requires inputs { All IsValue inputs.now }
    ensures components { IfOk result
        (λ next. next.items ≡ rod_components rod.now ticks state.now inputs.now) }
    ensures values { IfOk result (λ next. All IsValue next.items) }
    ensures cause { (forbid : Option ℕ) (out : List ℕ) → IfErr result
        (IsCauseOf (checked forbid out (rod_components rod.now ticks state.now inputs.now))) }
{
    let mut next = Vec::with_capacity(alloc, state.len())?;
    for i in 0..state.len() {
        let Some(component) = moved(state[i], slope(rod, state, inputs, i), ticks) else {
            return Err(StepErr::Fault(OUT_OF_RANGE));
        };
        next.push(component.get())?;
    }
    Ok(next)
}

/// How fast component `i` changes, in millionths of a unit a tick.
fn slope(rod: &RodNumbers, state: &[i64], inputs: &[i64], i: usize) -> i128
    requires numbers { AreRodNumbers rod.now }
    requires place { i < length state.now }
    requires reads { IsTrue (none_or_each (length inputs.now) (length state.now)) }
    requires state { All IsValue state.now }
    requires inputs { All IsValue inputs.now }
    ensures { result ≡ rod_slope rod.now state.now inputs.now i }
{
    weighed(rod.alpha, bend(state, i)) + weighed(rod.beta, pull(state, inputs, i))
}

/// How far the neighbours are from component `i`, together.
fn bend(state: &[i64], i: usize) -> i64
    requires place { i < length state.now }
    requires state { All IsValue state.now }
    ensures { result ≡ bend state.now i }
{
    let before = state[i.saturating_sub(1)];
    let after = state[(i + 1).min(state.len() - 1)];
    before - 2 * state[i] + after
}

/// How far what component `i` reads is from it.
fn pull(state: &[i64], inputs: &[i64], i: usize) -> i64
    requires place { i < length state.now }
    requires reads { IsTrue (none_or_each (length inputs.now) (length state.now)) }
    requires state { All IsValue state.now }
    requires inputs { All IsValue inputs.now }
    ensures { result ≡ pull state.now inputs.now i }
{
    if inputs.is_empty() {
        return 0;
    }
    inputs[i] - state[i]
}
