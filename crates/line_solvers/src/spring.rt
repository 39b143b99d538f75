ghost use Rattle.std.specs.Prelude.{◌≡◌, ◌<◌, ◌*◌, ◌/◌, ℕ, ℤ, Option, List, length, take, drop, ◌++◌, map, All, OnOk, OnErr, IfOk, IfErr, IsTrue};
ghost use Rattle.std.specs.List.{range_with_len};
ghost use Rattle.fixed_num.specs.Numbers.{IsValue, IsFactor};
ghost use Rattle.solver_trait.specs.Behaviour.{goes_on};
ghost use Rattle.solver_trait.specs.Step.{IsCauseOf};
ghost use Rattle.line_solvers.specs.Checked.{checked};
ghost use Rattle.line_solvers.specs.SpringStep.{before, after, bend, push, spring_slope, new_velocities, new_positions, spring_components};
ghost use Rattle.line_solvers.specs.Sound.{AreSpringNumbers, none_or_each, IsSoundSpring};

use crate::case::{CaseParts, SpringNumbers};
use crate::change_rule::ChangeRule;
use crate::line::OUT_OF_RANGE;
use crate::number::{moved, weighed};
use crate::ruled::Ruled;
use solver_trait::StepErr;
use std::alloc::Global;

/// A solver of positions and as many velocities: a velocity is drawn by the position's neighbours,
/// damped, and pushed by what it reads, and takes the position along.
pub type Spring = Ruled<SpringNumbers>;

impl SpringNumbers {
    ghost use Rattle.line_solvers.specs.CaseMeaning.{spring_of_case};

    pub(crate) fn of_case(case: &CaseParts) -> SpringNumbers
        ensures { result ≡ spring_of_case case.now }
    {
        SpringNumbers {
            stiff: case.stiff,
            damp: case.damp,
            gain: case.gain,
            rate: case.rate,
        }
    }
}

impl ChangeRule for SpringNumbers {
    ghost use Rattle.line_solvers.specs.LineMeaning.{of_spring};
    ghost use Rattle.line_solvers.specs.Sound.{IsSoundSpring};

    ghost rule = { of_spring };

    ghost suits = { IsSoundSpring };

    fn next_values(
        &self,
        alloc: Global,
        ticks: u64,
        state: &[i64],
        inputs: &[i64],
    ) -> Result<Vec<i64>, StepErr> {
        next_values(alloc, self, ticks, state, inputs)
    }

    fn longest(&self, step: u64, _state: &[i64]) -> u64 {
        step
    }
}

/// The positions and velocities after so many ticks, where each is a Value. The velocities come
/// first, since they take the positions along.
fn next_values(
    alloc: Global,
    spring: &SpringNumbers,
    ticks: u64,
    state: &[i64],
    inputs: &[i64],
) -> Result<Vec<i64>, StepErr>
    requires spring { IsSoundSpring spring.now (length state.now) (length inputs.now) }
    requires state { All IsValue state.now }
    requires inputs { All IsValue inputs.now }
    ensures components { IfOk result
        (λ next. next.items ≡ spring_components spring.now ticks state.now inputs.now) }
    ensures values { IfOk result (λ next. All IsValue next.items) }
    ensures cause { (forbid : Option ℕ) (out : List ℕ) → IfErr result
        (IsCauseOf (checked forbid out (spring_components spring.now ticks state.now inputs.now))) }
{
    let (positions, velocities) = state.split_at(state.len() / 2);
    let mut next = Vec::with_capacity(alloc, state.len())?;
    next.extend_from_slice(positions)?;
    push_velocities(&mut next, spring, ticks, positions, velocities, inputs)?;
    let (moving, pushed) = next.split_at_mut(positions.len());
    move_positions(moving, pushed, spring.rate, ticks)?;
    Ok(next)
}

/// Pushes the new velocities, where each is a Value.
fn push_velocities(
    next: &mut Vec<i64>,
    spring: &SpringNumbers,
    ticks: u64,
    positions: &[i64],
    velocities: &[i64],
    inputs: &[i64],
) -> Result<(), StepErr>
    requires numbers { AreSpringNumbers spring.now }
    requires halves { length velocities.now ≡ length positions.now }
    requires reads { IsTrue (none_or_each (length inputs.now) (length positions.now)) }
    requires positions { All IsValue positions.now }
    requires velocities { All IsValue velocities.now }
    requires inputs { All IsValue inputs.now }
    requires next { All IsValue next.old.items }
    ensures pushed { OnOk result (next.new.items
        ≡ next.old.items ++ new_velocities spring.now ticks positions.now velocities.now inputs.now) }
    ensures values { OnOk result (All IsValue next.new.items) }
    ensures cause { (forbid : Option ℕ) (out : List ℕ) (front : List ℤ) → IfErr result (IsCauseOf (checked forbid out
        (front ++ new_velocities spring.now ticks positions.now velocities.now inputs.now))) }
{
    for i in 0..positions.len() {
        let slope = slope(spring, positions, velocities, inputs, i);
        let Some(velocity) = moved(velocities[i], slope, ticks) else {
            return Err(StepErr::Fault(OUT_OF_RANGE));
        };
        next.push(velocity.get())?;
    }
    Ok(())
}

/// Moves the positions by these velocities, where each new position is a Value.
fn move_positions(
    positions: &mut [i64],
    velocities: &[i64],
    rate: i64,
    ticks: u64,
) -> Result<(), StepErr>
    requires rate { IsFactor rate }
    requires halves { length velocities.now ≡ length positions.old }
    requires positions { All IsValue positions.old }
    requires velocities { All IsValue velocities.now }
    ensures moved { OnOk result
        (positions.new ≡ new_positions rate ticks positions.old velocities.now) }
    ensures values { OnOk result (All IsValue positions.new) }
    ensures cause { (forbid : Option ℕ) (out : List ℕ) (back : List ℤ) → IfErr result (IsCauseOf
        (checked forbid out (new_positions rate ticks positions.old velocities.now ++ back))) }
{
    for i in 0..positions.len() {
        let Some(position) = moved(positions[i], weighed(rate, velocities[i]), ticks) else {
            return Err(StepErr::Fault(OUT_OF_RANGE));
        };
        positions[i] = position.get();
    }
    Ok(())
}

/// How fast velocity `i` changes, in millionths of a unit a tick.
fn slope(
    spring: &SpringNumbers,
    positions: &[i64],
    velocities: &[i64],
    inputs: &[i64],
    i: usize,
) -> i128
    requires numbers { AreSpringNumbers spring.now }
    requires place { i < length positions.now }
    requires halves { length velocities.now ≡ length positions.now }
    requires reads { IsTrue (none_or_each (length inputs.now) (length positions.now)) }
    requires positions { All IsValue positions.now }
    requires velocities { All IsValue velocities.now }
    ensures { result ≡ spring_slope spring.now positions.now velocities.now inputs.now i }
{
    weighed(spring.stiff, bend(positions, i)) - weighed(spring.damp, velocities[i])
        + weighed(spring.gain, push(inputs, i))
}

/// How far the neighbours are from position `i`, together.
fn bend(positions: &[i64], i: usize) -> i64
    requires place { i < length positions.now }
    requires positions { All IsValue positions.now }
    ensures { result ≡ bend positions.now i }
{
    neighbour_before(positions, i) - 2 * positions[i] + neighbour_after(positions, i)
}

/// The neighbour before position `i`, or 0.
fn neighbour_before(positions: &[i64], i: usize) -> i64
    requires place { i < length positions.now }
    requires positions { All IsValue positions.now }
    ensures neighbour { result ≡ before positions.now i }
    ensures value { IsValue result }
{
    if i == 0 {
        return 0;
    }
    positions[i - 1]
}

/// The neighbour after position `i`, or 0.
fn neighbour_after(positions: &[i64], i: usize) -> i64
    requires place { i < length positions.now }
    requires positions { All IsValue positions.now }
    ensures neighbour { result ≡ after positions.now i }
    ensures value { IsValue result }
{
    if i + 1 == positions.len() {
        return 0;
    }
    positions[i + 1]
}

/// What position `i` reads, or 0 without reads.
fn push(inputs: &[i64], i: usize) -> i64
    requires { 0 < length inputs.now → i < length inputs.now }
    ensures { result ≡ push inputs.now i }
{
    if inputs.is_empty() {
        return 0;
    }
    inputs[i]
}
