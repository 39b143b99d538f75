//! What a solver is to the coupling: a state that advances in steps of whole ticks, reads and
//! writes values in units (millionths), and can be saved and restored.
#![tactic(auto)]

ghost use Rattle.std.specs.Prelude.{◌≡◌, ◌≤◌, ℕ, Bool, List, ℤ, length, All, IsTrue, IfOk, IfErr, OnOk, OnErr};
ghost use Rattle.fixed_num.specs.Numbers.{IsValue};
ghost use Rattle.solver_trait.specs.Behaviour.{Behaviour, goes_on};
ghost use Rattle.solver_trait.specs.Step.{IsCauseOf};

use fixed_num::Memory;
use std::alloc::{AllocError, AllocFailed, Global};
use thiserror::Error;

/// Why a step was refused. The solver and the written values are then as before.
#[derive(Clone, Copy, Debug, PartialEq, Eq, Error)]
pub enum StepErr {
    /// The solver's own fault, with its code.
    #[error("the solver faulted with code {0}")]
    Fault(u32),
    #[error("out of memory")]
    Memory,
}

impl From<Memory> for StepErr {
    ghost use Rattle.solver_trait.specs.declared.StepErr.TheVariants.{Memory as OutOfMemory};

    ghost from_gives = { λ _ error. error ≡ OutOfMemory };

    fn from(_error: Memory) -> StepErr {
        StepErr::Memory
    }
}

impl From<AllocError> for StepErr {
    ghost use Rattle.solver_trait.specs.declared.StepErr.TheVariants.{Memory as OutOfMemory};

    ghost from_gives = { λ _ error. error ≡ OutOfMemory };

    fn from(_error: AllocError) -> StepErr {
        StepErr::Memory
    }
}

impl<T: Drop> From<AllocFailed<T>> for StepErr {
    ghost use Rattle.solver_trait.specs.declared.StepErr.TheVariants.{Memory as OutOfMemory};

    ghost from_gives = { λ _ error. error ≡ OutOfMemory };

    fn from(_error: AllocFailed<T>) -> StepErr {
        StepErr::Memory
    }
}

/// A solver that the coupling drives.
///
/// Its `spec` never changes; its `state` advances. What it does is its `behaviour`: every answer is
/// a function of spec, state and arguments.
pub trait Solver: Drop {
    /// Room for a state. Contracts see it as a test of which specs it `fits`, and the state `held`.
    type Checkpoint: Send + Drop;

    ghost Spec: { Type 0 };

    ghost State: { Type 0 };

    ghost spec: { Self → Spec };

    ghost state: { Self → State };

    ghost behaviour: { Spec → Behaviour State };

    ghost fits: { Self.Checkpoint → Spec → Bool };

    ghost held: { Self.Checkpoint → State };

    /// How many values a step reads.
    fn read_len(&self) -> usize
        ensures { result ≡ (behaviour (spec self.now)).read_len };

    /// How many values a step writes.
    fn write_len(&self) -> usize
        ensures { result ≡ (behaviour (spec self.now)).write_len };

    /// The ticks of the next step, where `most` are left.
    fn pick(&self, most: u64) -> u64
        requires { 1 ≤ most }
        ensures picked { result ≡ (behaviour (spec self.now)).pick (state self.now) most }
        ensures least { 1 ≤ result }
        ensures greatest { result ≤ most };

    /// Whether the next step reads its inputs at its end, and not at its start.
    fn read_at_end(&self) -> bool
        ensures { result ≡ (behaviour (spec self.now)).reads_at_end (state self.now) };

    /// Writes the values that stand before the first step.
    fn first(&self, writes: &mut [i64])
        requires { length writes.old ≡ (behaviour (spec self.now)).write_len }
        ensures written { writes.new ≡ (behaviour (spec self.now)).first (state self.now) }
        ensures values { All IsValue writes.new };

    /// Advances by `dt` ticks, with `reads` as the inputs, and writes the new values.
    ///
    /// Answers `Fault` exactly where the behaviour faults and memory does not run out before.
    fn step(&mut self, dt: u64, reads: &[i64], writes: &mut [i64]) -> Result<(), StepErr>
        requires ticks { 1 ≤ dt }
        requires read_len { length reads.now ≡ (behaviour (spec self.old)).read_len }
        requires write_len { length writes.old ≡ (behaviour (spec self.old)).write_len }
        requires inputs { All IsValue reads.now }
        ensures goes { OnOk result
            ((behaviour (spec self.old)).next (state self.old) dt reads.now
            ≡ goes_on (state self.new) writes.new) }
        ensures cause { IfErr result
            (IsCauseOf ((behaviour (spec self.old)).next (state self.old) dt reads.now)) }
        ensures same_spec { spec self.new ≡ spec self.old }
        ensures same_state { OnErr result (state self.new ≡ state self.old) }
        ensures unwritten { OnErr result (writes.new ≡ writes.old) }
        ensures values { OnOk result (All IsValue writes.new) };

    /// A checkpoint for solvers of this spec, which holds some state.
    fn checkpoint(&self, alloc: Global) -> Result<Self::Checkpoint, Memory>
        ensures { IfOk result (λ made. IsTrue (fits made (spec self.now))) };

    /// Puts the state into the checkpoint.
    fn save(&self, into: &mut Self::Checkpoint)
        requires { IsTrue (fits into.old (spec self.now)) }
        ensures saved { held into.new ≡ state self.now }
        ensures same_fit { (other : Spec) → fits into.new other ≡ fits into.old other };

    /// Puts the checkpoint's state into the solver.
    fn restore(&mut self, from: &Self::Checkpoint)
        requires { IsTrue (fits from.now (spec self.old)) }
        ensures restored { state self.new ≡ held from.now }
        ensures same_spec { spec self.new ≡ spec self.old };
}

/// Gives `to` the state of `from`, through a checkpoint that fits both: what is restored after a
/// save is the saved state.
pub fn hand_over<S: Solver>(from: &S, through: &mut S::Checkpoint, to: &mut S)
    requires same_spec { S.spec to.old ≡ S.spec from.now }
    requires fits { IsTrue (S.fits through.old (S.spec from.now)) }
    ensures handed { S.state to.new ≡ S.state from.now }
    ensures kept_spec { S.spec to.new ≡ S.spec to.old }
    ensures kept_fit { (other : S.Spec) → S.fits through.new other ≡ S.fits through.old other }
{
    from.save(through);
    to.restore(through);
}

#[cfg(test)]
mod tests;
