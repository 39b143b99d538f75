ghost use Rattle.std.specs.Prelude.{◌≡◌, IfOk, length};

use crate::sums::{Sum, add_up, all_fit};
use fixed_num::Memory;
use solver_trait::{Solver, StepErr};
use std::alloc::Global;
use std::marker::Model;

/// The fault of a step of which a sum is out of range.
const SUM_OUT_OF_RANGE: u32 = 4;

/// A solver that writes sums of its values too, at the places of their targets.
///
/// A step of which a sum is no Value faults with code 4, unless the solver inside faults, and
/// changes nothing. At the first writes such a sum becomes the nearest Value. Contracts see it as
/// the solver inside and the list of the sums.
#[derive(Drop)]
pub struct Summed<S: Solver> {
    inner: S,
    sums: Vec<Sum>,
    /// The state before a step.
    before: S::Checkpoint,
    /// The writes before a step.
    unwritten: Vec<i64>,
}

impl<S: Solver> Model for Summed<S> {
    ghost use Rattle.std.specs.Prelude.{◌≡◌, List, IsTrue, length};
    ghost use Rattle.data_actions.specs.declared.sums.Sum.{Sum};
    ghost use Rattle.data_actions.specs.SoundSums.{AreSums};

    ghost Value = { S × List Sum };

    ghost view = { λ a. (a.inner, a.sums.items) };

    ghost invariant = { λ a.
        IsTrue (S.fits a.before (S.spec a.inner))
        × (length a.unwritten.items ≡ (S.behaviour (S.spec a.inner)).write_len)
        × AreSums (S.behaviour (S.spec a.inner)).write_len a.sums.items };
}

impl<S: Solver> Summed<S> {
    ghost use Rattle.std.specs.Prelude.{◌≡◌, IfOk, IfErr};
    ghost use Rattle.data_actions.specs.SoundSums.{AreSums};

    /// The solver with these sums of what it writes. Without memory it gives both back.
    pub fn new(alloc: Global, inner: S, sums: Vec<Sum>) -> Result<Summed<S>, (S, Vec<Sum>, Memory)>
        requires { AreSums (S.behaviour (S.spec inner)).write_len sums.items }
        ensures made { IfOk result (λ made. made ≡ (inner, sums.items)) }
        ensures inner_back { IfErr result (λ back. back.0 ≡ inner) }
        ensures sums_back { IfErr result (λ back. back.1.items ≡ sums.items) }
    {
        let before = match inner.checkpoint(alloc) {
            Ok(before) => before,
            Err(memory) => return Err((inner, sums, memory)),
        };
        match zeros(alloc, inner.write_len()) {
            Ok(unwritten) => Ok(Summed {
                inner,
                sums,
                before,
                unwritten,
            }),
            Err(memory) => Err((inner, sums, memory)),
        }
    }

    /// The solver inside.
    pub fn inner(&self) -> &S
        ensures { result.now ≡ self.now.0 }
    {
        &self.inner
    }
}

impl<S: Solver> Solver for Summed<S> {
    ghost use Rattle.std.specs.Prelude.{List};
    ghost use Rattle.data_actions.specs.declared.sums.Sum.{Sum};
    ghost use Rattle.data_actions.specs.SummedSolver.{SummedSolver};

    type Checkpoint = S::Checkpoint;

    ghost Spec = { S.Spec × List Sum };

    ghost State = { S.State };

    ghost spec = { λ solver. (S.spec solver.0, solver.1) };

    ghost state = { λ solver. S.state solver.0 };

    ghost behaviour = { λ spec. SummedSolver (S.behaviour spec.0) spec.1 };

    ghost fits = { λ room spec. S.fits room spec.0 };

    ghost held = { λ room. S.held room };

    fn read_len(&self) -> usize {
        self.inner.read_len()
    }

    fn write_len(&self) -> usize {
        self.inner.write_len()
    }

    fn pick(&self, most: u64) -> u64 {
        self.inner.pick(most)
    }

    fn read_at_end(&self) -> bool {
        self.inner.read_at_end()
    }

    fn first(&self, writes: &mut [i64]) {
        self.inner.first(writes);
        add_up(self.sums.as_slice(), writes);
    }

    fn step(&mut self, dt: u64, reads: &[i64], writes: &mut [i64]) -> Result<(), StepErr> {
        self.inner.save(&mut self.before);
        self.unwritten.copy_from_slice(writes);
        self.inner.step(dt, reads, writes)?;
        if all_fit(self.sums.as_slice(), writes) {
            add_up(self.sums.as_slice(), writes);
            return Ok(());
        }
        self.inner.restore(&self.before);
        writes.copy_from_slice(self.unwritten.as_slice());
        Err(StepErr::Fault(SUM_OUT_OF_RANGE))
    }

    fn checkpoint(&self, alloc: Global) -> Result<S::Checkpoint, Memory> {
        self.inner.checkpoint(alloc)
    }

    fn save(&self, into: &mut S::Checkpoint) {
        self.inner.save(into);
    }

    fn restore(&mut self, from: &S::Checkpoint) {
        self.inner.restore(from);
    }
}

fn zeros(alloc: Global, count: usize) -> Result<Vec<i64>, Memory>
    ensures { IfOk result (λ made. length made.items ≡ count) }
{
    Ok(vec![in alloc; 0; count]?)
}
