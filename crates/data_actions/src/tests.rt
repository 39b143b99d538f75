ghost use Rattle.std.specs.Prelude.{◌≡◌, ◌+◌, ◌-◌, ◌||◌, ◌<◌, ◌≤◌, List, ℤ, ℕ, All, IfOk, true, false, nat_le, nat_lt, if◌then◌else◌, length};
ghost use Rattle.fixed_num.specs.Numbers.{IsValue};
ghost use Rattle.solver_trait.specs.Behaviour.{goes_on, faults};

use super::*;
use fixed_num::{Items, Memory};
use solver_trait::{Solver, StepErr};
use std::alloc::Global;

/// Writes the same values again and again, and faults with code 2 once no step is left.
#[derive(Drop)]
struct Steady {
    values: Vec<i64>,
    left: u32,
    ghost in_range: { All IsValue values.items },
}

impl Solver for Steady {
    type Checkpoint = u32;

    ghost Spec = { List ℤ };

    ghost State = { ℕ };

    ghost spec = { λ steady. steady.values.items };

    ghost state = { λ steady. steady.left };

    ghost behaviour = { λ values. record {
      read_len = 0;
      write_len = length values;
      pick = λ _ most. most;
      reads_at_end = λ _. false;
      first = λ _. values;
      next = λ left _ _. if nat_lt 0 left then goes_on (left - 1) values else faults 2;
    } };

    ghost fits = { λ _ _. true };

    ghost held = { λ left. left };

    fn read_len(&self) -> usize {
        0
    }

    fn write_len(&self) -> usize {
        self.values.len()
    }

    fn pick(&self, most: u64) -> u64 {
        most
    }

    fn read_at_end(&self) -> bool {
        false
    }

    fn first(&self, writes: &mut [i64]) {
        writes.copy_from_slice(self.values.as_slice());
    }

    fn step(&mut self, _dt: u64, _reads: &[i64], writes: &mut [i64]) -> Result<(), StepErr> {
        if self.left == 0 {
            return Err(StepErr::Fault(2));
        }
        self.left -= 1;
        writes.copy_from_slice(self.values.as_slice());
        Ok(())
    }

    fn checkpoint(&self, _alloc: Global) -> Result<u32, Memory> {
        Ok(0)
    }

    fn save(&self, into: &mut u32) {
        *into = self.left;
    }

    fn restore(&mut self, from: &u32) {
        self.left = *from;
    }
}

/// A solver with so many steps left that writes these values, with one sum.
fn summed_of(alloc: Global, values: &[i64], left: u32, sum: Sum) -> Result<Summed<Steady>, Memory>
    requires values { All IsValue values.now }
    requires target { sum.target + sum.length ≤ length values.now }
    requires sources { All (λ source. source + sum.length ≤ length values.now) sum.sources }
    requires few { length sum.sources ≤ 64 }
    requires apart { All (λ source. (nat_le (source + sum.length) sum.target
        || nat_le (sum.target + sum.length) source) ≡ true) sum.sources }
    ensures { IfOk result (λ made. made.0.values.items ≡ values.now) }
{
    let mut sums = Vec::new(alloc);
    sums.push(sum)?;
    let inner = Steady {
        values: Vec::from_slice(alloc, values)?,
        left,
    };
    match Summed::new(alloc, inner, sums) {
        Ok(summed) => Ok(summed),
        Err(_) => Err(Memory),
    }
}

/// The sum of so many values of these sources.
fn sum_of(alloc: Global, target: u32, sources: &[u32], length: u32) -> Result<Sum, Memory>
    ensures target { IfOk result (λ sum. sum.target ≡ target) }
    ensures sources { IfOk result (λ sum. sum.sources ≡ sources.now) }
    ensures length { IfOk result (λ sum. sum.length ≡ length) }
{
    Ok(Sum {
        target,
        sources: Items::from_vec(Vec::from_slice(alloc, sources)?),
        length,
    })
}

#[test]
fn three_sources_are_summed_from_end_to_end(rt: HostRuntime) -> Result<(), StepErr> {
    let sum = sum_of(rt.alloc(), 2, &[0, 4, 6], 2)?;
    let values = [1, 2, 9, 9, 3, 4, -5, 6];
    let mut solver = summed_of(rt.alloc(), &values, 2, sum)?;
    let mut writes = [7; 8];
    solver.first(&mut writes);
    assert!(rt; writes == [1, 2, -1, 12, 3, 4, -5, 6]);
    let mut saved = solver.checkpoint(rt.alloc())?;
    solver.save(&mut saved);
    writes = [7; 8];
    solver.step(1, &[], &mut writes)?;
    assert!(rt; writes == [1, 2, -1, 12, 3, 4, -5, 6] && solver.inner().left == 1);
    solver.restore(&saved);
    assert!(rt; solver.inner().left == 2 && solver.pick(5) == 5 && !solver.read_at_end());
    Ok(())
}

#[test]
fn one_source_is_written_twice(rt: HostRuntime) -> Result<(), StepErr> {
    let sum = sum_of(rt.alloc(), 1, &[0], 1)?;
    let mut solver = summed_of(rt.alloc(), &[1_000_000, 9_000_000], 1, sum)?;
    let mut writes = [7; 2];
    solver.step(10, &[], &mut writes)?;
    assert!(rt; writes == [1_000_000, 1_000_000]);
    Ok(())
}

#[test]
fn a_sum_out_of_range_faults_after_the_solver(rt: HostRuntime) -> Result<(), StepErr> {
    let sum = sum_of(rt.alloc(), 2, &[0, 1], 1)?;
    let values = [-6_000_000_000_000, -6_000_000_000_000, 5];
    let mut solver = summed_of(rt.alloc(), &values, 1, sum)?;
    let mut writes = [7; 3];
    assert!(rt; solver.step(10, &[], &mut writes) == Err(StepErr::Fault(4)));
    assert!(rt; writes == [7; 3] && solver.inner().left == 1);
    solver.first(&mut writes);
    assert!(rt; writes == [-6_000_000_000_000, -6_000_000_000_000, -10_000_000_000_000]);

    let sum = sum_of(rt.alloc(), 2, &[0, 1], 1)?;
    let mut ended = summed_of(rt.alloc(), &values, 0, sum)?;
    assert!(rt; ended.step(10, &[], &mut writes) == Err(StepErr::Fault(2)));
    Ok(())
}
