ghost use Rattle.std.specs.Prelude.{◌≡◌, ◌≤◌, ◌+◌, ◌∷◌, [], ℕ, pos, true, nat_le, if◌then◌else◌, length, IsTrue};
ghost use Rattle.solver_trait.specs.Behaviour.{goes_on, faults};

use super::*;

/// Counts ticks up to its limit, and faults with code 7 where they would pass it.
#[derive(Drop)]
struct Counter {
    limit: u32,
    count: u32,
}

impl Solver for Counter {
    type Checkpoint = u32;

    ghost Spec = { ℕ };

    ghost State = { ℕ };

    ghost spec = { λ counter. counter.limit };

    ghost state = { λ counter. counter.count };

    ghost behaviour = { λ limit. record {
      read_len = 0;
      write_len = 1;
      pick = λ _ left. left;
      reads_at_end = λ _. true;
      first = λ count. pos count ∷ [];
      next = λ count ticks _.
          if nat_le (count + ticks) limit then goes_on (count + ticks) (pos (count + ticks) ∷ []) else faults 7;
    } };

    ghost fits = { λ _ _. true };

    ghost held = { λ saved. saved };

    fn read_len(&self) -> usize {
        0
    }

    fn write_len(&self) -> usize {
        1
    }

    fn pick(&self, most: u64) -> u64 {
        most
    }

    fn read_at_end(&self) -> bool {
        true
    }

    fn first(&self, writes: &mut [i64]) {
        writes.copy_from_slice(&[i64::from(self.count)]);
    }

    fn step(&mut self, dt: u64, _reads: &[i64], writes: &mut [i64]) -> Result<(), StepErr> {
        if dt > u64::from(self.limit) || u64::from(self.count) + dt > u64::from(self.limit) {
            return Err(StepErr::Fault(7));
        }
        self.count += dt as u32;
        writes.copy_from_slice(&[i64::from(self.count)]);
        Ok(())
    }

    fn checkpoint(&self, _alloc: Global) -> Result<u32, Memory> {
        Ok(0)
    }

    fn save(&self, into: &mut u32) {
        *into = self.count;
    }

    fn restore(&mut self, from: &u32) {
        self.count = *from;
    }
}

/// Steps by what the solver picks of `left`, and goes back.
fn tried<S: Solver>(
    solver: &mut S,
    through: &mut S::Checkpoint,
    left: u64,
    writes: &mut [i64],
) -> Result<(), StepErr>
    requires left { 1 ≤ left }
    requires fits { IsTrue (S.fits through.old (S.spec solver.old)) }
    requires reads_nothing { (S.behaviour (S.spec solver.old)).read_len ≡ 0 }
    requires write_len { length writes.old ≡ (S.behaviour (S.spec solver.old)).write_len }
    ensures same_spec { S.spec solver.new ≡ S.spec solver.old }
    ensures same_state { S.state solver.new ≡ S.state solver.old }
{
    solver.save(through);
    let ticks = solver.pick(left);
    let stepped = solver.step(ticks, &[], writes);
    solver.restore(through);
    stepped
}

#[test]
fn a_counter_counts_faults_and_goes_back(rt: HostRuntime) {
    let mut counter = Counter { limit: 5, count: 0 };
    let mut writes = [9];
    counter.first(&mut writes);
    assert_eq!(rt; writes[0], 0);
    assert!(rt; counter.step(3, &[], &mut writes).is_ok());
    assert_eq!(rt; writes[0], 3);
    assert_eq!(rt; counter.step(3, &[], &mut writes), Err(StepErr::Fault(7)));
    assert_eq!(rt; (counter.count, writes[0]), (3, 3));

    let mut saved = counter.checkpoint(rt.alloc()).expect(&rt, "memory");
    assert!(rt; tried(&mut counter, &mut saved, 2, &mut writes).is_ok());
    assert_eq!(rt; (counter.count, writes[0]), (3, 5));
    let mut other = Counter { limit: 5, count: 1 };
    hand_over(&counter, &mut saved, &mut other);
    assert_eq!(rt; other.count, 3);
}
