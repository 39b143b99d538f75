ghost use Rattle.std.specs.Prelude.{◌≡◌, ◌≤◌, Some, None, length, pos, ◌≤ℤ◌, All, IfOk, IsTrue};
ghost use Rattle.fixed_num.specs.Numbers.{IsValue, IsFactor};
ghost use Rattle.line_solvers.specs.Sound.{IsPairOf, IsSoundRecord, none_or_each};
ghost use Rattle.line_solvers.specs.LineSolver.{spec_of};
ghost use Rattle.line_solvers.specs.declared.case.ReadWhen.TheVariants.{Start};

use fixed_num::{Items, Memory};
use line_solvers::{CaseParts, LineSolver, Pair, ReadWhen, RecordEntry, RowParts, SolverKind};
use solver_trait::{Solver, StepErr};
use std::alloc::Global;

/// A case of this kind and state without any other key, which reads at the start of a step.
fn case_of(solver: SolverKind, state: Vec<i64>, reads: u32, writes: u32) -> CaseParts
    ensures { result ≡ record {
      solver = solver;
      step = pos 10;
      read = Start;
      state = Some state.items;
      fill = None;
      count = None;
      out = None;
      forbid = None;
      row = None;
      records = None;
      alpha = pos 0;
      beta = pos 0;
      stiff = pos 0;
      damp = pos 0;
      gain = pos 0;
      rate = pos 0;
      reads = reads;
      writes = writes;
    } }
{
    CaseParts {
        solver,
        step: 10,
        read: ReadWhen::Start,
        state: Some(Items::from_vec(state)),
        fill: None,
        count: None,
        out: None,
        forbid: None,
        row: None,
        records: None,
        alpha: 0,
        beta: 0,
        stiff: 0,
        damp: 0,
        gain: 0,
        rate: 0,
        reads,
        writes,
    }
}

/// A rod without reads, with alpha 0.5, which writes its second and its first component again and
/// again.
fn free_rod(alloc: Global) -> Result<LineSolver, Memory> {
    let components = Vec::from_slice(alloc, &[0, 3, 0])?;
    let mut case = case_of(SolverKind::Rod, components, 0, 3);
    case.alpha = 500_000;
    case.out = Some(Items::from_vec(Vec::from_slice(alloc, &[1, 0, 1])?));
    LineSolver::from_case(alloc, &case)
}

/// A rod of two zeros that follows what it reads at the end of a step, below a bound of 100 units.
fn following_rod(alloc: Global) -> Result<LineSolver, Memory> {
    let mut case = case_of(SolverKind::Rod, Vec::new(alloc), 2, 2);
    case.state = None;
    case.fill = Some(0);
    case.count = Some(2);
    case.read = ReadWhen::End;
    case.forbid = Some(100);
    case.beta = 1_000_000;
    LineSolver::from_case(alloc, &case)
}

/// A spring of two positions and their velocities, which writes both positions.
fn spring_of(alloc: Global, state: &[i64], reads: u32) -> Result<LineSolver, Memory>
    requires four { length state.now ≡ 4 }
    requires values { All IsValue state.now }
    requires reads { IsTrue (none_or_each reads 2) }
{
    let components = Vec::from_slice(alloc, state)?;
    let mut case = case_of(SolverKind::Spring, components, reads, 2);
    case.stiff = 1_000_000;
    case.damp = 500_000;
    case.gain = 1_000_000;
    case.rate = 500_000;
    LineSolver::from_case(alloc, &case)
}

/// The pair, or no pair where its number is 0.
fn pairs_of(alloc: Global, pair: Pair, _count: usize) -> Result<Items<Pair>, Memory>
    requires { IsPairOf _count pair }
    ensures few { IfOk result (λ pairs. length pairs ≤ 1) }
    ensures sound { IfOk result (All (IsPairOf _count)) }
{
    let mut pairs = Vec::new(alloc);
    if pair.number != 0 {
        pairs.push(pair)?;
    }
    Ok(Items::from_vec(pairs))
}

/// One row, `add + state·s + read·u`, in units.
fn single(alloc: Global, add: i64, state: i64, read: i64) -> Result<LineSolver, Memory>
    requires add { IsValue add }
    requires state { IsFactor state }
    requires read { IsFactor read }
{
    let state = Pair {
        index: 0,
        number: state,
    };
    let read = Pair {
        index: 0,
        number: read,
    };
    let row = RowParts {
        add,
        states: pairs_of(alloc, state, 1)?,
        reads: pairs_of(alloc, read, 1)?,
    };
    let mut rows = Vec::new(alloc);
    rows.push(row)?;
    let mut case = case_of(SolverKind::Rows, Vec::from_slice(alloc, &[0])?, 1, 1);
    case.row = Some(Items::from_vec(rows));
    LineSolver::from_case(alloc, &case)
}

/// A record of five ticks that writes this value.
fn entry(alloc: Global, value: i64) -> Result<RecordEntry, Memory>
    requires { IsValue value }
    ensures { IfOk result (IsSoundRecord 2) }
{
    Ok(RecordEntry {
        dt: 5,
        writes: Items::from_vec(Vec::from_slice(alloc, &[value])?),
    })
}

/// Two records, which write 2 and 4 units.
fn two_records(alloc: Global) -> Result<Items<RecordEntry>, Memory>
    ensures two { IfOk result (λ records. length records ≡ 2) }
    ensures sound { IfOk result (All (IsSoundRecord 2)) }
{
    let mut records = Vec::new(alloc);
    records.push(entry(alloc, 2)?)?;
    records.push(entry(alloc, 4)?)?;
    Ok(Items::from_vec(records))
}

/// A recorded participant with these records, of which none is used.
fn recorded(alloc: Global, forbid: i64) -> Result<LineSolver, Memory>
    requires { pos 1 ≤ℤ forbid }
{
    let case = CaseParts {
        solver: SolverKind::Recorded,
        step: 10,
        read: ReadWhen::Start,
        state: None,
        fill: Some(0),
        count: Some(2),
        out: None,
        forbid: Some(forbid),
        row: None,
        records: Some(two_records(alloc)?),
        alpha: 0,
        beta: 0,
        stiff: 0,
        damp: 0,
        gain: 0,
        rate: 0,
        reads: 0,
        writes: 1,
    };
    LineSolver::from_case(alloc, &case)
}

/// Whether all are Values.
fn are_values(units: &[i64]) -> bool
    ensures { IsTrue result → All IsValue units.now }
{
    units
        .iter()
        .all(|one| one.unsigned_abs() <= 10_000_000_000_000)
}

/// A step of a solver; Memory where it does not read and write as many values.
fn stepped(
    solver: &mut LineSolver,
    dt: u64,
    reads: &[i64],
    writes: &mut [i64],
) -> Result<(), StepErr>
    ensures { spec_of solver.new ≡ spec_of solver.old }
{
    if dt == 0 || !are_values(reads) {
        return Err(StepErr::Memory);
    }
    if reads.len() != solver.read_len() || writes.len() != solver.write_len() {
        return Err(StepErr::Memory);
    }
    solver.step(dt, reads, writes)
}

/// The first writes of a solver; Memory where it does not write as many values.
fn begun(solver: &LineSolver, writes: &mut [i64]) -> Result<(), StepErr> {
    if writes.len() != solver.write_len() {
        return Err(StepErr::Memory);
    }
    solver.first(writes);
    Ok(())
}

#[test]
fn a_rod_without_reads_smooths_and_rounds_to_even(rt: HostRuntime) -> Result<(), StepErr> {
    let mut rod = free_rod(rt.alloc())?;
    let mut writes = [9; 3];
    begun(&rod, &mut writes)?;
    assert!(rt; writes == [3, 0, 3]);
    stepped(&mut rod, 1, &[], &mut writes)?;
    assert!(rt; writes == [0, 2, 0]);
    stepped(&mut rod, 1, &[], &mut writes)?;
    assert!(rt; rod.state() == &[1, 2, 1][..]);
    stepped(&mut rod, 3, &[], &mut writes)?;
    assert!(rt; rod.state() == &[3, -1, 3][..]);
    Ok(())
}

#[test]
fn faults_come_in_order_and_change_nothing(rt: HostRuntime) -> Result<(), StepErr> {
    let mut rod = following_rod(rt.alloc())?;
    let mut writes = [9; 2];
    let mut saved = rod.checkpoint(rt.alloc())?;
    rod.save(&mut saved);
    stepped(&mut rod, 1, &[-99, 99], &mut writes)?;
    let at_bound = stepped(&mut rod, 1, &[-100, 0], &mut writes);
    let huge = stepped(&mut rod, u64::MAX, &[-100, 98], &mut writes);
    let past_128_bits = stepped(&mut rod, u64::MAX, &[10_000_000_000_000, 99], &mut writes);
    assert!(rt; at_bound == Err(StepErr::Fault(2)));
    assert!(rt; huge == Err(StepErr::Fault(1)) && past_128_bits == Err(StepErr::Fault(1)));
    assert!(rt; writes == [-99, 99] && rod.state() == &[-99, 99][..]);
    rod.restore(&saved);
    assert!(rt; rod.state() == &[0, 0][..] && rod.read_at_end());
    assert!(rt; rod.pick(25) == 10 && rod.pick(4) == 4);
    Ok(())
}

#[test]
fn a_spring_moves_by_its_new_velocities(rt: HostRuntime) -> Result<(), StepErr> {
    let mut free = spring_of(rt.alloc(), &[4, 0, 2, 0], 0)?;
    let mut writes = [9; 2];
    stepped(&mut free, 1, &[], &mut writes)?;
    assert!(rt; free.state() == &[0, 2, -7, 4][..]);
    stepped(&mut free, 1, &[], &mut writes)?;
    assert!(rt; free.state() == &[0, 1, -1, -2][..] && writes == [0, 1]);

    let mut pushed = spring_of(rt.alloc(), &[0, 0, 0, 0], 2)?;
    stepped(&mut pushed, 1, &[3, 0], &mut writes)?;
    assert!(rt; pushed.state() == &[2, 0, 3, 0][..] && !pushed.read_at_end());
    Ok(())
}

#[test]
fn rows_add_weigh_and_fault(rt: HostRuntime) -> Result<(), StepErr> {
    let mut climbing = single(rt.alloc(), 5_000_000_000_000, 500_000, 500_000)?;
    let mut writes = [9];
    stepped(&mut climbing, 1, &[3], &mut writes)?;
    assert!(rt; writes == [5_000_000_000_002]);
    stepped(&mut climbing, 7, &[-2], &mut writes)?;
    assert!(rt; writes == [7_500_000_000_000]);
    let fault = stepped(&mut climbing, 1, &[10_000_000_000_000], &mut writes);
    assert!(rt; fault == Err(StepErr::Fault(1)) && climbing.state() == &[7_500_000_000_000][..]);
    Ok(())
}

#[test]
fn a_recorded_participant_uses_its_records(rt: HostRuntime) -> Result<(), StepErr> {
    let mut solver = recorded(rt.alloc(), 10_000_000)?;
    let mut writes = [9];
    begun(&solver, &mut writes)?;
    assert!(rt; writes == [0] && solver.pick(25) == 5 && solver.pick(4) == 4);
    stepped(&mut solver, 5, &[], &mut writes)?;
    assert!(rt; writes == [2] && solver.state() == &[1_000_000, 2][..]);
    stepped(&mut solver, 4, &[], &mut writes)?;
    assert!(rt; solver.state() == &[2_000_000, 4][..] && solver.pick(25) == 10);
    let without_record = stepped(&mut solver, 10, &[], &mut writes);
    assert!(rt; without_record == Err(StepErr::Fault(3)) && writes == [4]);
    Ok(())
}

#[test]
fn the_count_of_records_reaches_the_bound(rt: HostRuntime) -> Result<(), StepErr> {
    let mut solver = recorded(rt.alloc(), 2_000_000)?;
    let mut writes = [9];
    stepped(&mut solver, 5, &[], &mut writes)?;
    let at_bound = stepped(&mut solver, 5, &[], &mut writes);
    assert!(rt; at_bound == Err(StepErr::Fault(2)) && solver.state() == &[1_000_000, 2][..]);
    Ok(())
}
