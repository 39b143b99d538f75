use crate::case::{CaseParts, RodNumbers, SolverKind, SpringNumbers};
use crate::checkpoint::LineCheckpoint;
use crate::line::Line;
use crate::recorded::{Recorded, records_of_case};
use crate::rod::Rod;
use crate::rows::{Rows, rows_of_case};
use crate::ruled::Ruled;
use crate::spring::Spring;
use fixed_num::Memory;
use solver_trait::{Solver, StepErr};
use std::alloc::Global;

/// One of the shipped solvers.
#[derive(Drop)]
pub enum LineSolver {
    Rows(Rows),
    Rod(Rod),
    Spring(Spring),
    Recorded(Recorded),
}

impl LineSolver {
    ghost use Rattle.std.specs.Prelude.{◌≡◌, ◌≤◌, All, IfOk};
    ghost use Rattle.fixed_num.specs.Numbers.{IsValue};
    ghost use Rattle.line_solvers.specs.CaseMeaning.{spec_of_case, state_of_case};
    ghost use Rattle.line_solvers.specs.CaseSound.{IsSoundCase};
    ghost use Rattle.line_solvers.specs.LineMeaning.{longest_step};
    ghost use Rattle.line_solvers.specs.LineSolver.{spec_of, state_of};

    /// The solver that the case describes, in the case's state.
    pub fn from_case(alloc: Global, case: &CaseParts) -> Result<LineSolver, Memory>
        requires { IsSoundCase case.now }
        ensures spec { IfOk result (λ made. spec_of made ≡ spec_of_case case.now) }
        ensures state { IfOk result (λ made. state_of made ≡ state_of_case case.now) }
    {
        let line = Line::from_case(alloc, case)?;
        match case.solver {
            SolverKind::Rows => {
                let rows = rows_of_case(alloc, case)?;
                Ok(LineSolver::Rows(Ruled::new(line, rows)))
            }
            SolverKind::Rod => Ok(LineSolver::Rod(Ruled::new(line, RodNumbers::of_case(case)))),
            SolverKind::Spring => {
                let numbers = SpringNumbers::of_case(case);
                Ok(LineSolver::Spring(Ruled::new(line, numbers)))
            }
            SolverKind::Recorded => {
                let records = records_of_case(alloc, case)?;
                Ok(LineSolver::Recorded(Ruled::new(line, records)))
            }
        }
    }

    /// The components of the state, in units.
    pub fn state(&self) -> &[i64]
        ensures components { result.now ≡ state_of self.now }
        ensures values { All IsValue result.now }
    {
        self.line().state()
    }

    /// What it has in common with the solvers of other kinds.
    fn line(&self) -> &Line
        ensures common { result.now.common ≡ (spec_of self.now).common }
        ensures state { result.now.state ≡ state_of self.now }
    {
        match self {
            LineSolver::Rows(rows) => rows.line(),
            LineSolver::Rod(rod) => rod.line(),
            LineSolver::Spring(spring) => spring.line(),
            LineSolver::Recorded(recorded) => recorded.line(),
        }
    }

    /// The longest step from the state that it has, in ticks.
    fn longest(&self) -> u64
        ensures longest { let spec = spec_of self.now in
            result ≡ longest_step spec.rule spec.common.step (state_of self.now) }
        ensures a_tick { 1 ≤ result }
    {
        match self {
            LineSolver::Rows(rows) => rows.longest(),
            LineSolver::Rod(rod) => rod.longest(),
            LineSolver::Spring(spring) => spring.longest(),
            LineSolver::Recorded(recorded) => recorded.longest(),
        }
    }
}

impl Solver for LineSolver {
    ghost use Rattle.std.specs.Prelude.{List, ℤ};
    ghost use Rattle.line_solvers.specs.LineMeaning.{LineSpec, line_behaviour, is_state_of};
    ghost use Rattle.line_solvers.specs.LineSolver.{spec_of, state_of};

    type Checkpoint = LineCheckpoint;

    ghost Spec = { LineSpec };

    ghost State = { List ℤ };

    ghost spec = { spec_of };

    ghost state = { state_of };

    ghost behaviour = { line_behaviour };

    ghost fits = { is_state_of };

    ghost held = { λ components. components };

    fn read_len(&self) -> usize {
        self.line().read_len()
    }

    fn write_len(&self) -> usize {
        self.line().write_len()
    }

    fn pick(&self, most: u64) -> u64 {
        self.longest().min(most)
    }

    fn read_at_end(&self) -> bool {
        self.line().read_at_end()
    }

    fn first(&self, writes: &mut [i64]) {
        self.line().write(writes)
    }

    fn step(&mut self, dt: u64, reads: &[i64], writes: &mut [i64]) -> Result<(), StepErr> {
        match self {
            LineSolver::Rows(rows) => rows.step(dt, reads, writes),
            LineSolver::Rod(rod) => rod.step(dt, reads, writes),
            LineSolver::Spring(spring) => spring.step(dt, reads, writes),
            LineSolver::Recorded(recorded) => recorded.step(dt, reads, writes),
        }
    }

    fn checkpoint(&self, alloc: Global) -> Result<LineCheckpoint, Memory> {
        LineCheckpoint::of(alloc, self.line().state())
    }

    fn save(&self, into: &mut LineCheckpoint) {
        into.set(self.line().state())
    }

    fn restore(&mut self, from: &LineCheckpoint) {
        match self {
            LineSolver::Rows(rows) => rows.set_state(from.components()),
            LineSolver::Rod(rod) => rod.set_state(from.components()),
            LineSolver::Spring(spring) => spring.set_state(from.components()),
            LineSolver::Recorded(recorded) => recorded.set_state(from.components()),
        }
    }
}
