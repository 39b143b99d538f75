ghost use Rattle.std.specs.Prelude.{◌≡◌, ◌≤◌, ◌^◌, IfOk};
ghost use Rattle.fixed_num.specs.Numbers.{IsValue, IsFactor};
ghost use Rattle.line_solvers.specs.CaseMeaning.{spec_of_case, state_of_case};
ghost use Rattle.line_solvers.specs.CaseSound.{IsSoundCase};
ghost use Rattle.line_solvers.specs.LineSolver.{spec_of, state_of};
ghost use Rattle.coupling_run.specs.Answer.{outcome_of, IsServed};
ghost use Rattle.coupling_run.specs.Cases.{one_row, opening_state};
ghost use Rattle.coupling_run.specs.Drive.{run_end};
ghost use Rattle.coupling_run.specs.Outcome.{run_outcome, loop_outcome};

use crate::answer::Answer;
use crate::driver::{RunEnd, drive};
use crate::report::{fault_line, report};
use crate::status::Status;
use crate::turn::WINDOW;
use fixed_num::{Items, Memory};
use line_solvers::{CaseParts, LineSolver, Pair, ReadWhen, RowParts, SolverKind};
use std::alloc::Global;

/// A reads its input as it is.
const FIRST_FACTOR: i64 = 1_000_000;

/// B reads half of its input.
const SECOND_FACTOR: i64 = 500_000;

/// The answer of a run of so many windows, 1 to 10^6, in which A adds so many units.
pub fn run(alloc: Global, windows: u32, add: i64) -> Result<Answer, Memory>
    requires some_window { 1 ≤ windows }
    requires windows_within { windows ≤ 10 ^ 6 }
    requires value { IsValue add }
    ensures outcome { IfOk result (λ answer. outcome_of answer ≡ run_outcome windows add) }
    ensures served { IfOk result (λ answer. IsServed answer.status) }
{
    let mut first = one_row_solver(alloc, add, FIRST_FACTOR)?;
    let mut second = one_row_solver(alloc, 0, SECOND_FACTOR)?;
    let end = drive(alloc, windows, &mut first, &mut second)?;
    told(alloc, windows, &end, first.state(), second.state())
}

/// The report of a run that leaves the solvers in these states, or the line of its fault.
fn told(
    alloc: Global,
    windows: u32,
    end: &RunEnd,
    first: &[i64],
    second: &[i64],
) -> Result<Answer, Memory>
    requires { windows ≤ 10 ^ 6 }
    ensures outcome { IfOk result (λ answer.
        outcome_of answer ≡ loop_outcome windows (run_end first.now second.now end.now)) }
    ensures served { IfOk result (λ answer. IsServed answer.status) }
{
    match &end.fault {
        Some(fault) => {
            let text = fault_line(alloc, fault)?;
            Ok(Answer {
                status: Status::RunFault,
                text,
            })
        }
        None => {
            let text = report(alloc, windows, end, first, second)?;
            Ok(Answer {
                status: Status::Ok,
                text,
            })
        }
    }
}

/// A solver of one component, which becomes `add` and the input times the factor, both in units.
fn one_row_solver(alloc: Global, add: i64, factor: i64) -> Result<LineSolver, Memory>
    requires value { IsValue add }
    requires factor { IsFactor factor }
    ensures spec { IfOk result (λ made. spec_of made ≡ one_row add factor) }
    ensures state { IfOk result (λ made. state_of made ≡ opening_state) }
{
    LineSolver::from_case(alloc, &one_row_case(alloc, add, factor)?)
}

/// What the case file of such a solver says.
fn one_row_case(alloc: Global, add: i64, factor: i64) -> Result<CaseParts, Memory>
    requires value { IsValue add }
    requires factor { IsFactor factor }
    ensures sound { IfOk result IsSoundCase }
    ensures spec { IfOk result (λ parts. spec_of_case parts ≡ one_row add factor) }
    ensures state { IfOk result (λ parts. state_of_case parts ≡ opening_state) }
{
    let pair = Pair {
        index: 0,
        number: factor,
    };
    let row = RowParts {
        add,
        states: Items::from_vec(Vec::new(alloc)),
        reads: Items::from_vec(Vec::from_slice(alloc, &[pair])?),
    };
    let state = Vec::from_slice(alloc, &[0])?;
    let mut rows = Vec::new(alloc);
    rows.push(row)?;
    Ok(CaseParts {
        solver: SolverKind::Rows,
        step: i64::from(WINDOW),
        read: ReadWhen::End,
        state: Some(Items::from_vec(state)),
        fill: None,
        count: None,
        out: None,
        forbid: None,
        row: Some(Items::from_vec(rows)),
        records: None,
        alpha: 0,
        beta: 0,
        stiff: 0,
        damp: 0,
        gain: 0,
        rate: 0,
        reads: 1,
        writes: 1,
    })
}
