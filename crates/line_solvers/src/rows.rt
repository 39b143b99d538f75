ghost use Rattle.std.specs.Prelude.{◌≡◌, ℕ, ◌≤◌, ◌+ℤ◌, Option, List, length, All, OnOk, OnErr, IfOk, IfErr};
ghost use Rattle.fixed_num.specs.Numbers.{IsValue};
ghost use Rattle.solver_trait.specs.Behaviour.{goes_on};
ghost use Rattle.solver_trait.specs.Step.{IsCauseOf};
ghost use Rattle.line_solvers.specs.Checked.{checked};
ghost use Rattle.line_solvers.specs.CaseMeaning.{rows_of_case};
ghost use Rattle.line_solvers.specs.RowsStep.{weighted, weighted_sum, row_component, rows_components};
ghost use Rattle.line_solvers.specs.Sound.{IsPairOf, IsSoundRow, IsSoundRows};

use crate::case::{CaseParts, Pair, RowParts, rows_of};
use crate::change_rule::ChangeRule;
use crate::line::OUT_OF_RANGE;
use crate::number::UNITS;
use crate::ruled::Ruled;
use fixed_num::{Items, Memory, copies_of, quot_even, value_of};
use solver_trait::StepErr;
use std::alloc::Global;

/// A solver each of whose new components is a rounded sum of weighted components and inputs.
pub type Rows = Ruled<Items<RowParts>>;

impl ChangeRule for Items<RowParts> {
    ghost use Rattle.line_solvers.specs.LineMeaning.{of_rows};
    ghost use Rattle.line_solvers.specs.Sound.{IsSoundRows};

    ghost rule = { of_rows };

    ghost suits = { IsSoundRows };

    fn next_values(
        &self,
        alloc: Global,
        _ticks: u64,
        state: &[i64],
        inputs: &[i64],
    ) -> Result<Vec<i64>, StepErr> {
        next_values(alloc, self.as_slice(), state, inputs)
    }

    fn longest(&self, step: u64, _state: &[i64]) -> u64 {
        step
    }
}

/// The rows of a case, in memory of their own.
pub(crate) fn rows_of_case(alloc: Global, case: &CaseParts) -> Result<Items<RowParts>, Memory>
    ensures { IfOk result (λ rows. rows ≡ rows_of_case case.now) }
{
    let copies = copies_of(alloc, rows_of(&case.row))?;
    Ok(Items::from_vec(copies))
}

/// The components that the rows make, where each is a Value.
fn next_values(
    alloc: Global,
    rows: &[RowParts],
    state: &[i64],
    inputs: &[i64],
) -> Result<Vec<i64>, StepErr>
    requires rows { IsSoundRows rows.now (length state.now) (length inputs.now) }
    requires state { All IsValue state.now }
    requires inputs { All IsValue inputs.now }
    ensures components { IfOk result
        (λ next. next.items ≡ rows_components rows.now state.now inputs.now) }
    ensures values { IfOk result (λ next. All IsValue next.items) }
    ensures cause { (forbid : Option ℕ) (out : List ℕ) → IfErr result
        (IsCauseOf (checked forbid out (rows_components rows.now state.now inputs.now))) }
{
    let mut next = Vec::with_capacity(alloc, rows.len())?;
    for row in rows {
        let Some(component) = value_of(component_of(row, state, inputs)) else {
            return Err(StepErr::Fault(OUT_OF_RANGE));
        };
        next.push(component.get())?;
    }
    Ok(next)
}

/// What a row makes of the state and the inputs, in units: within about 10^19.
fn component_of(row: &RowParts, state: &[i64], inputs: &[i64]) -> i128
    requires row { IsSoundRow (length state.now) (length inputs.now) row.now }
    requires state { All IsValue state.now }
    requires inputs { All IsValue inputs.now }
    ensures { result ≡ row_component state.now inputs.now row.now }
{
    i128::from(row.add) + quot_even(total_of(row, state, inputs), UNITS)
}

/// The sum of a row's weighted components and inputs: at most 128 terms of 10^9 times 10^13.
fn total_of(row: &RowParts, state: &[i64], inputs: &[i64]) -> i128
    requires row { IsSoundRow (length state.now) (length inputs.now) row.now }
    requires state { All IsValue state.now }
    requires inputs { All IsValue inputs.now }
    ensures { result ≡ weighted_sum row.now.states state.now +ℤ weighted_sum row.now.reads inputs.now }
{
    weighted_sum(row.states.as_slice(), state) + weighted_sum(row.reads.as_slice(), inputs)
}

fn weighted_sum(pairs: &[Pair], values: &[i64]) -> i128
    requires few { length pairs.now ≤ 64 }
    requires pairs { All (IsPairOf (length values.now)) pairs.now }
    requires values { All IsValue values.now }
    ensures { result ≡ weighted_sum pairs.now values.now }
{
    let mut sum = 0;
    for pair in pairs {
        sum += weighted(pair, values);
    }
    sum
}

fn weighted(pair: &Pair, values: &[i64]) -> i128
    requires pair { IsPairOf (length values.now) pair.now }
    requires values { All IsValue values.now }
    ensures { result ≡ weighted values.now pair.now }
{
    i128::from(pair.number) * i128::from(values[pair.index as usize])
}
