ghost use Rattle.std.specs.Prelude.{◌≡◌, ◌<◌, ℕ, Option, List, pos, ◌+ℤ◌, length, All, IfOk};
ghost use Rattle.std.specs.Option.{option_copied};
ghost use Rattle.fixed_num.specs.Numbers.{IsValue};
ghost use Rattle.line_solvers.specs.CaseMeaning.{records_of_case};
ghost use Rattle.line_solvers.specs.Components.{component};
ghost use Rattle.line_solvers.specs.RecordedStep.{used, next_record, recorded_components};

use crate::case::{CaseParts, RecordEntry, records_of};
use crate::change_rule::ChangeRule;
use crate::line::NO_RECORD;
use crate::ruled::Ruled;
use fixed_num::{Items, Memory, copies_of};
use solver_trait::StepErr;
use std::alloc::Global;

/// The units by which the count of used records rises in a step: one whole.
const ONE: i64 = 1_000_000;

/// A recorded participant: each step uses the next record, and writes what it says.
pub type Recorded = Ruled<Items<RecordEntry>>;

impl ChangeRule for Items<RecordEntry> {
    ghost use Rattle.line_solvers.specs.LineMeaning.{of_records};
    ghost use Rattle.line_solvers.specs.Sound.{AreSoundRecords};

    ghost rule = { of_records };

    ghost suits = { AreSoundRecords };

    fn next_values(
        &self,
        alloc: Global,
        _ticks: u64,
        state: &[i64],
        _inputs: &[i64],
    ) -> Result<Vec<i64>, StepErr> {
        match next_record(self.as_slice(), state) {
            Some(entry) => Ok(values_after(alloc, state, entry)?),
            None => Err(StepErr::Fault(NO_RECORD)),
        }
    }

    fn longest(&self, step: u64, state: &[i64]) -> u64 {
        match next_record(self.as_slice(), state) {
            Some(entry) => entry.dt as u64,
            None => step,
        }
    }
}

/// The records of a case, in memory of their own.
pub(crate) fn records_of_case(alloc: Global, case: &CaseParts) -> Result<Items<RecordEntry>, Memory>
    ensures { IfOk result (λ records. records ≡ records_of_case case.now) }
{
    let copies = copies_of(alloc, records_of(&case.records))?;
    Ok(Items::from_vec(copies))
}

/// The record that the next step uses, where one is left.
fn next_record<'a>(records: &'a [RecordEntry], state: &[i64]) -> Option<&'a RecordEntry>
    ensures { option_copied result ≡ next_record records.now state.now }
{
    records.get(used(state))
}

/// How many records were used.
fn used(state: &[i64]) -> usize
    ensures { result ≡ used state.now }
{
    match state.first() {
        Some(count) => (count.unsigned_abs() / 1_000_000) as usize,
        None => 0,
    }
}

/// The components after a step that uses this record.
fn values_after(alloc: Global, state: &[i64], entry: &RecordEntry) -> Result<Vec<i64>, Memory>
    requires some { 0 < length state.now }
    requires state { All IsValue state.now }
    ensures { IfOk result (λ next. next.items ≡ recorded_components state.now entry.now) }
{
    let mut next = Vec::with_capacity(alloc, state.len())?;
    next.push(one_more(state))?;
    next.extend_from_slice(entry.writes.as_slice())?;
    Ok(next)
}

/// The count of used records after a step, in units.
fn one_more(state: &[i64]) -> i64
    requires some { 0 < length state.now }
    requires state { All IsValue state.now }
    ensures { result ≡ component state.now 0 +ℤ pos 1000000 }
{
    state[0] + ONE
}
