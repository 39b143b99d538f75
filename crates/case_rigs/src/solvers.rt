//! The solver of a participant, with the sums of its actions.
ghost use Rattle.std.specs.Prelude.{◌≡◌, ◌≤◌, IfOk, length, sum_by};
ghost use Rattle.cpl_config.specs.SoundConfig.{IsSoundConfig, IsSoundParticipant};
ghost use Rattle.case_files.specs.SoundCase.{IsSoundCaseFile};
ghost use Rattle.line_solvers.specs.CaseMeaning.{spec_of_case, state_of_case};
ghost use Rattle.line_solvers.specs.CaseSound.{IsSoundCase};
ghost use Rattle.line_solvers.specs.LineSolver.{spec_of, state_of};
ghost use Rattle.data_actions.specs.SoundSums.{AreSums};
ghost use Rattle.case_rules.specs.CaseRules.{values_of, written_values};
ghost use Rattle.case_rules.specs.SolverCase.{solver_case};
ghost use Rattle.case_rigs.specs.CaseRigs.{own_sums};

use action_sums::{sums_of, written_lengths};
use case_files::CaseFile;
use case_rules::values_of;
use cpl_config::{Config, DataEntry, PartTable};
use data_actions::{Sum, Summed};
use fixed_num::{CopyIn, Items, Memory};
use line_solvers::{CaseParts, LineSolver};
use std::alloc::Global;

/// The solver that a participant's case describes, which writes the sums of its actions too.
pub(crate) fn own_solver(
    alloc: Global,
    config: &Config,
    part: &PartTable,
    case_file: &CaseFile,
) -> Result<Summed<LineSolver>, Memory>
    requires config { IsSoundConfig config.now }
    requires part { IsSoundParticipant part.now }
    requires case_file { IsSoundCaseFile case_file.now }
    requires solver { IsSoundCase (solver_case config.now part.now case_file.now) }
    requires sums { AreSums (written_values config.now part.now case_file.now) (own_sums config.now part.now case_file.now) }
    ensures spec { IfOk result (λ made. spec_of made.0 ≡ spec_of_case (solver_case config.now part.now case_file.now)) }
    ensures state { IfOk result (λ made. state_of made.0 ≡ state_of_case (solver_case config.now part.now case_file.now)) }
    ensures sums { IfOk result (λ made. made.1 ≡ own_sums config.now part.now case_file.now) }
{
    let case = case_parts(alloc, config, part, case_file)?;
    let inner = LineSolver::from_case(alloc, &case)?;
    let sums = own_sums(alloc, config, part, case_file)?;
    match Summed::new(alloc, inner, sums) {
        Ok(solver) => Ok(solver),
        Err((_, _, memory)) => Err(memory),
    }
}

/// The sums of a participant's actions, over the values that it writes by its case.
fn own_sums(
    alloc: Global,
    config: &Config,
    part: &PartTable,
    case_file: &CaseFile,
) -> Result<Vec<Sum>, Memory>
    requires config { IsSoundConfig config.now }
    requires part { IsSoundParticipant part.now }
    requires case_file { IsSoundCaseFile case_file.now }
    ensures { IfOk result (λ sums. sums.items ≡ own_sums config.now part.now case_file.now) }
{
    let lengths = written_lengths(alloc, config, part, case_file)?;
    let sums = sums_of(alloc, part, lengths.as_slice())?;
    Ok(sums)
}

/// What a participant's case says of its solver, and how many values it reads and writes.
fn case_parts(
    alloc: Global,
    config: &Config,
    part: &PartTable,
    case_file: &CaseFile,
) -> Result<CaseParts, Memory>
    requires config { IsSoundConfig config.now }
    requires part { IsSoundParticipant part.now }
    requires case_file { IsSoundCaseFile case_file.now }
    ensures { IfOk result (λ parts. parts ≡ solver_case config.now part.now case_file.now) }
{
    let state = numbers_if(alloc, &case_file.state)?;
    let out = numbers_if(alloc, &case_file.out)?;
    let row = items_if(alloc, &case_file.row)?;
    let records = items_if(alloc, &case_file.records)?;
    Ok(CaseParts {
        solver: case_file.solver,
        step: case_file.step,
        read: case_file.read,
        state,
        fill: case_file.fill,
        count: case_file.count,
        out,
        forbid: case_file.forbid,
        row,
        records,
        alpha: case_file.alpha,
        beta: case_file.beta,
        stiff: case_file.stiff,
        damp: case_file.damp,
        gain: case_file.gain,
        rate: case_file.rate,
        reads: values_in(config, case_file, part.read.as_slice()),
        writes: values_in(config, case_file, part.write.as_slice()),
    })
}

/// Equal numbers in memory of their own, where there are some.
fn numbers_if(alloc: Global, list: &Option<Items<i64>>) -> Result<Option<Items<i64>>, Memory>
    ensures { IfOk result (λ copy. copy ≡ list.now) }
{
    match list {
        Some(items) => Ok(Some(items.copy(alloc)?)),
        None => Ok(None),
    }
}

/// Equal items in memory of their own, where there are some.
fn items_if<T: CopyIn>(alloc: Global, list: &Option<Items<T>>) -> Result<Option<Items<T>>, Memory>
    ensures { IfOk result (λ copy. copy ≡ list.now) }
{
    match list {
        Some(items) => Ok(Some(items.copy_in(alloc)?)),
        None => Ok(None),
    }
}

/// How many values the entries stand for: at most 1,920,000, for 64 entries.
fn values_in(config: &Config, case_file: &CaseFile, entries: &[DataEntry]) -> u32
    requires config { IsSoundConfig config.now }
    requires case_file { IsSoundCaseFile case_file.now }
    requires few { length entries.now ≤ 64 }
    ensures { result ≡ sum_by (values_of config.now case_file.now) entries.now }
{
    let mut total = 0;
    'entries: for entry in entries {
        total += values_of(config, case_file, entry);
    }
    total as u32
}
