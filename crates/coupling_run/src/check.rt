//! The command `check`: whether the files of a coupling are accepted.
ghost use Rattle.std.specs.Prelude.{◌≡◌, ◌≤◌, ◌++◌, Some, Ok, Err, IfOk, OnOk, IsErrOf};
ghost use Rattle.io_edge.specs.FileMap.{FileMap};
ghost use Rattle.io_edge.specs.Rose.{Rose};
ghost use Rattle.accepted_case.specs.Acceptance.{files_acceptance};
ghost use Rattle.accepted_case.specs.MayLoad.{MayLoad};
ghost use Rattle.coupling_run.specs.Answer.{outcome_of, IsServed};
ghost use Rattle.coupling_run.specs.CheckText.{accepted_line, check_outcome};
ghost use Rattle.coupling_run.specs.ReportText.{numbered};

use crate::answer::{Answer, Unanswered};
use crate::status::Status;
use accepted_case::{AcceptedCase, CaseErr, RefusedCase, load_case};
use cpl_tables::print_place;
use fixed_num::Memory;
use io_edge::Files;
use std::alloc::Global;

/// The answer to `check`: that the case is accepted, or its first broken rule.
pub fn check<F: Files>(alloc: Global, files: &mut F, name: &str) -> Result<Answer, Unanswered>
    requires { MayLoad (F.told files.old) (F.may_ask files.old) name.now }
    ensures outcome { IfOk result (λ answer. (told : FileMap) → F.told files.old ≡ Some told →
        outcome_of answer ≡ check_outcome (files_acceptance told name.now)) }
    ensures served { IfOk result (λ answer. IsServed answer.status) }
    ensures read_fault { IsErrOf result Unanswered.ReadFault → Rose (F.faults files.old) (F.faults files.new) }
    ensures same_told { F.told files.new ≡ F.told files.old }
    ensures never_falls { F.faults files.old ≤ F.faults files.new }
{
    match load_case(alloc, files, name) {
        Ok(accepted) => Ok(accepted_answer(alloc, &accepted)?),
        Err(CaseErr::Refused(refused)) => Ok(refused_answer(alloc, &refused)?),
        Err(CaseErr::ReadFault) => Err(Unanswered::ReadFault),
        Err(CaseErr::Memory) => Err(Unanswered::Memory),
    }
}

/// The answer for a case that is accepted.
fn accepted_answer(alloc: Global, accepted: &AcceptedCase) -> Result<Answer, Memory>
    ensures outcome { IfOk result (λ answer. outcome_of answer ≡ check_outcome (Some (Ok accepted.now))) }
    ensures served { IfOk result (λ answer. IsServed answer.status) }
{
    let participants = accepted.config.participant.len();
    let schemes = accepted.config.scheme.len();
    let text = accepted_line(alloc, participants, schemes)?;
    Ok(Answer {
        status: Status::Ok,
        text,
    })
}

/// The line that tells how many participants and schemes are accepted.
#[tactic(auto, unfolding(crate::specs::CheckText::accepted_line))]
fn accepted_line(alloc: Global, participants: usize, schemes: usize) -> Result<Vec<u8>, Memory>
    ensures { IfOk result (λ text. text.items ≡ accepted_line participants schemes) }
{
    let mut text = Vec::new(alloc);
    push_count(alloc, "accepted ", participants, &mut text)?;
    push_count(alloc, " participants ", schemes, &mut text)?;
    text.extend_from_slice(b" schemes\n")?;
    Ok(text)
}

/// Appends words and a count.
fn push_count(alloc: Global, words: &str, count: usize, to: &mut Vec<u8>) -> Result<(), Memory>
    ensures { OnOk result (to.new.items ≡ to.old.items ++ numbered words.now count) }
{
    let part = format!(in alloc; "{words}{count}")?;
    to.extend_from_slice(part.as_bytes())?;
    Ok(())
}

/// The answer for files that are refused.
fn refused_answer(alloc: Global, refused: &RefusedCase) -> Result<Answer, Memory>
    ensures outcome { IfOk result (λ answer. outcome_of answer ≡ check_outcome (Some (Err refused.now))) }
    ensures served { IfOk result (λ answer. IsServed answer.status) }
{
    let rule = refused.refusal.rule;
    let mut text = format!(in alloc; "refused C{rule} at ")?.into_bytes();
    print_place(
        alloc,
        refused.refusal.place,
        refused.name.as_str(),
        &mut text,
    )?;
    text.extend_from_slice(b"\n")?;
    Ok(Answer {
        status: Status::Refused,
        text,
    })
}
