ghost use Rattle.std.specs.Prelude.{◌≡◌, ◌≢◌, ◌≤◌, ◌^◌, Some, None, map, string_bytes, IfOk, IsErrOf};
ghost use Rattle.io_edge.specs.FileMap.{FileMap};
ghost use Rattle.io_edge.specs.Rose.{Rose};
ghost use Rattle.io_edge.specs.Taken.{taken_more, TookPrefix};
ghost use Rattle.coupling_run.specs.Answer.{outcome_of, Answers, MayAsk, MayAskBoth, IsServed, IsAnswerTo};
ghost use Rattle.coupling_run.specs.Form.{add_of, is_second_case};
ghost use Rattle.coupling_run.specs.Outcome.{usage, refused_at, config_outcome, loaded_outcome, cases_outcome, first_case_name, second_case_name};
ghost use Rattle.coupling_run.specs.Served.{word_outcome, outcome};
ghost use Rattle.coupling_run.specs.Words.{asked_by, asked_of};
ghost use Rattle.coupling_run.specs.declared.words.CommandWord.TheVariants.{Solo};

use crate::answer::{Answer, Unanswered};
use crate::base::{FIRST_NAME, SECOND_NAME};
use crate::check::check;
use crate::form::{accepted_first, accepted_windows, accepts_second};
use crate::run::run;
use crate::status::Status;
use crate::words::{Command, CommandWord, asked_of};
use accepted_case::load_bytes;
use fixed_num::Memory;
use io_edge::{Files, Sink, put_all};
use std::alloc::Global;

/// What is written for words that ask for nothing that is served.
const USAGE: &str =
    "usage: coupling run <config> [--workers N] | solo <config> [--schedule S] | check <config> | mill <number>\n";

/// Serves the words of a command line without the program's name, on one thread: loads the files
/// that they name, runs or checks the case, and writes the report, or why there is none.
///
/// `solo` and `check` are served, each with a name. The text is made whole before its first byte is written.
pub fn coupling_solo<F: Files, O: Sink>(
    alloc: Global,
    words: &[String],
    files: &mut F,
    out: &mut O,
) -> Status
    requires may_ask { MayAsk (F.told files.old) (F.may_ask files.old) (asked_of (map string_bytes words.now)) }

    // Where the files tell their bytes, status and bytes are the outcome's.
    ensures outcome { (told : FileMap) → F.told files.old ≡ Some told →
        Answers (outcome (map string_bytes words.now) told) result (O.taken out.old) (O.taken out.new) }

    // Words that refuse are answered so whatever the files tell.
    ensures usage { asked_of (map string_bytes words.now) ≡ None →
        (result ≢ Status.ReadFault) × Answers usage result (O.taken out.old) (O.taken out.new) }
    ensures usage_only { result ≡ Status.Usage → asked_of (map string_bytes words.now) ≡ None }

    // Each fault has its cause.
    ensures read_fault { result ≡ Status.ReadFault → Rose (F.faults files.old) (F.faults files.new) }
    ensures write_fault { result ≡ Status.WriteFault → Rose (O.faults out.old) (O.faults out.new) }
    ensures unread { result ≡ Status.ReadFault → O.taken out.new ≡ O.taken out.old }
    ensures memory { result ≡ Status.Memory → O.taken out.new ≡ O.taken out.old }

    // What the files tell stays, and no count of faults falls.
    ensures same_told { F.told files.new ≡ F.told files.old }
    ensures files_never_fall { F.faults files.old ≤ F.faults files.new }
    ensures out_never_falls { O.faults out.old ≤ O.faults out.new }
{
    match answer(alloc, words, files) {
        Ok(answer) => tell(out, &answer),
        Err(Unanswered::ReadFault) => Status::ReadFault,
        Err(Unanswered::Memory) => Status::Memory,
    }
}

/// Writes an answer, and tells its status unless a put fails.
fn tell<O: Sink>(out: &mut O, answer: &Answer) -> Status
    ensures told { result ≢ Status.WriteFault →
        (result ≡ answer.now.status) × (O.taken out.new ≡ taken_more (O.taken out.old) answer.now.text.items) }
    ensures only { result ≢ answer.now.status → result ≡ Status.WriteFault }
    ensures write_fault { result ≡ Status.WriteFault → answer.now.status ≢ Status.WriteFault →
        Rose (O.faults out.old) (O.faults out.new) × TookPrefix (O.taken out.old) (O.taken out.new) answer.now.text.items }
    ensures never_falls { O.faults out.old ≤ O.faults out.new }
{
    match put_all(out, answer.text.as_slice()) {
        Ok(()) => answer.status,
        Err(_) => Status::WriteFault,
    }
}

/// The answer to the words.
fn answer<F: Files>(alloc: Global, words: &[String], files: &mut F) -> Result<Answer, Unanswered>
    requires { MayAsk (F.told files.old) (F.may_ask files.old) (asked_of (map string_bytes words.now)) }
    ensures outcome { IfOk result (λ answer. (told : FileMap) → F.told files.old ≡ Some told →
        outcome_of answer ≡ outcome (map string_bytes words.now) told) }
    ensures known { IfOk result (IsAnswerTo (asked_of (map string_bytes words.now))) }
    ensures usage { asked_of (map string_bytes words.now) ≡ None → ¬ IsErrOf result Unanswered.ReadFault }
    ensures read_fault { IsErrOf result Unanswered.ReadFault → Rose (F.faults files.old) (F.faults files.new) }
    ensures same_told { F.told files.new ≡ F.told files.old }
    ensures never_falls { F.faults files.old ≤ F.faults files.new }
{
    match asked_of(words) {
        Some(command) => serve(alloc, files, command),
        None => Ok(usage_answer(alloc)?),
    }
}

/// The answer to a command.
fn serve<F: Files>(alloc: Global, files: &mut F, command: Command) -> Result<Answer, Unanswered>
    requires { MayAsk (F.told files.old) (F.may_ask files.old) (Some (asked_by command)) }
    ensures outcome { IfOk result (λ answer. (told : FileMap) → F.told files.old ≡ Some told →
        outcome_of answer ≡ word_outcome (command.entry).word told (command.entry).name.now) }
    ensures served { IfOk result (λ answer. IsServed answer.status) }
    ensures read_fault { IsErrOf result Unanswered.ReadFault → Rose (F.faults files.old) (F.faults files.new) }
    ensures same_told { F.told files.new ≡ F.told files.old }
    ensures never_falls { F.faults files.old ≤ F.faults files.new }
{
    match command.word {
        CommandWord::Solo => solo(alloc, files, command.name),
        CommandWord::Check => check(alloc, files, command.name),
    }
}

/// The answer for a configuration of this name.
fn solo<F: Files>(alloc: Global, files: &mut F, name: &str) -> Result<Answer, Unanswered>
    requires { MayAsk (F.told files.old) (F.may_ask files.old) (Some (record { word = Solo; name = name.now })) }
    ensures outcome { IfOk result (λ answer. (told : FileMap) → F.told files.old ≡ Some told →
        outcome_of answer ≡ config_outcome told (told name.now)) }
    ensures served { IfOk result (λ answer. IsServed answer.status) }
    ensures read_fault { IsErrOf result Unanswered.ReadFault → Rose (F.faults files.old) (F.faults files.new) }
    ensures same_told { F.told files.new ≡ F.told files.old }
    ensures never_falls { F.faults files.old ≤ F.faults files.new }
{
    let config = load_bytes(alloc, files, name)?;
    match accepted_windows(alloc, config.as_slice())? {
        Some(windows) => solo_cases(alloc, files, windows),
        None => Ok(refusal(alloc, "config")?),
    }
}

/// The answer for an accepted configuration: both case files are loaded before either is tried.
fn solo_cases<F: Files>(alloc: Global, files: &mut F, windows: u32) -> Result<Answer, Unanswered>
    requires may_ask { MayAskBoth (F.told files.old) (F.may_ask files.old) windows }
    requires some_window { 1 ≤ windows }
    requires windows_within { windows ≤ 10 ^ 6 }
    ensures outcome { IfOk result (λ answer. (told : FileMap) → F.told files.old ≡ Some told →
        outcome_of answer ≡ loaded_outcome windows (told first_case_name) (told second_case_name)) }
    ensures served { IfOk result (λ answer. IsServed answer.status) }
    ensures read_fault { IsErrOf result Unanswered.ReadFault → Rose (F.faults files.old) (F.faults files.new) }
    ensures same_told { F.told files.new ≡ F.told files.old }
    ensures never_falls { F.faults files.old ≤ F.faults files.new }
{
    let first = load_bytes(alloc, files, FIRST_NAME)?;
    let second = load_bytes(alloc, files, SECOND_NAME)?;
    Ok(run_cases(alloc, windows, first.as_slice(), second.as_slice())?)
}

/// The answer for an accepted configuration and the bytes of its case files.
fn run_cases(alloc: Global, windows: u32, first: &[u8], second: &[u8]) -> Result<Answer, Memory>
    requires some_window { 1 ≤ windows }
    requires windows_within { windows ≤ 10 ^ 6 }
    ensures outcome { IfOk result (λ answer.
        outcome_of answer ≡ cases_outcome windows (add_of first.now) (is_second_case second.now)) }
    ensures served { IfOk result (λ answer. IsServed answer.status) }
{
    let Some(add) = accepted_first(alloc, first)? else {
        return refusal(alloc, "case A");
    };
    if !accepts_second(alloc, second)? {
        return refusal(alloc, "case B");
    }
    run(alloc, windows, add)
}

/// The usage line.
fn usage_answer(alloc: Global) -> Result<Answer, Memory>
    ensures { IfOk result (λ answer. outcome_of answer ≡ usage) }
{
    Ok(Answer {
        status: Status::Usage,
        text: Vec::from_slice(alloc, USAGE.as_bytes())?,
    })
}

/// The refusal of what is not built yet, at a place.
fn refusal(alloc: Global, place: &str) -> Result<Answer, Memory>
    ensures outcome { IfOk result (λ answer. outcome_of answer ≡ refused_at place.now) }
    ensures served { IfOk result (λ answer. IsServed answer.status) }
{
    let text = format!(in alloc; "refused C0 at {place}\n")?;
    Ok(Answer {
        status: Status::Refused,
        text: text.into_bytes(),
    })
}
