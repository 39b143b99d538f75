ghost use Rattle.std.specs.Prelude.{◌≡◌, ◌++◌, ◌*◌, ◌≤◌, ◌^◌, IfOk, OnOk, All};
ghost use Rattle.std.specs.List.{flat_map};
ghost use Rattle.coupling_run.specs.ReportText.{participant_name, state_part, state_parts, participant_line, coupled_line, report, numbered, fault_line};
ghost use Rattle.coupling_run.specs.Drive.{run_end};

use crate::driver::RunEnd;
use crate::fault::Fault;
use crate::turn::WINDOW;
use fixed_num::Memory;
use line_text::print_value;
use pair_core::PartId;
use std::alloc::Global;

/// The names of the participants.
fn participant_name(p: PartId) -> &'static str
    ensures { result.now ≡ participant_name p }
{
    if p == 0 { "A" } else { "B" }
}

/// The report of a run of at most 10^6 windows that leaves the solvers in these states.
pub fn report(
    alloc: Global,
    windows: u32,
    end: &RunEnd,
    first: &[i64],
    second: &[i64],
) -> Result<Vec<u8>, Memory>
    requires { windows ≤ 10 ^ 6 }
    ensures { IfOk result (λ text. text.items ≡ report windows (run_end first.now second.now end.now)) }
{
    let mut text = Vec::new(alloc);
    push_coupled(alloc, windows, &mut text)?;
    push_participant(alloc, 0, end.first_steps, first, &mut text)?;
    push_participant(alloc, 1, end.second_steps, second, &mut text)?;
    Ok(text)
}

/// Appends the first line.
#[tactic(auto, unfolding(crate::specs::ReportText::coupled_line))]
fn push_coupled(alloc: Global, windows: u32, text: &mut Vec<u8>) -> Result<(), Memory>
    requires { windows ≤ 10 ^ 6 }
    ensures { OnOk result (text.new.items ≡ text.old.items ++ coupled_line windows) }
{
    push_number(alloc, "coupled ", windows, text)?;
    push_number(alloc, " windows to ", windows * WINDOW, text)?;
    text.extend_from_slice(b"\n")?;
    Ok(())
}

/// Appends the line of one participant.

fn push_participant(
    alloc: Global,
    p: PartId,
    steps: u32,
    state: &[i64],
    text: &mut Vec<u8>,
) -> Result<(), Memory>
    ensures { OnOk result (text.new.items ≡ text.old.items ++ participant_line p steps state.now) }
{
    let name = participant_name(p);
    text.extend_from_slice(b"participant ")?;
    text.extend_from_slice(name.as_bytes())?;
    push_number(alloc, " steps ", steps, text)?;
    push_state(alloc, state, text)
}

/// Appends the components of a state, and ends the line.
fn push_state(alloc: Global, state: &[i64], text: &mut Vec<u8>) -> Result<(), Memory>
    ensures { OnOk result (text.new.items ≡ text.old.items ++ state_parts state.now) }
{
    text.extend_from_slice(b" state")?;
    push_components(alloc, state, text)?;
    text.extend_from_slice(b"\n")?;
    Ok(())
}

/// Appends each component, after a blank.
fn push_components(alloc: Global, state: &[i64], text: &mut Vec<u8>) -> Result<(), Memory>
    ensures { OnOk result (text.new.items ≡ text.old.items ++ flat_map state_part state.now) }
{
    for value in state {
        text.push(b' ')?;
        print_value(alloc, i128::from(*value), text)?;
    }
    Ok(())
}

/// The line of a fault.
pub fn fault_line(alloc: Global, fault: &Fault) -> Result<Vec<u8>, Memory>
    ensures { IfOk result (λ text. text.items ≡ fault_line fault.now) }
{
    let name = participant_name(fault.part);
    let mut text = Vec::new(alloc);
    text.extend_from_slice(b"fault participant ")?;
    text.extend_from_slice(name.as_bytes())?;
    push_number(alloc, " window ", fault.window, &mut text)?;
    push_number(alloc, " iteration ", fault.iteration, &mut text)?;
    push_number(alloc, " step ", fault.step, &mut text)?;
    push_number(alloc, " code ", fault.code, &mut text)?;
    text.extend_from_slice(b"\n")?;
    Ok(text)
}

/// Appends a word and a number.
fn push_number(alloc: Global, word: &str, number: u32, text: &mut Vec<u8>) -> Result<(), Memory>
    ensures { OnOk result (text.new.items ≡ text.old.items ++ numbered word.now number) }
{
    let part = format!(in alloc; "{word}{number}")?;
    text.extend_from_slice(part.as_bytes())?;
    Ok(())
}
