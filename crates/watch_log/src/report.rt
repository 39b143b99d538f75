//! The report of a run.

ghost use Rattle.std.specs.Prelude.{◌≡◌, ◌<◌, ◌≤◌, ◌++◌, length, map, All, IfOk, OnOk};
ghost use Rattle.std.specs.List.{flat_map};
ghost use Rattle.watch_log.specs.ReportText.{coupled_line, verdict_word, iteration_line, watch_line, participant_line, participants_text, report_text};
ghost use Rattle.watch_log.specs.Told.{IsRowOf};

use crate::watches::push_row;
use crate::words::{
    push_counted, push_norms, push_number, push_participant, push_values, push_word,
};
use cpl_plan::{IterLine, Plan, Verdict, WatchRow};
use fixed_num::Memory;
use plan_order::PartId;
use std::alloc::Global;

/// The report of a run, in memory of its own.
///
/// `ends` are the ends of the windows that all participants have completed, in order. `lines` and
/// `watches` stand as they are printed. `steps` and `states` have one entry for each participant.
pub fn report_of(
    alloc: Global,
    plan: &Plan,
    ends: &[u64],
    lines: &[IterLine],
    watches: &[WatchRow],
    steps: &[u64],
    states: &[Vec<i64>],
) -> Result<Vec<u8>, Memory>
    requires some { 1 ≤ length ends.now }
    requires rows { All (IsRowOf plan.now (length ends.now)) watches.now }
    requires steps { length steps.now ≡ length plan.now.parts }
    requires states { length states.now ≡ length plan.now.parts }
    ensures { IfOk result (λ text. text.items ≡ report_text plan.now ends.now lines.now watches.now steps.now (map (λ state. state.items) states.now)) }
{
    let mut text = Vec::new(alloc);
    push_coupled(alloc, ends, &mut text)?;
    push_lines(alloc, lines, &mut text)?;
    push_rows(alloc, plan, ends, watches, &mut text)?;
    push_participants(alloc, plan, steps, states, &mut text)?;
    Ok(text)
}

/// Appends how far the run came.
#[tactic(auto, unfolding(crate::specs::ReportText::coupled_line))]
fn push_coupled(alloc: Global, ends: &[u64], text: &mut Vec<u8>) -> Result<(), Memory>
    requires { 1 ≤ length ends.now }
    ensures { OnOk result (text.new.items ≡ text.old.items ++ coupled_line ends.now) }
{
    push_number(alloc, "coupled ", ends.len() as u64, text)?;
    push_number(alloc, " windows to ", ends[ends.len() - 1], text)?;
    text.push(b'\n')?;
    Ok(())
}

/// Appends a line for each judged iteration.
fn push_lines(alloc: Global, lines: &[IterLine], text: &mut Vec<u8>) -> Result<(), Memory>
    ensures { OnOk result (text.new.items ≡ text.old.items ++ flat_map iteration_line lines.now) }
{
    for line in lines {
        push_line(alloc, line, text)?;
    }
    Ok(())
}

#[tactic(auto, unfolding(crate::specs::ReportText::iteration_line))]
fn push_line(alloc: Global, line: &IterLine, text: &mut Vec<u8>) -> Result<(), Memory>
    ensures { OnOk result (text.new.items ≡ text.old.items ++ iteration_line line.now) }
{
    push_number(alloc, "iteration ", u64::from(line.window), text)?;
    push_counted(alloc, " ", line.scheme, text)?;
    push_number(alloc, " ", u64::from(line.iteration), text)?;
    push_verdict(line.verdict, text)?;
    push_norms(alloc, line.norms.as_slice(), text)?;
    text.push(b'\n')?;
    Ok(())
}

fn push_verdict(verdict: Verdict, text: &mut Vec<u8>) -> Result<(), Memory>
    ensures { OnOk result (text.new.items ≡ text.old.items ++ verdict_word verdict) }
{
    match verdict {
        Verdict::Again => push_word(" again", text),
        Verdict::Converged => push_word(" converged", text),
        Verdict::AtLimit => push_word(" limit", text),
        Verdict::NotConverged { .. } => push_word(" not converged", text),
    }
}

/// Appends a line for each row of the watch-points.
fn push_rows(
    alloc: Global,
    plan: &Plan,
    ends: &[u64],
    rows: &[WatchRow],
    text: &mut Vec<u8>,
) -> Result<(), Memory>
    requires { All (IsRowOf plan.now (length ends.now)) rows.now }
    ensures { OnOk result (text.new.items ≡ text.old.items ++ flat_map (watch_line plan.now ends.now) rows.now) }
{
    for row in rows {
        push_row(alloc, plan, ends, row, text)?;
    }
    Ok(())
}

/// Appends a line for each participant.
#[tactic(auto, using(crate::proofs::Participants::none_left))]
fn push_participants(
    alloc: Global,
    plan: &Plan,
    steps: &[u64],
    states: &[Vec<i64>],
    text: &mut Vec<u8>,
) -> Result<(), Memory>
    requires steps { length steps.now ≡ length plan.now.parts }
    requires states { length states.now ≡ length plan.now.parts }
    ensures { OnOk result (text.new.items
        ≡ text.old.items ++ participants_text plan.now 0 steps.now (map (λ state. state.items) states.now)) }
{
    for p in 0..plan.part_count() {
        let made = &steps[p as usize];
        let state = &states[p as usize];
        push_participant_line(alloc, plan, p, *made, state.as_slice(), text)?;
    }
    Ok(())
}

fn push_participant_line(
    alloc: Global,
    plan: &Plan,
    p: PartId,
    steps: u64,
    state: &[i64],
    text: &mut Vec<u8>,
) -> Result<(), Memory>
    requires { p < length plan.now.parts }
    ensures { OnOk result (text.new.items ≡ text.old.items ++ participant_line plan.now p steps state.now) }
{
    push_word("participant ", text)?;
    push_participant(plan, p, text)?;
    push_number(alloc, " steps ", steps, text)?;
    push_word(" state", text)?;
    push_values(alloc, state, text)?;
    text.push(b'\n')?;
    Ok(())
}
