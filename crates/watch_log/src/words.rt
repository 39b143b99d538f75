//! The words of which lines are put together.

ghost use Rattle.std.specs.Prelude.{◌≡◌, ◌<◌, ◌++◌, length, pos, OnOk};
ghost use Rattle.std.specs.List.{flat_map};
ghost use Rattle.watch_log.specs.Words.{numbered, counted, turn_text, participant_name, value_part};

use cpl_plan::Plan;
use fixed_num::Memory;
use line_text::print_value;
use plan_order::PartId;
use std::alloc::Global;

/// Appends a word and a number.
pub(crate) fn push_number(
    alloc: Global,
    word: &str,
    number: u64,
    text: &mut Vec<u8>,
) -> Result<(), Memory>
    ensures { OnOk result (text.new.items ≡ text.old.items ++ numbered word.now number) }
{
    let part = format!(in alloc; "{word}{number}")?;
    text.extend_from_slice(part.as_bytes())?;
    Ok(())
}

/// Appends a word and a number that counts from 1, of a place from 0.
pub(crate) fn push_counted(
    alloc: Global,
    word: &str,
    place: u32,
    text: &mut Vec<u8>,
) -> Result<(), Memory>
    ensures { OnOk result (text.new.items ≡ text.old.items ++ counted word.now place) }
{
    push_number(alloc, word, u64::from(place) + 1, text)
}

/// Appends a word.
pub(crate) fn push_word(word: &str, text: &mut Vec<u8>) -> Result<(), Memory>
    ensures { OnOk result (text.new.items ≡ text.old.items ++ word.now) }
{
    text.extend_from_slice(word.as_bytes())?;
    Ok(())
}

/// Appends a window and an iteration.
pub(crate) fn push_turn(
    alloc: Global,
    window: u32,
    iteration: u32,
    text: &mut Vec<u8>,
) -> Result<(), Memory>
    ensures { OnOk result (text.new.items ≡ text.old.items ++ turn_text window iteration) }
{
    let turn = format!(in alloc; " window {window} iteration {iteration}")?;
    text.extend_from_slice(turn.as_bytes())?;
    Ok(())
}

/// Appends a participant's name.
pub(crate) fn push_participant(plan: &Plan, p: PartId, text: &mut Vec<u8>) -> Result<(), Memory>
    requires { p < length plan.now.parts }
    ensures { OnOk result (text.new.items ≡ text.old.items ++ participant_name plan.now p) }
{
    push_word(plan.part(p).name.as_str(), text)?;
    Ok(())
}

/// Appends each value, after a blank.
pub(crate) fn push_values(alloc: Global, values: &[i64], text: &mut Vec<u8>) -> Result<(), Memory>
    ensures { OnOk result (text.new.items ≡ text.old.items ++ flat_map value_part values.now) }
{
    for value in values {
        text.push(b' ')?;
        print_value(alloc, i128::from(*value), text)?;
    }
    Ok(())
}

/// Appends each norm, after a blank.
pub(crate) fn push_norms(alloc: Global, norms: &[u64], text: &mut Vec<u8>) -> Result<(), Memory>
    ensures { OnOk result (text.new.items ≡ text.old.items ++ flat_map (λ norm. value_part (pos norm)) norms.now) }
{
    for norm in norms {
        text.push(b' ')?;
        print_value(alloc, i128::from(*norm), text)?;
    }
    Ok(())
}
