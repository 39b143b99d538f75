//! What an event of a coupling was answered, in short.

use core_sides::{CoreErr, Event, Input, Reply};
use cpl_plan::{Fault, PartId, Verdict};
use fixed_num::Memory;
use waveform::Field;

/// What an event was answered, in short.
#[derive(Clone, Copy, PartialEq)]
pub enum Answer {
    /// The participant has ended.
    Nothing,
    /// The event does not fit.
    Unfit,
    Posted,
    /// So many meshes.
    Meshes(usize),
    Judged(Verdict),
    Faulted(Fault),
    NoInput,
    /// The first input: its exchange, the turn that its newest sample comes from, the times of its
    /// first and its last sample, and the first value of its last.
    Input(u32, (u32, u32), (u64, u64), i64),
    Cut(PartId),
    Over,
    /// For whom it waits, and where that one stands.
    Waits(PartId, u32, u32),
}

/// An answer in short.
pub fn told(answer: Result<Reply, (CoreErr, Event)>) -> Result<Answer, Memory> {
    match answer {
        Ok(reply) => Ok(reply_told(&reply)),
        Err((error, _)) => match error {
            CoreErr::NotEnabled {
                owner,
                window,
                iteration,
            } => Ok(Answer::Waits(owner, window, iteration)),
            CoreErr::Memory => Err(Memory),
        },
    }
}

fn reply_told(reply: &Reply) -> Answer {
    match reply {
        Reply::Posted => Answer::Posted,
        Reply::Meshes(meshes) => Answer::Meshes(meshes.len()),
        Reply::Judged(verdict) => Answer::Judged(*verdict),
        Reply::Faulted(fault) => Answer::Faulted(*fault),
        Reply::Inputs(inputs) => match inputs.as_slice().first() {
            Some(input) => input_told(input),
            None => Answer::NoInput,
        },
        Reply::Cut { who } => Answer::Cut(*who),
        Reply::Over => Answer::Over,
    }
}

fn input_told(input: &Input) -> Answer {
    let last = input.wave.len() - 1;
    Answer::Input(
        input.exchange,
        (input.source_window, input.source_iteration),
        (input.wave.time(0), input.wave.time(last)),
        first_value(input.wave.field(last)),
    )
}

/// The first value of a field.
fn first_value(field: &Field) -> i64 {
    match field.values.as_slice().first() {
        Some(value) => value.get(),
        None => 0,
    }
}
