//! The inputs of a turn as they are kept.
ghost use Rattle.std.specs.Prelude.{◌≡◌, map, IfOk};
ghost use Rattle.std.specs.Option.{option_map_or};
ghost use Rattle.wave_coupling.specs.Posts.{newest_sample};
ghost use Rattle.participant_waves.specs.CanShow.{input_kept};
ghost use Rattle.participant_waves.specs.TakenWaves.{with_waves};
ghost use Rattle.participant_words.specs.Begun.{newest_input_time};

use core_sides::Input;
use fixed_num::Memory;
use participant_waves::KeptInput;
use std::alloc::Global;
use waveform::Wave;

/// The turns that the newest samples of the inputs come from.
pub fn sources_of(alloc: Global, inputs: &[Input]) -> Result<Vec<(u32, u32)>, Memory>
    ensures { IfOk result (λ sources. sources.items ≡ map (λ input. (input.source_window, input.source_iteration)) inputs.now) }
{
    let mut sources = Vec::with_capacity(alloc, inputs.len())?;
    for input in inputs {
        sources.push((input.source_window, input.source_iteration))?;
    }
    Ok(sources)
}

/// The inputs with the waves that are read, as they are kept.
pub fn kept_inputs(
    alloc: Global,
    inputs: &[Input],
    waves: Vec<Wave>,
) -> Result<Vec<KeptInput>, Memory>
    ensures { IfOk result (λ kept. map input_kept kept.items ≡ with_waves inputs.now waves.items) }
{
    let mut kept = Vec::with_capacity(alloc, inputs.len())?;
    let mut rest = waves.into_iter();
    for i in 0..inputs.len() {
        match rest.next() {
            Some(wave) => kept.push(kept_input(&inputs[i], wave))?,
            None => return Ok(kept),
        }
    }
    Ok(kept)
}

/// An input with the wave that is read.
fn kept_input(input: &Input, wave: Wave) -> KeptInput
    ensures { result ≡ record { source_window = input.now.source_window; source_iteration = input.now.source_iteration; wave = wave } }
{
    KeptInput {
        source_window: input.source_window,
        source_iteration: input.source_iteration,
        wave,
    }
}

/// When the newest of the inputs ends; 0 where there is none.
pub fn newest_time(inputs: &[Input]) -> u64
    ensures { result ≡ newest_input_time inputs.now }
{
    if inputs.is_empty() {
        0
    } else {
        last_time(&inputs[0].wave)
    }
}

/// The time of a wave's newest sample.
fn last_time(wave: &Wave) -> u64
    ensures { option_map_or (λ sample. sample.time) (newest_sample wave.now) 0 ≡ result }
{
    wave.time(wave.len() - 1)
}
