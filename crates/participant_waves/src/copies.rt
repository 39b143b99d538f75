ghost use Rattle.std.specs.Prelude.{◌≡◌, ◌≤◌, [], ◌∷◌, length, IfOk};
ghost use Rattle.participant_waves.specs.SentWaves.{chosen};

use fixed_num::Memory;
use std::alloc::Global;
use waveform::{Field, Sample, Wave};

/// The samples of a turn as a wave: all of them, or the last one alone.
pub(crate) fn chosen_wave(alloc: Global, substeps: bool, samples: &[Sample]) -> Result<Wave, Memory>
    requires { 1 ≤ length samples.now }
    ensures { IfOk result (λ wave. wave ≡ chosen substeps samples.now) }
{
    let wave = if substeps {
        wave_of(alloc, samples)?
    } else {
        wave_of(alloc, &samples[samples.len() - 1..])?
    };
    Ok(wave)
}

/// Samples as a wave, in memory of its own. Where they are none, as their times do not rise, this is told
/// as `Memory`.
fn wave_of(alloc: Global, samples: &[Sample]) -> Result<Wave, Memory>
    requires { 1 ≤ length samples.now }
    ensures { IfOk result (λ wave. wave ≡ samples.now) }
{
    let mut wave = constant(alloc, samples[0].time, samples[0].field.copy(alloc)?)?;
    for i in 1..samples.len() {
        let field = samples[i].field.copy(alloc)?;
        if wave.push(samples[i].time, field).is_err() {
            return Err(Memory);
        }
    }
    Ok(wave)
}

/// The wave of one sample.
pub(crate) fn constant(alloc: Global, time: u64, field: Field) -> Result<Wave, Memory>
    ensures { IfOk result (λ wave. wave ≡ record { time = time; field = field } ∷ []) }
{
    match Wave::constant(alloc, time, field) {
        Ok(wave) => Ok(wave),
        Err(_) => Err(Memory),
    }
}
