//! Waves that begin with the values at a window's start.

ghost use Rattle.std.specs.Prelude.{◌≡◌, ◌<◌, ◌∷◌, ◌++◌, [], length, All, IfOk, OnOk};
ghost use Rattle.waveform.specs.IsWave.{first_time, last_time};
ghost use Rattle.waveform.specs.Shape.{IsLike};
ghost use Rattle.waveform.specs.declared.wave.TheConstants.{MOST_SAMPLES};

use fixed_num::Memory;
use std::alloc::Global;
use waveform::{Field, Wave};

/// The wave of a field at one time, in memory of its own.
pub fn constant_at(alloc: Global, time: u64, field: &Field) -> Result<Wave, Memory>
    ensures { IfOk result (λ wave. wave ≡ record { time = time; field = field.now } ∷ []) }
{
    match Wave::constant(alloc, time, field.copy(alloc)?) {
        Ok(wave) => Ok(wave),
        Err(_) => Err(Memory),
    }
}

/// The wave of a field at a time, and then the samples of another, in memory of its own.
pub fn led_by(alloc: Global, time: u64, field: &Field, rest: &Wave) -> Result<Wave, Memory>
    requires later { time < first_time rest.now }
    requires alike { All (λ s. IsLike field.now s.field) rest.now }
    requires few { length rest.now < MOST_SAMPLES }
    ensures { IfOk result (λ wave. wave ≡ record { time = time; field = field.now } ∷ rest.now) }
{
    let mut wave = constant_at(alloc, time, field)?;
    for i in 0..rest.len() {
        push_sample(&mut wave, rest.time(i), rest.field(i).copy(alloc)?)?;
    }
    Ok(wave)
}

/// Pushes a sample that can follow, so that memory alone can be wanting.
fn push_sample(wave: &mut Wave, time: u64, field: Field) -> Result<(), Memory>
    requires later { last_time wave.old < time }
    requires alike { All (λ s. IsLike s.field field) wave.old }
    requires room { length wave.old < MOST_SAMPLES }
    ensures { OnOk result (wave.new ≡ wave.old ++ record { time = time; field = field } ∷ []) }
{
    match wave.push(time, field) {
        Ok(()) => Ok(()),
        Err(_) => Err(Memory),
    }
}
