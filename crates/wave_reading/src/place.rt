ghost use Rattle.std.specs.Prelude.{◌≡◌, ◌⊎◌, ◌<◌, ◌≤◌, length};
ghost use Rattle.std.specs.List.{AllWithin};
ghost use Rattle.waveform.specs.IsWave.{first_time, last_time};
ghost use Rattle.waveform.specs.WaveValue.{read};
ghost use Rattle.wave_reading.specs.Places.{IsPlaceIn, values_at};

use waveform::Wave;

/// What is read at a time: a sample, or the line from the sample before it to it.
#[derive(Clone, Copy, Debug, PartialEq, Eq)]
pub enum Place {
    At(usize),
    LineTo(usize),
}

/// Where a wave is read at time `t`.
pub fn place_of(wave: &Wave, degree: u32, t: u64) -> Place
    requires degree { degree ≤ 1 }
    requires time { (length wave.now ≡ 1) ⊎ ((first_time wave.now ≤ t) × (t ≤ last_time wave.now)) }
    ensures values { read wave.now degree t ≡ values_at wave.now t result }
    ensures inside { IsPlaceIn wave.now t result }
{
    if wave.len() == 1 {
        return Place::At(0);
    }
    let next = next_sample(wave, t);
    if degree == 0 {
        return Place::At(next);
    }
    if wave.time(next) == t {
        return Place::At(next);
    }
    Place::LineTo(next)
}

/// Where the first sample at or after `t` is.
fn next_sample(wave: &Wave, t: u64) -> usize
    requires time { t ≤ last_time wave.now }
    ensures inside { result < length wave.now }
    ensures before { AllWithin (λ s. s.time < t) wave.now 0 result }
    ensures later { AllWithin (λ s. t ≤ s.time) wave.now result (length wave.now) }
{
    let last = wave.len() - 1;
    for i in 0..last {
        if t <= wave.time(i) {
            return i;
        }
    }
    last
}
