ghost use Rattle.std.specs.Prelude.{◌≡◌, ◌⊎◌, ◌<◌, ◌≤◌, length, slice_get, sum_by, All, OnOk, IfOk, IfErr, [], ◌∷◌, ◌++◌};
ghost use Rattle.waveform.specs.IsWave.{IsWave, first_time, last_time};
ghost use Rattle.waveform.specs.WaveValue.{read as read_values};
ghost use Rattle.waveform.specs.Shape.{IsLike};
ghost use Rattle.waveform.specs.declared.sample.Sample.{Sample};
ghost use Rattle.waveform.specs.declared.wave.TheConstants.{MOST_SAMPLES};
ghost use Rattle.acceleration.specs.Exchanged.{exchange_of, exchanged, CanRelax};
ghost use Rattle.acceleration.specs.Residual.{width};
ghost use Rattle.acceleration.specs.RelaxedWaves.{relaxed_values, relaxed_wave, relaxed_waves};
ghost use Rattle.acceleration.specs.Outside.{first_outside, located, located_wave, located_sample, located_values};
ghost use Rattle.acceleration.specs.Causes.{Tells};

use crate::error::AccErr;
use crate::residual::width;
use crate::values::{Step, relaxed_values};
use fixed_num::{Factor, Items, Memory};
use std::alloc::Global;
use waveform::{Field, Sample, Wave};

/// The relaxed waves by a factor, one per exchange, or where the first value is that is out of range.
pub(crate) fn relaxed_waves(
    alloc: Global,
    factor: Factor,
    degrees: &[u32],
    read: &[Wave],
    posted: &[Wave],
) -> Result<Vec<Wave>, AccErr>
    requires one_degree { length degrees.now ≡ length posted.now }
    requires one_read { length read.now ≡ length posted.now }
    requires few_exchanges { length posted.now ≤ 256 }
    requires few_values { sum_by width posted.now ≤ 200000 }
    requires exchanges { All CanRelax (exchanged degrees.now read.now posted.now) }
    ensures waves { IfOk result (λ waves. waves.items
        ≡ relaxed_waves factor (exchanged degrees.now read.now posted.now)) }
    ensures inside { OnOk result (first_outside
        (located (relaxed_waves factor (exchanged degrees.now read.now posted.now))) ≡ None) }
    ensures outside { IfErr result (Tells (first_outside
        (located (relaxed_waves factor (exchanged degrees.now read.now posted.now))))) }
{
    let mut waves = Vec::with_capacity(alloc, posted.len())?;
    for i in 0..posted.len() {
        let step = Step {
            place: i as u32,
            degree: degrees[i],
            factor,
        };
        waves.push(relaxed_wave(alloc, &step, &read[i], &posted[i])?)?;
    }
    Ok(waves)
}

/// The relaxed wave of one exchange.
fn relaxed_wave(alloc: Global, step: &Step, read: &Wave, posted: &Wave) -> Result<Wave, AccErr>
    requires exchange { CanRelax (exchange_of step.now.degree read.now posted.now) }
    requires few { width posted.now ≤ 200000 }
    ensures wave { IfOk result (λ wave. wave
        ≡ relaxed_wave step.now.factor (exchange_of step.now.degree read.now posted.now)) }
    ensures inside { OnOk result (first_outside (located_wave step.now.place
        (relaxed_wave step.now.factor (exchange_of step.now.degree read.now posted.now))) ≡ None) }
    ensures outside { IfErr result (Tells (first_outside (located_wave step.now.place
        (relaxed_wave step.now.factor (exchange_of step.now.degree read.now posted.now))))) }
{
    let count = posted.len();
    let mut room = vec![in alloc; 0; width(posted)]?;
    let first = relaxed_sample(alloc, step, read, posted, 0, &mut room)?;
    let mut wave = wave_of(alloc, first)?;
    for i in 1..count {
        let sample = relaxed_sample(alloc, step, read, posted, i, &mut room)?;
        push_sample(&mut wave, sample)?;
    }
    Ok(wave)
}

/// Sample `i` of the relaxed wave. `room` is for what was read at its time.
fn relaxed_sample(
    alloc: Global,
    step: &Step,
    read: &Wave,
    posted: &Wave,
    i: usize,
    room: &mut [i64],
) -> Result<Sample, AccErr>
    requires exchange { CanRelax (exchange_of step.now.degree read.now posted.now) }
    requires wave { IsWave posted.now }
    requires inside { i < length posted.now }
    requires room { length room.old ≡ width posted.now }
    requires few { width posted.now ≤ 200000 }
    ensures sample { IfOk result (λ sample. slice_get (relaxed_wave step.now.factor
        (exchange_of step.now.degree read.now posted.now)) i ≡ Some sample) }
    ensures alike { IfOk result (λ sample. All (λ y. IsLike sample.field y.field) posted.now) }
    ensures inside { IfOk result (λ sample. first_outside (located_sample step.now.place sample) ≡ None) }
    ensures outside { (sample : Sample) → slice_get (relaxed_wave step.now.factor
        (exchange_of step.now.degree read.now posted.now)) i ≡ Some sample
        → IfErr result (Tells (first_outside (located_sample step.now.place sample))) }
{
    let time = posted.time(i);
    let field = relaxed_field(alloc, step, read, time, posted.field(i), room)?;
    Ok(Sample { time, field })
}

/// The field that was posted at a time, relaxed from what was read then. `room` is for what was read.
fn relaxed_field(
    alloc: Global,
    step: &Step,
    read: &Wave,
    time: u64,
    posted: &Field,
    room: &mut [i64],
) -> Result<Field, AccErr>
    requires degree { step.now.degree ≤ 1 }
    requires time { (length read.now ≡ 1) ⊎ ((first_time read.now ≤ time) × (time ≤ last_time read.now)) }
    requires len { All (λ s. length s.field.values ≡ length room.old) read.now }
    requires room { length posted.now.values ≡ length room.old }
    requires few { length room.old ≤ 200000 }
    ensures alike { IfOk result (λ field. IsLike field posted.now) }
    ensures values { IfOk result (λ field. field.values
        ≡ relaxed_values step.now.factor (read_values read.now step.now.degree time) posted.now.values) }
    ensures inside { OnOk result (first_outside (located_values step.now.place time
        (relaxed_values step.now.factor (read_values read.now step.now.degree time) posted.now.values)) ≡ None) }
    ensures outside { IfErr result (Tells (first_outside (located_values step.now.place time
        (relaxed_values step.now.factor (read_values read.now step.now.degree time) posted.now.values)))) }
{
    read.read_at(step.degree, time, room);
    let values = relaxed_values(alloc, step, time, room, posted.values.as_slice())?;
    Ok(Field {
        components: posted.components,
        values: Items::from_vec(values),
    })
}

/// The wave of one sample.
fn wave_of(alloc: Global, sample: Sample) -> Result<Wave, Memory>
    ensures { IfOk result (λ wave. wave ≡ sample ∷ []) }
{
    match Wave::constant(alloc, sample.time, sample.field) {
        Ok(wave) => Ok(wave),
        Err(_) => Err(Memory),
    }
}

/// Pushes a sample that can follow, so that memory alone can be wanting.
fn push_sample(wave: &mut Wave, sample: Sample) -> Result<(), Memory>
    requires later { last_time wave.old < sample.time }
    requires alike { All (λ s. IsLike s.field sample.field) wave.old }
    requires room { length wave.old < MOST_SAMPLES }
    ensures { OnOk result (wave.new ≡ wave.old ++ sample ∷ []) }
{
    match wave.push(sample.time, sample.field) {
        Ok(()) => Ok(()),
        Err(_) => Err(Memory),
    }
}
