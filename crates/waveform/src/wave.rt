ghost use Rattle.std.specs.Prelude.{◌≡◌, ◌⊎◌, ◌↔◌, ℕ, ◌+◌, ◌-◌, ◌<◌, ◌≤◌, [], ◌∷◌, ◌++◌, length, slice_get, slice_index, slice_index_or, pos, All, IsTrue, OnOk, OnErr, IfNone, IfOk, IfErr};
ghost use Rattle.fixed_num.specs.Numbers.{IsValue};
ghost use Rattle.waveform.specs.Shape.{IsLike};
ghost use Rattle.waveform.specs.IsWave.{IsWave, times, fields, value_lists, first_time, last_time};
ghost use Rattle.waveform.specs.WaveValue.{read};
ghost use Rattle.waveform.specs.Between.{IsBetween, component_of};

use crate::field::Field;
use crate::reading::write_at;
use crate::sample::Sample;
use fixed_num::{Memory, copies_of};
use std::alloc::Global;
use std::marker::Model;
use thiserror::Error;

/// The most samples of a wave: those of 1,024 steps and the one before them.
pub const MOST_SAMPLES: usize = 1_025;

/// A field over time, which contracts see as the list of its samples: at least one, with rising
/// times, all of as many values and components.
#[derive(Debug, Drop)]
pub struct Wave {
    samples: Vec<Sample>,
}

/// Why a sample was not added.
#[derive(Clone, Copy, Debug, PartialEq, Eq, Error)]
pub enum WaveErr {
    #[error("the time is not after the last sample's")]
    TimeNotAfter,
    #[error("the field has another number of values or components")]
    Length,
    #[error("the wave has as many samples as it may have")]
    TooMany,
    #[error("out of memory")]
    Memory,
}

impl Model for Wave {
    ghost use Rattle.std.specs.Prelude.{List};
    ghost use Rattle.waveform.specs.declared.sample.Sample.{Sample};
    ghost use Rattle.waveform.specs.IsWave.{IsWave};

    ghost Value = { List Sample };

    ghost view = { λ w. w.samples.items };

    ghost invariant = { λ w. IsWave w.samples.items };
}

impl Wave {
    /// The wave of one sample, which is its value at every time. The error has the field.
    pub fn constant(alloc: Global, time: u64, field: Field) -> Result<Wave, (Field, Memory)>
        ensures ok { IfOk result (λ wave. wave ≡ record { time = time; field = field } ∷ []) }
        ensures given_back { IfErr result (λ error. error.0 ≡ field) }
    {
        let mut samples = Vec::new(alloc);
        match samples.push(Sample { time, field }) {
            Ok(()) => Ok(Wave { samples }),
            Err(failed) => Err((failed.value.field, Memory)),
        }
    }

    /// Adds a sample after the last one. The error has the field, and the wave is as before.
    pub fn push(&mut self, time: u64, field: Field) -> Result<(), (WaveErr, Field)>
        ensures ok { OnOk result (self.new ≡ self.old ++ record { time = time; field = field } ∷ []) }
        ensures err { OnErr result (self.new ≡ self.old) }
        ensures given_back { IfErr result (λ error. error.1 ≡ field) }
        ensures time_not_after { (result ≡ Err (WaveErr.TimeNotAfter, field))
            ↔ (time ≤ last_time self.old) }
        ensures length { (result ≡ Err (WaveErr.Length, field))
            ↔ ((last_time self.old < time) × ¬ (All (λ s. IsLike s.field field) self.old)) }
        ensures too_many { (result ≡ Err (WaveErr.TooMany, field))
            ↔ ((last_time self.old < time) × All (λ s. IsLike s.field field) self.old
            × (length self.old ≡ MOST_SAMPLES)) }
    {
        if let Some(cause) = refusal(self.samples.as_slice(), time, &field) {
            return Err((cause, field));
        }
        match self.samples.push(Sample { time, field }) {
            Ok(()) => Ok(()),
            Err(failed) => Err((WaveErr::Memory, failed.value.field)),
        }
    }

    /// Writes the values at time `t`: a wave of one sample gives that sample; degree 0 the first
    /// sample at or after `t`; degree 1 the sample at `t`, or the line between its neighbours,
    /// rounded.
    pub fn read_at(&self, degree: u32, t: u64, out: &mut [i64])
        requires degree { degree ≤ 1 }
        requires time { (length self.now ≡ 1) ⊎ ((first_time self.now ≤ t) × (t ≤ last_time self.now)) }
        requires len { All (λ s. length s.field.values ≡ length out.old) self.now }
        ensures values { out.new ≡ read self.now degree t }
        ensures in_range { All IsValue out.new }
        // At a sample's time both degrees give that sample.
        ensures sampled { (i : ℕ) → slice_get (times self.now) i ≡ Some t
            → slice_get (value_lists self.now) i ≡ Some out.new }
        // Between two samples each component lies between theirs.
        ensures between { (i k : ℕ) → i + 1 < length self.now → k < length out.new
            → slice_index (times self.now) i ≤ t → t ≤ slice_index (times self.now) (i + 1)
            → IsBetween (component_of self.now i k) (component_of self.now (i + 1) k)
            (slice_index_or out.new k (pos 0)) }
    {
        write_at(self.samples.as_slice(), degree, t, out);
    }

    /// How many samples there are.
    pub fn len(&self) -> usize
        ensures count { result ≡ length self.now }
        ensures wave { IsWave self.now }
    {
        self.samples.len()
    }

    /// The time of sample i, from 0, in ticks.
    pub fn time(&self, i: usize) -> u64
        requires { i < length self.now }
        ensures { slice_get (times self.now) i ≡ Some result }
    {
        self.samples[i].time
    }

    /// The field of sample i, from 0.
    pub fn field(&self, i: usize) -> &Field
        requires { i < length self.now }
        ensures { slice_get (fields self.now) i ≡ Some result.now }
    {
        &self.samples[i].field
    }

    /// The newest sample; the others are given up.
    pub fn into_newest(self) -> Sample
        ensures { slice_get self (length self - 1) ≡ Some result }
    {
        let mut samples = self.samples;
        samples.pop().unwrap()
    }

    /// An equal wave in memory of its own.
    pub fn copy(&self, alloc: Global) -> Result<Wave, Memory>
        ensures { IfOk result (λ copy. copy ≡ self.now) }
    {
        Ok(Wave {
            samples: copies_of(alloc, self.samples.as_slice())?,
        })
    }
}

/// Why a wave of these samples does not take this one, but for want of memory.
fn refusal(samples: &[Sample], time: u64, field: &Field) -> Option<WaveErr>
    requires { IsWave samples.now }
    ensures time_not_after { (result ≡ Some WaveErr.TimeNotAfter) ↔ (time ≤ last_time samples.now) }
    ensures length { (result ≡ Some WaveErr.Length)
        ↔ ((last_time samples.now < time) × ¬ (All (λ s. IsLike s.field field.now) samples.now)) }
    ensures too_many { (result ≡ Some WaveErr.TooMany)
        ↔ ((last_time samples.now < time) × All (λ s. IsLike s.field field.now) samples.now
        × (length samples.now ≡ MOST_SAMPLES)) }
    ensures after { IfNone result (last_time samples.now < time) }
    ensures like { IfNone result (All (λ s. IsLike s.field field.now) samples.now) }
    ensures room { IfNone result (length samples.now < MOST_SAMPLES) }
{
    if time <= samples[samples.len() - 1].time {
        return Some(WaveErr::TimeNotAfter);
    }
    if !is_like_all(samples, field) {
        return Some(WaveErr::Length);
    }
    if samples.len() == MOST_SAMPLES {
        return Some(WaveErr::TooMany);
    }
    None
}

/// Whether a field has the shape of the fields of a wave's samples.
fn is_like_all(samples: &[Sample], field: &Field) -> bool
    requires { IsWave samples.now }
    ensures { IsTrue result ↔ All (λ s. IsLike s.field field.now) samples.now }
{
    samples[0].field.is_like(field)
}
