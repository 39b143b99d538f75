//! Waves: whether each sample has the lengths of an exchange, and whether they stand in a window.
//! Times are in ticks.

ghost use Rattle.std.specs.Prelude.{◌≡◌, ◌<◌, ◌≤◌, All, IsTrue, length};
ghost use Rattle.fixed_num.specs.Numbers.{IsValue};
ghost use Rattle.waveform.specs.IsWave.{IsWave, last_time};
ghost use Rattle.event_fits.specs.Shapes.{IsOfLengths};

use fixed_num::Value;
use waveform::{Field, Wave};

/// How many components each vertex has, and how many values there are.
#[derive(Clone, Copy)]
pub(crate) struct Lengths {
    pub components: u32,
    pub values: u64,
}

/// Whether each sample of a wave has these lengths.
pub(crate) fn is_of_lengths(wave: &Wave, lengths: Lengths) -> bool
    ensures lengths { IsTrue result → All (IsOfLengths lengths.components lengths.values) wave.now }
    ensures wave { IsWave wave.now }
{
    for i in 0..wave.len() {
        if !has_lengths(wave.field(i), lengths) {
            return false;
        }
    }
    true
}

/// Whether a field has these lengths.
fn has_lengths(field: &Field, lengths: Lengths) -> bool
    ensures components { IsTrue result → field.now.components ≡ lengths.components }
    ensures values { IsTrue result → length field.now.values ≡ lengths.values }
    ensures in_range { All IsValue field.now.values }
{
    let count = values_in(field.values.as_slice());
    field.components == lengths.components && count == lengths.values
}

/// How many values there are, each of which is in range.
fn values_in(values: &[Value]) -> u64
    ensures count { result ≡ length values.now }
    ensures in_range { All IsValue values.now }
{
    let mut count = 0;
    for i in 0..values.len() {
        let _units = values[i].get();
        count += 1;
    }
    count
}

/// Whether a wave has one sample, at time 0.
pub(crate) fn stands_at_0(wave: &Wave) -> bool
    ensures one { IsTrue result → length wave.now ≡ 1 }
    ensures start { IsTrue result → All (λ s. s.time ≡ 0) wave.now }
{
    wave.len() == 1 && wave.time(0) == 0
}

/// Whether all samples stand after a time.
pub(crate) fn stands_after(wave: &Wave, start: u64) -> bool
    ensures { IsTrue result → All (λ s. start < s.time) wave.now }
{
    for i in 0..wave.len() {
        if wave.time(i) <= start {
            return false;
        }
    }
    true
}

/// The time of a wave's last sample.
pub(crate) fn last_time(wave: &Wave) -> u64
    ensures { result ≡ last_time wave.now }
{
    wave.time(wave.len() - 1)
}
