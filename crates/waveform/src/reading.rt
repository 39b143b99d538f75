ghost use Rattle.std.specs.Prelude.{◌≡◌, ◌⊎◌, ◌<◌, ◌≤◌, length, All};
ghost use Rattle.std.specs.List.{AllWithin};
ghost use Rattle.fixed_num.specs.Numbers.{IsValue};
ghost use Rattle.waveform.specs.IsWave.{IsWave, first_time, last_time};
ghost use Rattle.waveform.specs.WaveValue.{read};

use crate::field::Field;
use crate::line::write_between;
use crate::sample::Sample;

/// Writes the values of a wave at time `t`.
pub(crate) fn write_at(samples: &[Sample], degree: u32, t: u64, out: &mut [i64])
    requires wave { IsWave samples.now }
    requires degree { degree ≤ 1 }
    requires time { (length samples.now ≡ 1)
        ⊎ ((first_time samples.now ≤ t) × (t ≤ last_time samples.now)) }
    requires len { All (λ s. length s.field.values ≡ length out.old) samples.now }
    ensures values { out.new ≡ read samples.now degree t }
    ensures in_range { All IsValue out.new }
{
    if samples.len() == 1 {
        return write_values(&samples[0].field, out);
    }
    let next = next_sample(samples, t);
    let after = &samples[next];
    if degree == 0 {
        return write_values(&after.field, out);
    }
    if after.time == t {
        return write_values(&after.field, out);
    }
    write_between(&samples[next - 1], after, t, out);
}

/// Where the first sample at or after `t` is.
fn next_sample(samples: &[Sample], t: u64) -> usize
    requires wave { IsWave samples.now }
    requires time { t ≤ last_time samples.now }
    ensures inside { result < length samples.now }
    ensures before { AllWithin (λ s. s.time < t) samples.now 0 result }
    ensures later { AllWithin (λ s. t ≤ s.time) samples.now result (length samples.now) }
{
    samples.partition_point(|sample| sample.time < t)
}

/// Writes the values of a field.
fn write_values(field: &Field, out: &mut [i64])
    requires { length field.now.values ≡ length out.old }
    ensures values { out.new ≡ field.now.values }
    ensures in_range { All IsValue out.new }
{
    let values = field.values.as_slice();
    for i in 0..out.len() {
        out[i] = values[i].get();
    }
}
