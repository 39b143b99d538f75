ghost use Rattle.std.specs.Prelude.{◌≡◌, ◌<◌, ◌-ℤ◌, ◌*ℤ◌, pos, length, All};
ghost use Rattle.fixed_num.specs.Numbers.{IsValue};
ghost use Rattle.waveform.specs.WaveValue.{component_between, values_between};

use crate::sample::Sample;
use fixed_num::quot_even;

/// Writes the values at `t` on the lines between two samples.
pub(crate) fn write_between(before: &Sample, after: &Sample, t: u64, out: &mut [i64])
    requires after_first { before.now.time < t }
    requires before_last { t < after.now.time }
    requires first_len { length before.now.field.values ≡ length out.old }
    requires last_len { length after.now.field.values ≡ length out.old }
    ensures values { out.new ≡ values_between before.now after.now t }
    ensures in_range { All IsValue out.new }
{
    let first = before.field.values.as_slice();
    let last = after.field.values.as_slice();
    for i in 0..out.len() {
        out[i] = component_between(before.time, after.time, t, first[i].get(), last[i].get());
    }
}

/// The component at `t` on the line from `v0` at `s0` to `v1` at `s1`.
fn component_between(s0: u64, s1: u64, t: u64, v0: i64, v1: i64) -> i64
    requires after_first { s0 < t }
    requires before_last { t < s1 }
    requires first { IsValue v0 }
    requires last { IsValue v1 }
    ensures component { result ≡ component_between s0 s1 t v0 v1 }
    ensures in_range { IsValue result }
{
    v0 + quot_even(gain(v0, v1, t - s0), i128::from(s1 - s0)) as i64
}

/// The change from `v0` to `v1` times the ticks that are over: below 2·10^13 times 2^64.
fn gain(v0: i64, v1: i64, over: u64) -> i128
    requires first { IsValue v0 }
    requires last { IsValue v1 }
    ensures { result ≡ (v1 -ℤ v0) *ℤ pos over }
{
    i128::from(v1 - v0) * i128::from(over)
}
