ghost use Rattle.std.specs.Prelude.{◌≡◌, ◌⊎◌, ◌*◌, ◌+◌, ◌-◌, ◌<◌, ◌≤◌, ◌-ℤ◌, ◌*ℤ◌, pos, length, take, drop, All};
ghost use Rattle.fixed_num.specs.Numbers.{IsValue};
ghost use Rattle.waveform.specs.IsWave.{first_time, last_time};
ghost use Rattle.waveform.specs.WaveValue.{read, component_between};
ghost use Rattle.wave_reading.specs.Places.{IsPlaceIn, values_at, line_values};
ghost use Rattle.field_buffers.specs.Rows.{HasRow, rows_of};

use crate::place::{Place, place_of};
use fixed_num::{Value, quot_even};
use waveform::Wave;

/// Reads at time `t` the rows of some vertices, one after another, of a wave with so many components at
/// each vertex. It takes no memory.
pub fn read_rows(
    wave: &Wave,
    components: u32,
    degree: u32,
    t: u64,
    vertices: &[u32],
    out: &mut [i64],
)
    requires degree { degree ≤ 1 }
    requires time { (length wave.now ≡ 1) ⊎ ((first_time wave.now ≤ t) × (t ≤ last_time wave.now)) }
    requires vertices { All (λ s. All (HasRow components s.field.values) vertices.now) wave.now }
    requires len { length out.old ≡ length vertices.now * components }
    ensures { out.new ≡ rows_of components vertices.now (read wave.now degree t) }
{
    let place = place_of(wave, degree, t);
    let row = components as usize;
    for i in 0..vertices.len() {
        let from = vertices[i] as usize * row;
        let to = i * row;
        read_row(wave, place, t, from, &mut out[to..to + row]);
    }
}

/// Reads as many values as there is room for, from one of those at a place on.
fn read_row(wave: &Wave, place: Place, t: u64, from: usize, out: &mut [i64])
    requires place { IsPlaceIn wave.now t place }
    requires room { All (λ s. from + length out.old ≤ length s.field.values) wave.now }
    ensures { out.new ≡ take (length out.old) (drop from (values_at wave.now t place)) }
{
    match place {
        Place::At(i) => copy_row(
            row_from(wave.field(i).values.as_slice(), from, out.len()),
            out,
        ),
        Place::LineTo(i) => {
            let span = Span {
                start: wave.time(i - 1),
                end: wave.time(i),
                t,
            };
            let first = row_from(wave.field(i - 1).values.as_slice(), from, out.len());
            let last = row_from(wave.field(i).values.as_slice(), from, out.len());
            write_line(span, first, last, out);
        }
    }
}

/// So many values from one of them on.
fn row_from(values: &[Value], from: usize, count: usize) -> &[Value]
    requires { from + count ≤ length values.now }
    ensures row { result.now ≡ take count (drop from values.now) }
    ensures len { length result.now ≡ count }
{
    &values[from..from + count]
}

/// A time between two others.
#[derive(Clone, Copy)]
struct Span {
    start: u64,
    end: u64,
    t: u64,
}

fn copy_row(values: &[Value], out: &mut [i64])
    requires { length values.now ≡ length out.old }
    ensures { out.new ≡ values.now }
{
    for i in 0..out.len() {
        out[i] = values[i].get();
    }
}

/// Writes the values on the lines between two rows.
fn write_line(span: Span, first: &[Value], last: &[Value], out: &mut [i64])
    requires after_start { span.start < span.t }
    requires before_end { span.t < span.end }
    requires first_len { length first.now ≡ length out.old }
    requires last_len { length last.now ≡ length out.old }
    ensures { out.new ≡ line_values span.start span.end span.t first.now last.now }
{
    for i in 0..out.len() {
        out[i] = component_between(span, first[i].get(), last[i].get());
    }
}

/// The component on the line from `v0` to `v1`.
fn component_between(span: Span, v0: i64, v1: i64) -> i64
    requires after_start { span.start < span.t }
    requires before_end { span.t < span.end }
    requires first { IsValue v0 }
    requires last { IsValue v1 }
    ensures component { result ≡ component_between span.start span.end span.t v0 v1 }
    ensures in_range { IsValue result }
{
    v0 + quot_even(
        gain(v0, v1, span.t - span.start),
        i128::from(span.end - span.start),
    ) as i64
}

/// The change from `v0` to `v1` times the ticks that are over: below 2·10^13 times 2^64.
fn gain(v0: i64, v1: i64, over: u64) -> i128
    requires first { IsValue v0 }
    requires last { IsValue v1 }
    ensures { result ≡ (v1 -ℤ v0) *ℤ pos over }
{
    i128::from(v1 - v0) * i128::from(over)
}
