ghost use Rattle.std.specs.Prelude.{◌≡◌, ◌⊎◌, ◌<◌, ◌≤◌, length, All, IfOk};
ghost use Rattle.waveform.specs.IsWave.{first_time, last_time};

use crate::{Field, MOST_SAMPLES, Wave, WaveErr};
use fixed_num::{Items, Memory, value_of};
use std::alloc::Global;
use std::test::Fail;

/// A field of one value. No test asks for one that is out of range.
fn field_of(alloc: Global, units: i128) -> Result<Field, Memory>
    ensures { IfOk result (λ field. length field.values ≡ 1) }
{
    let mut values = Vec::new(alloc);
    if let Some(value) = value_of(units) {
        values.push(value)?;
        return Ok(Field {
            components: 1,
            values: Items::from_vec(values),
        });
    }
    Err(Memory)
}

/// A wave of two samples, the first at time 0.
fn wave_of(alloc: Global, first: i128, time: u64, last: i128) -> Result<Wave, Memory>
    requires { 0 < time }
    ensures first { IfOk result (λ wave. first_time wave ≡ 0) }
    ensures last { IfOk result (λ wave. last_time wave ≡ time) }
    ensures len { IfOk result (All (λ s. length s.field.values ≡ 1)) }
{
    let Ok(mut wave) = Wave::constant(alloc, 0, field_of(alloc, first)?) else {
        return Err(Memory);
    };
    let Ok(()) = wave.push(time, field_of(alloc, last)?) else {
        return Err(Memory);
    };
    Ok(wave)
}

/// What a wave of two samples, the first at time 0, gives at time t, which is none of a later time or of
/// a higher degree.
fn read(
    alloc: Global,
    samples: (i128, u64, i128),
    degree: u32,
    t: u64,
) -> Result<Option<i64>, Memory> {
    let (first, time, last) = samples;
    if degree > 1 || time < t || time == 0 {
        return Ok(None);
    }
    let wave = wave_of(alloc, first, time, last)?;
    let mut out = [0];
    wave.read_at(degree, t, &mut out);
    Ok(Some(out[0]))
}

#[test]
fn reads_between_samples_and_ahead(rt: HostRuntime) -> Result<(), Fail> {
    let alloc = rt.alloc();
    let cases = [
        ((0, 2, 1), 1, 1, 0),
        ((0, 2, 3), 1, 1, 2),
        ((5, 3, 7), 0, 0, 5),
        ((5, 3, 7), 0, 1, 7),
        ((5, 3, 7), 1, 3, 7),
    ];
    for (samples, degree, t, units) in cases {
        assert!(rt; read(alloc, samples, degree, t)? == Some(units), "at {t}");
    }
    Ok(())
}

/// Why a wave does not take a sample of zeros, two components each vertex.
fn refusal(
    alloc: Global,
    wave: &mut Wave,
    time: u64,
    vertices: usize,
) -> Result<Option<WaveErr>, Memory> {
    match wave.push(time, Field::zeros(alloc, vertices, 2)?) {
        Ok(()) => Ok(None),
        Err((cause, _)) => Ok(Some(cause)),
    }
}

/// A wave of so many samples of zeros, one vertex each, at the times from 0.
fn zeros(alloc: Global, count: u64) -> Result<Wave, Memory> {
    let Ok(mut wave) = Wave::constant(alloc, 0, Field::zeros(alloc, 1, 2)?) else {
        return Err(Memory);
    };
    for time in 1..count {
        refusal(alloc, &mut wave, time, 1)?;
    }
    Ok(wave)
}

#[test]
fn refuses_what_does_not_follow(rt: HostRuntime) -> Result<(), Fail> {
    let alloc = rt.alloc();
    let mut wave = zeros(alloc, 1_024)?;
    let cases = [
        (1_023, 1, Some(WaveErr::TimeNotAfter)),
        (1_023, 2, Some(WaveErr::TimeNotAfter)),
        (1_024, 2, Some(WaveErr::Length)),
        (1_024, 1, None),
        (1_025, 1, Some(WaveErr::TooMany)),
    ];
    for (time, vertices, cause) in cases {
        assert!(rt;
            refusal(alloc, &mut wave, time, vertices)? == cause,
            "at {time}"
        );
    }
    assert!(rt; wave.copy(alloc)?.len() == MOST_SAMPLES);
    Ok(())
}

#[test]
fn fields_are_zeros_first_and_copied_whole(rt: HostRuntime) -> Result<(), Fail> {
    let alloc = rt.alloc();
    let copy = Field::zeros(alloc, 4, 3)?.copy(alloc)?;
    assert!(rt; copy.components == 3);
    assert!(rt; copy.values.len() == 12);
    Ok(())
}
