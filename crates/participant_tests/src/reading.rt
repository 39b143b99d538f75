use crate::samples::{field_on, wave_on};
use field_buffers::first_bad_vertex;
use fixed_num::Memory;
use std::alloc::Global;
use std::test::Fail;
use wave_reading::{Place, place_of, read_rows};
use waveform::Wave;

const FIRST: [i128; 4] = [0, 0, 5, -1];

const LAST: [i128; 4] = [1, 3, 7, -4];

/// What two vertices read of a wave of two vectors on two vertices, the first sample at time 0. No test
/// asks for another vertex, a later time or a higher degree.
fn read(
    alloc: Global,
    time: u64,
    degree: u32,
    t: u64,
    vertices: [u32; 2],
) -> Result<(Place, [i64; 4]), Memory> {
    if time == 0 || degree > 1 || time < t || first_bad_vertex(&vertices, 2).is_some() {
        return Err(Memory);
    }
    let wave = wave_on(alloc, 2, 2, &FIRST, time, &LAST)?;
    let mut out = [9; 4];
    read_rows(&wave, 2, degree, t, &vertices, &mut out);
    Ok((place_of(&wave, degree, t), out))
}

#[test]
fn rows_are_read_between_two_samples(rt: HostRuntime) -> Result<(), Fail> {
    let alloc = rt.alloc();
    let cases = [
        // Half way: halves go to the even number.
        (2, 1, 1, [0, 1], Place::LineTo(1), [0, 2, 6, -3]),
        (2, 1, 1, [1, 0], Place::LineTo(1), [6, -3, 0, 2]),
        (2, 1, 1, [0, 0], Place::LineTo(1), [0, 2, 0, 2]),
        // A third and two thirds of the way.
        (3, 1, 1, [0, 1], Place::LineTo(1), [0, 1, 6, -2]),
        (3, 1, 2, [0, 1], Place::LineTo(1), [1, 2, 6, -3]),
        // At the samples, and by degree 0.
        (3, 1, 0, [0, 1], Place::At(0), [0, 0, 5, -1]),
        (3, 1, 3, [1, 0], Place::At(1), [7, -4, 1, 3]),
        (3, 0, 0, [0, 1], Place::At(0), [0, 0, 5, -1]),
        (3, 0, 1, [0, 1], Place::At(1), [1, 3, 7, -4]),
        (3, 0, 3, [1, 1], Place::At(1), [7, -4, 7, -4]),
    ];
    for (time, degree, t, vertices, place, units) in cases {
        assert!(rt;
            read(alloc, time, degree, t, vertices)? == (place, units),
            "at {t}"
        );
    }
    Ok(())
}

/// What the vertex of a wave of one sample reads at time t.
fn read_single(alloc: Global, t: u64) -> Result<(Place, [i64; 1]), Memory> {
    let Ok(wave) = Wave::constant(alloc, 10, field_on(alloc, 1, 1, &[7])?) else {
        return Err(Memory);
    };
    let mut out = [9];
    read_rows(&wave, 1, 1, t, &[0], &mut out);
    Ok((place_of(&wave, 1, t), out))
}

#[test]
fn a_single_sample_is_read_at_every_time(rt: HostRuntime) -> Result<(), Fail> {
    let alloc = rt.alloc();
    for t in [0, 10, u64::MAX] {
        assert!(rt; read_single(alloc, t)? == (Place::At(0), [7]), "at {t}");
    }
    Ok(())
}
