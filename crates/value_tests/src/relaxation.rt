ghost use Rattle.std.specs.Prelude.{◌≡◌, ◌<◌, ◌≤◌, length, All, IfOk};
ghost use Rattle.waveform.specs.IsWave.{first_time, last_time};
ghost use Rattle.acceleration.specs.Residual.{width};
ghost use Rattle.acceleration.specs.RelaxerState.{RemembersAsMany};

use acceleration::{AccErr, Relaxer};
use cpl_plan::Accel;
use fixed_num::{Items, Memory, factor_of, value_of};
use std::alloc::Global;
use std::test::Fail;
use waveform::{Field, Wave};

/// A field of two values. No test asks for one that is out of range.
fn field_of(alloc: Global, units: [i128; 2]) -> Result<Field, Memory>
    ensures components { IfOk result (λ field. field.components ≡ 1) }
    ensures len { IfOk result (λ field. length field.values ≡ 2) }
{
    let (Some(first), Some(second)) = (value_of(units[0]), value_of(units[1])) else {
        return Err(Memory);
    };
    Ok(Field {
        components: 1,
        values: Items::from_vec(vec![in alloc; first, second]?),
    })
}

/// A wave of one sample.
fn single(alloc: Global, time: u64, units: [i128; 2]) -> Result<Wave, Memory>
    ensures one { IfOk result (λ wave. length wave ≡ 1) }
    ensures width { IfOk result (λ wave. width wave ≡ 2) }
    ensures components { IfOk result (All (λ s. s.field.components ≡ 1)) }
    ensures len { IfOk result (All (λ s. length s.field.values ≡ 2)) }
{
    match Wave::constant(alloc, time, field_of(alloc, units)?) {
        Ok(wave) => Ok(wave),
        Err(_) => Err(Memory),
    }
}

/// A wave of two samples, the last at time 10.
fn double(alloc: Global, start: u64, first: [i128; 2], last: [i128; 2]) -> Result<Wave, Memory>
    requires { start < 10 }
    ensures first { IfOk result (λ wave. first_time wave ≡ start) }
    ensures last { IfOk result (λ wave. last_time wave ≡ 10) }
    ensures width { IfOk result (λ wave. width wave ≡ 2) }
    ensures components { IfOk result (All (λ s. s.field.components ≡ 1)) }
    ensures len { IfOk result (All (λ s. length s.field.values ≡ 2)) }
    ensures after { IfOk result (All (λ s. start ≤ s.time)) }
    ensures before { IfOk result (All (λ s. s.time ≤ 10)) }
{
    let Ok(mut wave) = Wave::constant(alloc, start, field_of(alloc, first)?) else {
        return Err(Memory);
    };
    let Ok(()) = wave.push(10, field_of(alloc, last)?) else {
        return Err(Memory);
    };
    Ok(wave)
}

fn aitken(alloc: Global, first: i128) -> Result<Relaxer, Memory>
    ensures { IfOk result (λ relaxer. RemembersAsMany relaxer 2) }
{
    let first = factor_of(first).ok_or(Memory)?;
    let over = Items::from_vec(Vec::new(alloc));
    Relaxer::new(alloc, &Accel::Aitken { first, over })
}

fn constant(alloc: Global, factor: i128) -> Result<Relaxer, Memory>
    ensures two { IfOk result (λ relaxer. RemembersAsMany relaxer 2) }
    ensures four { IfOk result (λ relaxer. RemembersAsMany relaxer 4) }
{
    let factor = factor_of(factor).ok_or(Memory)?;
    let over = Items::from_vec(Vec::new(alloc));
    Relaxer::new(alloc, &Accel::Constant { factor, over })
}

/// The units at a place of a sample of one of the waves.
fn units_of(waves: &[Wave], exchange: usize, sample: usize, place: usize) -> Option<i64> {
    let wave = waves.get(exchange)?;
    if sample < wave.len() {
        return wave
            .field(sample)
            .values
            .as_slice()
            .get(place)
            .map(|value| value.get());
    }
    None
}

/// An iteration on one exchange, whose waves are read and posted at time 10: the first relaxed value.
fn relax_one(
    alloc: Global,
    relaxer: &mut Relaxer,
    read: i128,
    posted: i128,
) -> Result<Option<i64>, AccErr>
    requires { RemembersAsMany relaxer.old 2 }
    ensures { RemembersAsMany relaxer.new 2 }
{
    let read = [single(alloc, 10, [read, 0])?];
    let posted = [single(alloc, 10, [posted, 0])?];
    let waves = relaxer.relax_waves(&[1], &read, &posted)?;
    Ok(units_of(&waves, 0, 0, 0))
}

/// The same, the first of a window where it says so.
fn relax_next(
    alloc: Global,
    relaxer: &mut Relaxer,
    anew: bool,
    read: i128,
    posted: i128,
) -> Result<Option<i64>, AccErr>
    requires { RemembersAsMany relaxer.old 2 }
    ensures { RemembersAsMany relaxer.new 2 }
{
    if anew {
        relaxer.restart();
        return relax_one(alloc, relaxer, read, posted);
    }
    relax_one(alloc, relaxer, read, posted)
}

#[test]
fn aitken_looks_back_in_its_window(rt: HostRuntime) -> Result<(), Fail> {
    let alloc = rt.alloc();
    let mut relaxer = aitken(alloc, 500_000)?;
    let overflow = Err(AccErr::Overflow {
        place: 0,
        time: 10,
        component: 0,
    });
    let steps = [
        (true, 0, 500_000, Ok(Some(250_000))),
        (false, 250_000, 625_000, Ok(Some(1_000_000))),
        // The same in the next window, and the factor stays where the residual does.
        (true, 0, 1_000_000_000, Ok(Some(500_000_000))),
        (false, 0, 1_000_000_000, Ok(Some(500_000_000))),
        // It has its limits.
        (true, 0, 1_000_000_000, Ok(Some(500_000_000))),
        (false, 0, 999_999_999, Ok(Some(999_999_999_000))),
        (true, 0, 1_000_000_000, Ok(Some(500_000_000))),
        (false, 0, 1_000_000_001, Ok(Some(-1_000_000_001_000))),
        // An overflow is as if it had not been.
        (true, 0, 20_000_000_000, Ok(Some(10_000_000_000))),
        (false, 10_000_000_000, 29_990_000_000, overflow),
        (false, 10_000_000_000, 29_990_000_000, overflow),
        (false, 0, 10_000_000_000, Ok(Some(10_000_000_000))),
    ];
    for (anew, read, posted, relaxed) in steps {
        assert!(rt;
            relax_next(alloc, &mut relaxer, anew, read, posted) == relaxed,
            "at {posted}"
        );
    }
    Ok(())
}

#[test]
fn constant_factors_round_to_even(rt: HostRuntime) -> Result<(), Fail> {
    let alloc = rt.alloc();
    let cases = [
        (500_000, 0, 1, 0),
        (500_000, 0, 3, 2),
        (500_000, 0, -1, 0),
        (1_000_000, 7, 12, 12),
        (250_000, 1_000_000, 5_000_000, 2_000_000),
    ];
    for (factor, read, posted, relaxed) in cases {
        let mut relaxer = constant(alloc, factor)?;
        assert!(rt;
            relax_one(alloc, &mut relaxer, read, posted) == Ok(Some(relaxed)),
            "at {posted}"
        );
    }
    let mut plain = Relaxer::new(alloc, &Accel::None)?;
    assert!(rt; relax_one(alloc, &mut plain, 7, 12) == Ok(Some(12)));
    Ok(())
}

/// An iteration by a constant factor on two exchanges, read by degree 0 and by degree 1 on the line from
/// 0 at time 0 to one at time 10, and posted at times 5 and 10.
fn relax_two(
    alloc: Global,
    factor: i128,
    first: [[i128; 2]; 2],
    second: [[i128; 2]; 2],
) -> Result<Vec<Wave>, AccErr> {
    let mut relaxer = constant(alloc, factor)?;
    let read = [
        double(alloc, 0, [0, 0], [1_000_000, 0])?,
        double(alloc, 0, [0, 0], [1_000_000, 0])?,
    ];
    let posted = [
        double(alloc, 5, first[0], first[1])?,
        double(alloc, 5, second[0], second[1])?,
    ];
    relaxer.relax_waves(&[0, 1], &read, &posted)
}

#[test]
fn each_sample_is_relaxed_from_what_is_read_at_its_time(rt: HostRuntime) -> Result<(), Fail> {
    let first = [[3, 8], [2_000_000, 0]];
    let second = [[500_003, 8], [1_000_001, 0]];
    let waves = relax_two(rt.alloc(), 500_000, first, second)?;
    let cases = [
        (0, 0, 0, 500_002),
        (0, 0, 1, 4),
        (0, 1, 0, 1_500_000),
        (1, 0, 0, 500_002),
        (1, 1, 0, 1_000_000),
    ];
    for (exchange, sample, place, units) in cases {
        assert!(rt;
            units_of(&waves, exchange, sample, place) == Some(units),
            "at {exchange}"
        );
    }
    Ok(())
}

#[test]
fn the_first_value_out_of_range_is_told(rt: HostRuntime) {
    let large = 1_000_000_000_000;
    let cases = [
        ([[0, 0], [0, large]], [[large, 0], [0, 0]], (0, 10, 1)),
        ([[0, 0], [0, 0]], [[0, -large], [large, 0]], (1, 5, 1)),
        (
            [[large, large], [large, 0]],
            [[large, 0], [0, 0]],
            (0, 5, 0),
        ),
    ];
    for (first, second, (place, time, component)) in cases {
        let told = relax_two(rt.alloc(), 1_000_000_000, first, second).err();
        let overflow = AccErr::Overflow {
            place,
            time,
            component,
        };
        assert!(rt; told == Some(overflow), "at {place}");
    }
}
