ghost use Rattle.std.specs.Prelude.{◌≡◌, None, ◌≤◌, length, All, IfOk, OnOk, IfErr};
ghost use Rattle.fixed_num.specs.Numbers.{IsValue};
ghost use Rattle.acceleration.specs.RelaxedWaves.{relaxed_values};
ghost use Rattle.acceleration.specs.Outside.{first_outside, located_values};
ghost use Rattle.acceleration.specs.Causes.{Tells};

use crate::error::AccErr;
use fixed_num::{Factor, Value, relax, value_of};
use std::alloc::Global;

/// How the samples of one exchange are relaxed.
#[derive(Clone, Copy)]
pub(crate) struct Step {
    /// The place of the exchange among the accelerated ones.
    pub(crate) place: u32,
    /// The degree of its data.
    pub(crate) degree: u32,
    /// The factor of the iteration.
    pub(crate) factor: Factor,
}

/// The posted values at a time, each relaxed from what was read in its place.
pub(crate) fn relaxed_values(
    alloc: Global,
    step: &Step,
    time: u64,
    read: &[i64],
    posted: &[Value],
) -> Result<Vec<Value>, AccErr>
    requires len { length read.now ≡ length posted.now }
    requires few { length posted.now ≤ 200000 }
    requires in_range { All IsValue read.now }
    ensures values { IfOk result (λ values. values.items
        ≡ relaxed_values step.now.factor read.now posted.now) }
    ensures inside { OnOk result (first_outside
        (located_values step.now.place time (relaxed_values step.now.factor read.now posted.now))
        ≡ None) }
    ensures outside { IfErr result (Tells (first_outside
        (located_values step.now.place time (relaxed_values step.now.factor read.now posted.now)))) }
{
    let mut values = Vec::with_capacity(alloc, posted.len())?;
    for i in 0..posted.len() {
        let Some(value) = relax(value_from(read[i]), posted[i], step.factor) else {
            return Err(AccErr::Overflow {
                place: step.place,
                time,
                component: i as u32,
            });
        };
        values.push(value)?;
    }
    Ok(values)
}

/// The value of so many units.
fn value_from(units: i64) -> Value
    requires { IsValue units }
    ensures { result ≡ units }
{
    value_of(i128::from(units)).unwrap()
}
