ghost use Rattle.std.specs.Prelude.{◌≡◌, ◌<◌, All, IfOk};
ghost use Rattle.waveform.specs.IsWave.{first_time, last_time};
ghost use Rattle.nn_mapping.specs.MappedField.{IsFieldOn};

use fixed_num::{Items, Memory, value_of};
use std::alloc::Global;
use waveform::{Field, Wave};

/// A field on so many vertices. No test asks for one of another length, or out of range.
pub(crate) fn field_on(
    alloc: Global,
    components: u32,
    vertices: usize,
    units: &[i128],
) -> Result<Field, Memory>
    ensures components { IfOk result (λ field. field.components ≡ components) }
    ensures len { IfOk result (λ field. IsFieldOn field vertices) }
{
    let mut values = Vec::new(alloc);
    for unit in units {
        values.push(value_of(*unit).ok_or(Memory)?)?;
    }
    if Some(values.len()) != vertices.checked_mul(components as usize) {
        return Err(Memory);
    }
    Ok(Field {
        components,
        values: Items::from_vec(values),
    })
}

/// A wave on so many vertices, of a sample at time 0 and another.
pub(crate) fn wave_on(
    alloc: Global,
    components: u32,
    vertices: usize,
    first: &[i128],
    time: u64,
    last: &[i128],
) -> Result<Wave, Memory>
    requires { 0 < time }
    ensures first { IfOk result (λ wave. first_time wave ≡ 0) }
    ensures last { IfOk result (λ wave. last_time wave ≡ time) }
    ensures components { IfOk result (All (λ s. s.field.components ≡ components)) }
    ensures len { IfOk result (All (λ s. IsFieldOn s.field vertices)) }
{
    let Ok(mut wave) = Wave::constant(alloc, 0, field_on(alloc, components, vertices, first)?)
    else {
        return Err(Memory);
    };
    let Ok(()) = wave.push(time, field_on(alloc, components, vertices, last)?) else {
        return Err(Memory);
    };
    Ok(wave)
}

/// Whether a field has these units.
pub(crate) fn has(field: &Field, units: &[i64]) -> bool {
    let values = field.values.as_slice();
    values.len() == units.len()
        && values
            .iter()
            .zip(units)
            .all(|(value, unit)| value.get() == *unit)
}
