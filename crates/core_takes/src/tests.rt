ghost use Rattle.std.specs.Prelude.{◌≡◌, true, false, IfOk, OnOk};
ghost use Rattle.sample_store.specs.NextTurn.{next_turn};
ghost use Rattle.sample_store.specs.Held.{HoldsEndBefore};

use crate::kinds::constant_input;
use crate::takes::TakeTurn;
use fixed_num::{Items, Memory, value_of};
use sample_store::Store;
use std::alloc::Global;
use std::test::Fail;
use waveform::{Field, Wave};

/// A field of one value. No test asks for one that is out of range.
fn field_of(alloc: Global, units: i128) -> Result<Field, Memory> {
    let mut values = Vec::new(alloc);
    if let Some(value) = value_of(units) {
        values.push(value)?;
    }
    Ok(Field {
        components: 1,
        values: Items::from_vec(values),
    })
}

/// A store of an initial value.
fn opened(alloc: Global, units: i128) -> Result<Store, Memory>
    ensures { IfOk result (λ store.
        store.progress ≡ record { window = 0; iteration = 0; is_accepted = true }) }
{
    match Store::new(alloc, field_of(alloc, units)?) {
        Ok(store) => Ok(store),
        Err((_, memory)) => Err(memory),
    }
}

/// Puts a post of one sample at tick 10.
fn post(alloc: Global, store: &mut Store, w: u32, k: u32, units: i128) -> Result<(), Memory>
    requires next { next_turn store.old.progress ≡ (w, k) }
    ensures { OnOk result (
        store.new.progress ≡ record { window = w; iteration = k; is_accepted = false }) }
{
    let Ok(wave) = Wave::constant(alloc, 10, field_of(alloc, units)?) else {
        return Err(Memory);
    };
    match store.put(w, k, wave) {
        Ok(()) => Ok(()),
        Err((_, memory)) => Err(memory),
    }
}

/// Initially 6; of the first window the second iteration, 8, is accepted.
fn one_window(alloc: Global) -> Result<Store, Memory>
    ensures { IfOk result (λ store.
        store.progress ≡ record { window = 1; iteration = 2; is_accepted = true }) }
{
    let mut store = opened(alloc, 6)?;
    post(alloc, &mut store, 1, 1, 7)?;
    post(alloc, &mut store, 1, 2, 8)?;
    store.accept(1);
    Ok(store)
}

/// What a lagging exchange is given in a window: the source's window and iteration, and time and value
/// of each sample.
fn lagging(
    alloc: Global,
    store: &Store,
    window: u32,
    start: u64,
) -> Result<(u32, u32, usize, u64, Option<i64>), Memory>
    requires held { HoldsEndBefore store.now.progress window }
{
    let turn = TakeTurn {
        part: 1,
        window,
        iteration: 1,
        start,
    };
    let input = constant_input(alloc, store, 4, turn)?;
    let value = input
        .wave
        .field(0)
        .values
        .as_slice()
        .first()
        .map(|value| value.get());
    Ok((
        input.source_window,
        input.source_iteration,
        input.wave.len(),
        input.wave.time(0),
        value,
    ))
}

#[test]
fn lagging_inputs_are_what_was_accepted(rt: HostRuntime) -> Result<(), Fail> {
    let store = one_window(rt.alloc())?;
    let first = lagging(rt.alloc(), &store, 1, 0)?;
    assert!(rt; first == (0, 0, 1, 0, Some(6)));
    let second = lagging(rt.alloc(), &store, 2, 10)?;
    assert!(rt; second == (1, 2, 1, 10, Some(8)));
    Ok(())
}
