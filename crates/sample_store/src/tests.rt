ghost use Rattle.std.specs.Prelude.{◌≡◌, true, false, IfOk, OnOk};
ghost use Rattle.sample_store.specs.NextTurn.{next_turn};
ghost use Rattle.sample_store.specs.Held.{HoldsEndBefore};

use crate::{Progress, Store};
use fixed_num::{Items, Memory, value_of};
use std::alloc::Global;
use std::test::Fail;
use waveform::{Field, Wave};

/// A field of one value. No test asks for one that is out of range.
fn field_of(alloc: Global, units: i128) -> Result<Field, Memory> {
    let mut values = Vec::new(alloc);
    if let Some(value) = value_of(units) {
        values.push(value)?;
    }
    Ok(Field {
        components: 1,
        values: Items::from_vec(values),
    })
}

/// A store of an initial value.
fn opened(alloc: Global, units: i128) -> Result<Store, Memory>
    ensures { IfOk result (λ store.
        store.progress ≡ record { window = 0; iteration = 0; is_accepted = true }) }
{
    match Store::new(alloc, field_of(alloc, units)?) {
        Ok(store) => Ok(store),
        Err((_, memory)) => Err(memory),
    }
}

/// Puts a post of two samples: 0 at tick 10·w, the value 5 ticks later.
fn post(alloc: Global, store: &mut Store, w: u32, k: u32, units: i128) -> Result<(), Memory>
    requires next { next_turn store.old.progress ≡ (w, k) }
    ensures { OnOk result (
        store.new.progress ≡ record { window = w; iteration = k; is_accepted = false }) }
{
    let start = u64::from(w) * 10;
    let Ok(mut wave) = Wave::constant(alloc, start, field_of(alloc, 0)?) else {
        return Err(Memory);
    };
    let Ok(()) = wave.push(start + 5, field_of(alloc, units)?) else {
        return Err(Memory);
    };
    match store.put(w, k, wave) {
        Ok(()) => Ok(()),
        Err((_, memory)) => Err(memory),
    }
}

/// A window of one iterate, accepted.
fn window(alloc: Global, store: &mut Store, w: u32, units: i128) -> Result<(), Memory>
    requires next { next_turn store.old.progress ≡ (w, 1) }
    ensures { OnOk result (
        store.new.progress ≡ record { window = w; iteration = 1; is_accepted = true }) }
{
    post(alloc, store, w, 1, units)?;
    store.accept(w);
    Ok(())
}

/// The value of a field of one.
fn value_in(field: &Field) -> Option<i64> {
    field.values.as_slice().first().map(|value| value.get())
}

/// The newest value of a post.
fn newest_in(wave: Option<&Wave>) -> Option<i64> {
    let wave = wave?;
    value_in(wave.field(wave.len() - 1))
}

/// The end of window w - 1: its value, its time, its iteration.
fn end_before(store: &Store, w: u32) -> [Option<i64>; 3]
    requires held { HoldsEndBefore store.now.progress w }
{
    [
        value_in(store.end_before(w)),
        i64::try_from(store.end_time_before(w)).ok(),
        Some(i64::from(store.iteration_before(w))),
    ]
}

/// The newest values of the iterates of a window from 0 to 4.
fn iterates(store: &Store, w: u32) -> [Option<i64>; 5] {
    [
        newest_in(store.iterate(w, 0)),
        newest_in(store.iterate(w, 1)),
        newest_in(store.iterate(w, 2)),
        newest_in(store.iterate(w, 3)),
        newest_in(store.iterate(w, 4)),
    ]
}

/// The newest values of what is accepted for the windows from 0 to 3.
fn accepted(store: &Store) -> [Option<i64>; 4] {
    [
        newest_in(store.accepted(0)),
        newest_in(store.accepted(1)),
        newest_in(store.accepted(2)),
        newest_in(store.accepted(3)),
    ]
}

/// Three windows of one iterate each: 7, 8 and 9.
fn three_windows(alloc: Global) -> Result<Store, Memory>
    ensures { IfOk result (λ store.
        store.progress ≡ record { window = 3; iteration = 1; is_accepted = true }) }
{
    let mut store = opened(alloc, 6)?;
    window(alloc, &mut store, 1, 7)?;
    window(alloc, &mut store, 2, 8)?;
    window(alloc, &mut store, 3, 9)?;
    Ok(store)
}

#[test]
fn two_windows_are_held(rt: HostRuntime) -> Result<(), Fail> {
    let store = three_windows(rt.alloc())?;
    assert!(rt; iterates(&store, 2) == [None; 5]);
    assert!(rt; iterates(&store, 3) == [None, Some(9), None, None, None]);
    assert!(rt; accepted(&store) == [None, None, None, Some(9)]);
    assert!(rt; end_before(&store, 3) == [Some(8), Some(25), Some(1)]);
    assert!(rt; end_before(&store, 4) == [Some(9), Some(35), Some(1)]);
    Ok(())
}

/// A window of three iterates, 1, 2 and 3, that is still open.
fn three_iterates(alloc: Global) -> Result<Store, Memory>
    ensures { IfOk result (λ store.
        store.progress ≡ record { window = 1; iteration = 3; is_accepted = false }) }
{
    let mut store = opened(alloc, 6)?;
    post(alloc, &mut store, 1, 1, 1)?;
    post(alloc, &mut store, 1, 2, 2)?;
    post(alloc, &mut store, 1, 3, 3)?;
    Ok(store)
}

#[test]
fn two_iterates_are_held(rt: HostRuntime) -> Result<(), Fail> {
    let store = three_iterates(rt.alloc())?;
    assert!(rt; iterates(&store, 1) == [None, None, Some(2), Some(3), None]);
    assert!(rt; accepted(&store) == [None; 4]);
    assert!(rt; end_before(&store, 1) == [Some(6), Some(0), Some(0)]);
    Ok(())
}

#[test]
fn the_newest_is_accepted(rt: HostRuntime) -> Result<(), Fail> {
    let mut store = three_iterates(rt.alloc())?;
    store.accept(1);
    assert!(rt; iterates(&store, 1) == [None, None, Some(2), Some(3), None]);
    assert!(rt; accepted(&store) == [None, Some(3), None, None]);
    assert!(rt; end_before(&store, 1) == [Some(6), Some(0), Some(0)]);
    assert!(rt; end_before(&store, 2) == [Some(3), Some(15), Some(3)]);
    Ok(())
}

#[test]
fn initial_values_are_those_of_window_0(rt: HostRuntime) -> Result<(), Fail> {
    let store = opened(rt.alloc(), 6)?;
    let progress = store.progress();
    assert!(rt;
        progress
            == Progress {
                window: 0,
                iteration: 0,
                is_accepted: true
            }
    );
    assert!(rt; iterates(&store, 0) == [None; 5]);
    assert!(rt; accepted(&store) == [Some(6), None, None, None]);
    assert!(rt; end_before(&store, 1) == [Some(6), Some(0), Some(0)]);
    Ok(())
}
