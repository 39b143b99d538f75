//! The input of one exchange, for each kind: of which window and iteration its samples are.

ghost use Rattle.std.specs.Prelude.{◌≡◌, ℕ, ◌-◌, ◌≤◌, List, slice_get, Some, option_map, IfOk};
ghost use Rattle.waveform.specs.declared.sample.Sample.{Sample};
ghost use Rattle.cpl_plan.specs.declared.parts.PlanParts.{PlanParts};
ghost use Rattle.cpl_plan.specs.declared.parts.Exchange.{Exchange};
ghost use Rattle.cpl_plan.specs.declared.parts.Scheme.{Scheme};
ghost use Rattle.cpl_plan.specs.declared.parts.Kind.TheVariants.{Lag, Fresh, FreshIter, Iterated};
ghost use Rattle.cpl_plan.specs.declared.words.Item.TheVariants.{Completed, Posted};
ghost use Rattle.coupled_loop.specs.Given.{Gift, Look, found};
ghost use Rattle.sample_store.specs.Held.{HoldsEndBefore, HoldsIterate, HoldsAccepted};
ghost use Rattle.sample_store.specs.StandsFor.{StandsFor};
ghost use Rattle.wave_coupling.specs.Posts.{Post};
ghost use Rattle.wave_coupling.specs.InputWave.{completed, posted, input_by, iterated_samples};
ghost use Rattle.group_course.specs.StoresTell.{StoreTells};
ghost use Rattle.group_course.specs.CourseTells.{CourseTells};
ghost use Rattle.core_takes.specs.Numbered.{input_told};
ghost use Rattle.core_takes.specs.Readable.{IsReadable, IsRepeatable};

use crate::takes::TakeTurn;
use core_sides::Input;
use cpl_plan::Accel;
use fixed_num::Memory;
use group_course::{Course, constant_at, led_by};
use plan_order::ExchangeId;
use sample_store::Store;
use std::alloc::Global;
use waveform::Wave;

/// The values accepted at the end of the window before, alone: of an exchange that lags, or is
/// iterated and in its window's first iteration.
pub(crate) fn constant_input(
    alloc: Global,
    store: &Store,
    x: ExchangeId,
    turn: TakeTurn,
) -> Result<Input, Memory>
    requires held { HoldsEndBefore store.now.progress turn.window }
    ensures lag { IfOk result (λ input. (plan : PlanParts) (look : Look Post) (e : Exchange)
        → StoreTells plan look x e store.now
        → input ≡ input_told x (input_by plan look Lag e x turn.window turn.start turn.iteration)) }
{
    let wave = constant_at(alloc, turn.start, store.end_before(turn.window))?;
    Ok(Input {
        exchange: x,
        source_window: turn.window - 1,
        source_iteration: store.iteration_before(turn.window),
        wave,
    })
}

/// These values, and then what was accepted of the same window.
pub(crate) fn accepted_input(
    alloc: Global,
    store: &Store,
    x: ExchangeId,
    turn: TakeTurn,
) -> Result<Input, Memory>
    requires held { HoldsEndBefore store.now.progress turn.window }
    requires accepted { HoldsAccepted store.now.progress turn.window }
    requires readable { IsReadable turn x store.now (λ plan look e. (completed plan look e x turn.window).wave) }
    ensures { IfOk result (λ input. (plan : PlanParts) (look : Look Post) (e : Exchange)
        → StoreTells plan look x e store.now
        → input ≡ input_told x (input_by plan look Fresh e x turn.window turn.start turn.iteration)) }
{
    let samples = accepted_of(store, turn.window);
    let wave = led_by(alloc, turn.start, store.end_before(turn.window), samples)?;
    Ok(Input {
        exchange: x,
        source_window: turn.window,
        source_iteration: store.progress().iteration,
        wave,
    })
}

/// These values, and then what was posted in the same window and iteration.
pub(crate) fn posted_input(
    alloc: Global,
    store: &Store,
    x: ExchangeId,
    turn: TakeTurn,
) -> Result<Input, Memory>
    requires held { HoldsEndBefore store.now.progress turn.window }
    requires posted { HoldsIterate store.now.progress turn.window turn.iteration }
    requires readable { IsReadable turn x store.now
        (λ plan look e. (posted plan look e x turn.window turn.iteration).wave) }
    ensures { IfOk result (λ input. (plan : PlanParts) (look : Look Post) (e : Exchange)
        → StoreTells plan look x e store.now
        → input ≡ input_told x (input_by plan look FreshIter e x turn.window turn.start turn.iteration)) }
{
    let samples = post_of(store, turn.window, turn.iteration);
    let wave = led_by(alloc, turn.start, store.end_before(turn.window), samples)?;
    Ok(Input {
        exchange: x,
        source_window: turn.window,
        source_iteration: turn.iteration,
        wave,
    })
}

/// These values, and then what the scheme has made of what was posted in the iteration before.
pub(crate) fn repeated_input(
    alloc: Global,
    store: &Store,
    course: &Course,
    accel: &Accel,
    x: ExchangeId,
    turn: TakeTurn,
) -> Result<Input, Memory>
    requires repeated { 2 ≤ turn.iteration }
    requires held { HoldsEndBefore store.now.progress turn.window }
    requires posted { HoldsIterate store.now.progress turn.window (turn.iteration - 1) }
    requires readable { IsRepeatable turn x store.now course.now accel.now }
    ensures { IfOk result (λ input. (plan : PlanParts) (look : Look Post) (e : Exchange) (scheme : Scheme)
        → StoreTells plan look x e store.now → slice_get plan.schemes e.scheme ≡ Some scheme
        → scheme.accel ≡ accel.now
        → CourseTells plan look scheme turn.window turn.start (turn.iteration - 1) course.now
        → input ≡ input_told x (input_by plan look Iterated e x turn.window turn.start turn.iteration)) }
{
    let relaxed = samples_before(store, course, accel, x, turn);
    let wave = led_by(alloc, turn.start, store.end_before(turn.window), relaxed)?;
    Ok(Input {
        exchange: x,
        source_window: turn.window,
        source_iteration: turn.iteration - 1,
        wave,
    })
}

/// The samples of the iteration before: relaxed, or as they were posted where they are not relaxed.
fn samples_before<'a>(
    store: &'a Store,
    course: &'a Course,
    accel: &Accel,
    x: ExchangeId,
    turn: TakeTurn,
) -> &'a Wave
    requires repeated { 2 ≤ turn.iteration }
    requires posted { HoldsIterate store.now.progress turn.window (turn.iteration - 1) }
    ensures { (plan : PlanParts) (look : Look Post) (e : Exchange) (scheme : Scheme) (start : ℕ)
        → StoreTells plan look x e store.now → scheme.accel ≡ accel.now
        → CourseTells plan look scheme turn.window start (turn.iteration - 1) course.now
        → iterated_samples plan look e x turn.window start (turn.iteration - 1) (Some scheme) ≡ result.now }
{
    match course.relaxed(accel, x) {
        Some(wave) => wave,
        None => post_of(store, turn.window, turn.iteration - 1),
    }
}

/// What was accepted for window w.
fn accepted_of(store: &Store, w: u32) -> &Wave
    requires { HoldsAccepted store.now.progress w }
    ensures { (given : List (Gift (List Sample))) → StandsFor given store.now
        → option_map (λ gift. gift.post) (found given (Completed w)) ≡ Some result.now }
{
    store.accepted(w).unwrap()
}

/// The post of turn (w, k).
fn post_of(store: &Store, w: u32, k: u32) -> &Wave
    requires { HoldsIterate store.now.progress w k }
    ensures { (given : List (Gift (List Sample))) → StandsFor given store.now
        → found given (Posted w k) ≡ Some (record { item = Posted w k; iteration = k; post = result.now }) }
{
    store.iterate(w, k).unwrap()
}
