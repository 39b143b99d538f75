//! The inputs of a turn: for each exchange that the participant receives, a wave of its own.

ghost use Rattle.std.specs.Prelude.{◌≡◌, ◌<◌, ◌++◌, ◌∷◌, [], true, nat_eq, length, slice_get, Some, option_map, IfOk, OnOk};
ghost use Rattle.cpl_plan.specs.PlanWords.{passes};
ghost use Rattle.coupled_loop.specs.Given.{Look};
ghost use Rattle.wave_coupling.specs.Posts.{Post};
ghost use Rattle.wave_coupling.specs.InputWave.{input_wave};
ghost use Rattle.wave_coupling.specs.Coupling.{inputs_of};
ghost use Rattle.core_takes.specs.Numbered.{input_told, numbered_inputs};
ghost use Rattle.core_takes.specs.Held.{HoldsFor, IsHeld};
ghost use Rattle.core_takes.specs.Ready.{Tells, IsReady};

use crate::kinds::{accepted_input, constant_input, posted_input, repeated_input};
use core_schemes::SchemeState;
use core_sides::Input;
use cpl_plan::{Kind, Plan};
use fixed_num::{Items, Memory};
use group_course::Course;
use plan_order::{ExchangeId, PartId, SchemeId};
use sample_store::Store;
use std::alloc::Global;

/// A turn at which a participant takes its inputs.
#[derive(Clone, Copy, Debug, PartialEq, Eq)]
pub struct TakeTurn {
    /// The participant's number.
    pub part: PartId,
    /// The window, from 1.
    pub window: u32,
    /// The iteration in it, from 1.
    pub iteration: u32,
    /// The start of the window, in ticks.
    pub start: u64,
}

/// The inputs of a turn, one for each exchange that the participant receives, in order: the values
/// that its sender has accepted at the end of the window before, which stand at the window's start,
/// and then, by the kind of the exchange, samples of this window. Stores are listed by the numbers of
/// the exchanges, states by those of the schemes.
///
/// # Errors
///
/// `Memory`.
pub fn inputs(
    alloc: Global,
    plan: &Plan,
    stores: &[Option<Store>],
    schemes: &[SchemeState],
    turn: TakeTurn,
) -> Result<Items<Input>, Memory>
    requires ready { IsReady plan.now stores.now schemes.now turn }
    ensures inputs { IfOk result (λ inputs. (look : Look Post) → Tells plan.now stores.now schemes.now turn look
        → inputs ≡ numbered_inputs plan.now turn.part
        (inputs_of plan.now look turn.part turn.window turn.iteration)) }
{
    let mut inputs = Vec::new(alloc);
    for x in 0..plan.exchange_count() {
        if plan.exchange(x).to == turn.part {
            push_input(alloc, &mut inputs, plan, stores, schemes, x, turn)?;
        }
    }
    Ok(Items::from_vec(inputs))
}

/// Adds the input of exchange x.
fn push_input(
    alloc: Global,
    inputs: &mut Vec<Input>,
    plan: &Plan,
    stores: &[Option<Store>],
    schemes: &[SchemeState],
    x: ExchangeId,
    turn: TakeTurn,
) -> Result<(), Memory>
    requires ready { IsReady plan.now stores.now schemes.now turn }
    requires received { passes plan.now.exchanges x (λ e. nat_eq e.to turn.part) ≡ true }
    ensures { OnOk result ((look : Look Post) → Tells plan.now stores.now schemes.now turn look
        → inputs.new.items ≡ inputs.old.items
        ++ input_told x (input_wave plan.now look x turn.window turn.start turn.iteration) ∷ []) }
{
    inputs.push(input(alloc, plan, stores, schemes, x, turn)?)?;
    Ok(())
}

/// The input of exchange x, by its kind.
fn input(
    alloc: Global,
    plan: &Plan,
    stores: &[Option<Store>],
    schemes: &[SchemeState],
    x: ExchangeId,
    turn: TakeTurn,
) -> Result<Input, Memory>
    requires ready { IsReady plan.now stores.now schemes.now turn }
    requires received { passes plan.now.exchanges x (λ e. nat_eq e.to turn.part) ≡ true }
    ensures { IfOk result (λ input. (look : Look Post) → Tells plan.now stores.now schemes.now turn look
        → input ≡ input_told x (input_wave plan.now look x turn.window turn.start turn.iteration)) }
{
    let _valid = plan.parts();
    let exchange = plan.exchange(x);
    let store = store_of(stores, x, exchange.kind, turn);
    match exchange.kind {
        Kind::Lag => constant_input(alloc, store, x, turn),
        Kind::Fresh => accepted_input(alloc, store, x, turn),
        Kind::FreshIter => posted_input(alloc, store, x, turn),
        Kind::Iterated => {
            if turn.iteration == 1 {
                constant_input(alloc, store, x, turn)
            } else {
                let course = course_of(schemes, exchange.scheme);
                repeated_input(
                    alloc,
                    store,
                    course,
                    &plan.scheme(exchange.scheme).accel,
                    x,
                    turn,
                )
            }
        }
    }
}

/// The store of exchange x, which holds what is read of its kind.
fn store_of(stores: &[Option<Store>], x: ExchangeId, kind: Kind, turn: TakeTurn) -> &Store
    requires { IsHeld stores.now x kind turn.window turn.iteration }
    ensures there { slice_get stores.now x ≡ Some (Some result.now) }
    ensures held { HoldsFor kind result.now.progress turn.window turn.iteration }
{
    stores[x as usize].as_ref().unwrap()
}

/// What a scheme remembers of its window.
fn course_of(schemes: &[SchemeState], scheme: SchemeId) -> &Course
    requires { scheme < length schemes.now }
    ensures { option_map (λ state. state.course) (slice_get schemes.now scheme) ≡ Some result.now }
{
    &schemes[scheme as usize].course
}
