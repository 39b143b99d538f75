ghost use Rattle.std.specs.Prelude.{◌≡◌, ◌<◌, ◌≤◌, List, length, slice_get, Some};
ghost use Rattle.std.specs.Option.{option_map_or};
ghost use Rattle.wave_coupling.specs.Posts.{newest_values};
ghost use Rattle.cpl_plan.specs.ValidPlan.{IsValidPlan};
ghost use Rattle.group_course.specs.Held.{HoldsIteration, IsHeld};
ghost use Rattle.group_course.specs.Taken.{degree_in};
ghost use Rattle.cpl_plan.specs.declared.words.Item.TheVariants.{Posted};
ghost use Rattle.coupled_loop.specs.Given.{Gift, found};
ghost use Rattle.waveform.specs.declared.sample.Sample.{Sample};
ghost use Rattle.sample_store.specs.Held.{HoldsIterate};
ghost use Rattle.sample_store.specs.StandsFor.{StandsFor};

use crate::iteration::Iteration;
use cpl_plan::{Plan, Scheme};
use fixed_num::Value;
use plan_order::{DataId, ExchangeId, SchemeId};
use sample_store::Store;
use waveform::Wave;

/// The values of a wave's newest sample.
pub(crate) fn newest_values(wave: &Wave) -> &[Value]
    ensures values { result.now ≡ newest_values wave.now }
    ensures some { 1 ≤ length wave.now }
{
    wave.field(wave.len() - 1).values.as_slice()
}

/// A scheme of a plan, which is valid.
pub(crate) fn scheme_of(plan: &Plan, s: SchemeId) -> &Scheme
    requires { s < length plan.now.schemes }
    ensures there { slice_get plan.now.schemes s ≡ Some result.now }
    ensures valid { IsValidPlan plan.now }
{
    &plan.parts().schemes.as_slice()[s as usize]
}

/// The store of exchange x in an iteration.
pub(crate) fn store_of(stores: &[Option<Store>], x: ExchangeId, at: Iteration) -> &Store
    requires { IsHeld stores.now x at.window at.number }
    ensures there { slice_get stores.now x ≡ Some (Some result.now) }
    ensures held { HoldsIteration result.now.progress at.window at.number }
{
    stores[x as usize].as_ref().unwrap()
}

/// The degree by which waves of exchange x are read, and 0 where there is no such exchange.
pub(crate) fn degree_in(plan: &Plan, x: ExchangeId) -> u32
    ensures { result ≡ degree_in plan.now x }
{
    match plan.parts().exchanges.as_slice().get(x as usize) {
        Some(exchange) => degree_of(plan, exchange.data_id),
        None => 0,
    }
}

/// The degree by which waves of data item d are read, and 0 where there is no such item.
fn degree_of(plan: &Plan, d: DataId) -> u32
    ensures { result ≡ option_map_or (λ item. item.degree) (slice_get plan.now.data_list d) 0 }
{
    match plan.parts().data_list.as_slice().get(d as usize) {
        Some(item) => item.degree,
        None => 0,
    }
}

/// The post of window w and iteration k.
pub(crate) fn post_of(store: &Store, w: u32, k: u32) -> &Wave
    requires { HoldsIterate store.now.progress w k }
    ensures { (given : List (Gift (List Sample))) → StandsFor given store.now → found given (Posted w k)
        ≡ Some (record { item = Posted w k; iteration = k; post = result.now }) }
{
    store.iterate(w, k).unwrap()
}
