//! The posts of a participant, moved into the stores of the exchanges that it sends.

ghost use Rattle.std.specs.Prelude.{◌≡◌, ℕ, ◌+◌, [], ◌∷◌, length, IfOk, All};
ghost use Rattle.std.specs.Option.{option_map_or};
ghost use Rattle.cpl_plan.specs.declared.words.Item.TheVariants.{Completed, Posted};
ghost use Rattle.coupled_loop.specs.Given.{gives, accepts};
ghost use Rattle.coupled_loop.specs.Numbered.{put};
ghost use Rattle.coupled_loop.specs.PlanFrames.{window_maker};
ghost use Rattle.sample_store.specs.StandsFor.{StandsFor};
ghost use Rattle.core_sides.specs.CoreWords.{WaveState, WaveSide};
ghost use Rattle.core_stores.specs.StoresStand.{AreStores};
ghost use Rattle.core_stores.specs.StoreMoves.{IsInitial, AreOpened, IsNext, AreNext, IsPut, ArePosted, IsOpen, AreOpen, IsAccepted, AreOthersSame};
ghost use Rattle.wave_coupling.specs.Posts.{Post, sent, newest_time, newest_sample};
ghost use Rattle.wave_coupling.specs.Coupling.{makes_windows};

use cpl_plan::{Plan, WindowMethod};
use fixed_num::Memory;
use plan_order::PartId;
use sample_store::Store;
use std::alloc::Global;
use waveform::{Field, Wave};

/// The time of the newest sample of a post; 0 where it has no wave.
pub fn newest_time(waves: &[Wave]) -> u64
    ensures { result ≡ newest_time waves.now }
{
    if waves.is_empty() {
        0
    } else {
        last_time(&waves[0])
    }
}

/// The time of the newest sample of a wave.
fn last_time(wave: &Wave) -> u64
    ensures { option_map_or (λ sample. sample.time) (newest_sample wave.now) 0 ≡ result }
{
    wave.time(wave.len() - 1)
}

/// Whether the participant makes the windows by its steps.
pub fn makes_windows(plan: &Plan, p: PartId) -> bool
    ensures { result ≡ makes_windows plan.now p }
{
    match plan.window_method() {
        WindowMethod::Fixed => false,
        WindowMethod::FirstParticipant => p == window_maker(plan),
    }
}

/// Whose steps make the windows, where they are made by steps.
fn window_maker(plan: &Plan) -> PartId
    ensures { result ≡ window_maker plan.now }
{
    let _valid = plan.parts();
    let members = plan.scheme(0).members.as_slice();
    if members.is_empty() { 0 } else { members[0] }
}

/// The stores of initial data, one for each wave, in order.
pub fn opened_stores(alloc: Global, waves: &[Wave]) -> Result<Vec<Store>, Memory>
    requires { All IsInitial waves.now }
    ensures { IfOk result (λ stores. AreOpened waves.now stores.items) }
{
    let mut stores = Vec::new(alloc);
    for wave in waves {
        stores.push(opened_store(alloc, wave)?)?;
    }
    Ok(stores)
}

/// The store of the initial data of an exchange.
fn opened_store(alloc: Global, wave: &Wave) -> Result<Store, Memory>
    requires { IsInitial wave.now }
    ensures { IfOk result (λ store. StandsFor (gives (Completed 0) 0 wave.now []) store) }
{
    let field = only_field(alloc, wave)?;
    match Store::new(alloc, field) {
        Ok(store) => Ok(store),
        Err(_) => Err(Memory),
    }
}

/// A copy of the field of a wave's only sample, which stands at time 0.
fn only_field(alloc: Global, wave: &Wave) -> Result<Field, Memory>
    requires { IsInitial wave.now }
    ensures { IfOk result (λ field. wave.now ≡ record { time = 0; field = field } ∷ []) }
{
    wave.field(0).copy(alloc)
}

/// Puts the opened stores of a participant in their places.
pub fn install(plan: &Plan, stores: &mut [Option<Store>], p: PartId, opened: Vec<Store>)
    requires count { length stores.old ≡ length plan.now.exchanges }
    requires sends { length opened.items ≡ length (sent plan.now p) }

    // Of stores opened by what p posts first, each then stands for what p has given of its exchange.
    ensures stands { (sides : WaveState) (side : WaveSide) (post : Post) → AreStores plan.now stores.old sides
        → (sides p).given ≡ [] → AreOpened post opened.items
        → side.given ≡ gives (Completed 0) 0 post (sides p).given
        → AreStores plan.now stores.new (put sides p side) }
    ensures next { (post : Post) → AreOpened post opened.items → AreNext plan.now.exchanges stores.new p 1 1 }
    ensures others { AreOthersSame plan.now.exchanges p stores.old stores.new }
    ensures count { length stores.new ≡ length stores.old }
{
    let mut rest = opened.into_iter();
    for x in 0..plan.exchange_count() {
        if plan.exchange(x).from == p {
            if let Some(store) = rest.next() {
                put_store(&mut stores[x as usize], store);
            }
        }
    }
}

/// Puts an opened store in its place.
fn put_store(place: &mut Option<Store>, store: Store)
    ensures { place.new ≡ Some store }
{
    *place = Some(store);
}

/// Moves the waves that a participant posts in turn (w, k) into their stores. It takes no memory.
pub fn put_waves(
    plan: &Plan,
    stores: &mut [Option<Store>],
    p: PartId,
    w: u32,
    k: u32,
    waves: Vec<Wave>,
)
    requires count { length stores.old ≡ length plan.now.exchanges }
    requires sends { length waves.items ≡ length (sent plan.now p) }
    requires next { AreNext plan.now.exchanges stores.old p w k }

    // Each store then stands for what p has given of its exchange, with this post.
    ensures stands { (sides : WaveState) (side : WaveSide) → AreStores plan.now stores.old sides
        → side.given ≡ gives (Posted w k) k waves.items (sides p).given
        → AreStores plan.now stores.new (put sides p side) }
    ensures posted { ArePosted plan.now.exchanges stores.new p w k }
    ensures next { AreNext plan.now.exchanges stores.new p w (k + 1) }
    ensures others { AreOthersSame plan.now.exchanges p stores.old stores.new }
    ensures count { length stores.new ≡ length stores.old }
{
    let mut rest = waves.into_iter();
    for x in 0..plan.exchange_count() {
        if plan.exchange(x).from == p {
            if let Some(wave) = rest.next() {
                put_wave(&mut stores[x as usize], w, k, wave);
            }
        }
    }
}

/// Moves the wave of turn (w, k) into its store.
fn put_wave(store: &mut Option<Store>, w: u32, k: u32, wave: Wave)
    requires { IsNext store.old w k }
    ensures { IsPut w k wave store.old store.new }
{
    if let Some(store) = store {
        let _ = store.put(w, k, wave);
    }
}

/// Accepts the newest posts of a participant for window w. It takes no memory.
pub fn accept_all(plan: &Plan, stores: &mut [Option<Store>], p: PartId, w: u32)
    requires count { length stores.old ≡ length plan.now.exchanges }
    requires open { AreOpen plan.now.exchanges stores.old p w }

    // Each store then stands for what p has given of its exchange, with the newest post accepted.
    ensures stands { (sides : WaveState) (side : WaveSide) (k : ℕ) → AreStores plan.now stores.old sides
        → ArePosted plan.now.exchanges stores.old p w k
        → side.given ≡ accepts w k (sides p).given
        → AreStores plan.now stores.new (put sides p side) }
    ensures next { AreNext plan.now.exchanges stores.new p (w + 1) 1 }
    ensures others { AreOthersSame plan.now.exchanges p stores.old stores.new }
    ensures count { length stores.new ≡ length stores.old }
{
    for x in 0..plan.exchange_count() {
        if plan.exchange(x).from == p {
            accept_one(&mut stores[x as usize], w);
        }
    }
}

/// Accepts the newest post of an exchange for window w.
fn accept_one(store: &mut Option<Store>, w: u32)
    requires { IsOpen store.old w }
    ensures { IsAccepted w store.old store.new }
{
    if let Some(store) = store {
        store.accept(w);
    }
}
