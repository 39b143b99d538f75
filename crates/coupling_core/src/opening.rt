//! Where everything begins, and when windows start.

ghost use Rattle.std.specs.Prelude.{◌≡◌, ◌≤◌, ℕ, [], map, length, slice_get, Some, None, IfOk, replicate};
ghost use Rattle.coupled_loop.specs.CoreState.{look_in};
ghost use Rattle.wave_coupling.specs.Coupling.{start_of};
ghost use Rattle.core_sides.specs.CoreWords.{WaveState};
ghost use Rattle.core_sides.specs.SidesStand.{AreStanding};
ghost use Rattle.core_sides.specs.declared.standing.Standing.{Standing};
ghost use Rattle.core_schemes.specs.declared.schemes.SchemeState.{SchemeState};
ghost use Rattle.coupling_core.specs.Opened.{opening_standing};

use core_schemes::SchemeState;
use core_sides::windows::start_of;
use core_sides::{Place, Sides, Standing};
use cpl_plan::Plan;
use fixed_num::Memory;
use group_course::Course;
use sample_store::Store;
use std::alloc::Global;

/// All participants at their beginning.
pub(crate) fn opening_sides(alloc: Global, plan: &Plan) -> Result<Sides, Memory>
    ensures standings { IfOk result (λ sides. sides.standings.items ≡ replicate (length plan.now.parts) opening_standing) }
    ensures ends { IfOk result (λ sides. sides.ends.items ≡ []) }
{
    let mut standings = Vec::new(alloc);
    for _p in 0..plan.part_count() {
        standings.push(Standing {
            place: Place::Sending,
            ending: None,
            sent: None,
        })?;
    }
    Ok(Sides {
        standings,
        ends: Vec::new(alloc),
    })
}

/// No exchange has a store yet.
pub(crate) fn no_stores(alloc: Global, plan: &Plan) -> Result<Vec<Option<Store>>, Memory>
    ensures { IfOk result (λ stores. stores.items ≡ replicate (length plan.now.exchanges) None) }
{
    let mut stores = Vec::new(alloc);
    for _x in 0..plan.exchange_count() {
        stores.push(None)?;
    }
    Ok(stores)
}

/// No scheme has judged anything yet.
pub(crate) fn opening_schemes(alloc: Global, plan: &Plan) -> Result<Vec<SchemeState>, Memory>
    ensures count { IfOk result (λ schemes. length schemes.items ≡ length plan.now.schemes) }
    ensures unjudged { IfOk result (λ schemes. (s : ℕ) (state : SchemeState)
        → slice_get schemes.items s ≡ Some state → state.last ≡ None) }
{
    let mut schemes = Vec::new(alloc);
    for s in 0..plan.scheme_count() {
        schemes.push(SchemeState {
            course: Course::new(alloc, &plan.scheme(s).accel)?,
            last: None,
        })?;
    }
    Ok(schemes)
}

/// When window w starts, once that is told.
pub(crate) fn started(plan: &Plan, sides: &Sides, w: u32) -> u64
    requires { w ≤ plan.now.most_windows }
    ensures { (state : WaveState) → AreStanding plan.now sides.now state → result ≡ start_of plan.now (look_in state) w }
{
    match start_of(plan, sides.ends.as_slice(), w) {
        Some(start) => start,
        None => 0,
    }
}
