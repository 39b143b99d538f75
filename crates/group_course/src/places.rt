ghost use Rattle.std.specs.Prelude.{◌≡◌, nat_eq, position, slice_index};
ghost use Rattle.wave_coupling.specs.InputWave.{over};

use cpl_plan::Accel;
use plan_order::ExchangeId;

/// The exchanges that an acceleration relaxes.
pub(crate) fn over(accel: &Accel) -> &[ExchangeId]
    ensures { result.now ≡ over accel.now }
{
    match accel {
        Accel::None => &[],
        Accel::Constant { over, .. } | Accel::Aitken { over, .. } => over.as_slice(),
    }
}

/// The first place of an exchange.
pub(crate) fn place_of(exchanges: &[ExchangeId], x: ExchangeId) -> Option<usize>
    ensures { result ≡ position (nat_eq x) exchanges.now }
{
    for place in 0..exchanges.len() {
        if x == exchanges[place] {
            return Some(place);
        }
    }
    None
}

/// The exchange at a place, and 0 past the last.
pub(crate) fn exchange_at(exchanges: &[ExchangeId], place: u32) -> ExchangeId
    ensures { result ≡ slice_index exchanges.now place }
{
    match exchanges.get(place as usize) {
        Some(x) => *x,
        None => 0,
    }
}
