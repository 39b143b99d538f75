ghost use Rattle.std.specs.Prelude.{◌≡◌};
ghost use Rattle.acceleration.specs.RelaxerState.{method_of};

use cpl_plan::Accel;
use fixed_num::Factor;

/// How the factor of an iteration is found.
#[derive(Clone, Copy, Debug, PartialEq, Eq)]
pub enum Method {
    /// It is one: what was posted is passed on.
    Plain,
    /// It is always this one.
    Constant { factor: Factor },
    /// By Aitken's method, with this one in the first iteration of a window.
    Aitken { first: Factor },
}

impl Method {
    /// The method of an acceleration.
    pub fn of(accel: &Accel) -> Method
        ensures { result ≡ method_of accel.now }
    {
        match accel {
            Accel::None => Method::Plain,
            Accel::Constant { factor, over: _ } => Method::Constant { factor: *factor },
            Accel::Aitken { first, over: _ } => Method::Aitken { first: *first },
        }
    }
}
