ghost use Rattle.std.specs.Prelude.{◌≡◌};
ghost use Rattle.acceleration.specs.declared.error.AccErr.TheVariants.{Memory as NoMemory};

use fixed_num::Memory;
use std::alloc::{AllocError, AllocFailed};
use thiserror::Error;

/// Why waves were not relaxed.
#[derive(Clone, Copy, Debug, PartialEq, Eq, Error)]
pub enum AccErr {
    /// A relaxed value is out of range.
    #[error("a relaxed value is out of range")]
    Overflow {
        /// The place of its exchange among the accelerated ones, from 0.
        place: u32,
        /// The time of its sample, in ticks.
        time: u64,
        /// Its place in the whole field, from 0.
        component: u32,
    },
    /// There was no memory. This answer is free: no contract ties it to a cause.
    #[error("out of memory")]
    Memory,
}

impl From<Memory> for AccErr {
    ghost from_gives = { λ _ error. error ≡ NoMemory };

    fn from(_error: Memory) -> AccErr {
        AccErr::Memory
    }
}

impl From<AllocError> for AccErr {
    ghost from_gives = { λ _ error. error ≡ NoMemory };

    fn from(_error: AllocError) -> AccErr {
        AccErr::Memory
    }
}

impl<T: Drop> From<AllocFailed<T>> for AccErr {
    ghost from_gives = { λ _ error. error ≡ NoMemory };

    fn from(_error: AllocFailed<T>) -> AccErr {
        AccErr::Memory
    }
}
