ghost use Rattle.std.specs.Prelude.{◌≡◌};
ghost use Rattle.participant_waves.specs.declared.no_waves.NoPost.TheVariants.{Memory as NoRoomToPost};
ghost use Rattle.participant_waves.specs.declared.no_waves.NoTake.TheVariants.{Memory as NoRoomToTake};

use cpl_plan::Fault;
use fixed_num::Memory;
use std::alloc::{AllocError, AllocFailed};
use thiserror::Error;

/// Why there is nothing to post.
#[derive(Clone, Copy, Debug, PartialEq, Eq, Error)]
pub enum NoPost {
    /// A sum of mapped written values is out of range.
    #[error("a mapped written value is out of range")]
    Overflow(Fault),
    /// There was no memory. This answer is free: no contract ties it to a cause.
    #[error("out of memory")]
    Memory,
}

/// Why there is nothing to read from.
#[derive(Clone, Copy, Debug, PartialEq, Eq, Error)]
pub enum NoTake {
    /// A sum of mapped read values is out of range.
    #[error("a mapped read value is out of range")]
    Overflow(Fault),
    /// There was no memory. This answer is free: no contract ties it to a cause.
    #[error("out of memory")]
    Memory,
}

impl From<Memory> for NoPost {
    ghost from_gives = { λ _ error. error ≡ NoRoomToPost };

    fn from(_error: Memory) -> NoPost {
        NoPost::Memory
    }
}

impl From<AllocError> for NoPost {
    ghost from_gives = { λ _ error. error ≡ NoRoomToPost };

    fn from(_error: AllocError) -> NoPost {
        NoPost::Memory
    }
}

impl<T: Drop> From<AllocFailed<T>> for NoPost {
    ghost from_gives = { λ _ error. error ≡ NoRoomToPost };

    fn from(_error: AllocFailed<T>) -> NoPost {
        NoPost::Memory
    }
}

impl From<Memory> for NoTake {
    ghost from_gives = { λ _ error. error ≡ NoRoomToTake };

    fn from(_error: Memory) -> NoTake {
        NoTake::Memory
    }
}

impl From<AllocError> for NoTake {
    ghost from_gives = { λ _ error. error ≡ NoRoomToTake };

    fn from(_error: AllocError) -> NoTake {
        NoTake::Memory
    }
}

impl<T: Drop> From<AllocFailed<T>> for NoTake {
    ghost from_gives = { λ _ error. error ≡ NoRoomToTake };

    fn from(_error: AllocFailed<T>) -> NoTake {
        NoTake::Memory
    }
}
