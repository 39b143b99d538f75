ghost use Rattle.std.specs.Prelude.{◌≡◌};
ghost use Rattle.wave_maps.specs.Refusals.{wave_refusal_at};
ghost use Rattle.wave_maps.specs.declared.map_errors.FieldRefusal.TheVariants.{Memory as NoField};
ghost use Rattle.wave_maps.specs.declared.map_errors.WaveRefusal.TheVariants.{Memory as NoWave};

use fixed_num::Memory;
use thiserror::Error;

/// Why a field was not mapped.
#[derive(Clone, Copy, Debug, PartialEq, Eq, Error)]
pub enum FieldRefusal {
    /// This component at this target vertex is out of range.
    #[error("component {component} of vertex {vertex} is out of range")]
    OutOfRange { vertex: u32, component: u32 },
    /// There was no memory. This answer is free: no contract ties it to a cause.
    #[error("out of memory")]
    Memory,
}

/// Why a wave was not mapped.
#[derive(Clone, Copy, Debug, PartialEq, Eq, Error)]
pub enum WaveRefusal {
    /// This component at this target vertex is out of range at this time.
    #[error("component {component} of vertex {vertex} is out of range at time {time}")]
    OutOfRange {
        time: u64,
        vertex: u32,
        component: u32,
    },
    /// There was no memory. This answer is free: no contract ties it to a cause.
    #[error("out of memory")]
    Memory,
}

impl From<Memory> for FieldRefusal {
    ghost from_gives = { λ _ error. error ≡ NoField };

    fn from(_error: Memory) -> FieldRefusal {
        FieldRefusal::Memory
    }
}

impl From<Memory> for WaveRefusal {
    ghost from_gives = { λ _ error. error ≡ NoWave };

    fn from(_error: Memory) -> WaveRefusal {
        WaveRefusal::Memory
    }
}

impl FieldRefusal {
    /// The refusal of a wave whose sample at this time is refused so.
    pub(crate) fn at(self, time: u64) -> WaveRefusal
        ensures { result ≡ wave_refusal_at time self }
    {
        match self {
            FieldRefusal::OutOfRange { vertex, component } => WaveRefusal::OutOfRange {
                time,
                vertex,
                component,
            },
            FieldRefusal::Memory => WaveRefusal::Memory,
        }
    }
}
