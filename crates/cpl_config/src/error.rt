ghost use Rattle.std.specs.Prelude.{◌≡◌};

use cpl_rules::Refusal;
use thiserror::Error;

/// Why a file gave no configuration.
#[derive(Clone, Copy, Debug, PartialEq, Eq, Error)]
pub enum ConfigErr {
    /// The first broken rule, at the first place that breaks it.
    #[error("the configuration breaks a rule")]
    Refused(Refusal),
    #[error("out of memory")]
    Memory,
}

impl From<fixed_num::Memory> for ConfigErr {
    ghost use Rattle.cpl_config.specs.declared.error.ConfigErr.TheVariants.{Memory};

    ghost from_gives = { λ _ error. error ≡ Memory };

    fn from(_error: fixed_num::Memory) -> ConfigErr {
        ConfigErr::Memory
    }
}
