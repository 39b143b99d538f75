use crate::status::Status;
use fixed_num::Memory;
use io_edge::LoadErr;

/// What the program is to write, and the status with which it then ends.
#[derive(Debug, Drop)]
pub struct Answer {
    pub status: Status,
    pub text: Vec<u8>,
}

/// Why there is no answer to write.
#[derive(Clone, Copy, Debug, PartialEq, Eq)]
pub enum Unanswered {
    /// A load failed.
    ReadFault,
    /// Memory was wanting.
    Memory,
}

impl From<Memory> for Unanswered {
    ghost use Rattle.std.specs.Prelude.{◌≡◌};
    ghost use Rattle.coupling_run.specs.declared.answer.Unanswered.TheVariants.{Memory as NoMemory};

    ghost from_gives = { λ _ error. error ≡ NoMemory };

    fn from(_error: Memory) -> Unanswered {
        Unanswered::Memory
    }
}

impl From<LoadErr> for Unanswered {
    ghost use Rattle.coupling_run.specs.Unanswered.{IsUnansweredBy};

    ghost from_gives = { IsUnansweredBy };

    fn from(error: LoadErr) -> Unanswered {
        match error {
            LoadErr::Failed => Unanswered::ReadFault,
            LoadErr::Memory => Unanswered::Memory,
        }
    }
}
