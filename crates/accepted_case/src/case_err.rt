use crate::parts::RefusedCase;
use fixed_num::Memory;
use io_edge::LoadErr;
use std::alloc::AllocError;
use thiserror::Error;

/// Why files gave no accepted case.
#[derive(Debug, Drop, Error)]
pub enum CaseErr {
    /// A load failed.
    #[error("a file could not be read")]
    ReadFault,
    /// The files break a rule.
    #[error("the files break a rule")]
    Refused(RefusedCase),
    /// Memory was wanting. This answer is free: no contract ties it to a cause.
    #[error("out of memory")]
    Memory,
}

impl From<Memory> for CaseErr {
    ghost use Rattle.std.specs.Prelude.{◌≡◌};
    ghost use Rattle.accepted_case.specs.declared.case_err.CaseErr.TheVariants.{Memory as NoMemory};

    ghost from_gives = { λ _ error. error ≡ NoMemory };

    fn from(_error: Memory) -> CaseErr {
        CaseErr::Memory
    }
}

impl From<AllocError> for CaseErr {
    ghost use Rattle.std.specs.Prelude.{◌≡◌};
    ghost use Rattle.accepted_case.specs.declared.case_err.CaseErr.TheVariants.{Memory as NoMemory};

    ghost from_gives = { λ _ error. error ≡ NoMemory };

    fn from(_error: AllocError) -> CaseErr {
        CaseErr::Memory
    }
}

impl From<LoadErr> for CaseErr {
    ghost use Rattle.accepted_case.specs.Answers.{IsToldBy};

    ghost from_gives = { IsToldBy };

    fn from(error: LoadErr) -> CaseErr {
        match error {
            LoadErr::Failed => CaseErr::ReadFault,
            LoadErr::Memory => CaseErr::Memory,
        }
    }
}
