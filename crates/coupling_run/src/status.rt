ghost use Rattle.std.specs.Prelude.{◌≡◌};
ghost use Rattle.std.specs.Process.{exit_status};
ghost use Rattle.coupling_run.specs.Status.{status_number};

use std::process::ExitCode;

/// How the program ends. `ReadFault` and `Memory` write nothing, `WriteFault` a first part of the
/// text, the others the whole of it.
#[derive(Clone, Copy, Debug, PartialEq, Eq)]
pub enum Status {
    /// The report was written, or that the case is accepted.
    Ok,
    /// The words ask for nothing that is served.
    Usage,
    /// A load failed.
    ReadFault,
    /// A file is refused.
    Refused,
    /// A solver faulted.
    RunFault,
    /// A put failed.
    WriteFault,
    /// Memory was wanting.
    Memory,
}

impl Status {
    /// The status with which the program ends.
    pub fn number(self) -> u8
        ensures { result ≡ status_number self }
    {
        match self {
            Status::Ok => 0,
            Status::Usage => 2,
            Status::ReadFault => 3,
            Status::Refused => 4,
            Status::RunFault => 5,
            Status::WriteFault => 6,
            Status::Memory => 7,
        }
    }

    /// That number as the exit status of the program.
    pub fn exit_code(self) -> ExitCode
        ensures { exit_status result ≡ status_number self }
    {
        ExitCode::from(self.number())
    }
}
