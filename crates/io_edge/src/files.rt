ghost use Rattle.std.specs.Prelude.{◌≡◌, ℕ, ◌≤◌, List, Bool, IsTrue, OnOk, OnErr, IsErrOf, Option};
ghost use Rattle.io_edge.specs.FileMap.{FileMap};
ghost use Rattle.io_edge.specs.Loads.{Loads};
ghost use Rattle.io_edge.specs.Rose.{Rose};
ghost use Rattle.io_edge.specs.declared.files.LoadErr.TheVariants.{Memory as NoMemory};

use std::alloc::AllocError;
use thiserror::Error;

/// Why a load gave no bytes.
#[derive(Clone, Copy, Debug, PartialEq, Eq, Error)]
pub enum LoadErr {
    /// The file could not be read, and the count of faults says so.
    #[error("the load failed")]
    Failed,
    /// There was no memory for the bytes. This answer is free: no contract ties it to a cause.
    #[error("out of memory")]
    Memory,
}

impl From<AllocError> for LoadErr {
    ghost from_gives = { λ _ error. error ≡ NoMemory };

    fn from(_error: AllocError) -> LoadErr {
        LoadErr::Memory
    }
}

/// Files that can be loaded by name.
pub trait Files {
    // The bytes of each file by its name, where that is told.
    ghost told: { Self → Option FileMap };

    // Which names a load may ask for.
    ghost may_ask: { Self → List ℕ → Bool };

    // How many loads failed so far; the count may stop at 2^64 - 1.
    ghost faults: { Self → ℕ };

    /// Appends the bytes of a file, at most `most + 1` of them: the one byte more shows a caller
    /// that the file is longer than `most`.
    ///
    /// After an error `into` holds what it held before. A name that is known not to be there is
    /// never Ok.
    fn load(&mut self, name: &str, most: usize, into: &mut Vec<u8>) -> Result<(), LoadErr>
        requires { IsTrue (may_ask self.old name.now) }
        ensures ok { OnOk result
            (Loads (told self.old) name.now most into.old.items into.new.items) }
        ensures failed { IsErrOf result LoadErr.Failed → Rose (faults self.old) (faults self.new) }
        ensures err { OnErr result (into.new.items ≡ into.old.items) }

        // Whatever the answer is:
        ensures same_told { told self.new ≡ told self.old }
        ensures same_names { may_ask self.new ≡ may_ask self.old }
        ensures never_falls { faults self.old ≤ faults self.new };
}
