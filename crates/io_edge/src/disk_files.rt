ghost use Rattle.std.specs.Prelude.{◌≡◌, ◌≤◌, None, true, OnOk, OnErr, IsErrOf};
ghost use Rattle.io_edge.specs.Counter.{next_count};
ghost use Rattle.io_edge.specs.Loads.{AppendsSome};
ghost use Rattle.io_edge.specs.Rose.{Rose};

use crate::files::{Files, LoadErr};
use crate::reading::load_from;
use std::fs;
use std::marker::Model;
use std::rt::Files as RuntimeFiles;

/// The files of a runtime: every name may be asked, as it stands, and no content is known.
///
/// Of an opened file [`load_from`] reads on to the end. Any error of the runtime counts as a failure, also that a call was interrupted.
#[derive(Drop)]
pub struct DiskFiles<'a, R> {
    rt: &'a R,
    faults: u64,
}

impl<'a, R> Model for DiskFiles<'a, R> {
    ghost use Rattle.std.specs.Prelude.{ℕ};

    // the count of faults
    ghost Value = { ℕ };

    ghost view = { λ d. d.faults };
}

impl<'a, R: RuntimeFiles> DiskFiles<'a, R> {
    /// The files that the runtime opens, with the count of faults at 0.
    pub fn new(rt: &'a R) -> DiskFiles<'a, R>
        ensures { result ≡ 0 }
    {
        DiskFiles { rt, faults: 0 }
    }
}

impl<R: RuntimeFiles> Files for DiskFiles<'_, R> {
    ghost told = { λ _. None };

    ghost may_ask = { λ _ _. true };

    ghost faults = { λ count. count };

    fn load(&mut self, name: &str, most: usize, into: &mut Vec<u8>) -> Result<(), LoadErr>
        ensures ok { OnOk result (AppendsSome most into.old.items into.new.items) }
        ensures failed { IsErrOf result LoadErr.Failed → Rose self.old self.new }
        ensures err { OnErr result (into.new.items ≡ into.old.items) }
        ensures never_falls { self.old ≤ self.new }

        // Each failure counts, and nothing else does.
        ensures counted { IsErrOf result LoadErr.Failed → self.new ≡ next_count self.old }
        ensures uncounted { ¬ IsErrOf result LoadErr.Failed → self.new ≡ self.old }
    {
        let loaded = load_named(self.rt, name, most, into);
        if let Err(LoadErr::Failed) = loaded {
            self.faults = self.faults.saturating_add(1);
        }
        loaded
    }
}

fn load_named<R: RuntimeFiles>(
    rt: &R,
    name: &str,
    most: usize,
    into: &mut Vec<u8>,
) -> Result<(), LoadErr>
    ensures ok { OnOk result (AppendsSome most into.old.items into.new.items) }
    ensures err { OnErr result (into.new.items ≡ into.old.items) }
{
    let mut file = fs::open(rt, name).map_err(|_| LoadErr::Failed)?;
    load_from(&mut file, most, into)
}
