ghost use Rattle.std.specs.Prelude.{◌≡◌, ◌<◌, ◌≤◌, length, None, IfOk, OnOk, OnErr};
ghost use Rattle.io_edge.specs.Counter.{next_count};
ghost use Rattle.io_edge.specs.Rose.{Rose};

use crate::sink::{PutErr, Sink};
use crate::writing::put_to;
use std::io;
use std::marker::Model;

/// The standard output of a runtime: what it takes is not known.
///
/// Any error of a write counts as a failure, also that it was interrupted.
#[derive(Drop)]
pub struct StdSink<'a, R> {
    rt: &'a R,
    faults: u64,
}

impl<'a, R> Model for StdSink<'a, R> {
    ghost use Rattle.std.specs.Prelude.{ℕ};

    // the count of faults
    ghost Value = { ℕ };

    ghost view = { λ s. s.faults };
}

impl<'a, R: Print> StdSink<'a, R> {
    /// The standard output of the runtime, with the count of faults at 0.
    pub fn new(rt: &'a R) -> StdSink<'a, R>
        ensures { result ≡ 0 }
    {
        StdSink { rt, faults: 0 }
    }
}

impl<R: Print> Sink for StdSink<'_, R> {
    ghost taken = { λ _. None };

    ghost faults = { λ count. count };

    /// A write of no byte of a piece that is not empty is a fault, as an error is.
    fn put(&mut self, bytes: &[u8]) -> Result<usize, PutErr>
        ensures within { IfOk result (λ n. n ≤ length bytes.now) }
        ensures progress { IfOk result (λ n. 0 < length bytes.now → 0 < n) }
        ensures failed { OnErr result (Rose self.old self.new) }
        ensures never_falls { self.old ≤ self.new }

        // Each failure counts, and nothing else does.
        ensures counted { OnErr result (self.new ≡ next_count self.old) }
        ensures uncounted { OnOk result (self.new ≡ self.old) }
    {
        let put = put_to(&mut io::writer(self.rt), bytes);
        if put.is_err() {
            self.faults = self.faults.saturating_add(1);
        }
        put
    }
}
