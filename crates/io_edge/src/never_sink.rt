ghost use Rattle.std.specs.Prelude.{◌≡◌, length, None};

use crate::sink::{PutErr, Sink};

/// A sink that takes every piece whole and keeps nothing of it.
#[derive(Clone, Copy, Debug, PartialEq, Eq)]
pub struct NeverSink;

impl NeverSink {
    /// A sink that has taken nothing.
    pub fn new() -> NeverSink {
        NeverSink
    }
}

impl Default for NeverSink {
    fn default() -> NeverSink {
        NeverSink::new()
    }
}

impl Sink for NeverSink {
    ghost taken = { λ _. None };

    ghost faults = { λ _. 0 };

    fn put(&mut self, bytes: &[u8]) -> Result<usize, PutErr>
        ensures { result ≡ Ok (length bytes.now) }
    {
        Ok(bytes.len())
    }
}
