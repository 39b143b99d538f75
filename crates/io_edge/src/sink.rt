ghost use Rattle.std.specs.Prelude.{◌≡◌, ℕ, ◌<◌, ◌≤◌, List, length, take, IfOk, OnOk, OnErr, Option};
ghost use Rattle.io_edge.specs.Rose.{Rose};
ghost use Rattle.io_edge.specs.Taken.{taken_more, TookPrefix};

use thiserror::Error;

/// Why a put took nothing.
#[derive(Clone, Copy, Debug, PartialEq, Eq, Error)]
pub enum PutErr {
    /// The bytes could not be written, and the count of faults says so.
    #[error("the put failed")]
    Failed,
}

/// What takes bytes in order, piece by piece.
pub trait Sink {
    // All bytes taken so far, where that is told.
    ghost taken: { Self → Option (List ℕ) };

    // How many puts failed so far; the count may stop at 2^64 - 1.
    ghost faults: { Self → ℕ };

    /// Takes the first bytes of a piece and gives their number, at least 1 unless the piece is empty.
    fn put(&mut self, bytes: &[u8]) -> Result<usize, PutErr>
        ensures within { IfOk result (λ n. n ≤ length bytes.now) }
        ensures progress { IfOk result (λ n. 0 < length bytes.now → 0 < n) }
        ensures ok { IfOk result (λ n. taken self.new ≡ taken_more (taken self.old) (take n bytes.now)) }
        ensures failed { OnErr result (Rose (faults self.old) (faults self.new)) }
        ensures err { OnErr result (taken self.new ≡ taken self.old) }
        ensures never_falls { faults self.old ≤ faults self.new };
}

/// Puts all the bytes, piece after piece.
///
/// After an error the sink has taken some first part of them.
pub fn put_all<O: Sink>(out: &mut O, bytes: &[u8]) -> Result<(), PutErr>
    ensures ok { OnOk result (O.taken out.new ≡ taken_more (O.taken out.old) bytes.now) }
    ensures failed { OnErr result (Rose (O.faults out.old) (O.faults out.new)) }
    ensures err { OnErr result (TookPrefix (O.taken out.old) (O.taken out.new) bytes.now) }
    ensures never_falls { O.faults out.old ≤ O.faults out.new }
{
    let mut rest = bytes;
    while !rest.is_empty() {
        let count = out.put(rest)?;
        rest = rest.split_at(count).1;
    }
    Ok(())
}
