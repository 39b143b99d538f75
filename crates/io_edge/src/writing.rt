ghost use Rattle.std.specs.Prelude.{◌<◌, ◌≤◌, length, take, IfOk, OnErr};
ghost use Rattle.std.specs.Io.KnownBytes.{Appends, Keeps};

use crate::sink::PutErr;
use std::io::Write;

/// Writes the first bytes of a piece and gives their number, at least 1 unless the piece is empty.
///
/// Failed where the write fails or takes no byte of a piece that is not empty.
pub fn put_to<W: Write>(out: &mut W, bytes: &[u8]) -> Result<usize, PutErr>
    ensures within { IfOk result (λ n. n ≤ length bytes.now) }
    ensures progress { IfOk result (λ n. 0 < length bytes.now → 0 < n) }
    ensures ok { IfOk result (λ n. Appends (W.contents out.old) (W.contents out.new) (take n bytes.now)) }
    ensures err { OnErr result (Keeps (W.contents out.old) (W.contents out.new)) }
{
    match out.write(bytes) {
        Ok(count) if count > 0 || bytes.is_empty() => Ok(count),
        _ => Err(PutErr::Failed),
    }
}
