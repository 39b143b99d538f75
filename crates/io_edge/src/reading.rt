ghost use Rattle.std.specs.Prelude.{◌≡◌, ℕ, ◌+◌, ◌<◌, ◌≤◌, ◌++◌, List, length, IfSome, IfOk, OnOk, OnErr};
ghost use Rattle.std.specs.Io.KnownBytes.{Consumes, IsAtEnd};
ghost use Rattle.io_edge.specs.Loads.{AppendsFile, AppendsSome};

use crate::files::LoadErr;
use std::io::Read;

/// How many bytes are read at a time.
const PIECE: usize = 4096;

/// Appends the bytes that a reader has left, at most `most + 1` of them.
///
/// It reads on until it has so many or nothing is left, however few bytes one read gives. Failed
/// where a read fails; after an error `into` is as before.
pub fn load_from<F: Read>(from: &mut F, most: usize, into: &mut Vec<u8>) -> Result<(), LoadErr>
    ensures some { OnOk result (AppendsSome most into.old.items into.new.items) }
    // Where what is left is known, its first bytes are appended, and no other ones.
    ensures first { OnOk result (IfSome (F.remaining from.old)
        (λ left. AppendsFile left most into.old.items into.new.items)) }
    ensures err { OnErr result (into.new.items ≡ into.old.items) }
{
    let before = into.len();
    let read = append_from(from, most, into);
    if read.is_err() {
        into.truncate(before);
    }
    read
}

// The same, but that an error may leave bytes behind the old ones.
fn append_from<F: Read>(from: &mut F, most: usize, into: &mut Vec<u8>) -> Result<(), LoadErr>
    ensures some { AppendsSome most into.old.items into.new.items }
    ensures first { OnOk result (IfSome (F.remaining from.old)
        (λ left. AppendsFile left most into.old.items into.new.items)) }
{
    let before = into.len();
    while into.len() - before <= most {
        let wanted = most - (into.len() - before);
        let count = append_piece(from, wanted, into)?;
        if count == 0 {
            return Ok(());
        }
    }
    Ok(())
}

// Appends the bytes of one read, `wanted + 1` at most, and gives their number: 0 where none is left.
fn append_piece<F: Read>(from: &mut F, wanted: usize, into: &mut Vec<u8>) -> Result<usize, LoadErr>
    ensures within { IfOk result (λ n. n ≤ wanted + 1) }
    ensures ok { IfOk result (λ n. (piece : List ℕ) × (length piece ≡ n)
        × (into.new.items ≡ into.old.items ++ piece)
        × Consumes (F.remaining from.old) (F.remaining from.new) piece) }
    ensures end { IfOk result (λ n. n ≡ 0 → IsAtEnd (F.remaining from.new)) }
    ensures err { OnErr result (into.new.items ≡ into.old.items) }
{
    let mut piece = [0u8; PIECE];
    let end = wanted.min(PIECE - 1) + 1;
    append_read(from, &mut piece[..end], into)
}

// Appends what one read writes into the piece.
fn append_read<F: Read>(
    from: &mut F,
    piece: &mut [u8],
    into: &mut Vec<u8>,
) -> Result<usize, LoadErr>
    requires { 0 < length piece.old }
    ensures within { IfOk result (λ n. n ≤ length piece.old) }
    ensures ok { IfOk result (λ n. (bytes : List ℕ) × (length bytes ≡ n)
        × (into.new.items ≡ into.old.items ++ bytes)
        × Consumes (F.remaining from.old) (F.remaining from.new) bytes) }
    ensures end { IfOk result (λ n. n ≡ 0 → IsAtEnd (F.remaining from.new)) }
    ensures err { OnErr result (into.new.items ≡ into.old.items) }
{
    let Ok(count) = from.read(piece) else {
        return Err(LoadErr::Failed);
    };
    into.extend_from_slice(&piece[..count])?;
    Ok(count)
}
