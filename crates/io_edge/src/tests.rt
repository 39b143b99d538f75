ghost use Rattle.std.specs.Prelude.{List, ℕ, IsTrue};

use crate::{
    DiskFiles, Files, LoadErr, MemFiles, MemSink, NeverFiles, NeverSink, PutErr, Sink, StdSink,
    load_from, put_all, put_to,
};
use std::alloc::Global;
use std::io::Read;
use std::test::Fail;
use std::{env, fs, io, process};

// What a load gives of a name that may always be asked for.
fn loaded<F: Files>(
    files: &mut F,
    alloc: Global,
    name: &str,
    most: usize,
) -> Result<Vec<u8>, LoadErr>
    requires { (asked : List ℕ) → IsTrue (F.may_ask files.old asked) }
    ensures { (asked : List ℕ) → IsTrue (F.may_ask files.new asked) }
{
    let mut bytes = Vec::new(alloc);
    files.load(name, most, &mut bytes)?;
    Ok(bytes)
}

#[test]
fn files_in_memory(rt: HostRuntime) -> Result<(), Fail> {
    let mut files = MemFiles::new(rt.alloc());
    files.insert("a", b"one")?;
    files.insert("b", b"two")?;
    files.insert("a", b"three")?;
    files.fail_at(3)?;
    let mut into = [b'>'].to_vec(rt.alloc())?;
    let table: [(&str, usize, Result<(), LoadErr>, &[u8]); 7] = [
        ("a", 10, Ok(()), b">three"),
        ("a", 1, Ok(()), b">threeth"),
        ("c", 10, Err(LoadErr::Failed), b">threeth"),
        ("b", 10, Err(LoadErr::Failed), b">threeth"),
        ("b", 3, Ok(()), b">threethtwo"),
        ("b", 0, Ok(()), b">threethtwot"),
        ("b", usize::MAX, Ok(()), b">threethtwottwo"),
    ];
    for (name, most, answer, bytes) in table {
        assert_eq!(rt; files.load(name, most, &mut into), answer, "{name} {most}");
        assert_eq!(rt; into.as_slice(), bytes, "{name} {most}");
    }
    assert_eq!(rt;
        loaded(&mut files, rt.alloc(), "a", 4)?.as_slice(),
        b"three".as_slice()
    );
    Ok(())
}

#[test]
fn sink_in_memory(rt: HostRuntime) -> Result<(), Fail> {
    let mut sink = MemSink::new(rt.alloc(), 5)?;
    sink.fail_at(1)?;
    let first: [(&[u8], Result<usize, PutErr>, &[u8]); 2] = [
        (b"ab", Ok(2), b"ab"),
        (b"cd", Err(PutErr::Failed), b"ab"),
    ];
    for (piece, answer, bytes) in first {
        assert_eq!(rt; sink.put(piece), answer);
        assert_eq!(rt; sink.bytes(), bytes);
    }
    sink.most_per_put(2);
    let second: [(&[u8], Result<usize, PutErr>, &[u8]); 4] = [
        (b"cdef", Ok(2), b"abcd"),
        (b"efgh", Ok(1), b"abcde"),
        (b"fgh", Err(PutErr::Failed), b"abcde"),
        (b"", Ok(0), b"abcde"),
    ];
    for (piece, answer, bytes) in second {
        assert_eq!(rt; sink.put(piece), answer);
        assert_eq!(rt; sink.bytes(), bytes);
    }
    Ok(())
}

#[test]
fn all_bytes(rt: HostRuntime) -> Result<(), Fail> {
    let mut sink = MemSink::new(rt.alloc(), 8)?;
    sink.most_per_put(2);
    assert_eq!(rt; put_all(&mut sink, b"abcde"), Ok(()));
    assert_eq!(rt; sink.bytes(), b"abcde".as_slice());
    assert_eq!(rt; put_all(&mut sink, b"fghij"), Err(PutErr::Failed));
    assert_eq!(rt; sink.bytes(), b"abcdefgh".as_slice());
    Ok(())
}

#[test]
fn outside_that_never_fails(rt: HostRuntime) -> Result<(), Fail> {
    let mut files = NeverFiles::new(rt.alloc());
    files.insert("a", b"one")?;
    let mut into = Vec::new(rt.alloc());
    assert_eq!(rt; files.load("a", 10, &mut into), Ok(()));
    assert_eq!(rt; into.as_slice(), b"one".as_slice());
    assert_eq!(rt; put_all(&mut NeverSink::new(), b"abc"), Ok(()));
    Ok(())
}

// Gives one byte at a time, and fails after so many reads.
#[derive(Drop)]
struct Drops<'a> {
    left: &'a [u8],
    reads: usize,
}

impl Read for Drops<'_> {
    fn read(&mut self, buf: &mut [u8]) -> io::Result<usize> {
        if self.reads == 0 {
            return Err(io::Error::other("cut off"));
        }
        self.reads -= 1;
        let end = buf.len().min(1);
        self.left.read(&mut buf[..end])
    }
}

#[test]
fn a_reader_that_gives_little_is_read_to_its_end(rt: HostRuntime) -> Result<(), Fail> {
    let table: [(usize, usize, Result<(), LoadErr>, &[u8]); 6] = [
        (10, 10, Ok(()), b">stream"),
        (5, 6, Ok(()), b">stream"),
        (6, 7, Ok(()), b">stream"),
        (6, 6, Err(LoadErr::Failed), b">"),
        (2, 3, Ok(()), b">str"),
        (10, 3, Err(LoadErr::Failed), b">"),
    ];
    for (most, reads, answer, bytes) in table {
        let mut into = [b'>'].to_vec(rt.alloc())?;
        let mut from = Drops {
            left: b"stream",
            reads,
        };
        assert_eq!(rt;
            load_from(&mut from, most, &mut into),
            answer,
            "{most} {reads}"
        );
        assert_eq!(rt; into.as_slice(), bytes, "{most} {reads}");
    }
    Ok(())
}

#[test]
fn a_writer_takes_what_it_has_room_for(rt: HostRuntime) {
    let mut room = [0u8; 3];
    let mut out = &mut room[..];
    let table: [(&[u8], Result<usize, PutErr>); 4] = [
        (b"ab", Ok(2)),
        (b"cd", Ok(1)),
        (b"d", Err(PutErr::Failed)),
        (b"", Ok(0)),
    ];
    for (piece, answer) in table {
        assert_eq!(rt; put_to(&mut out, piece), answer);
    }
}

// The name has a blank at its end: without it, or with one more in front, it is another file's.
#[test]
fn files_on_disk(rt: HostRuntime) -> Result<(), Fail> {
    let alloc = rt.alloc();
    let dir = env::temp_dir(&rt)?;
    let number = process::id(rt.process());
    let path = format!(in alloc; "{}/io_edge_{number}.txt ", dir.display())?;
    let name = path.as_str();
    let content = vec![in alloc; b'x'; 5000]?;
    let mut files = DiskFiles::new(&rt);
    let missing = loaded(&mut files, alloc, name, 10).err();
    fs::write(&rt, name, content.as_slice())?;
    let whole = loaded(&mut files, alloc, name, 10_000);
    let start = loaded(&mut files, alloc, name, 4500);
    let shorter = loaded(&mut files, alloc, name.trim_end(), 10).err();
    let longer = format!(in alloc; " {name}")?;
    let longer = loaded(&mut files, alloc, longer.as_str(), 10).err();
    fs::remove_file(&rt, name)?;
    assert_eq!(rt; [missing, shorter, longer], [Some(LoadErr::Failed); 3]);
    assert_eq!(rt; whole?.as_slice(), content.as_slice());
    assert_eq!(rt; start?.len(), 4501);
    Ok(())
}

#[test]
fn standard_output(rt: HostRuntime) {
    let mut sink = StdSink::new(&rt);
    assert_eq!(rt; sink.put(b"a few bytes\n"), Ok(12));
    assert_eq!(rt; sink.put(b""), Ok(0));
}
