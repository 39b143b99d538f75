ghost use Rattle.std.specs.Prelude.{◌≡◌, ℕ, ◌<◌, ◌≤◌, ◌↔◌, [], ◌∷◌, ◌++◌, length, take, IsTrue, IsErr, IfOk, OnOk, OnErr, Some, None};
ghost use Rattle.io_edge.specs.MemorySink.{put_fails, put_length, after_put};
ghost use Rattle.io_edge.specs.Rose.{Rose};

use crate::sink::{PutErr, Sink};
use fixed_num::Memory;
use std::alloc::Global;
use std::marker::Model;

/// A sink in memory with so much room, for tests: it keeps what it takes, and chosen puts fail.
///
/// All its room is reserved by `new`, so a put needs no memory.
#[derive(Debug, Drop)]
pub struct MemSink {
    bytes: Vec<u8>,
    room: usize,
    most: Option<usize>,
    failing: Vec<u64>,
    puts: u64,
    faults: u64,
}

impl Model for MemSink {
    ghost use Rattle.std.specs.Prelude.{◌≤◌, ◌<◌, vec_len, vec_capacity, IfSome};
    ghost use Rattle.io_edge.specs.MemorySink.{MemorySink};

    ghost Value = { MemorySink };

    ghost view = { λ s. record {
      taken = s.bytes.items;
      room = s.room;
      most = s.most;
      failing = s.failing.items;
      puts = s.puts;
      faults = s.faults;
    } };

    // what is taken fits the room, the room is reserved, and each put may take a byte
    ghost invariant = { λ s.
        (vec_len s.bytes ≤ s.room)
        × (s.room ≤ vec_capacity s.bytes)
        × IfSome s.most (λ most. 0 < most) };
}

impl MemSink {
    /// A sink that has taken nothing, with room for so many bytes and no put that is to fail.
    pub fn new(alloc: Global, room: usize) -> Result<MemSink, Memory>
        ensures { IfOk result (λ sink. sink
            ≡ record { taken = []; room = room; most = None; failing = []; puts = 0; faults = 0 }) }
    {
        Ok(MemSink {
            bytes: Vec::with_capacity(alloc, room)?,
            room,
            most: None,
            failing: Vec::new(alloc),
            puts: 0,
            faults: 0,
        })
    }

    /// Lets the put with this number fail; a put's number is the count of puts before it, from 0.
    pub fn fail_at(&mut self, call: u64) -> Result<(), Memory>
        ensures ok { OnOk result (self.new
            ≡ record self.old { failing = self.old.failing ++ call ∷ [] }) }
        ensures err { OnErr result (self.new ≡ self.old) }
    {
        self.failing.push(call)?;
        Ok(())
    }

    /// Lets each put from now on take `n` bytes at most.
    pub fn most_per_put(&mut self, n: usize)
        requires { 0 < n }
        ensures { self.new ≡ record self.old { most = Some n } }
    {
        self.most = Some(n);
    }

    /// All bytes taken so far.
    pub fn bytes(&self) -> &[u8]
        ensures { result.now ≡ self.now.taken }
    {
        self.bytes.as_slice()
    }
}

impl Sink for MemSink {
    ghost taken = { λ s. Some s.taken };

    ghost faults = { λ s. s.faults };

    /// Failed exactly where the put's number is listed, or the piece is not empty and the room is
    /// used up. Else it takes as many bytes as the piece, the room and `most_per_put` allow.
    fn put(&mut self, bytes: &[u8]) -> Result<usize, PutErr>
        ensures within { IfOk result (λ n. n ≤ length bytes.now) }
        ensures progress { IfOk result (λ n. 0 < length bytes.now → 0 < n) }
        ensures ok { IfOk result (λ n. self.new.taken ≡ self.old.taken ++ take n bytes.now) }
        ensures failed { OnErr result (Rose self.old.faults self.new.faults) }
        ensures err { OnErr result (self.new.taken ≡ self.old.taken) }
        ensures never_falls { self.old.faults ≤ self.new.faults }

        // When it fails, how many bytes it takes, and what it counts:
        ensures exactly { IsErr result ↔ IsTrue (put_fails self.old bytes.now) }
        ensures count { IfOk result (λ n. n ≡ put_length self.old bytes.now) }
        ensures after { self.new ≡ after_put self.old bytes.now }
    {
        let number = self.puts;
        self.puts = self.puts.saturating_add(1);
        let left = self.room - self.bytes.len();
        let is_full = !bytes.is_empty() && left == 0;
        if is_full || self.failing.contains(&number) {
            self.faults = self.faults.saturating_add(1);
            return Err(PutErr::Failed);
        }
        let fits = bytes.len().min(left);
        let count = self.most.map_or(fits, |most| fits.min(most));
        self.bytes.extend_from_slice(&bytes[..count]).unwrap();
        Ok(count)
    }
}
