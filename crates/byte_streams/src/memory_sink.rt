// A sink in memory.
ghost use Rattle.std.specs.Prelude.{◌≡◌, ◌+◌, ◌<◌, ◌≤◌, [], length, vec_len, vec_capacity, IfOk};
ghost use Rattle.byte_streams.specs.Memory.{MemorySinkState, sink_state, put_answer, after_put};
ghost use Rattle.byte_streams.specs.Stream.{PutDid};

use crate::stream::{Put, Sink};
use std::alloc::{AllocError, Global};
use std::marker::Model;

/// A sink in memory, which takes a piece at a time, up to its room. The calls whose numbers, from 1, stand in a list fail, and
/// so do those where no room is left; they are counted.
#[derive(Debug, Drop)]
pub struct MemorySink {
    held: Vec<u8>,
    room: usize,
    piece: usize,
    fails: Vec<u64>,
    calls: u64,
    faults: u64,
}

impl Model for MemorySink {
    ghost Value = { MemorySinkState };

    ghost view = { λ s. record {
      held = s.held.items;
      room = s.room;
      piece = s.piece;
      fails = s.fails.items;
      calls = s.calls;
      faults = s.faults;
    } };

    ghost invariant = { λ s. (vec_len s.held + s.room ≤ vec_capacity s.held) × (0 < s.piece) };
}

impl MemorySink {
    /// An empty sink with room for this many bytes, which it reserves. It takes at most `piece` bytes in a call, at least 1, and fails in
    /// the calls of these numbers, counted from 1. The error is that memory is wanted.
    pub fn new(
        alloc: Global,
        room: usize,
        piece: usize,
        fails: Vec<u64>,
    ) -> Result<MemorySink, AllocError>
        requires { 0 < piece }
        ensures { IfOk result (λ sink. sink ≡ record {
          held = [];
          room = room;
          piece = piece;
          fails = fails.items;
          calls = 0;
          faults = 0;
        }) }
    {
        let held = Vec::with_capacity(alloc, room)?;
        Ok(MemorySink {
            held,
            room,
            piece,
            fails,
            calls: 0,
            faults: 0,
        })
    }

    /// The bytes that it took.
    pub fn content(&self) -> &[u8]
        ensures { result.now ≡ self.now.held }
    {
        &self.held
    }
}

impl Sink for MemorySink {
    ghost state = { sink_state };

    fn put(&mut self, piece: &[u8]) -> Put
        requires { 0 < length piece.now }
        ensures did { PutDid result piece.now (sink_state self.old) (sink_state self.new) }
        ensures exact { result ≡ put_answer self.old piece.now }
        ensures after { self.new ≡ after_put self.old piece.now }
    {
        self.calls = self.calls.saturating_add(1);
        if self.fails.contains(&self.calls) {
            self.faults = self.faults.saturating_add(1);
            return Put::Failed;
        }
        let count = self.piece.min(piece.len()).min(self.room);
        if count == 0 {
            self.faults = self.faults.saturating_add(1);
            return Put::Failed;
        }
        let (taken, _) = piece.split_at(count);
        self.held.extend_from_slice(taken).unwrap();
        self.room -= count;
        Put::Took(count)
    }
}
