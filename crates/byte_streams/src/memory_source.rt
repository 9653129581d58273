// A source in memory with calls that fail.
ghost use Rattle.std.specs.Prelude.{◌≡◌, ◌<◌, length};
ghost use Rattle.byte_streams.specs.Memory.{MemorySourceState, source_state, answer, after_pull};
ghost use Rattle.byte_streams.specs.Stream.{PullDid};

use crate::steady_source::SteadySource;
use crate::stream::{Pulled, Source};
use std::marker::Model;

/// Bytes in memory, given a piece at a time. The calls whose numbers, from 1, stand in a list fail, and are counted.
#[derive(Debug, Drop)]
pub struct MemorySource {
    source: SteadySource,
    fails: Vec<u64>,
    calls: u64,
    faults: u64,
}

impl Model for MemorySource {
    ghost Value = { MemorySourceState };

    ghost view = { λ s. record {
      left = s.source.left;
      piece = s.source.piece;
      fails = s.fails.items;
      calls = s.calls;
      faults = s.faults;
    } };
}

impl MemorySource {
    /// A source of these bytes that gives at most `piece` of them in a call, at least 1, and fails in the calls of these numbers, counted from 1.
    pub fn new(bytes: Vec<u8>, piece: usize, fails: Vec<u64>) -> MemorySource
        requires { 0 < piece }
        ensures { result ≡ record {
          left = bytes.items;
          piece = piece;
          fails = fails.items;
          calls = 0;
          faults = 0;
        } }
    {
        MemorySource {
            source: SteadySource::new(bytes, piece),
            fails,
            calls: 0,
            faults: 0,
        }
    }
}

impl Source for MemorySource {
    ghost state = { source_state };

    fn pull(&mut self, buffer: &mut [u8]) -> Pulled
        requires { 0 < length buffer.old }
        ensures did { PullDid result buffer.new (source_state self.old) (source_state self.new) }
        ensures exact { result ≡ answer self.old (length buffer.old) }
        ensures after { self.new ≡ after_pull self.old (length buffer.old) }
    {
        self.calls = self.calls.saturating_add(1);
        if self.fails.contains(&self.calls) {
            self.faults = self.faults.saturating_add(1);
            return Pulled::Failed;
        }
        self.source.pull(buffer)
    }
}
