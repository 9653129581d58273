// A source in memory that never fails.
ghost use Rattle.std.specs.Prelude.{◌≡◌, ◌<◌, ◌≤◌, length, take, drop};
ghost use Rattle.byte_streams.specs.Memory.{SteadySourceState, steady_state, share, got};
ghost use Rattle.byte_streams.specs.Stream.{PullDid};

use crate::stream::{Pulled, Source};
use std::marker::Model;

/// Bytes in memory, given a piece at a time. It never fails.
#[derive(Debug, Drop)]
pub struct SteadySource {
    bytes: Vec<u8>,
    at: usize,
    piece: usize,
}

impl Model for SteadySource {
    ghost Value = { SteadySourceState };

    ghost view = { λ s. record {
      left = drop s.at s.bytes.items;
      piece = s.piece;
    } };

    ghost invariant = { λ s. (s.at ≤ length s.bytes.items) × (0 < s.piece) };
}

impl SteadySource {
    /// A source of these bytes that gives at most `piece` of them in a call, at least 1.
    pub fn new(bytes: Vec<u8>, piece: usize) -> SteadySource
        requires { 0 < piece }
        ensures { result ≡ record {
          left = bytes.items;
          piece = piece;
        } }
    {
        SteadySource {
            bytes,
            at: 0,
            piece,
        }
    }
}

impl Source for SteadySource {
    ghost state = { steady_state };

    fn pull(&mut self, buffer: &mut [u8]) -> Pulled
        requires { 0 < length buffer.old }
        ensures did { PullDid result buffer.new (steady_state self.old) (steady_state self.new) }
        ensures exact { result ≡ got (share self.old.piece (length buffer.old) self.old.left) }
        ensures after { self.new ≡ record {
          left = drop (share self.old.piece (length buffer.old) self.old.left) self.old.left;
          piece = self.old.piece;
        } }
    {
        let count = give(&self.bytes, self.at, self.piece, buffer);
        self.at += count;
        if count == 0 {
            Pulled::End
        } else {
            Pulled::Got(count)
        }
    }
}

// Copies what is left of the bytes from `at` on into the buffer, as much as the piece and the buffer allow, and says how much.
fn give(bytes: &[u8], at: usize, piece: usize, buffer: &mut [u8]) -> usize
    requires { at ≤ length bytes.now }
    ensures count { result ≡ share piece (length buffer.old) (drop at bytes.now) }
    ensures given { take result buffer.new ≡ take result (drop at bytes.now) }
{
    let count = piece.min(buffer.len()).min(bytes.len() - at);
    buffer[..count].copy_from_slice(&bytes[at..at + count]);
    count
}
