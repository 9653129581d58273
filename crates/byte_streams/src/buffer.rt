// The bytes that were taken from a source and not yet used.
ghost use Rattle.std.specs.Prelude.{◌≡◌, ◌<◌, ◌≤◌, ◌+◌, ◌++◌, [], List, ℕ, length, take, drop, IfOk, OnErr};
ghost use Rattle.byte_streams.specs.Buffered.{FillDid, pulled_count, AppendsRoom, line_length};
ghost use Rattle.byte_streams.specs.Stream.{PullDid};

use crate::stream::{Pulled, Source};
use memchr::memchr;
use std::alloc::{AllocError, Global};
use std::marker::Model;

/// How many bytes a source is offered room for, so the most that one pull gives.
pub const PULL_SIZE: usize = 65_536;

/// Bytes taken from a source and not yet used, in one piece. Contracts see the list of them.
#[derive(Debug, Drop)]
pub struct Buffer {
    // What was taken, from `start` on not yet used.
    bytes: Vec<u8>,
    start: usize,
    // No line ends in the first `scanned` bytes that are not yet used.
    scanned: usize,
}

impl Model for Buffer {
    ghost use Rattle.std.specs.Prelude.{List, ℕ, drop};
    ghost use Rattle.byte_streams.specs.Buffered.{IsScanned};

    ghost Value = { List ℕ };

    ghost view = { λ b. drop b.start b.bytes.items };

    ghost invariant = { λ b. IsScanned b.bytes.items b.start b.scanned };
}

impl Buffer {
    /// An empty buffer. It takes no memory before the first fill.
    pub fn new(alloc: Global) -> Self
        ensures { result ≡ [] }
    {
        Buffer {
            bytes: Vec::new(alloc),
            start: 0,
            scanned: 0,
        }
    }

    /// The bytes.
    pub fn bytes(&self) -> &[u8]
        ensures { result.now ≡ self.now }
    {
        let (_, unused) = self.bytes.as_slice().split_at(self.start);
        unused
    }

    /// Takes the first bytes out. No byte is moved.
    pub fn skip(&mut self, count: usize)
        requires { count ≤ length self.old }
        ensures { self.new ≡ drop count self.old }
    {
        self.start += count;
        self.scanned = 0;
    }

    /// How many bytes stand before the first byte 10: all, if there is none. A byte is looked at once, however often this is asked.
    pub fn line_length(&mut self) -> usize
        ensures value { result ≡ line_length self.old }
        ensures same { self.new ≡ self.old }
    {
        let length = line_length_from(self.bytes(), self.scanned);
        self.scanned = length;
        length
    }

    /// Pulls once, with room for 65536 bytes. The memory for them is there before the pull, so where it is wanted nothing is taken.
    pub fn fill<S: Source>(&mut self, source: &mut S) -> Result<Pulled, AllocError>
        ensures did { FillDid result self.old self.new (S.state source.old) (S.state source.new) }
        ensures wanted { OnErr result (source.new ≡ source.old) }
    {
        self.close_up();
        let end = self.bytes.len();
        open_room(&mut self.bytes)?;
        let pulled = pull_behind(&mut self.bytes, end, source);
        self.bytes.truncate(end + pulled_count(pulled));
        Ok(pulled)
    }

    // Moves the bytes to the start of the memory, so that what was used can be written over.
    fn close_up(&mut self)
        ensures { self.new ≡ self.old }
    {
        if self.start > 0 {
            move_down(&mut self.bytes, self.start);
            self.start = 0;
        }
    }
}

// The number of bytes before the first byte 10, where it is known that none of the first `from` is one.
fn line_length_from(bytes: &[u8], from: usize) -> usize
    requires { from ≤ line_length bytes.now }
    ensures { result ≡ line_length bytes.now }
{
    match memchr(b'\n', &bytes[from..]) {
        Some(more) => from + more,
        None => bytes.len(),
    }
}

// Takes away the first bytes.
fn move_down(bytes: &mut Vec<u8>, count: usize)
    requires { count ≤ length bytes.old.items }
    ensures { bytes.new.items ≡ drop count bytes.old.items }
{
    let left = bytes.len() - count;
    bytes.as_mut_slice().copy_within(count.., 0);
    bytes.truncate(left);
}

// Puts room for one pull behind the bytes.
fn open_room(bytes: &mut Vec<u8>) -> Result<(), AllocError>
    ensures { AppendsRoom result bytes.old.items bytes.new.items }
{
    let end = bytes.len();
    let room = end.checked_add(PULL_SIZE).ok_or(AllocError)?;
    bytes.resize(room, 0)?;
    Ok(())
}

// How many bytes were given.
fn pulled_count(pulled: Pulled) -> usize
    ensures { result ≡ pulled_count pulled }
{
    match pulled {
        Pulled::Got(count) => count,
        Pulled::End | Pulled::Failed => 0,
    }
}

// Pulls into what stands behind the first `end` bytes.
fn pull_behind<S: Source>(bytes: &mut Vec<u8>, end: usize, source: &mut S) -> Pulled
    requires { end < length bytes.old.items }
    ensures front { take end bytes.new.items ≡ take end bytes.old.items }
    ensures same_length { length bytes.new.items ≡ length bytes.old.items }
    ensures did { PullDid result (drop end bytes.new.items) (S.state source.old) (S.state source.new) }
{
    let (_, room) = bytes.as_mut_slice().split_at_mut(end);
    source.pull(room)
}
