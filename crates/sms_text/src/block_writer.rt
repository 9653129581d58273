// A buffer in front of a sink.
ghost use Rattle.std.specs.Prelude.{◌≡◌, ℕ, ◌+◌, ◌≤◌, List, [], ◌++◌, length, All};
ghost use Rattle.byte_streams.specs.Writing.{Writes, Adds, output};
ghost use Rattle.std.specs.Fmt.{decimal};
ghost use Rattle.sms_text.specs.Written.{head_line, entry_line, pair_line, pair_lines, end_line, IsSmallPlace};

use crate::short_bytes::ShortBytes;
use crate::write::{entry, head, pair};
use byte_streams::{Sink, WriteFault, put_all};
use itoa::Buffer;
use residue_words::plain::Pair;
use std::marker::Model;

/// Bytes on their way to one sink, which reach it in blocks of more than 28,672 bytes and a last one of what is left: each put is a call
/// of the system, and in blocks of 8,192 bytes writing took a third longer. It takes no memory.
/// After a fault what was waiting is given up, and the sink has a first part of what was written.
#[derive(Debug, Drop)]
pub struct BlockWriter {
    waiting: ShortBytes<32768>,
}

impl Model for BlockWriter {
    ghost Value = { List ℕ };

    ghost view = { λ b. b.waiting };
}

impl BlockWriter {
    /// Nothing is waiting.
    pub fn new() -> BlockWriter
        ensures { result ≡ [] }
    {
        BlockWriter {
            waiting: ShortBytes::new(),
        }
    }

    /// Sends what is waiting.
    pub fn send<K: Sink>(&mut self, out: &mut K) -> Result<(), WriteFault>
        ensures did { Writes result self.old (K.state out.old) (K.state out.new) }
        ensures empty { self.new ≡ [] }
    {
        let sent = put_all(out, self.waiting.bytes());
        self.waiting.clear();
        sent
    }

    /// Adds a piece of at most 4,096 bytes. Nothing goes to the sink as long as there is room for 8,192 bytes.
    pub fn add<K: Sink>(&mut self, out: &mut K, piece: &[u8]) -> Result<(), WriteFault>
        requires { length piece.now ≤ 4096 }
        ensures did { Adds result piece.now
            (output self.old (K.state out.old)) (output self.new (K.state out.new)) }
        ensures lazy { length self.old + length piece.now ≤ 8192 → out.new ≡ out.old }
    {
        if self.waiting.room() < piece.len() {
            self.send(out)?;
        }
        self.waiting.push(piece);
        Ok(())
    }

    /// Adds the header line of a matrix with m rows and n columns.
    pub fn add_head<K: Sink>(&mut self, out: &mut K, m: u32, n: u32) -> Result<(), WriteFault>
        ensures { Adds result (head_line m n)
            (output self.old (K.state out.old)) (output self.new (K.state out.new)) }
    {
        let line = head(m, n);
        self.add(out, line.bytes())
    }

    /// Adds the line of the value v at row i and column j, counted from 1.
    pub fn add_entry<K: Sink>(
        &mut self,
        out: &mut K,
        i: u32,
        j: u32,
        v: u64,
    ) -> Result<(), WriteFault>
        ensures { Adds result (entry_line i j v)
            (output self.old (K.state out.old)) (output self.new (K.state out.new)) }
    {
        let line = entry(i, j, v);
        self.add(out, line.bytes())
    }

    /// Adds a number in decimal.
    pub fn add_number<K: Sink>(&mut self, out: &mut K, n: u64) -> Result<(), WriteFault>
        ensures { Adds result (decimal n)
            (output self.old (K.state out.old)) (output self.new (K.state out.new)) }
    {
        let mut digits = Buffer::new();
        self.add(out, digits.format(n).as_bytes())
    }

    /// Adds a line of these bytes, at most 4,096, and two numbers with a space between them, as a first line has it of its words.
    pub fn add_title<K: Sink>(
        &mut self,
        out: &mut K,
        words: &[u8],
        p: u64,
        count: u64,
    ) -> Result<(), WriteFault>
        requires { length words.now ≤ 4096 }
        ensures { Adds result (words.now ++ pair_line p count)
            (output self.old (K.state out.old)) (output self.new (K.state out.new)) }
    {
        self.add(out, words)?;
        self.add_number(out, p)?;
        self.add(out, b" ")?;
        self.add_number(out, count)?;
        self.add(out, b"\n")
    }

    // Adds a line of two numbers.
    fn add_pair<K: Sink>(&mut self, out: &mut K, i: u32, j: u32) -> Result<(), WriteFault>
        ensures { Adds result (pair_line i j)
            (output self.old (K.state out.old)) (output self.new (K.state out.new)) }
    {
        let line = pair(i, j);
        self.add(out, line.bytes())
    }

    /// Adds a line for each pair, its row and its column counted from 1.
    pub fn add_pairs<K: Sink>(&mut self, out: &mut K, pairs: &[Pair]) -> Result<(), WriteFault>
        requires { All IsSmallPlace pairs.now }
        ensures { Adds result (pair_lines pairs.now)
            (output self.old (K.state out.old)) (output self.new (K.state out.new)) }
    {
        for k in 0..pairs.len() {
            let pair = pairs[k];
            self.add_pair(out, pair.row + 1, pair.col + 1)?;
        }
        Ok(())
    }

    /// Adds the closing line.
    pub fn add_end<K: Sink>(&mut self, out: &mut K) -> Result<(), WriteFault>
        ensures { Adds result end_line
            (output self.old (K.state out.old)) (output self.new (K.state out.new)) }
    {
        self.add(out, b"0 0 0\n")
    }
}
