// Writers of std as sinks.
ghost use Rattle.std.specs.Prelude.{◌≡◌, ◌<◌, length};
ghost use Rattle.sms_text.specs.Stream.{PutDid};
ghost use Rattle.std_edge.specs.Edge.{CountedWriter, Holds, IsCount, StaysTold, WriterDid, sink_of};

use sms_text::{Put, Sink};
use std::io::Write;
use std::marker::Model;
use std::snapshot::Snapshot;

/// A writer of std as a sink, which is flushed after each write. It tells what the writer tells, and counts its errors: a write that fails or
/// takes nothing, and a flush that fails. After an error each put fails, and the writer is left alone. Where a flush fails the put has failed,
/// so that nobody takes the text for written, though the writer may have taken bytes of that piece: the sink tells what was surely written.
/// Contracts see the writer, as it is, as it was at first and after the last put that went well, and the count.
#[derive(Drop)]
pub struct ToWrite<W: Write> {
    writer: W,
    first: Snapshot<W>,
    good: Snapshot<W>,
    faults: u64,
}

impl<W: Write> Model for ToWrite<W> {
    ghost Value = { CountedWriter W };

    ghost view = { λ s. record {
      first = s.first.value;
      good = s.good.value;
      stream = s.writer;
      faults = s.faults;
    } };

    ghost invariant = { λ s. StaysTold (W.contents s.first.value) (W.contents s.good.value)
        × Holds (W.contents s.writer) (sink_of W.contents (record {
          first = s.first.value;
          good = s.good.value;
          stream = s.writer;
          faults = s.faults;
        })) };
}

impl<W: Write> ToWrite<W> {
    /// The sink that writes to this writer, with no error counted.
    pub fn new(writer: W) -> ToWrite<W>
        ensures { result ≡ record { first = writer; good = writer; stream = writer; faults = 0 } }
    {
        let first = Snapshot::of(&writer);
        let good = Snapshot::of(&writer);
        ToWrite {
            writer,
            first,
            good,
            faults: 0,
        }
    }

    /// The writer, given back.
    pub fn into_writer(self) -> W
        ensures same { result ≡ self.stream }
        ensures holds { Holds (W.contents result) (sink_of W.contents self) }
    {
        self.writer
    }
}

// A write and a flush. It fails where one of them does, or where nothing is taken.
fn write_through<W: Write>(writer: &mut W, piece: &[u8]) -> Put
    ensures count { IsCount result (length piece.now) }
    ensures bytes { WriterDid result (W.contents writer.old) (W.contents writer.new) piece.now }
{
    let Ok(taken) = writer.write(piece) else {
        return Put::Failed;
    };
    if taken == 0 || writer.flush().is_err() {
        return Put::Failed;
    }
    Put::Took(taken)
}

impl<W: Write> Sink for ToWrite<W> {
    ghost state = { sink_of W.contents };

    fn put(&mut self, piece: &[u8]) -> Put
        requires { 0 < length piece.now }
        ensures did { PutDid result piece.now (sink_of W.contents self.old) (sink_of W.contents self.new) }
        ensures bytes { WriterDid result (W.contents self.old.stream) (W.contents self.new.stream) piece.now }
        ensures stays { 0 < self.old.faults → (result ≡ Put.Failed) × (self.new.stream ≡ self.old.stream) }
    {
        if 0 < self.faults {
            self.faults = self.faults.saturating_add(1);
            return Put::Failed;
        }
        let put = write_through(&mut self.writer, piece);
        match put {
            Put::Took(_) => self.good = Snapshot::of(&self.writer),
            Put::Failed => self.faults = 1,
        }
        put
    }
}
