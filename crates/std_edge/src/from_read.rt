// Readers of std as sources.
ghost use Rattle.std.specs.Prelude.{◌≡◌, ◌<◌, length};
ghost use Rattle.sms_text.specs.Stream.{PullDid};
ghost use Rattle.std_edge.specs.Edge.{CountedReader, ReaderDid, StaysTold, source_of};

use sms_text::{Pulled, Source};
use std::io::Read;
use std::marker::Model;
use std::snapshot::Snapshot;

/// A reader of std as a source, which tells what the reader tells and counts its errors. An interrupted read is an error like any other.
/// Contracts see the reader, as it is and as it was at first, and the count.
#[derive(Drop)]
pub struct FromRead<R: Read> {
    reader: R,
    first: Snapshot<R>,
    faults: u64,
}

impl<R: Read> Model for FromRead<R> {
    ghost Value = { CountedReader R };

    ghost view = { λ s. record { first = s.first.value; stream = s.reader; faults = s.faults } };

    ghost invariant = { λ s. StaysTold (R.remaining s.first.value) (R.remaining s.reader) };
}

impl<R: Read> FromRead<R> {
    /// The source of what this reader reads, with no error counted.
    pub fn new(reader: R) -> FromRead<R>
        ensures { result ≡ record { first = reader; stream = reader; faults = 0 } }
    {
        let first = Snapshot::of(&reader);
        FromRead {
            reader,
            first,
            faults: 0,
        }
    }

    /// The reader, given back.
    pub fn into_reader(self) -> R
        ensures { result ≡ self.stream }
    {
        self.reader
    }
}

impl<R: Read> Source for FromRead<R> {
    ghost state = { source_of R.remaining };

    fn pull(&mut self, buffer: &mut [u8]) -> Pulled
        requires { 0 < length buffer.old }
        ensures did { PullDid result buffer.new
            (source_of R.remaining self.old) (source_of R.remaining self.new) }
        ensures bytes { ReaderDid result
            (R.remaining self.old.stream) (R.remaining self.new.stream) buffer.new }
    {
        match self.reader.read(buffer) {
            Ok(0) => Pulled::End,
            Ok(n) => Pulled::Got(n),
            Err(_) => {
                self.faults = self.faults.saturating_add(1);
                Pulled::Failed
            }
        }
    }
}
