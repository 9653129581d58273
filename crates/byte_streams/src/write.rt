// Writers of bytes, texts and numbers.
ghost use Rattle.std.specs.Fmt.{decimal};
ghost use Rattle.byte_streams.specs.Writing.{Writes};

use crate::stream::{Put, Sink};
use itoa::Buffer;
use std::error::Error;
use std::fmt;

/// The sink failed. What it holds now is what it held, and then a first part of what was to be written.
#[derive(Clone, Copy, Debug, PartialEq, Eq)]
pub struct WriteFault;

impl fmt::Display for WriteFault {
    fn fmt<W: fmt::Write>(&self, f: &mut fmt::Formatter<W>) -> fmt::Result {
        f.write_str("the sink failed")
    }
}

impl Error for WriteFault {}

/// Writes a piece of any length, in as many calls as the sink asks for; the empty piece asks nothing of it. It takes no memory. The error is
/// that the sink failed.
pub fn put_all<K: Sink>(out: &mut K, piece: &[u8]) -> Result<(), WriteFault>
    ensures { Writes result piece.now (K.state out.old) (K.state out.new) }
{
    let mut at = 0;
    while at < piece.len() {
        let (_, rest) = piece.split_at(at);
        match out.put(rest) {
            Put::Took(n) => at += n,
            Put::Failed => return Err(WriteFault),
        }
    }
    Ok(())
}

/// Writes a text. The empty text asks nothing of the sink. It takes no memory.
pub fn write_text<K: Sink>(out: &mut K, text: &str) -> Result<(), WriteFault>
    ensures { Writes result text.now (K.state out.old) (K.state out.new) }
{
    put_all(out, text.as_bytes())
}

/// Writes a number in decimal. It takes no memory.
pub fn write_number<K: Sink>(out: &mut K, n: u64) -> Result<(), WriteFault>
    ensures { Writes result (decimal n) (K.state out.old) (K.state out.new) }
{
    let mut digits = Buffer::new();
    put_all(out, digits.format(n).as_bytes())
}
