// Pivots as lines.
ghost use Rattle.std.specs.Prelude.{All};
ghost use Rattle.sms_text.specs.Writing.{Writes};
ghost use Rattle.sms_text.specs.Written.{IsSmallPlace};
ghost use Rattle.spasm_run.specs.Answers.{pivots_text};

use pivot_table::Pair;
use sms_text::{BlockWriter, Sink, WriteFault};

// Writes how many pivots there are, and the row and the column of each, counted from 1. It takes no memory.
pub(crate) fn write_pivots<K: Sink>(out: &mut K, pairs: &[Pair]) -> Result<(), WriteFault>
    requires { All IsSmallPlace pairs.now }
    ensures { Writes result (pivots_text pairs.now) (K.state out.old) (K.state out.new) }
{
    let mut blocks = BlockWriter::new();
    blocks.add(out, b"pivots ")?;
    blocks.add_number(out, pairs.len() as u64)?;
    blocks.add(out, b"\n")?;
    blocks.add_pairs(out, pairs)?;
    blocks.send(out)
}
