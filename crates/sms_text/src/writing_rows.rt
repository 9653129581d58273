// Matrices written as texts.
ghost use Rattle.std.specs.Prelude.{◌≡◌, ◌<◌, ◌≤◌, ◌++◌, length};
ghost use Rattle.residue_words.specs.Matrix.{IsMatrix};
ghost use Rattle.byte_streams.specs.Writing.{Writes, Adds, output};
ghost use Rattle.sms_text.specs.declared.reader.TheConstants.{LARGEST_TEXT_SIZE};
ghost use Rattle.sms_text.specs.Written.{row_text, text_of};

use crate::block_writer::BlockWriter;
use crate::row_lines::RowLines;
use byte_streams::{Sink, WriteFault};
use sparse_rows::Rows;
use std::cmp::min;

/// Writes the text of a matrix of at most `LARGEST_TEXT_SIZE` rows and columns: its header line, a line for each entry that isn't 0, rows and
/// columns ascending, and the closing line.
///
/// The sink is given blocks of more than 28672 bytes, and a last one of what is left. It takes no memory, and time proportional to the
/// entries, and to the height where it is about as large. `read_rows` reads what was written as the same matrix: `written_text_reads_back` says so.
pub fn write_rows<K: Sink>(out: &mut K, rows: &Rows) -> Result<(), WriteFault>
    requires height { rows.now.matrix.height ≤ LARGEST_TEXT_SIZE }
    requires width { rows.now.matrix.width ≤ LARGEST_TEXT_SIZE }
    ensures { Writes result (text_of rows.now.matrix) (K.state out.old) (K.state out.new) }
{
    write_titled(out, "", rows)
}

/// Writes a title of at most 4096 bytes, and the text of a matrix behind it, as `write_rows` does.
pub fn write_titled<K: Sink>(out: &mut K, title: &str, rows: &Rows) -> Result<(), WriteFault>
    requires short { length title.now ≤ 4096 }
    requires height { rows.now.matrix.height ≤ LARGEST_TEXT_SIZE }
    requires width { rows.now.matrix.width ≤ LARGEST_TEXT_SIZE }
    ensures { Writes result (title.now ++ text_of rows.now.matrix) (K.state out.old) (K.state out.new) }
{
    let mut blocks = BlockWriter::new();
    blocks.add(out, title.as_bytes())?;
    add_rows(out, &mut blocks, rows)?;
    blocks.send(out)
}

/// Adds the text of a matrix of at most `LARGEST_TEXT_SIZE` rows and columns to what waits for a sink.
pub fn add_rows<K: Sink>(
    out: &mut K,
    blocks: &mut BlockWriter,
    rows: &Rows,
) -> Result<(), WriteFault>
    requires height { rows.now.matrix.height ≤ LARGEST_TEXT_SIZE }
    requires width { rows.now.matrix.width ≤ LARGEST_TEXT_SIZE }
    ensures { Adds result (text_of rows.now.matrix)
        (output blocks.old (K.state out.old)) (output blocks.new (K.state out.new)) }
{
    let height = rows.height();
    blocks.add_head(out, height, rows.width())?;
    let mut lines = RowLines::new();
    let mut from = 0;
    while let Some(i) = rows.next_filled(from) {
        add_row(out, blocks, &mut lines, rows, i)?;
        from = i + 1;
    }
    blocks.add_end(out)?;
    Ok(())
}

// Adds the lines of row i, of 64 entries at a time.
fn add_row<K: Sink>(
    out: &mut K,
    blocks: &mut BlockWriter,
    lines: &mut RowLines,
    rows: &Rows,
    i: u32,
) -> Result<(), WriteFault>
    requires row { i < rows.now.matrix.height }
    requires height { rows.now.matrix.height ≤ LARGEST_TEXT_SIZE }
    requires width { rows.now.matrix.width ≤ LARGEST_TEXT_SIZE }
    requires sound { IsMatrix rows.now.modulus rows.now.matrix }
    ensures { Adds result (row_text rows.now.matrix i)
        (output blocks.old (K.state out.old)) (output blocks.new (K.state out.new)) }
{
    let cols = rows.cols(i);
    let vals = rows.vals(i);
    let mut k = 0;
    while k < cols.len() {
        let end = k + min(cols.len() - k, 64);
        lines.fill(i, &cols[k..end], &vals[k..end]);
        blocks.add(out, lines.bytes())?;
        k = end;
    }
    Ok(())
}
