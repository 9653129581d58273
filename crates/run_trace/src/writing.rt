// Traces written as texts.
ghost use Rattle.std.specs.Prelude.{All};
ghost use Rattle.sms_text.specs.Writing.{Adds, Writes, output};
ghost use Rattle.run_trace.specs.TraceText.{HasTraceText, IsTextPublication, publication_lines, trace_text};

use crate::publication::Publication;
use crate::trace::Trace;
use sms_text::{BlockWriter, Sink, WriteFault};

/// Writes the text of a trace: its first line, and a line for each publication.
///
/// The sink is given blocks of more than 28672 bytes, and a last one of what is left. It takes no memory, and time proportional to the
/// publications. `read` reads what was written as the same trace: `written_trace_reads_back` says so.
pub fn write<K: Sink>(out: &mut K, trace: &Trace) -> Result<(), WriteFault>
    requires { HasTraceText trace.now }
    ensures { Writes result (trace_text trace.now.p trace.now.publications)
        (K.state out.old) (K.state out.new) }
{
    let publications = trace.publications.items();
    let mut blocks = BlockWriter::new();
    blocks.add_title(out, b"trace ", trace.p, publications.len() as u64)?;
    add_publications(out, &mut blocks, publications)?;
    blocks.send(out)
}

// Adds a line for each publication.
fn add_publications<K: Sink>(
    out: &mut K,
    blocks: &mut BlockWriter,
    publications: &[Publication],
) -> Result<(), WriteFault>
    requires { All IsTextPublication publications.now }
    ensures { Adds result (publication_lines publications.now)
        (output blocks.old (K.state out.old)) (output blocks.new (K.state out.new)) }
{
    for k in 0..publications.len() {
        let Publication { pair, version } = publications[k];
        blocks.add_entry(out, pair.row + 1, pair.col + 1, version)?;
    }
    Ok(())
}
