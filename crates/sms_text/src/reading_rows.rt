// Texts read as matrices.
ghost use Rattle.sparse_rows.specs.Rows.{FitsMatrix};
ghost use Rattle.std.specs.Prelude.{◌≡◌, ◌≤◌, All, None, Some, IfOk, OnOk};
ghost use Rattle.sms_text.specs.declared.reader.TheConstants.{LARGEST_TEXT_SIZE};
ghost use Rattle.sms_text.specs.PlainLines.{TookEntries, with_entries_pushed};
ghost use Rattle.sms_text.specs.Reading.{input};
ghost use Rattle.sms_text.specs.ReadingRows.{RowsDid};

use crate::kind::TextError;
use crate::reader::{Entry, Head, MOST_PLAIN, Reader};
use byte_streams::Source;
use residue_words::Modulus;
use sparse_rows::{Rows, RowsBuilder};
use std::alloc::{AllocError, Global};

/// Reads a text, from its header to its closing line, as a matrix modulo p: values given for one place are summed.
///
/// What stands behind the text is left for the next call. After a fault of the text or of the source the reader answers this error from
/// then on. After want of memory it does so too, if it was the reader that wanted memory; if it was the matrix, the reader stands
/// behind the last line that it took, where `open_text` says whether the text is still open.
///
/// Memory is wanted for 16 KB of entries that are taken together, and for all entries as a `RowsBuilder` takes it: where they stand row after
/// row by ascending columns, and none is 0, that is the matrix with room for a quarter more, or twice that for a moment where it grows. Else it
/// is 16 bytes an entry, 36 for a moment, and then the matrix beside them, and each row is sorted.
pub fn read_rows<S: Source>(
    reader: &mut Reader,
    alloc: Global,
    source: &mut S,
    p: &Modulus,
) -> Result<Rows, TextError>
    requires { reader.old.open_text ≡ None }
    ensures did { RowsDid p.now
        (input reader.old (S.state source.old)) (input reader.new (S.state source.new)) result }
    ensures last { reader.old.error ≡ None → reader.new.last ≡ None }
    ensures closed { IfOk result (λ rows. reader.new.open_text ≡ None) }
    ensures height { IfOk result (λ rows. rows.matrix.height ≤ LARGEST_TEXT_SIZE) }
    ensures width { IfOk result (λ rows. rows.matrix.width ≤ LARGEST_TEXT_SIZE) }
{
    let head = match reader.header(source) {
        Ok(head) => head,
        Err(error) => return Err(error),
    };
    let Ok(mut builder) = RowsBuilder::new(alloc, head.m, head.n, *p) else {
        return Err(TextError::Memory);
    };
    let Ok(mut entries) = Vec::with_capacity(alloc, MOST_PLAIN) else {
        return Err(TextError::Memory);
    };
    loop {
        if take_plain(reader, &head, p, &mut entries, &mut builder).is_err() {
            return Err(TextError::Memory);
        }
        match reader.entry(source, &head, p) {
            Ok(Some(entry)) => {
                if builder.push(entry.i, entry.j, entry.v).is_err() {
                    return Err(TextError::Memory);
                }
            }
            Ok(None) => {
                return match builder.finish() {
                    Ok(rows) => Ok(rows),
                    Err(_) => Err(TextError::Memory),
                };
            }
            Err(error) => return Err(error),
        }
    }
}

// Takes the plain lines at hand, as far as one call does, and adds their entries. Where memory is wanted the reader stands behind them.
fn take_plain(
    reader: &mut Reader,
    head: &Head,
    p: &Modulus,
    entries: &mut Vec<Entry>,
    builder: &mut RowsBuilder,
) -> Result<(), AllocError>
    requires open { reader.old.open_text ≡ Some (head.now.m, head.now.n) }
    requires sound { reader.old.error ≡ None }
    requires modulus { builder.old.modulus ≡ p.now }
    requires height { builder.old.height ≡ head.now.m }
    requires width { builder.old.width ≡ head.now.n }
    ensures took { TookEntries p.now head.now reader.old reader.new entries.new.items }
    ensures pushed { OnOk result (builder.new ≡ with_entries_pushed builder.old entries.new.items) }
{
    reader.plain_entries(head, p, entries);
    push_all(builder, entries)
}

// Adds the entries.
fn push_all(builder: &mut RowsBuilder, entries: &[Entry]) -> Result<(), AllocError>
    requires { All (λ e. FitsMatrix builder.old.height builder.old.width builder.old.modulus (e.i, e.j, e.v))
        entries.now }
    ensures { OnOk result (builder.new ≡ with_entries_pushed builder.old entries.now) }
{
    for entry in entries {
        builder.push(entry.i, entry.j, entry.v)?;
    }
    Ok(())
}
