// Traces read from texts.
ghost use Rattle.std.specs.Prelude.{◌≡◌, ◌<◌, ◌≤◌, ℕ, [], ◌∷◌, false, true, None, All, IfOk, MatchOption, length};
ghost use Rattle.residue_words.specs.declared.modulus.TheConstants.{MODULUS_BOUND};
ghost use Rattle.sms_text.specs.declared.reader.TheConstants.{LARGEST_TEXT_SIZE};
ghost use Rattle.sms_text.specs.OuterLines.{is_step};
ghost use Rattle.sms_text.specs.OuterLines as form;
ghost use Rattle.sms_text.specs.Parts.{PartDid, SaysLines, wants};
ghost use Rattle.sms_text.specs.Reading.{input};
ghost use Rattle.sms_text.specs.Text.{Outer, step_lines};
ghost use Rattle.run_trace.specs.TraceParts.{SaysTraceTitle};
ghost use Rattle.run_trace.specs.TraceText.{HasTraceText, IsTextPublication, SaysTrace, publication_of};

use crate::publication::Publication;
use crate::trace::Trace;
use crate::trace_title::TraceTitle;
use residue_words::plain::Pair;
use sms_text::{Kind, LARGEST_TEXT_SIZE, Line, Reader, Source, TextError};
use sparse_rows::List;
use std::alloc::Global;

/// Reads a trace: its first line, and a line for each publication.
///
/// What stands behind it is left for the next call. After a fault of the text or of the source the reader answers this error from then on,
/// and so it does where it wanted memory itself; where the publications wanted memory, it stands behind the last line that it took.
///
/// Memory is wanted for the publications as they are read, 16 bytes each and 48 for a moment where their room grows, so that a large number
/// of them alone takes none. The time is that of reading the lines.
pub fn read<S: Source>(
    reader: &mut Reader,
    alloc: Global,
    source: &mut S,
) -> Result<Trace, TextError>
    requires { reader.old.open_text ≡ None }
    ensures did { (p : ℕ) → PartDid (wants p (Outer form.Trace ∷ [])) SaysTrace
        (input reader.old (S.state source.old)) (input reader.new (S.state source.new)) result }
    ensures fits { IfOk result HasTraceText }
    ensures closed { reader.new.open_text ≡ None }
{
    let title = read_title(reader, source)?;
    let publications = read_steps(reader, alloc, source, title.count)?;
    Ok(Trace {
        p: title.p,
        publications,
    })
}

// Reads the first line.
fn read_title<S: Source>(reader: &mut Reader, source: &mut S) -> Result<TraceTitle, TextError>
    requires { reader.old.open_text ≡ None }
    ensures did { (p : ℕ) → PartDid (wants p (Outer form.Trace ∷ [])) SaysTraceTitle
        (input reader.old (S.state source.old)) (input reader.new (S.state source.new)) result }
    ensures sizes { IfOk result (λ t. (t.p < MODULUS_BOUND) × (t.count ≤ LARGEST_TEXT_SIZE)) }
    ensures closed { reader.new.open_text ≡ None }
{
    let line = reader.words(source)?;
    match TraceTitle::of(&line) {
        Some(title) => Ok(title),
        None => Err(reader.refuse(line.number(), Kind::Trace)),
    }
}

// Reads the lines of so many publications.
fn read_steps<S: Source>(
    reader: &mut Reader,
    alloc: Global,
    source: &mut S,
    count: u32,
) -> Result<List<Publication>, TextError>
    requires sound { reader.old.error ≡ None }
    requires closed { reader.old.open_text ≡ None }
    ensures did { (p : ℕ) → PartDid (wants p (step_lines count)) (SaysLines publication_of)
        (input reader.old (S.state source.old)) (input reader.new (S.state source.new)) result }
    ensures count { IfOk result (λ publications. length publications ≡ count) }
    ensures fits { IfOk result (All IsTextPublication) }
    ensures closed { reader.new.open_text ≡ None }
{
    let mut publications = List::new(alloc);
    for _ in 0..count {
        let line = reader.words(source)?;
        let Some(publication) = publication_at(&line) else {
            return Err(reader.refuse(line.number(), Kind::Trace));
        };
        if publications.push(publication).is_err() {
            return Err(TextError::Memory);
        }
    }
    Ok(publications)
}

// The publication that the words of a line give, if they are of its form.
fn publication_at(line: &Line) -> Option<Publication>
    ensures { MatchOption result (is_step line.now.words ≡ false)
        (λ x. (is_step line.now.words ≡ true) × (x ≡ publication_of line.now.words) × IsTextPublication x) }
{
    if line.count() != 3 {
        return None;
    }
    let row = line.number_up_to(0, u64::from(LARGEST_TEXT_SIZE))?;
    let col = line.number_up_to(1, u64::from(LARGEST_TEXT_SIZE))?;
    let version = line.number_up_to(2, u64::from(LARGEST_TEXT_SIZE))?;
    if row == 0 || col == 0 {
        return None;
    }
    let pair = Pair {
        row: (row - 1) as u32,
        col: (col - 1) as u32,
    };
    Some(Publication { pair, version })
}
