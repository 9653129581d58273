// Scripts behind a matrix.
ghost use Rattle.std.specs.Prelude.{◌≡◌, ◌≤◌, ◌<◌, [], ◌∷◌, All, None, IfOk, OnOk};
ghost use Rattle.sparse_rows.specs.Rows.{LARGEST_SIZE};
ghost use Rattle.sms_text.specs.OuterLines as form;
ghost use Rattle.sms_text.specs.Parts.{PartDid, wants};
ghost use Rattle.sms_text.specs.Reading.{input};
ghost use Rattle.sms_text.specs.Text.{Outer};
ghost use Rattle.sms_text.specs.declared.reader.TheConstants.{LARGEST_TEXT_SIZE};
ghost use Rattle.grow_form.specs.Answers.{FitsRows};
ghost use Rattle.grow_form.specs.Scripts.{AddsAnswer, AnswerFitsText, SaysScript, SaysStep};

use crate::answering::{Answer, answer_line};
use crate::grow::Grow;
use crate::script::{ScriptLine, script_line};
use residue_words::Modulus;
use sms_text::{Kind, Reader, Source, TextError};
use sparse_rows::Rows;
use std::alloc::{AllocError, Global};

/// Reads the script behind the text of a matrix, up to its line `end`, and answers it: each query for the rows of the matrix and
/// all rows that were appended before it. Nothing behind `end` is read. The reader must have answered no error before, and must
/// have read the text of the matrix to its end.
///
/// After a fault of the script or of the source the reader answers this error from then on, and so it does where it wanted memory
/// itself; where an answer wanted memory, it stands behind the last line that it took.
///
/// The memory is that of the rows that are kept, a row at a time, and of the answers.
pub fn answer_script<S: Source>(
    reader: &mut Reader,
    alloc: Global,
    source: &mut S,
    a: &Rows,
) -> Result<Vec<Answer>, TextError>
    requires sound { reader.old.error ≡ None }
    requires closed { reader.old.open_text ≡ None }
    requires width { a.now.matrix.width ≤ LARGEST_TEXT_SIZE }
    ensures did { PartDid (wants a.now.modulus (Outer (form.Script a.now.matrix.width) ∷ []))
        (λ answers. SaysScript a.now answers.items)
        (input reader.old (S.state source.old)) (input reader.new (S.state source.new)) result }
    ensures fits { IfOk result (λ answers. All AnswerFitsText answers.items) }
    ensures closed { reader.new.open_text ≡ None }
{
    let p = a.modulus();
    let Ok(mut grow) = Grow::of(alloc, a) else {
        return Err(TextError::Memory);
    };
    let mut answers = Vec::new(alloc);
    loop {
        let step = read_step(reader, alloc, source, a.width(), &p)?;
        if let ScriptLine::End = step {
            return Ok(answers);
        }
        let Ok(()) = add_answer(&mut grow, step, &mut answers) else {
            return Err(TextError::Memory);
        };
    }
}

// Reads one line of a script.
fn read_step<S: Source>(
    reader: &mut Reader,
    alloc: Global,
    source: &mut S,
    width: u32,
    p: &Modulus,
) -> Result<ScriptLine, TextError>
    requires width { width ≤ LARGEST_SIZE }
    requires closed { reader.old.open_text ≡ None }
    ensures did { PartDid (wants p.now (Outer (form.Script width) ∷ [])) (SaysStep p.now width)
        (input reader.old (S.state source.old)) (input reader.new (S.state source.new)) result }
    ensures shorter { IfOk result (λ step. reader.new.room < reader.old.room) }
    ensures closed { reader.new.open_text ≡ None }
{
    let line = reader.words(source)?;
    match script_line(alloc, &line, width, p) {
        Ok(Some(step)) => Ok(step),
        Ok(None) => Err(reader.refuse(line.number(), Kind::Script)),
        Err(_) => Err(TextError::Memory),
    }
}

// Does what a line asks for, and puts its answer behind the others, if it has one.
fn add_answer(
    grow: &mut Grow,
    line: ScriptLine,
    answers: &mut Vec<Answer>,
) -> Result<(), AllocError>
    requires { FitsRows grow.old line }
    ensures { OnOk result (AddsAnswer grow.old grow.new line answers.old.items answers.new.items) }
{
    if let Some(answer) = answer_line(grow, &line)? {
        answers.push(answer)?;
    }
    Ok(())
}
