// The texts of a batch: a matrix, and the right-hand sides behind it.
ghost use Rattle.std.specs.Prelude.{◌≡◌, ◌<◌, ◌≤◌, ◌^◌, All, IfOk, length, replicate};
ghost use Rattle.sms_text.specs.Text.{Header};
ghost use Rattle.sms_text.specs.declared.reader.TheConstants.{LARGEST_INPUT};
ghost use Rattle.spasm_run.specs.Input.{IsOfText, WasRead};
ghost use Rattle.batch_solve.specs.BatchAnswers as spec;
ghost use Rattle.batch_solve.specs.BatchFound.{many_values, matrices_of};

use crate::batch_status::BatchStatus;
use residue_words::Modulus;
use sms_text::{Reader, Source, TextError, read_rows};
use sparse_rows::{LARGEST_SIZE, Rows};
use std::alloc::Global;

// Reads the so many matrices of an input of at most `limit` bytes.
pub(crate) fn read_texts<S: Source>(
    alloc: Global,
    count: u32,
    p: &Modulus,
    source: &mut S,
    limit: u64,
) -> Result<Vec<Rows>, TextError>
    requires { limit ≤ LARGEST_INPUT }
    ensures did { WasRead (record { modulus = p.now; limit = limit; due = replicate count Header })
        (many_values result) (S.state source.old) (S.state source.new) }
    ensures count { IfOk result (λ texts. length texts.items ≡ count) }
    ensures texts { IfOk result (λ texts. All (IsOfText p.now) texts.items) }
{
    let Ok(mut reader) = Reader::new(alloc, limit) else {
        return Err(TextError::Memory);
    };
    let mut texts = Vec::new(alloc);
    for _ in 0..count {
        let text = read_rows(&mut reader, alloc, source, p)?;
        if texts.push(text).is_err() {
            return Err(TextError::Memory);
        }
    }
    Ok(texts)
}

// The status by which a matrix and the right-hand sides behind it are refused for their shapes.
pub(crate) fn misfit_of(texts: &[Rows]) -> Option<BatchStatus>
    requires some { 1 ≤ length texts.now }
    requires few { length texts.now < 2 ^ 32 }
    ensures { result ≡ spec.batch_misfit (matrices_of texts.now) }
{
    let (height, width) = (texts[0].height(), texts[0].width());
    if u64::from(height) + u64::from(width) > u64::from(LARGEST_SIZE) {
        return Some(BatchStatus::Wide { height, width });
    }
    first_misshapen(height, &texts[1..])
}

// The status that names the first of these that isn't a column of this height.
fn first_misshapen(height: u32, questions: &[Rows]) -> Option<BatchStatus>
    requires { length questions.now < 2 ^ 32 }
    ensures { result ≡ spec.first_misshapen height 1 (matrices_of questions.now) }
{
    for k in 0..questions.len() {
        let question = &questions[k];
        if question.height() != height || question.width() != 1 {
            return Some(BatchStatus::Shape {
                question: k as u32 + 1,
                height: question.height(),
                width: question.width(),
            });
        }
    }
    None
}
