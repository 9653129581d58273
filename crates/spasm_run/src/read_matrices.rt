// The matrices of an input, and a certificate, a trace or a script behind one.
ghost use Rattle.std.specs.Prelude.{◌≤◌, [], ◌∷◌, All, IfOk};
ghost use Rattle.sms_text.specs.OuterLines as form;
ghost use Rattle.sms_text.specs.Text.{Header, Outer, Scripted};
ghost use Rattle.sms_text.specs.declared.reader.TheConstants.{LARGEST_INPUT};
ghost use Rattle.certificates.specs.Certificate.{AreModulo};
ghost use Rattle.grow_form.specs.Scripts.{AnswerFitsText};
ghost use Rattle.spasm_run.specs.Input.{IsOfText, WasAnswered, WasRead, WereRead, WereReadToReplay, one_value, two_values};

use certificates::Certificate;
use grow_form::{Answer, answer_script};
use residue_words::Modulus;
use run_trace::Trace;
use sms_text::{Reader, Source, TextError, read_rows};
use sparse_rows::Rows;
use std::alloc::Global;

// Reads the one matrix of an input of at most `limit` bytes.
pub(crate) fn read_one<S: Source>(
    alloc: Global,
    p: &Modulus,
    source: &mut S,
    limit: u64,
) -> Result<Rows, TextError>
    requires { limit ≤ LARGEST_INPUT }
    ensures did { WasRead (record { modulus = p.now; limit = limit; due = Header ∷ [] })
        (one_value result) (S.state source.old) (S.state source.new) }
    ensures matrix { IfOk result (IsOfText p.now) }
{
    let Ok(mut reader) = Reader::new(alloc, limit) else {
        return Err(TextError::Memory);
    };
    read_rows(&mut reader, alloc, source, p)
}

// Reads the two matrices of an input of at most `limit` bytes.
pub(crate) fn read_two<S: Source>(
    alloc: Global,
    p: &Modulus,
    source: &mut S,
    limit: u64,
) -> Result<(Rows, Rows), TextError>
    requires { limit ≤ LARGEST_INPUT }
    ensures did { WasRead (record { modulus = p.now; limit = limit; due = Header ∷ Header ∷ [] })
        (two_values result) (S.state source.old) (S.state source.new) }
    ensures first { IfOk result (λ both. IsOfText p.now both.0) }
    ensures second { IfOk result (λ both. IsOfText p.now both.1) }
{
    let Ok(mut reader) = Reader::new(alloc, limit) else {
        return Err(TextError::Memory);
    };
    let a = read_rows(&mut reader, alloc, source, p)?;
    let b = read_rows(&mut reader, alloc, source, p)?;
    Ok((a, b))
}

// Reads a matrix and the certificate behind it, in an input of at most `limit` bytes.
pub(crate) fn read_to_check<S: Source>(
    alloc: Global,
    p: &Modulus,
    source: &mut S,
    limit: u64,
) -> Result<(Rows, Certificate), TextError>
    requires { limit ≤ LARGEST_INPUT }
    ensures did { WereRead
        (record { modulus = p.now; limit = limit; due = Header ∷ Outer form.Certificate ∷ [] })
        result (S.state source.old) (S.state source.new) }
    ensures matrix { IfOk result (λ both. IsOfText p.now both.0) }
    ensures modulus { IfOk result (λ both. AreModulo p.now both.1) }
{
    let Ok(mut reader) = Reader::new(alloc, limit) else {
        return Err(TextError::Memory);
    };
    let a = read_rows(&mut reader, alloc, source, p)?;
    let certificate = certificates::read(&mut reader, alloc, source, p)?;
    Ok((a, certificate))
}

// Reads a matrix and the trace behind it, in an input of at most `limit` bytes.
pub(crate) fn read_to_replay<S: Source>(
    alloc: Global,
    p: &Modulus,
    source: &mut S,
    limit: u64,
) -> Result<(Rows, Trace), TextError>
    requires { limit ≤ LARGEST_INPUT }
    ensures did { WereReadToReplay
        (record { modulus = p.now; limit = limit; due = Header ∷ Outer form.Trace ∷ [] })
        result (S.state source.old) (S.state source.new) }
    ensures matrix { IfOk result (λ both. IsOfText p.now both.0) }
{
    let Ok(mut reader) = Reader::new(alloc, limit) else {
        return Err(TextError::Memory);
    };
    let a = read_rows(&mut reader, alloc, source, p)?;
    let trace = run_trace::read(&mut reader, alloc, source)?;
    Ok((a, trace))
}

// Reads a matrix, and answers the script behind it, in an input of at most `limit` bytes.
pub(crate) fn read_and_answer<S: Source>(
    alloc: Global,
    p: &Modulus,
    source: &mut S,
    limit: u64,
) -> Result<Vec<Answer>, TextError>
    requires { limit ≤ LARGEST_INPUT }
    ensures did { WasAnswered (record { modulus = p.now; limit = limit; due = Scripted ∷ [] })
        result (S.state source.old) (S.state source.new) }
    ensures fits { IfOk result (λ answers. All AnswerFitsText answers.items) }
{
    let Ok(mut reader) = Reader::new(alloc, limit) else {
        return Err(TextError::Memory);
    };
    let a = read_rows(&mut reader, alloc, source, p)?;
    let answers = answer_script(&mut reader, alloc, source, &a)?;
    Ok(answers)
}
