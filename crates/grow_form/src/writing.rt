// Answers written as texts.
ghost use Rattle.std.specs.Prelude.{All};
ghost use Rattle.sms_text.specs.Writing.{Adds, Writes, output};
ghost use Rattle.grow_form.specs.Scripts.{AnswerFitsText, script_answer_text, answers_text, rank_line};

use crate::answering::Answer;
use sms_text::{BlockWriter, Sink, WriteFault, add_rows};

/// Writes the answers one after another: `rank R`, the text of a form, `yes` or `no`.
///
/// The sink is given blocks of more than 28672 bytes, and a last one of what is left. It takes no memory.
pub fn write_answers<K: Sink>(out: &mut K, answers: &[Answer]) -> Result<(), WriteFault>
    requires { All AnswerFitsText answers.now }
    ensures { Writes result (answers_text answers.now) (K.state out.old) (K.state out.new) }
{
    let mut blocks = BlockWriter::new();
    add_answers(out, &mut blocks, answers)?;
    blocks.send(out)
}

// Adds the texts of the answers.
fn add_answers<K: Sink>(
    out: &mut K,
    blocks: &mut BlockWriter,
    answers: &[Answer],
) -> Result<(), WriteFault>
    requires { All AnswerFitsText answers.now }
    ensures { Adds result (answers_text answers.now)
        (output blocks.old (K.state out.old)) (output blocks.new (K.state out.new)) }
{
    for k in 0..answers.len() {
        add_answer(out, blocks, &answers[k])?;
    }
    Ok(())
}

// Adds the text of an answer.
fn add_answer<K: Sink>(
    out: &mut K,
    blocks: &mut BlockWriter,
    answer: &Answer,
) -> Result<(), WriteFault>
    requires { AnswerFitsText answer.now }
    ensures { Adds result (script_answer_text answer.now)
        (output blocks.old (K.state out.old)) (output blocks.new (K.state out.new)) }
{
    match answer {
        Answer::Rank(rank) => add_rank(out, blocks, u64::from(*rank)),
        Answer::Form(form) => add_rows(out, blocks, form),
        Answer::Contains(true) => blocks.add(out, b"yes\n"),
        Answer::Contains(false) => blocks.add(out, b"no\n"),
    }
}

// Adds the line of a rank.
fn add_rank<K: Sink>(out: &mut K, blocks: &mut BlockWriter, rank: u64) -> Result<(), WriteFault>
    ensures { Adds result (rank_line rank)
        (output blocks.old (K.state out.old)) (output blocks.new (K.state out.new)) }
{
    blocks.add(out, b"rank ")?;
    blocks.add_number(out, rank)?;
    blocks.add(out, b"\n")
}
