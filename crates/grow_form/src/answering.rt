// Answers to lines of scripts.
ghost use Rattle.std.specs.Prelude.{◌≡◌, IfOk, OnErr};
ghost use Rattle.grow_form.specs.Answers.{AnswersOfScript, FitsRows};

use crate::grow::Grow;
use crate::script::ScriptLine;
use sparse_rows::Rows;
use std::alloc::AllocError;

/// What a line of a script is answered.
#[derive(Debug, Drop)]
pub enum Answer {
    /// The rank.
    Rank(u32),
    /// The reduced echelon form.
    Form(Rows),
    /// Whether the row is a combination of the rows.
    Contains(bool),
}

/// Does what a line asks for, and gives the answer: None for a row that is appended and for the end. The row of a line has the
/// modulus and the width of the rows that are kept, and height 1. Where memory is wanted nothing changes.
pub fn answer_line(grow: &mut Grow, line: &ScriptLine) -> Result<Option<Answer>, AllocError>
    requires { FitsRows grow.old line.now }
    ensures ok { IfOk result (AnswersOfScript grow.old grow.new line.now) }
    ensures err { OnErr result (grow.new ≡ grow.old) }
    ensures modulus { grow.new.modulus ≡ grow.old.modulus }
    ensures width { grow.new.matrix.width ≡ grow.old.matrix.width }
{
    match line {
        ScriptLine::Append(row) => {
            // The call tells that the entries are residues.
            row.is_sound();
            grow.append(row.cols(0), row.vals(0))?;
            Ok(None)
        }
        ScriptLine::Rank => Ok(Some(Answer::Rank(grow.rank()))),
        ScriptLine::Form => Ok(Some(Answer::Form(grow.form()?))),
        ScriptLine::Contains(row) => {
            // The call tells that the entries are residues.
            row.is_sound();
            Ok(Some(Answer::Contains(grow.contains(row.cols(0), row.vals(0))?)))
        }
        ScriptLine::End => Ok(None),
    }
}
