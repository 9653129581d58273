// Lines of scripts.
ghost use Rattle.std.specs.Prelude.{◌≡◌, ◌≤◌, ◌<◌, false, true, length, IfOk, MatchOption, OnErr};
ghost use Rattle.sms_text.specs.OuterLines.{are_terms, is_script};
ghost use Rattle.sparse_rows.specs.Rows.{LARGEST_SIZE};
ghost use Rattle.grow_form.specs.Script.{IsScriptLine, IsTermsRow, terms_of};

use residue_words::Modulus;
use sms_text::Line;
use sparse_rows::{Rows, RowsBuilder};
use std::alloc::{AllocError, Global};

/// What a line of a script asks for. A row is a matrix of one row.
#[derive(Debug, Drop)]
pub enum ScriptLine {
    /// `row c v ..`: to append this row.
    Append(Rows),
    /// `rank`: the rank.
    Rank,
    /// `rref`: the reduced echelon form.
    Form,
    /// `in c v ..`: whether this row is a combination of the rows.
    Contains(Rows),
    /// `end`: nothing more.
    End,
}

/// What a line of a script for rows of this width, at most `LARGEST_SIZE`, asks for; None exactly where its words are of none
/// of the forms, a column is out of range or a divisor is 0 modulo p. Repeated columns are summed, and no pair at all is the
/// zero row. It takes the memory and the time of the words, and of sorting a row. Where memory is wanted the words are of one
/// of the forms.
pub fn script_line(
    alloc: Global,
    line: &Line,
    width: u32,
    p: &Modulus,
) -> Result<Option<ScriptLine>, AllocError>
    requires { width ≤ LARGEST_SIZE }
    ensures ok { IfOk result (λ read. MatchOption read
        (is_script p.now width line.now.words ≡ false) (IsScriptLine p.now width line.now.words)) }
    ensures err { OnErr result (is_script p.now width line.now.words ≡ true) }
{
    if line.count() == 0 {
        return Ok(None);
    }
    let word = line.word(0);
    if word == b"row".as_slice() {
        return match row_of_terms(alloc, line, width, p)? {
            Some(row) => Ok(Some(ScriptLine::Append(row))),
            None => Ok(None),
        };
    }
    if word == b"in".as_slice() {
        return match row_of_terms(alloc, line, width, p)? {
            Some(row) => Ok(Some(ScriptLine::Contains(row))),
            None => Ok(None),
        };
    }
    if line.count() > 1 {
        return Ok(None);
    }
    if word == b"rank".as_slice() {
        Ok(Some(ScriptLine::Rank))
    } else if word == b"rref".as_slice() {
        Ok(Some(ScriptLine::Form))
    } else if word == b"end".as_slice() {
        Ok(Some(ScriptLine::End))
    } else {
        Ok(None)
    }
}

// The row that the words behind the first give, if they are columns and values, which they are where memory is wanted.
fn row_of_terms(
    alloc: Global,
    line: &Line,
    width: u32,
    p: &Modulus,
) -> Result<Option<Rows>, AllocError>
    requires some { 0 < length line.now.words }
    requires small { width ≤ LARGEST_SIZE }
    ensures ok { IfOk result (λ row. MatchOption row
        (are_terms p.now width (terms_of line.now.words) ≡ false)
        (IsTermsRow p.now width (terms_of line.now.words))) }
    ensures err { OnErr result (are_terms p.now width (terms_of line.now.words) ≡ true) }
{
    match terms_row(alloc, line, width, p) {
        Ok(row) => Ok(row),
        Err(refused) => {
            if has_terms(line, width, p) {
                Err(refused)
            } else {
                Ok(None)
            }
        }
    }
}

// Whether the words behind the first are columns and values. It takes no memory.
fn has_terms(line: &Line, width: u32, p: &Modulus) -> bool
    requires some { 0 < length line.now.words }
    requires small { width ≤ LARGEST_SIZE }
    ensures { result ≡ are_terms p.now width (terms_of line.now.words) }
{
    let mut k = 1;
    while k < line.count() {
        if line.count() - k == 1 {
            return false;
        }
        let Some(column) = line.number_up_to(k, u64::from(width)) else {
            return false;
        };
        if column == 0 || line.value(k + 1, p).is_none() {
            return false;
        }
        k += 2;
    }
    true
}

// The row that the words behind the first give, if they are columns and values.
fn terms_row(
    alloc: Global,
    line: &Line,
    width: u32,
    p: &Modulus,
) -> Result<Option<Rows>, AllocError>
    requires some { 0 < length line.now.words }
    requires small { width ≤ LARGEST_SIZE }
    ensures { IfOk result (λ row. MatchOption row
        (are_terms p.now width (terms_of line.now.words) ≡ false)
        (IsTermsRow p.now width (terms_of line.now.words))) }
{
    let mut builder = RowsBuilder::new(alloc, 1, width, *p)?;
    let mut k = 1;
    while k < line.count() {
        if line.count() - k == 1 {
            return Ok(None);
        }
        let Some(column) = line.number_up_to(k, u64::from(width)) else {
            return Ok(None);
        };
        if column == 0 {
            return Ok(None);
        }
        let Some(value) = line.value(k + 1, p) else {
            return Ok(None);
        };
        builder.push(0, (column - 1) as u32, value)?;
        k += 2;
    }
    Ok(Some(builder.finish()?))
}
