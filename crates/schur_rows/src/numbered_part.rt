// A part of what a round leaves, that knows which one it is.
ghost use Rattle.std.specs.Prelude.{IfSome};
ghost use Rattle.schur_rows.specs.Parts.{IsPartAmong};

use crate::round::SchurRows;

// What is left of the rows of one part of a deal.
#[derive(Debug, Drop)]
pub(crate) struct NumberedPart {
    pub(crate) number: usize,
    pub(crate) left: SchurRows,
}

// The part of this number, if it is among these.
pub(crate) fn part_among(parts: &[NumberedPart], number: usize) -> Option<&SchurRows>
    ensures { IfSome result (λ left. IsPartAmong parts.now number left.now) }
{
    for part in parts {
        if part.number == number {
            return Some(&part.left);
        }
    }
    None
}
