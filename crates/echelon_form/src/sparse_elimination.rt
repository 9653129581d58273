// The rows that are left by elimination, and how many these are.
ghost use Rattle.std.specs.Prelude.{◌≡◌, ◌≤◌, IfOk};
ghost use Rattle.residue_words.specs.Residues.{IsPrime};
ghost use Rattle.row_space.specs.Echelon.{HasRank};
ghost use Rattle.echelon_form.specs.Settling.{HaveSpanOf};

use lead_rows::Leads;
use sparse_rows::Rows;
use std::alloc::{AllocError, Global};

/// The rank of a matrix modulo a prime; modulo another number, how many rows an elimination leaves.
///
/// The rows are eliminated one after another, in the time and memory of the entries that this makes, and settled by none.
pub fn rank(alloc: Global, rows: &Rows) -> Result<u32, AllocError>
    ensures rank { IfOk result (λ r. IsPrime rows.now.modulus → HasRank rows.now.modulus rows.now.matrix r) }
    ensures at_most_height { IfOk result (λ r. r ≤ rows.now.matrix.height) }
    ensures at_most_width { IfOk result (λ r. r ≤ rows.now.matrix.width) }
{
    // The call's contract tells that the entries are residues.
    rows.is_sound();
    if rows.is_wide() {
        let columns = rows.occupied(alloc)?;
        let narrow = rows.narrowed(alloc, &columns)?;
        height_left(alloc, &narrow)
    } else {
        height_left(alloc, rows)
    }
}

// How many rows are left, which for a prime modulus is the rank.
fn height_left(alloc: Global, rows: &Rows) -> Result<u32, AllocError>
    ensures rank { IfOk result (λ r. IsPrime rows.now.modulus → HasRank rows.now.modulus rows.now.matrix r) }
    ensures at_most_height { IfOk result (λ r. r ≤ rows.now.matrix.height) }
    ensures at_most_width { IfOk result (λ r. r ≤ rows.now.matrix.width) }
{
    // The laws' contracts: there is an echelon form, and independent rows of one space are as many.
    row_space::rref_exists();
    row_space::span_fixes_height();
    // The call's contract tells that the entries are residues.
    rows.is_sound();
    Ok(eliminated(alloc, rows)?.height())
}

// Rows with distinct leads that have the row space of these, for a prime modulus.
pub(crate) fn eliminated(alloc: Global, rows: &Rows) -> Result<Leads, AllocError>
    ensures modulus { IfOk result (λ kept. kept.modulus ≡ rows.now.modulus) }
    ensures width { IfOk result (λ kept. kept.matrix.width ≡ rows.now.matrix.width) }
    ensures few { IfOk result (λ kept. kept.matrix.height ≤ rows.now.matrix.height) }
    ensures span { IfOk result (HaveSpanOf rows.now.matrix) }
{
    let mut kept = Leads::new(alloc, rows.width(), &rows.modulus())?;
    // The call tells how high a matrix is: the next row's number is no overflow.
    rows.is_sound();
    let mut from = 0;
    while let Some(i) = rows.next_filled(from) {
        // The call tells what the kept rows promise before they change.
        kept.is_sound();
        kept.insert(rows.cols(i), rows.vals(i))?;
        from = i + 1;
    }
    Ok(kept)
}
