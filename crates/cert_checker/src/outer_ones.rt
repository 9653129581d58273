// The leads of an echelon form, and the ends of a kernel basis.
ghost use Rattle.std.specs.Prelude.{◌≡◌, ◌<◌, ◌↔◌, ℕ, List, length, slice_index, IfOk, IfSome, IfNone, IsTrue};
ghost use Rattle.std.specs.Option.{MatchOption};
ghost use Rattle.residue_words.specs.Matrix.{entry};
ghost use Rattle.sparse_rows.specs.Rows.{AreBelow};
ghost use Rattle.cert_checker.specs.OuterOnes.{AreOuterOnes, AreSingle, IsOuterOne, IsOutermost};

use sparse_rows::Rows;
use std::alloc::{AllocError, Global};

// From which side a row is looked at.
#[derive(Clone, Copy, Debug, PartialEq, Eq)]
pub(crate) enum Side {
    // The first entries count, as in an echelon form.
    Left,
    // The last entries count, as in a kernel basis.
    Right,
}

// Where the outermost entry of row k stands, if it is 1.
fn outer_one(rows: &Rows, k: u32, side: Side) -> Option<u32>
    requires { k < rows.now.matrix.height }
    ensures some { IfSome result (IsOuterOne side rows.now.matrix.width (entry rows.now.matrix k)) }
    ensures none { IfNone result
        ((c : ℕ) → ¬ IsOuterOne side rows.now.matrix.width (entry rows.now.matrix k) c) }
{
    // The proof wants that it is a matrix of residues.
    rows.is_sound();
    let cols = rows.cols(k);
    let vals = rows.vals(k);
    if cols.len() == 0 {
        return None;
    }
    let q = outer_place(cols.len(), side);
    if vals[q] != 1 {
        return None;
    }
    Some(cols[q])
}

// The outermost of so many places.
fn outer_place(count: usize, side: Side) -> usize
    requires { 0 < count }
    ensures { IsOutermost side count result }
{
    match side {
        Side::Left => 0,
        Side::Right => count - 1,
    }
}

// The columns of the outermost entries of the rows, if these are ones at rising columns. Memory is taken as the rows are seen.
pub(crate) fn outer_ones(
    alloc: Global,
    rows: &Rows,
    side: Side,
) -> Result<Option<Vec<u32>>, AllocError>
    ensures some { IfOk result (λ found. IfSome found
        (λ ones. AreOuterOnes side rows.now.matrix ones.items)) }
    ensures none { IfOk result (λ found. IfNone found
        ((ones : List ℕ) → ¬ AreOuterOnes side rows.now.matrix ones)) }
{
    // The proof that c + 1 is no overflow wants to know how wide a matrix is.
    rows.is_sound();
    let mut ones = Vec::new(alloc);
    let mut least: u32 = 0;
    for k in 0..rows.height() {
        let Some(c) = outer_one(rows, k, side) else {
            return Ok(None);
        };
        if c < least {
            return Ok(None);
        }
        ones.push(c)?;
        least = c + 1;
    }
    Ok(Some(ones))
}

// Whether each of the rows that are named has one entry alone.
pub(crate) fn are_single(rows: &Rows, named: &[u32]) -> bool
    requires { AreBelow rows.now.matrix.height named.now }
    ensures { IsTrue result ↔ AreSingle rows.now.matrix named.now }
{
    for k in 0..named.len() {
        if rows.cols(named[k]).len() != 1 {
            return false;
        }
    }
    true
}
