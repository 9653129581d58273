// Pivots by which rows are reduced in one pass.
ghost use Rattle.std.specs.Prelude.{◌≡◌, length, IfOk, IfSome, OnOk};
ghost use Rattle.residue_words.specs.Residues.{IsPrime};
ghost use Rattle.sparse_rows.specs.Stored.{IsSparse, spread};
ghost use Rattle.lead_rows.specs.Accumulator.{IsAlike};
ghost use Rattle.triangular_solve.specs.Reduced.{FitsRest, IsSchurRow, workspace_of};

use crate::flat_estimate::FlatEstimate;
use crate::flat_rows::FlatRows;
use crate::pivot_rows::PivotRows;
use crate::row_entries::RowEntries;
use crate::triangle::Triangle;
use crate::work::Work;
use sparse_rows::Sparse;
use std::alloc::{AllocError, Global};
use std::marker::Model;

/// A triangle with flat rows: each pivot's row less multiples of those behind it, so that it is 1 at its own pivot and 0 in the
/// columns of all others. What the pivots leave of a row is then found in one pass over its own entries; the coefficients of the
/// pivots' own rows are not. Contracts see the triangle.
///
/// It takes 12 bytes an entry of the flat rows, of which there may be far more than the pivots' rows have, and 8 bytes a pivot.
#[derive(Debug, Drop)]
pub struct FlatTriangle<'t, 'a> {
    triangle: &'t Triangle<'a>,
    pivots: &'t PivotRows,
    flat: FlatRows,
}

impl<'t, 'a> Model for FlatTriangle<'t, 'a> {
    ghost use Rattle.triangular_solve.specs.FlatRows.{AreAllFlat};
    ghost use Rattle.triangular_solve.specs.PivotRows.{ArePivotRows};
    ghost use Rattle.triangular_solve.specs.Triangle.{TriangleState};

    ghost Value = { TriangleState };

    ghost view = { λ f. f.triangle.now };

    ghost invariant = { λ f. ArePivotRows f.triangle.now.rows f.triangle.now.pairs f.pivots.now
        × AreAllFlat f.pivots.now f.flat };
}

impl<'t, 'a> FlatTriangle<'t, 'a> {
    /// The flat rows of a triangle; None once they have more than so many entries.
    pub fn of(
        alloc: Global,
        triangle: &'t Triangle<'a>,
        most: u64,
    ) -> Result<Option<Self>, AllocError>
        ensures { IfOk result (λ r. IfSome r (λ f. f ≡ triangle.now)) }
    {
        let pivots = triangle.pivot_rows();
        match FlatRows::of(alloc, pivots, most)? {
            Some(flat) => Ok(Some(FlatTriangle {
                triangle,
                pivots,
                flat,
            })),
            None => Ok(None),
        }
    }

    /// The flat rows of a triangle, where making them is cheaper than that so many workers go to all rows of the matrix by walks; else
    /// None. Some rows are reduced by walks to see what that costs; and the flat rows are given up once they have too many entries, of
    /// which a row of the matrix would have to take a part.
    pub fn where_cheaper(
        alloc: Global,
        triangle: &'t Triangle<'a>,
        workers: u32,
    ) -> Result<Option<Self>, AllocError>
        ensures { IfOk result (λ r. IfSome r (λ f. f ≡ triangle.now)) }
    {
        let estimate = FlatEstimate::of(alloc, triangle)?;
        if estimate.is_cheaper(workers) {
            FlatTriangle::of(alloc, triangle, estimate.most(workers))
        } else {
            Ok(None)
        }
    }

    /// Makes `rest` what is left of the row that stands in these columns and values by the pivots, as `Triangle::rest_to` does.
    pub fn rest_to(
        &self,
        alloc: Global,
        cols: &[u32],
        vals: &[u64],
        work: &mut Work,
        rest: &mut Sparse,
    ) -> Result<(), AllocError>
        requires row { IsSparse self.now.rows.modulus self.now.rows.matrix.width cols.now vals.now }
        requires work { work.old ≡ workspace_of self.now }
        requires rest_modulus { rest.old.modulus ≡ self.now.rows.modulus }
        requires rest_width { length rest.old.row ≡ self.now.rows.matrix.width }
        ensures work { work.new ≡ work.old }
        ensures alike { IsAlike rest.old rest.new }
        ensures fits { OnOk result (FitsRest self.now rest.new) }
        ensures rest { OnOk result (IsPrime self.now.rows.modulus → IsSchurRow self.now.rows.modulus
            self.now.rows.matrix self.now.pairs (spread self.now.rows.matrix.width cols.now vals.now)
            rest.new.row) }
    {
        rest.clear();
        let row = RowEntries { cols, vals };
        work.flat_rest(alloc, self.pivots, &self.flat, row, rest)?;
        Ok(())
    }
}
