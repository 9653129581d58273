// How rows are reduced by pivots.
ghost use Rattle.std.specs.Prelude.{◌≡◌, length, IfOk, OnOk};
ghost use Rattle.residue_words.specs.Residues.{IsPrime};
ghost use Rattle.pivot_table.specs.Order.{Triangular};
ghost use Rattle.sparse_rows.specs.Stored.{IsSparse, spread};
ghost use Rattle.lead_rows.specs.Accumulator.{IsAlike};
ghost use Rattle.triangular_solve.specs.Reduced.{FitsReduced, FitsRest, HasSizesOf, IsReduced, IsSchurRow, reduction_of, workspace_of};

use pivot_table::Pair;
use sparse_rows::{Rows, Sparse};
use std::alloc::{AllocError, Global};
use std::marker::Model;
use triangular_solve::{FlatTriangle, Reduced, Triangle, Work};

/// Reduces rows by the pivots of a triangle; where the coefficients aren't wanted, in the way that is cheaper for its matrix: by
/// flat rows or by walks. Contracts see the triangle.
///
/// Workers share it; each has a `Work` of its own.
#[derive(Debug, Drop)]
pub struct RowReducer<'t, 'a> {
    triangle: &'t Triangle<'a>,
    flat: Option<FlatTriangle<'t, 'a>>,
}

impl<'t, 'a> Model for RowReducer<'t, 'a> {
    ghost use Rattle.std.specs.Prelude.{◌≡◌, IfSome};
    ghost use Rattle.triangular_solve.specs.Triangle.{TriangleState};

    ghost Value = { TriangleState };

    ghost view = { λ r. r.triangle.now };

    ghost invariant = { λ r. IfSome r.flat (λ f. f ≡ r.triangle.now) };
}

impl<'t, 'a> RowReducer<'t, 'a> {
    /// Chooses the way for this triangle and so many workers by trying some rows; flat rows are made where they are cheaper for all
    /// rows.
    pub fn of(alloc: Global, triangle: &'t Triangle<'a>, workers: u32) -> Result<Self, AllocError>
        ensures { IfOk result (λ r. r ≡ triangle.now) }
    {
        let flat = FlatTriangle::where_cheaper(alloc, triangle, workers)?;
        Ok(RowReducer { triangle, flat })
    }

    /// Reduces each row by a walk, which is the only way that gives the coefficients.
    pub fn by_walks(triangle: &'t Triangle<'a>) -> Self
        ensures { result ≡ triangle.now }
    {
        RowReducer {
            triangle,
            flat: None,
        }
    }

    /// Reduces each row in one pass over its entries by flat rows, whatever they cost; [`RowReducer::of`] makes them where they are
    /// cheaper than walks, and gives them up where they would fill up.
    ///
    /// Making them takes the time of their entries, times those of a pivot's row, and 12 bytes an entry. Nothing but memory bounds how
    /// many these are: a flat row may have one in each column of the pivots' rows that is no pivot's. Want of memory is an error.
    pub fn by_flat_rows(alloc: Global, triangle: &'t Triangle<'a>) -> Result<Self, AllocError>
        ensures { IfOk result (λ r. r ≡ triangle.now) }
    {
        let flat = FlatTriangle::of(alloc, triangle, u64::MAX)?;
        Ok(RowReducer { triangle, flat })
    }

    /// The triangle.
    pub fn triangle(&self) -> &'t Triangle<'a>
        ensures { result.now ≡ self.now }
    {
        self.triangle
    }

    /// The matrix.
    pub fn rows(&self) -> &'a Rows
        ensures { result.now ≡ self.now.rows }
    {
        self.triangle.rows()
    }

    /// The law of its pivots, for proofs: it does nothing.
    #[inline(always)]
    pub fn is_sound(&self)
        ensures { Triangular self.now.rows.matrix self.now.pairs }
    {
        self.pairs();
    }

    /// The pairs in their order.
    pub fn pairs(&self) -> &[Pair]
        ensures pairs { result.now ≡ self.now.pairs }
        ensures triangular { Triangular self.now.rows.matrix self.now.pairs }
    {
        self.triangle.pairs()
    }

    /// Room for a worker.
    pub fn work(&self, alloc: Global) -> Result<Work, AllocError>
        ensures { IfOk result (λ w. w ≡ workspace_of self.now) }
    {
        Work::new(alloc, self.triangle)
    }

    // Rows of zeros to which a worker reduces rows, one after another.
    pub(crate) fn room(&self, alloc: Global) -> Reduced
        ensures { HasSizesOf self.now result }
    {
        self.triangle.room(alloc)
    }

    // Reduces a row with its coefficients.
    pub(crate) fn reduce(
        &self,
        alloc: Global,
        cols: &[u32],
        vals: &[u64],
        work: &mut Work,
        reduced: &mut Reduced,
    ) -> Result<(), AllocError>
        requires row { IsSparse self.now.rows.modulus self.now.rows.matrix.width cols.now vals.now }
        requires work { work.old ≡ workspace_of self.now }
        requires sizes { HasSizesOf self.now reduced.old }
        ensures work { work.new ≡ work.old }
        ensures sizes { HasSizesOf self.now reduced.new }
        ensures fits { OnOk result (FitsReduced self.now reduced.new) }
        ensures reduced { OnOk result (IsPrime self.now.rows.modulus → IsReduced self.now.rows.modulus
            self.now.rows.matrix self.now.pairs (spread self.now.rows.matrix.width cols.now vals.now)
            (reduction_of reduced.new)) }
    {
        self.triangle.reduce(alloc, cols, vals, work, reduced)
    }

    /// Makes `rest` what is left of the row that stands in these columns and values by the pivots: for a prime modulus its Schur
    /// row. For any modulus it is 0 in their columns. Its memory serves again.
    pub fn rest(
        &self,
        alloc: Global,
        cols: &[u32],
        vals: &[u64],
        work: &mut Work,
        rest: &mut Sparse,
    ) -> Result<(), AllocError>
        requires row { IsSparse self.now.rows.modulus self.now.rows.matrix.width cols.now vals.now }
        requires work { work.old ≡ workspace_of self.now }
        requires rest_modulus { rest.old.modulus ≡ self.now.rows.modulus }
        requires rest_width { length rest.old.row ≡ self.now.rows.matrix.width }
        ensures work { work.new ≡ work.old }
        ensures alike { IsAlike rest.old rest.new }
        ensures fits { OnOk result (FitsRest self.now rest.new) }
        ensures rest { OnOk result (IsPrime self.now.rows.modulus → IsSchurRow self.now.rows.modulus
            self.now.rows.matrix self.now.pairs (spread self.now.rows.matrix.width cols.now vals.now)
            rest.new.row) }
    {
        match &self.flat {
            Some(flat) => flat.rest_to(alloc, cols, vals, work, rest),
            None => self.triangle.rest_to(alloc, cols, vals, work, rest),
        }
    }
}
