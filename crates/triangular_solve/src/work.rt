// The room in which rows are reduced.
ghost use Rattle.std.specs.Prelude.{◌≡◌, ◌<◌, ◌≤◌, ℕ, List, length, slice_index, IfOk, OnOk, OnErr};
ghost use Rattle.residue_words.specs.Matrix.{IsVector, zeros};
ghost use Rattle.sparse_rows.specs.Rows.{AreBelow, LARGEST_SIZE};
ghost use Rattle.sparse_rows.specs.Stored.{IsSparse, spread};
ghost use Rattle.lead_rows.specs.Accumulator.{IsAlike, IsClear};
ghost use Rattle.triangular_solve.specs.FlatRows.{AreAllFlat, IsFlatRest};
ghost use Rattle.triangular_solve.specs.PivotRows.{ArePivotsReduced, IsRoomFor};
ghost use Rattle.triangular_solve.specs.Reduced.{workspace_of};

use crate::flat_rows::FlatRows;
use crate::pivot_rows::PivotRows;
use crate::row_entries::RowEntries;
use crate::triangle::Triangle;
use lead_rows::Accumulator;
use sparse_rows::Sparse;
use std::alloc::{AllocError, Global};
use std::marker::Model;

// What a walk costs: the entries of pivot rows that it meets, and those that it leaves in their columns.
#[derive(Clone, Copy, Debug)]
pub(crate) struct Counts {
    pub(crate) met: u64,
    pub(crate) left: u64,
}

/// Room in which rows are reduced by a triangle's pivots, one row after another: a worker has one of its own, while all share
/// the triangle. Contracts see the modulus, the number of pairs and the width for which it is made.
///
/// It takes 8 bytes and a bit for each column in which some pivot row has an entry.
#[derive(Debug, Drop)]
pub struct Work {
    pairs: u32,
    // Of the row that is reduced, the sums at columns of pivot rows.
    sums: Accumulator,
    // And its other entries, which nothing changes.
    passed: Sparse,
}

impl Model for Work {
    ghost use Rattle.std.specs.Prelude.{◌≡◌, length};
    ghost use Rattle.triangular_solve.specs.PivotRows.{IsRoom};
    ghost use Rattle.triangular_solve.specs.Reduced.{Workspace};

    ghost Value = { Workspace };

    ghost view = { λ w. record { modulus = w.passed.modulus; pairs = w.pairs; width = length w.passed.row } };

    ghost invariant = { λ w. IsRoom w.sums w.passed };
}

impl Work {
    /// Room for rows that are reduced by this triangle, or by another of as many pairs, the same width and modulus.
    pub fn new(alloc: Global, triangle: &Triangle) -> Result<Work, AllocError>
        ensures { IfOk result (λ w. w ≡ workspace_of triangle.now) }
    {
        let rows = triangle.rows();
        let modulus = rows.modulus();
        let width = rows.width();
        let columns = triangle.pivot_rows().order().columns().len() as u32;
        Ok(Work {
            pairs: triangle.pairs().len() as u32,
            sums: Accumulator::new(alloc, columns, &modulus)?,
            passed: Sparse::new(alloc, width, modulus),
        })
    }

    // Reduces a row to two zero rows, and is clean after it.
    pub(crate) fn reduce(
        &mut self,
        alloc: Global,
        pivots: &PivotRows,
        row: RowEntries<'_>,
        rest: &mut Sparse,
        coefficients: &mut Sparse,
    ) -> Result<(), AllocError>
        requires row { IsSparse self.old.modulus self.old.width row.cols.now row.vals.now }
        requires modulus { self.old.modulus ≡ pivots.now.rows.modulus }
        requires below { AreBelow self.old.width pivots.now.columns }
        requires rest { rest.old ≡ record { modulus = self.old.modulus; row = zeros self.old.width } }
        requires coefficients { coefficients.old
            ≡ record { modulus = self.old.modulus; row = zeros pivots.now.rows.matrix.height } }
        ensures work { self.new ≡ self.old }
        ensures rest { IsAlike rest.old rest.new }
        ensures coefficients { IsAlike coefficients.old coefficients.new }
        ensures reduced { OnOk result (ArePivotsReduced pivots.now
            (spread self.old.width row.entry.cols.now row.entry.vals.now)
            rest.new.row coefficients.new.row) }
    {
        fit(alloc, pivots, &mut self.sums)?;
        let done = reduce_by(
            pivots,
            row,
            &mut self.sums,
            &mut self.passed,
            rest,
            coefficients,
        );
        self.sums.clear();
        self.passed.clear();
        done
    }

    // The same without coefficients.
    pub(crate) fn rest(
        &mut self,
        alloc: Global,
        pivots: &PivotRows,
        row: RowEntries<'_>,
        rest: &mut Sparse,
    ) -> Result<(), AllocError>
        requires row { IsSparse self.old.modulus self.old.width row.cols.now row.vals.now }
        requires modulus { self.old.modulus ≡ pivots.now.rows.modulus }
        requires below { AreBelow self.old.width pivots.now.columns }
        requires rest { rest.old ≡ record { modulus = self.old.modulus; row = zeros self.old.width } }
        ensures work { self.new ≡ self.old }
        ensures rest { IsAlike rest.old rest.new }
        ensures reduced { OnOk result ((coefficients : List ℕ) ×
            ArePivotsReduced pivots.now (spread self.old.width row.entry.cols.now row.entry.vals.now)
            rest.new.row coefficients) }
    {
        fit(alloc, pivots, &mut self.sums)?;
        let done = rest_by(pivots, row, &mut self.sums, &mut self.passed, rest);
        self.sums.clear();
        self.passed.clear();
        done
    }

    // The same by flat rows.
    pub(crate) fn flat_rest(
        &mut self,
        alloc: Global,
        pivots: &PivotRows,
        flat: &FlatRows,
        row: RowEntries<'_>,
        rest: &mut Sparse,
    ) -> Result<(), AllocError>
        requires flat { AreAllFlat pivots.now flat.now }
        requires row { IsSparse self.old.modulus self.old.width row.cols.now row.vals.now }
        requires modulus { self.old.modulus ≡ pivots.now.rows.modulus }
        requires below { AreBelow self.old.width pivots.now.columns }
        requires rest { rest.old ≡ record { modulus = self.old.modulus; row = zeros self.old.width } }
        ensures work { self.new ≡ self.old }
        ensures rest { IsAlike rest.old rest.new }
        ensures left { OnOk result
            (IsFlatRest pivots.now (spread self.old.width row.entry.cols.now row.entry.vals.now)
            rest.new.row) }
    {
        fit(alloc, pivots, &mut self.sums)?;
        let done = flat.rest_by(pivots, row, &mut self.sums, &mut self.passed, rest);
        self.sums.clear();
        self.passed.clear();
        done
    }

    // How many entries of pivot rows are met if a row is reduced, and how many are left in their columns.
    pub(crate) fn count(
        &mut self,
        alloc: Global,
        pivots: &PivotRows,
        row: RowEntries<'_>,
    ) -> Result<Counts, AllocError>
        requires row { IsSparse self.old.modulus self.old.width row.cols.now row.vals.now }
        requires modulus { self.old.modulus ≡ pivots.now.rows.modulus }
        requires below { AreBelow self.old.width pivots.now.columns }
        ensures work { self.new ≡ self.old }
    {
        fit(alloc, pivots, &mut self.sums)?;
        let done = count_by(pivots, row, &mut self.sums, &mut self.passed);
        self.sums.clear();
        self.passed.clear();
        done
    }
}

// Makes sums that are 0 as many as the columns of the pivot rows, if they are not.
fn fit(alloc: Global, pivots: &PivotRows, sums: &mut Accumulator) -> Result<(), AllocError>
    requires few { length sums.old.row ≤ LARGEST_SIZE }
    requires clear { IsClear sums.old.modulus (length sums.old.row) sums.old }
    ensures ok { OnOk result (sums.new ≡ record {
      modulus = sums.old.modulus;
      row = zeros
          (length pivots.now.columns);
    }) }
    ensures err { OnErr result (sums.new ≡ sums.old) }
    ensures few { length pivots.now.columns ≤ LARGEST_SIZE }
{
    let columns = pivots.order().columns().len() as u32;
    if sums.width() != columns {
        *sums = Accumulator::new(alloc, columns, &sums.modulus())?;
    }
    Ok(())
}

// Reduces a row to two zero rows. What is left behind in the room is to be cleared.
fn reduce_by(
    pivots: &PivotRows,
    row: RowEntries<'_>,
    sums: &mut Accumulator,
    passed: &mut Sparse,
    rest: &mut Sparse,
    coefficients: &mut Sparse,
) -> Result<(), AllocError>
    requires row { IsSparse pivots.now.rows.modulus (length passed.old.row) row.cols.now row.vals.now }
    requires room { IsRoomFor pivots.now sums.old passed.old }
    requires below { AreBelow (length passed.old.row) pivots.now.columns }
    requires rest { rest.old ≡ record { modulus = passed.old.modulus; row = zeros (length passed.old.row) } }
    requires coefficients { coefficients.old
        ≡ record { modulus = passed.old.modulus; row = zeros pivots.now.rows.matrix.height } }
    ensures sums { IsAlike sums.old sums.new }
    ensures passed { IsAlike passed.old passed.new }
    ensures rest { IsAlike rest.old rest.new }
    ensures coefficients { IsAlike coefficients.old coefficients.new }
    ensures reduced { OnOk result (ArePivotsReduced pivots.now
        (spread (length passed.old.row) row.entry.cols.now row.entry.vals.now)
        rest.new.row coefficients.new.row) }
{
    pivots.order().split(row.cols, row.vals, sums, passed)?;
    pivots.eliminate(sums, coefficients)?;
    pivots.order().join(sums, passed, rest)?;
    // The call's contract tells that the rest holds residues.
    rest.is_sound();
    Ok(())
}

// The same without coefficients.
fn rest_by(
    pivots: &PivotRows,
    row: RowEntries<'_>,
    sums: &mut Accumulator,
    passed: &mut Sparse,
    rest: &mut Sparse,
) -> Result<(), AllocError>
    requires row { IsSparse pivots.now.rows.modulus (length passed.old.row) row.cols.now row.vals.now }
    requires room { IsRoomFor pivots.now sums.old passed.old }
    requires below { AreBelow (length passed.old.row) pivots.now.columns }
    requires rest { rest.old ≡ record { modulus = passed.old.modulus; row = zeros (length passed.old.row) } }
    ensures sums { IsAlike sums.old sums.new }
    ensures passed { IsAlike passed.old passed.new }
    ensures rest { IsAlike rest.old rest.new }
    ensures reduced { OnOk result ((coefficients : List ℕ) ×
        ArePivotsReduced pivots.now (spread (length passed.old.row) row.entry.cols.now row.entry.vals.now)
        rest.new.row coefficients) }
{
    pivots.order().split(row.cols, row.vals, sums, passed)?;
    pivots.eliminate_all(sums);
    pivots.order().join(sums, passed, rest)?;
    // The call's contract tells that the rest holds residues.
    rest.is_sound();
    Ok(())
}

// What is met and left if a row is reduced.
fn count_by(
    pivots: &PivotRows,
    row: RowEntries<'_>,
    sums: &mut Accumulator,
    passed: &mut Sparse,
) -> Result<Counts, AllocError>
    requires row { IsSparse pivots.now.rows.modulus (length passed.old.row) row.cols.now row.vals.now }
    requires room { IsRoomFor pivots.now sums.old passed.old }
    requires below { AreBelow (length passed.old.row) pivots.now.columns }
    ensures sums { IsAlike sums.old sums.new }
    ensures passed { IsAlike passed.old passed.new }
{
    pivots.order().split(row.cols, row.vals, sums, passed)?;
    let met = pivots.count_walk(sums);
    let left = sums.count();
    Ok(Counts { met, left })
}
