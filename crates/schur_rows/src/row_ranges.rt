// Parts of what a round leaves: some rows one after another.
ghost use Rattle.std.specs.Prelude.{◌≡◌, ◌<◌, ◌≤◌, ◌+◌, ◌-◌, ℕ, length, IfOk, IfSome, OnOk};
ghost use Rattle.std.specs.Option.{MatchOption};
ghost use Rattle.sparse_rows.specs.Rows.{LARGEST_SIZE};
ghost use Rattle.lead_rows.specs.Accumulator.{IsAlike};
ghost use Rattle.triangular_solve.specs.Reduced.{HasSizesOf, workspace_of};
ghost use Rattle.schur_rows.specs.Parts.{AddsReduced, AddsRow, AddsZeros, AreZeroRows, MayTakeRow, IsNextBelow, IsPartTo, itself};
ghost use Rattle.schur_rows.specs.PivotNumbers.{HasNumbers};

use crate::pivot_numbers::PivotNumbers;
use crate::reduction_pass::ReductionPass;
use crate::round::SchurRows;
use crate::row_reducer::RowReducer;
use sparse_rows::{Rows, Sparse};
use std::alloc::{AllocError, Global};
use triangular_solve::{Reduced, Work};

// No row, with room for so many rows and their share of the entries.
pub(crate) fn no_rows(
    alloc: Global,
    pass: ReductionPass,
    height: u32,
) -> Result<SchurRows, AllocError>
    requires { height ≤ LARGEST_SIZE }
    ensures { IfOk result (λ part. (from : ℕ) →
        IsPartTo pass.entry.reducer.now pass.entry.with_coefficients from from part) }
{
    let rows = pass.reducer.rows();
    // The call's contract tells how high a matrix is; a triangle has no more pivots.
    rows.is_sound();
    let pivots = pass.reducer.pairs().len() as u32;
    let entries = share_of_rows(rows, pass.total, height);
    let coefficients = if pass.with_coefficients { entries } else { 0 };
    Ok(SchurRows {
        rows: Rows::with_room(alloc, rows.modulus(), rows.width(), height, entries)?,
        coefficients: Rows::with_room(alloc, rows.modulus(), pivots, height, coefficients)?,
    })
}

// How many entries so many rows have on average, where all rows of the matrix have so many.
pub(crate) fn share_of_rows(rows: &Rows, total: u64, height: u32) -> usize {
    let share = total.saturating_mul(u64::from(height)) / u64::from(rows.height().max(1));
    share as usize
}

// What is left of the rows from `from` up to `to`; the coefficients are zeros where they aren't kept.
pub(crate) fn part_of(
    alloc: Global,
    pass: ReductionPass,
    from: u32,
    to: u32,
    work: &mut Work,
) -> Result<SchurRows, AllocError>
    requires work { work.old ≡ workspace_of pass.reducer.now }
    requires order { from ≤ to }
    requires inside { to ≤ pass.reducer.now.rows.matrix.height }
    requires numbers { HasNumbers pass.reducer.now.pairs pass.pivot_rows.now }
    ensures work { work.new ≡ work.old }
    ensures part { IfOk result (IsPartTo pass.entry.reducer.now pass.entry.with_coefficients from to) }
{
    let rows = pass.reducer.rows();
    // The call's contract tells how high a matrix is.
    rows.is_sound();
    let mut part = no_rows(alloc, pass, to - from)?;
    append_rows(alloc, pass, from, to, work, &mut part)?;
    Ok(part)
}

// The same by the caller alone, in room of its own.
pub(crate) fn part_by_caller(
    alloc: Global,
    pass: ReductionPass,
    from: u32,
    to: u32,
) -> Result<SchurRows, AllocError>
    requires order { from ≤ to }
    requires inside { to ≤ pass.reducer.now.rows.matrix.height }
    requires numbers { HasNumbers pass.reducer.now.pairs pass.pivot_rows.now }
    ensures { IfOk result (IsPartTo pass.entry.reducer.now pass.entry.with_coefficients from to) }
{
    let mut work = pass.reducer.work(alloc)?;
    part_of(alloc, pass, from, to, &mut work)
}

// Appends what is left of the rows from `from` up to `to`.
fn append_rows(
    alloc: Global,
    pass: ReductionPass,
    from: u32,
    to: u32,
    work: &mut Work,
    part: &mut SchurRows,
) -> Result<(), AllocError>
    requires work { work.old ≡ workspace_of pass.reducer.now }
    requires order { from ≤ to }
    requires inside { to ≤ pass.reducer.now.rows.matrix.height }
    requires numbers { HasNumbers pass.reducer.now.pairs pass.pivot_rows.now }
    requires part { IsPartTo pass.reducer.now pass.with_coefficients from from part.old }
    ensures work { work.new ≡ work.old }
    ensures part { OnOk result (IsPartTo pass.entry.reducer.now pass.entry.with_coefficients
        from to part.new) }
{
    let rows = pass.reducer.rows();
    // The calls' contracts tell how high a matrix of residues is, and that the pivots are triangular.
    rows.is_sound();
    pass.reducer.is_sound();
    let mut left = pass.reducer.room(alloc);
    let mut next = from;
    while let Some(i) = next_below(rows, next, to) {
        append_zeros(part, i - next)?;
        append_reduced(alloc, pass, i, work, &mut left, part)?;
        next = i + 1;
    }
    append_zeros(part, to - next)?;
    Ok(())
}

// The first row from `from` on and below `to` that has an entry, if there is one.
fn next_below(rows: &Rows, from: u32, to: u32) -> Option<u32>
    requires { to ≤ rows.now.matrix.height }
    ensures { MatchOption result (AreZeroRows rows.now.matrix from to) (IsNextBelow rows.now.matrix from to) }
{
    match rows.next_filled(from) {
        Some(i) if i < to => Some(i),
        _ => None,
    }
}

// The first row from `from` on that has an entry and is no pivot's, if there is one.
pub(crate) fn next_without_pivot(
    reducer: &RowReducer,
    pivot_rows: &PivotNumbers,
    from: u32,
) -> Option<u32>
    requires numbers { HasNumbers reducer.now.pairs pivot_rows.now }
    ensures { IfSome result (λ i. (from ≤ i) × (i < reducer.now.rows.matrix.height)) }
{
    let rows = reducer.rows();
    // The call's contract tells how high a matrix is.
    rows.is_sound();
    let mut next = from;
    while let Some(i) = rows.next_filled(next) {
        if pivot_rows.find(i, reducer.pairs()).is_none() {
            return Some(i);
        }
        next = i + 1;
    }
    None
}

// Behind so many of these rows from `from` on, or behind all rows.
pub(crate) fn end_of(reducer: &RowReducer, pivot_rows: &PivotNumbers, from: u32, count: u32) -> u32
    requires from { from < reducer.now.rows.matrix.height }
    requires some { 1 ≤ count }
    requires numbers { HasNumbers reducer.now.pairs pivot_rows.now }
    ensures behind { from < result }
    ensures inside { result ≤ reducer.now.rows.matrix.height }
{
    let height = reducer.rows().height();
    let mut end = from;
    for _ in 0..count {
        let Some(i) = next_without_pivot(reducer, pivot_rows, end) else {
            return height;
        };
        end = i + 1;
    }
    end
}

// Appends rows of zeros to both matrices.
fn append_zeros(part: &mut SchurRows, count: u32) -> Result<(), AllocError>
    requires rows { part.old.rows.matrix.height + count ≤ LARGEST_SIZE }
    requires coefficients { part.old.coefficients.matrix.height + count ≤ LARGEST_SIZE }
    ensures { OnOk result (AddsZeros count part.old part.new) }
{
    part.rows.append_zeros(count)?;
    part.coefficients.append_zeros(count)?;
    Ok(())
}

// Appends what is left of row i, with its coefficients where they are kept. It passes through `left`.
fn append_reduced(
    alloc: Global,
    pass: ReductionPass,
    i: u32,
    work: &mut Work,
    left: &mut Reduced,
    part: &mut SchurRows,
) -> Result<(), AllocError>
    requires row { i < pass.reducer.now.rows.matrix.height }
    requires numbers { HasNumbers pass.reducer.now.pairs pass.pivot_rows.now }
    requires work { work.old ≡ workspace_of pass.reducer.now }
    requires sizes { HasSizesOf pass.reducer.now left.old }
    requires part { MayTakeRow pass.reducer.now part.old }
    ensures work { work.new ≡ work.old }
    ensures sizes { OnOk result (HasSizesOf pass.entry.reducer.now left.new) }
    ensures added { OnOk result (AddsReduced pass.entry.reducer.now pass.entry.with_coefficients
        i part.old part.new) }
{
    let reducer = pass.reducer;
    let rows = reducer.rows();
    // The call's contract tells that the entries are residues.
    rows.is_sound();
    let cols = rows.cols(i);
    let vals = rows.vals(i);
    if let Some(k) = pass.pivot_rows.find(i, reducer.pairs()) {
        if pass.with_coefficients {
            append_pivot(k, &mut left.coefficients, part)?;
            return Ok(());
        }
        append_zeros(part, 1)?;
        return Ok(());
    }
    if pass.with_coefficients {
        reducer.reduce(alloc, cols, vals, work, left)?;
        part.rows.append(&left.rest)?;
        part.coefficients.append(&left.coefficients)?;
        return Ok(());
    }
    reducer.rest(alloc, cols, vals, work, &mut left.rest)?;
    part.rows.append(&left.rest)?;
    part.coefficients.append_zeros(1)?;
    Ok(())
}

// Appends the k-th pivot's row: nothing is left of it, and its coefficient is 1. It passes through `row`.
fn append_pivot(k: u32, row: &mut Sparse, part: &mut SchurRows) -> Result<(), AllocError>
    requires pivot { k < part.old.coefficients.matrix.width }
    requires rows { part.old.rows.matrix.height < LARGEST_SIZE }
    requires coefficients { part.old.coefficients.matrix.height < LARGEST_SIZE }
    requires sound { 2 ≤ part.old.coefficients.modulus }
    requires modulus { row.old.modulus ≡ part.old.coefficients.modulus }
    requires width { length row.old.row ≡ part.old.coefficients.matrix.width }
    ensures row { OnOk result (IsAlike row.old row.new) }
    ensures added { OnOk result (AddsRow (itself part.old k) part.old part.new) }
{
    row.clear();
    row.push(k, 1)?;
    part.rows.append_zeros(1)?;
    part.coefficients.append(row)?;
    Ok(())
}
