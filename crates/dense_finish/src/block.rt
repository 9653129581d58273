// The dense block of a sparse matrix.
ghost use Rattle.std.specs.Prelude.{IfOk};
ghost use Rattle.std.specs.Thread.{IsSync, IsSend};
ghost use Rattle.dense_finish.specs.Block.{IsBlock, IsBlockOf, IsDense};
ghost use Rattle.sparse_rows.specs.Rows.{AreBelow, AreOccupied};

use crate::split_work::Helping;
use dense_panels::Reducing;
use dense_rows::{Dense, Residue};
use residue_words::Modulus;
use sparse_rows::Rows;
use std::alloc::{AllocError, Global};
use std::marker::Model;
use std::thread::{Threads, join};

// The dense block of a matrix: the rows and columns that have an entry, and the entries of these rows at these columns. Contracts
// see it as `DenseBlock`.
#[derive(Drop)]
pub(crate) struct Block<W: Residue> {
    pub(crate) p: Modulus,
    // How many rows and columns the matrix has.
    pub(crate) height: u32,
    pub(crate) width: u32,
    pub(crate) rows: Vec<u32>,
    pub(crate) columns: Vec<u32>,
    pub(crate) entries: Vec<Dense<W>>,
}

impl<W: Residue> Model for Block<W> {
    ghost use Rattle.dense_finish.specs.Block.{DenseBlock};

    ghost Value = { DenseBlock };

    ghost view = { λ b. record {
      modulus = b.p;
      height = b.height;
      width = b.width;
      rows = b.rows.items;
      columns = b.columns.items;
      entries = b.entries.items;
    } };
}

impl<W: Reducing> Block<W> {
    // The block of a matrix, made by so many workers.
    pub(crate) fn of<C: Helping<W>>(
        crew: &C,
        alloc: Global,
        rows: &Rows,
        workers: usize,
    ) -> Result<Block<W>, AllocError>
        requires able { C.can_work }
        requires modulus { W.serves rows.now.modulus }
        ensures block { IfOk result (IsBlockOf rows.now) }
        ensures dense { IfOk result IsDense }
    {
        let filled = rows.filled(alloc)?;
        let columns = rows.occupied(alloc)?;
        let entries = crew.make_block(alloc, rows, &filled, &columns, workers)?;
        Ok(Block {
            p: rows.modulus(),
            height: rows.height(),
            width: rows.width(),
            rows: filled,
            columns,
            entries,
        })
    }
}

// The entries of these rows at the columns that have one, made by so many workers: each makes some of the rows.
pub(crate) fn shared_block<R: Threads + Sync, W: Residue>(
    rt: &R,
    alloc: Global,
    rows: &Rows,
    filled_rows: &[u32],
    columns: &[u32],
    workers: usize,
) -> Result<Vec<Dense<W>>, AllocError>
    requires modulus { W.serves rows.now.modulus }
    requires rows { AreBelow rows.now.matrix.height filled_rows.now }
    requires columns { AreOccupied rows.now.matrix columns.now }
    ensures { IfOk result (λ block.
        IsBlock rows.now.modulus rows.now.matrix filled_rows.now columns.now block.items) }
{
    if workers <= 1 {
        return block_of(alloc, rows, filled_rows, columns);
    }
    // One thread begins all others: what a new one begins first is often put on its own processor, and waits there for it.
    let others = workers - 1;
    let (a, b) = filled_rows.split_at(filled_rows.len() / workers);
    let (front, back) = join(
        rt,
        || -> Result<Vec<Dense<W>>, AllocError>
            requires { IsSync R.row × IsSend W.row × W.serves rows.now.modulus
                × AreBelow rows.now.matrix.height a.now × AreOccupied rows.now.matrix columns.now }
            ensures { IfOk result (λ block. IsBlock rows.entry.now.modulus rows.entry.now.matrix
                a.entry.now columns.entry.now block.items) }
        { shared_block(rt, alloc, rows, a, columns, 1) },
        || -> Result<Vec<Dense<W>>, AllocError>
            requires { IsSync R.row × IsSend W.row × W.serves rows.now.modulus
                × AreBelow rows.now.matrix.height b.now × AreOccupied rows.now.matrix columns.now }
            ensures { IfOk result (λ block. IsBlock rows.entry.now.modulus rows.entry.now.matrix
                b.entry.now columns.entry.now block.items) }
        { shared_block(rt, alloc, rows, b, columns, others) },
    );
    let mut block = front?;
    let mut rest = back?;
    block.append(&mut rest)?;
    Ok(block)
}

// The entries of these rows at the columns that have one.
pub(crate) fn block_of<W: Residue>(
    alloc: Global,
    rows: &Rows,
    filled_rows: &[u32],
    columns: &[u32],
) -> Result<Vec<Dense<W>>, AllocError>
    requires modulus { W.serves rows.now.modulus }
    requires rows { AreBelow rows.now.matrix.height filled_rows.now }
    requires columns { AreOccupied rows.now.matrix columns.now }
    ensures { IfOk result (λ block.
        IsBlock rows.now.modulus rows.now.matrix filled_rows.now columns.now block.items) }
{
    let p = rows.modulus();
    let mut block = Vec::with_capacity(alloc, filled_rows.len())?;
    for i in filled_rows {
        block.push(Dense::of_entries(alloc, rows.cols(*i), rows.vals(*i), columns, &p)?)?;
    }
    Ok(block)
}
