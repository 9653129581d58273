// Where rows begin.
ghost use Rattle.std.specs.Prelude.{◌<◌, IfOk};
ghost use Rattle.sparse_rows.specs.Rows.{IsFilled};
ghost use Rattle.fl_pivots.specs.Beginnings.{AreBeginnings, IsBeginning};

use sparse_rows::Rows;
use std::alloc::{AllocError, Global};

// Where a row begins: the column of its first nonzero entry, how many entries it has, and which row it is. Rows are compared
// by these fields, in this order.
#[derive(Clone, Copy, Debug, PartialEq, Eq, PartialOrd, Ord)]
pub(crate) struct Beginning {
    pub(crate) column: u32,
    pub(crate) weight: u32,
    pub(crate) row: u32,
}

impl Beginning {
    // Where row i begins.
    pub(crate) fn of(rows: &Rows, i: u32) -> Self
        requires row { i < rows.now.matrix.height }
        requires filled { IsFilled rows.now.matrix i }
        ensures { IsBeginning rows.now.matrix i result }
    {
        // The contracts of these calls tell that the rows are a matrix, and bound its width.
        rows.is_sound();
        let cols = rows.cols(i);
        Beginning {
            column: cols[0],
            weight: cols.len() as u32,
            row: i,
        }
    }
}

// Where the rows begin that have an entry.
pub(crate) fn beginnings(alloc: Global, rows: &Rows) -> Result<Vec<Beginning>, AllocError>
    ensures { IfOk result (λ list. AreBeginnings rows.now.matrix rows.now.matrix.height list.items) }
{
    // The contract of this call tells that the rows are a matrix, and bounds its height.
    rows.is_sound();
    let mut list = Vec::new(alloc);
    let mut from = 0;
    while let Some(i) = rows.next_filled(from) {
        list.push(Beginning::of(rows, i))?;
        from = i + 1;
    }
    Ok(list)
}
