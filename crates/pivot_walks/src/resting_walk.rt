// A walk that no ledger counts yet.
ghost use Rattle.std.specs.Prelude.{◌≡◌, ◌++◌, ◌∷◌, [], None, IfOk};
ghost use Rattle.pivot_table.specs.History.{HasCol, HasRow, Nonzero};

use crate::indexed_pairs::IndexedPairs;
use crate::marked_columns::MarkedColumns;
use residue_words::plain::Pair;
use sparse_rows::Rows;
use std::alloc::{AllocError, Global};
use std::marker::Model;

/// A list of pivots with the memory of a walk, but no open row and no ledger that counts its steps. Contracts see it as a walk.
///
/// It takes 9 bytes a column and 8 bytes a pair that there can be.
#[derive(Drop)]
pub struct RestingWalk<'a> {
    pub(crate) pivots: IndexedPairs<'a>,
    pub(crate) marks: MarkedColumns,
}

impl<'a> Model for RestingWalk<'a> {
    ghost use Rattle.std.specs.Prelude.{◌≡◌, [], None};
    ghost use Rattle.pivot_walks.specs.MarkedColumns.{HasWidthOf};
    ghost use Rattle.pivot_walks.specs.Walked.{Walked};

    ghost Value = { Walked };

    ghost view = { λ w. record { rows = w.pivots.rows; pairs = w.pivots.pairs; current = None } };

    ghost invariant = { λ w. HasWidthOf w.pivots w.marks × (w.marks.list ≡ []) };
}

impl<'a> RestingWalk<'a> {
    /// A walk over this matrix, with no pair. It takes all memory that a walk wants.
    pub fn new(alloc: Global, rows: &'a Rows) -> Result<Self, AllocError>
        ensures { IfOk result (λ w. w ≡ record { rows = rows.now; pairs = []; current = None }) }
    {
        Ok(RestingWalk {
            pivots: IndexedPairs::new(alloc, rows)?,
            marks: MarkedColumns::new(alloc, rows.width())?,
        })
    }

    /// Appends a pair, in a row and a column of its own, in constant time.
    pub fn push(&mut self, pair: Pair)
        requires inside { Nonzero self.old.rows.matrix pair.row pair.col }
        requires fresh_row { ¬ HasRow self.old.pairs pair.row }
        requires fresh_col { ¬ HasCol self.old.pairs pair.col }
        ensures rows { self.new.rows ≡ self.old.rows }
        ensures pairs { self.new.pairs ≡ self.old.pairs ++ pair ∷ [] }
        ensures closed { self.new.current ≡ None }
    {
        self.pivots.push(pair);
    }
}
