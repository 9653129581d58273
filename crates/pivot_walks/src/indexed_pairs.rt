// Pairs of a matrix with an index by columns.
ghost use Rattle.std.specs.Prelude.{◌≡◌, ◌<◌, ◌++◌, ◌∷◌, [], IfOk, IsTrue, MatchOption, false};
ghost use Rattle.std.specs.List.{Contains};
ghost use Rattle.residue_words.specs.Matrix.{IsMatrix};
ghost use Rattle.pivot_table.specs.History.{pair, Dead, HasRow, HasCol, Nonzero};
ghost use Rattle.pivot_walks.specs.Candidate.{HasCandidate};
ghost use Rattle.pivot_walks.specs.Indexed.{IsRowOf};

use residue_words::plain::Pair;
use sparse_rows::Rows;
use std::alloc::{AllocError, Global};
use std::marker::Model;

// Stands in the index at each column that no pair is in.
const NONE: u32 = u32::MAX;

// Pairs of a matrix, and for each column the row of its pair. Contracts see the matrix and the list of the pairs.
// It takes 4 bytes a column and 8 bytes a pair that there can be.
#[derive(Debug, Drop)]
pub(crate) struct IndexedPairs<'a> {
    rows: &'a Rows,
    pairs: Vec<Pair>,
    index: Vec<u32>,
}

impl<'a> Model for IndexedPairs<'a> {
    ghost use Rattle.std.specs.Prelude.{vec_capacity};
    ghost use Rattle.pivot_walks.specs.Indexed.{Indexed, AreIndexed};

    ghost Value = { Indexed };

    ghost view = { λ i. record { rows = i.rows.now; pairs = i.pairs.items } };

    ghost invariant = { λ i. AreIndexed i.rows.now i.pairs.items i.index.items (vec_capacity i.pairs) };
}

impl<'a> IndexedPairs<'a> {
    // No pair of this matrix.
    pub(crate) fn new(alloc: Global, rows: &'a Rows) -> Result<Self, AllocError>
        ensures rows { IfOk result (λ i. i.rows ≡ rows.now) }
        ensures pairs { IfOk result (λ i. i.pairs ≡ []) }
    {
        let many = rows.height().min(rows.width());
        Ok(IndexedPairs {
            rows,
            pairs: Vec::with_capacity(alloc, many as usize)?,
            index: vec![in alloc; NONE; rows.width() as usize]?,
        })
    }

    // The matrix.
    pub(crate) fn rows(&self) -> &'a Rows
        ensures value { result.now ≡ self.now.rows }
        ensures sound { IsMatrix self.now.rows.modulus self.now.rows.matrix }
    {
        self.rows
    }

    // The row of the pair in column c.
    pub(crate) fn find(&self, c: u32) -> Option<u32>
        requires { c < self.now.rows.matrix.width }
        ensures { MatchOption result (¬ HasCol self.now.pairs c) (IsRowOf self.now c) }
    {
        let row = self.index[c as usize];
        if row == NONE { None } else { Some(row) }
    }

    // Whether no pair is in column c.
    pub(crate) fn is_free(&self, c: u32) -> bool
        requires { c < self.now.rows.matrix.width }
        ensures yes { IsTrue result → ¬ HasCol self.now.pairs c }
        ensures no { result ≡ false → HasCol self.now.pairs c }
    {
        self.find(c).is_none()
    }

    // Whether this pair is among them.
    pub(crate) fn is_at(&self, row: u32, c: u32) -> bool
        requires { c < self.now.rows.matrix.width }
        ensures yes { IsTrue result → Contains self.now.pairs (pair row c) }
        ensures no { result ≡ false → ¬ Contains self.now.pairs (pair row c) }
    {
        match self.find(c) {
            Some(s) => s == row,
            None => false,
        }
    }

    // Whether the row is in no pair and has an entry in a column of none. If not, it is dead.
    pub(crate) fn has_candidate(&self, row: u32) -> bool
        requires { row < self.now.rows.matrix.height }
        ensures yes { IsTrue result → HasCandidate self.now.rows.matrix self.now.pairs row }
        ensures no { result ≡ false → Dead self.now.rows.matrix self.now.pairs row }
    {
        let cols = self.rows.cols(row);
        let mut free = false;
        for k in 0..cols.len() {
            if self.is_at(row, cols[k]) {
                return false;
            }
            free |= self.is_free(cols[k]);
        }
        free
    }

    // Appends a pair in a row and a column that no pair has.
    pub(crate) fn push(&mut self, pair: Pair)
        requires inside { Nonzero self.old.rows.matrix pair.row pair.col }
        requires fresh_row { ¬ HasRow self.old.pairs pair.row }
        requires fresh_col { ¬ HasCol self.old.pairs pair.col }
        ensures rows { self.new.rows ≡ self.old.rows }
        ensures pairs { self.new.pairs ≡ self.old.pairs ++ pair ∷ [] }
    {
        self.index[pair.col as usize] = pair.row;
        self.pairs.push_reserved(pair);
    }
}
