// Matrices modulo 7: of entries, and such as are scattered over their columns.
ghost use Rattle.std.specs.Prelude.{◌≡◌, IfOk, IfSome};

use residue_words::Modulus;
use sparse_rows::{Rows, Sparse};
use std::alloc::{AllocError, Global};

// A matrix, if its places are inside.
pub(crate) type Built = Result<Option<Rows>, AllocError>;

// The matrix of these places and values.
pub(crate) fn built(alloc: Global, m: u32, n: u32, triples: &[(u32, u32, u64)]) -> Built
    ensures height { IfOk result (λ rows. IfSome rows (λ rows. rows.matrix.height ≡ m)) }
    ensures width { IfOk result (λ rows. IfSome rows (λ rows. rows.matrix.width ≡ n)) }
{
    Rows::checked_from_triples(alloc, m, n, &Modulus::new(7), triples)
}

// The matrix with so many values for each row, at places that a generator scatters over the columns.
pub(crate) fn scattered(alloc: Global, m: u32, n: u32, per: u32) -> Built {
    let mut triples = Vec::new(alloc);
    let mut state: u32 = 1;
    for i in 0..m {
        for _ in 0..per {
            state = state.wrapping_mul(1103515245).wrapping_add(12345);
            triples.push((i, (state >> 8) % n.max(1), u64::from((state >> 4) % 7)))?;
        }
    }
    built(alloc, m, n, &triples)
}

// Whether a row has just these entries.
pub(crate) fn has_entries(row: &Sparse, cols: &[u32], vals: &[u64]) -> bool {
    row.cols() == cols && row.vals() == vals
}

// Whether these are the entries, row by row.
pub(crate) fn lists(alloc: Global, rows: &Rows, entries: &[(u32, u32, u64)]) -> bool {
    let Ok(triples) = rows.triples(alloc) else {
        return false;
    };
    triples.as_slice() == entries
}

// Whether two matrices have the same entries.
pub(crate) fn have_same_entries(alloc: Global, a: &Rows, b: &Rows) -> bool {
    let Ok(triples) = b.triples(alloc) else {
        return false;
    };
    lists(alloc, a, &triples)
}
