// What decides between a round, a stored rest, a dense block and a basis. No contract tells which way is taken: any is right, and they
// differ in time and memory.
use crate::occupancy::Occupancy;
use crate::round::Round;
use sparse_rows::Rows;

// A block is made if one place of so many holds an entry: it takes at most 40 bytes an entry where the modulus is below 2^31.
const BLOCK_SHARE: u64 = 10;

// A matrix of fewer places is not worth a choice.
const SMALLEST_FULL: u64 = 1 << 16;

// A round is no gain if one place of so many holds an entry. Anything from 2 to 20 is alike.
const ROUND_SHARE: u64 = 5;

// With so many rows a column, half of the rows at least are combinations of others: then it pays to look for multiples.
const ROWS_A_COLUMN: u64 = 2;

// If a search for pivots was worth its time, they may leave so many times the entries of the matrix before another order of its columns is
// worth trying: boundary maps of complexes in their own order leave up to 4 times as many, or 7 and more if this order helps.
const MOST_LEFT: u64 = 4;

// Pivots of a form may leave so many times the entries of the matrix before the order of weight is worth trying: boundary maps leave up to
// 5 times as many, a banded matrix 27, random ones 40 and more.
const MOST_LEFT_OF_FORM: u64 = 8;

// Of what pivots leave not more entries than these are stored, 3 GB, if a dense basis takes less.
const MOST_STORED: u64 = 1 << 28;

// Bytes of an entry that is stored.
const ENTRY_BYTES: u64 = 12;

// Bytes of a place of a dense block.
const BLOCK_BYTES: u64 = 4;

// Bytes of a place of a dense basis: as it is kept, half full, and as it is eliminated with a chunk.
const BASIS_BYTES: u64 = 12;

// How many rows are reduced to see how full what pivots leave is.
pub(crate) const SAMPLES: u32 = 32;

// Whether a dense elimination is cheaper, in memory that is at most some constant times that of the entries.
pub(crate) fn is_block(matrix: &Occupancy) -> bool {
    matrix.places() / BLOCK_SHARE <= matrix.entries
}

// Whether no round is worth beginning: a matrix of some size that is a block from the start.
pub(crate) fn is_full(matrix: &Occupancy) -> bool {
    SMALLEST_FULL <= matrix.places() && is_block(matrix)
}

// Whether a round would cost more than it saves the finish.
pub(crate) fn is_dense(matrix: &Occupancy) -> bool {
    matrix.places() / ROUND_SHARE <= matrix.entries
}

// Whether rows that are multiples of others are worth looking for.
pub(crate) fn may_repeat(matrix: &Occupancy) -> bool {
    matrix.columns.saturating_mul(ROWS_A_COLUMN) <= matrix.rows
}

// Whether pivots leave so much that another order of the columns is worth trying. If no search was worth its time, this is so if they leave
// more entries than the matrix has in many more rows than columns, as of boundary maps whose cells stand in no order: random matrices leave
// about as many rows as columns.
pub(crate) fn leaves_much(round: &Round, is_searched: bool) -> bool {
    let Some(left) = round.left() else {
        return false;
    };
    if is_searched {
        round.entries.saturating_mul(MOST_LEFT) < left
    } else {
        round.entries < left && round.columns.saturating_mul(ROWS_A_COLUMN) <= round.rows
    }
}

// Whether pivots of a form leave so much that the order of weight is worth trying.
pub(crate) fn is_worth_reordering(round: &Round) -> bool {
    match round.left() {
        Some(left) => round.entries.saturating_mul(MOST_LEFT_OF_FORM) < left,
        None => false,
    }
}

// Whether samples of what pivots leave of these rows are worth their time. A chunk of a basis stores all of its rows, so those without
// an entry must not be many.
pub(crate) fn is_worth_sampling(rows: &Rows) -> bool {
    u64::from(rows.height().max(rows.width()) / 4) <= rows.entries()
}

// Whether what pivots leave is better taken into a dense basis of its row space than stored: samples say that a round would be no
// gain, so that all of it would become a block, or that there is too much of it, and the basis takes less memory.
pub(crate) fn is_basis_cheaper(round: &Round) -> bool {
    let Some(mean) = round.mean else {
        return false;
    };
    let stored = mean.saturating_mul(round.rows);
    let is_dense = round.columns / ROUND_SHARE <= mean;
    let block_rows = if is_dense { round.rows } else { 0 };
    let block = block_rows
        .saturating_mul(round.columns)
        .saturating_mul(BLOCK_BYTES);
    let rest = stored.saturating_mul(ENTRY_BYTES).saturating_add(block);
    let basis = round
        .columns
        .saturating_mul(round.columns)
        .saturating_mul(BASIS_BYTES);
    basis <= rest && (is_dense || MOST_STORED < stored)
}
