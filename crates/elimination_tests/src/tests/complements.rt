// What the leftmost pivots leave of scattered matrices: by flat rows as by walks, and by chunks as at once.
ghost use Rattle.std.specs.Prelude.{◌≤◌};

use crate::tests::matrices::{Built, built, have_same_entries, scattered};
use crew::Threaded;
use dense_finish::finish;
use fl_pivots::leftmost;
use pivot_table::Book;
use schur_rows::{ChunkSize, RowReducer, complement, rest_basis_by};
use sparse_rows::Rows;
use std::alloc::Global;
use std::thread::Threads;
use triangular_solve::Triangle;

// Whether what so many workers leave by this reducer is known.
fn leaves<R: Threads + Sync>(
    rt: &R,
    alloc: Global,
    reducer: &RowReducer,
    workers: u32,
    known: &Rows,
) -> bool
    requires some { 1 ≤ workers }
{
    let Ok(left) = complement(&Threaded::of(rt), alloc, reducer, workers) else {
        return false;
    };
    have_same_entries(alloc, &left, known)
}

// Whether chunks of so many rows give a basis of so many.
fn has_basis<R: Threads + Sync>(
    rt: &R,
    alloc: Global,
    reducer: &RowReducer,
    workers: u32,
    rows: u32,
    rank: usize,
) -> bool
    requires some { 1 ≤ workers }
{
    let size = ChunkSize { rows, places: 1 };
    let Ok(basis) = rest_basis_by(&Threaded::of(rt), alloc, reducer, workers, size) else {
        return false;
    };
    basis.height() as usize == rank
}

// Whether a reducer leaves what is known by one worker and by several, and a basis of the rank by chunks of one row, of some and of all.
fn agrees<R: Threads + Sync>(
    rt: &R,
    alloc: Global,
    reducer: &RowReducer,
    known: &Rows,
    rank: usize,
) -> bool {
    leaves(rt, alloc, reducer, 1, known)
        && leaves(rt, alloc, reducer, 3, known)
        && has_basis(rt, alloc, reducer, 1, 1, rank)
        && has_basis(rt, alloc, reducer, 3, 7, rank)
        && has_basis(rt, alloc, reducer, 2, 1000, rank)
}

// Whether flat rows leave what is known, and give bases of the rank.
fn flat_agrees<R: Threads + Sync>(
    rt: &R,
    alloc: Global,
    triangle: &Triangle,
    known: &Rows,
    rank: usize,
) -> bool {
    let Ok(flat) = RowReducer::by_flat_rows(alloc, triangle) else {
        return false;
    };
    agrees(rt, alloc, &flat, known, rank)
}

// The rank of a matrix.
fn rank_of<R: Threads + Sync>(rt: &R, alloc: Global, rows: &Rows) -> Option<usize> {
    let Ok(factors) = finish(rt, alloc, rows, 1) else {
        return None;
    };
    Some(factors.pivots.items().len())
}

// The rank of what is known to be left, if walks and flat rows agree on that.
fn agreed_rank<R: Threads + Sync>(
    rt: &R,
    alloc: Global,
    triangle: &Triangle,
    walks: &RowReducer,
    known: &Rows,
) -> Option<usize> {
    let rank = rank_of(rt, alloc, known)?;
    if agrees(rt, alloc, walks, known, rank) && flat_agrees(rt, alloc, triangle, known, rank) {
        Some(rank)
    } else {
        None
    }
}

// The rank of what one worker leaves by walks, if all ways agree on that.
fn rank_left_by<R: Threads + Sync>(
    rt: &R,
    alloc: Global,
    triangle: &Triangle,
    walks: &RowReducer,
) -> Option<usize> {
    let Ok(known) = complement(&Threaded::of(rt), alloc, walks, 1) else {
        return None;
    };
    agreed_rank(rt, alloc, triangle, walks, &known)
}

// The same of what these pairs leave.
fn rank_beside<R: Threads + Sync>(rt: &R, alloc: Global, book: &Book) -> Option<usize> {
    let Ok(triangle) = Triangle::of(alloc, book) else {
        return None;
    };
    rank_left_by(rt, alloc, &triangle, &RowReducer::by_walks(&triangle))
}

// The same of what the leftmost pivots leave.
fn rank_left<R: Threads + Sync>(rt: &R, alloc: Global, rows: &Rows) -> Option<usize> {
    let Ok(book) = leftmost(alloc, rows) else {
        return None;
    };
    rank_beside(rt, alloc, &book)
}

// The same of a matrix that was built.
fn rank_left_of<R: Threads + Sync>(rt: &R, alloc: Global, built: Built) -> Option<usize> {
    match built {
        Ok(Some(rows)) => rank_left(rt, alloc, &rows),
        _ => None,
    }
}

// Heights, widths and values a row: a complement of few rows, tall ones, one of full rank, a dense matrix, and sizes where a row costs
// nothing.
const SCATTERED: &[(u32, u32, u32)] = &[
    (5, 1, 1),
    (3, 3, 3),
    (60, 20, 3),
    (200, 12, 4),
    (40, 60, 3),
    (30, 30, 9),
    (20, 2147483648, 2),
];

// Five rows modulo 7, and the rank of what the leftmost pivots leave of them: one of each column, two that depend on a third one, a
// column that the pivot's row alone fills, rows of which nothing is left, and no column but the pivots'.
const LEFT: &[(&[(u32, u32, u64)], usize)] = &[
    (
        &[
            (0, 0, 1),
            (1, 0, 1),
            (1, 1, 1),
            (2, 0, 1),
            (2, 2, 1),
            (3, 0, 1),
            (3, 3, 1),
            (4, 0, 1),
            (4, 1, 1),
            (4, 2, 1),
            (4, 3, 1),
        ],
        3,
    ),
    (
        &[
            (0, 0, 1),
            (0, 1, 1),
            (0, 2, 1),
            (0, 3, 1),
            (1, 0, 1),
            (1, 1, 2),
            (1, 2, 3),
            (1, 3, 4),
            (2, 0, 1),
            (2, 1, 2),
            (2, 2, 3),
            (2, 3, 4),
            (3, 0, 1),
            (3, 1, 3),
            (3, 2, 5),
            (4, 0, 1),
            (4, 1, 1),
            (4, 2, 2),
            (4, 3, 1),
        ],
        2,
    ),
    (
        &[
            (0, 0, 1),
            (0, 3, 5),
            (1, 1, 1),
            (2, 1, 1),
            (2, 2, 1),
            (3, 1, 1),
            (3, 2, 2),
            (4, 1, 1),
            (4, 2, 3),
        ],
        1,
    ),
    (
        &[
            (0, 0, 1),
            (0, 1, 1),
            (0, 3, 2),
            (1, 0, 2),
            (1, 1, 2),
            (1, 3, 4),
            (2, 0, 3),
            (2, 1, 3),
            (2, 3, 6),
            (3, 0, 4),
            (3, 1, 4),
            (3, 3, 1),
            (4, 0, 5),
            (4, 1, 5),
            (4, 3, 3),
        ],
        0,
    ),
    (&[(0, 0, 1), (1, 1, 2), (2, 2, 3), (3, 3, 4), (4, 3, 5)], 0),
];

#[test]
fn bases_end_in_time(rt: HostRuntime) {
    let alloc = rt.alloc();
    for (entries, rank) in LEFT {
        let found = rank_left_of(&rt, alloc, built(alloc, 5, 4, entries));
        assert!(rt; found == Some(*rank), "rank {rank}");
    }
}

#[test]
fn ways_and_chunks_agree(rt: HostRuntime) {
    let alloc = rt.alloc();
    for (m, n, per) in SCATTERED {
        let found = rank_left_of(&rt, alloc, scattered(alloc, *m, *n, *per));
        assert!(rt; found.is_some(), "at {m} {n} {per}");
    }
}
