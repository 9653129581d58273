// Matrices without rows that are multiples of others, modulo 7.
ghost use Rattle.sparse_rows.specs.Rows.{LARGEST_SIZE};

use super::entries::{Entries, built, is_matrix};
use plain_elimination::{plain_rows, rank_of};
use sparse_rows::{LARGEST_SIZE, Rows};
use std::alloc::{AllocError, Global};
use weight_order::without_multiples;

const LAST: u32 = LARGEST_SIZE - 1;

// Height, width and entries of what is given, height and entries of what is left, and the rank.
const TABLE: &[(u32, u32, Entries, u32, Entries, usize)] = &[
    // A multiple of the first row, and another row.
    (
        3,
        3,
        &[(0, 0, 1), (0, 1, 2), (1, 0, 3), (1, 1, 6), (2, 0, 2)],
        2,
        &[(0, 0, 1), (0, 1, 2), (1, 0, 2)],
        2,
    ),
    // Equal rows, with zeros between them.
    (3, 2, &[(0, 1, 4), (2, 1, 4)], 1, &[(0, 1, 4)], 1),
    // Zeros, and no multiple.
    (3, 2, &[(0, 0, 1), (2, 1, 5)], 3, &[(0, 0, 1), (2, 1, 5)], 2),
    // The same columns with other values; the third row is twice the second.
    (
        3,
        2,
        &[
            (0, 0, 1),
            (0, 1, 2),
            (1, 0, 1),
            (1, 1, 3),
            (2, 0, 2),
            (2, 1, 6),
        ],
        2,
        &[(0, 0, 1), (0, 1, 2), (1, 0, 1), (1, 1, 3)],
        2,
    ),
    // The same values at other columns.
    (
        2,
        3,
        &[(0, 0, 1), (0, 1, 2), (1, 0, 1), (1, 2, 2)],
        2,
        &[(0, 0, 1), (0, 1, 2), (1, 0, 1), (1, 2, 2)],
        2,
    ),
    // Multiples of one row alone: one row, no row, no entry.
    (
        4,
        2,
        &[
            (0, 0, 1),
            (0, 1, 6),
            (1, 0, 6),
            (1, 1, 1),
            (2, 0, 2),
            (2, 1, 5),
            (3, 0, 3),
            (3, 1, 4),
        ],
        1,
        &[(0, 0, 1), (0, 1, 6)],
        1,
    ),
    (1, 3, &[(0, 0, 3), (0, 2, 5)], 1, &[(0, 0, 3), (0, 2, 5)], 1),
    (0, 3, &[], 0, &[], 0),
    (3, 2, &[], 3, &[], 0),
];

// Rows of two entries each at the largest sizes.
const HUGE: Entries = &[
    (0, 7, 1),
    (0, LAST, 2),
    (5, 7, 3),
    (5, LAST, 6),
    (LAST, 7, 3),
    (LAST, LAST, 5),
];

const HUGE_LEFT: Entries = &[(0, 7, 1), (0, LAST, 2), (1, 7, 3), (1, LAST, 5)];

// Whether these rows are left of a matrix.
fn leaves(
    alloc: Global,
    made: Option<Rows>,
    height: u32,
    width: u32,
    entries: &[(u32, u32, u64)],
) -> bool {
    match made {
        Some(rows) => is_matrix(
            alloc,
            without_multiples(alloc, rows).ok(),
            height,
            width,
            entries,
        ),
        None => false,
    }
}

// The rank of a matrix by plain elimination.
fn plain_rank(alloc: Global, rows: &Rows) -> Result<usize, AllocError> {
    rank_of(
        alloc,
        &rows.modulus(),
        rows.width() as usize,
        plain_rows(alloc, rows)?,
    )
}

// Whether a matrix has this rank.
fn has_rank(alloc: Global, rows: &Rows, rank: usize) -> bool {
    plain_rank(alloc, rows) == Ok(rank)
}

// Whether the rank is this, before and after multiples of rows are left out.
fn keeps_rank(alloc: Global, made: Option<Rows>, rank: usize) -> bool {
    match made {
        Some(rows) => {
            has_rank(alloc, &rows, rank)
                && match without_multiples(alloc, rows) {
                    Ok(left) => has_rank(alloc, &left, rank),
                    Err(_) => false,
                }
        }
        None => false,
    }
}

// Whether what is given leaves what is left, of the same rank.
fn agrees(alloc: Global, row: &(u32, u32, Entries, u32, Entries, usize)) -> bool {
    let (m, n, entries, height, left, rank) = *row;
    [
        leaves(alloc, built(alloc, m, n, entries), height, n, left),
        keeps_rank(alloc, built(alloc, m, n, entries), rank),
    ] == [true, true]
}

#[test]
fn multiples_go_and_the_rank_stays(rt: HostRuntime) {
    for (k, row) in TABLE.iter().enumerate() {
        assert!(rt; agrees(rt.alloc(), row), "row {k} of the table");
    }
}

// Whether few are left of rows at the largest sizes.
fn huge_ones_go(alloc: Global) -> bool {
    let rows = built(alloc, LARGEST_SIZE, LARGEST_SIZE, HUGE);
    leaves(alloc, rows, 2, LARGEST_SIZE, HUGE_LEFT)
}

// So many rows, each of which is a multiple of the one that stands twenty rows before it.
fn repeated(alloc: Global, count: u32) -> Result<Vec<(u32, u32, u64)>, AllocError> {
    let mut entries = Vec::new(alloc);
    for i in 0..count {
        let by = u64::from(i / 20 % 6).wrapping_add(1);
        let first = i % 20;
        entries.push((i, first, by))?;
        entries.push((i, (first / 2).wrapping_add(20), by.wrapping_mul(3) % 7))?;
    }
    Ok(entries)
}

// Whether the first twenty are left of them.
fn many_go(alloc: Global) -> bool {
    match (repeated(alloc, 200), repeated(alloc, 20)) {
        (Ok(given), Ok(left)) => leaves(alloc, built(alloc, 200, 30, &given), 20, 30, &left),
        _ => false,
    }
}

#[test]
fn huge_and_many_multiples_go(rt: HostRuntime) {
    let alloc = rt.alloc();
    assert_eq!(rt; [huge_ones_go(alloc), many_go(alloc)], [true, true]);
}
