// Matrices with their rarest columns first, modulo 7.
ghost use Rattle.sparse_rows.specs.Rows.{LARGEST_SIZE};

use super::entries::{Entries, built, is_matrix};
use sparse_rows::{LARGEST_SIZE, Rows};
use std::alloc::{AllocError, Global};
use weight_order::{RowOrder, by_front, by_weight};

// Sizes and entries by rows.
type Sized = (u32, u32, Entries);

const LAST: u32 = LARGEST_SIZE - 1;

// Three rows, of which the last stands first; the second column has the fewest entries.
const ORDERED: &[(u32, u32, u64)] = &[(0, 1, 4), (1, 1, 3), (2, 0, 2), (2, 1, 1)];

// What is given, and what it is made.
const TABLE: &[(Sized, Sized)] = &[
    // As high as wide, with as many entries in each column; higher; wider.
    (
        (2, 2, &[(0, 0, 1), (1, 1, 2)]),
        (2, 2, &[(0, 1, 2), (1, 0, 1)]),
    ),
    (
        (3, 2, &[(0, 0, 1), (0, 1, 2), (1, 0, 3), (2, 0, 4)]),
        (3, 2, ORDERED),
    ),
    (
        (2, 3, &[(0, 0, 1), (0, 1, 3), (0, 2, 4), (1, 0, 2)]),
        (3, 2, ORDERED),
    ),
    // With rows and columns between them that have no entry, also very many.
    (
        (5, 9, &[(0, 1, 1), (0, 3, 2), (2, 1, 3), (4, 1, 4)]),
        (3, 2, ORDERED),
    ),
    (
        (
            LARGEST_SIZE,
            LARGEST_SIZE,
            &[(0, 7, 1), (0, LAST, 2), (5, 7, 3), (LAST, 7, 4)],
        ),
        (3, 2, ORDERED),
    ),
    (
        (
            LARGEST_SIZE,
            LARGEST_SIZE,
            &[(7, 0, 1), (7, 5, 3), (7, LAST, 4), (LAST, 0, 2)],
        ),
        (3, 2, ORDERED),
    ),
    // Without entries.
    ((0, 0, &[]), (0, 0, &[])),
    ((3, 2, &[]), (0, 0, &[])),
    ((LARGEST_SIZE, LARGEST_SIZE, &[]), (0, 0, &[])),
];

// The boundaries of a tetrahedron's four triangles, by its six edges.
const BOUNDARIES: Sized = (
    4,
    6,
    &[
        (0, 0, 1),
        (0, 1, 6),
        (0, 3, 1),
        (1, 0, 1),
        (1, 2, 6),
        (1, 4, 1),
        (2, 1, 1),
        (2, 2, 6),
        (2, 5, 1),
        (3, 3, 1),
        (3, 4, 6),
        (3, 5, 1),
    ],
);

// The first triangle is free, and each of the others the pivot of an edge that it closes; the edges in the order in which they close, the
// triangles from the last to the first.
const CLOSED: Sized = (
    6,
    4,
    &[
        (0, 2, 1),
        (0, 3, 1),
        (1, 1, 1),
        (1, 3, 6),
        (2, 0, 1),
        (2, 3, 1),
        (3, 1, 6),
        (3, 2, 6),
        (4, 0, 6),
        (4, 2, 1),
        (5, 0, 1),
        (5, 1, 1),
    ],
);

// Whether this is the matrix that is wanted.
fn is_wanted(alloc: Global, made: Result<Rows, AllocError>, wanted: &Sized) -> bool {
    let (height, width, entries) = *wanted;
    is_matrix(alloc, made.ok(), height, width, entries)
}

// Whether the first is made the second by weight.
fn is_made(alloc: Global, given: &Sized, wanted: &Sized) -> bool {
    let (m, n, pushed) = *given;
    match built(alloc, m, n, pushed) {
        Some(rows) => is_wanted(alloc, by_weight(alloc, &rows, RowOrder::LastFirst), wanted),
        None => false,
    }
}

// Whether the first is made the second by a front.
fn is_made_by_front(alloc: Global, given: &Sized, wanted: &Sized) -> bool {
    let (m, n, pushed) = *given;
    match built(alloc, m, n, pushed) {
        Some(rows) => is_wanted(alloc, by_front(alloc, &rows), wanted),
        None => false,
    }
}

#[test]
fn the_rarest_columns_come_first(rt: HostRuntime) {
    for (k, (given, wanted)) in TABLE.iter().enumerate() {
        assert!(rt; is_made(rt.alloc(), given, wanted), "row {k} of the table");
    }
}

#[test]
fn a_front_closes_row_after_row(rt: HostRuntime) {
    assert!(rt; is_made_by_front(rt.alloc(), &BOUNDARIES, &CLOSED));
    assert!(rt; is_made_by_front(rt.alloc(), &(3, 2, &[]), &(0, 0, &[])));
}
