// What is made of small matrices, and of huge ones with few entries.
ghost use Rattle.sparse_rows.specs.Rows.{LARGEST_SIZE};
ghost use Rattle.std.specs.Prelude.{◌≡◌};

use super::entries::{Entries, built, is_matrix, lists};
use residue_words::Modulus;
use sparse_rows::{LARGEST_SIZE, Rows};
use std::alloc::Global;

// What is pushed into a matrix, and what its calls answer.
#[derive(Drop)]
struct Case {
    height: u32,
    width: u32,
    pushed: Entries,
    entries: Entries,
    // The entries of the transpose.
    turned: Entries,
    // The rows and the columns that have an entry, and the first such row from 6 on.
    filled: &'static [u32],
    occupied: &'static [u32],
    behind: Option<u32>,
    // The entries where the other columns are left out.
    narrowed: Entries,
}

const SMALL: Entries = &[
    (2, 1, 5),
    (0, 1, 4),
    (0, 0, 2),
    (2, 1, 1),
    (0, 2, 1),
    (1, 0, 1),
    (1, 1, 2),
    (2, 0, 3),
    (2, 2, 1),
];

const SMALL_ENTRIES: Entries = &[
    (0, 0, 2),
    (0, 1, 4),
    (0, 2, 1),
    (1, 0, 1),
    (1, 1, 2),
    (2, 0, 3),
    (2, 1, 6),
    (2, 2, 1),
];

// Few entries in a matrix of the largest sizes.
const FAR: Entries = &[
    (5, 2_147_483_647, 3),
    (2_147_483_647, 0, 1),
    (5, 7, 2),
    (1_000_000_000, 7, 6),
    (9, 9, 4),
    (9, 9, 3),
];

const CASES: &[Case] = &[
    Case {
        height: 3,
        width: 3,
        pushed: SMALL,
        entries: SMALL_ENTRIES,
        turned: &[
            (0, 0, 2),
            (0, 1, 1),
            (0, 2, 3),
            (1, 0, 4),
            (1, 1, 2),
            (1, 2, 6),
            (2, 0, 1),
            (2, 2, 1),
        ],
        filled: &[0, 1, 2],
        occupied: &[0, 1, 2],
        behind: None,
        narrowed: SMALL_ENTRIES,
    },
    Case {
        height: LARGEST_SIZE,
        width: LARGEST_SIZE,
        pushed: FAR,
        entries: &[
            (5, 7, 2),
            (5, 2_147_483_647, 3),
            (1_000_000_000, 7, 6),
            (2_147_483_647, 0, 1),
        ],
        turned: &[
            (0, 2_147_483_647, 1),
            (7, 5, 2),
            (7, 1_000_000_000, 6),
            (2_147_483_647, 5, 3),
        ],
        filled: &[5, 1_000_000_000, 2_147_483_647],
        occupied: &[0, 7, 2_147_483_647],
        behind: Some(1_000_000_000),
        narrowed: &[
            (5, 1, 2),
            (5, 2, 3),
            (1_000_000_000, 1, 6),
            (2_147_483_647, 0, 1),
        ],
    },
    // A sum that is 0 is no entry.
    Case {
        height: 1,
        width: 1,
        pushed: &[(0, 0, 3), (0, 0, 4)],
        entries: &[],
        turned: &[],
        filled: &[],
        occupied: &[],
        behind: None,
        narrowed: &[],
    },
    // All columns have an entry after two rows, or the last one in the last row alone, or never.
    Case {
        height: 4,
        width: 3,
        pushed: &[(0, 0, 1), (0, 2, 1), (1, 1, 1), (2, 0, 1), (3, 2, 1)],
        entries: &[(0, 0, 1), (0, 2, 1), (1, 1, 1), (2, 0, 1), (3, 2, 1)],
        turned: &[(0, 0, 1), (0, 2, 1), (1, 1, 1), (2, 0, 1), (2, 3, 1)],
        filled: &[0, 1, 2, 3],
        occupied: &[0, 1, 2],
        behind: None,
        narrowed: &[(0, 0, 1), (0, 2, 1), (1, 1, 1), (2, 0, 1), (3, 2, 1)],
    },
    Case {
        height: 4,
        width: 3,
        pushed: &[(0, 0, 1), (0, 1, 1), (1, 1, 1), (2, 0, 1), (3, 2, 1)],
        entries: &[(0, 0, 1), (0, 1, 1), (1, 1, 1), (2, 0, 1), (3, 2, 1)],
        turned: &[(0, 0, 1), (0, 2, 1), (1, 0, 1), (1, 1, 1), (2, 3, 1)],
        filled: &[0, 1, 2, 3],
        occupied: &[0, 1, 2],
        behind: None,
        narrowed: &[(0, 0, 1), (0, 1, 1), (1, 1, 1), (2, 0, 1), (3, 2, 1)],
    },
    Case {
        height: 4,
        width: 3,
        pushed: &[(0, 0, 1), (0, 1, 1), (1, 1, 1), (2, 0, 1), (3, 1, 1)],
        entries: &[(0, 0, 1), (0, 1, 1), (1, 1, 1), (2, 0, 1), (3, 1, 1)],
        turned: &[(0, 0, 1), (0, 2, 1), (1, 0, 1), (1, 1, 1), (1, 3, 1)],
        filled: &[0, 1, 2, 3],
        occupied: &[0, 1],
        behind: None,
        narrowed: &[(0, 0, 1), (0, 1, 1), (1, 1, 1), (2, 0, 1), (3, 1, 1)],
    },
    // Rows and columns without an entry between others.
    Case {
        height: 3,
        width: 9,
        pushed: &[(0, 8, 1), (2, 3, 2), (2, 8, 5)],
        entries: &[(0, 8, 1), (2, 3, 2), (2, 8, 5)],
        turned: &[(3, 2, 2), (8, 0, 1), (8, 2, 5)],
        filled: &[0, 2],
        occupied: &[3, 8],
        behind: None,
        narrowed: &[(0, 1, 1), (2, 0, 2), (2, 1, 5)],
    },
];

// Whether a matrix without its empty columns has the entries of a case, and its own where they are put back.
fn narrows(alloc: Global, rows: &Rows, case: &Case) -> bool {
    let Ok(columns) = rows.occupied(alloc) else {
        return false;
    };
    let Ok(narrowed) = rows.narrowed(alloc, &columns) else {
        return false;
    };
    let widened = narrowed.widened(alloc, rows.width(), &columns).ok();
    is_matrix(alloc, widened, case.height, case.width, case.entries)
        && lists(narrowed.triples(alloc), case.narrowed)
}

// Whether a copy and the transpose have the entries of a case, and such rows and columns have one.
fn agrees(alloc: Global, rows: &Rows, case: &Case) -> bool {
    [
        is_matrix(
            alloc,
            rows.copy(alloc).ok(),
            case.height,
            case.width,
            case.entries,
        ),
        is_matrix(
            alloc,
            rows.transpose(alloc).ok(),
            case.width,
            case.height,
            case.turned,
        ),
        lists(rows.filled(alloc), case.filled),
        lists(rows.occupied(alloc), case.occupied),
        narrows(alloc, rows, case),
        rows.entries() == case.entries.len() as u64,
        rows.next_filled(6) == case.behind,
    ] == [true, true, true, true, true, true, true]
}

// The same for what is pushed.
fn made_agrees(alloc: Global, case: &Case) -> bool {
    match built(alloc, case.height, case.width, case.pushed) {
        Some(rows) => agrees(alloc, &rows, case),
        None => false,
    }
}

#[test]
fn copies_transposes_and_what_has_entries(rt: HostRuntime) {
    for (k, case) in CASES.iter().enumerate() {
        assert!(rt; made_agrees(rt.alloc(), case), "case {k}");
    }
}

const LAST_AND_FIRST: Entries = &[
    (0, 0, 3),
    (0, 1, 6),
    (0, 2, 1),
    (1, 0, 2),
    (1, 1, 4),
    (1, 2, 1),
];

const NONE_AND_FIFTH: Entries = &[(1, 7, 2), (1, 2_147_483_647, 3)];

// Whether these two rows of a matrix have such entries.
fn selects(alloc: Global, made: Option<Rows>, first: u32, second: u32, entries: Entries) -> bool {
    match made {
        Some(rows) => {
            first < rows.height()
                && second < rows.height()
                && is_matrix(
                    alloc,
                    rows.select(alloc, &[first, second]).ok(),
                    2,
                    rows.width(),
                    entries,
                )
        }
        None => false,
    }
}

// Whether two rows of the small matrix have their entries, and two of the huge one.
fn select_rows(alloc: Global) -> bool {
    let small = built(alloc, 3, 3, SMALL);
    let far = built(alloc, LARGEST_SIZE, LARGEST_SIZE, FAR);
    [
        selects(alloc, small, 2, 0, LAST_AND_FIRST),
        selects(alloc, far, 6, 5, NONE_AND_FIFTH),
    ] == [true, true]
}

// Whether the small matrix has such products.
fn has_products(alloc: Global) -> bool {
    match built(alloc, 3, 3, SMALL) {
        Some(rows) => {
            [
                lists(rows.times(alloc, &[5, 1, 0]), &[0, 0, 0]),
                lists(rows.times(alloc, &[1, 2, 3]), &[6, 5, 4]),
            ] == [true, true]
        }
        None => false,
    }
}

// Whether the identity has ones alone.
fn has_ones(alloc: Global) -> bool {
    let one = Rows::identity(alloc, 2, &Modulus::new(7)).ok();
    is_matrix(alloc, one, 2, 2, &[(0, 0, 1), (1, 1, 1)])
}

#[test]
fn rows_products_and_the_identity(rt: HostRuntime) {
    let alloc = rt.alloc();
    let found = [select_rows(alloc), has_products(alloc), has_ones(alloc)];
    assert_eq!(rt; found, [true, true, true]);
}

// Whether one matrix of two columns with another beside it has these entries.
fn joins_into(alloc: Global, height: u32, left: Entries, right: Entries, entries: Entries) -> bool {
    let Some(left) = built(alloc, height, 2, left) else {
        return false;
    };
    let Some(right) = built(alloc, height, 2, right) else {
        return false;
    };
    is_matrix(alloc, left.beside(alloc, &right).ok(), height, 4, entries)
}

// Two matrices of two columns, and the second beside the first. One side ends in the row where the other begins.
const BESIDE: &[(Entries, Entries, Entries)] = &[
    (
        &[(0, 0, 1), (1, 1, 2)],
        &[(1, 0, 5), (7, 0, 3), (8, 1, 4)],
        &[(0, 0, 1), (1, 1, 2), (1, 2, 5), (7, 2, 3), (8, 3, 4)],
    ),
    (
        &[(1, 0, 5), (7, 0, 3), (8, 1, 4)],
        &[(0, 0, 1), (1, 1, 2)],
        &[(0, 2, 1), (1, 0, 5), (1, 3, 2), (7, 0, 3), (8, 1, 4)],
    ),
];

// Whether they have these entries, in as many rows.
fn are_joined(alloc: Global, height: u32) -> bool {
    let mut joined = true;
    for (left, right, entries) in BESIDE {
        joined = joined && joins_into(alloc, height, left, right, entries);
    }
    joined
}

// Whether a matrix with one row more, beside itself, has each entry twice.
fn doubles(alloc: Global) -> bool {
    let Some(mut rows) = built(alloc, LARGEST_SIZE - 1, 2, &[(5, 0, 1), (8, 1, 2)]) else {
        return false;
    };
    let entries = &[(5, 0, 1), (5, 2, 1), (8, 1, 2), (8, 3, 2)];
    rows.append_zeros(1).is_ok()
        && is_matrix(
            alloc,
            rows.beside(alloc, &rows).ok(),
            LARGEST_SIZE,
            4,
            entries,
        )
}

#[test]
fn matrices_side_by_side(rt: HostRuntime) {
    let alloc = rt.alloc();
    // Each row stored, or those alone that have an entry.
    let joined = [
        are_joined(alloc, 9),
        are_joined(alloc, LARGEST_SIZE),
        doubles(alloc),
    ];
    assert_eq!(rt; joined, [true, true, true]);
}
