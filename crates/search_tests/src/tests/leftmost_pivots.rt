// The leftmost pairs of small matrices modulo 7, chosen by hand.
use fl_pivots::leftmost;
use pivot_table::Pair;
use residue_words::Modulus;
use sparse_rows::Rows;
use std::alloc::Global;

// Seven rows: three that begin at column 2, two at column 0, one without an entry, and one that has the last.
const SEVEN: &[(u32, u32, u64)] = &[
    (0, 2, 1),
    (0, 3, 1),
    (0, 4, 1),
    (1, 2, 3),
    (1, 5, 1),
    (2, 2, 1),
    (2, 4, 6),
    (4, 0, 1),
    (4, 1, 1),
    (5, 0, 2),
    (6, 5, 1),
];

// Their leftmost pairs.
const SEVEN_CHOSEN: &[Pair] = &[
    Pair { row: 5, col: 0 },
    Pair { row: 1, col: 2 },
    Pair { row: 6, col: 5 },
];

// The height and width of a matrix, its entries, and the pairs that are chosen.
const CHOSEN: &[(u32, u32, &[(u32, u32, u64)], &[Pair])] = &[
    (0, 0, &[], &[]),
    (2, 2, &[], &[]),
    // The rows (1, 0, 0), (1, 1, 1) and (1, 1, 2): the first is the sparsest.
    (
        3,
        3,
        &[
            (0, 0, 1),
            (1, 0, 1),
            (1, 1, 1),
            (1, 2, 1),
            (2, 0, 1),
            (2, 1, 1),
            (2, 2, 2),
        ],
        &[Pair { row: 0, col: 0 }],
    ),
    // The rows (2, 4, 1), (1, 2, 0) and (3, 6, 1): the second is the sparsest.
    (
        3,
        3,
        &[
            (0, 0, 2),
            (0, 1, 4),
            (0, 2, 1),
            (1, 0, 1),
            (1, 1, 2),
            (2, 0, 3),
            (2, 1, 6),
            (2, 2, 1),
        ],
        &[Pair { row: 1, col: 0 }],
    ),
    // Three rows begin at column 1, the last two with two entries: the lowest of equals.
    (
        3,
        4,
        &[
            (0, 1, 1),
            (0, 2, 1),
            (0, 3, 1),
            (1, 1, 1),
            (1, 3, 2),
            (2, 1, 4),
            (2, 2, 1),
        ],
        &[Pair { row: 1, col: 1 }],
    ),
    // The same rows in a narrow matrix, by a table, and in a wide one, by a sort.
    (7, 6, SEVEN, SEVEN_CHOSEN),
    (7, 1000, SEVEN, SEVEN_CHOSEN),
    // The widest matrix: rows that begin ever more to the left, and one without an entry.
    (
        4,
        2_147_483_648,
        &[
            (0, 2_147_483_647, 1),
            (2, 1_000_000, 5),
            (2, 2_000_000, 5),
            (3, 0, 6),
        ],
        &[
            Pair { row: 3, col: 0 },
            Pair {
                row: 2,
                col: 1_000_000,
            },
            Pair {
                row: 0,
                col: 2_147_483_647,
            },
        ],
    ),
];

// Whether these pairs are chosen in the matrix of this height and width with these entries.
fn are_chosen(alloc: Global, m: u32, n: u32, entries: &[(u32, u32, u64)], pairs: &[Pair]) -> bool {
    let Ok(Some(rows)) = Rows::checked_from_triples(alloc, m, n, &Modulus::new(7), entries) else {
        return false;
    };
    let Ok(book) = leftmost(alloc, &rows) else {
        return false;
    };
    book.pairs() == pairs
}

#[test]
fn the_sparsest_and_lowest_rows_are_chosen(rt: HostRuntime) {
    for (m, n, entries, pairs) in CHOSEN {
        assert!(rt; are_chosen(rt.alloc(), *m, *n, entries, pairs), "{m} x {n}");
    }
}
