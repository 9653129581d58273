// The triangular order of two pivots, and what they leave.
ghost use Rattle.std.specs.Prelude.{◌≡◌, ◌≤◌, IfOk};
ghost use Rattle.pivot_table.specs.Example.{pivot_example};

use crate::tests::matrices::{has_entries, lists};
use pivot_table::{Book, Pair};
use residue_words::Modulus;
use schur_rows::schur;
use sparse_rows::Rows;
use std::alloc::{AllocError, Global};
use std::thread::Threads;
use triangular_solve::{Triangle, Work};

// The rows (1, 0, 0), (1, 1, 1) and (1, 1, 2) modulo 7.
fn rows(alloc: Global) -> Result<Rows, AllocError>
    ensures { IfOk result (λ rows. rows.matrix ≡ pivot_example) }
{
    let entries = [
        (0, 0, 1),
        (1, 0, 1),
        (1, 1, 1),
        (1, 2, 1),
        (2, 0, 1),
        (2, 1, 1),
        (2, 2, 2),
    ];
    Rows::from_triples(alloc, 3, 3, &Modulus::new(7), &entries)
}

// The pairs (0, 0) and (1, 1).
fn two_pairs<'a>(alloc: Global, rows: &'a Rows) -> Result<Book<'a>, AllocError>
    requires { rows.now.matrix ≡ pivot_example }
{
    let mut book = Book::empty(alloc, rows)?;
    book.reserve(2)?;
    book.push(Pair { row: 0, col: 0 });
    book.push(Pair { row: 1, col: 1 });
    Ok(book)
}

// Whether row 1, which has an entry in the column of row 0, comes first.
fn lists_row_1_first(triangle: &Triangle) -> bool {
    triangle.pairs() == [Pair { row: 1, col: 1 }, Pair { row: 0, col: 0 }].as_slice()
}

// Whether row 2 is the first pivot's row and a 1 in the last column.
fn row_2_is_row_1_and_a_rest(alloc: Global, triangle: &Triangle) -> bool {
    let rows = triangle.rows();
    if rows.height() <= 2 {
        return false;
    }
    let Ok(mut work) = Work::new(alloc, triangle) else {
        return false;
    };
    let mut reduced = triangle.room(alloc);
    let (cols, vals) = (rows.cols(2), rows.vals(2));
    triangle
        .reduce(alloc, cols, vals, &mut work, &mut reduced)
        .is_ok()
        && has_entries(&reduced.rest, &[2], &[1])
        && has_entries(&reduced.coefficients, &[0], &[1])
}

// Whether so many workers leave a 1 in the last column of row 2, with each row's coefficients.
fn leaves_a_one<R: Threads + Sync>(rt: &R, alloc: Global, triangle: &Triangle, workers: u32) -> bool
    requires { 1 ≤ workers }
{
    let Ok(left) = schur(rt, alloc, triangle, workers) else {
        return false;
    };
    lists(alloc, &left.rows, &[(2, 2, 1)])
        && lists(
            alloc,
            &left.coefficients,
            &[(0, 1, 1), (1, 0, 1), (2, 0, 1)],
        )
}

// Whether the order is as known, row 2 is, and what one worker and three leave.
fn is_as_known<R: Threads + Sync>(rt: &R, alloc: Global, triangle: &Triangle) -> [bool; 4] {
    [
        lists_row_1_first(triangle),
        row_2_is_row_1_and_a_rest(alloc, triangle),
        leaves_a_one(rt, alloc, triangle, 1),
        leaves_a_one(rt, alloc, triangle, 3),
    ]
}

// The same of the triangle of these pairs.
fn are_as_known<R: Threads + Sync>(rt: &R, alloc: Global, book: &Book) -> [bool; 4] {
    let Ok(triangle) = Triangle::of(alloc, book) else {
        return [false; 4];
    };
    is_as_known(rt, alloc, &triangle)
}

// The same of the two pairs.
fn two_are_as_known<R: Threads + Sync>(rt: &R, alloc: Global) -> [bool; 4] {
    let Ok(rows) = rows(alloc) else {
        return [false; 4];
    };
    let Ok(book) = two_pairs(alloc, &rows) else {
        return [false; 4];
    };
    are_as_known(rt, alloc, &book)
}

#[test]
fn two_pivots_have_an_order_and_leave_a_one(rt: HostRuntime) {
    assert!(rt; two_are_as_known(&rt, rt.alloc()) == [true; 4]);
}
