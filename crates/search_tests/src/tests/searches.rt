// The walk on the example of histories, and the searches of small matrices beside each other.
ghost use Rattle.std.specs.Prelude.{◌≡◌, ◌<◌, ◌≤◌, ◌+◌, [], ◌∷◌, None, Some, IfOk};
ghost use Rattle.pivot_table.specs.Board.{IsSeatOf};
ghost use Rattle.pivot_table.specs.Core.{opened};
ghost use Rattle.pivot_table.specs.Example.{pivot_example};
ghost use Rattle.pivot_table.specs.History.{pair};
ghost use Rattle.optimistic_search.specs.Taking.{IsIdle};

use crate::tests::example::{first_pair, rows};
use crate::tests::histories::are_overtaken;
use fl_pivots::leftmost;
use optimistic_search::{
    Open, Steps, Taken, Walk, search, search_by_walk, search_within, take_row,
};
use pivot_table::{Board, Book, Seat};
use residue_words::Modulus;
use residue_words::plain::Pair;
use sparse_rows::Rows;
use std::alloc::{AllocError, Global};
use std::marker::Brand;
use std::sync::ledger::{Blank, Ledger};
use std::thread::Threads;

// The pair (0, 0) takes no step. Answers how many it took.
fn extend_first<L: Ledger>(walk: &mut Walk<'_, L>, steps: &mut Steps<L>) -> u64
    requires matrix { walk.old.rows.matrix ≡ pivot_example }
    requires pairs { walk.old.pairs ≡ [] }
    requires closed { walk.old.current ≡ None }
    ensures rows { walk.new.rows ≡ walk.old.rows }
    ensures pairs { walk.new.pairs ≡ pair 0 0 ∷ [] }
    ensures closed { walk.new.current ≡ None }
    ensures steps { steps.new ≡ steps.old }
{
    let before = steps.count();
    walk.extend(Pair { row: 0, col: 0 }, steps);
    steps.count().wrapping_sub(before)
}

// The walk from row 1 takes at most 4 steps. Answers how many it took.
fn begin_second<L: Ledger>(walk: &mut Walk<'_, L>, steps: &mut Steps<L>) -> u64
    requires matrix { walk.old.rows.matrix ≡ pivot_example }
    requires pairs { walk.old.pairs ≡ pair 0 0 ∷ [] }
    requires closed { walk.old.current ≡ None }
    ensures rows { walk.new.rows ≡ walk.old.rows }
    ensures pairs { walk.new.pairs ≡ walk.old.pairs }
    ensures open { walk.new.current ≡ Some 1 }
    ensures steps { steps.new ≤ steps.old + 4 }
{
    let before = steps.count();
    walk.begin(1, steps);
    steps.count().wrapping_sub(before)
}

// The pair (2, 1) takes at most 3 steps more. Answers how many it took.
fn extend_late<L: Ledger>(walk: &mut Walk<'_, L>, steps: &mut Steps<L>) -> u64
    requires matrix { walk.old.rows.matrix ≡ pivot_example }
    requires pairs { walk.old.pairs ≡ pair 0 0 ∷ [] }
    requires open { walk.old.current ≡ Some 1 }
    ensures open { walk.new.current ≡ Some 1 }
    ensures steps { steps.new ≤ steps.old + 3 }
{
    let before = steps.count();
    walk.extend(Pair { row: 2, col: 1 }, steps);
    steps.count().wrapping_sub(before)
}

// Whether column 1 is alive least for row 1 with the pair (0, 0), and none once row 2 has it, in few steps.
fn are_walked<L: Ledger>(alloc: Global, rows: &Rows, steps: &mut Steps<L>) -> bool
    requires { rows.now.matrix ≡ pivot_example }
{
    let Ok(mut walk) = Walk::<L>::new(alloc, rows) else {
        return false;
    };
    let extended = extend_first(&mut walk, steps);
    let begun = begin_second(&mut walk, steps);
    let first = walk.least_alive();
    let late = extend_late(&mut walk, steps);
    [first, walk.least_alive()] == [Some(1), None] && extended == 0 && begun <= 4 && late <= 3
}

// What becomes of the three rows, one after the other.
fn take_three<L: Ledger>(
    board: &Board<'_>,
    seat: &mut Seat,
    walk: &mut Walk<'_, L>,
    steps: &mut Steps<L>,
) -> [Taken; 3]
    requires idle { IsIdle board.now seat.old walk.old }
    requires high { board.now.rows.matrix.height ≡ 3 }
{
    let first = take_row(board, seat, walk, 0, 7, &Open, steps);
    let second = take_row(board, seat, walk, 1, 7, &Open, steps);
    let third = take_row(board, seat, walk, 2, 7, &Open, steps);
    [first, second, third]
}

// Whether a walk over the first pair, on a board that begins with it, publishes row 1 alone.
fn are_taken<L: Ledger>(alloc: Global, book: &Book<'_>, steps: &mut Steps<L>) -> bool
    requires matrix { book.now.rows.matrix ≡ pivot_example }
    requires pairs { book.now.pairs ≡ pair 0 0 ∷ [] }
{
    let Ok(mut walk) = Walk::<L>::new(alloc, book.rows()) else {
        return false;
    };
    extend_first(&mut walk, steps);
    let Ok((board, mut seat)) = Board::new(alloc, book) else {
        return false;
    };
    take_three(&board, &mut seat, &mut walk, steps)
        == [Taken::Busy, Taken::Published(1), Taken::Dropped]
}

// Whether a walk over the rows of the first pair is carried on, they are taken in turn, and of two seats one is overtaken.
fn on_book<L: Ledger>(alloc: Global, book: &Book<'_>, blank: Blank) -> [bool; 3]
    requires matrix { book.now.rows.matrix ≡ pivot_example }
    requires pairs { book.now.pairs ≡ pair 0 0 ∷ [] }
    requires name { blank.name ≡ L.name }
    requires parts { blank.parts ≡ L.parts }
    requires some { 0 < blank.parts }
{
    let mut steps = Steps::<L>::new(blank);
    [
        are_walked(alloc, book.rows(), &mut steps),
        are_taken(alloc, book, &mut steps),
        are_overtaken(alloc, book),
    ]
}

// The same of the example.
fn on_example(alloc: Global) -> [bool; 3] {
    let Ok(rows) = rows(alloc) else {
        return [false; 3];
    };
    let Ok(book) = first_pair(alloc, &rows) else {
        return [false; 3];
    };
    on_book::<Brand>(alloc, &book, Blank::new(1))
}

#[test]
fn the_example_is_played(rt: HostRuntime) {
    assert_eq!(rt; on_example(rt.alloc()), [true; 3]);
}

// Whether rooks on these squares of a board of 4 x 4 leave each other alone.
fn are_apart(a: u32, b: u32) -> bool {
    a / 4 != b / 4 && a % 4 != b % 4
}

// Whether these are three rooks, in ascending order.
fn is_face(a: u32, b: u32, c: u32) -> bool {
    a < b && b < c && are_apart(a, b) && are_apart(a, c) && are_apart(b, c)
}

// The faces of three rooks with their pairs: the boundary map of the chessboard complex of 4 x 4, where each pair of squares
// has a column.
fn chessboard(alloc: Global) -> Result<Vec<(u32, u32, u64)>, AllocError> {
    let mut triples = Vec::new(alloc);
    let mut face = 0u32;
    for squares in 0..4096u32 {
        let (a, b, c) = (squares / 256, squares / 16 % 16, squares % 16);
        if is_face(a, b, c) {
            triples.push((face, a * 16 + b, 1))?;
            triples.push((face, a * 16 + c, 1))?;
            triples.push((face, b * 16 + c, 1))?;
            face = face.wrapping_add(1);
        }
    }
    Ok(triples)
}

// So many ones in no order, from a linear congruential generator, with their columns so far apart, as far as they lie inside; or
// else the boundary map.
fn ones(
    alloc: Global,
    m: u32,
    n: u32,
    count: u32,
    apart: u32,
) -> Result<Vec<(u32, u32, u64)>, AllocError> {
    if apart == 0 {
        return chessboard(alloc);
    }
    let mut triples = Vec::new(alloc);
    let mut state = m;
    for _ in 0..count {
        let row = state.wrapping_mul(1_664_525).wrapping_add(1_013_904_223);
        state = row.wrapping_mul(1_664_525).wrapping_add(1_013_904_223);
        let (i, j) = (row >> 27, (state >> 27).wrapping_mul(apart));
        if i < m && j < n {
            triples.push((i, j, 1))?;
        }
    }
    Ok(triples)
}

// Whether the search by walks finds these pairs.
fn walks_find<L: Ledger>(alloc: Global, rows: &Rows, blank: Blank, pairs: &[Pair]) -> bool
    requires name { blank.name ≡ L.name }
    requires parts { blank.parts ≡ L.parts }
    requires some { 0 < blank.parts }
{
    let mut steps = Steps::<L>::new(blank);
    let Ok(begun) = leftmost(alloc, rows) else {
        return false;
    };
    let Ok(book) = search_by_walk(alloc, begun, &mut steps) else {
        return false;
    };
    book.pairs() == pairs
}

// Whether one worker finds nothing after several.
fn leaves_nothing<R: Threads + Sync>(rt: &R, alloc: Global, rows: &Rows, workers: u32) -> bool
    requires some { 1 ≤ workers }
{
    let Ok(begun) = Book::empty(alloc, rows) else {
        return false;
    };
    let Ok(several) = search(rt, alloc, begun, workers, &Open) else {
        return false;
    };
    let many = several.pairs().len();
    let Ok(again) = search(rt, alloc, several, 1, &Open) else {
        return false;
    };
    again.pairs().len() == many
}

// Whether one worker has nothing after so many steps, or else these pairs.
fn is_all_or_none(alloc: Global, rows: &Rows, most: u64, pairs: &[Pair]) -> bool {
    let Ok(begun) = leftmost(alloc, rows) else {
        return false;
    };
    match search_within(alloc, begun, most) {
        Ok(Some(book)) => book.pairs() == pairs,
        Ok(None) => most < u64::MAX,
        Err(_) => false,
    }
}

// Numbers of steps within which one worker searches.
const STEPS: &[u64] = &[0, 1, 10, 100, 1000, u64::MAX];

// Whether one worker finds the same by walks, and if it ends within its steps.
fn alone_agrees<R: Threads + Sync>(rt: &R, alloc: Global, rows: &Rows) -> bool {
    let Ok(begun) = leftmost(alloc, rows) else {
        return false;
    };
    let Ok(alone) = search(rt, alloc, begun, 1, &Open) else {
        return false;
    };
    let pairs = alone.pairs();
    for most in STEPS {
        if !is_all_or_none(alloc, rows, *most, pairs) {
            return false;
        }
    }
    walks_find::<Brand>(alloc, rows, Blank::new(1), pairs)
}

// The same, and whether several workers leave nothing.
fn all_agree<R: Threads + Sync>(rt: &R, alloc: Global, rows: &Rows) -> [bool; 3] {
    [
        alone_agrees(rt, alloc, rows),
        leaves_nothing(rt, alloc, rows, 2),
        leaves_nothing(rt, alloc, rows, 64),
    ]
}

// The same for the matrix of m x n modulo 7 with these ones.
fn agree_on<R: Threads + Sync>(
    rt: &R,
    alloc: Global,
    (m, n): (u32, u32),
    count: u32,
    apart: u32,
) -> [bool; 3] {
    let Ok(triples) = ones(alloc, m, n, count, apart) else {
        return [false; 3];
    };
    match Rows::checked_from_triples(alloc, m, n, &Modulus::new(7), &triples) {
        Ok(Some(rows)) => all_agree(rt, alloc, &rows),
        _ => [false; 3],
    }
}

// Heights, widths, how many ones, and how far apart their columns are, in wide matrices so that most have none.
const MATRICES: &[((u32, u32), u32, u32)] = &[
    ((0, 0), 0, 1),
    ((1, 1), 1, 1),
    ((5, 0), 3, 1),
    ((32, 32), 60, 1),
    ((32, 20), 150, 1),
    ((16, 32), 90, 1),
    ((32, 4096), 3, 97),
    ((32, 4096), 60, 97),
    ((32, 4096), 150, 97),
    ((96, 256), 0, 0),
];

#[test]
fn searches_agree(rt: HostRuntime) {
    for (sizes, count, apart) in MATRICES {
        let found = agree_on(&rt, rt.alloc(), *sizes, *count, *apart);
        assert!(rt; found == [true; 3], "{found:?} at {sizes:?} {count}");
    }
}
