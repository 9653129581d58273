// Ranks that are known, by plain elimination, by the echelon form and by the dense elimination.
ghost use Rattle.std.specs.Prelude.{◌<◌, ◌≤◌};
ghost use Rattle.residue_words.specs.declared.modulus.TheConstants.{MODULUS_BOUND};

use crate::tests::runs::{X, Y};
use dense_finish::finish;
use echelon_form::Echelon;
use plain_elimination::{plain_rows, rank_of};
use residue_words::{MODULUS_BOUND, Modulus};
use sms_text::{LARGEST_INPUT, Reader, SteadySource, read_rows};
use sparse_rows::Rows;
use std::alloc::{AllocError, Global};
use std::test::Fail;
use std::thread::Threads;

// The matrix that a text stands for.
fn rows_of(alloc: Global, modulus: &Modulus, text: &[u8]) -> Result<Rows, Fail> {
    let mut source = SteadySource::new(Vec::from_slice(alloc, text)?, 64);
    let mut reader = Reader::new(alloc, LARGEST_INPUT)?;
    match read_rows(&mut reader, alloc, &mut source, modulus) {
        Ok(rows) => Ok(rows),
        Err(_) => Err(Fail::new("not read")),
    }
}

// The rank of a matrix by plain elimination.
fn plain_rank(alloc: Global, rows: &Rows) -> Result<usize, AllocError> {
    let plain = plain_rows(alloc, rows)?;
    rank_of(alloc, &rows.modulus(), rows.width() as usize, plain)
}

// The rank of a matrix by its echelon form.
fn form_rank<R: Threads + Sync>(rt: &R, alloc: Global, rows: &Rows) -> Result<usize, AllocError> {
    Ok(Echelon::of(rt, alloc, rows, 1)?.rank() as usize)
}

// The number of pivots of a dense elimination.
fn pivots<R: Threads + Sync>(
    rt: &R,
    alloc: Global,
    rows: &Rows,
    workers: u32,
) -> Result<usize, AllocError>
    requires some { 1 ≤ workers }
{
    Ok(finish(rt, alloc, rows, workers)?.pivots.items().len())
}

// The ranks of the matrix in a text by plain elimination, by its echelon form, and by dense eliminations of one worker and of four.
fn ranks<R: Threads + Sync>(rt: &R, alloc: Global, p: u64, text: &str) -> Result<[usize; 4], Fail>
    requires two_or_more { 2 ≤ p }
    requires in_range { p < MODULUS_BOUND }
{
    let rows = rows_of(alloc, &Modulus::new(p), text.as_bytes())?;
    Ok([
        plain_rank(alloc, &rows)?,
        form_rank(rt, alloc, &rows)?,
        pivots(rt, alloc, &rows, 1)?,
        pivots(rt, alloc, &rows, 4)?,
    ])
}

// Wide and high matrices with multiples of a row, a row that is the sum of two, and a column that is combined from two.
const WIDE: &str =
    "3 10 M\n1 1 2147483646\n1 4 2\n1 9 2147483645\n1 10 1\n2 2 2147483644\n2 4 2147483646\n2 9 5\n\
     2 10 1\n3 1 2147483646\n3 2 2147483644\n3 4 1\n3 9 3\n3 10 2\n0 0 0\n";

const HIGH: &str =
    "6 3 M\n1 1 4294967310\n1 3 4294967309\n2 2 4294967309\n2 3 2\n3 1 4294967296\n3 2 1\n\
     3 3 4294967280\n5 1 7\n5 3 14\n6 1 1\n6 2 4294967300\n6 3 13\n0 0 0\n";

const MULTIPLES: &str =
    "2 9 M\n1 1 4294967310\n1 8 4294967296\n1 9 3\n2 1 2\n2 8 30\n2 9 4294967305\n0 0 0\n";

// Moduli, texts, and the rank.
const MATRICES: &[(u64, &str, usize)] = &[
    (7, X, 2),
    (7, Y, 3),
    (3, "3 3 M\n1 2 1\n1 3 2\n2 2 2\n2 3 1\n3 1 1\n0 0 0\n", 2),
    (2, "2 2 M\n1 1 1\n1 2 1\n2 1 1\n2 2 1\n0 0 0\n", 1),
    (5, "2 3 M\n1 3 4\n2 2 3\n2 3 4\n0 0 0\n", 2),
    (7, "0 3 M\n0 0 0\n", 0),
    (7, "3 0 M\n0 0 0\n", 0),
    (2147483647, WIDE, 2),
    (4294967311, WIDE, 3),
    (2147483647, HIGH, 3),
    (4294967311, HIGH, 2),
    (4294967311, MULTIPLES, 1),
];

#[test]
fn ranks_are_as_known(rt: HostRuntime) -> Result<(), Fail> {
    for (p, text, rank) in MATRICES {
        assert!(rt; 2 <= *p && *p < MODULUS_BOUND);
        let found = ranks(&rt, rt.alloc(), *p, text)?;
        assert_eq!(rt; found, [*rank; 4], "at {p} {text}");
    }
    Ok(())
}
