// Matrices made of entries or row by row, small ones and huge ones with few entries.
ghost use Rattle.sparse_rows.specs.Rows.{LARGEST_SIZE};
ghost use Rattle.std.specs.Prelude.{◌≡◌, ◌≤◌, ◌+◌, length, IfOk};
ghost use Rattle.residue_words.specs.Matrix.{zeros};

use super::entries::{built, is_matrix};
use residue_words::Modulus;
use sparse_rows::{EntryRoom, LARGEST_SIZE, List, Rows, Sparse};
use std::alloc::{AllocError, Global};

// The sum modulo 7 of what stands at a place.
fn sum_at(triples: &[(u32, u32, u64)], i: u32, j: u32) -> u64 {
    let mut sum = 0u64;
    for (a, b, v) in triples {
        if *a == i && *b == j {
            sum = sum.wrapping_add(*v) % 7;
        }
    }
    sum
}

// Appends the sums in nine rows and six columns that aren't 0, looked up place by place, as many rows lower.
fn append_sums(
    list: &mut Vec<(u32, u32, u64)>,
    by: u32,
    triples: &[(u32, u32, u64)],
) -> Result<(), AllocError> {
    for i in 0..9 {
        for j in 0..6 {
            let sum = sum_at(triples, i, j);
            if sum != 0 {
                list.push((by.wrapping_add(i), j, sum))?;
            }
        }
    }
    Ok(())
}

// The sums of both, those of the second as many rows lower.
fn sums(
    alloc: Global,
    first: &[(u32, u32, u64)],
    by: u32,
    second: &[(u32, u32, u64)],
) -> Result<Vec<(u32, u32, u64)>, AllocError> {
    let mut list = Vec::new(alloc);
    append_sums(&mut list, 0, first)?;
    append_sums(&mut list, by, second)?;
    Ok(list)
}

// Whether a matrix of six columns has this height and these entries.
fn agrees(
    alloc: Global,
    made: Option<Rows>,
    height: u32,
    wanted: Result<Vec<(u32, u32, u64)>, AllocError>,
) -> bool {
    match wanted {
        Ok(wanted) => is_matrix(alloc, made, height, 6, &wanted),
        Err(_) => false,
    }
}

// Whether what is pushed is summed, in as many rows.
fn is_summed(alloc: Global, height: u32, pushed: &[(u32, u32, u64)]) -> bool {
    let made = built(alloc, height, 6, pushed);
    agrees(alloc, made, height, sums(alloc, pushed, 0, &[]))
}

// In few rows, and in many more than there are entries.
fn are_summed(alloc: Global, pushed: &[(u32, u32, u64)]) -> bool {
    [
        is_summed(alloc, 9, pushed),
        is_summed(alloc, LARGEST_SIZE, pushed),
    ] == [true, true]
}

// Places and values in no order, from a linear congruential generator.
fn scattered(seed: u32) -> [(u32, u32, u64); 300] {
    let mut list = [(0, 0, 0); 300];
    let mut state = seed;
    for triple in &mut list {
        state = state.wrapping_mul(1_664_525).wrapping_add(1_013_904_223);
        *triple = (
            (state >> 8) % 9,
            (state >> 16) % 6,
            (state >> 24) as u64 % 7,
        );
    }
    list
}

// In order up to the ninth, the sixth of which is 0; then one at the place of the last, one in an earlier row, and one behind all.
const MOSTLY_IN_ORDER: &[(u32, u32, u64)] = &[
    (0, 1, 3),
    (0, 4, 1),
    (3, 0, 2),
    (3, 5, 6),
    (4, 2, 1),
    (4, 3, 0),
    (4, 4, 3),
    (7, 0, 2),
    (7, 1, 5),
    (7, 1, 2),
    (2, 2, 2),
    (8, 5, 1),
];

#[test]
fn what_is_pushed_is_summed(rt: HostRuntime) {
    for count in [0, 1, 2, 5, 20, 60, 300] {
        assert!(rt;
            are_summed(rt.alloc(), &scattered(300)[..count]),
            "{count} in any order"
        );
    }
    for count in 0..=12 {
        assert!(rt;
            are_summed(rt.alloc(), &MOSTLY_IN_ORDER[..count]),
            "{count} mostly in order"
        );
    }
}

// Whether a matrix with another below it has the entries of both.
fn is_stacked(
    alloc: Global,
    high: u32,
    low: u32,
    first: &[(u32, u32, u64)],
    second: &[(u32, u32, u64)],
) -> bool
    requires { high + low ≤ LARGEST_SIZE }
{
    let Some(below) = built(alloc, low, 6, second) else {
        return false;
    };
    let Some(mut rows) = built(alloc, high, 6, first) else {
        return false;
    };
    rows.append_all(&below).is_ok()
        && agrees(
            alloc,
            Some(rows),
            high + low,
            sums(alloc, first, high, second),
        )
}

// Whether it has them where both are scattered.
fn stacks(alloc: Global, high: u32, low: u32) -> bool
    requires { high + low ≤ LARGEST_SIZE }
{
    is_stacked(
        alloc,
        high,
        low,
        &scattered(high)[..20],
        &scattered(low)[..20],
    )
}

#[test]
fn matrices_above_each_other(rt: HostRuntime) {
    let alloc = rt.alloc();
    // Each row stored, or those alone that have an entry.
    let stacked = [
        stacks(alloc, 9, 9),
        stacks(alloc, 9, 1_000_000),
        stacks(alloc, 1_000_000, 9),
        stacks(alloc, 1_000_000, 1_000_000),
    ];
    assert_eq!(rt; stacked, [true, true, true, true]);
}

// One entry in each of 32768 rows, whose numbers go by such steps, and whose columns and values by others.
fn stepping(alloc: Global, by: u32, entry_by: u32) -> Result<Vec<(u32, u32, u64)>, AllocError> {
    let mut list = Vec::new(alloc);
    for k in 0..32_768u32 {
        let entry = k.wrapping_mul(entry_by) % 32_768;
        list.push((
            k.wrapping_mul(by) % 32_768,
            entry % 6,
            u64::from(entry % 5) + 1,
        ))?;
    }
    Ok(list)
}

// Whether rows that are pushed in no order come to their places.
fn come_to_their_places(alloc: Global) -> bool {
    let Ok(pushed) = stepping(alloc, 20_021, 1) else {
        return false;
    };
    // 5149 undoes the multiplication by 20021.
    agrees(
        alloc,
        built(alloc, 32_768, 6, &pushed),
        32_768,
        stepping(alloc, 1, 5_149),
    )
}

// Whether what is pushed into 2 x 3 places fits.
fn fits(alloc: Global, pushed: &[(u32, u32, u64)]) -> bool {
    built(alloc, 2, 3, pushed).is_some()
}

#[test]
fn what_does_not_fit_makes_no_matrix(rt: HostRuntime) {
    let alloc = rt.alloc();
    // All fit, or a row, a column or a value doesn't.
    let fit = [
        fits(alloc, &[(0, 0, 1), (1, 2, 6)]),
        fits(alloc, &[(0, 0, 1), (2, 0, 1)]),
        fits(alloc, &[(0, 0, 1), (0, 3, 1)]),
        fits(alloc, &[(0, 0, 1), (1, 2, 7)]),
    ];
    assert_eq!(rt; fit, [true, false, false, false]);
}

// Puts two entries into a row of three, and says whether it has them.
fn has_two_entries(row: &mut Sparse) -> bool
    requires modulus { row.old.modulus ≡ 7 }
    requires zeros { row.old.row ≡ zeros 3 }
    ensures modulus { row.new.modulus ≡ 7 }
    ensures width { length row.new.row ≡ 3 }
{
    row.push(0, 5).is_ok()
        && row.push(2, 6).is_ok()
        && (row.cols(), row.vals()) == ([0, 2].as_slice(), [5, 6].as_slice())
}

// Whether a new row has them.
fn has_new_entries(alloc: Global) -> bool {
    has_two_entries(&mut Sparse::new(alloc, 3, Modulus::new(7)))
}

// Whether a list has the item that is pushed.
fn has_an_item(alloc: Global) -> bool {
    let mut list = List::new(alloc);
    list.push(5).is_ok() && list.items() == [5].as_slice()
}

// The matrix of two rows that is begun in memory for four entries of which so many were written to.
fn begun(alloc: Global, before: usize) -> Result<Rows, AllocError>
    ensures modulus { IfOk result (λ rows. rows.modulus ≡ 7) }
    ensures height { IfOk result (λ rows. rows.matrix.height ≡ 0) }
    ensures width { IfOk result (λ rows. rows.matrix.width ≡ 3) }
{
    let mut room = EntryRoom::new(alloc, 4)?;
    room.write(before);
    Rows::in_room(alloc, Modulus::new(7), 3, 2, room)
}

// Appends a row twice.
fn append_twice(rows: &mut Rows, row: &Sparse, ahead: usize) -> Result<(), AllocError>
    requires modulus { row.now.modulus ≡ rows.old.modulus }
    requires height { rows.old.matrix.height ≡ 0 }
    requires width { length row.now.row ≡ rows.old.matrix.width }
{
    rows.append(row)?;
    rows.write_ahead(ahead);
    rows.append(row)
}

const WRITTEN: &[(u32, u32, u64)] = &[(0, 0, 5), (0, 2, 6), (1, 0, 5), (1, 2, 6)];

// Whether the matrix has the row twice.
fn has_both_rows(alloc: Global, row: &Sparse, before: usize, ahead: usize) -> bool
    requires modulus { row.now.modulus ≡ 7 }
    requires width { length row.now.row ≡ 3 }
{
    match begun(alloc, before) {
        Ok(mut rows) => {
            append_twice(&mut rows, row, ahead).is_ok()
                && is_matrix(alloc, Some(rows), 2, 3, WRITTEN)
        }
        Err(_) => false,
    }
}

// Whether memory holds what is appended, however much of it was written to.
fn hold_both_rows(alloc: Global) -> bool {
    match Sparse::with_room(alloc, 3, Modulus::new(7), 2) {
        Ok(mut row) => {
            has_two_entries(&mut row)
                && [
                    has_both_rows(alloc, &row, 0, 0),
                    has_both_rows(alloc, &row, 1, 1),
                    has_both_rows(alloc, &row, 4, 2),
                    has_both_rows(alloc, &row, usize::MAX, usize::MAX),
                ] == [true, true, true, true]
        }
        Err(_) => false,
    }
}

#[test]
fn what_is_appended_is_there(rt: HostRuntime) {
    let alloc = rt.alloc();
    let found = [
        come_to_their_places(alloc),
        has_new_entries(alloc),
        has_an_item(alloc),
        hold_both_rows(alloc),
    ];
    assert_eq!(rt; found, [true, true, true, true]);
}
