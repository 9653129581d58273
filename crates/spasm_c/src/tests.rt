// The exports, called as C calls them.
use super::{
    Given, Places, Room, spasm_inverse, spasm_kernel, spasm_left_kernel, spasm_pivots, spasm_rank,
    spasm_rref, spasm_solve,
};
use std::alloc::Global;

// Of each call its number, the modulus, the right side's second entry and how many places there are; and then the status, how many
// entries are needed, the height and the first two values. The matrix is [1 2; 2 4], and the right side's first entry is 1.
const CALLS: [(u32, u64, u64, usize, (u32, usize, u32, [u64; 2])); 10] = [
    (0, 7, 0, 2, (0, 0, 1, [0, 0])),
    (1, 7, 0, 2, (0, 2, 1, [1, 2])),
    (2, 7, 0, 2, (0, 2, 1, [5, 1])),
    (3, 7, 0, 2, (0, 2, 1, [5, 1])),
    (4, 7, 2, 2, (0, 1, 2, [1, 0])),
    (4, 7, 0, 2, (1, 2, 1, [1, 3])),
    (5, 7, 0, 2, (1, 2, 1, [5, 1])),
    (6, 7, 0, 2, (0, 1, 0, [0, 0])),
    (2, 7, 0, 1, (10, 2, 1, [0, 0])),
    (2, 4, 0, 2, (3, 0, 0, [0, 0])),
];

#[test]
fn exports_answer(rt: HostRuntime) {
    for (call, modulus, second, places, wanted) in &CALLS {
        assert!(&rt; told(rt.alloc(), *call, *modulus, *second, *places) == *wanted);
    }
}

// What a call tells.
fn told(
    alloc: Global,
    call: u32,
    modulus: u64,
    second: u64,
    places: usize,
) -> (u32, usize, u32, [u64; 2]) {
    let a = Given {
        rows: &[0, 0, 1, 1],
        columns: &[0, 1, 0, 1],
        values: &[1, 2, 2, 4],
        height: 2,
        width: 2,
        modulus,
    };
    let b = Given {
        rows: &[0, 1],
        columns: &[0, 0],
        values: &[1, second],
        height: 2,
        width: 1,
        modulus,
    };
    match call {
        0 => told_of_rank(alloc, &a),
        6 => told_of_pivots(alloc, &a),
        _ => told_of_room(alloc, call, &a, &b, places),
    }
}

// The rank stands for the height.
fn told_of_rank(alloc: Global, a: &Given<'_>) -> (u32, usize, u32, [u64; 2]) {
    let mut rank = 0;
    let status = spasm_rank(alloc, a, &mut rank);
    (status, 0, rank, [0; 2])
}

fn told_of_pivots(alloc: Global, a: &Given<'_>) -> (u32, usize, u32, [u64; 2]) {
    let (mut rows, mut columns) = ([0; 2], [0; 2]);
    let mut pivots = Places {
        rows: &mut rows,
        columns: &mut columns,
        needed: 0,
    };
    let status = spasm_pivots(alloc, a, &mut pivots);
    (status, pivots.needed, 0, [0; 2])
}

fn told_of_room(
    alloc: Global,
    call: u32,
    a: &Given<'_>,
    b: &Given<'_>,
    places: usize,
) -> (u32, usize, u32, [u64; 2]) {
    let (mut rows, mut columns, mut values) = ([0; 2], [0; 2], [0; 2]);
    let mut room = Room {
        rows: &mut rows,
        columns: &mut columns,
        values: &mut values[..places.min(2)],
        needed: 0,
        height: 0,
    };
    let status = filled(alloc, call, a, b, &mut room);
    let (needed, height) = (room.needed, room.height);
    (status, needed, height, values)
}

// The status of a call that answers with a matrix.
fn filled(alloc: Global, call: u32, a: &Given<'_>, b: &Given<'_>, room: &mut Room<'_>) -> u32 {
    match call {
        1 => spasm_rref(alloc, a, room),
        2 => spasm_kernel(alloc, a, room),
        3 => spasm_left_kernel(alloc, a, room),
        4 => spasm_solve(alloc, a, b, room),
        _ => spasm_inverse(alloc, a, room),
    }
}
