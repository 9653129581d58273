// Calls that no program makes, on small matrices modulo 7.
ghost use Rattle.std.specs.Prelude.{◌≡◌, ◌≤◌};

use crate::tests::matrices::{built, lists};
use kernel_solve::{Inverse, inverse, left_kernel};
use sparse_rows::Rows;
use std::alloc::Global;
use std::thread::Threads;

// 3 x 3, of rank 2: the second column is twice the first.
const X: &[(u32, u32, u64)] = &[
    (0, 0, 2),
    (0, 1, 4),
    (0, 2, 1),
    (1, 0, 1),
    (1, 1, 2),
    (2, 0, 3),
    (2, 1, 6),
    (2, 2, 1),
];

// 3 x 3, with an inverse.
const Y: &[(u32, u32, u64)] = &[
    (0, 0, 1),
    (1, 0, 1),
    (1, 1, 1),
    (1, 2, 1),
    (2, 0, 1),
    (2, 1, 1),
    (2, 2, 2),
];

// A square matrix: its size and entries, whether there is an inverse, its entries or those of the null vector, and those of the left
// kernel's basis.
struct Square {
    size: u32,
    entries: &'static [(u32, u32, u64)],
    is_inverse: bool,
    inverse: &'static [(u32, u32, u64)],
    left_kernel: &'static [(u32, u32, u64)],
}

const SQUARES: &[Square] = &[
    Square {
        size: 3,
        entries: Y,
        is_inverse: true,
        inverse: &[
            (0, 0, 1),
            (1, 0, 6),
            (1, 1, 2),
            (1, 2, 6),
            (2, 1, 6),
            (2, 2, 1),
        ],
        left_kernel: &[],
    },
    Square {
        size: 3,
        entries: X,
        is_inverse: false,
        inverse: &[(0, 0, 5), (0, 1, 1)],
        left_kernel: &[(0, 0, 6), (0, 1, 6), (0, 2, 1)],
    },
    Square {
        size: 2,
        entries: &[(0, 0, 1)],
        is_inverse: false,
        inverse: &[(0, 1, 1)],
        left_kernel: &[(0, 1, 1)],
    },
    Square {
        size: 1,
        entries: &[(0, 0, 3)],
        is_inverse: true,
        inverse: &[(0, 0, 5)],
        left_kernel: &[],
    },
    Square {
        size: 0,
        entries: &[],
        is_inverse: true,
        inverse: &[],
        left_kernel: &[],
    },
];

// Whether the left kernel basis of a matrix is as known.
fn has_left_kernel<R: Threads + Sync>(rt: &R, alloc: Global, a: &Rows, known: &Square) -> bool {
    let Ok(basis) = left_kernel(rt, alloc, a, 1) else {
        return false;
    };
    lists(alloc, &basis, known.left_kernel)
}

// Whether an inverse with the known entries was found, or a null vector with them.
fn tells(alloc: Global, found: &Inverse, known: &Square) -> bool {
    match found {
        Inverse::Of(b) => known.is_inverse && lists(alloc, b, known.inverse),
        Inverse::Singular(v) => !known.is_inverse && lists(alloc, v, known.inverse),
    }
}

// The same of a matrix.
fn inverts<R: Threads + Sync>(rt: &R, alloc: Global, a: &Rows, known: &Square) -> bool
    requires square { a.now.matrix.height ≡ a.now.matrix.width }
    requires small { a.now.matrix.width ≤ 8 }
{
    let Ok(found) = inverse(rt, alloc, a, 2) else {
        return false;
    };
    tells(alloc, &found, known)
}

// Whether a matrix has the left kernel, and the inverse or null vector, that are known.
fn is_as_known<R: Threads + Sync>(rt: &R, alloc: Global, known: &Square) -> bool {
    let n = known.size;
    if n > 8 {
        return false;
    }
    let Ok(Some(a)) = built(alloc, n, n, known.entries) else {
        return false;
    };
    has_left_kernel(rt, alloc, &a, known) && inverts(rt, alloc, &a, known)
}

#[test]
fn left_kernels_and_inverses(rt: HostRuntime) {
    for known in SQUARES {
        let n = known.size;
        assert!(rt; is_as_known(&rt, rt.alloc(), known), "{n} x {n}");
    }
}
