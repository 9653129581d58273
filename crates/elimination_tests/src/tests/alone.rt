// What the caller alone answers, beside what threads answer.
ghost use Rattle.std.specs.Prelude.{◌≤◌};

use crate::tests::matrices::{Built, have_same_entries, scattered};
use sparse_rows::Rows;
use spasm_lib::{Team, rank, rref};
use std::alloc::{AllocError, Global};
use std::thread::Threads;

// Whether the caller alone, who does the work of so many workers, finds this form and this rank.
fn finds(alloc: Global, rows: &Rows, workers: u32, form: &Rows, known: u32) -> bool
    requires { 1 ≤ workers }
{
    let alone = Team {
        workers,
        ..Team::alone(alloc)
    };
    if rank(alone, rows) != Ok(known) {
        return false;
    }
    let alone = Team {
        workers,
        ..Team::alone(alloc)
    };
    let Ok(own) = rref(alone, rows) else {
        return false;
    };
    have_same_entries(alloc, &own, form)
}

// The rank that two threads find.
fn rank_by_two<R: Threads + Sync>(rt: &R, alloc: Global, rows: &Rows) -> Result<u32, AllocError> {
    let team = Team {
        workers: 2,
        ..Team::of(rt, alloc)
    };
    rank(team, rows)
}

// The form that they find.
fn form_by_two<R: Threads + Sync>(rt: &R, alloc: Global, rows: &Rows) -> Result<Rows, AllocError> {
    let team = Team {
        workers: 2,
        ..Team::of(rt, alloc)
    };
    rref(team, rows)
}

// Whether the caller alone finds what two threads find, by the work of one worker and of three.
fn agree_on<R: Threads + Sync>(rt: &R, alloc: Global, rows: &Rows) -> bool {
    let Ok(known) = rank_by_two(rt, alloc, rows) else {
        return false;
    };
    let Ok(form) = form_by_two(rt, alloc, rows) else {
        return false;
    };
    finds(alloc, rows, 1, &form, known) && finds(alloc, rows, 3, &form, known)
}

// The same for a matrix that was built.
fn agree_on_built<R: Threads + Sync>(rt: &R, alloc: Global, built: Built) -> bool {
    match built {
        Ok(Some(rows)) => agree_on(rt, alloc, &rows),
        _ => false,
    }
}

// Heights, widths and values a row: an empty matrix, a dense one, two of less rank than height and width, a tall one of full rank, and
// two wide ones.
const SCATTERED: &[(u32, u32, u32)] = &[
    (0, 5, 0),
    (12, 12, 40),
    (20, 20, 1),
    (40, 60, 2),
    (60, 20, 3),
    (20, 300, 2),
    (20, 2147483648, 2),
];

#[test]
fn alone_answers_as_threads_do(rt: HostRuntime) {
    let alloc = rt.alloc();
    for (m, n, per) in SCATTERED {
        let agree = agree_on_built(&rt, alloc, scattered(alloc, *m, *n, *per));
        assert!(rt; agree, "at {m} {n} {per}");
    }
}
