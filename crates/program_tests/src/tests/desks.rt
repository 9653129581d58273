// A desk of a few numbers, and a batch of a few questions.
ghost use Rattle.std.specs.Prelude.{All, ◌≡◌, ◌≤◌, IfOk, length};

use batch_solve::{Desk, Unwatched, Watch, answer_all};
use kernel_solve::{Prepared, Reply};
use residue_words::Modulus;
use sparse_rows::Rows;
use std::alloc::{AllocError, Global};
use std::sync::Wait;
use std::sync::atomic::{AtomicU64, Ordering};
use std::test::Fail;
use std::thread::Threads;

#[test]
fn numbers_are_given_once(rt: HostRuntime) -> Result<(), Fail> {
    let (desk, mut first) = Desk::new(&rt, rt.alloc(), 2)?;
    assert_eq!(rt; desk.take(&rt, &mut first), Some(0));
    let mut second = desk.split(&rt, &mut first)?;
    assert_eq!(rt; desk.take(&rt, &mut second), Some(1));
    assert_eq!(rt; desk.take(&rt, &mut first), None);
    assert_eq!(rt; desk.take(&rt, &mut second), None);
    Ok(())
}

// The matrix of these places and values.
fn built(alloc: Global, m: u32, n: u32, triples: &[(u32, u32, u64)]) -> Result<Rows, Fail>
    ensures modulus { IfOk result (λ rows. rows.modulus ≡ 7) }
    ensures height { IfOk result (λ rows. rows.matrix.height ≡ m) }
    ensures width { IfOk result (λ rows. rows.matrix.width ≡ n) }
{
    match Rows::checked_from_triples(alloc, m, n, &Modulus::new(7), triples)? {
        Some(rows) => Ok(rows),
        None => Err(Fail::new("a place is outside")),
    }
}

// The rows (2, 4, 1), (1, 2, 0) and (3, 6, 1).
const X: &[(u32, u32, u64)] = &[
    (0, 0, 2),
    (0, 1, 4),
    (0, 2, 1),
    (1, 0, 1),
    (1, 1, 2),
    (2, 0, 3),
    (2, 1, 6),
    (2, 2, 1),
];

// The columns (1, 0, 1), (0, 0, 1) and (0, 0, 0), modulo 7.
fn columns(alloc: Global) -> Result<Vec<Rows>, Fail>
    ensures few { IfOk result (λ v. length v.items ≡ 3) }
    ensures columns { IfOk result (λ v.
        All (λ b. (b.modulus ≡ 7) × (b.matrix.height ≡ 3) × (b.matrix.width ≡ 1)) v.items) }
{
    let mut columns = Vec::new(alloc);
    columns.push(built(alloc, 3, 1, &[(0, 0, 1), (2, 0, 1)])?)?;
    columns.push(built(alloc, 3, 1, &[(2, 0, 1)])?)?;
    columns.push(built(alloc, 3, 1, &[])?)?;
    Ok(columns)
}

// What is replied to them, for the matrix X.
fn replies<R: Threads + Wait + Sync, W: Watch>(
    rt: &R,
    alloc: Global,
    workers: u32,
    watch: &W,
) -> Result<Vec<Reply>, Fail>
    requires some { 1 ≤ workers }
{
    let a = built(alloc, 3, 3, X)?;
    let prepared = Prepared::of(rt, alloc, &a, workers)?;
    let questions = columns(alloc)?;
    let found = answer_all(rt, alloc, &prepared, questions.as_slice(), workers, watch)?;
    Ok(found)
}

// Whether there is a solution, and the entries of the reply.
fn told(alloc: Global, reply: &Reply) -> Result<(bool, Vec<(u32, u32, u64)>), AllocError> {
    match reply {
        Reply::Solution(x) => Ok((true, x.triples(alloc)?)),
        Reply::Refuted(y) => Ok((false, y.triples(alloc)?)),
    }
}

// Whether there is a solution for each of the columns, and the entries of the replies.
const TOLD: &[(bool, &[(u32, u32, u64)])] = &[
    (true, &[(2, 0, 1)]),
    (false, &[(0, 0, 6), (0, 1, 6), (0, 2, 1)]),
    (true, &[]),
];

#[test]
fn replies_stand_in_order(rt: HostRuntime) -> Result<(), Fail> {
    let alloc = rt.alloc();
    for workers in [1, 2, 8] {
        let found = replies(&rt, alloc, workers, &Unwatched)?;
        assert_eq!(rt; found.len(), TOLD.len());
        for (reply, (is_solvable, entries)) in found.iter().zip(TOLD) {
            let (found, listed) = told(alloc, reply)?;
            assert_eq!(rt; (found, listed.as_slice()), (*is_solvable, *entries));
        }
    }
    Ok(())
}

// Holds who took question 0 until question 1 was taken, and notes where it gave up.
#[derive(Drop)]
struct Holds {
    second: AtomicU64,
    late: AtomicU64,
}

impl Watch for Holds {
    fn taken(&self, _worker: u32, question: u32) {
        if question == 1 {
            self.second.store(1, Ordering::SeqCst);
        }
        if question == 0 && !is_set(&self.second) {
            self.late.store(1, Ordering::SeqCst);
        }
    }
}

// Whether the flag is set within a second or so.
fn is_set(flag: &AtomicU64) -> bool {
    for _ in 0..500_000_000u64 {
        if flag.load(Ordering::SeqCst) == 1 {
            return true;
        }
    }
    false
}

#[test]
fn a_worker_that_is_held_leaves_the_next_question(rt: HostRuntime) -> Result<(), Fail> {
    let alloc = rt.alloc();
    let watch = Holds {
        second: AtomicU64::new(0),
        late: AtomicU64::new(0),
    };
    let found = replies(&rt, alloc, 2, &watch)?;
    assert_eq!(rt; found.len(), TOLD.len());
    assert_eq!(rt; watch.late.load(Ordering::SeqCst), 0);
    Ok(())
}
