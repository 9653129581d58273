// Two workers that a gate holds apart.
use crate::tests::runs::Y;
use sms_text::{MemorySink, MemorySource};
use spasm_run::{Gate, Point, Status, run};
use std::alloc::{AllocError, Global};
use std::sync::atomic::{AtomicU64, Ordering};
use std::test::Fail;
use std::thread::Threads;

// What a run with these words writes, where it is done.
fn written<'a, R: Threads + Sync, G: Gate>(
    rt: &R,
    alloc: Global,
    words: &'a [&'a str],
    text: &[u8],
    gate: &G,
) -> Result<Option<MemorySink>, AllocError> {
    let mut source = MemorySource::new(Vec::from_slice(alloc, text)?, 64, Vec::new(alloc));
    let mut out = MemorySink::new(alloc, 512, 64, Vec::new(alloc))?;
    let mut err = MemorySink::new(alloc, 64, 64, Vec::new(alloc))?;
    let status = run(rt, alloc, words, &mut source, &mut out, &mut err, gate);
    Ok(if status == Status::Done {
        Some(out)
    } else {
        None
    })
}

// Whether one of these texts was written.
fn is_among(written: &Option<MemorySink>, texts: &[&str]) -> bool {
    match written {
        Some(out) => texts.iter().any(|text| out.content() == text.as_bytes()),
        None => false,
    }
}

// Holds whoever has the third row before it publishes, until another has claimed the second, and that one before it publishes,
// until the third is published. It notes that the third was published only if the second was in another's hand then, so it does
// not if one thread does all.
#[derive(Drop)]
struct Hold {
    held: AtomicU64,
    other: AtomicU64,
    overtaken: AtomicU64,
}

// A worker, as a number that isn't 0.
fn named(worker: u32) -> u64 {
    u64::from(worker) + 1
}

// Waits until the flag is set, for a second or so.
fn wait_for(flag: &AtomicU64) {
    for _ in 0..500_000_000u64 {
        if flag.load(Ordering::SeqCst) != 0 {
            return;
        }
    }
}

impl Gate for Hold {
    fn at(&self, worker: u32, point: Point) {
        match point {
            Point::Claimed(1) => self.held.store(named(worker), Ordering::SeqCst),
            Point::Claimed(2) => self.other.store(named(worker), Ordering::SeqCst),
            Point::Before(1, _, _) => wait_for(&self.overtaken),
            Point::Before(2, _, _) => wait_for(&self.held),
            Point::Published(_) => {
                let held = self.held.load(Ordering::SeqCst);
                let other = self.other.load(Ordering::SeqCst);
                if other == named(worker) && held != 0 && held != other {
                    self.overtaken.store(1, Ordering::SeqCst);
                }
            }
            _ => {}
        }
    }
}

// Words of commands that search by two workers, matrices, and what is answered where the third row overtakes the second. In the first
// matrix the second row is dropped, which leaves it to a later round and changes no form; in the last one it is published behind, with the
// version of its claim.
const OVERTAKEN: &[(&[&str], &str, &str)] = &[
    (
        &["pivots", "--modulus=7", "--workers=2"],
        Y,
        "pivots 2\n3 2\n1 1\n",
    ),
    (
        &["certify", "--modulus=7", "--kind=rref", "--workers=2"],
        Y,
        "certificate rref 7 3\n3 2\n1 1\n2 3\n\
         3 3 M\n1 2 1\n2 1 1\n2 3 1\n3 1 1\n0 0 0\n\
         3 3 M\n1 1 1\n1 2 1\n1 3 2\n2 1 1\n3 3 6\n0 0 0\n\
         3 3 M\n1 1 1\n2 2 1\n3 3 1\n0 0 0\n",
    ),
    (
        &["trace", "--modulus=7", "--workers=2"],
        Y,
        "trace 7 2\n1 1 0\n3 2 1\n",
    ),
    (
        &["trace", "--modulus=7", "--workers=2"],
        "3 3 M\n1 1 1\n2 1 1\n2 2 1\n3 1 1\n3 3 1\n0 0 0\n",
        "trace 7 3\n1 1 0\n3 3 1\n2 2 1\n",
    ),
];

// Whether the third row overtakes the second while another worker has that, and this is answered: two workers go at once.
fn is_overtaken<'a, R: Threads + Sync>(
    rt: &R,
    alloc: Global,
    words: &'a [&'a str],
    text: &str,
    answer: &str,
) -> Result<bool, AllocError> {
    let gate = Hold {
        held: AtomicU64::new(0),
        other: AtomicU64::new(0),
        overtaken: AtomicU64::new(0),
    };
    let out = written(rt, alloc, words, text.as_bytes(), &gate)?;
    Ok(is_among(&out, &[answer]) && gate.overtaken.load(Ordering::SeqCst) == 1)
}

#[test]
fn two_workers_go_at_once(rt: HostRuntime) -> Result<(), Fail> {
    for (words, text, answer) in OVERTAKEN {
        assert!(rt;
            is_overtaken(&rt, rt.alloc(), words, text, answer)?,
            "{words:?}"
        );
    }
    Ok(())
}
