//! Who does the work that an elimination splits: threads, or the caller alone.
//!
//! A crate declares a trait of its own over `Crew`, with a method for each operation that it splits, and implements it for both. One trait
//! for all, whose methods take closures, gets no proof: a method's own bounds are assumed of one thread alone.
#![tactic(auto)]

ghost use Rattle.std.specs.Prelude.{◌≡◌, ◌<◌, ℕ, IfOk, vec_len};
ghost use Rattle.std.specs.Fork.{GivesEach};
ghost use denote.Param.Send.{IsSync};

use std::alloc::{AllocError, Global};
use std::thread::Threads;

/// Who does the work.
pub trait Crew {
    /// What holds of it so that it can: of threads, that they may share the runtime.
    ghost can_work: { Type 0 };
}

/// The caller alone, who starts no thread.
#[derive(Clone, Copy, Debug)]
pub struct Alone;

impl Crew for Alone {
    ghost use Rattle.std.specs.Prelude.{⊤};

    ghost can_work = { ⊤ };
}

/// The threads of a runtime.
pub struct Threaded<'a, R> {
    /// What starts them.
    pub runtime: &'a R,
}

impl<'a, R> Copy for Threaded<'a, R> {}

impl<'a, R> Clone for Threaded<'a, R> {
    fn clone(&self) -> Result<Self, AllocError> {
        Ok(*self)
    }
}

impl<'a, R: Threads> Threaded<'a, R> {
    /// Those of this runtime.
    pub fn of(runtime: &'a R) -> Threaded<'a, R> {
        Threaded { runtime }
    }
}

impl<'a, R: Threads + Sync> Crew for Threaded<'a, R> {
    ghost can_work = { IsSync R.row };
}

/// What `f` gives for each number below n, by the caller alone, as `std::thread::map_indices` gives it by threads.
pub fn map_indices_alone<X: Drop, F: Fn(usize) -> X>(
    alloc: Global,
    n: usize,
    f: &F,
) -> Result<Vec<X>, AllocError>
    requires { (i : ℕ) → i < n → F.pre f.now i }
    ensures len { IfOk result (λ v. vec_len v ≡ n) }
    ensures each { IfOk result (λ v. GivesEach F.Fn f.now n v.items) }
{
    let mut all = Vec::with_capacity(alloc, n)?;
    for i in 0..n {
        all.push(f(i))?;
    }
    Ok(all)
}
