// By whom and how an answer is worked out.
ghost use Rattle.std.specs.Prelude.{◌≡◌, ◌≤◌, IfOk};
ghost use Rattle.echelon_form.specs.Form.{IsFormOf};

use crew::{Alone, Threaded};
use echelon_form::Echelon;
use optimistic_search::Open;
use pluq_factor::{Eliminating, Plan};
use sparse_rows::Rows;
use std::alloc::{AllocError, Global};
use std::thread::Threads;

/// By whom and how a call is worked out. `Team::of` and `Team::alone` make one, and its numbers may be set after:
///
/// ```
/// let team = Team { workers: 8, ..Team::of(&rt, rt.alloc()) };
/// ```
pub struct Team<'a, C, G> {
    /// Who does the work: the threads of a runtime, or the caller alone.
    pub crew: C,
    /// Where memory is taken.
    pub alloc: Global,
    /// How many workers share an elimination, at least one.
    pub workers: u32,
    /// How many structural rounds come first at most in each elimination but that of `rank`, which takes as many as pay; with 0 a rank
    /// is found by a dense elimination.
    pub rounds: u32,
    /// What the workers of a search for pivots pass by: `Open`, unless a test holds them up.
    pub gate: &'a G,
}

impl<'a, C: Copy, G> Copy for Team<'a, C, G> {}

impl<'a, C: Copy, G> Clone for Team<'a, C, G> {
    fn clone(&self) -> Result<Self, AllocError> {
        Ok(Team {
            crew: self.crew.clone()?,
            alloc: self.alloc,
            workers: self.workers,
            rounds: self.rounds,
            gate: self.gate,
        })
    }
}

impl<'a, R: Threads + Sync> Team<'a, Threaded<'a, R>, Open> {
    /// The threads of this runtime: one worker, three rounds, and no gate.
    pub fn of(runtime: &'a R, alloc: Global) -> Team<'a, Threaded<'a, R>, Open>
        ensures workers { result.workers ≡ 1 }
        ensures rounds { result.rounds ≡ 3 }
    {
        Team {
            crew: Threaded::of(runtime),
            alloc,
            workers: 1,
            rounds: 3,
            gate: &Open,
        }
    }
}

impl<'a> Team<'a, Alone, Open> {
    /// The caller alone, who starts no thread: one worker, three rounds, and no gate.
    pub fn alone(alloc: Global) -> Team<'a, Alone, Open>
        ensures workers { result.workers ≡ 1 }
        ensures rounds { result.rounds ≡ 3 }
    {
        Team {
            crew: Alone,
            alloc,
            workers: 1,
            rounds: 3,
            gate: &Open,
        }
    }
}

impl<'a, C, G> Team<'a, C, G> {
    // The workers and the rounds.
    pub(crate) fn plan(&self) -> Plan
        ensures workers { result.workers ≡ self.now.workers }
        ensures rounds { result.rounds ≡ self.now.rounds }
    {
        Plan {
            workers: self.workers,
            rounds: self.rounds,
        }
    }
}

impl<'a, C: Eliminating, G> Team<'a, C, G> {
    // The echelon form of a matrix.
    pub(crate) fn form(&self, a: &Rows) -> Result<Echelon, AllocError>
        requires able { C.can_work }
        requires some { 1 ≤ self.now.workers }
        ensures { IfOk result (IsFormOf a.now.modulus a.now.matrix) }
    {
        let form = pluq_factor::form(&self.crew, self.alloc, a, self.plan())?;
        Ok(form)
    }
}
