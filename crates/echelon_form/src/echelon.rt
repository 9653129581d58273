// The form, as callers see it.
ghost use Rattle.std.specs.Prelude.{◌≡◌, ◌<◌, ◌≤◌, ℕ, length, slice_index, IfOk};
ghost use Rattle.sparse_rows.specs.Rows.{AreRising, LARGEST_SIZE};
ghost use Rattle.echelon_form.specs.Form.{IsEchelon, IsFormOf, widened_form};

use crate::lead_order::{leads_of, named, order_of};
use crate::settle::{Settling, merged};
use crate::sparse_elimination::eliminated;
use crew::Threaded;
use sparse_rows::Rows;
use std::alloc::{AllocError, Global};
use std::marker::Model;
use std::thread::Threads;

/// The reduced row echelon form of a matrix: its rows, and of each the column of its first entry, the lead. Contracts see
/// the modulus, the matrix and the list of the leads.
#[derive(Debug, Drop)]
pub struct Echelon {
    rows: Rows,
    leads: Vec<u32>,
}

impl Model for Echelon {
    ghost use Rattle.echelon_form.specs.Form.{Form, IsEchelon};

    ghost Value = { Form };

    ghost view = { λ e. record { modulus = e.rows.modulus; matrix = e.rows.matrix; leads = e.leads.items } };

    ghost invariant = { λ e. IsEchelon (record {
      modulus = e.rows.modulus;
      matrix = e.rows.matrix;
      leads = e.leads.items;
    }) };
}

impl Echelon {
    /// The form that `made_by` gives, by the threads of this runtime. Where a thread cannot be started the caller does its work.
    pub fn of<R: Threads + Sync>(
        rt: &R,
        alloc: Global,
        rows: &Rows,
        workers: u32,
    ) -> Result<Echelon, AllocError>
        requires some { 1 ≤ workers }
        ensures { IfOk result (λ e. IsFormOf rows.now.modulus rows.now.matrix e) }
    {
        Echelon::made_by(&Threaded::of(rt), alloc, rows, workers)
    }

    /// The form of a matrix, by so many workers, at least one: the same for every number of them and for every crew. For a modulus that
    /// is not prime it is some rows of that width. An error only where memory runs out.
    ///
    /// The rows are eliminated one after another by the caller, in the time of the entries that this makes; then each
    /// worker settles a share of the rows that are left, each with 8 bytes a column. Columns without an entry cost nothing
    /// where there are many. To a caller alone one worker is best, since more only take more memory.
    pub fn made_by<C: Settling>(
        crew: &C,
        alloc: Global,
        rows: &Rows,
        workers: u32,
    ) -> Result<Echelon, AllocError>
        requires able { C.can_work }
        requires some { 1 ≤ workers }
        ensures { IfOk result (λ e. IsFormOf rows.now.modulus rows.now.matrix e) }
    {
        // The call's contract tells that the entries are residues.
        rows.is_sound();
        if rows.is_wide() {
            let columns = rows.occupied(alloc)?;
            let narrow = rows.narrowed(alloc, &columns)?;
            Echelon::settled(crew, alloc, &narrow, workers)?.widened(alloc, rows.width(), &columns)
        } else {
            Echelon::settled(crew, alloc, rows, workers)
        }
    }

    // The form, with memory for each column.
    fn settled<C: Settling>(
        crew: &C,
        alloc: Global,
        rows: &Rows,
        workers: u32,
    ) -> Result<Echelon, AllocError>
        requires able { C.can_work }
        requires some { 1 ≤ workers }
        ensures { IfOk result (λ e. IsFormOf rows.now.modulus rows.now.matrix e) }
    {
        let kept = eliminated(alloc, rows)?;
        let order = order_of(alloc, &kept)?;
        let shares = crew.shares_of(alloc, &kept, &order, workers)?;
        Ok(Echelon {
            rows: merged(alloc, &kept, &order, &shares)?,
            leads: leads_of(alloc, &order)?,
        })
    }

    // The form with its columns at these columns of so many, which ascend.
    fn widened(self, alloc: Global, width: u32, columns: &[u32]) -> Result<Echelon, AllocError>
        requires width { width ≤ LARGEST_SIZE }
        requires many { length columns.now ≡ self.matrix.width }
        requires rising { AreRising columns.now }
        requires below { (k : ℕ) → k < length columns.now → slice_index columns.now k < width }
        ensures { IfOk result (λ e. e ≡ widened_form self width columns.now) }
    {
        // The call's contract tells that a modulus is not 0.
        self.rows.is_sound();
        Ok(Echelon {
            rows: self.rows.widened(alloc, width, columns)?,
            leads: named(alloc, columns, &self.leads)?,
        })
    }

    /// The rows of the form, by ascending leads.
    pub fn rows(&self) -> &Rows
        ensures modulus { result.now.modulus ≡ self.now.modulus }
        ensures matrix { result.now.matrix ≡ self.now.matrix }
    {
        &self.rows
    }

    /// The rows of the form alone. It takes no memory.
    pub fn into_rows(self) -> Rows
        ensures modulus { result.modulus ≡ self.modulus }
        ensures matrix { result.matrix ≡ self.matrix }
    {
        self.rows
    }

    /// The lead of each row, ascending.
    pub fn leads(&self) -> &[u32]
        ensures value { result.now ≡ self.now.leads }
        ensures sound { IsEchelon self.now }
    {
        self.leads.as_slice()
    }

    /// The law of its rows and leads, for proofs: it does nothing.
    #[inline(always)]
    pub fn is_sound(&self)
        ensures { IsEchelon self.now }
    {
        self.rank();
    }

    /// How many rows the form has; for a prime modulus that is the rank.
    pub fn rank(&self) -> u32
        ensures value { result ≡ self.now.matrix.height }
        ensures sound { IsEchelon self.now }
    {
        self.rows.height()
    }
}
