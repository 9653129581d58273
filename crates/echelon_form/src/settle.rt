// The settled rows, made by several workers.
ghost use Rattle.std.specs.Prelude.{◌≡◌, ◌<◌, ◌≤◌, length, IfOk};
ghost use Rattle.lead_rows.specs.Leads.{IsSound};
ghost use Rattle.echelon_form.specs.Settling.{AreSettled, AreShares, IsOrderOfLeads, IsShare};

use crew::{Alone, Crew, Threaded, map_indices_alone};
use lead_rows::{Accumulator, Leads};
use sparse_rows::{Rows, Sparse};
use std::alloc::{AllocError, Global};
use std::thread;
use std::thread::Threads;

/// What each worker makes, or that memory ran out for it.
pub type Share = Result<Vec<Sparse>, AllocError>;

/// A crew that settles the rows of an echelon form. This crate implements it for both crews that there are.
pub trait Settling: Crew {
    /// The shares of so many workers: each settles the rows at every so many places of this order.
    fn shares_of(
        &self,
        alloc: Global,
        kept: &Leads,
        order: &[(u32, u32)],
        workers: u32,
    ) -> Result<Vec<Share>, AllocError>
        requires able { Self.can_work }
        requires some { 1 ≤ workers }
        requires order { IsOrderOfLeads kept.now order.now }
        ensures count { IfOk result (λ shares. length shares.items ≡ workers) }
        ensures shares { IfOk result (λ shares. AreShares kept.now order.now shares.items) };
}

impl Settling for Alone {
    fn shares_of(
        &self,
        alloc: Global,
        kept: &Leads,
        order: &[(u32, u32)],
        workers: u32,
    ) -> Result<Vec<Share>, AllocError> {
        map_indices_alone(
            alloc,
            workers as usize,
            &|worker| share_of(alloc, kept, order, worker, workers),
        )
    }
}

impl<'a, R: Threads + Sync> Settling for Threaded<'a, R> {
    fn shares_of(
        &self,
        alloc: Global,
        kept: &Leads,
        order: &[(u32, u32)],
        workers: u32,
    ) -> Result<Vec<Share>, AllocError> {
        thread::map_indices(
            self.runtime,
            alloc,
            workers as usize,
            &|worker| share_of(alloc, kept, order, worker, workers),
        )
    }
}

// The settled rows at the places worker, worker + workers, worker + 2 workers and so on.
fn share_of(alloc: Global, kept: &Leads, order: &[(u32, u32)], worker: usize, workers: u32) -> Share
    requires worker { worker < workers }
    requires order { IsOrderOfLeads kept.now order.now }
    ensures { IfOk result (λ share. IsShare kept.now order.now worker workers share.items) }
{
    let mut accumulator = Accumulator::new(alloc, kept.width(), &kept.modulus())?;
    let mut share = Vec::new(alloc);
    let mut at = worker;
    while at < order.len() {
        share.push(kept.settle_with(alloc, order[at].1, &mut accumulator)?)?;
        at += workers as usize;
    }
    Ok(share)
}

// The rows of the shares in the order of their places.
pub(crate) fn merged(
    alloc: Global,
    kept: &Leads,
    order: &[(u32, u32)],
    shares: &[Share],
) -> Result<Rows, AllocError>
    requires sound { IsSound kept.now }
    requires order { IsOrderOfLeads kept.now order.now }
    requires some { 1 ≤ length shares.now }
    requires shares { AreShares kept.now order.now shares.now }
    ensures modulus { IfOk result (λ rows. rows.modulus ≡ kept.now.modulus) }
    ensures settled { IfOk result (λ rows. AreSettled kept.now order.now (length order.now) rows.matrix) }
{
    let mut rows = Rows::with_room(
        alloc,
        kept.modulus(),
        kept.width(),
        kept.height(),
        entries_of(shares),
    )?;
    for t in 0..order.len() {
        match &shares[t % shares.len()] {
            Ok(share) => rows.append(&share[t / shares.len()])?,
            Err(e) => return Err(*e),
        }
    }
    Ok(rows)
}

// How many entries the shares have together.
fn entries_of(shares: &[Share]) -> usize {
    let mut sum: usize = 0;
    for share in shares {
        if let Ok(rows) = share {
            for row in rows {
                sum = sum.saturating_add(row.cols().len());
            }
        }
    }
    sum
}
