// The reduced echelon form of the kept rows.
ghost use Rattle.std.specs.Prelude.{◌≡◌, length, IfOk};
ghost use Rattle.lead_rows.specs.Leads.{IsSound};
ghost use Rattle.echelon_form.specs.Settling.{AreSettled, IsOrderOfLeads};
ghost use Rattle.grow_form.specs.Numbering.{AreKeptByNumbers, AreSettledByLeads, seen_matrix};

use crate::numbering::Numbering;
use lead_rows::{Accumulator, Leads};
use sparse_rows::Rows;
use std::alloc::{AllocError, Global};

// The rows that are kept by numbers and were settled, moved to the columns.
pub(crate) fn rows_at_columns(
    alloc: Global,
    kept: &Leads,
    settled: &Rows,
    numbering: &Numbering,
) -> Result<Rows, AllocError>
    requires by_numbers { AreKeptByNumbers kept.now numbering.now }
    requires settled { AreSettledByLeads kept.now settled.now.matrix }
    ensures modulus { IfOk result (λ rows. rows.modulus ≡ kept.now.modulus) }
    ensures matrix { IfOk result (λ rows. rows.matrix ≡ seen_matrix numbering.now settled.now.matrix) }
{
    // The calls tell what the kept rows and the numbers promise.
    kept.is_sound();
    numbering.is_sound();
    let p = kept.modulus();
    let height = settled.height();
    let mut rows = Rows::with_room(
        alloc,
        p,
        numbering.width(),
        height,
        settled.entries() as usize,
    )?;
    for k in 0..height {
        let row = numbering.row_at_columns(alloc, settled.cols(k), settled.vals(k), &p)?;
        // The call tells that the entries are residues.
        row.is_sound();
        rows.append_entries(row.cols(0), row.vals(0))?;
    }
    Ok(rows)
}

// The rows settled, by ascending leads.
pub(crate) fn settled_rows(alloc: Global, kept: &Leads) -> Result<Rows, AllocError>
    ensures sound { IsSound kept.now }
    ensures modulus { IfOk result (λ rows. rows.modulus ≡ kept.now.modulus) }
    ensures settled { IfOk result (λ rows. AreSettledByLeads kept.now rows.matrix) }
{
    let order = order_by_leads(alloc, kept)?;
    settle_all(alloc, kept, &order)
}

// Of each row its lead and its number, by ascending leads.
fn order_by_leads(alloc: Global, kept: &Leads) -> Result<Vec<(u32, u32)>, AllocError>
    ensures sound { IsSound kept.now }
    ensures order { IfOk result (λ order. IsOrderOfLeads kept.now order.items) }
{
    let mut order = Vec::with_capacity(alloc, kept.height() as usize)?;
    for k in 0..kept.height() {
        order.push((kept.lead(k), k))?;
    }
    order.sort_unstable_by_key(|c| c.0);
    Ok(order)
}

// The rows of these numbers, settled.
fn settle_all(alloc: Global, kept: &Leads, order: &[(u32, u32)]) -> Result<Rows, AllocError>
    requires sound { IsSound kept.now }
    requires order { IsOrderOfLeads kept.now order.now }
    ensures modulus { IfOk result (λ rows. rows.modulus ≡ kept.now.modulus) }
    ensures settled { IfOk result (λ rows. AreSettled kept.now order.now (length order.now) rows.matrix) }
{
    let mut accumulator = Accumulator::new(alloc, kept.width(), &kept.modulus())?;
    let mut rows = Rows::with_room(
        alloc,
        kept.modulus(),
        kept.width(),
        kept.height(),
        order.len(),
    )?;
    for t in 0..order.len() {
        rows.append(&kept.settle_with(alloc, order[t].1, &mut accumulator)?)?;
    }
    Ok(rows)
}
