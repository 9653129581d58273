// The kept rows by ascending leads.
ghost use Rattle.std.specs.Prelude.{◌≡◌, ◌<◌, ℕ, length, map, slice_index, IfOk};
ghost use Rattle.lead_rows.specs.Leads.{IsSound};
ghost use Rattle.echelon_form.specs.Settling.{IsOrderOfLeads};

use lead_rows::Leads;
use std::alloc::{AllocError, Global};

// Of each row its lead and its number, by ascending leads.
pub(crate) fn order_of(alloc: Global, kept: &Leads) -> Result<Vec<(u32, u32)>, AllocError>
    ensures sound { IsSound kept.now }
    ensures order { IfOk result (λ order. IsOrderOfLeads kept.now order.items) }
{
    let mut order = Vec::with_capacity(alloc, kept.height() as usize)?;
    for k in 0..kept.height() {
        order.push((kept.lead(k), k))?;
    }
    order.sort_unstable_by_key(|c| c.0);
    Ok(order)
}

// The leads alone.
pub(crate) fn leads_of(alloc: Global, order: &[(u32, u32)]) -> Result<Vec<u32>, AllocError>
    ensures { IfOk result (λ leads. leads.items ≡ map (λ c. c.0) order.now) }
{
    let mut leads = Vec::with_capacity(alloc, order.len())?;
    for c in order {
        leads.push(c.0)?;
    }
    Ok(leads)
}

// The columns at these places.
pub(crate) fn named(alloc: Global, columns: &[u32], places: &[u32]) -> Result<Vec<u32>, AllocError>
    requires { (k : ℕ) → k < length places.now → slice_index places.now k < length columns.now }
    ensures { IfOk result (λ named. named.items ≡ map (slice_index columns.now) places.now) }
{
    let mut named = Vec::with_capacity(alloc, places.len())?;
    for place in places {
        named.push(columns[*place as usize])?;
    }
    Ok(named)
}
