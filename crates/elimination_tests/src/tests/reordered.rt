// Forms of matrices that are worked on in order of weight, beside those by plain elimination.
use crate::tests::matrices::{Built, have_same_entries, scattered};
use sparse_rows::Rows;
use spasm_lib::{Team, kernel, rref};
use std::alloc::{AllocError, Global};

// The form and the kernel basis by so many rounds.
fn answers(alloc: Global, rows: &Rows, rounds: u32) -> Result<(Rows, Rows), AllocError> {
    let form = rref(
        Team {
            rounds,
            ..Team::alone(alloc)
        },
        rows,
    )?;
    let basis = kernel(
        Team {
            rounds,
            ..Team::alone(alloc)
        },
        rows,
    )?;
    Ok((form, basis))
}

// Whether they are the same without a round, by one, and by many.
fn agree_on(alloc: Global, rows: &Rows) -> Result<bool, AllocError> {
    let (form, basis) = answers(alloc, rows, 0)?;
    for rounds in [1, 16] {
        let (own_form, own_basis) = answers(alloc, rows, rounds)?;
        if !have_same_entries(alloc, &own_form, &form)
            || !have_same_entries(alloc, &own_basis, &basis)
        {
            return Ok(false);
        }
    }
    Ok(true)
}

// The same for a matrix that was built.
fn agree_on_built(alloc: Global, built: Built) -> bool {
    match built {
        Ok(Some(rows)) => agree_on(alloc, &rows) == Ok(true),
        _ => false,
    }
}

// Heights, widths and values a row. The pivots of the first one leave ten times its entries in the columns' own order, and less in
// order of weight; the second is not worked on so.
const SCATTERED: &[(u32, u32, u32)] = &[(400, 400, 8), (100, 100, 2)];

#[test]
fn order_of_weight_keeps_forms(rt: HostRuntime) {
    let alloc = rt.alloc();
    for (m, n, per) in SCATTERED {
        let agree = agree_on_built(alloc, scattered(alloc, *m, *n, *per));
        assert!(rt; agree, "at {m} {n} {per}");
    }
}
