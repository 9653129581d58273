// Matrices modulo 7 and lists, for the tests of the calls that make them. Where memory is refused, nothing is as wanted.
ghost use Rattle.std.specs.Prelude.{◌≡◌, IfSome};

use residue_words::Modulus;
use sparse_rows::Rows;
use std::alloc::{AllocError, Global};

/// Rows, columns and values.
pub type Entries = &'static [(u32, u32, u64)];

/// The matrix of what is pushed, if each place is inside.
pub fn built(alloc: Global, m: u32, n: u32, pushed: &[(u32, u32, u64)]) -> Option<Rows>
    ensures modulus { IfSome result (λ rows. rows.modulus ≡ 7) }
    ensures height { IfSome result (λ rows. rows.matrix.height ≡ m) }
    ensures width { IfSome result (λ rows. rows.matrix.width ≡ n) }
{
    match Rows::checked_from_triples(alloc, m, n, &Modulus::new(7), pushed) {
        Ok(made) => made,
        Err(_) => None,
    }
}

/// Whether a list has these items.
pub fn lists<T: PartialEq + Drop>(found: Result<Vec<T>, AllocError>, wanted: &[T]) -> bool {
    match found {
        Ok(found) => found.as_slice() == wanted,
        Err(_) => false,
    }
}

/// Whether a matrix has this height, this width and these entries, row by row.
pub fn is_matrix(
    alloc: Global,
    made: Option<Rows>,
    m: u32,
    n: u32,
    entries: &[(u32, u32, u64)],
) -> bool {
    match made {
        Some(rows) => {
            let listed = lists(rows.triples(alloc), entries);
            (rows.height(), rows.width(), listed) == (m, n, true)
        }
        None => false,
    }
}
