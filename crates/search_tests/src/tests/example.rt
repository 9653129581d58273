// The example of histories.
ghost use Rattle.std.specs.Prelude.{◌≡◌, [], ◌∷◌, IfOk};
ghost use Rattle.pivot_table.specs.Example.{pivot_example};
ghost use Rattle.pivot_table.specs.History.{pair};

use pivot_table::{Book, Pair};
use residue_words::Modulus;
use sparse_rows::Rows;
use std::alloc::{AllocError, Global};

// The rows (1, 0, 0), (1, 1, 1) and (1, 1, 2) modulo 7.
pub(crate) fn rows(alloc: Global) -> Result<Rows, AllocError>
    ensures { IfOk result (λ rows. rows.matrix ≡ pivot_example) }
{
    let entries = [
        (0, 0, 1),
        (1, 0, 1),
        (1, 1, 1),
        (1, 2, 1),
        (2, 0, 1),
        (2, 1, 1),
        (2, 2, 2),
    ];
    Rows::from_triples(alloc, 3, 3, &Modulus::new(7), &entries)
}

// Its first pair alone.
pub(crate) fn first_pair<'a>(alloc: Global, rows: &'a Rows) -> Result<Book<'a>, AllocError>
    requires { rows.now.matrix ≡ pivot_example }
    ensures matrix { IfOk result (λ b. b.rows.matrix ≡ pivot_example) }
    ensures rows { IfOk result (λ b. b.rows ≡ rows.now) }
    ensures pairs { IfOk result (λ b. b.pairs ≡ pair 0 0 ∷ []) }
{
    let mut book = Book::empty(alloc, rows)?;
    book.reserve(1)?;
    book.push(Pair { row: 0, col: 0 });
    Ok(book)
}
