// The rows in which one of two matrices has an entry.
ghost use Rattle.std.specs.Prelude.{◌≡◌, ◌+◌, ◌-◌};
ghost use Rattle.std.specs.Option.{MatchOption};
ghost use Rattle.sparse_rows.specs.Placed.{AreBothZeroFrom, IsFirstFilled, IsNextInEither, matrices_from};

use crate::rows::Rows;
use std::marker::Model;

/// Of two lent matrices of one height the rows in which one has an entry, one after another. Contracts see the matrices and
/// the row from which on the next one is looked for. All take time by the rows of which one has an entry, times a logarithm
/// for a matrix of which those alone are stored, and by the height where each row is.
#[derive(Debug, Drop)]
pub struct FilledInEither<'a> {
    left: &'a Rows,
    right: &'a Rows,
    from: u32,
    // The first rows of each from there on that have an entry. Only what was given is looked for again: a gap would else be gone
    // through once for each row that the other matrix has there.
    left_next: Option<u32>,
    right_next: Option<u32>,
}

impl<'a> Model for FilledInEither<'a> {
    ghost use Rattle.sparse_rows.specs.Placed.{AreFirstFilled, MatricesFrom, matrices_from};

    ghost Value = { MatricesFrom };

    ghost view = { λ f. matrices_from f.left.now.matrix f.right.now.matrix f.from };

    ghost invariant = { λ f.
        AreFirstFilled f.left.now.matrix f.right.now.matrix f.from f.left_next f.right_next };
}

impl<'a> FilledInEither<'a> {
    /// Those of these matrices, from the first row on.
    pub fn of(left: &'a Rows, right: &'a Rows) -> FilledInEither<'a>
        requires { left.now.matrix.height ≡ right.now.matrix.height }
        ensures { result ≡ matrices_from left.now.matrix right.now.matrix 0 }
    {
        FilledInEither {
            left,
            right,
            from: 0,
            left_next: left.next_filled(0),
            right_next: right.next_filled(0),
        }
    }

    /// The next row in which one of the matrices has an entry, if there is one.
    pub fn next_row(&mut self) -> Option<u32>
        ensures row { MatchOption result (AreBothZeroFrom self.old.left self.old.right self.old.from)
            (IsNextInEither self.old.left self.old.right self.old.from) }
        ensures after { MatchOption result (self.new ≡ self.old)
            (λ i. self.new ≡ matrices_from self.old.left self.old.right (i + 1)) }
    {
        // The proof that i + 1 is no overflow wants to know how high a matrix is.
        self.left.is_sound();
        let Some(i) = self.upcoming() else {
            return None;
        };
        self.from = i + 1;
        self.left_next = next_from(self.left, self.left_next, self.from);
        self.right_next = next_from(self.right, self.right_next, self.from);
        Some(i)
    }

    // The row that is next.
    fn upcoming(&self) -> Option<u32>
        ensures { MatchOption result (AreBothZeroFrom self.now.left self.now.right self.now.from)
            (IsNextInEither self.now.left self.now.right self.now.from) }
    {
        let Some(i) = self.left_next else {
            return self.right_next;
        };
        let Some(j) = self.right_next else {
            return Some(i);
        };
        Some(i.min(j))
    }
}

// The first row from `from` on that has an entry, where `next` is the first from the row before on.
fn next_from(rows: &Rows, next: Option<u32>, from: u32) -> Option<u32>
    requires { IsFirstFilled rows.now.matrix (from - 1) next }
    ensures { IsFirstFilled rows.now.matrix from result }
{
    let Some(i) = next else {
        return None;
    };
    if i < from {
        return rows.next_filled(from);
    }
    Some(i)
}
