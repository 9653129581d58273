// What collects the entries of a matrix in any order.
ghost use Rattle.column_lists.specs.declared.sizes.TheConstants.{LARGEST_SIZE};
ghost use Rattle.std.specs.Prelude.{◌≡◌, ◌<◌, ◌≤◌, ◌++◌, ◌∷◌, [], map, IfOk, OnOk, OnErr};
ghost use Rattle.sparse_rows.specs.Cells.{ArePushed, triple_of};
ghost use Rattle.sparse_rows.specs.Rows.{built};

use crate::rows::Rows;
use matrix_cells::{Cell, OrderedCells, bring_near, make_room, stores_every_row, sum_cells};
use residue_words::Modulus;
use std::alloc::{AllocError, Global};
use std::marker::Model;

/// Collects the entries of a matrix in any order: what is pushed at one place is summed. It takes 12 bytes an entry and 8 bytes a row as
/// long as entries are pushed row after row by ascending columns, and 16 bytes an entry from the first one on that isn't, with room for
/// a quarter more: where the room grows it takes 27 or 36 bytes an entry for a moment.
#[derive(Debug, Drop)]
pub struct RowsBuilder {
    alloc: Global,
    modulus: Modulus,
    height: u32,
    width: u32,
    // What was pushed in order, and what came then.
    ordered: OrderedCells,
    cells: Vec<Cell>,
}

impl Model for RowsBuilder {
    ghost use Rattle.std.specs.Prelude.{◌++◌, map};
    ghost use Rattle.sparse_rows.specs.Cells.{ArePushed, triple_of};
    ghost use Rattle.sparse_rows.specs.Rows.{Building};

    ghost Value = { Building };

    ghost view = { λ b. record {
      modulus = b.modulus;
      height = b.height;
      width = b.width;
      pushed = map triple_of (b.ordered ++ b.cells.items);
    } };

    ghost invariant = { λ b. ArePushed b.modulus b.height b.width (b.ordered ++ b.cells.items) };
}

impl RowsBuilder {
    /// A builder of a matrix of m rows and n columns, which takes no memory.
    pub fn new(alloc: Global, m: u32, n: u32, p: Modulus) -> Result<RowsBuilder, AllocError>
        requires height { m ≤ LARGEST_SIZE }
        requires width { n ≤ LARGEST_SIZE }
        ensures { IfOk result (λ b. b ≡ record { modulus = p; height = m; width = n; pushed = [] }) }
    {
        // The call tells the range of the modulus.
        p.is_sound();
        Ok(RowsBuilder {
            alloc,
            modulus: p,
            height: m,
            width: n,
            ordered: OrderedCells::new(alloc),
            cells: Vec::new(alloc),
        })
    }

    /// Adds v at row i and column j, in constant time on average.
    #[inline(always)]
    pub fn push(&mut self, i: u32, j: u32, v: u64) -> Result<(), AllocError>
        requires row { i < self.old.height }
        requires column { j < self.old.width }
        requires residue { v < self.old.modulus }
        ensures ok { OnOk result (self.new ≡ record self.old {
          pushed = self.old.pushed ++ record { i = i; j = j; v = v } ∷ [];
        }) }
        ensures err { OnErr result (self.new ≡ self.old) }
    {
        if self.cells.is_empty() && self.ordered.takes(i, j) {
            return self.ordered.push(i, j, v);
        }
        make_room(&mut self.cells)?;
        self.cells.push(Cell::new(i, j, v))?;
        Ok(())
    }

    /// The matrix of the sums at each place. Where all was pushed in order, and the height is at most four times the pushed entries and
    /// some thousand, it is made in time proportional to the height; if a value was 0, the others are copied before. Else what was pushed
    /// is moved to its row and sorted within it, all in place: in time proportional to the pushed entries and the height where rows are
    /// short or pushed by ascending columns. While that runs it takes, beside 16 bytes a pushed entry and, at first, what was pushed in
    /// order, 16 bytes for each 512th row, and then 12 bytes a pushed entry and 8 bytes a row. Where the height is greater, all is sorted
    /// at once, in time and memory by the entries alone, whatever the height.
    pub fn finish(self) -> Result<Rows, AllocError>
        ensures modulus { IfOk result (λ rows. rows.modulus ≡ self.modulus) }
        ensures matrix { IfOk result (λ rows. rows.matrix
            ≡ built self.modulus self.height self.width self.pushed) }
    {
        let RowsBuilder {
            alloc,
            modulus,
            height,
            width,
            ordered,
            cells,
        } = self;
        if cells.is_empty() && ordered.are_stored(height) {
            let kept = ordered.without_zeros(alloc)?;
            kept.is_sound();
            return Rows::from_ordered(alloc, modulus, height, width, kept);
        }
        let cells = ordered.into_cells(alloc, cells)?;
        sum_up(alloc, modulus, height, width, cells)
    }
}

// The matrix of the sums of these cells at each place.
fn sum_up(
    alloc: Global,
    modulus: Modulus,
    height: u32,
    width: u32,
    mut cells: Vec<Cell>,
) -> Result<Rows, AllocError>
    requires { ArePushed modulus height width cells.items }
    ensures modulus { IfOk result (λ rows. rows.modulus ≡ modulus) }
    ensures matrix { IfOk result (λ rows. rows.matrix
        ≡ built modulus height width (map triple_of cells.items)) }
{
    if !stores_every_row(height, cells.len()) {
        return sort_and_sum(alloc, modulus, height, width, cells);
    }
    bring_near(alloc, height, &mut cells)?;
    match OrderedCells::sums_of(alloc, modulus, height, &cells)? {
        Some(sums) => Rows::from_ordered(alloc, modulus, height, width, sums),
        None => sort_and_sum(alloc, modulus, height, width, cells),
    }
}

// The same by a sort of all cells, in time and memory by the cells alone.
fn sort_and_sum(
    alloc: Global,
    modulus: Modulus,
    height: u32,
    width: u32,
    mut cells: Vec<Cell>,
) -> Result<Rows, AllocError>
    requires { ArePushed modulus height width cells.items }
    ensures modulus { IfOk result (λ rows. rows.modulus ≡ modulus) }
    ensures matrix { IfOk result (λ rows. rows.matrix
        ≡ built modulus height width (map triple_of cells.items)) }
{
    cells.sort_unstable_by_key(|c| c.place);
    let kept = sum_cells(&mut cells, modulus);
    Rows::from_cells(alloc, modulus, height, width, &cells[..kept])
}
