// Levels raised until they rise along each step.
ghost use Rattle.std.specs.Prelude.{◌≡◌, ◌<◌, ◌≤◌, ◌⊎◌, ℕ, [], length};
ghost use Rattle.std.specs.List.{Contains};
ghost use Rattle.sparse_rows.specs.Rows.{LARGEST_SIZE};
ghost use Rattle.pivot_table.specs.History.{Grown, HasCol};
ghost use Rattle.pivot_walks.specs.Budget.{StaysUnbounded};
ghost use Rattle.pivot_walks.specs.Levels.{AreLevels, AreRaised, AreRaisedBut};
ghost use Rattle.pivot_walks.specs.Raising.{CanRaiseAbove, IsRaisedAbove, Stays, work};

use crate::budget::Budget;
use crate::indexed_pairs::IndexedPairs;
use crate::levels::Levels;
use crate::marked_columns::MarkedColumns;

// Raises column d above the level of column c, if need be, where d stands in the row of the pair in column c. A column that is
// raised is marked.
fn raise_column(
    pivots: &IndexedPairs,
    levels: &mut Levels,
    marks: &mut MarkedColumns,
    c: u32,
    level: u32,
    d: u32,
)
    requires inside { d < pivots.now.rows.matrix.width }
    requires few { length pivots.now.pairs ≤ LARGEST_SIZE }
    requires can { CanRaiseAbove pivots.now levels.old marks.old c level }
    ensures can { CanRaiseAbove pivots.now levels.new marks.new c level }
    ensures raised { IsRaisedAbove c level d levels.old levels.new }
    ensures kept { (e : ℕ) → Contains marks.old.list e → Contains marks.new.list e }
    ensures marked { Stays levels.old levels.new d ⊎ (HasCol pivots.now.pairs d → Contains marks.new.list d) }
    ensures work { work pivots.now levels.new marks.new ≤ work pivots.now levels.old marks.old }
{
    if d == c || levels.at(d) > level {
        return;
    }
    levels.put(d, level + 1);
    if let Some(_row) = pivots.find(d) {
        marks.add(d);
    }
}

// Raises what column c leads to in a step above c.
fn raise_steps(
    pivots: &IndexedPairs,
    levels: &mut Levels,
    marks: &mut MarkedColumns,
    c: u32,
    budget: &mut Budget,
)
    requires grown { Grown pivots.now.rows.matrix pivots.now.pairs }
    requires inside { c < pivots.now.rows.matrix.width }
    requires width { marks.old.width ≡ pivots.now.rows.matrix.width }
    requires fresh { ¬ Contains marks.old.list c }
    requires levels { AreRaisedBut pivots.now c levels.old marks.old.list }
    ensures width { marks.new.width ≡ marks.old.width }
    ensures levels { AreRaised pivots.now.rows.matrix pivots.now.pairs levels.new marks.new.list }
    ensures work { work pivots.now levels.new marks.new ≤ work pivots.now levels.old marks.old }
    ensures unbounded { StaysUnbounded budget.old budget.new }
{
    let level = levels.at(c);
    if let Some(row) = pivots.find(c) {
        // Tells that there are few rows, and so few pairs.
        let rows = pivots.rows();
        rows.is_sound();
        let cols = rows.cols(row);
        budget.spend(cols.len());
        for k in 0..cols.len() {
            raise_column(pivots, levels, marks, c, level, cols[k]);
        }
    }
}

// Raises levels until they rise along each step, or the steps are spent.
pub(crate) fn raise_all(
    pivots: &IndexedPairs,
    levels: &mut Levels,
    marks: &mut MarkedColumns,
    budget: &mut Budget,
)
    requires grown { Grown pivots.now.rows.matrix pivots.now.pairs }
    requires width { marks.old.width ≡ pivots.now.rows.matrix.width }
    requires levels { AreRaised pivots.now.rows.matrix pivots.now.pairs levels.old marks.old.list }
    ensures width { marks.new.width ≡ marks.old.width }
    ensures none { 0 < budget.new → marks.new.list ≡ [] }
    ensures levels { 0 < budget.new → AreLevels pivots.now.rows.matrix pivots.now.pairs levels.new }
    ensures unbounded { StaysUnbounded budget.old budget.new }
{
    while let Some(c) = marks.pop() {
        raise_steps(pivots, levels, marks, c, budget);
        if budget.is_spent() {
            return;
        }
    }
}
