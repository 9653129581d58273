// Whether a trace is lawful.
ghost use Rattle.std.specs.Prelude.{◌≡◌, ◌≤◌, ◌<◌, ◌↔◌, [], ◌∷◌, ◌++◌, None, IfOk, IsTrue, if◌then◌else◌, length, slice_index};
ghost use Rattle.sparse_rows.specs.Rows.{AreEnough, narrowed, LARGEST_SIZE};
ghost use Rattle.pivot_table.specs.History.{Alive};
ghost use Rattle.optimistic_search.specs.Renamed.{AreInside, renamed};
ghost use Rattle.run_trace.specs.Lawful.{AreLawful, IsLawfulTrace};
ghost use Rattle.run_trace.specs.Replayed.{TriesPair};

use crate::publication::Publication;
use crate::trace::Trace;
use optimistic_search::{Steps, Walk};
use residue_words::plain::Pair;
use sparse_rows::Rows;
use std::alloc::{AllocError, Global};
use std::marker::Brand;
use std::sync::ledger::{Blank, Ledger};

/// Whether a trace is lawful for a matrix: its modulus is the matrix's, each of its pairs is alive in those before it, and the version of
/// each is at most its place, from 0. It is so for every modulus, and whoever wrote the trace.
///
/// It takes one walk a publication, each over the entries of its row and of the pivot rows that this reaches, and ends at the first pair
/// that isn't alive. A copy of the matrix without its columns of zeros is walked over: it takes 12 bytes an entry and 17 bytes a column that
/// has one, whichever sizes the matrix has and however long the trace is.
pub fn replay(alloc: Global, rows: &Rows, trace: &Trace) -> Result<bool, AllocError>
    ensures { IfOk result (λ lawful. IsTrue lawful
        ↔ IsLawfulTrace rows.now.modulus rows.now.matrix trace.now) }
{
    if trace.p != rows.modulus().p() {
        return Ok(false);
    }
    let publications = trace.publications.items();
    let lawful = replay_with::<Brand>(alloc, rows, publications, Blank::new(1))?;
    Ok(lawful)
}

// Whether the pairs and the versions are lawful, with a count of steps of its own.
fn replay_with<L: Ledger>(
    alloc: Global,
    rows: &Rows,
    publications: &[Publication],
    blank: Blank,
) -> Result<bool, AllocError>
    requires name { blank.name ≡ L.name }
    requires parts { blank.parts ≡ L.parts }
    requires some { 0 < blank.parts }
    ensures { IfOk result (λ lawful. IsTrue lawful ↔ AreLawful rows.now.matrix publications.now) }
{
    let columns = rows.occupied(alloc)?;
    let narrow = rows.narrowed(alloc, &columns)?;
    // The call's contract bounds the columns.
    narrow.is_sound();
    let mut walk = Walk::<L>::new(alloc, &narrow)?;
    let mut steps = Steps::<L>::new(blank);
    let lawful = are_lawful(rows, &columns, &mut walk, publications, &mut steps);
    Ok(lawful)
}

// Whether the pairs and the versions are lawful, by a walk over these columns alone.
fn are_lawful<L: Ledger>(
    rows: &Rows,
    columns: &[u32],
    walk: &mut Walk<'_, L>,
    publications: &[Publication],
    steps: &mut Steps<L>,
) -> bool
    requires enough { AreEnough rows.now.matrix columns.now }
    requires few { length columns.now ≤ LARGEST_SIZE }
    requires matrix { walk.old.rows.matrix ≡ narrowed rows.now.matrix columns.now }
    requires none { walk.old.pairs ≡ [] }
    requires closed { walk.old.current ≡ None }
    ensures { IsTrue result ↔ AreLawful rows.now.matrix publications.now }
{
    for k in 0..publications.len() {
        let Publication { pair, version } = publications[k];
        if version > k as u64 {
            return false;
        }
        if !append_named(rows, columns, walk, pair, steps) {
            return false;
        }
    }
    true
}

// Appends a pair to a walk over these columns alone, if it is alive. Answers whether it is.
fn append_named<L: Ledger>(
    rows: &Rows,
    columns: &[u32],
    walk: &mut Walk<'_, L>,
    pair: Pair,
    steps: &mut Steps<L>,
) -> bool
    requires enough { AreEnough rows.now.matrix columns.now }
    requires few { length columns.now ≤ LARGEST_SIZE }
    requires matrix { walk.old.rows.matrix ≡ narrowed rows.now.matrix columns.now }
    requires inside { AreInside (length columns.now) walk.old.pairs }
    requires closed { walk.old.current ≡ None }
    ensures alive { IsTrue result
        ↔ Alive rows.now.matrix (renamed (slice_index columns.now) walk.old.pairs) pair.row pair.col }
    ensures rows { walk.new.rows ≡ walk.old.rows }
    ensures inside { AreInside (length columns.now) walk.new.pairs }
    ensures closed { walk.new.current ≡ None }
    ensures pairs { renamed (slice_index columns.now) walk.new.pairs
        ≡ (if result then renamed (slice_index columns.now) walk.old.pairs ++ pair ∷ []
        else renamed (slice_index columns.now) walk.old.pairs) }
{
    if pair.row >= rows.height() {
        return false;
    }
    match columns.binary_search(&pair.col) {
        Ok(place) => {
            let narrow = Pair {
                row: pair.row,
                col: place as u32,
            };
            append(walk, narrow, steps)
        }
        Err(_) => false,
    }
}

// Appends a pair, if it is alive, with a walk from its row. Answers whether it is.
fn append<L: Ledger>(walk: &mut Walk<'_, L>, pair: Pair, steps: &mut Steps<L>) -> bool
    requires row { pair.row < walk.old.rows.matrix.height }
    requires col { pair.col < walk.old.rows.matrix.width }
    requires closed { walk.old.current ≡ None }
    ensures { TriesPair walk.old pair result walk.new }
{
    if !walk.has_candidate(pair.row) {
        return false;
    }
    walk.begin(pair.row, steps);
    if !walk.is_alive(pair.col) {
        walk.end();
        return false;
    }
    walk.extend(pair, steps);
    true
}
