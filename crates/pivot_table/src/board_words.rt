// The words of a board: pairs and marks, written when it is made and read back when no thread shares them any more.
ghost use Rattle.std.specs.Prelude.{◌≡◌, ◌+◌, ◌<◌, ◌≤◌, [], List, length, drop, replicate, vec_capacity};
ghost use Rattle.std.specs.Mem.Slots.{slots_items, slots_len, IsFull};
ghost use Rattle.std.specs.List.{Contains};
ghost use Rattle.residue_words.specs.declared.plain.Pair.{Pair};
ghost use Rattle.pivot_table.specs.Core.{Mark};
ghost use Rattle.pivot_table.specs.Closing.{CellsSay, SayDone, SayStarts, is_done, start_of};
ghost use Rattle.pivot_table.specs.Rule.{SpellsOpening, mark_word, pair_of, pair_word, rows_at};

use crate::book::Book;
use atomic_table::Closed;
use residue_words::plain::Pair;
use std::alloc::Global;

// The word of a pair, and the pair of a word that isn't 0.
pub(crate) fn word_of_pair(pair: Pair) -> u64
    requires { pair.row < 4294967295 }
    ensures { result ≡ pair_word pair }
{
    (pair.row as u64 + 1) * 4294967296 + pair.col as u64
}

pub(crate) fn pair_at(word: u64) -> Pair
    requires { 4294967296 ≤ word }
    ensures { result ≡ pair_of word }
{
    Pair {
        row: (word / 4294967296 - 1) as u32,
        col: (word % 4294967296) as u32,
    }
}

// The words that a board begins with.
pub(crate) fn spell(book: &Book<'_>, words: &mut [u64])
    requires { words.old ≡ replicate (rows_at book.now.rows.matrix + book.now.rows.matrix.height) 0 }
    ensures { SpellsOpening book.now.rows.matrix words.new book.now.pairs }
{
    let rows = book.rows();
    let first = rows.height().min(rows.width()) as usize + 1;
    let pairs = book.pairs();
    for k in 0..pairs.len() {
        words[k] = word_of_pair(pairs[k]);
        words[first + pairs[k].row as usize] = 2;
    }
}

// The history.
pub(crate) fn read_cells(closed: &Closed<(), Global>, cells: usize, pairs: &mut Vec<Pair>)
    requires empty { pairs.old.items ≡ [] }
    requires room { cells ≤ vec_capacity pairs.old }
    requires words { IsFull closed.now.words × (cells ≤ slots_len closed.now.words) }
    requires some { (h : List Pair) × CellsSay (slots_items closed.now.words) cells h }
    ensures room { cells ≤ vec_capacity pairs.new }
    ensures read { (h : List Pair) → CellsSay (slots_items closed.now.words) cells h → pairs.new.items ≡ h }
{
    for k in 0..cells {
        let found = closed.word(k);
        if found == 0 {
            break;
        }
        pairs.push_reserved(pair_at(found));
    }
}

// Whether the word of a row says done, and the start that it says.
fn says_done(word: u64) -> bool
    ensures { (x : Mark) → word ≡ mark_word x → result ≡ is_done x }
{
    word != 0 && word % 2 == 0
}

fn start_said(word: u64) -> u64
    ensures { (x : Mark) → word ≡ mark_word x → result ≡ start_of x }
{
    word.saturating_sub(1) / 2
}

// Which rows are done.
pub(crate) fn read_marks(
    closed: &Closed<(), Global>,
    first: usize,
    height: usize,
    done: &mut Vec<bool>,
)
    requires empty { done.old.items ≡ [] }
    requires room { height ≤ vec_capacity done.old }
    requires words { IsFull closed.now.words × (first + height ≤ slots_len closed.now.words) }
    ensures read { SayDone (slots_items closed.now.words) first height done.new.items }
{
    for r in 0..height {
        let word = closed.word(first + r);
        done.push_reserved(says_done(word));
    }
}

// The starts of the rows of these pairs, from a place on.
pub(crate) fn read_starts(
    closed: &Closed<(), Global>,
    first: usize,
    from: usize,
    pairs: &[Pair],
    starts: &mut Vec<u64>,
)
    requires empty { starts.old.items ≡ [] }
    requires room { length pairs.now ≤ vec_capacity starts.old }
    requires from { from ≤ length pairs.now }
    requires words { IsFull closed.now.words }
    requires inside { (q : Pair) → Contains pairs.now q → first + q.row < slots_len closed.now.words }
    ensures read { SayStarts (slots_items closed.now.words) (slots_len closed.now.words) first
        (drop from pairs.now) starts.new.items }
{
    for k in from..pairs.len() {
        let word = closed.word(first + pairs[k].row as usize);
        starts.push_reserved(start_said(word));
    }
}
