// Which columns are marked, by bits.
ghost use Rattle.std.specs.Prelude.{ℕ, ◌≡◌, ◌≢◌, ◌<◌, ◌*◌, length, slice_index, slice_set, IfOk, IfSome, IfNone, IsTrue, IsFalse};
ghost use Rattle.column_lists.specs.ColumnSet.{AllZero, AreTops, IsFirstWord, IsLowest, TakesFirst};

use std::alloc::{AllocError, Global};
use std::marker::Model;

/// A set of columns that gives out the first one, as a queue without copies. Contracts see a list with 1 at the marked
/// columns and 0 at the others.
///
/// It takes a bit a column and one more for 64 columns. These are two levels: where a bit of the upper level is 0, a word
/// of the lower one is, so that looking for the first mark passes over 4096 columns a step.
#[derive(Debug, Drop)]
pub struct ColumnSet {
    count: u32,
    words: Vec<u64>,
    tops: Vec<u64>,
    // No word before this one has a mark.
    first: usize,
}

impl Model for ColumnSet {
    ghost use Rattle.std.specs.Prelude.{List, ℕ};
    ghost use Rattle.column_lists.specs.ColumnSet.{IsMarks, marks_of};

    ghost Value = { List ℕ };

    ghost view = { λ m. marks_of m.count m.words.items };

    ghost invariant = { λ m. IsMarks m.count m.words.items m.tops.items m.first };
}

impl ColumnSet {
    /// n columns, none of them marked.
    pub fn new(alloc: Global, n: u32) -> Result<ColumnSet, AllocError>
        ensures length { IfOk result (λ marks. length marks ≡ n) }
        ensures none { IfOk result AllZero }
    {
        let last = n as usize / 64;
        Ok(ColumnSet {
            count: n,
            words: vec![in alloc; 0; last + 1]?,
            tops: vec![in alloc; 0; last / 64 + 1]?,
            first: last,
        })
    }

    /// Marks column j, which may be marked already. It takes no memory.
    pub fn mark(&mut self, j: u32)
        requires { j < length self.old }
        ensures { self.new ≡ slice_set self.old j 1 }
    {
        let w = j / 64;
        let word = self.words[w as usize];
        self.words[w as usize] = word | (1 << (j % 64));
        if word == 0 {
            let t = w / 64;
            self.tops[t as usize] |= 1 << (w % 64);
            self.first = self.first.min(w as usize);
        }
    }

    /// Takes the first mark away, and answers its column. What has been passed over is not looked at again before a mark is
    /// set there.
    pub fn pop(&mut self) -> Option<u32>
        ensures some { IfSome result (λ j. TakesFirst self.old self.new j 1) }
        ensures none { IfNone result ((self.new ≡ self.old) × AllZero self.old) }
    {
        if !seek(&self.words, &mut self.tops, &mut self.first) {
            return None;
        }
        let w = self.first;
        let word = self.words[w];
        let k = lowest_bit(word);
        self.words[w] = word & (word - 1);
        Some((64 * w) as u32 + k)
    }
}

// Moves `first`, before which all words are 0, to the first that isn't. The answer is whether there is one.
fn seek(words: &[u64], tops: &mut [u64], first: &mut usize) -> bool
    requires inside { first.old < length words.now }
    requires behind { (w : ℕ) → w < first.old → slice_index words.now w ≡ 0 }
    requires tops { AreTops words.now tops.old }
    ensures inside { first.new < length words.now }
    ensures tops { AreTops words.now tops.new }
    ensures some { IsTrue result → IsFirstWord words.now first.new }
    ensures none { IsFalse result → AllZero words.now }
{
    if words[*first] != 0 {
        return true;
    }
    match next_word(words, tops, *first / 64) {
        Some(w) => {
            *first = w;
            true
        }
        // The next mark that is set is then the first.
        None => {
            *first = words.len() - 1;
            false
        }
    }
}

// The first word that isn't 0, where none before those of top `from` is. The bits of words that are 0 are cleared on the way.
fn next_word(words: &[u64], tops: &mut [u64], from: usize) -> Option<usize>
    requires behind { (w : ℕ) → w < 64 * from → slice_index words.now w ≡ 0 }
    requires tops { AreTops words.now tops.old }
    ensures tops { AreTops words.now tops.new }
    ensures some { IfSome result (IsFirstWord words.now) }
    ensures none { IfNone result (AllZero words.now) }
{
    let mut t = from;
    while t < tops.len() {
        let top = tops[t];
        if top == 0 {
            t += 1;
        } else {
            let k = lowest_bit(top) as usize;
            let w = 64 * t + k;
            if words[w] != 0 {
                return Some(w);
            }
            tops[t] = top & (top - 1);
        }
    }
    None
}

// The place of the lowest bit that is set.
fn lowest_bit(word: u64) -> u32
    requires { word ≢ 0 }
    ensures { IsLowest word result }
{
    word.trailing_zeros()
}
