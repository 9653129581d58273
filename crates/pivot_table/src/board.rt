// A history that several threads grow, on words that change in single steps.
ghost use Rattle.std.specs.Prelude.{◌≡◌, ℕ, ◌+◌, ◌<◌, false, MatchBool, None, length, IfOk};
ghost use Rattle.std.specs.List.{Contains};
ghost use Rattle.pivot_table.specs.Board.{IsSeatOf};
ghost use Rattle.pivot_table.specs.Book.{HasRoom};
ghost use Rattle.pivot_table.specs.Calls.{Claims, Finishes, IsOutcome, MayFinish, MayPublish};
ghost use Rattle.pivot_table.specs.Closing.{AreAmongStarts, AreStartsFrom, IsDone};
ghost use Rattle.pivot_table.specs.Last.{IsLast};
ghost use Rattle.pivot_table.specs.Core.{meeting, opened, parting, splitting, joining};
ghost use Rattle.pivot_table.specs.History.{StandsOrIsDead, StartsWith};
ghost use Rattle.pivot_table.specs.Rule.{rows_at};

use crate::board_rule::{BoardLaw, BoardPart, Both, Claim, Finish, Look, Publish};
use crate::board_words::{pair_at, read_cells, read_marks, read_starts, spell, word_of_pair};
use crate::book::Book;
use crate::closed_board::Closed;
use crate::marks::Marks;
use crate::seat::Seat;
use crate::starts::Starts;
use crate::view::View;
use atomic_table::Table;
use residue_words::plain::Pair;
use sparse_rows::Rows;
use std::alloc::{AllocError, Global};
use std::marker::Model;

/// What a try to publish came to.
#[derive(Clone, Copy, Debug, PartialEq, Eq)]
pub enum Outcome {
    /// The pair stands at this place of the history.
    Published(u64),
    /// Another seat was first: this is the pair that comes next behind what the seat had seen.
    Newer(Pair),
}

/// A history that several seats grow at once, without a lock: a word for each place of the history and one for each row, each of
/// which changes in single atomic steps. Contracts see the matrix, the pairs that the board began with, and for each seat what
/// it knows.
///
/// It takes 9 bytes a row and 24 bytes a pair that there can be, and 8 more for each of these while it is made. No other call
/// takes memory, and none waits for another thread. All but `close`, which goes over the words once, take constant time.
#[derive(Drop)]
pub struct Board<'a> {
    table: Table<(), View, Book<'a>, BoardLaw, Global>,
    rows: &'a Rows,
    first: u64,
    pairs: Vec<Pair>,
    done: Vec<bool>,
    starts: Vec<u64>,
}

impl<'a> Model for Board<'a> {
    ghost use Rattle.std.specs.Prelude.{◌≡◌, ◌+◌, ◌≤◌, [], length, min, vec_capacity};
    ghost use Rattle.pivot_table.specs.Board.{BoardState};
    ghost use Rattle.pivot_table.specs.Rule.{rows_at};

    ghost Value = { BoardState };

    ghost view = { λ b. record {
      table = b.table.shared.table_id;
      rows = b.rows.now;
      pairs = b.table.shared.key.pairs;
    } };

    ghost invariant = { λ b. (b.rows.now ≡ b.table.shared.key.rows) × (b.table.shared.table_id.slots ≡ 0)
        × (b.pairs.items ≡ [])
        × (min b.rows.now.matrix.height b.rows.now.matrix.width ≤ vec_capacity b.pairs)
        × (b.table.shared.table_id.words ≡ rows_at b.rows.now.matrix + b.rows.now.matrix.height)
        × (b.done.items ≡ []) × (b.rows.now.matrix.height ≤ vec_capacity b.done)
        × (b.starts.items ≡ [])
        × (min b.rows.now.matrix.height b.rows.now.matrix.width ≤ vec_capacity b.starts)
        × (b.first ≡ length b.table.shared.key.pairs) };
}

impl<'a> Board<'a> {
    /// The shared history, which begins with the book's pairs: their rows are done, all others are free. Only this call takes memory.
    pub fn new(alloc: Global, book: &Book<'a>) -> Result<(Board<'a>, Seat), AllocError>
        ensures board { IfOk result (λ t. (t.0.rows ≡ book.now.rows) × (t.0.pairs ≡ book.now.pairs)) }
        ensures seat { IfOk result (λ t. IsSeatOf t.0 t.1 × (t.1.number ≡ 0)
            × (t.1.chair ≡ opened book.now.pairs)) }
    {
        let rows = book.rows();
        let height = rows.height() as usize;
        let cells = rows.height().min(rows.width()) as usize;
        let mut words = vec![in alloc; 0u64; cells + 1 + height]?;
        spell(book, words.as_mut_slice());
        let pairs = Vec::with_capacity(alloc, cells)?;
        let done = Vec::with_capacity(alloc, height)?;
        let starts = Vec::with_capacity(alloc, cells)?;
        let first = book.pairs().len() as u64;
        let (table, token) = Table::of_words(alloc, words.as_slice(), book)?;
        Ok((
            Board {
                table,
                rows,
                first,
                pairs,
                done,
                starts,
            },
            Seat {
                token,
                seen: first,
                row: None,
                start: 0,
            },
        ))
    }

    /// The matrix.
    pub fn rows(&self) -> &'a Rows
        ensures { result.now ≡ self.now.rows }
    {
        self.rows
    }

    // The word of a row.
    fn word_of(&self, row: u32) -> usize
        ensures value { result ≡ rows_at self.now.rows.matrix + row }
        ensures small { result < 8589934592 }
    {
        self.rows.height().min(self.rows.width()) as usize + 1 + row as usize
    }

    /// Takes a row in hand, and says whether it did. It did not where another seat has or had the row, or a pair of the board's
    /// beginning has it.
    pub fn claim(&self, seat: &mut Seat, row: u32) -> bool
        requires seat { IsSeatOf self.now seat.old }
        requires row { row < self.now.rows.matrix.height }
        requires idle { seat.old.chair.hand ≡ None }
        ensures seat { IsSeatOf self.now seat.new }
        ensures number { seat.new.number ≡ seat.old.number }
        ensures chair { MatchBool result (Claims seat.old.chair row seat.new.chair)
            (seat.new.chair ≡ meeting seat.old.chair row) }
    {
        let word = self.word_of(row);
        let was = self
            .table
            .shared
            .compare_exchange::<Claim>(&mut seat.token, word, 0, 2 * seat.seen + 1);
        if was == 0 {
            seat.row = Some(row);
            seat.start = seat.seen;
            true
        } else {
            false
        }
    }

    /// Publishes the row in hand at its least alive column, or sees the pair that another seat published meanwhile. The row then
    /// stays in hand.
    pub fn publish(&self, seat: &mut Seat, col: u32) -> Outcome
        requires seat { IsSeatOf self.now seat.old }
        requires unpublished { seat.old.chair.published ≡ false }
        requires alive { MayPublish self.now.rows.matrix seat.old.chair col }
        ensures seat { IsSeatOf self.now seat.new }
        ensures number { seat.new.number ≡ seat.old.number }
        ensures chair { IsOutcome self.now.rows.matrix seat.old.chair col result seat.new.chair }
    {
        let Some(row) = seat.row else { unreachable!() };
        // its range
        self.rows.is_sound();
        let place = seat.seen;
        let found = self.table.shared.compare_exchange::<Publish>(
            &mut seat.token,
            place as usize,
            0,
            word_of_pair(Pair { row, col }),
        );
        seat.seen = place + 1;
        if found == 0 {
            Outcome::Published(place)
        } else {
            Outcome::Newer(pair_at(found))
        }
    }

    /// Lets go of the row in hand, which is published or dead in what the seat has seen.
    pub fn finish_row(&self, seat: &mut Seat)
        requires seat { IsSeatOf self.now seat.old }
        requires settled { MayFinish self.now.rows.matrix seat.old.chair }
        ensures seat { IsSeatOf self.now seat.new }
        ensures number { seat.new.number ≡ seat.old.number }
        ensures chair { Finishes seat.old.chair seat.new.chair }
    {
        let Some(row) = seat.row else { unreachable!() };
        let word = self.word_of(row);
        self.table
            .shared
            .store::<Finish>(&mut seat.token, word, 2 * seat.start + 2);
        seat.row = None;
        seat.start = 0;
    }

    /// A second seat, which has seen the same.
    pub fn split(&self, seat: &mut Seat) -> Seat
        requires { IsSeatOf self.now seat.old }
        ensures old_seat { IsSeatOf self.now seat.new }
        ensures old_number { seat.new.number ≡ seat.old.number }
        ensures old_chair { seat.new.chair ≡ parting seat.old.chair }
        ensures seat { IsSeatOf self.now result }
        ensures chair { result.chair ≡ splitting seat.old.chair }
    {
        let token = self.table.shared.split_seat::<BoardPart>(&mut seat.token);
        Seat {
            token,
            seen: seat.seen,
            row: None,
            start: 0,
        }
    }

    /// The seat takes over what the other has seen, published and finished. What it has seen then begins with what each of the two
    /// had seen.
    pub fn join(&self, seat: &mut Seat, other: Seat)
        requires seat { IsSeatOf self.now seat.old }
        requires other { IsSeatOf self.now other }
        requires idle { other.chair.hand ≡ None }
        ensures seat { IsSeatOf self.now seat.new }
        ensures number { seat.new.number ≡ seat.old.number }
        ensures chair { seat.new.chair ≡ joining seat.old.chair other.chair }
        ensures begins { StartsWith seat.new.chair.seen seat.old.chair.seen
            × StartsWith seat.new.chair.seen other.chair.seen }
    {
        let Seat {
            token,
            seen,
            row: _,
            start: _,
        } = other;
        self.table.shared.join_seat::<Both>(&mut seat.token, token);
        // It tells that of the two lists the longer begins with the shorter.
        let _ = self.table.shared.load::<Look>(&mut seat.token, 0);
        if seat.seen < seen {
            seat.seen = seen;
        }
    }

    /// Ends the board, and gives the history with what became of the rows.
    pub fn close(self, seat: Seat) -> Closed<'a>
        requires { IsSeatOf self seat }
        ensures rows { result.book.rows ≡ self.entry.rows }
        ensures room { HasRoom self.entry.rows.matrix result.book }
        ensures begins { StartsWith result.book.pairs self.entry.pairs
            × StartsWith result.book.pairs seat.chair.seen }
        ensures tall { length result.done ≡ self.entry.rows.matrix.height }
        ensures settled { (r : ℕ) → IsDone result.done r
            → StandsOrIsDead self.entry.rows.matrix result.book.pairs r }
        ensures finished { (r : ℕ) → Contains seat.chair.finished r → IsDone result.done r }
        ensures starts { AreStartsFrom (length self.entry.pairs) (length result.book.pairs) result.starts }
        ensures places { AreAmongStarts seat.chair.places result.starts }
        ensures last { IsLast self.entry.rows.matrix self.entry.pairs seat result }
    {
        let Board {
            table,
            rows,
            first,
            mut pairs,
            mut done,
            mut starts,
        } = self;
        let Seat {
            token,
            seen: _,
            row: _,
            start: _,
        } = seat;
        let height = rows.height() as usize;
        let cells = rows.height().min(rows.width()) as usize;
        let words = table.close_with(token);
        read_cells(&words, cells, &mut pairs);
        read_marks(&words, cells + 1, height, &mut done);
        read_starts(
            &words,
            cells + 1,
            first as usize,
            pairs.as_slice(),
            &mut starts,
        );
        words.free();
        Closed {
            book: Book::of(rows, pairs),
            done: Marks::of(done),
            starts: Starts::of(first, starts),
        }
    }
}
