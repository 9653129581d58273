// What is to be timed, and how long it took.
use crate::texts::PRIME;
use std::io::{self, ErrorKind};
use std::time::{Clock, Instant};

// A part of the work on a matrix.
#[derive(Clone, Copy)]
pub(crate) enum Part {
    // Its factors.
    Factors,
    // Its structural pivots.
    Pivots,
    // The same by a walk from each row, in steps.
    Walks,
    // The same on a board, in steps.
    Board,
    // Its rank, and the rounds that lead to it.
    Rounds,
    // A certificate of its rank, made and checked.
    Certified,
}

#[derive(Clone, Copy)]
pub(crate) enum Timing {
    // Multiples of rows added, by lanes and plainly.
    Lanes,
    // The matrix on standard input read, modulo this.
    Read(u64),
    // The same matrix written.
    Write(u64),
    // A part of the work on the same matrix, modulo this by so many workers.
    Work(Part, u64, u32),
}

impl Part {
    // The part that a word names, if it does.
    fn named(word: &str) -> Option<Part> {
        match word {
            "factors" => Some(Part::Factors),
            "pivots" => Some(Part::Pivots),
            "walks" => Some(Part::Walks),
            "board" => Some(Part::Board),
            "rounds" => Some(Part::Rounds),
            "certified" => Some(Part::Certified),
            _ => None,
        }
    }

    // What the words with it ask for, if they do.
    fn asked(self, words: &[String]) -> Option<Timing> {
        match (self, words.len()) {
            (Part::Walks | Part::Certified, 1) => Some(Timing::Work(self, PRIME, 1)),
            (Part::Pivots | Part::Board | Part::Rounds, 2) => {
                Some(Timing::Work(self, PRIME, workers_at(words, 1)?))
            }
            (Part::Factors, 3) => {
                let p = number_at(words, 1)?;
                Some(Timing::Work(self, p, workers_at(words, 2)?))
            }
            _ => None,
        }
    }
}

impl Timing {
    // What these words ask for, if they do.
    pub(crate) fn asked(words: &[String]) -> Option<Timing> {
        let task = words.first()?.as_str();
        match (task, words.len()) {
            ("lanes", 1) => Some(Timing::Lanes),
            ("read", 2) => Some(Timing::Read(number_at(words, 1)?)),
            ("write", 2) => Some(Timing::Write(number_at(words, 1)?)),
            _ => Part::named(task)?.asked(words),
        }
    }
}

// The number that the word at this place says, if it says one.
fn number_at(words: &[String], place: usize) -> Option<u64> {
    words.get(place).and_then(|word| word.parse::<u64>().ok())
}

// The number of workers that it says.
fn workers_at(words: &[String], place: usize) -> Option<u32> {
    u32::try_from(number_at(words, place)?).ok()
}

// What the clock shows, unless it fails.
pub(crate) fn now<R: Clock>(rt: &R) -> Option<Instant> {
    Instant::now(rt).ok()
}

// How many microseconds have passed, unless the clock failed.
pub(crate) fn since<R: Clock>(rt: &R, start: Option<Instant>) -> Option<u128> {
    match start?.elapsed(rt) {
        Ok(time) => Some(time.as_micros()),
        Err(_) => None,
    }
}

// Says these numbers on one line, the first of which is a time, if the clock told all.
pub(crate) fn say<R: Print>(rt: &R, time: Option<u128>, others: &[Option<u128>]) -> io::Result<()> {
    print!(rt; "{}", told(time)?)?;
    for number in others {
        print!(rt; " {}", told(*number)?)?;
    }
    println!(rt; "")
}

// What the clock told.
pub(crate) fn told(number: Option<u128>) -> io::Result<u128> {
    match number {
        Some(number) => Ok(number),
        None => Err(ErrorKind::Other.into()),
    }
}
