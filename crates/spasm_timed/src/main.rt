//! Times what the documents give figures of: multiples of rows added, the factors of a matrix, its structural pivots, a certificate of
//! its rank, and texts read and written.
//!
//! The words say which: `lanes`, `factors P WORKERS`, `pivots WORKERS`, `walks`, `board WORKERS`, `rounds WORKERS`, `certified`, `read P`
//! or `write P`, where P is a modulus; all but the first read a matrix from standard input. Times are in microseconds. With other words,
//! or with none, one line says these.
#![tactic(auto)]

ghost use Rattle.std.specs.Prelude.{◌≤◌};

mod added_rows;
mod certified;
mod counts;
mod factored;
mod rounds;
mod searched;
mod texts;
mod timing;

use added_rows::time_additions;
use certified::time_certificate;
use factored::time_factors;
use pluq_factor::Plan;
use residue_words::{MODULUS_BOUND, Modulus};
use rounds::time_rounds;
use searched::{time_board, time_pivots, time_walks};
use sparse_rows::Rows;
use std::alloc::Global;
use std::io::{self, Read, Write};
use std::process::ExitCode;
use std::thread::Threads;
use std::time::Clock;
use std_edge::words_of;
use texts::{matrix, time_reading, time_writing};
use timing::{Part, Timing};

// How many structural rounds there are, as the program has it without an option.
const ROUNDS: u32 = 3;

fn main(rt: HostRuntime) -> ExitCode {
    let Ok(words) = words_of(&rt) else {
        return ExitCode::from(2);
    };
    let task = Timing::asked(&words);
    match perform(&rt, rt.alloc(), task, rt.stdin(), rt.stdout()) {
        Ok(()) => ExitCode::from(0),
        Err(_) => ExitCode::from(1),
    }
}

// Does what was asked.
fn perform<R: Threads + Sync + Clock + Print + Eprint, I: Read + Drop, O: Write + Drop>(
    rt: &R,
    alloc: Global,
    task: Option<Timing>,
    input: I,
    output: O,
) -> io::Result<()> {
    match task {
        Some(Timing::Lanes) => time_additions(rt),
        Some(Timing::Read(p)) if 2 <= p && p < MODULUS_BOUND => {
            time_reading(rt, alloc, input, &Modulus::new(p))
        }
        Some(Timing::Write(p)) if 2 <= p && p < MODULUS_BOUND => {
            time_writing(rt, alloc, input, output, &Modulus::new(p))
        }
        Some(Timing::Work(part, p, workers))
            if 2 <= p && p < MODULUS_BOUND && 1 <= workers && workers <= 64 => {
            let rows = matrix(alloc, input, &Modulus::new(p))?;
            time_part(rt, alloc, &rows, part, workers)
        }
        _ => println!(rt;
            "spasm_timed lanes | factors P WORKERS | pivots WORKERS | walks | board WORKERS | \
             rounds WORKERS | certified | read P | write P"
        ),
    }
}

// Times a part of the work on a matrix.
fn time_part<R: Threads + Sync + Clock + Print>(
    rt: &R,
    alloc: Global,
    rows: &Rows,
    part: Part,
    workers: u32,
) -> io::Result<()>
    requires { 1 ≤ workers }
{
    let plan = Plan {
        workers,
        rounds: ROUNDS,
    };
    match part {
        Part::Factors => time_factors(rt, alloc, rows, workers),
        Part::Pivots => time_pivots(rt, alloc, rows, workers),
        Part::Walks => time_walks(rt, alloc, rows),
        Part::Board => time_board(rt, alloc, rows, workers),
        Part::Rounds => time_rounds(rt, alloc, rows, plan),
        Part::Certified => time_certificate(rt, alloc, rows, plan),
    }
}
