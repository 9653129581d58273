// Runs on inputs whose answers are known from outside: how they are made, and what is known of them.
ghost use Rattle.std.specs.Prelude.{◌<◌, ◌≤◌};
ghost use Rattle.sms_text.specs.declared.reader.TheConstants.{LARGEST_INPUT};

mod inputs;
mod outputs;

use optimistic_search::Open;
use sms_text::{LARGEST_INPUT, MemorySink, MemorySource};
use spasm_run::{Status, run_within};
use std::alloc::{AllocError, Global};
use std::process::Abort;
use std::test::Fail;
use std::thread::Threads;

// The third row is the sum of the first two.
pub const X: &str = "3 3 M\n1 1 2\n1 2 4\n1 3 1\n2 1 1\n2 2 2\n3 1 3\n3 2 6\n3 3 1\n0 0 0\n";

// A matrix that has an inverse modulo 7.
pub const Y: &str = "3 3 M\n1 1 1\n2 1 1\n2 2 1\n2 3 1\n3 1 1\n3 2 1\n3 3 2\n0 0 0\n";

// X, and a right-hand side for which there is no solution.
const X_UNSOLVED: &str =
    "3 3 M\n1 1 2\n1 2 4\n1 3 1\n2 1 1\n2 2 2\n3 1 3\n3 2 6\n3 3 1\n0 0 0\n3 1 M\n3 1 1\n0 0 0\n";

// What a run came to.
#[derive(Drop)]
pub struct Outcome {
    pub status: Status,
    pub source: MemorySource,
    pub out: MemorySink,
    pub err: MemorySink,
}

// How the streams of a run behave: the most bytes that are read, pieces, the room of the output, and the pull, the put to the output
// and the put to the error stream that fail.
#[derive(Clone, Copy)]
pub struct Streams {
    pub limit: u64,
    pub piece: usize,
    pub pull: u64,
    pub room: usize,
    pub put_piece: usize,
    pub put: u64,
    pub err_put: u64,
}

// Streams that never fail.
pub const CALM: Streams = Streams {
    limit: LARGEST_INPUT,
    piece: 64,
    pull: 0,
    room: 256,
    put_piece: 64,
    put: 0,
    err_put: 0,
};

fn list(alloc: Global, fails: u64) -> Result<Vec<u64>, AllocError> {
    let mut list = Vec::new(alloc);
    if fails > 0 {
        list.push(fails)?;
    }
    Ok(list)
}

// A text that comes in pieces.
fn source_of(alloc: Global, text: &[u8], streams: &Streams) -> Result<MemorySource, AllocError>
    requires piece { 0 < streams.now.piece }
{
    let fails = list(alloc, streams.pull)?;
    let text = Vec::from_slice(alloc, text)?;
    Ok(MemorySource::new(text, streams.piece, fails))
}

// A sink with so much room, that fails in one call, if any.
fn sink_of(alloc: Global, room: usize, piece: usize, fails: u64) -> Result<MemorySink, AllocError>
    requires { 0 < piece }
{
    let fails = list(alloc, fails)?;
    MemorySink::new(alloc, room, piece, fails)
}

pub fn run_on<'a, R: Threads + Sync>(
    rt: &R,
    alloc: Global,
    words: &'a [&'a str],
    text: &[u8],
    streams: &Streams,
) -> Result<Outcome, AllocError>
    requires limit { streams.now.limit ≤ LARGEST_INPUT }
    requires piece { 0 < streams.now.piece }
    requires put_piece { 0 < streams.now.put_piece }
{
    let mut source = source_of(alloc, text, streams)?;
    let mut out = sink_of(alloc, streams.room, streams.put_piece, streams.put)?;
    let mut err = sink_of(alloc, 64, 64, streams.err_put)?;
    let status = run_within(
        rt,
        alloc,
        words,
        &mut source,
        &mut out,
        &mut err,
        &Open,
        streams.limit,
    );
    Ok(Outcome {
        status,
        source,
        out,
        err,
    })
}

// A run that is known: its words, its input and its streams; how it ends, what its output holds then, and what its error stream tells.
#[derive(Drop)]
struct Trial<'a> {
    words: &'a [&'a str],
    text: &'a [u8],
    streams: Streams,
    status: Status,
    out: &'a [u8],
    told: &'a [u8],
}

// Whether a run came to what is known of it.
fn ends_so(ran: &Outcome, trial: &Trial<'_>) -> bool {
    ran.status == trial.status && ran.out.content() == trial.out && ran.err.content() == trial.told
}

fn check<'a, R: Threads + Sync + Abort>(
    rt: &R,
    alloc: Global,
    trial: &'a Trial<'a>,
) -> Result<(), Fail>
    requires limit { trial.now.streams.limit ≤ LARGEST_INPUT }
    requires piece { 0 < trial.now.streams.piece }
    requires put_piece { 0 < trial.now.streams.put_piece }
{
    let ran = run_on(rt, alloc, trial.words, trial.text, &trial.streams)?;
    assert!(rt;
        ends_so(&ran, trial),
        "{:?} at {:?}",
        trial.words,
        trial.text
    );
    Ok(())
}
