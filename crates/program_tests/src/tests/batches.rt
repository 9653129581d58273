// Batches whose answers are known from outside.
ghost use Rattle.std.specs.Prelude.{◌<◌, ◌≤◌};
ghost use Rattle.sms_text.specs.declared.reader.TheConstants.{LARGEST_INPUT};

use batch_solve::{BatchCommand, BatchStatus, Unwatched, read_batch_words, run_batch_within};
use sms_text::{Kind, LARGEST_INPUT, MemorySink, MemorySource};
use std::alloc::{AllocError, Global};
use std::process::Abort;
use std::sync::Wait;
use std::test::Fail;
use std::thread::Threads;

// One number and one column for it, in 36 bytes of six lines.
const ONE: &str = "1 1 M\n1 1 2\n0 0 0\n1 1 M\n1 1 1\n0 0 0\n";

const ONE_ANSWER: &str = "solution\n1 1 M\n1 1 4\n0 0 0\n";

// How the streams of a batch behave: the most bytes that are read; the piece and the pull that fails; the piece of the output and the put
// to it that fails, and the put to the error stream that fails.
#[derive(Clone, Copy)]
struct Streams {
    limit: u64,
    piece: usize,
    pull: u64,
    put_piece: usize,
    put: u64,
    err_put: u64,
}

// Streams that never fail.
const CALM: Streams = Streams {
    limit: LARGEST_INPUT,
    piece: 64,
    pull: 0,
    put_piece: 64,
    put: 0,
    err_put: 0,
};

// How a batch is known to end, what its output holds then, and what its error stream tells.
#[derive(Clone, Copy)]
struct End<'a> {
    status: BatchStatus,
    out: &'a [u8],
    told: &'a [u8],
}

fn list(alloc: Global, fails: u64) -> Result<Vec<u64>, AllocError> {
    let mut list = Vec::new(alloc);
    if fails > 0 {
        list.push(fails)?;
    }
    Ok(list)
}

// Runs a batch, and compares what it came to with what is known.
fn check<'a, R: Threads + Wait + Sync + Abort>(
    rt: &R,
    alloc: Global,
    words: &'a [&'a str],
    text: &[u8],
    streams: &Streams,
    end: &End<'_>,
) -> Result<(), Fail>
    requires limit { streams.now.limit ≤ LARGEST_INPUT }
    requires piece { 0 < streams.now.piece }
    requires put_piece { 0 < streams.now.put_piece }
{
    let text = Vec::from_slice(alloc, text)?;
    let mut source = MemorySource::new(text, streams.piece, list(alloc, streams.pull)?);
    let mut out = MemorySink::new(alloc, 256, streams.put_piece, list(alloc, streams.put)?)?;
    let mut err = MemorySink::new(alloc, 64, 64, list(alloc, streams.err_put)?)?;
    let status = run_batch_within(
        rt,
        alloc,
        words,
        &mut source,
        &mut out,
        &mut err,
        &Unwatched,
        streams.limit,
    );
    let is_so = status == end.status && out.content() == end.out && err.content() == end.told;
    assert!(rt; is_so, "{:?}", words);
    Ok(())
}

// Words for one question modulo 7.
const WORDS: [&str; 2] = ["--count=1", "--modulus=7"];

#[test]
fn failing_streams_are_told(rt: HostRuntime) -> Result<(), Fail> {
    let alloc = rt.alloc();
    let unread = End {
        status: BatchStatus::ReadFault,
        out: b"",
        told: b"error 6 read\n",
    };
    for pull in 1..7u64 {
        let streams = Streams {
            piece: 6,
            pull,
            ..CALM
        };
        check(&rt, alloc, &WORDS, ONE.as_bytes(), &streams, &unread)?;
    }
    let answered = End {
        status: BatchStatus::Done,
        out: ONE_ANSWER.as_bytes(),
        told: b"",
    };
    let beyond = Streams {
        piece: 6,
        pull: 7,
        ..CALM
    };
    check(&rt, alloc, &WORDS, ONE.as_bytes(), &beyond, &answered)?;
    for put in 1..=ONE_ANSWER.len() {
        let unwritten = End {
            status: BatchStatus::WriteFault,
            out: &ONE_ANSWER.as_bytes()[..put - 1],
            told: b"error 7 write\n",
        };
        let streams = Streams {
            put_piece: 1,
            put: put as u64,
            ..CALM
        };
        check(&rt, alloc, &WORDS, ONE.as_bytes(), &streams, &unwritten)?;
    }
    Ok(())
}

#[test]
fn limits_and_a_silent_error_stream_are_told(rt: HostRuntime) -> Result<(), Fail> {
    let alloc = rt.alloc();
    let usage = End {
        status: BatchStatus::Usage,
        out: b"",
        told: b"",
    };
    let silent = Streams { err_put: 1, ..CALM };
    check(&rt, alloc, &["--workers=0"], b"", &silent, &usage)?;
    for (limit, line) in [(0, 1), (17, 3), (18, 4), (35, 6)] {
        let ran = Streams { limit, ..CALM };
        let long = End {
            status: BatchStatus::BadText {
                line,
                kind: Kind::Long,
            },
            out: b"",
            told: LONG[line as usize - 1].as_bytes(),
        };
        check(&rt, alloc, &WORDS, ONE.as_bytes(), &ran, &long)?;
    }
    Ok(())
}

// What is told of a line that is too long.
const LONG: [&str; 6] = [
    "error 3 line 1 kind 8\n",
    "error 3 line 2 kind 8\n",
    "error 3 line 3 kind 8\n",
    "error 3 line 4 kind 8\n",
    "error 3 line 5 kind 8\n",
    "error 3 line 6 kind 8\n",
];

#[test]
fn words_are_read(rt: HostRuntime) -> Result<(), Fail> {
    let alloc = rt.alloc();
    let read = read_batch_words(alloc, &["--workers=64", "--count", "1000000"])?;
    let largest = BatchCommand {
        count: 1_000_000,
        modulus: 42_013,
        workers: 64,
    };
    assert_eq!(rt; read, Some(largest));
    Ok(())
}
