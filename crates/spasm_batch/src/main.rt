//! The program for many right-hand sides: the words behind its name, the standard streams and an exit status round the top call.
#![tactic(auto)]

ghost use Rattle.std.specs.Prelude.{◌≡◌, ◌⊎◌, IfErr, IfOk, OnErr};
ghost use Rattle.spasm_words.specs.Options.{bytes_of};
ghost use Rattle.batch_solve.specs.BatchWords.{AskForNoBatch};
ghost use Rattle.std_edge.specs.Edge.{EndsWithout, texts_of, told};
ghost use Rattle.spasm_batch.specs.Ends.{BatchEndsFor};

use batch_solve::{Unwatched, run_batch};
use std::alloc::Global;
use std::io::{Read, Write};
use std::process::ExitCode;
use std::sync::Wait;
use std::thread::Threads;
use std_edge::{Ended, FromRead, NoWords, Streams, ToWrite, borrowed, end_without, words_of};

fn main(rt: HostRuntime) -> ExitCode {
    let streams = Streams {
        input: rt.stdin(),
        output: rt.stdout(),
        errors: rt.stderr(),
    };
    ExitCode::from(run_on(&rt, rt.alloc(), words_of(&rt), streams).code)
}

// Runs the batch that the words ask for on these streams. Without words the error stream says why.
fn run_on<R: Threads + Wait + Sync, I: Read, O: Write, E: Write>(
    rt: &R,
    alloc: Global,
    words: Result<Vec<String>, NoWords>,
    streams: Streams<I, O, E>,
) -> Ended<I, O, E>
    ensures ran { IfOk words (λ w. BatchEndsFor (texts_of w.items)
        (told I.remaining O.contents E.contents streams)
        (told I.remaining O.contents E.contents result.streams) result.code) }
    ensures without { IfErr words (λ reason. EndsWithout reason
        (E.contents streams.errors) (E.contents result.streams.errors) result.code) }
    ensures input { OnErr words (result.streams.input ≡ streams.input) }
    ensures output { OnErr words (result.streams.output ≡ streams.output) }
    ensures refused { IfOk words (λ w. AskForNoBatch (texts_of w.items)
        → (result.code ≡ 2) ⊎ (result.code ≡ 8)) }
    ensures usage { IfOk words (λ w. result.code ≡ 2 → AskForNoBatch (texts_of w.items)) }
{
    match words {
        Ok(owned) => run_words(rt, alloc, &owned, streams),
        Err(reason) => end_without(reason, streams),
    }
}

// The same for words that there are. Without memory to lend them the error stream says so.
fn run_words<R: Threads + Wait + Sync, I: Read, O: Write, E: Write>(
    rt: &R,
    alloc: Global,
    owned: &[String],
    streams: Streams<I, O, E>,
) -> Ended<I, O, E>
    ensures { BatchEndsFor (texts_of owned.now)
        (told I.remaining O.contents E.contents streams)
        (told I.remaining O.contents E.contents result.streams) result.code }
{
    match borrowed(alloc, owned) {
        Ok(words) => run_lent(rt, alloc, &words, streams),
        Err(_) => end_without(NoWords::Memory, streams),
    }
}

// The same for words that are lent as the top call takes them.
fn run_lent<'a, R: Threads + Wait + Sync, I: Read, O: Write, E: Write>(
    rt: &R,
    alloc: Global,
    words: &'a [&'a str],
    streams: Streams<I, O, E>,
) -> Ended<I, O, E>
    ensures { BatchEndsFor (bytes_of words.now)
        (told I.remaining O.contents E.contents streams)
        (told I.remaining O.contents E.contents result.streams) result.code }
{
    let mut source = FromRead::new(streams.input);
    let mut out = ToWrite::new(streams.output);
    let mut err = ToWrite::new(streams.errors);
    let status = run_batch(
        rt,
        alloc,
        words,
        &mut source,
        &mut out,
        &mut err,
        &Unwatched,
    );
    Ended {
        code: status.code(),
        streams: Streams {
            input: source.into_reader(),
            output: out.into_writer(),
            errors: err.into_writer(),
        },
    }
}
